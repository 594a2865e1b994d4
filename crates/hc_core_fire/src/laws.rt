//! Laws of one pass.

ghost use Rattle.hc_core_fire.specs.First.{BoardsAtFirst};
ghost use Rattle.hc_core_fire.specs.PassOfC.{OnePassOfC, OnePassOfBoards, OneMeetingAPost};

/// What a call of `f_pass` does, what its twin on plain lists does, who meets in a pass, and what a board of zeros
/// stands for. There is nothing to run: the clauses are the
/// laws.
pub fn pass_laws()
    ensures pass { OnePassOfC }
    ensures boards { OnePassOfBoards }
    ensures meeting { OneMeetingAPost }
    ensures first { BoardsAtFirst }
{}
