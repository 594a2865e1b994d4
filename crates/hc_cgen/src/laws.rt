//! The law of generated programs.

ghost use Rattle.hc_cgen.specs.Laws.{ProgramsAreGenerated};

/// What holds of the program of every task. There is nothing to run: the clause is the law.
pub fn program_laws()
    ensures { ProgramsAreGenerated }
{}
