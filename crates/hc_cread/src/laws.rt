//! Laws of the definitions.

ghost use Rattle.hc_cread.specs.Laws.{OneProgram, OneRefusal, UnitsAreNotRefused, EveryUnitIsOne};
ghost use Rattle.hc_cread.specs.TextLaws.{OneTextProgram, OneTextRefusal, TextsAreNotRefused, EveryTextIsOne};

/// What holds of all bytes as units, wherever they begin. There is nothing to run: the clauses are the laws.
pub fn unit_laws()
    ensures one_program { OneProgram }
    ensures one_refusal { OneRefusal }
    ensures not_refused { UnitsAreNotRefused }
    ensures every_text { EveryUnitIsOne }
{}

/// What holds of all bytes as whole texts.
pub fn text_laws()
    ensures one_program { OneTextProgram }
    ensures one_refusal { OneTextRefusal }
    ensures not_refused { TextsAreNotRefused }
    ensures every_text { EveryTextIsOne }
{}
