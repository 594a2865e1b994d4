//! Laws of private code.

ghost use Rattle.hc_cstep.specs.Laws.{PrivateCodeIsStretch, PrivateCodeRunsAlone, RuledCodeIsMade, PrivateCodeIsShort, StretchesAreQuick};

/// What private code does, how long it is and how many machine steps it takes. There is nothing to run: the clauses are the laws.
pub fn stretch_laws()
    ensures stretch { PrivateCodeIsStretch }
    ensures alone { PrivateCodeRunsAlone }
    ensures made { RuledCodeIsMade }
    ensures short { PrivateCodeIsShort }
    ensures quick { StretchesAreQuick }
{}
