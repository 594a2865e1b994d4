//! Laws of the definitions.

ghost use Rattle.hc_check.specs.Laws.{OneSystem, OneRefusal, CheckedIsNotRefused, FreeHasSystem, EachIsDecided};

/// What holds of all expanded sources. There is nothing to run: the clauses are the laws.
pub fn system_laws()
    ensures one_system { OneSystem }
    ensures one_refusal { OneRefusal }
    ensures not_refused { CheckedIsNotRefused }
    ensures free { FreeHasSystem }
    ensures decided { EachIsDecided }
{}
