//! Laws of the definitions.

ghost use Rattle.hc_trace.specs.Laws.{RunsAreInRange, BehavioursAreInRange, CanonicalIsInRange, OneTrace, OneRefusal, TextsAreNotRefused};
ghost use Rattle.hc_trace.specs.Written.{WrittenIsTrace};

/// What the steps and stops of every task name. There is nothing to run: the clauses are the laws.
pub fn range_laws()
    ensures runs { RunsAreInRange }
    ensures behaviours { BehavioursAreInRange }
    ensures canonical { CanonicalIsInRange }
{}

/// What bytes tell of a trace, and that what is written is read. There is nothing to run: the clauses are the laws.
pub fn reading_laws()
    ensures one_trace { OneTrace }
    ensures one_refusal { OneRefusal }
    ensures not_refused { TextsAreNotRefused }
    ensures written { WrittenIsTrace }
{}
