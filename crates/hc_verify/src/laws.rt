//! Laws of verdicts.

ghost use Rattle.hc_verify.specs.Laws.{TraceHasOneVerdict, YesIsOfBehaviour, TextsAreWritten, YesIsFirstPart};

/// What holds of the verdicts on every trace. There is nothing to run: the clauses are the laws.
pub fn verdict_laws()
    ensures one { TraceHasOneVerdict }
    ensures yes { YesIsOfBehaviour }
    ensures written { TextsAreWritten }
    ensures texts { YesIsFirstPart }
{}
