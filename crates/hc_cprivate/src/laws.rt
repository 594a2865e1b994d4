//! Laws of private code with all its parts.

ghost use Rattle.hc_cprivate.specs.Body.{BodiesTakeSteps};
ghost use Rattle.hc_cprivate.specs.Whole.{LimitIsEnough, PartsAreQuick, PrivateCodeStands};

/// What private code does, for every process that keeps the rules, in how many machine steps; and the same of the body of a thread.
/// There is nothing to run: the clauses are the laws.
pub fn private_code_laws()
    ensures stands { PrivateCodeStands }
    ensures limit { LimitIsEnough }
    ensures quick { PartsAreQuick }
    ensures bodies { BodiesTakeSteps }
{}
