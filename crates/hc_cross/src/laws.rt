//! Laws of lines and of the end moment.

ghost use Rattle.hc_term.specs.EndMoment.{EndMomentIsRight};
ghost use Rattle.hc_cross.specs.Laws.{MovesAlongLine, OneEndMoment, EndAfterDelay};

/// What holds of every affine expression. There is nothing to run: the clause is the law.
pub fn line_laws()
    ensures { MovesAlongLine }
{}

/// What holds of every condition whose comparisons are affine. There is nothing to run: the clauses are the
/// laws.
pub fn end_moment_laws()
    ensures right { EndMomentIsRight }
    ensures one { OneEndMoment }
    ensures delay { EndAfterDelay }
{}
