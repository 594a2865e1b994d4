//! Laws of the end moment as generated C finds it.

ghost use Rattle.hc_cend.specs.Laws.{FindsEndMoment, FindsItInC, FitsAsItMust};
ghost use Rattle.hc_cend.specs.Size.{EndIsShort};

/// What holds of every condition. There is nothing to run: the clauses are the laws.
pub fn candidate_laws()
    ensures found { FindsEndMoment }
    ensures fits { FitsAsItMust }
{}

/// What the code of every domain does, and how long it is; again with nothing to run.
pub fn end_moment_laws()
    ensures finds { FindsItInC }
    ensures short { EndIsShort }
{}
