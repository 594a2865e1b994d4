//! Laws of the definitions.

ghost use Rattle.hc_cmach.specs.Pair.{PairIsSafe};
ghost use Rattle.hc_cmach.specs.Laws.{SchedulesReduce, StepsKeepToTheirOwn, ItemsChangePlaces, RunsAloneAreSections, IdleChangesNothing, UndefinedChangesNothing, LinesNameTheirThread, MovedIsCounted, PerformedIsScheduled};

/// What holds of every program under every schedule. There is nothing to run: the clauses are the laws.
pub fn schedules()
    ensures reduce { SchedulesReduce }
    ensures footprints { StepsKeepToTheirOwn }
    ensures places { ItemsChangePlaces }
    ensures sections { RunsAloneAreSections }
{}

/// What holds of every item, and of the schedule of every seed. There is nothing to run: the clauses are the laws.
pub fn items()
    ensures idle { IdleChangesNothing }
    ensures undefined { UndefinedChangesNothing }
    ensures lines { LinesNameTheirThread }
    ensures counted { MovedIsCounted }
    ensures seeded { PerformedIsScheduled }
{}

/// An example: two threads that take turns. There is nothing to run: the clause is the law.
pub fn two_threads()
    ensures { PairIsSafe }
{}
