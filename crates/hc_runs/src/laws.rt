//! Laws of delays, of meetings, of runs, of turns, and of fractions.

ghost use Rattle.hc_runs.specs.Laws.{PostsMove, AllPostsMove, DelaysEnd, DelayFits, PostsMeet, RunsKeepRules, OpeningGoesOn, EventsGoOn, PostsArePaired, ReadyJoins, AbleHasLeast, LeastWants, TurnsAreRun, TurnsStop, TurnsGoOn, TurnsKeep, TurnsAreVisible, TurnsEnd, TurnsAreFew, LeastTurnsAreTurns, LeastTurnAdvances, LeastTurnsBegin, LeastTurnsAreCanonical, RunsKeepFractions, ItemsAreFractions};

/// What holds of every delay. There is nothing to run: the clauses are the laws.
pub fn delay_laws()
    ensures posts { PostsMove }
    ensures all_posts { AllPostsMove }
    ensures ends { DelaysEnd }
    ensures fits { DelayFits }
{}

/// What holds of every meeting of two processes. There is nothing to run: the clause is the law.
pub fn meeting_laws()
    ensures { PostsMeet }
{}

/// What holds of every run of a task, from its opening on. There is nothing to run: the clauses are the laws.
pub fn run_laws()
    ensures rules { RunsKeepRules }
    ensures opening { OpeningGoesOn }
    ensures events { EventsGoOn }
    ensures posts { PostsArePaired }
    ensures meetings { ReadyJoins }
{}

/// What holds of all turns of processes that want a silent step. There is nothing to run: the clauses are the laws.
pub fn turn_laws()
    ensures able { AbleHasLeast }
    ensures wanting { LeastWants }
    ensures run { TurnsAreRun }
    ensures stop { TurnsStop }
    ensures going { TurnsGoOn }
    ensures kept { TurnsKeep }
    ensures visible { TurnsAreVisible }
    ensures falling { TurnsEnd }
    ensures few { TurnsAreFew }
    ensures least { LeastTurnsAreTurns }
    ensures advance { LeastTurnAdvances }
    ensures beginning { LeastTurnsBegin }
    ensures canonical { LeastTurnsAreCanonical }
{}

/// What holds of the numbers of every run of a task. There is nothing to run: the clauses are the laws.
pub fn fraction_laws()
    ensures reached { RunsKeepFractions }
    ensures items { ItemsAreFractions }
{}
