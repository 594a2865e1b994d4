//! Laws of the definitions.

ghost use Rattle.hc_term.specs.Laws.{CanonicalIsBehaviour, GoesOnOrStops, SilentStepsCommute, SilentAndCommCommute, DelaysKeepQuiet, EventIsRun, OpeningIsQuiet, EventsEndQuiet, CanonicalByEvents, RunIsPrefix, ClockKeepsHorizon, HorizonIsReached, MeetingsJoinTwo, MeetingsAreUnique, MeetingsJoinEnds, AffineIsDefined, DomainIsDefined};

/// What holds of every task. There is nothing to run: the clauses are the laws.
pub fn step_laws()
    ensures canonical { CanonicalIsBehaviour }
    ensures progress { GoesOnOrStops }
    ensures silent_commute { SilentStepsCommute }
    ensures meetings_commute { SilentAndCommCommute }
    ensures quiet { DelaysKeepQuiet }
    ensures events { EventIsRun }
{}

/// What holds of every run of a task, from its opening on. There is nothing to run: the clauses are the laws.
pub fn run_laws()
    ensures prefix { RunIsPrefix }
    ensures clock { ClockKeepsHorizon }
    ensures horizon { HorizonIsReached }
    ensures joins_two { MeetingsJoinTwo }
    ensures unique { MeetingsAreUnique }
    ensures ends { MeetingsJoinEnds }
{}

/// What holds of every event. There is nothing to run: the clauses are the laws.
pub fn event_laws()
    ensures opening_quiet { OpeningIsQuiet }
    ensures end_quiet { EventsEndQuiet }
    ensures canonical { CanonicalByEvents }
{}

/// What holds of every expression and condition. There is nothing to run: the clauses are the laws.
pub fn expression_laws()
    ensures defined { AffineIsDefined }
    ensures defined_test { DomainIsDefined }
{}
