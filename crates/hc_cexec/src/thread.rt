//! Threads.

ghost use Rattle.std.specs.Prelude.{◌≡◌, slice_get};
ghost use Rattle.hc_cexec.specs.Goes.{went, went_from, with_row, entered, left};
ghost use Rattle.hc_schedule.specs.Threads.{waits};
ghost use Rattle.hc_cexec.specs.Applied.{status_after, thread_after, stirred_in};

use crate::activation::Activations;
use crate::asked::{Act, Then};
use crate::row::Row;
use hc_ccode::Entry;
use hc_schedule::Status;

/// A thread: its row, a body for each function and one of its own behind them, of which one is at hand, and how it stands.
/// With no body at hand it has returned.
#[derive(Drop)]
pub(crate) struct Thread {
    pub(crate) row: Row,
    pub(crate) activations: Activations,
    pub(crate) current: Option<usize>,
    pub(crate) status: Status,
}

/// How a thread stands behind a step.
fn status_behind(act: &Act) -> Status
    ensures { result ≡ status_after act.now }
{
    match act {
        Act::Waits(on) => Status::Waiting { on: *on },
        _ => Status::Ready,
    }
}

impl Thread {
    /// A register of its row may become a value.
    fn put(&mut self, act: &Act)
        ensures { self.new ≡ with_row act.now self.old }
    {
        if let Act::PutsOwn { register, value } = act {
            self.row.set(*register, *value);
        }
    }

    /// Enters a function whose arguments are at hand, and leaves its caller at a place.
    fn enter(
        &mut self,
        functions: &[Entry],
        arguments: &[i64],
        current: usize,
        function: usize,
        target: Option<usize>,
        place: usize,
    )
        ensures { self.new ≡ entered self.old current (slice_get functions.now function) arguments.now function target place }
    {
        let Some(entry) = functions.get(function) else {
            return;
        };
        self.activations.go_on(current, None, 0, place);
        self.activations
            .start(function, *entry, arguments, current, target);
        self.current = Some(function);
    }

    /// Goes back behind the call that began a body, with a value.
    fn leave(&mut self, current: usize, value: i64)
        ensures { self.new ≡ left self.old (slice_get self.old.activations current) value }
    {
        let Some(body) = self.activations.get(current) else {
            return;
        };
        let (caller, result) = (body.caller, body.result);
        if let Some(number) = caller {
            self.activations.store(number, result, value);
        }
        self.current = caller;
    }

    /// Goes on behind a step.
    fn go(&mut self, functions: &[Entry], arguments: &[i64], then: Then)
        ensures { self.new ≡ went functions.now arguments.now then self.old }
    {
        let Some(current) = self.current else {
            return;
        };
        match then {
            Then::On {
                result,
                value,
                place,
            } => self.activations.go_on(current, result, value, place),
            Then::Into {
                function,
                result,
                place,
            } => self.enter(functions, arguments, current, function, result, place),
            Then::Back { value } => self.leave(current, value),
            Then::Stays => {}
        }
    }

    /// Does its own part of a step.
    pub(crate) fn step(&mut self, functions: &[Entry], arguments: &[i64], act: &Act, then: Then)
        ensures { self.new ≡ thread_after functions.now arguments.now act.now then self.old }
    {
        self.put(act);
        self.go(functions, arguments, then);
        self.status = status_behind(act);
    }

    /// Is woken, where it waits on this condition.
    pub(crate) fn stir(&mut self, on: u32)
        ensures { self.new ≡ stirred_in on self.old }
    {
        match self.status {
            Status::Waiting { on: condition } if condition == on => self.status = Status::Woken,
            _ => {}
        }
    }

    /// Whether it waits and isn't woken.
    pub(crate) fn is_waiting(&self) -> bool
        ensures { result ≡ waits self.now.status }
    {
        match self.status {
            Status::Waiting { .. } => true,
            Status::Ready | Status::Woken => false,
        }
    }
}
