//! The moments at which bounds run out.

ghost use Rattle.std.specs.Prelude.{◌≡◌, ◌<◌, ◌↔◌, [], AllPairs, IfSome, IfNone, IsTrue, None, Some};
ghost use Rattle.hc_limits.specs.Limits.{most_processes};
ghost use Rattle.hc_board.specs.Deadlines.{IsBefore, AreInOrder, IsPlaceOf, HasNone, HasDue, IsPlaceFor, IsSet};

use arrayvec::ArrayVec;
use hc_frac::Frac;
use hc_limits::MOST_PROCESSES;
use std::cmp::Ordering;

/// The moment at which the bound of a process runs out, in time units from the start of the run.
#[derive(Clone, Copy, Debug, PartialEq, Eq, Default)]
pub struct Deadline {
    pub process: u32,
    pub due: Frac,
}

/// Whether one stands before the other: by moment, and at the same moment by process.
fn is_before(one: &Deadline, other: &Deadline) -> bool
    ensures { IsTrue result ↔ IsBefore one.now other.now }
{
    match one.due.compare(other.due) {
        Ordering::Less => true,
        Ordering::Equal => one.process < other.process,
        Ordering::Greater => false,
    }
}

/// Where the deadline of a process stands.
fn place_of(deadlines: &[Deadline], process: u32) -> Option<usize>
    ensures there { IfSome result (λ at. IsPlaceOf process deadlines.now at) }
    ensures none { IfNone result (HasNone process deadlines.now) }
{
    for at in 0..deadlines.len() {
        if deadlines[at].process == process {
            return Some(at);
        }
    }
    None
}

/// Where a deadline belongs whose process has none yet.
fn place_for(deadlines: &[Deadline], one: &Deadline) -> usize
    requires ordered { AllPairs IsBefore deadlines.now }
    requires none { HasNone one.now.process deadlines.now }
    ensures { IsPlaceFor one.now deadlines.now result }
{
    for at in 0..deadlines.len() {
        if !is_before(&deadlines[at], one) {
            return at;
        }
    }
    deadlines.len()
}

/// At most one deadline for each process, in a list ordered by moment and then process.
#[derive(Drop)]
pub(crate) struct Deadlines {
    pub(crate) list: ArrayVec<Deadline, MOST_PROCESSES>,
}

impl Deadlines {
    /// No process has a deadline.
    pub(crate) fn none() -> Deadlines
        ensures { result.list.items ≡ [] }
    {
        Deadlines {
            list: ArrayVec::new(),
        }
    }

    /// Takes away the deadline of a process, where it has one.
    fn remove(&mut self, process: u32)
        requires { AreInOrder self.old.list.items }
        ensures { IsSet process None self.old.list.items self.new.list.items }
    {
        if let Some(at) = place_of(self.list.as_slice(), process) {
            self.list.remove(at);
        }
    }

    /// Puts a deadline in its place, for a process that has none.
    fn insert(&mut self, process: u32, due: Frac)
        requires kept { AreInOrder self.old.list.items }
        requires process { process < most_processes }
        requires none { HasNone process self.old.list.items }
        ensures { IsSet process (Some due) self.old.list.items self.new.list.items }
    {
        let deadline = Deadline { process, due };
        let at = place_for(self.list.as_slice(), &deadline);
        self.list.insert(at, deadline);
    }

    /// Takes away the deadline of a process that has this one, or none.
    fn take(&mut self, process: u32, before: Option<Frac>)
        requires kept { AreInOrder self.old.list.items }
        requires has { HasDue process before self.old.list.items }
        ensures { IsSet process None self.old.list.items self.new.list.items }
    {
        if before.is_some() {
            self.remove(process);
        }
    }

    /// Sets the deadline of a process, or that it has none, where it had this one before, or none.
    pub(crate) fn set(&mut self, process: u32, before: Option<Frac>, due: Option<Frac>)
        requires kept { AreInOrder self.old.list.items }
        requires process { process < most_processes }
        requires has { HasDue process before self.old.list.items }
        ensures { IsSet process due self.old.list.items self.new.list.items }
    {
        self.take(process, before);
        if let Some(due) = due {
            self.insert(process, due);
        }
    }
}
