//! Who owns the mutex, what it guards, and the threads.

ghost use Rattle.std.specs.Prelude.{◌≡◌, map, slice_get, slice_index_or, option_copied, Some};
ghost use Rattle.hc_rational.specs.Words.{zero_ℚ};
ghost use Rattle.hc_schedule.specs.Threads.{hold};
ghost use Rattle.hc_cexec.specs.declared.thread.Thread.{Thread};
ghost use Rattle.hc_cexec.specs.Applied.{stirred_in, stirred_after, replaced, thread_after, owner_after, takes};
ghost use Rattle.hc_cexec.specs.Applied as applied;

use crate::asked::{Act, Answer, Asked, Then};
use crate::asking::ask;
use crate::row::Row;
use crate::thread::Thread;
use hc_ccode::{Code, Entry};
use hc_cmach::Kind;
use hc_cprim::{Arrays, Numbers, Primitives, Seat};
use hc_frac::Frac;
use hc_schedule::Status;

/// The row that is shared; a lower one belongs to the thread of that number.
const COMMON_ROW: usize = 64;

/// All that steps change, but for what was printed.
#[derive(Drop)]
pub(crate) struct World {
    pub(crate) owner: Option<usize>,
    /// The row that is shared.
    pub(crate) row: Row,
    pub(crate) arrays: Arrays,
    pub(crate) threads: Vec<Thread>,
    /// The values of a call's arguments, while a step lasts.
    pub(crate) arguments: Numbers,
}

/// Whether a thread owns the mutex.
fn is_mine(owner: Option<usize>, thread: usize) -> bool
    ensures { result ≡ applied.is_mine (hold owner thread) }
{
    match owner {
        Some(other) => other == thread,
        None => false,
    }
}

/// What is done by the owner of the mutex alone.
fn under(owner: Option<usize>, thread: usize, kind: Kind, act: &Act, then: Then) -> Answer
    ensures { result ≡ applied.under (hold owner thread) kind (takes act.now then) }
{
    if is_mine(owner, thread) {
        Answer::Takes(*act, then)
    } else {
        Answer::Undefined(kind)
    }
}

/// Taking the mutex.
fn locking(owner: Option<usize>, thread: usize, act: &Act, then: Then) -> Answer
    ensures { result ≡ applied.locking (hold owner thread) (takes act.now then) }
{
    match owner {
        None => Answer::Takes(*act, then),
        Some(other) if other == thread => Answer::Undefined(Kind::LockedTwice),
        Some(_) => Answer::Blocked,
    }
}

/// Whether a thread may do this.
fn ruled(owner: Option<usize>, thread: usize, act: &Act, then: Then) -> Answer
    ensures { result ≡ applied.ruled (hold owner thread) act.now (takes act.now then) }
{
    match act {
        Act::Goes | Act::PutsOwn { .. } => Answer::Takes(*act, then),
        Act::Locks => locking(owner, thread, act, then),
        Act::Unlocks | Act::Waits(_) => under(owner, thread, Kind::NotOwner, act, then),
        Act::Wakes(_)
        | Act::PutsCommon { .. }
        | Act::Stores { .. }
        | Act::Prints(_)
        | Act::Retakes => under(owner, thread, Kind::Unlocked, act, then),
    }
}

/// What becomes of the owner.
fn owner_behind(act: &Act, thread: usize, owner: Option<usize>) -> Option<usize>
    ensures { result ≡ owner_after act.now thread owner }
{
    match act {
        Act::Locks | Act::Retakes => Some(thread),
        Act::Unlocks | Act::Waits(_) => None,
        _ => owner,
    }
}

/// A woken thread takes the mutex again, once nobody owns it.
fn retaken(owner: Option<usize>, thread: usize) -> Answer
    ensures { result ≡ applied.retaken (hold owner thread) }
{
    match owner {
        None => Answer::Takes(Act::Retakes, Then::Stays),
        Some(_) => Answer::Blocked,
    }
}

/// The thread of a number, if there is one.
fn thread_of(threads: &Vec<Thread>, number: usize) -> Option<&Thread>
    ensures { option_copied result ≡ slice_get threads.now.items number }
{
    threads.get(number)
}

/// Wakes all threads that wait on a condition.
fn stir(threads: &mut [Thread], on: u32)
    ensures { threads.new ≡ map (stirred_in on) threads.old }
{
    for at in 0..threads.len() {
        threads[at].stir(on);
    }
}

impl World {
    ghost use Rattle.hc_cexec.specs.Answers.{AnswersAs, AnswersReady, KeepsAll};
    ghost use Rattle.hc_cexec.specs.Applied.{IsAfter};

    /// The thread of a number, if there is one.
    pub(crate) fn thread(&self, number: usize) -> Option<&Thread>
        ensures { option_copied result ≡ slice_get self.now.threads.items number }
    {
        thread_of(&self.threads, number)
    }

    /// A register of a row, whosever it is. The row of no thread is all 0.
    fn register(&self, row: usize, register: usize) -> Frac
        ensures { result ≡ slice_index_or (applied.row_in self.now row) register zero_ℚ }
    {
        if row == COMMON_ROW {
            return self.row.at(register);
        }
        match self.thread(row) {
            Some(thread) => thread.row.at(register),
            None => Frac::zero(),
        }
    }

    /// Why a division by a register that the thread doesn't reach is undefined.
    fn kind_of_division(&self, row: usize, register: usize, kind: Kind) -> Kind
        ensures { result ≡ applied.kind_by self.now row register kind }
    {
        if self.register(row, register).is_zero() {
            Kind::ZeroDivisor
        } else {
            kind
        }
    }

    /// What comes of what a thread asks for.
    fn settle(&self, thread: usize, asked: &Asked) -> Answer
        ensures { result ≡ applied.settled self.now thread asked.now }
    {
        match asked {
            Asked::Returned => Answer::Over,
            Asked::Fails(kind) => Answer::Undefined(*kind),
            Asked::Divides {
                row,
                register,
                kind,
            } => Answer::Undefined(self.kind_of_division(*row, *register, *kind)),
            Asked::Does(act, then) => ruled(self.owner, thread, act, *then),
        }
    }

    /// What a thread that is ready comes to.
    fn answer_ready<R: Primitives>(
        &mut self,
        by: &mut R,
        code: &Code,
        number: usize,
        channels: usize,
        processes: usize,
    ) -> Answer
        ensures keeps { KeepsAll self.old self.new }
        ensures answers { (th : Thread) → slice_get self.old.threads.items number ≡ Some th →
            AnswersReady code.now self.old number channels processes th self.new.arguments result }
    {
        let Some(thread) = thread_of(&self.threads, number) else {
            return Answer::Over;
        };
        let seat = Seat {
            thread: number,
            owns: is_mine(self.owner, number),
            row: thread.row.as_slice(),
            common: self.row.as_slice(),
            channels,
            processes,
        };
        let asked = ask(by, code, &seat, &self.arrays, thread, &mut self.arguments);
        self.settle(number, &asked)
    }

    /// What a step of a thread comes to. Nothing changes yet, but for the values of a call's arguments.
    pub(crate) fn answer<R: Primitives>(
        &mut self,
        by: &mut R,
        code: &Code,
        number: usize,
        channels: usize,
        processes: usize,
    ) -> Answer
        ensures keeps { KeepsAll self.old self.new }
        ensures answers { AnswersAs code.now self.old number channels processes self.new.arguments result }
    {
        let Some(thread) = self.thread(number) else {
            return Answer::Over;
        };
        match thread.status {
            Status::Ready => self.answer_ready(by, code, number, channels, processes),
            Status::Waiting { .. } => Answer::Blocked,
            Status::Woken => retaken(self.owner, number),
        }
    }

    /// What the mutex guards becomes what a step makes of it.
    fn put(&mut self, act: &Act)
        ensures row { self.new.row ≡ applied.row_after act.now self.old.row }
        ensures arrays { self.new.arrays ≡ applied.arrays_after act.now self.old.arrays }
        ensures same { (self.new.owner ≡ self.old.owner) × (self.new.threads ≡ self.old.threads) × (self.new.arguments ≡ self.old.arguments) }
    {
        match act {
            Act::PutsCommon { register, value } => self.row.set(*register, *value),
            Act::Stores {
                array,
                index,
                value,
            } => self.arrays.set(*array, *index, *value),
            _ => {}
        }
    }

    /// The thread of a number does its own part of a step.
    fn step_thread(&mut self, functions: &[Entry], number: usize, act: &Act, then: Then)
        ensures threads { self.new.threads.items ≡ replaced self.old.threads.items number (thread_after functions.now self.old.arguments act.now then) }
        ensures same { (self.new.owner ≡ self.old.owner) × (self.new.row ≡ self.old.row) × (self.new.arrays ≡ self.old.arrays) × (self.new.arguments ≡ self.old.arguments) }
    {
        if number < self.threads.len() {
            self.threads[number].step(functions, self.arguments.as_slice(), act, then);
        }
    }

    /// All that wait on a condition are woken, where that is what is done.
    fn wake_up(&mut self, act: &Act)
        ensures threads { self.new.threads.items ≡ stirred_after act.now self.old.threads.items }
        ensures same { (self.new.owner ≡ self.old.owner) × (self.new.row ≡ self.old.row) × (self.new.arrays ≡ self.old.arrays) × (self.new.arguments ≡ self.old.arguments) }
    {
        if let Act::Wakes(on) = act {
            stir(self.threads.as_mut_slice(), *on);
        }
    }

    /// Does a step of a thread.
    pub(crate) fn apply(&mut self, functions: &[Entry], number: usize, act: &Act, then: Then)
        ensures { IsAfter functions.now number act.now then self.old self.new }
    {
        self.owner = owner_behind(act, number, self.owner);
        self.put(act);
        self.step_thread(functions, number, act, then);
        self.wake_up(act);
    }

    /// Whether a thread waits on a condition and isn't woken.
    pub(crate) fn is_waiting(&self, number: usize) -> bool
        ensures { result ≡ applied.is_waiting (slice_get self.now.threads.items number) }
    {
        match self.thread(number) {
            Some(thread) => thread.is_waiting(),
            None => false,
        }
    }

    /// Wakes a thread that waits on a condition; false exactly where it doesn't.
    pub(crate) fn rouse(&mut self, number: usize) -> bool
        ensures says { result ≡ applied.is_waiting (slice_get self.old.threads.items number) }
        ensures roused { self.new.threads.items ≡ applied.roused self.old.threads.items number }
        ensures same { (self.new.owner ≡ self.old.owner) × (self.new.row ≡ self.old.row) × (self.new.arrays ≡ self.old.arrays) × (self.new.arguments ≡ self.old.arguments) }
    {
        if !self.is_waiting(number) {
            return false;
        }
        if number < self.threads.len() {
            self.threads[number].status = Status::Woken;
        }
        true
    }
}
