//! The machine.

ghost use Rattle.std.specs.Prelude.{◌≡◌, ◌≤◌, IfOk, slice_get};
ghost use Rattle.hc_schedule.specs.Sections.{Step, Wake};
ghost use Rattle.hc_schedule.specs.Threads.{is_waiting};
ghost use Rattle.hc_cast.specs.declared.program.CProgram.{CProgram};
ghost use Rattle.hc_cmach.specs.Calls.{CallsGoBack};
ghost use Rattle.hc_cmach.specs.Line.{first_end};
ghost use Rattle.hc_cmach.specs.Machine.{CState, opening, stepped, step_said};

use crate::asked::{Act, Answer, Then};
use crate::kernel::World;
use crate::opening::open_world;
use crate::told::Told;
use hc_cast::CProgram;
use hc_ccode::{Code, prepare};
use hc_cmach::Moved;
use hc_cprim::{Plain, Primitives};
use std::alloc::{AllocError, Global};

/// A program and where all its threads stand, after any steps and wake-ups: a state of the thread machine (`IsAt`). No
/// call but `open` takes memory.
#[derive(Drop)]
pub struct Machine {
    pub(crate) code: Code,
    pub(crate) world: World,
    pub(crate) told: Told,
    pub(crate) moved: u64,
    pub(crate) channels: usize,
    pub(crate) processes: usize,
}

impl Machine {
    ghost use Rattle.hc_cexec.specs.Answers.{AnswersAs};
    ghost use Rattle.hc_cexec.specs.Applied.{is_waiting as waits_there};
    ghost use Rattle.hc_cexec.specs.Stands.{IsAt, last_text, counted};
    ghost use Rattle.hc_cexec.specs.Taken.{IsKept, IsTaken, IsRoused, said_of};

    /// The opening of a program whose calls go back, as those of every program of the grammar do. The one error is want of
    /// memory.
    pub fn open(alloc: Global, program: &CProgram) -> Result<Machine, AllocError>
        requires { CallsGoBack program.now }
        ensures { IfOk result (λ m. IsAt program.now m (opening program.now)) }
    {
        let code = prepare(alloc, program)?;
        let world = open_world(alloc, program, &code)?;
        Ok(Machine {
            code,
            world,
            told: Told::nothing(),
            moved: 0,
            channels: program.channels.len(),
            processes: program.processes.len(),
        })
    }

    /// What a step of a thread comes to. Nothing changes yet, but for the values of a call's arguments.
    fn answer<R: Primitives>(&mut self, by: &mut R, thread: usize) -> Answer
        ensures keeps { IsKept self.old self.new }
        ensures answers { AnswersAs self.old.code self.old.world thread self.old.channels self.old.processes self.new.world.arguments result }
    {
        self.world
            .answer(by, &self.code, thread, self.channels, self.processes)
    }

    /// Takes a step of a thread.
    fn take(&mut self, program: &CProgram, thread: usize, act: &Act, then: Then) -> Moved
        ensures says { result ≡ said_of act.now }
        ensures taken { IsTaken program.now thread act.now then self.old self.new }
    {
        self.world
            .apply(self.code.functions.as_slice(), thread, act, then);
        self.moved = self.moved.saturating_add(1);
        match act {
            Act::Prints(line) => {
                self.told.print(program, line);
                Moved::Printed
            }
            _ => Moved::Moved,
        }
    }

    /// One step of a thread of the program with which the machine was opened, its fractions worked out by `by`. What is
    /// blocked, over or undefined leaves the state as it was.
    pub fn step_by<R: Primitives>(&mut self, program: &CProgram, by: &mut R, thread: u32) -> Moved
        ensures says { (s : CState) → IsAt program.now self.old s → result ≡ step_said program.now s thread }
        ensures at { (s : CState) → IsAt program.now self.old s → IsAt program.now self.new (stepped program.now s (Step thread)) }
    {
        let thread = thread as usize;
        match self.answer(by, thread) {
            Answer::Blocked => Moved::Blocked,
            Answer::Over => Moved::Over,
            Answer::Undefined(kind) => Moved::Undefined(kind),
            Answer::Takes(act, then) => self.take(program, thread, &act, then),
        }
    }

    /// `step_by` with the arithmetic of `Plain`.
    pub fn step(&mut self, program: &CProgram, thread: u32) -> Moved
        ensures says { (s : CState) → IsAt program.now self.old s → result ≡ step_said program.now s thread }
        ensures at { (s : CState) → IsAt program.now self.old s → IsAt program.now self.new (stepped program.now s (Step thread)) }
    {
        self.step_by(program, &mut Plain, thread)
    }

    /// Wakes a thread, if it waits on a condition, and tells whether it did.
    fn rouse(&mut self, thread: usize) -> bool
        ensures says { result ≡ waits_there (slice_get self.old.world.threads.items thread) }
        ensures roused { IsRoused thread self.old self.new }
    {
        self.world.rouse(thread)
    }

    /// A spurious wake-up of a thread; false exactly where it isn't waiting, and then nothing changes.
    pub fn wake(&mut self, thread: u32) -> bool
        ensures says { (g : CProgram) (s : CState) → IsAt g self.old s → result ≡ is_waiting (slice_get s.world.threads thread) }
        ensures at { (g : CProgram) (s : CState) → IsAt g self.old s → IsAt g self.new (stepped g s (Wake thread)) }
    {
        self.rouse(thread as usize)
    }

    /// Whether a thread waits on a condition and isn't woken.
    pub fn waiting(&self, thread: u32) -> bool
        ensures { (g : CProgram) (s : CState) → IsAt g self.now s → result ≡ is_waiting (slice_get s.world.threads thread) }
    {
        self.world.is_waiting(thread as usize)
    }

    /// The line that was printed last, with its newline; before the first nothing.
    pub fn line(&self) -> &str
        ensures { (g : CProgram) (s : CState) → IsAt g self.now s → result.now ≡ last_text g s.lines }
    {
        self.told.line.as_str()
    }

    /// The kind of the first end line, once one was printed.
    pub fn ended(&self) -> Option<u32>
        ensures { (g : CProgram) (s : CState) → IsAt g self.now s → result ≡ first_end s.lines }
    {
        self.told.ended
    }

    /// How many steps moved or printed; from 2^64 - 1 on it stands there.
    pub fn moved(&self) -> u64
        ensures { (g : CProgram) (s : CState) → IsAt g self.now s → result ≡ counted s.moved }
    {
        self.moved
    }
}
