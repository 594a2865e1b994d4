//! Stretches of silent steps.

ghost use Rattle.std.specs.Prelude.{◌≡◌, ◌<◌, ◌≤◌, length, IsTrue};
ghost use Rattle.hc_step.specs.Usable.{is_usable_code};
ghost use Rattle.hc_step.specs.Stepping.{stepped};

use crate::arrival::show_arrival;
use crate::local::Local;
use crate::look::Move;
use hc_code::ProcCode;
use hc_frac::Frac;
use hc_term::{Mark, Phase, Post, StretchEnd, Unfit};

/// How many silent steps were taken, and why no more.
#[derive(Clone, Copy, Debug, PartialEq, Eq)]
pub struct Stretch {
    pub steps: u32,
    pub end: StretchEnd,
}

/// What came of a silent step: it was taken, and may have logged a value, or there was none to take.
#[derive(Clone, Copy, Debug, PartialEq, Eq)]
enum Stepped {
    Took,
    Logged(Frac),
    Ends(StretchEnd),
}

/// What comes of a silent step that is taken.
fn stepped_by(step: &Move) -> Stepped
    ensures { result ≡ stepped step.now }
{
    match step {
        Move::Logs { value, next: _ } => Stepped::Logged(*value),
        _ => Stepped::Took,
    }
}

impl Local {
    ghost use Rattle.std.specs.Prelude.{ℕ, Some, slice_get};
    ghost use Rattle.hc_rational.specs.Words.{Rational};
    ghost use Rattle.hc_term.specs.declared.model.ProcessState.{ProcessState};
    ghost use Rattle.hc_term.specs.Silent.{silent};
    ghost use Rattle.hc_term.specs.Event.{idle_end, progress};
    ghost use Rattle.hc_code.specs.declared.code.Instr.{Instr};
    ghost use Rattle.hc_code.specs.Stands.{Table, AllAgree};
    ghost use Rattle.hc_step.specs.Arriving.{is_arriving};
    ghost use Rattle.hc_step.specs.Represents.{Represents, Keeps, Takes};
    ghost use Rattle.hc_step.specs.Stepping.{Steps, end_before};

    /// Why a process that has no silent step has none.
    fn idle_end(&self) -> StretchEnd
        ensures { (t : Table) (clock : Rational) (q : ProcessState) → Represents t clock self.now q → result ≡ idle_end q }
    {
        match self.post.phase {
            Phase::Ended => StretchEnd::Ended,
            _ => StretchEnd::Waits,
        }
    }

    /// Arrives where it is, where all values fit; else it goes on showing what a going process shows.
    fn arrive(&mut self, code: &ProcCode, clock: Frac) -> Stepped
        requires usable { IsTrue (is_usable_code self.old.variables code.now.instrs) }
        requires within { self.old.place < length code.now.instrs }
        ensures keeps { Keeps (length code.now.instrs) self.old self.new }
        ensures steps { (t : Table) (q : ProcessState) (seed : ℕ) (i : Instr) → slice_get code.now.instrs self.old.place ≡ Some i →
            IsTrue (is_arriving self.old.mark i) → AllAgree t code.now.instrs t → Represents t clock self.old q →
            Steps t clock q (silent seed self.old.process clock q) self.new result }
    {
        let instr = code.at(self.place);
        let count = self.variables as usize;
        match show_arrival(&mut self.post, instr, &self.store[..count], clock) {
            Ok(left) => {
                self.mark = Mark::Arrived { left };
                Stepped::Took
            }
            Err(Unfit) => {
                self.post.show(Phase::Going);
                Stepped::Ends(StretchEnd::Unfit)
            }
        }
    }

    /// Why a stretch ends before an arrival that may not be taken any more.
    fn end_of_arrival(&self, code: &ProcCode, clock: Frac) -> StretchEnd
        requires usable { IsTrue (is_usable_code self.now.variables code.now.instrs) }
        requires within { self.now.place < length code.now.instrs }
        ensures { (t : Table) (q : ProcessState) (seed : ℕ) (i : Instr) → slice_get code.now.instrs self.now.place ≡ Some i →
            IsTrue (is_arriving self.now.mark i) → AllAgree t code.now.instrs t → Represents t clock self.now q →
            result ≡ end_before q (silent seed self.now.process clock q) }
    {
        let mut shown = Post::going();
        match show_arrival(&mut shown, code.at(self.place), self.store(), clock) {
            Ok(_) => StretchEnd::Spent,
            Err(_) => StretchEnd::Unfit,
        }
    }

    /// Takes the next silent step, where it has one that fits.
    fn step(&mut self, code: &ProcCode, clock: Frac, seed: u64) -> Stepped
        requires usable { IsTrue (is_usable_code self.old.variables code.now.instrs) }
        requires within { self.old.place < length code.now.instrs }
        ensures keeps { Keeps (length code.now.instrs) self.old self.new }
        ensures steps { (t : Table) (q : ProcessState) → AllAgree t code.now.instrs t → Represents t clock self.old q →
            Steps t clock q (silent seed self.old.process clock q) self.new result }
    {
        if self.is_arriving(code) {
            return self.arrive(code, clock);
        }
        match self.look(code, seed) {
            Ok(Some(step)) => {
                self.take(code, &step);
                stepped_by(&step)
            }
            Ok(None) => Stepped::Ends(self.idle_end()),
            Err(Unfit) => Stepped::Ends(StretchEnd::Unfit),
        }
    }

    /// Why the stretch ends here once all steps that were allowed are taken.
    fn end_of_spent(&self, code: &ProcCode, clock: Frac, seed: u64) -> StretchEnd
        requires usable { IsTrue (is_usable_code self.now.variables code.now.instrs) }
        requires within { self.now.place < length code.now.instrs }
        ensures { (t : Table) (q : ProcessState) → AllAgree t code.now.instrs t → Represents t clock self.now q →
            result ≡ end_before q (silent seed self.now.process clock q) }
    {
        if self.is_arriving(code) {
            return self.end_of_arrival(code, clock);
        }
        match self.look(code, seed) {
            Ok(Some(_)) => StretchEnd::Spent,
            Ok(None) => self.idle_end(),
            Err(Unfit) => StretchEnd::Unfit,
        }
    }

    /// Takes at most so many silent steps, up to one that logs.
    pub fn stretch(&mut self, code: &ProcCode, clock: Frac, seed: u64, most: u32) -> Stretch
        requires usable { IsTrue (is_usable_code self.old.variables code.now.instrs) }
        requires within { self.old.place < length code.now.instrs }
        ensures at_most { result.steps ≤ most }
        ensures keeps { Keeps (length code.now.instrs) self.old self.new }
        ensures takes { (t : Table) (q : ProcessState) → AllAgree t code.now.instrs t → Represents t clock self.old q →
            Takes t clock result self.new (progress most seed self.old.process clock q) }
    {
        for steps in 0..most {
            match self.step(code, clock, seed) {
                Stepped::Took => {}
                Stepped::Logged(value) => {
                    return Stretch {
                        steps: steps + 1,
                        end: StretchEnd::Logged(value),
                    };
                }
                Stepped::Ends(end) => return Stretch { steps, end },
            }
        }
        Stretch {
            steps: most,
            end: self.end_of_spent(code, clock, seed),
        }
    }
}
