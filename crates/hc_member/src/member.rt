//! One process with its code.

ghost use Rattle.std.specs.Prelude.{◌<◌, length, IsTrue};
ghost use Rattle.hc_step.specs.Usable.{is_usable_code};

use hc_advance::Advance;
use hc_code::{ProcCode, compile};
use hc_frac::Frac;
use hc_step::{Local, Stretch, code_laws};
use hc_term::{Post, Process};
use std::alloc::{AllocError, Global};

/// A process: its code, and what it keeps between its steps. It stands for the state of its process by some table of its
/// code (`IsIn`), at a clock in time units from the start of the run; no call but `open` takes memory.
#[derive(Drop)]
pub struct Member {
    code: ProcCode,
    local: Local,
    pub ghost usable: { IsTrue (is_usable_code local.variables code.instrs) },
    pub ghost within: { local.place < length code.instrs },
}

impl Member {
    ghost use Rattle.std.specs.Prelude.{◌≡◌, ◌≢◌, ◌≤◌, ◌↔◌, ℕ, IfOk, IfSome, Some, None, true};
    ghost use Rattle.hc_limits.specs.Limits.{most_statements, most_silent_steps};
    ghost use Rattle.hc_rational.specs.Words.{Rational, zero_ℚ, ◌+ℚ◌, ◌≤ℚ◌};
    ghost use Rattle.hc_term.specs.declared.model.ProcessState.{ProcessState};
    ghost use Rattle.hc_term.specs.Rules.{is_process, body_statements};
    ghost use Rattle.hc_term.specs.Offers.{post};
    ghost use Rattle.hc_term.specs.Posts.{sent_on, receives_on, post_fits};
    ghost use Rattle.hc_term.specs.Communication.{sent, received, moved};
    ghost use Rattle.hc_term.specs.Step.{opening_of};
    ghost use Rattle.hc_term.specs.Event.{progress};
    ghost use Rattle.hc_advance.specs.Lead.{StartsAt, steps_of};
    ghost use Rattle.hc_member.specs.States.{IsIn, Progresses};
    ghost use Rattle.hc_member.specs.Lending.{kept, Lends, HasSteps};

    /// The process of this number at its opening. The one error is want of memory.
    pub fn open(alloc: Global, process: &Process, number: u32) -> Result<Member, AllocError>
        requires ruled { (channels : ℕ) × IsTrue (is_process channels process.now) }
        requires few { body_statements process.now ≤ most_statements }
        ensures { IfOk result (λ m. (clock : Rational) → IsIn number clock m (opening_of process.now)) }
    {
        let code = compile(alloc, process)?;
        code_laws();
        let local = Local::start(alloc, &code, number, process.variables.len() as u32)?;
        Ok(Member { code, local })
    }

    /// What the process shows to the others.
    pub fn post(&self) -> &Post
        ensures shows { result.now ≡ self.now.local.post }
        ensures of_state { (p : ℕ) (clock : Rational) (q : ProcessState) → IsIn p clock self.now q → result.now ≡ post clock q }
    {
        self.local.post()
    }

    /// Takes at most so many silent steps at this clock, up to one that logs.
    pub fn stretch(&mut self, clock: Frac, seed: u64, most: u32) -> Stretch
        ensures at_most { result.steps ≤ most }
        ensures takes { (p : ℕ) (q : ProcessState) → IsIn p clock self.old q →
            Progresses p clock result self.new (progress most seed p clock q) }
    {
        self.local.stretch(&self.code, clock, seed, most)
    }

    /// Sends on the channel, which the process must offer.
    pub fn sent(&mut self, channel: u32)
        ensures { (p : ℕ) (clock : Rational) (q : ProcessState) → IsIn p clock self.old q →
            sent_on channel (post clock q).offers ≢ None → IsIn p clock self.new (sent channel q) }
    {
        self.local.sent(&self.code, channel);
    }

    /// Receives the value on the channel, which the process must offer.
    pub fn received(&mut self, channel: u32, value: Frac)
        ensures { (p : ℕ) (clock : Rational) (q : ProcessState) → IsIn p clock self.old q →
            receives_on channel (post clock q).offers ≡ true → IsIn p clock self.new (received channel value q) }
    {
        self.local.received(&self.code, channel, value);
    }

    /// Lets so many time units pass, at most to the bound.
    pub fn move_by(&mut self, by: Frac)
        requires fits { IsTrue (post_fits by self.old.local.post) }
        requires from_zero { zero_ℚ ≤ℚ by }
        requires to_bound { IfSome self.old.local.post.bound (λ bound. by ≤ℚ bound) }
        ensures { (p : ℕ) (clock : Rational) (q : ProcessState) → IsIn p clock self.old q →
            IsIn p (clock +ℚ by) self.new (moved by q) }
    {
        self.local.move_by(by);
    }

    // ---- steps that are worked out beside the member

    /// Lends what is kept to an advance of the same code: the advance starts here then, and isn't worked. False where it has
    /// another code, and then it is unchanged.
    pub fn lend(&self, clock: Frac, seed: u64, advance: &mut Advance) -> bool
        ensures { Lends (kept self.now) clock seed advance.old advance.new result }
    {
        if !advance.has_code(&self.code) {
            return false;
        }
        advance.begin(&self.local, clock, seed);
        true
    }

    /// Whether the advance starts from what is kept, at this clock and with this seed.
    pub fn is_start_of(&self, advance: &Advance, clock: Frac, seed: u64) -> bool
        ensures { IsTrue result ↔ StartsAt advance.now self.now.code self.now.local clock seed }
    {
        advance.starts_at(&self.code, &self.local, clock, seed)
    }

    /// Takes the steps of a worked advance that starts from what is kept.
    pub fn take_over(&mut self, advance: &Advance) -> Stretch
        requires { (clock : Rational) × (seed : ℕ) × (steps : ℕ) × HasSteps (kept self.old) clock seed advance.now steps }
        ensures steps { steps_of advance.now.worked ≡ Some result.steps }
        ensures takes { (p : ℕ) (q : ProcessState) → IsIn p advance.now.clock self.old q →
            Progresses p advance.now.clock result self.new (progress most_silent_steps advance.now.seed p advance.now.clock q) }
    {
        advance.hand_over(&mut self.local)
    }
}
