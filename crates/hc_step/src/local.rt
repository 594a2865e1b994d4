//! What a process keeps between its steps.

ghost use Rattle.std.specs.Prelude.{◌≡◌, ◌≤◌, ◌<◌, length, take, replicate, IsTrue};
ghost use Rattle.hc_rational.specs.Words.{zero_ℚ};
ghost use Rattle.hc_step.specs.Usable.{is_usable_code};

use crate::arrival::is_stay;
use crate::look::{Move, look_arrived, look_at, takes_left};
use crate::taking::first_post;
use hc_code::ProcCode;
use hc_frac::Frac;
use hc_term::{Mark, Phase, Post, Unfit};
use std::alloc::{AllocError, Global};

/// What a process keeps: its place in its code, its variables, the number of its choices modulo 64, whether it has
/// arrived, and what it shows to the others.
#[derive(Drop)]
pub struct Local {
    pub(crate) process: u32,
    pub(crate) variables: u32,
    pub(crate) place: u32,
    pub(crate) choices: u32,
    pub(crate) store: [Frac; 64],
    pub(crate) mark: Mark,
    pub(crate) post: Post,
    pub ghost few: { variables ≤ 64 },
    pub ghost low: { choices < 64 },
}

/// All variables before the first step.
fn zeros() -> [Frac; 64]
    ensures { result ≡ replicate 64 zero_ℚ }
{
    let zero = Frac::zero();
    [zero; 64]
}

impl Local {
    ghost use Rattle.std.specs.Prelude.{Ok, Some, IfOk, is_ok, false, slice_get};
    ghost use Rattle.hc_rational.specs.Words.{Rational};
    ghost use Rattle.hc_term.specs.declared.system.Process.{Process};
    ghost use Rattle.hc_term.specs.declared.model.ProcessState.{ProcessState};
    ghost use Rattle.hc_term.specs.Step.{opening_of};
    ghost use Rattle.hc_term.specs.Process.{wants};
    ghost use Rattle.hc_term.specs.Silent.{silent};
    ghost use Rattle.hc_code.specs.declared.code.Instr.{Instr};
    ghost use Rattle.hc_code.specs.Stands.{Table, AllAgree, StandsFor};
    ghost use Rattle.hc_step.specs.declared.look.Move.{Move};
    ghost use Rattle.hc_step.specs.Arriving.{is_arriving};
    ghost use Rattle.hc_step.specs.Taking.{IsMovable};
    ghost use Rattle.hc_step.specs.Represents.{Represents, Sees, IsFresh};

    /// The local of a process at the beginning of its code, which needs at least as many variables as it names. All its
    /// room is in the value itself.
    pub fn start(
        _alloc: Global,
        code: &ProcCode,
        process: u32,
        variables: u32,
    ) -> Result<Local, AllocError>
        requires usable { IsTrue (is_usable_code variables code.now.instrs) }
        requires few { variables ≤ 64 }
        ensures started { IsTrue (is_ok result) }
        ensures fresh { IfOk result (IsFresh process variables code.now.instrs) }
        ensures opens { IfOk result (λ l. (t : Table) (clock : Rational) (p : Process) → StandsFor code.now.instrs p.body t →
            length p.variables ≡ variables → Represents t clock l (opening_of p)) }
    {
        Ok(Local {
            process,
            variables,
            place: 0,
            choices: 0,
            store: zeros(),
            mark: Mark::Going,
            post: first_post(code),
        })
    }

    /// Makes the other equal to this one, whose code is then that of the other.
    pub fn copy_into(&self, to: &mut Local)
        ensures { to.new ≡ self.now }
    {
        to.process = self.process;
        to.variables = self.variables;
        to.place = self.place;
        to.choices = self.choices;
        to.store = self.store;
        to.mark = self.mark;
        self.post.copy_into(&mut to.post);
    }

    /// The place in the code.
    pub fn place(&self) -> u32
        ensures { result ≡ self.now.place }
    {
        self.place
    }

    /// The values of the variables.
    pub fn store(&self) -> &[Frac]
        ensures values { result.now ≡ take self.now.variables self.now.store }
        ensures count { length result.now ≡ self.now.variables }
    {
        &self.store[..self.variables as usize]
    }

    /// The number of internal choices taken, modulo 64.
    pub fn choices(&self) -> u32
        ensures { result ≡ self.now.choices }
    {
        self.choices
    }

    /// What the process shows to the others.
    pub fn post(&self) -> &Post
        ensures { result.now ≡ self.now.post }
    {
        &self.post
    }

    /// Whether the process has a silent step, be it one whose working values don't fit.
    pub fn able(&self) -> bool
        ensures { (t : Table) (clock : Rational) (q : ProcessState) → Represents t clock self.now q → result ≡ wants q }
    {
        match self.post.phase {
            Phase::Going => true,
            Phase::Ended => false,
            Phase::Arrived => match self.post.bound {
                Some(bound) => bound.is_zero(),
                None => false,
            },
        }
    }

    /// Whether the next silent step is an arrival.
    pub(crate) fn is_arriving(&self, code: &ProcCode) -> bool
        requires { self.now.place < length code.now.instrs }
        ensures { (i : Instr) → slice_get code.now.instrs self.now.place ≡ Some i → result ≡ is_arriving self.now.mark i }
    {
        match self.mark {
            Mark::Going => is_stay(code.at(self.place)),
            Mark::Arrived { left: _ } => false,
        }
    }

    /// The silent step, looked at before it is taken, where it isn't an arrival.
    pub(crate) fn look(&self, code: &ProcCode, seed: u64) -> Result<Option<Move>, Unfit>
        requires usable { IsTrue (is_usable_code self.now.variables code.now.instrs) }
        requires within { self.now.place < length code.now.instrs }
        ensures sees { (t : Table) (clock : Rational) (q : ProcessState) (i : Instr) → slice_get code.now.instrs self.now.place ≡ Some i →
            is_arriving self.now.mark i ≡ false → AllAgree t code.now.instrs t → Represents t clock self.now q →
            Sees t q (silent seed self.now.process clock q) result }
        ensures movable { (step : Move) → result ≡ Ok (Some step) → IsMovable code.now.instrs self.now step }
    {
        let instr = code.at(self.place);
        match self.mark {
            Mark::Going => {
                let is_left = takes_left(seed, self.process, self.choices);
                look_at(instr, self.store(), is_left)
            }
            Mark::Arrived { left: _ } => Ok(look_arrived(instr, self.post.bound)),
        }
    }
}
