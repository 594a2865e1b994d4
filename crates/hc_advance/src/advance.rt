//! Advances.

ghost use Rattle.std.specs.Prelude.{◌≡◌};

use hc_code::{ProcCode, compile};
use hc_frac::Frac;
use hc_limits::MOST_SILENT_STEPS;
use hc_step::{Local, Stretch, code_laws};
use hc_term::{Process, Task};
use std::alloc::{AllocError, Global};
use std::marker::Model;

/// A stretch of silent steps of one process, from a start that was lent to it. It holds a copy of the process's code, so
/// that it can be worked out beside the joint state. No call but `open` takes memory.
#[derive(Drop)]
pub struct Advance {
    code: ProcCode,
    start: Local,
    /// In time units from the start of the run.
    clock: Frac,
    seed: u64,
    stretch: Option<Stretch>,
    end: Local,
}

impl Model for Advance {
    ghost use Rattle.std.specs.Coded.{codes};
    ghost use Rattle.hc_term.specs.contracts.expr.Expr as expr;
    ghost use Rattle.hc_term.specs.contracts.expr.Cond as cond;
    ghost use Rattle.hc_advance.specs.Lead.{Lead};

    ghost Value = { Lead };

    ghost coded = { Prim.hlevel (codes, expr.the_row.coded, cond.the_row.coded) };

    ghost use Rattle.hc_advance.specs.Lead.{lead, worked_by};
    ghost use Rattle.hc_advance.specs.Ran.{IsLead};

    ghost view = { λ a. lead a.code a.start a.clock a.seed (worked_by a.stretch a.end) };

    ghost invariant = { λ a. IsLead (lead a.code a.start a.clock a.seed (worked_by a.stretch a.end)) };
}

impl Advance {
    ghost use Rattle.std.specs.Prelude.{◌<◌, ◌≤◌, ◌↔◌, ℕ, Some, None, IfOk, IsTrue, IsSome, length};
    ghost use Rattle.hc_limits.specs.Limits.{most_statements};
    ghost use Rattle.hc_rational.specs.Words.{zero_ℚ};
    ghost use Rattle.hc_term.specs.Rules.{is_process, body_statements};
    ghost use Rattle.hc_code.specs.Stands.{Stands, StandsFor, Table};
    ghost use Rattle.hc_step.specs.Usable.{is_usable_code};
    ghost use Rattle.hc_step.specs.Represents.{Represents};
    ghost use Rattle.hc_advance.specs.Lead.{begun, StartsAt, steps_of};
    ghost use Rattle.hc_advance.specs.Ran.{Ran, IsLead, SameStart, IsAtOpening, IsOpening};

    /// An advance of this process, which begins at its opening.
    fn of_process(
        alloc: Global,
        process: &Process,
        number: u32,
        seed: u64,
    ) -> Result<Advance, AllocError>
        requires ruled { (channels : ℕ) × IsTrue (is_process channels process.now) }
        requires few { body_statements process.now ≤ most_statements }
        ensures { IfOk result (λ a. IsAtOpening process.now number seed a) }
    {
        let code = compile(alloc, process)?;
        code_laws();
        let variables = process.variables.len() as u32;
        let start = Local::start(alloc, &code, number, variables)?;
        let end = Local::start(alloc, &code, number, variables)?;
        Ok(Advance {
            code,
            start,
            clock: Frac::zero(),
            seed,
            stretch: None,
            end,
        })
    }

    /// An advance of this process of the task. It starts at the opening, at clock 0, with the task's seed, and isn't worked.
    pub fn open(alloc: Global, task: &Task, process: u32) -> Result<Advance, AllocError>
        requires { process < length task.now.system.processes }
        ensures { IfOk result (λ a. IsOpening task.now process a) }
    {
        let processes = task.system.processes.as_slice();
        Advance::of_process(alloc, &processes[process as usize], process, task.seed)
    }

    /// Whether the advance has this code.
    pub fn has_code(&self, code: &ProcCode) -> bool
        ensures { IsTrue result ↔ (self.now.code ≡ code.now) }
    {
        self.code.same(code)
    }

    /// Whether, by this code, the advance starts from what the process keeps, at this clock, with this seed.
    pub fn starts_at(&self, code: &ProcCode, local: &Local, clock: Frac, seed: u64) -> bool
        ensures { IsTrue result ↔ StartsAt self.now code.now local.now clock seed }
    {
        self.seed == seed
            && self.clock.same(clock)
            && self.start.same(local)
            && self.code.same(code)
    }

    /// The number of its steps, once it is worked.
    pub fn steps(&self) -> Option<u32>
        ensures { result ≡ steps_of self.now.worked }
    {
        match self.stretch {
            Some(stretch) => Some(stretch.steps),
            None => None,
        }
    }

    /// Starts anew from what the process keeps, which its code must be able to run. It isn't worked then.
    pub fn begin(&mut self, local: &Local, clock: Frac, seed: u64)
        requires usable { IsTrue (is_usable_code local.now.variables self.old.code.instrs) }
        requires within { local.now.place < length self.old.code.instrs }
        ensures { self.new ≡ begun self.old.code local.now clock seed }
    {
        local.copy_into(&mut self.start);
        self.clock = clock;
        self.seed = seed;
        self.stretch = None;
    }

    /// Takes the silent steps from the start, at most as many as one event may have, up to one that logs. A worked advance
    /// stays as it is.
    pub fn work(&mut self)
        ensures started { SameStart self.old self.new }
        ensures worked { IsSome self.new.worked }
        ensures again { IsSome self.old.worked → self.new ≡ self.old }
        ensures keeps { IsLead self.new }
    {
        if self.stretch.is_some() {
            return;
        }
        self.start.copy_into(&mut self.end);
        let stretch = self
            .end
            .stretch(&self.code, self.clock, self.seed, MOST_SILENT_STEPS);
        self.stretch = Some(stretch);
    }

    /// Makes the local what the process keeps after the stretch, which must have been worked out, and tells of the stretch.
    pub fn hand_over(&self, to: &mut Local) -> Stretch
        requires { IsSome self.now.worked }
        ensures handed { self.now.worked ≡ Some (record { stretch = result; end = to.new }) }
        ensures ran { Ran self.now (record { stretch = result; end = to.new }) }
    {
        let Some(stretch) = self.stretch else {
            unreachable!()
        };
        self.end.copy_into(to);
        stretch
    }
}
