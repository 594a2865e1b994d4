//! A process that runs on its flat code.

ghost use Rattle.std.specs.Prelude.{◌<◌, length, IsTrue, IfSome};
ghost use Rattle.hc_rational.specs.Words.{◌≤ℚ◌};
ghost use Rattle.hc_step.specs.Usable.{is_usable_code};

use crate::acts::Act;
use crate::showing::{put_post, put_stretch};
use hc_code::{ProcCode, compile};
use hc_frac::Frac;
use hc_rows::put_item;
use hc_step::{Local, code_laws};
use hc_term::System;
use std::alloc::{AllocError, Global};
use std::cmp::Ordering;

#[derive(Drop)]
pub(crate) struct Runner {
    code: ProcCode,
    local: Local,
    clock: Frac,
    seed: u64,
    ghost usable: { IsTrue (is_usable_code local.variables code.instrs) },
    ghost within: { local.place < length code.instrs },
}

fn is_at_most(left: Frac, right: Frac) -> bool
    ensures { IsTrue result → left ≤ℚ right }
{
    match left.compare(right) {
        Ordering::Less => true,
        Ordering::Equal => true,
        Ordering::Greater => false,
    }
}

fn is_to_bound(by: Frac, bound: Option<Frac>) -> bool
    ensures { IsTrue result → IfSome bound (λ bound. by ≤ℚ bound) }
{
    match bound {
        Some(bound) => is_at_most(by, bound),
        None => true,
    }
}

impl Runner {
    /// The first process of the system at its beginning and at moment 0, as the process of this number.
    pub(crate) fn start(
        alloc: Global,
        system: &System,
        number: u32,
        seed: u64,
    ) -> Result<Option<Runner>, AllocError> {
        let Some(process) = system.processes.as_slice().first() else {
            return Ok(None);
        };
        let code = compile(alloc, process)?;
        code_laws();
        let variables = process.variables.len() as u32;
        let local = Local::start(alloc, &code, number, variables)?;
        Ok(Some(Runner {
            code,
            local,
            clock: Frac::zero(),
            seed,
        }))
    }

    /// Lets so many time units pass, where it may: from 0 to the bound, and all fits.
    fn pass(&mut self, by: Frac) -> bool {
        let is_within = is_at_most(Frac::zero(), by) && is_to_bound(by, self.local.post().bound);
        if !is_within || !self.local.can_move(by) {
            return false;
        }
        let Some(clock) = self.clock.add(by) else {
            return false;
        };
        self.local.move_by(by);
        self.clock = clock;
        true
    }

    /// Does this with the process, and tells what came of it.
    pub(crate) fn put_act(&mut self, text: &mut String, act: Act) -> Result<(), AllocError> {
        match act {
            Act::Stretch(most) => {
                let stretch = self.local.stretch(&self.code, self.clock, self.seed, most);
                put_stretch(text, &stretch)
            }
            Act::Pass(by) => {
                let passed = self.pass(by);
                put_item(text, if passed { "passed" } else { "stays" })
            }
            Act::Send(channel) => {
                self.local.sent(&self.code, channel);
                put_item(text, "sent")
            }
            Act::Receive(channel, value) => {
                self.local.received(&self.code, channel, value);
                put_item(text, "received")
            }
        }
    }

    /// What the process shows to the others, and whether it has a silent step.
    pub(crate) fn put_end(&self, text: &mut String) -> Result<(), AllocError> {
        if self.local.able() {
            put_item(text, "able")?;
        }
        put_post(text, self.local.post())
    }
}
