//! Tasks.

ghost use Rattle.std.specs.Prelude.{◌≡◌, ◌≤◌, IsTrue, IfOk};
ghost use Rattle.hc_limits.specs.Limits.{most_steps};
ghost use Rattle.hc_rational.specs.Words.{is_positive};

use crate::System;
use hc_frac::Frac;
use std::alloc::{AllocError, Global};

/// A system with all that its canonical run depends on.
#[derive(Drop)]
pub struct Task {
    pub system: System,
    /// Its bits decide the internal choices.
    pub seed: u64,
    /// The moment, in time units from the start, beyond which no delay goes.
    pub horizon: Frac,
    /// The number of steps to which runs are limited, silent ones counted.
    pub limit: u32,
    pub ghost positive: { IsTrue (is_positive horizon) },
    pub ghost in_range: { (1 ≤ limit) × (limit ≤ most_steps) },
}

impl Task {
    ghost use Rattle.hc_term.specs.Given.{HasParts};

    /// The task of simulating this system up to the horizon, which is positive, in so many steps, of which there is at
    /// least one: no test is made.
    pub fn new(system: System, seed: u64, horizon: Frac, limit: u32) -> Task
        requires positive { IsTrue (is_positive horizon) }
        requires in_range { (1 ≤ limit) × (limit ≤ most_steps) }
        ensures { HasParts system seed horizon limit result }
    {
        Task {
            system,
            seed,
            horizon,
            limit,
        }
    }

    /// An equal task.
    pub fn copy(&self, alloc: Global) -> Result<Task, AllocError>
        ensures { IfOk result (λ t. t ≡ self.now) }
    {
        let system = self.system.copy(alloc)?;
        Ok(Task {
            system,
            seed: self.seed,
            horizon: self.horizon,
            limit: self.limit,
        })
    }
}
