//! Calls that fail by plan.
ghost use Rattle.std.specs.Prelude.{◌≡◌, ◌↔◌, ◌⊎◌, IsErr, IsTrue};
ghost use Rattle.hc_world.specs.Counts.{HasCause};
ghost use Rattle.hc_world.specs.Memory.{CountsCall, IsNextToFail};

use crate::faults::Failed;
use std::marker::Model;

/// The calls of a source or a sink in memory, numbered from 0, some of which are to fail.
#[derive(Debug, Drop)]
pub struct PlannedCalls {
    fails: Vec<u64>,
    count: u64,
    faults: u64,
}

impl Model for PlannedCalls {
    ghost use Rattle.hc_world.specs.Memory.{Calls};

    ghost Value = { Calls };

    ghost view = { λ c. record { fails = c.fails.items; count = c.count; faults = c.faults } };
}

impl PlannedCalls {
    pub fn new(fails: Vec<u64>) -> PlannedCalls
        ensures { result ≡ record { fails = fails.items; count = 0; faults = 0 } }
    {
        PlannedCalls {
            fails,
            count: 0,
            faults: 0,
        }
    }

    /// Counts one call. It fails where its number is planned to, or where `is_refused`.
    pub fn count_call(&mut self, is_refused: bool) -> Result<(), Failed>
        ensures fails { IsErr result ↔ (IsNextToFail self.old ⊎ IsTrue is_refused) }
        ensures counts { CountsCall self.old self.new result }
        ensures cause { HasCause self.old.faults self.new.faults result }
    {
        let is_planned = self.fails.contains(&self.count);
        self.count = self.count.saturating_add(1);
        if is_planned || is_refused {
            self.faults = self.faults.saturating_add(1);
            return Err(Failed);
        }
        Ok(())
    }
}
