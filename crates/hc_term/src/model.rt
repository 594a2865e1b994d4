//! Configurations, as the definitions speak of them.

ghost use Rattle.std.specs.Prelude.{◌≡◌, IfOk};

use crate::Stmt;
use crate::stmt::copy_statements;
use hc_frac::Frac;
use hc_list::List;
use std::alloc::{AllocError, Global};

/// Whether a process has arrived at the first of its statements.
#[derive(Clone, Copy, Debug, PartialEq, Eq)]
pub enum Mark {
    Going,
    /// With what is left to wait, in time units, which is 0 but at a wait.
    Arrived { left: Frac },
}

/// The configuration of a process.
#[derive(Drop)]
pub struct ProcessState {
    /// The statements still to do; the process has ended where there is none.
    pub todo: List<Stmt>,
    /// The values of the variables, by their numbers.
    pub store: List<Frac>,
    /// The number of internal choices taken.
    pub choices: u64,
    pub mark: Mark,
}

/// The configuration of a system: the clock in time units from the start, and the configuration of each process.
#[derive(Drop)]
pub struct Configuration {
    pub clock: Frac,
    pub processes: List<ProcessState>,
}

/// A communication: the channel, the process that sends, the one that receives, and the value.
#[derive(Clone, Copy, Debug, PartialEq, Eq)]
pub struct Meeting {
    pub channel: u32,
    pub sender: u32,
    pub receiver: u32,
    pub value: Frac,
}

impl ProcessState {
    /// An equal configuration.
    pub fn copy(&self, alloc: Global) -> Result<ProcessState, AllocError>
        ensures { IfOk result (λ t. t ≡ self.now) }
    {
        let todo = copy_statements(alloc, self.todo.as_slice())?;
        let store = List::from_slice(alloc, self.store.as_slice())?;
        Ok(ProcessState {
            todo,
            store,
            choices: self.choices,
            mark: self.mark,
        })
    }
}

impl Configuration {
    /// An equal configuration.
    pub fn copy(&self, alloc: Global) -> Result<Configuration, AllocError>
        ensures { IfOk result (λ t. t ≡ self.now) }
    {
        let processes = copy_states(alloc, self.processes.as_slice())?;
        Ok(Configuration {
            clock: self.clock,
            processes,
        })
    }
}

fn copy_states(alloc: Global, states: &[ProcessState]) -> Result<List<ProcessState>, AllocError>
    ensures { IfOk result (λ found. found ≡ states.now) }
{
    let mut found = List::new(alloc);
    for state in states {
        found.push(state.copy(alloc)?)?;
    }
    Ok(found)
}
