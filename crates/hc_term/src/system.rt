//! Processes and systems.

ghost use Rattle.std.specs.Prelude.{◌≡◌, IsTrue, IfOk};
ghost use Rattle.hc_term.specs.Rules.{keeps_rules};

use crate::Stmt;
use crate::stmt::copy_statements;
use hc_frac::Name;
use hc_list::List;
use std::alloc::{AllocError, Global};

/// A process. Its variables go by their places in the list of their names.
#[derive(Drop)]
pub struct Process {
    pub name: Name,
    pub variables: List<Name>,
    pub body: List<Stmt>,
}

/// A system of processes that passed all checks. Its channels go by their places in the list of their names.
#[derive(Drop)]
pub struct System {
    pub processes: List<Process>,
    pub channels: List<Name>,
    pub ghost kept: { IsTrue (keeps_rules processes channels) },
}

impl System {
    /// The system of these processes over these channels, which keep the rules: no test is made.
    pub fn new(processes: List<Process>, channels: List<Name>) -> System
        requires ruled { IsTrue (keeps_rules processes channels) }
        ensures has_processes { result.processes ≡ processes }
        ensures has_channels { result.channels ≡ channels }
    {
        System {
            processes,
            channels,
        }
    }

    /// An equal system.
    pub fn copy(&self, alloc: Global) -> Result<System, AllocError>
        ensures { IfOk result (λ t. t ≡ self.now) }
    {
        let processes = copy_processes(alloc, self.processes.as_slice())?;
        let channels = copy_names(alloc, self.channels.as_slice())?;
        Ok(System {
            processes,
            channels,
        })
    }
}

impl Process {
    /// An equal process.
    pub fn copy(&self, alloc: Global) -> Result<Process, AllocError>
        ensures { IfOk result (λ t. t ≡ self.now) }
    {
        let variables = copy_names(alloc, self.variables.as_slice())?;
        let body = copy_statements(alloc, self.body.as_slice())?;
        Ok(Process {
            name: self.name.copy(),
            variables,
            body,
        })
    }
}

fn copy_names(alloc: Global, names: &[Name]) -> Result<List<Name>, AllocError>
    ensures { IfOk result (λ found. found ≡ names.now) }
{
    let mut found = List::new(alloc);
    for name in names {
        found.push(name.copy())?;
    }
    Ok(found)
}

fn copy_processes(alloc: Global, processes: &[Process]) -> Result<List<Process>, AllocError>
    ensures { IfOk result (λ found. found ≡ processes.now) }
{
    let mut found = List::new(alloc);
    for process in processes {
        found.push(process.copy(alloc)?)?;
    }
    Ok(found)
}
