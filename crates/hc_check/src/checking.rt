//! The checks, and the system that they let through.

ghost use Rattle.std.specs.Prelude.{◌≡◌, ◌<◌, ◌^◌, [], length, map, IfOk};
ghost use Rattle.hc_finds.specs.Limits.{channels_of, variables_of};
ghost use Rattle.hc_finds.specs.Refusals.{refusals};
ghost use Rattle.hc_modules.specs.Refusals.{IsFlat};
ghost use Rattle.hc_check.specs.Numbered.{process_over};
ghost use Rattle.hc_check.specs.Checked.{IsChecked, IsExact};

use crate::numbering::{Numbering, number_stmts};
use hc_finds::{CheckStop, NameTables, unrefused};
use hc_frac::Name;
use hc_list::List;
use hc_modules::{Flat, FlatProcess};
use hc_term::{Process, System};
use indexmap::IndexSet;
use std::alloc::{AllocError, Global};

/// The names of a set, in their order.
fn listed(alloc: Global, names: &IndexSet<Name>) -> Result<List<Name>, AllocError>
    ensures { IfOk result (λ found. found ≡ names.now.keys) }
{
    let mut found = List::new(alloc);
    for name in names.as_slice() {
        found.push(name.copy())?;
    }
    Ok(found)
}

/// A process over these channels and its variables.
fn number_process(
    alloc: Global,
    channels: &IndexSet<Name>,
    variables: &IndexSet<Name>,
    process: &FlatProcess,
) -> Result<Process, AllocError>
    requires channels { length channels.now.keys < 2 ^ 32 }
    requires few { length variables.now.keys < 2 ^ 32 }
    requires variables { variables.now.keys ≡ variables_of process.now }
    ensures { IfOk result (λ p. p ≡ process_over channels.now.keys process.now) }
{
    let names = Numbering {
        channels,
        variables,
    };
    let body = number_stmts(alloc, names, process.body.as_slice())?;
    Ok(Process {
        name: process.name.copy(),
        variables: listed(alloc, variables)?,
        body,
    })
}

/// Processes against which nothing is found, over their names.
fn number_processes(
    alloc: Global,
    tables: &NameTables,
    processes: &[FlatProcess],
) -> Result<List<Process>, AllocError>
    requires nothing_found { refusals processes.now ≡ [] }
    requires channels { tables.now.channels.keys ≡ channels_of processes.now }
    requires variables { map (λ s. s.keys) tables.now.variables ≡ map variables_of processes.now }
    ensures { IfOk result (λ ps. ps ≡ map (process_over (channels_of processes.now)) processes.now) }
{
    let mut found = List::new(alloc);
    for (variables, process) in tables.variables.as_slice().iter().zip(processes) {
        found.push(number_process(alloc, &tables.channels, variables, process)?)?;
    }
    Ok(found)
}

/// The system of an expanded source against which nothing is found, over its names.
fn system_of(alloc: Global, flat: &Flat, tables: &NameTables) -> Result<System, AllocError>
    requires flat { IsFlat flat.now }
    requires nothing_found { refusals flat.now.processes ≡ [] }
    requires channels { tables.now.channels.keys ≡ channels_of flat.now.processes }
    requires variables { map (λ s. s.keys) tables.now.variables ≡ map variables_of flat.now.processes }
    ensures { IfOk result (IsChecked flat.now) }
{
    let processes = number_processes(alloc, tables, flat.processes.as_slice())?;
    let channels = listed(alloc, &tables.channels)?;
    Ok(System::new(processes, channels))
}

/// The system of an expanded source, or its first refusal: of the first phase that finds something, what it finds
/// first in the text.
#[tactic(auto, using(crate::proofs::SameSystem::one_system))]
pub fn check(alloc: Global, flat: &Flat) -> Result<System, CheckStop>
    requires { IsFlat flat.now }
    ensures { IsExact flat.now result }
{
    let tables = unrefused(alloc, flat.processes.as_slice())?;
    Ok(system_of(alloc, flat, &tables)?)
}
