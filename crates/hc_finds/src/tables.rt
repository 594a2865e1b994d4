//! The names of all processes against which nothing is found.

ghost use Rattle.std.specs.Prelude.{◌≡◌, ◌≤◌, [], map, length, flat_map, All, OnOk, IfOk, IfErr};
ghost use Rattle.hc_modules.specs.Found.{IsFirst};
ghost use Rattle.hc_finds.specs.First.{told};
ghost use Rattle.hc_finds.specs.Limits as spec;
ghost use Rattle.hc_finds.specs.Limits.{channels_of, variables_of};
ghost use Rattle.hc_finds.specs.Refusals.{refusals};
ghost use Rattle.hc_finds.specs.Tally as tally;

use crate::collect::{parts_of, parts_of_each, uses_of_each};
use crate::limits::NamesSoFar;
use crate::phases::{no_bad_end, rules_kept};
use crate::stop::CheckStop;
use hc_frac::Name;
use hc_list::List;
use hc_modules::FlatProcess;
use indexmap::IndexSet;
use std::alloc::Global;

/// The names of processes against which nothing is found.
#[derive(Drop)]
pub struct NameTables {
    /// The channels of all, by first occurrence.
    pub channels: IndexSet<Name>,
    /// The variables of each, by first occurrence.
    pub variables: List<IndexSet<Name>>,
}

/// Notes the channels of a process behind these, and answers them with its variables.
fn limit_process(
    alloc: Global,
    channels: IndexSet<Name>,
    process: &FlatProcess,
) -> Result<NamesSoFar, CheckStop>
    ensures ok { IfOk result (λ n. tally.over_along channels.keys [] (spec.limited_parts process.now) ≡ []) }
    ensures channels { IfOk result (λ n. n.channels.keys ≡ tally.with_names channels.keys (spec.channels_named process.now)) }
    ensures variables { IfOk result (λ n. n.variables.keys ≡ variables_of process.now) }
    ensures stop { IfErr result (IsFirst told (tally.over_along channels.keys [] (spec.limited_parts process.now))) }
{
    let parts = parts_of(alloc, true, process.body.as_slice())?;
    let mut named = NamesSoFar {
        channels,
        variables: IndexSet::new(alloc),
    };
    named.limit_all(parts.as_slice())?;
    Ok(named)
}

/// The names of all processes, unless something goes beyond a limit.
pub(crate) fn within_limits(
    alloc: Global,
    processes: &[FlatProcess],
) -> Result<NameTables, CheckStop>
    ensures ok { IfOk result (λ l. spec.beyond_limits [] processes.now ≡ []) }
    ensures channels { IfOk result (λ l. l.channels.keys ≡ channels_of processes.now) }
    ensures variables { IfOk result (λ l. map (λ s. s.keys) l.variables ≡ map variables_of processes.now) }
    ensures stop { IfErr result (IsFirst told (spec.beyond_limits [] processes.now)) }
{
    let mut tables = NameTables {
        channels: IndexSet::new(alloc),
        variables: List::new(alloc),
    };
    for process in processes {
        let NameTables {
            channels,
            mut variables,
        } = tables;
        let named = limit_process(alloc, channels, process)?;
        variables.push(named.variables)?;
        tables = NameTables {
            channels: named.channels,
            variables,
        };
    }
    Ok(tables)
}

/// The names of processes against which nothing is found, or what is found first: of the first phase that finds
/// something, what it finds first in the text.
pub fn unrefused(alloc: Global, processes: &[FlatProcess]) -> Result<NameTables, CheckStop>
    ensures ok { IfOk result (λ l. refusals processes.now ≡ []) }
    ensures channels { IfOk result (λ l. l.channels.keys ≡ channels_of processes.now) }
    ensures variables { IfOk result (λ l. map (λ s. s.keys) l.variables ≡ map variables_of processes.now) }
    ensures stop { IfErr result (IsFirst told (refusals processes.now)) }
{
    let tables = within_limits(alloc, processes)?;
    let parts = parts_of_each(alloc, processes)?;
    rules_kept(parts.as_slice())?;
    let uses = uses_of_each(alloc, parts.as_slice())?;
    no_bad_end(alloc, uses.as_slice())?;
    Ok(tables)
}
