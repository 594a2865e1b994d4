//! Expansion.

ghost use Rattle.std.specs.Prelude.{◌≡◌, [], map, IfOk, OnOk, IfErr};
ghost use Rattle.hc_modules.specs.Expansion as spec;
ghost use Rattle.hc_modules.specs.Found.{IsFirst, told};
ghost use Rattle.hc_modules.specs.Refusals.{IsExact, module_refusals, process_refusals, call_refusals, size_refusals, refusals};
ghost use Rattle.hc_modules.specs.Sizes.{all_statements};

use crate::arguments::{no_argument_miscounted, no_argument_misfit, no_unknown_module};
use crate::flat::{Flat, FlatProcess, ModuleStop};
use crate::names::{
    no_process_too_many, no_repeated_module, no_repeated_parameter, no_repeated_process,
};
use crate::replaced::statements_in;
use crate::sizes::{count_statements, no_node_too_many, work_of};
use crate::written::no_parameter_written;
use hc_ast::{ModuleDef, ProcessDef, Tree};
use hc_list::List;
use std::alloc::{AllocError, Global};

/// Modules and their parameters must have names of their own, and no module may write a value parameter.
fn check_modules(alloc: Global, tree: &Tree) -> Result<(), ModuleStop>
    ensures ok { OnOk result (module_refusals tree.now ≡ []) }
    ensures stop { IfErr result (IsFirst told (module_refusals tree.now)) }
{
    let modules = tree.modules.as_slice();
    no_repeated_module(alloc, modules)?;
    no_repeated_parameter(alloc, modules)?;
    no_parameter_written(alloc, modules)
}

/// There may be 64 processes, with names of their own.
fn check_processes(tree: &Tree) -> Result<(), ModuleStop>
    ensures ok { OnOk result (process_refusals tree.now ≡ []) }
    ensures stop { IfErr result (IsFirst told (process_refusals tree.now)) }
{
    let processes = tree.processes.as_slice();
    if let Err(place) = no_process_too_many(processes) {
        return Err(ModuleStop::TooManyProcesses { place });
    }
    if let Err(place) = no_repeated_process(processes) {
        return Err(ModuleStop::RepeatedProcess { place });
    }
    Ok(())
}

/// Calls must fit the modules that they name.
fn check_calls(tree: &Tree) -> Result<(), ModuleStop>
    ensures ok { OnOk result (call_refusals tree.now ≡ []) }
    ensures stop { IfErr result (IsFirst told (call_refusals tree.now)) }
{
    let modules = tree.modules.as_slice();
    let processes = tree.processes.as_slice();
    if let Err(place) = no_unknown_module(modules, processes) {
        return Err(ModuleStop::UnknownModule { place });
    }
    if let Err(place) = no_argument_miscounted(modules, processes) {
        return Err(ModuleStop::WrongArgumentCount { place });
    }
    if let Err(place) = no_argument_misfit(modules, processes) {
        return Err(ModuleStop::WrongArgumentKind { place });
    }
    Ok(())
}

/// How many statements there are after expansion, where they and the nodes of their expressions are few enough.
fn check_sizes(alloc: Global, tree: &Tree) -> Result<u32, ModuleStop>
    ensures ok { OnOk result (size_refusals tree.now ≡ []) }
    ensures count { IfOk result (λ count. count ≡ all_statements (spec.expansion tree.now)) }
    ensures stop { IfErr result (IsFirst told (size_refusals tree.now)) }
{
    let modules = tree.modules.as_slice();
    let processes = tree.processes.as_slice();
    let statements = match count_statements(modules, processes) {
        Ok(statements) => statements,
        Err(place) => return Err(ModuleStop::TooManyStatements { place }),
    };
    no_node_too_many(alloc, modules, processes)?;
    Ok(statements)
}

/// How many statements there are after expansion, or the first refusal.
fn check(alloc: Global, tree: &Tree) -> Result<u32, ModuleStop>
    ensures ok { OnOk result (refusals tree.now ≡ []) }
    ensures count { IfOk result (λ count. count ≡ all_statements (spec.expansion tree.now)) }
    ensures stop { IfErr result (IsFirst told (refusals tree.now)) }
{
    check_modules(alloc, tree)?;
    check_processes(tree)?;
    check_calls(tree)?;
    check_sizes(alloc, tree)
}

/// A process by itself.
fn flat_process(
    alloc: Global,
    modules: &[ModuleDef],
    process: &ProcessDef,
) -> Result<FlatProcess, AllocError>
    ensures { IfOk result (λ found. found ≡ spec.flat_process modules.now process.now) }
{
    let work = work_of(alloc, modules, &process.body)?;
    let body = statements_in(alloc, &work.call, work.statements)?;
    Ok(FlatProcess {
        place: process.place,
        name: process.name.copy(),
        body,
    })
}

fn flat_processes(
    alloc: Global,
    modules: &[ModuleDef],
    processes: &[ProcessDef],
) -> Result<List<FlatProcess>, AllocError>
    ensures { IfOk result (λ found. found ≡ map (spec.flat_process modules.now) processes.now) }
{
    let mut found = List::new(alloc);
    for process in processes {
        found.push(flat_process(alloc, modules, process)?)?;
    }
    Ok(found)
}

/// The processes of a tree, each by itself, or the first refusal: of the first phase that finds something, what it finds
/// first in the text.
pub fn expand(alloc: Global, tree: &Tree) -> Result<Flat, ModuleStop>
    ensures { IsExact tree.now result }
{
    let statements = check(alloc, tree)?;
    let processes = flat_processes(alloc, tree.modules.as_slice(), tree.processes.as_slice())?;
    Ok(Flat {
        processes,
        statements,
    })
}
