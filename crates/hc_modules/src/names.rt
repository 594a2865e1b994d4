//! Whether names stand once.

ghost use Rattle.std.specs.Prelude.{◌≡◌, [], not, map, IfOk, OnOk, IfErr};
ghost use Rattle.std.specs.List.{list_any};
ghost use Rattle.indexmap.specs.IndexSet.{insert_key};
ghost use Rattle.hc_modules.specs.declared.flat.ModuleStop.TheVariants.{RepeatedModule, RepeatedParameter};
ghost use Rattle.hc_modules.specs.Bindings.{same_word};
ghost use Rattle.hc_modules.specs.Finds as spec;
ghost use Rattle.hc_modules.specs.Found.{first_of, IsFirst, told};

use crate::flat::ModuleStop;
use hc_ast::{ModuleDef, Param, ProcessDef};
use hc_frac::{Name, Place};
use hc_limits::MOST_PROCESSES;
use indexmap::IndexSet;
use std::alloc::{AllocError, Global};

/// Notes a name, and answers whether it is new.
pub(crate) fn note(names: &mut IndexSet<Name>, name: &Name) -> Result<bool, AllocError>
    ensures new { IfOk result (λ is_new. is_new ≡ not (list_any (same_word name.now) names.old.keys)) }
    ensures noted { OnOk result (names.new.keys ≡ insert_key same_word names.old.keys name.now) }
{
    match names.insert_full(name.copy()) {
        Ok((_, is_new)) => Ok(is_new),
        Err(_) => Err(AllocError),
    }
}

fn is_process(processes: &[ProcessDef], name: &Name) -> bool
    ensures { result ≡ list_any (λ p. same_word p.name name.now) processes.now }
{
    processes.iter().any(|process| process.name == *name)
}

/// A module with the name of an earlier one is refused.
pub(crate) fn no_repeated_module(alloc: Global, modules: &[ModuleDef]) -> Result<(), ModuleStop>
    ensures ok { OnOk result (spec.repeated_modules modules.now ≡ []) }
    ensures stop { IfErr result (IsFirst told (map RepeatedModule (spec.repeated_modules modules.now))) }
{
    let mut names = IndexSet::new(alloc);
    for module in modules {
        if !note(&mut names, &module.name)? {
            return Err(ModuleStop::RepeatedModule {
                place: module.place,
            });
        }
    }
    Ok(())
}

fn no_repeated_param(alloc: Global, params: &[Param]) -> Result<(), ModuleStop>
    ensures ok { OnOk result (spec.repeated_params params.now ≡ []) }
    ensures stop { IfErr result (IsFirst told (map RepeatedParameter (spec.repeated_params params.now))) }
{
    let mut names = IndexSet::new(alloc);
    for param in params {
        if !note(&mut names, &param.name)? {
            return Err(ModuleStop::RepeatedParameter { place: param.place });
        }
    }
    Ok(())
}

/// A parameter with the name of an earlier one of its module is refused.
pub(crate) fn no_repeated_parameter(alloc: Global, modules: &[ModuleDef]) -> Result<(), ModuleStop>
    ensures ok { OnOk result (spec.repeated_parameters modules.now ≡ []) }
    ensures stop { IfErr result (IsFirst told (map RepeatedParameter (spec.repeated_parameters modules.now))) }
{
    for module in modules {
        no_repeated_param(alloc, module.params.as_slice())?;
    }
    Ok(())
}

/// An error is the 65th process.
pub(crate) fn no_process_too_many(processes: &[ProcessDef]) -> Result<(), Place>
    ensures { result ≡ first_of (spec.processes_too_many processes.now) }
{
    match processes.get(MOST_PROCESSES) {
        Some(process) => Err(process.place),
        None => Ok(()),
    }
}

/// An error is the first process with the name of an earlier one.
pub(crate) fn no_repeated_process(processes: &[ProcessDef]) -> Result<(), Place>
    ensures { result ≡ first_of (spec.repeated_processes processes.now) }
{
    for (at, process) in processes.iter().enumerate() {
        if is_process(&processes[..at], &process.name) {
            return Err(process.place);
        }
    }
    Ok(())
}
