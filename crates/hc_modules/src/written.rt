//! Whether a module writes a value parameter.

ghost use Rattle.std.specs.Prelude.{◌≡◌, ◌||◌, [], map, flat_map, IfOk, OnOk, IfErr};
ghost use Rattle.std.specs.List.{list_any};
ghost use Rattle.hc_ast.specs.Bare.{Word};
ghost use Rattle.hc_modules.specs.declared.flat.ModuleStop.TheVariants.{ParameterWritten};
ghost use Rattle.hc_modules.specs.Bindings.{same_word};
ghost use Rattle.hc_modules.specs.Bindings as spec;
ghost use Rattle.hc_modules.specs.Finds.{writes_parameter, parameters_written};
ghost use Rattle.hc_modules.specs.Found.{first_of, IsFirst, told};
ghost use Rattle.hc_modules.specs.Outermost as out;
ghost use Rattle.hc_modules.specs.Tables.{AreValues, writes_among};

use crate::flat::ModuleStop;
use crate::names::note;
use hc_ast::{BranchTree, IoTree, ModuleDef, Param, ParamKind, RateTree, StmtKind, StmtTree};
use hc_frac::{Name, Place};
use indexmap::IndexSet;
use std::alloc::{AllocError, Global};

/// Adds the name of a parameter, where it is a value.
fn add_value(names: &mut IndexSet<Name>, param: &Param) -> Result<(), AllocError>
    ensures { OnOk result ((x : Word) →
        list_any (same_word x) names.new.keys ≡ (list_any (same_word x) names.old.keys || spec.is_value_of x param.now)) }
{
    match param.kind {
        ParamKind::Channel => Ok(()),
        ParamKind::Value => {
            note(names, &param.name)?;
            Ok(())
        }
    }
}

/// The names of the value parameters.
fn values_of(alloc: Global, params: &[Param]) -> Result<IndexSet<Name>, AllocError>
    ensures { IfOk result (λ names. AreValues names.keys params.now) }
{
    let mut names = IndexSet::new(alloc);
    for param in params {
        add_value(&mut names, param)?;
    }
    Ok(names)
}

/// An error is the place, where the variable that is written there is a value parameter.
fn write(values: &IndexSet<Name>, name: &Name, place: Place) -> Result<(), Place>
    ensures { result ≡ first_of (writes_among values.now.keys (out.written_at place name.now)) }
{
    if values.contains(name) {
        Err(place)
    } else {
        Ok(())
    }
}

fn write_of_io(values: &IndexSet<Name>, io: &IoTree, place: Place) -> Result<(), Place>
    ensures { result ≡ first_of (flat_map (writes_among values.now.keys) (out.by_io io.now place)) }
{
    match io {
        IoTree::Send { .. } => Ok(()),
        IoTree::Receive { channel: _, target } => write(values, target, place),
    }
}

fn write_of_rates(values: &IndexSet<Name>, rates: &[RateTree]) -> Result<(), Place>
    ensures { result ≡ first_of (flat_map (λ r. writes_among values.now.keys (out.by_rate r)) rates.now) }
{
    for rate in rates {
        write(values, &rate.variable, rate.place)?;
    }
    Ok(())
}

/// An error is the first place at which a value parameter is written in the statement.
#[cycle(writes)]
#[tactic(auto, using(crate::proofs::WrittenForms::found_forms))]
fn write_of_stmt(values: &IndexSet<Name>, stmt: &StmtTree) -> Result<(), Place>
    ensures { result ≡ first_of (flat_map (writes_among values.now.keys) (out.written stmt.now)) }
{
    match &stmt.kind {
        StmtKind::Assign { target, value: _ } => write(values, target, stmt.place),
        StmtKind::Io(io) => write_of_io(values, io, stmt.place),
        StmtKind::If { test: _, yes, no } => {
            write_of_stmts(values, yes.as_slice())?;
            match no {
                Some(no) => write_of_stmts(values, no.as_slice()),
                None => Ok(()),
            }
        }
        StmtKind::Pick { left, right } => {
            write_of_stmts(values, left.as_slice())?;
            write_of_stmts(values, right.as_slice())
        }
        StmtKind::Forever { body } | StmtKind::Loop { test: _, body } => write_of_stmts(
            values,
            body.as_slice(),
        ),
        StmtKind::Choice { branches } => write_of_branches(values, branches.as_slice()),
        StmtKind::Evolve {
            rates,
            domain: _,
            branches,
        } => {
            write_of_rates(values, rates.as_slice())?;
            write_of_branches(values, branches.as_slice())
        }
        StmtKind::Skip | StmtKind::Wait { .. } | StmtKind::Log { .. } => Ok(()),
    }
}

#[cycle(writes)]
fn write_of_stmts(values: &IndexSet<Name>, stmts: &[StmtTree]) -> Result<(), Place>
    ensures { result ≡ first_of (flat_map (writes_among values.now.keys) (flat_map out.written stmts.now)) }
{
    for stmt in stmts {
        write_of_stmt(values, stmt)?;
    }
    Ok(())
}

#[cycle(writes)]
#[tactic(auto, using(crate::proofs::WrittenForms::found_forms))]
fn write_of_branch(values: &IndexSet<Name>, branch: &BranchTree) -> Result<(), Place>
    ensures { result ≡ first_of (flat_map (writes_among values.now.keys) (out.branch_written branch.now)) }
{
    write_of_io(values, &branch.io, branch.place)?;
    write_of_stmts(values, branch.body.as_slice())
}

#[cycle(writes)]
fn write_of_branches(values: &IndexSet<Name>, branches: &[BranchTree]) -> Result<(), Place>
    ensures { result ≡ first_of (flat_map (writes_among values.now.keys) (flat_map out.branch_written branches.now)) }
{
    for branch in branches {
        write_of_branch(values, branch)?;
    }
    Ok(())
}

/// A write of a value parameter of its module is refused.
fn no_write(alloc: Global, module: &ModuleDef) -> Result<(), ModuleStop>
    ensures ok { OnOk result (flat_map (writes_parameter module.now.params) (flat_map out.written module.now.body) ≡ []) }
    ensures stop { IfErr result (IsFirst told (map ParameterWritten (flat_map (writes_parameter module.now.params) (flat_map out.written module.now.body)))) }
{
    let values = values_of(alloc, module.params.as_slice())?;
    match write_of_stmts(&values, module.body.as_slice()) {
        Ok(()) => Ok(()),
        Err(place) => Err(ModuleStop::ParameterWritten { place }),
    }
}

/// The first write of a value parameter by a module is refused.
pub(crate) fn no_parameter_written(alloc: Global, modules: &[ModuleDef]) -> Result<(), ModuleStop>
    ensures ok { OnOk result (parameters_written modules.now ≡ []) }
    ensures stop { IfErr result (IsFirst told (map ParameterWritten (parameters_written modules.now))) }
{
    for module in modules {
        no_write(alloc, module)?;
    }
    Ok(())
}
