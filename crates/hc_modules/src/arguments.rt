//! Whether calls fit the modules that they name.

ghost use Rattle.std.specs.Prelude.{◌≡◌, option_map, flat_map, zip};
ghost use Rattle.hc_modules.specs.Expansion as expansion;
ghost use Rattle.hc_modules.specs.Finds as spec;
ghost use Rattle.hc_modules.specs.Found.{first_of};

use crate::call::bare_name;
use hc_ast::{Body, ExprKind, ExprTree, ModuleDef, Param, ParamKind, ProcessDef};
use hc_frac::{Name, Place};

/// The module of a name.
pub(crate) fn module_of<'a>(modules: &'a [ModuleDef], name: &Name) -> Option<&'a ModuleDef>
    ensures { option_map (λ x. x.now) result ≡ expansion.module_of modules.now name.now }
{
    modules.iter().find(|module| module.name == *name)
}

/// The parameters of the module of a name, of which there are none without one.
fn params_of<'a>(modules: &'a [ModuleDef], name: &Name) -> &'a [Param]
    ensures { result.now ≡ spec.params_of (expansion.module_of modules.now name.now) }
{
    match module_of(modules, name) {
        Some(module) => module.params.as_slice(),
        None => &[],
    }
}

fn known(modules: &[ModuleDef], body: &Body) -> Result<(), Place>
    ensures { result ≡ first_of (spec.unknown_in modules.now body.now) }
{
    let Body::Call {
        place,
        module,
        arguments: _,
    } = body
    else {
        return Ok(());
    };
    match module_of(modules, module) {
        Some(_) => Ok(()),
        None => Err(*place),
    }
}

/// An error is the first call of a name that no module has.
pub(crate) fn no_unknown_module(
    modules: &[ModuleDef],
    processes: &[ProcessDef],
) -> Result<(), Place>
    ensures { result ≡ first_of (spec.unknown_modules modules.now processes.now) }
{
    for process in processes {
        known(modules, &process.body)?;
    }
    Ok(())
}

fn counted(modules: &[ModuleDef], body: &Body) -> Result<(), Place>
    ensures { result ≡ first_of (spec.miscounted_in modules.now body.now) }
{
    let Body::Call {
        place,
        module,
        arguments,
    } = body
    else {
        return Ok(());
    };
    if params_of(modules, module).len() == arguments.as_slice().len() {
        Ok(())
    } else {
        Err(*place)
    }
}

/// An error is the first call with more arguments than parameters, or fewer.
pub(crate) fn no_argument_miscounted(
    modules: &[ModuleDef],
    processes: &[ProcessDef],
) -> Result<(), Place>
    ensures { result ≡ first_of (spec.arguments_miscounted modules.now processes.now) }
{
    for process in processes {
        counted(modules, &process.body)?;
    }
    Ok(())
}

/// Whether an expression has a name in it.
fn has_name(expr: &ExprTree) -> bool
    ensures { result ≡ spec.has_name expr.now }
{
    match &expr.kind {
        ExprKind::Number(_) => false,
        ExprKind::Name(_) => true,
        ExprKind::Neg(part) => has_name(part.get()),
        ExprKind::Binary(_, left, right) => has_name(left.get()) || has_name(right.get()),
    }
}

/// Whether an argument can't stand for a parameter of this kind.
fn is_misfit(kind: ParamKind, argument: &ExprTree) -> bool
    ensures { result ≡ spec.is_misfit kind argument.now }
{
    match kind {
        ParamKind::Channel => bare_name(argument).is_none(),
        ParamKind::Value => has_name(argument),
    }
}

/// An error is the first of the arguments that can't stand for its parameter.
fn no_misfit(params: &[Param], arguments: &[ExprTree]) -> Result<(), Place>
    ensures { result ≡ first_of (flat_map spec.misfits (zip params.now arguments.now)) }
{
    let mut bound = params.iter().zip(arguments);
    match bound.find(|(param, argument)| is_misfit(param.kind, argument)) {
        Some((_, argument)) => Err(argument.place),
        None => Ok(()),
    }
}

fn fits(modules: &[ModuleDef], body: &Body) -> Result<(), Place>
    ensures { result ≡ first_of (spec.misfits_in modules.now body.now) }
{
    match body {
        Body::Inline(_) => Ok(()),
        Body::Call {
            place: _,
            module,
            arguments,
        } => no_misfit(params_of(modules, module), arguments.as_slice()),
    }
}

/// An error is the first argument that can't stand for its parameter.
pub(crate) fn no_argument_misfit(
    modules: &[ModuleDef],
    processes: &[ProcessDef],
) -> Result<(), Place>
    ensures { result ≡ first_of (spec.arguments_misfit modules.now processes.now) }
{
    for process in processes {
        fits(modules, &process.body)?;
    }
    Ok(())
}
