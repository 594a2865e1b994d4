//! What the parameters of a module stand for in a call.

ghost use Rattle.std.specs.Prelude.{◌≡◌, zip, option_map, IfOk, OnOk};
ghost use Rattle.std.specs.Option.{option_or};
ghost use Rattle.hc_modules.specs.Bindings as spec;
ghost use Rattle.hc_modules.specs.Tables as table;

use hc_ast::{ExprKind, ExprTree, Param, ParamKind};
use hc_frac::Name;
use indexmap::IndexMap;
use std::alloc::{AllocError, Global};

/// The arguments for the parameters of one kind, by their names.
type Table<'a> = IndexMap<Name, &'a ExprTree>;

/// The parameters of a module, and the arguments for them in the same order, which can be found by name.
#[derive(Drop)]
pub(crate) struct Call<'a> {
    pub(crate) params: &'a [Param],
    pub(crate) arguments: &'a [ExprTree],
    pub(crate) channels: Table<'a>,
    pub(crate) values: Table<'a>,
    pub ghost by_channel: { table.Finds channels (spec.channel_argument (zip params.now arguments.now)) },
    pub ghost by_value: { table.Finds values (spec.value_for (zip params.now arguments.now)) },
}

/// The name that an expression is, where it is nothing else.
pub(crate) fn bare_name(expr: &ExprTree) -> Option<&Name>
    ensures { option_map (λ x. x.now) result ≡ spec.bare_name expr.now }
{
    match &expr.kind {
        ExprKind::Name(name) => Some(name),
        _ => None,
    }
}

/// Whether a parameter is of this kind.
fn is_kind(kind: ParamKind, param: &Param) -> bool
    ensures { result ≡ table.is_kind kind param.now.kind }
{
    match (kind, param.kind) {
        (ParamKind::Channel, ParamKind::Channel) => true,
        (ParamKind::Value, ParamKind::Value) => true,
        _ => false,
    }
}

/// Adds the argument for a parameter, where it is of this kind and none of its name was there.
fn bind<'a>(
    found: &mut Table<'a>,
    kind: ParamKind,
    param: &Param,
    argument: &'a ExprTree,
) -> Result<(), AllocError>
    ensures { OnOk result (table.Adds found.old found.new (table.argument_for kind (param.now, argument.now))) }
{
    let is_bound = found.contains_key(&param.name);
    if is_kind(kind, param) & !is_bound {
        match found.insert(param.name.copy(), argument) {
            Ok(_) => Ok(()),
            Err(_) => Err(AllocError),
        }
    } else {
        Ok(())
    }
}

/// The arguments for the parameters of this kind.
fn table_of<'a>(
    alloc: Global,
    kind: ParamKind,
    params: &'a [Param],
    arguments: &'a [ExprTree],
) -> Result<Table<'a>, AllocError>
    ensures { IfOk result (λ found. table.Finds found (table.argument_in kind (zip params.now arguments.now))) }
{
    let mut found = IndexMap::new(alloc);
    for (param, argument) in params.iter().zip(arguments) {
        bind(&mut found, kind, param, argument)?;
    }
    Ok(found)
}

impl<'a> Call<'a> {
    ghost use Rattle.hc_modules.specs.Calls.{bindings};

    /// The call of a module with these parameters by these arguments.
    pub(crate) fn new(
        alloc: Global,
        params: &'a [Param],
        arguments: &'a [ExprTree],
    ) -> Result<Call<'a>, AllocError>
        ensures { IfOk result (λ c. bindings c ≡ zip params.now arguments.now) }
    {
        let channels = table_of(alloc, ParamKind::Channel, params, arguments)?;
        let values = table_of(alloc, ParamKind::Value, params, arguments)?;
        Ok(Call {
            params,
            arguments,
            channels,
            values,
        })
    }

    /// The expression that stands for the variable, where it is a value parameter.
    pub(crate) fn value(&self, name: &Name) -> Option<&'a ExprTree>
        ensures { option_map (λ x. x.now) result ≡ spec.value_for (bindings self.now) name.now }
    {
        match self.values.get(name) {
            Some(argument) => Some(*argument),
            None => None,
        }
    }

    /// The argument for the channel, where it is a channel parameter.
    fn channel_argument(&self, name: &Name) -> Option<&'a ExprTree>
        ensures { option_map (λ x. x.now) result ≡ spec.channel_argument (bindings self.now) name.now }
    {
        match self.channels.get(name) {
            Some(argument) => Some(*argument),
            None => None,
        }
    }

    /// The channel that a channel is in this call.
    pub(crate) fn channel(&self, name: &Name) -> Name
        ensures { result ≡ spec.channel_for (bindings self.now) name.now }
    {
        let Some(argument) = self.channel_argument(name) else {
            return name.copy();
        };
        match bare_name(argument) {
            Some(channel) => channel.copy(),
            None => name.copy(),
        }
    }
}
