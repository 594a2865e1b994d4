//! What happens between tokens: parts of a source begin and end.

ghost use Rattle.std.specs.Prelude.{◌≡◌, OnOk};
ghost use Rattle.hc_parse.specs.Builder as spec;

use crate::values::Values;
use hc_ast::{Body, Mark, ModuleDef, Param, ParamKind, ProcessDef};
use hc_list::List;
use hc_token::Fixed;
use std::alloc::{AllocError, Global};
use std::mem;

/// What the word before a parameter says.
fn param_kind_of(word: Fixed) -> ParamKind
    ensures { result ≡ spec.param_kind_of word }
{
    match word {
        Fixed::Ch => ParamKind::Channel,
        _ => ParamKind::Value,
    }
}

impl Values {
    /// The parameters of a module begin.
    pub(crate) fn params_begin(&mut self, alloc: Global) -> Result<(), AllocError>
        ensures { OnOk result (self.new ≡ spec.at_mark Mark.Params self.old) }
    {
        self.params = List::new(alloc);
        Ok(())
    }

    /// A parameter ends.
    pub(crate) fn param(&mut self) -> Result<(), AllocError>
        ensures { OnOk result (self.new ≡ spec.at_mark Mark.Param self.old) }
    {
        let Some((_, name)) = self.names.pop() else {
            return Ok(());
        };
        let Some((place, word)) = self.fixed.pop() else {
            return Ok(());
        };
        self.params.push(Param {
            place,
            kind: param_kind_of(word),
            name,
        })
    }

    /// A module ends.
    pub(crate) fn module(&mut self, alloc: Global) -> Result<(), AllocError>
        ensures { OnOk result (self.new ≡ spec.at_mark Mark.Module self.old) }
    {
        let Some(body) = self.bodies.pop() else {
            return Ok(());
        };
        let Some((place, name)) = self.names.pop() else {
            return Ok(());
        };
        let params = mem::replace(&mut self.params, List::new(alloc));
        self.modules.push(ModuleDef {
            place,
            name,
            params,
            body,
        })
    }

    /// The arguments of a process begin.
    pub(crate) fn arguments_begin(&mut self, alloc: Global) -> Result<(), AllocError>
        ensures { OnOk result (self.new ≡ spec.at_mark Mark.Arguments self.old) }
    {
        self.arguments = List::new(alloc);
        Ok(())
    }

    /// An argument ends.
    pub(crate) fn argument(&mut self) -> Result<(), AllocError>
        ensures { OnOk result (self.new ≡ spec.at_mark Mark.Argument self.old) }
    {
        let Some(value) = self.exprs.pop() else {
            return Ok(());
        };
        self.arguments.push(value)
    }

    /// A process with statements of its own ends.
    pub(crate) fn inline(&mut self) -> Result<(), AllocError>
        ensures { OnOk result (self.new ≡ spec.at_mark Mark.Inline self.old) }
    {
        let Some(body) = self.bodies.pop() else {
            return Ok(());
        };
        let Some((place, name)) = self.names.pop() else {
            return Ok(());
        };
        self.processes.push(ProcessDef {
            place,
            name,
            body: Body::Inline(body),
        })
    }

    /// A process that calls a module ends.
    pub(crate) fn call(&mut self, alloc: Global) -> Result<(), AllocError>
        ensures { OnOk result (self.new ≡ spec.at_mark Mark.Call self.old) }
    {
        let Some((callee, module)) = self.names.pop() else {
            return Ok(());
        };
        let Some((place, name)) = self.names.pop() else {
            return Ok(());
        };
        let arguments = mem::replace(&mut self.arguments, List::new(alloc));
        self.processes.push(ProcessDef {
            place,
            name,
            body: Body::Call {
                place: callee,
                module,
                arguments,
            },
        })
    }
}
