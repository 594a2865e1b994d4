//! A whole source.

ghost use Rattle.std.specs.Prelude.{◌≡◌, IfOk};

use crate::lists::{Copied, copies};
use crate::stmt::copy_statements;
use crate::{ExprTree, StmtTree};
use hc_frac::{Name, Place};
use hc_list::List;
use std::alloc::{AllocError, Global};

/// A source: its modules, and the processes of its system.
#[derive(Drop)]
pub struct Tree {
    pub modules: List<ModuleDef>,
    pub processes: List<ProcessDef>,
}

/// A module, at its name.
#[derive(Drop)]
pub struct ModuleDef {
    pub place: Place,
    pub name: Name,
    pub params: List<Param>,
    pub body: List<StmtTree>,
}

/// A parameter, at its first token.
#[derive(Drop)]
pub struct Param {
    pub place: Place,
    pub kind: ParamKind,
    pub name: Name,
}

/// Whether a parameter stands for a channel or for a value.
#[derive(Clone, Copy, Debug, PartialEq, Eq)]
pub enum ParamKind {
    Channel,
    Value,
}

/// A process, at its name.
#[derive(Drop)]
pub struct ProcessDef {
    pub place: Place,
    pub name: Name,
    pub body: Body,
}

/// What a process does: statements of its own, or those of a module. A call is at the module's name.
#[derive(Drop)]
pub enum Body {
    Inline(List<StmtTree>),
    Call {
        place: Place,
        module: Name,
        arguments: List<ExprTree>,
    },
}

impl Tree {
    /// An equal tree.
    pub fn copy(&self, alloc: Global) -> Result<Tree, AllocError>
        ensures { IfOk result (λ t. t ≡ self.now) }
    {
        let modules = copies(alloc, self.modules.as_slice())?;
        let processes = copies(alloc, self.processes.as_slice())?;
        Ok(Tree { modules, processes })
    }
}

impl ModuleDef {
    /// An equal module.
    pub fn copy(&self, alloc: Global) -> Result<ModuleDef, AllocError>
        ensures { IfOk result (λ t. t ≡ self.now) }
    {
        let params = copies(alloc, self.params.as_slice())?;
        let body = copy_statements(alloc, self.body.as_slice())?;
        Ok(ModuleDef {
            place: self.place,
            name: self.name.copy(),
            params,
            body,
        })
    }
}

impl Param {
    /// An equal parameter.
    pub fn copy(&self) -> Param
        ensures { result ≡ self.now }
    {
        Param {
            place: self.place,
            kind: self.kind,
            name: self.name.copy(),
        }
    }
}

impl ProcessDef {
    /// An equal process.
    pub fn copy(&self, alloc: Global) -> Result<ProcessDef, AllocError>
        ensures { IfOk result (λ t. t ≡ self.now) }
    {
        let body = self.body.copy(alloc)?;
        Ok(ProcessDef {
            place: self.place,
            name: self.name.copy(),
            body,
        })
    }
}

impl Body {
    /// An equal body.
    pub fn copy(&self, alloc: Global) -> Result<Body, AllocError>
        ensures { IfOk result (λ t. t ≡ self.now) }
    {
        match self {
            Body::Inline(statements) => {
                let statements = copy_statements(alloc, statements.as_slice())?;
                Ok(Body::Inline(statements))
            }
            Body::Call {
                place,
                module,
                arguments,
            } => {
                let arguments = copies(alloc, arguments.as_slice())?;
                Ok(Body::Call {
                    place: *place,
                    module: module.copy(),
                    arguments,
                })
            }
        }
    }
}

impl Copied for ModuleDef {
    fn copied(&self, alloc: Global) -> Result<ModuleDef, AllocError> {
        self.copy(alloc)
    }
}

impl Copied for Param {
    fn copied(&self, _alloc: Global) -> Result<Param, AllocError> {
        Ok(self.copy())
    }
}

impl Copied for ProcessDef {
    fn copied(&self, alloc: Global) -> Result<ProcessDef, AllocError> {
        self.copy(alloc)
    }
}
