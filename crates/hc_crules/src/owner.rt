//! Functions that are declared, and whose body is under way.

ghost use Rattle.std.specs.Prelude.{◌≡◌, [], ◌∷◌, ◌++◌, map, IfOk, OnOk};
ghost use Rattle.hc_cgrammar.specs.Walk as walk;
ghost use Rattle.hc_cgrammar.specs.Rules as rules;
ghost use Rattle.hc_crules.specs.Seen.{signature_seen, owner_seen, shape_seen, function_of};

use crate::call::one_more;
use crate::shape::Shape;
use crate::word::Word;
use hc_cgrammar::Role;
use hc_ctoken::Lexeme;
use hc_list::List;
use std::alloc::AllocError;

/// A function: its name, how many parameters it has, and whether it gives an int.
#[derive(Debug, Drop)]
pub(crate) struct Signature {
    pub(crate) name: Word,
    pub(crate) arity: u64,
    pub(crate) gives: bool,
}

impl Signature {
    fn copy(&self) -> Self
        ensures { result ≡ self.now }
    {
        Signature {
            name: self.name.copy(),
            arity: self.arity,
            gives: self.gives,
        }
    }
}

/// Whose body it is.
#[derive(Debug, Drop)]
pub(crate) enum Owner {
    Function(Signature),
    Thread,
}

impl Owner {
    /// A function of this name, before its parameters.
    fn named(lexeme: &Lexeme, gives: bool) -> Self
        ensures { owner_seen result ≡ function_of (walk.name_of lexeme.now) gives }
    {
        Owner::Function(Signature {
            name: Word::of(lexeme),
            arity: 0,
            gives,
        })
    }

    /// With one parameter more.
    fn with_parameter(self) -> Result<Self, AllocError>
        ensures { IfOk result (λ o. owner_seen o ≡ walk.with_parameter (owner_seen self)) }
    {
        match self {
            Owner::Function(function) => {
                let arity = one_more(function.arity)?;
                Ok(Owner::Function(Signature {
                    name: function.name,
                    arity,
                    gives: function.gives,
                }))
            }
            Owner::Thread => Ok(Owner::Thread),
        }
    }

    /// Behind a token in its role.
    pub(crate) fn behind(self, role: Role, lexeme: &Lexeme) -> Result<Self, AllocError>
        ensures { IfOk result (λ o. owner_seen o ≡ walk.owner_after role lexeme.now (owner_seen self)) }
    {
        match role {
            Role::DeclareGiving => Ok(Owner::named(lexeme, true)),
            Role::DeclareVoid => Ok(Owner::named(lexeme, false)),
            Role::DeclareThread => Ok(Owner::Thread),
            Role::DeclareParameter => self.with_parameter(),
            _ => Ok(self),
        }
    }

    /// Whether a `return` without a value may stand in the body.
    pub(crate) fn may_return(&self) -> bool
        ensures { result ≡ rules.may_return (owner_seen self.now) }
    {
        match self {
            Owner::Function(function) => !function.gives,
            Owner::Thread => false,
        }
    }

    /// Whether a `return` with a value of this shape may stand in the body.
    pub(crate) fn may_return_value(&self, shape: Shape) -> bool
        ensures { result ≡ rules.may_return_value (owner_seen self.now) (shape_seen shape) }
    {
        match self {
            Owner::Function(function) => function.gives,
            Owner::Thread => shape.is_zero(),
        }
    }
}

/// The functions behind a token in its role: where a body ends, its function is declared.
pub(crate) fn end_function(
    functions: &mut List<Signature>,
    role: Role,
    owner: &Owner,
) -> Result<(), AllocError>
    ensures { OnOk result (map signature_seen functions.new ≡ walk.functions_after role (owner_seen owner.now) (map signature_seen functions.old)) }
{
    match (role, owner) {
        (Role::EndFunction, Owner::Function(function)) => functions.push(function.copy()),
        _ => Ok(()),
    }
}
