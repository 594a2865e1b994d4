//! What a token in its role, and a mark, make of the parts of a state.

ghost use Rattle.std.specs.Prelude.{◌≡◌, ◌<◌, ◌+◌, ◌^◌, true, OnOk};
ghost use Rattle.hc_cgrammar.specs.Walk as walk;
ghost use Rattle.hc_cgrammar.specs.declared.role.Role.TheVariants as r;

use crate::word::Word;
use hc_cgrammar::{Mark, Role};
use hc_ctoken::Lexeme;
use hc_list::List;
use std::alloc::{AllocError, Global};

/// Whether a token opens an item in this role.
pub(crate) fn opens(role: Role) -> bool
    ensures { result ≡ walk.opens role }
{
    matches!(
        role,
        Role::Open
            | Role::OpenLength
            | Role::OpenArguments
            | Role::OpenCases
            | Role::Minus
            | Role::Not
    )
}

/// Whether it closes one.
fn closes(role: Role) -> bool
    ensures { result ≡ walk.closes role }
{
    matches!(
        role,
        Role::Close
            | Role::EndNames
            | Role::EndFunction
            | Role::EndThread
            | Role::EndTable
            | Role::CloseArguments
            | Role::CloseCases
    )
}

/// Whether it is a node of an expression.
pub(crate) fn is_node(role: Role) -> bool
    ensures { result ≡ walk.is_node role }
{
    matches!(
        role,
        Role::Number | Role::Local | Role::Element | Role::Operator | Role::Minus | Role::Not
    )
}

pub(crate) fn items_behind(role: Role, items: u32) -> u32
    requires { walk.opens role ≡ true → items + 1 < 2 ^ 32 }
    ensures { result ≡ walk.items_after role items }
{
    if opens(role) {
        items + 1
    } else if closes(role) {
        items.saturating_sub(1)
    } else {
        items
    }
}

pub(crate) fn nodes_behind(role: Role, nodes: u32) -> u32
    requires { walk.is_node role ≡ true → nodes + 1 < 2 ^ 32 }
    ensures { result ≡ walk.nodes_after role nodes }
{
    if is_node(role) { nodes + 1 } else { nodes }
}

pub(crate) fn returned_behind(role: Role, returned: bool) -> bool
    ensures { result ≡ walk.returned_after role returned }
{
    match role {
        Role::DeclareThread => false,
        _ => returned,
    }
}

pub(crate) fn threads_behind(role: Role, threads: u32) -> u32
    requires { role ≡ r.DeclareThread → threads + 1 < 2 ^ 32 }
    ensures { result ≡ walk.threads_after role threads }
{
    match role {
        Role::DeclareThread => threads + 1,
        _ => threads,
    }
}

pub(crate) fn listed_behind(role: Role, listed: u32) -> u32
    requires { role ≡ r.Listed → listed + 1 < 2 ^ 32 }
    ensures { result ≡ walk.listed_after role listed }
{
    match role {
        Role::Listed => listed + 1,
        _ => listed,
    }
}

pub(crate) fn declare_array(
    arrays: &mut List<Word>,
    role: Role,
    lexeme: &Lexeme,
) -> Result<(), AllocError>
    ensures { OnOk result (arrays.new ≡ walk.arrays_after role lexeme.now arrays.old) }
{
    match role {
        Role::DeclareArray => arrays.push(Word::of(lexeme)),
        _ => Ok(()),
    }
}

/// A function or a thread begins with no locals.
pub(crate) fn declare_local(
    alloc: Global,
    locals: &mut List<Word>,
    role: Role,
    lexeme: &Lexeme,
) -> Result<(), AllocError>
    ensures { OnOk result (locals.new ≡ walk.locals_after role lexeme.now locals.old) }
{
    match role {
        Role::DeclareParameter => locals.push(Word::of(lexeme)),
        Role::DeclareLocal => locals.push(Word::of(lexeme)),
        Role::DeclareGiving => {
            *locals = List::new(alloc);
            Ok(())
        }
        Role::DeclareVoid => {
            *locals = List::new(alloc);
            Ok(())
        }
        Role::DeclareThread => {
            *locals = List::new(alloc);
            Ok(())
        }
        _ => Ok(()),
    }
}

/// Whether the statement that ended last is a `return`, behind a mark.
pub(crate) fn returned_at(mark: Mark, returned: bool) -> bool
    ensures { result ≡ walk.returned_behind mark returned }
{
    match mark {
        Mark::Return | Mark::ValueReturn => true,
        Mark::Set
        | Mark::SetCall
        | Mark::Store
        | Mark::Call
        | Mark::If
        | Mark::IfElse
        | Mark::While
        | Mark::Switch => false,
        _ => returned,
    }
}
