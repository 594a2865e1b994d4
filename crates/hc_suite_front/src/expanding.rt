//! Sources with modules, and what they expand to.

ghost use Rattle.std.specs.Prelude.{IfOk, IfSome};
ghost use Rattle.hc_modules.specs.Refusals.{IsFlat};

use crate::reading::read;
use hc_ast::{Body, ProcessDef, StmtTree, Tree, same_tree};
use hc_list::List;
use hc_modules::{Flat, ModuleStop, expand};
use std::alloc::{AllocError, Global};

/// What a source expands to, or why it doesn't; `None` for a text that is no source.
pub(crate) fn flat_of(alloc: Global, text: &[u8]) -> Option<Result<Flat, ModuleStop>>
    ensures { IfSome result (λ answer. IfOk answer IsFlat) }
{
    match read(alloc, text) {
        Some(Ok(tree)) => Some(expand(alloc, &tree)),
        _ => None,
    }
}

/// The number of statements, or the refusal.
pub(crate) fn expanded(alloc: Global, text: &[u8]) -> Result<String, AllocError> {
    match flat_of(alloc, text) {
        Some(Ok(flat)) => format!(in alloc; "{} statements", flat.statements),
        Some(Err(stop)) => format!(in alloc; "{stop:?}"),
        None => String::from_str(alloc, "no source"),
    }
}

/// Equal statements.
fn copied(alloc: Global, statements: &[StmtTree]) -> Result<List<StmtTree>, AllocError> {
    let mut found = List::new(alloc);
    for statement in statements {
        found.push(statement.copy(alloc)?)?;
    }
    Ok(found)
}

/// The source that has these processes and no modules.
fn source_of(alloc: Global, flat: &Flat) -> Result<Tree, AllocError> {
    let mut processes = List::new(alloc);
    for process in flat.processes.as_slice() {
        processes.push(ProcessDef {
            place: process.place,
            name: process.name.copy(),
            body: Body::Inline(copied(alloc, process.body.as_slice())?),
        })?;
    }
    Ok(Tree {
        modules: List::new(alloc),
        processes,
    })
}

/// The number of statements, and whether a source expands to what another one says without modules.
pub(crate) fn expanded_as(alloc: Global, text: &[u8], other: &[u8]) -> Result<String, AllocError> {
    let (Some(Ok(flat)), Some(Ok(other))) = (flat_of(alloc, text), read(alloc, other)) else {
        return String::from_str(alloc, "no source");
    };
    let is_same = same_tree(&source_of(alloc, &flat)?, &other);
    let told = if is_same { "the same" } else { "another" };
    format!(in alloc; "{} statements, {told}", flat.statements)
}
