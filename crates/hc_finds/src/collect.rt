//! The parts and uses of all processes.

ghost use Rattle.std.specs.Prelude.{◌≡◌, ◌++◌, map, flat_map, IfOk};
ghost use Rattle.hc_finds.specs.Parts as spec;
ghost use Rattle.hc_finds.specs.Refusals.{parts_in};
ghost use Rattle.hc_finds.specs.Seen.{seen, each_seen, all_uses};
ghost use Rattle.hc_finds.specs.Uses.{uses_in};

use crate::parts::{Part, add_all};
use crate::uses::{Use, uses_in};
use hc_ast::StmtTree;
use hc_modules::FlatProcess;
use std::alloc::{AllocError, Global};

/// The parts of statements: with a loop's test before its body, or as the tokens stand.
pub(crate) fn parts_of<'a>(
    alloc: Global,
    tests_first: bool,
    stmts: &'a [StmtTree],
) -> Result<Vec<Part<'a>>, AllocError>
    ensures { IfOk result (λ ps. seen ps.items ≡ spec.parts_of tests_first stmts.now) }
{
    let mut parts = Vec::new(alloc);
    add_all(&mut parts, tests_first, stmts)?;
    Ok(parts)
}

/// The parts of each process, as the tokens stand.
pub(crate) fn parts_of_each<'a>(
    alloc: Global,
    processes: &'a [FlatProcess],
) -> Result<Vec<Vec<Part<'a>>>, AllocError>
    ensures { IfOk result (λ ps. each_seen ps.items ≡ map parts_in processes.now) }
{
    let mut parts = Vec::new(alloc);
    for process in processes {
        parts.push(parts_of(alloc, false, process.body.as_slice())?)?;
    }
    Ok(parts)
}

/// The uses of channels by each process.
pub(crate) fn uses_of_each<'a>(
    alloc: Global,
    processes: &[Vec<Part<'a>>],
) -> Result<Vec<Vec<Use<'a>>>, AllocError>
    ensures { IfOk result (λ us. all_uses us.items ≡ map (flat_map uses_in) (each_seen processes.now)) }
{
    let mut uses = Vec::new(alloc);
    for parts in processes {
        uses.push(uses_in(alloc, parts)?)?;
    }
    Ok(uses)
}
