//! The system of a source, and its size.

ghost use Rattle.std.specs.Prelude.{◌≡◌, ◌≤◌, length};
ghost use Rattle.hc_limits.specs.Limits.{most_source_bytes};
ghost use Rattle.hc_cmd.specs.Answers.{size_of};
ghost use Rattle.hc_cmd.specs.Prepared.{FindsSystem, FindsTree};

use crate::refusal::Refusal;
use arrayvec::ArrayString;
use hc_ast::Tree;
use hc_check::check;
use hc_modules::{Flat, expand};
use hc_parse::parse;
use hc_term::System;
use itoa::Buffer;
use std::alloc::Global;

/// The tree of a source, or its first refusal.
pub(crate) fn tree_of(alloc: Global, text: &[u8]) -> Result<Tree, Refusal>
    requires { length text.now ≤ most_source_bytes }
    ensures { FindsTree text.now result }
{
    parse(alloc, text).map_err(Refusal::Unparsed)
}

/// The processes of a source and its system, or the first refusal.
pub(crate) fn accepted(alloc: Global, text: &[u8]) -> Result<(Flat, System), Refusal>
    requires { length text.now ≤ most_source_bytes }
    ensures { FindsSystem text.now result }
{
    let tree = tree_of(alloc, text)?;
    let flat = expand(alloc, &tree).map_err(Refusal::Unexpanded)?;
    let system = check(alloc, &flat).map_err(Refusal::Unchecked)?;
    Ok((flat, system))
}

/// The line that tells the size of an accepted source. It takes no memory.
pub(crate) fn size_line(flat: &Flat, system: &System) -> ArrayString<128>
    ensures { result.bytes ≡ size_of flat.now system.now }
{
    let mut buffer = Buffer::new();
    let mut line = ArrayString::new();
    line.push_str("accepted processes ");
    line.push_str(buffer.format(system.processes.len()));
    line.push_str(" channels ");
    line.push_str(buffer.format(system.channels.len()));
    line.push_str(" statements ");
    line.push_str(buffer.format(flat.statements));
    line.push('\n');
    line
}
