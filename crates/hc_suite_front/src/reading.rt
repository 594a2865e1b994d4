//! Texts that are read, compared and printed.

ghost use Rattle.std.specs.Prelude.{IfOk, IfSome};
ghost use Rattle.hc_ast.specs.Source.{IsSource};

use hc_ast::{Tree, same_tree};
use hc_limits::MOST_SOURCE_BYTES;
use hc_parse::{ParseStop, parse};
use hc_print::print;
use hc_rows::on_one_line;
use std::alloc::{AllocError, Global};

/// The tree of a text, or why it has none; `None` for a longer text than a source may be.
pub(crate) fn read(alloc: Global, text: &[u8]) -> Option<Result<Tree, ParseStop>>
    ensures { IfSome result (λ answer. IfOk answer (IsSource text.now)) }
{
    if text.len() > MOST_SOURCE_BYTES {
        return None;
    }
    Some(parse(alloc, text))
}

/// `source`, or the refusal.
pub(crate) fn parsed(alloc: Global, text: &[u8]) -> Result<String, AllocError> {
    match read(alloc, text) {
        Some(Ok(_)) => String::from_str(alloc, "source"),
        Some(Err(stop)) => format!(in alloc; "{stop:?}"),
        None => String::from_str(alloc, "too long"),
    }
}

/// Whether a copy of the one text's tree is that of the other, but for places: `same`, `other`, or `no source`.
pub(crate) fn compared(alloc: Global, text: &[u8], other: &[u8]) -> Result<String, AllocError> {
    let (Some(Ok(tree)), Some(Ok(other))) = (read(alloc, text), read(alloc, other)) else {
        return String::from_str(alloc, "no source");
    };
    let copy = tree.copy(alloc)?;
    String::from_str(
        alloc,
        if same_tree(&copy, &other) {
            "same"
        } else {
            "other"
        },
    )
}

/// The spelling of a source, with `\n` for each newline.
pub(crate) fn printed(alloc: Global, text: &[u8]) -> Result<String, AllocError> {
    let Some(Ok(tree)) = read(alloc, text) else {
        return String::from_str(alloc, "no source");
    };
    let spelling = print(alloc, &tree)?;
    on_one_line(alloc, spelling.as_slice())
}
