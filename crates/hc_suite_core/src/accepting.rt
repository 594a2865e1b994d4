//! From a text to its system.

use hc_ast::Tree;
use hc_check::{CheckStop, check};
use hc_limits::MOST_SOURCE_BYTES;
use hc_modules::{Flat, ModuleStop, expand};
use hc_parse::{ParseStop, parse};
use hc_term::System;
use std::alloc::{AllocError, Global};

/// The system of a text, or `None` where the text is refused.
pub(crate) fn system_of(alloc: Global, bytes: &[u8]) -> Result<Option<System>, AllocError> {
    if bytes.len() > MOST_SOURCE_BYTES {
        return Ok(None);
    }
    let tree = match parse(alloc, bytes) {
        Ok(tree) => tree,
        Err(ParseStop::Memory) => return Err(AllocError),
        Err(_) => return Ok(None),
    };
    let flat = match expand(alloc, &tree) {
        Ok(flat) => flat,
        Err(ModuleStop::Memory) => return Err(AllocError),
        Err(_) => return Ok(None),
    };
    match check(alloc, &flat) {
        Ok(system) => Ok(Some(system)),
        Err(CheckStop::Memory) => Err(AllocError),
        Err(_) => Ok(None),
    }
}
