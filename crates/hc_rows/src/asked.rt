//! What a row asks about.

use crate::texts::text_of;
use std::alloc::{AllocError, Global};

/// A text, and perhaps another one.
#[derive(Drop)]
pub struct Asked {
    pub text: Vec<u8>,
    pub other: Option<Vec<u8>>,
}

impl Asked {
    /// What a row `TEXT` or `TEXT ~ TEXT` asks about.
    pub fn of_row(alloc: Global, row: &str) -> Result<Asked, AllocError> {
        let Some((text, other)) = row.split_once(" ~ ") else {
            let text = text_of(alloc, row)?;
            return Ok(Asked { text, other: None });
        };
        let text = text_of(alloc, text)?;
        let other = text_of(alloc, other)?;
        Ok(Asked {
            text,
            other: Some(other),
        })
    }
}
