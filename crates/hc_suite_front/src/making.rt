//! Made sources.

use hc_limits::MOST_PAIRS;
use hc_make::made_source;
use hc_rows::Words;
use std::alloc::{AllocError, Global};

/// The number of pairs and the seed of `PAIRS SEED`.
fn numbers_in(row: &[u8]) -> Option<(u32, u64)> {
    let mut words = Words::of(str::from_utf8(row).ok()?);
    let pairs = words.number()?;
    let seed = words.long_number()?;
    Some((pairs, seed))
}

/// Whether the source with so many pairs and this seed is this text.
pub(crate) fn made_as(alloc: Global, row: &[u8], wanted: &[u8]) -> Result<String, AllocError> {
    let Some((pairs, seed)) = numbers_in(row) else {
        return String::from_str(alloc, "no numbers");
    };
    if pairs > MOST_PAIRS {
        return String::from_str(alloc, "too many pairs");
    }
    let text = made_source(alloc, pairs, seed)?;
    String::from_str(
        alloc,
        if text.as_slice() == wanted {
            "as given"
        } else {
            "another text"
        },
    )
}
