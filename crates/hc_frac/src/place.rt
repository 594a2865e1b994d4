//! Places in a text.

/// Where something stands in a text: its line and its column, each from 1.
#[derive(Clone, Copy, Debug, PartialEq, Eq)]
pub struct Place {
    pub line: u32,
    pub column: u32,
}
