//! Where an expression stands.

/// What may stand at a place without brackets: an expression whose outermost sign is of this level, or of a later one.
#[derive(Clone, Copy, Debug, PartialEq, Eq)]
pub enum Level {
    /// `||`
    Or,
    /// `&&`
    And,
    /// The six signs that compare.
    Comparison,
    /// `+` and `-`
    Sum,
    /// `*`
    Product,
    /// No sign between two parts.
    Unary,
}
