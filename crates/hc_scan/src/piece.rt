//! What stands at the front of a text.

/// The first bytes of a text: a lexeme, or else a gap between two.
#[derive(Debug, Drop)]
pub struct Piece<L> {
    /// How many bytes they are.
    pub len: usize,
    pub lexeme: Option<L>,
}
