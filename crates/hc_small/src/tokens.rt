//! Tokens in a list, as they are read.

ghost use Rattle.std.specs.Prelude.{◌≡◌};

use hc_grammar::Source;
use hc_small_grammar::Token;

/// The tokens of a list, one by one.
#[derive(Drop)]
pub struct Tokens<'a> {
    left: &'a [Token],
}

impl<'a> Tokens<'a> {
    pub fn new(tokens: &'a [Token]) -> Self
        ensures { ⟦<Tokens<'a> as Source<Token>>⟧.left result ≡ tokens.now }
    {
        Tokens { left: tokens }
    }
}

impl<'a> Source<Token> for Tokens<'a> {
    ghost left = { λ s. s.left.now };

    fn next(&mut self) -> Option<Token> {
        let (first, rest) = self.left.split_first()?;
        self.left = rest;
        Some(*first)
    }
}
