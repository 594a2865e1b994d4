//! Scanners.

ghost use Rattle.std.specs.Prelude.{◌≡◌, ◌+◌, ◌<◌, ◌≤◌, ◌^◌, ℕ, List, Bool, length, drop, take, fold};
ghost use Rattle.hc_frac.specs.declared.place.Place.{Place as At};
ghost use Rattle.hc_grammar.specs.Ends.{Ends};
ghost use Rattle.hc_scan.specs.declared.piece.Piece.{Piece as Front};
ghost use Rattle.hc_scan.specs.Places as places;
ghost use Rattle.hc_scan.specs.Tokens.{tokens_from, tokens_left, tokens_of, TellsEnd};

use crate::piece::Piece;
use hc_frac::Place;
use hc_grammar::Source;
use std::marker::PhantomData;

/// How the texts of a language are cut into tokens.
pub trait Lexer {
    /// A token without its place.
    type Lexeme: Drop;

    type Token: Drop;

    // what stands at the front of a text, as long as possible
    ghost piece: { List ℕ → Front Self.Lexeme };

    // a lexeme that begins at a place
    ghost token_at: { At → Self.Lexeme → Self.Token };

    // what stands behind the last byte of a text
    ghost end: { Self.Lexeme };

    /// What stands at the front of a text.
    fn front(text: &[u8]) -> Piece<Self::Lexeme>
        requires { 0 < length text.now }
        ensures piece { result ≡ piece text.now }
        ensures within { (1 ≤ result.len) × (result.len ≤ length text.now) };

    /// A lexeme that begins at a place.
    fn token(place: Place, lexeme: Self::Lexeme) -> Self::Token
        ensures { result ≡ token_at place lexeme };

    /// What stands behind the last byte of a text.
    fn end_lexeme() -> Self::Lexeme
        ensures { result ≡ end };
}

/// The tokens of a text, one by one; the last is the end of the text. It takes no memory.
#[derive(Drop)]
pub struct Scanner<'a, L> {
    left: &'a [u8],
    place: Place,
    is_ended: bool,
    lexer: PhantomData<L>,
    ghost lines: { place.line + length left.now < 2 ^ 32 },
    ghost columns: { place.column + length left.now < 2 ^ 32 },
}

impl<'a, L: Lexer> Scanner<'a, L> {
    /// A scanner at the first token of a text.
    pub fn new(text: &'a [u8]) -> Self
        requires { length text.now + 1 < 2 ^ 32 }
        ensures tokens { ⟦<Scanner<'a, L> as Source<L::Token>>⟧.left result ≡ tokens_of L.piece L.token_at L.end text.now }
        ensures ended { (is_end : L.Token → Bool) → TellsEnd L.piece L.token_at L.end is_end
            → Ends is_end (tokens_of L.piece L.token_at L.end text.now) }
    {
        Scanner::new_at(text, Place { line: 1, column: 1 })
    }

    /// A scanner at the first token of a text that begins at a place, as one behind a prelude does.
    pub fn new_at(text: &'a [u8], place: Place) -> Self
        requires lines { place.line + length text.now < 2 ^ 32 }
        requires columns { place.column + length text.now < 2 ^ 32 }
        ensures tokens { ⟦<Scanner<'a, L> as Source<L::Token>>⟧.left result ≡ tokens_from L.piece L.token_at L.end 0 place text.now }
        ensures ended { (is_end : L.Token → Bool) → TellsEnd L.piece L.token_at L.end is_end
            → Ends is_end (tokens_from L.piece L.token_at L.end 0 place text.now) }
    {
        Scanner {
            left: text,
            place,
            is_ended: false,
            lexer: PhantomData,
        }
    }
}

impl<'a, L: Lexer> Source<L::Token> for Scanner<'a, L> {
    ghost left = { λ s. tokens_left L.piece L.token_at L.end s.is_ended s.place s.left.now };

    fn next(&mut self) -> Option<L::Token> {
        if self.is_ended {
            return None;
        }
        let mut left = self.left;
        let mut place = self.place;
        while !left.is_empty() {
            let here = place;
            let Piece { len, lexeme } = L::front(left);
            (left, place) = passed(left, here, len);
            if let Some(lexeme) = lexeme {
                *self = Scanner {
                    left,
                    place,
                    is_ended: false,
                    lexer: PhantomData,
                };
                return Some(L::token(here, lexeme));
            }
        }
        *self = Scanner {
            left,
            place,
            is_ended: true,
            lexer: PhantomData,
        };
        Some(L::token(place, L::end_lexeme()))
    }
}

/// What is left of a text behind its first `count` bytes, and where that begins.
fn passed(text: &[u8], place: Place, count: usize) -> (&[u8], Place)
    requires within { count ≤ length text.now }
    requires lines { place.line + length text.now < 2 ^ 32 }
    requires columns { place.column + length text.now < 2 ^ 32 }
    ensures left { result.0.now ≡ drop count text.now }
    ensures place { result.1 ≡ fold places.after place (take count text.now) }
    ensures lines { result.1.line + length result.0.now < 2 ^ 32 }
    ensures columns { result.1.column + length result.0.now < 2 ^ 32 }
{
    let mut here = place;
    for byte in &text[..count] {
        here = after(here, *byte);
    }
    (&text[count..], here)
}

/// The place behind a byte.
fn after(place: Place, byte: u8) -> Place
    requires lines { place.line + 1 < 2 ^ 32 }
    requires columns { place.column + 1 < 2 ^ 32 }
    ensures { result ≡ places.after place byte }
{
    if byte == b'\n' {
        Place {
            line: place.line + 1,
            column: 1,
        }
    } else {
        Place {
            line: place.line,
            column: place.column + 1,
        }
    }
}
