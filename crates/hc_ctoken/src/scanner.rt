//! The scanner.

ghost use Rattle.std.specs.Prelude.{◌≡◌, ◌+◌, ◌<◌, ◌^◌, length};
ghost use Rattle.hc_grammar.specs.Ends.{Ends};
ghost use Rattle.hc_ctoken.specs.Pieces.{piece};
ghost use Rattle.hc_ctoken.specs.Tokens as spec;
ghost use Rattle.hc_ctoken.specs.declared.token.Lexeme.TheVariants as lex;

use crate::piece::front_piece;
use crate::token::{Lexeme, Token};
use hc_frac::Place;
use hc_grammar::Source;
use hc_scan::{Lexer, Piece};
use std::marker::Model;

/// How a unit is cut into tokens.
#[derive(Drop)]
pub(crate) struct UnitLexer;

impl Lexer for UnitLexer {
    type Lexeme = Lexeme;

    type Token = Token;

    ghost piece = { piece };

    ghost token_at = { spec.token_at };

    ghost end = { lex.End };

    fn front(text: &[u8]) -> Piece<Lexeme> {
        front_piece(text)
    }

    fn token(place: Place, lexeme: Lexeme) -> Token {
        Token { place, lexeme }
    }

    fn end_lexeme() -> Lexeme {
        Lexeme::End
    }
}

/// The tokens of a unit, one by one. The last is `Lexeme::End`, and no other is. It takes no memory.
#[derive(Drop)]
pub struct Scanner<'a> {
    tokens: hc_scan::Scanner<'a, UnitLexer>,
}

impl<'a> Model for Scanner<'a> {
    ghost use Rattle.std.specs.Prelude.{List};
    ghost use Rattle.hc_ctoken.specs.declared.token.Token.{Token as Said};

    ghost Value = { List Said };

    ghost view = { λ s. ⟦<hc_scan::Scanner<'static, UnitLexer> as Source<Token>>⟧.left s.tokens };
}

impl<'a> Scanner<'a> {
    /// A scanner at the first token of a unit that begins at a place, behind a prelude.
    pub fn new_at(text: &'a [u8], place: Place) -> Self
        requires lines { place.line + length text.now < 2 ^ 32 }
        requires columns { place.column + length text.now < 2 ^ 32 }
        ensures tokens { result ≡ spec.tokens_from place text.now }
        ensures ended { Ends spec.is_end (spec.tokens_from place text.now) }
    {
        Scanner {
            tokens: hc_scan::Scanner::new_at(text, place),
        }
    }
}

impl<'a> Source<Token> for Scanner<'a> {
    ghost left = { λ tokens. tokens };

    fn next(&mut self) -> Option<Token> {
        self.tokens.next()
    }
}
