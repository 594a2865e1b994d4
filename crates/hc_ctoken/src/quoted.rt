//! Strings.

ghost use Rattle.std.specs.Prelude.{◌≡◌, ◌≤◌, ◌+◌, length, take_while, IsTrue, slice_index};
ghost use Rattle.std.specs.Char.{is_ascii_alphabetic};
ghost use Rattle.std.specs.List.{list_all};
ghost use Rattle.hc_frac.specs.Word.{word_byte};
ghost use Rattle.hc_token.specs.Words as source_words;
ghost use Rattle.hc_ctoken.specs.Strings as spec;

use crate::piece::word_bytes;
use crate::token::Lexeme;
use hc_grammar::Source;
use hc_limits::MOST_WORD_BYTES;
use hc_scan::Piece;
use hc_token::{Lexeme as SourceLexeme, Scanner as SourceScanner};

/// The string that begins with a quote in front of a text, or that quote alone, which begins no token.
pub(crate) fn string_piece(text: &[u8]) -> Piece<Lexeme>
    ensures piece { result ≡ spec.string_piece text.now }
    ensures within { (1 ≤ result.len) × (result.len ≤ length text.now + 1) }
{
    let word = word_bytes(text);
    if is_word_or_none(word) && in_quote(&text[word.len()..]) {
        Piece {
            len: 2 + word.len(),
            lexeme: Some(quoted(word)),
        }
    } else {
        Piece {
            len: 1,
            lexeme: Some(Lexeme::Other),
        }
    }
}

fn is_word_or_none(bytes: &[u8]) -> bool
    ensures { result ≡ spec.is_word_or_none bytes.now }
{
    match bytes {
        [] => true,
        [first, ..] => first.is_ascii_alphabetic(),
    }
}

fn in_quote(text: &[u8]) -> bool
    ensures value { result ≡ spec.in_quote text.now }
    ensures within { IsTrue result → 1 ≤ length text.now }
{
    match text {
        [b'"', ..] => true,
        _ => false,
    }
}

/// What stands between two quotes.
fn quoted(word: &[u8]) -> Lexeme
    requires word { IsTrue (spec.is_word_or_none word.now) }
    requires all { IsTrue (list_all word_byte word.now) }
    ensures { result ≡ spec.quoted word.now }
{
    if word.is_empty() {
        return Lexeme::EmptyText;
    }
    if word.len() > MOST_WORD_BYTES {
        return Lexeme::LongWord;
    }
    match source_word(word) {
        SourceLexeme::Name(name) => Lexeme::Text(name),
        SourceLexeme::LongWord => Lexeme::LongWord,
        _ => Lexeme::Other,
    }
}

/// What a word is in the source language.
fn source_word(word: &[u8]) -> SourceLexeme
    requires letter_first { IsTrue (is_ascii_alphabetic (slice_index word.now 0)) }
    requires all { IsTrue (list_all word_byte word.now) }
    requires short { length word.now ≤ 64 }
    ensures { result ≡ source_words.word word.now }
{
    match SourceScanner::new(word).next() {
        Some(token) => token.lexeme,
        None => unreachable!(),
    }
}
