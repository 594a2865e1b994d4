//! Words.

ghost use Rattle.std.specs.Prelude.{◌≡◌, length, IsTrue, slice_index};
ghost use Rattle.std.specs.List.{list_all};
ghost use Rattle.std.specs.Char.{is_ascii_alphabetic};
ghost use Rattle.hc_frac.specs.Word.{IsWord, word_byte};
ghost use Rattle.hc_token.specs.Words as spec;

use crate::fixed::keyword;
use crate::token::Lexeme;
use hc_frac::Name;
use hc_limits::MOST_WORD_BYTES;

const RATE_ENDING: &[u8; 4] = b"_dot";

/// What a word is, and what it says.
#[tactic(auto, unfolding(crate::specs::Words::word))]
pub(crate) fn word(word: &[u8]) -> Lexeme
    requires letter_first { IsTrue (is_ascii_alphabetic (slice_index word.now 0)) }
    requires all { IsTrue (list_all word_byte word.now) }
    ensures { result ≡ spec.word word.now }
{
    if word.len() > MOST_WORD_BYTES {
        return Lexeme::LongWord;
    }
    if let Some(fixed) = keyword(word) {
        return Lexeme::Fixed(fixed);
    }
    if !word.ends_with(RATE_ENDING) {
        return Lexeme::Name(named(word));
    }
    let front = &word[..word.len() - RATE_ENDING.len()];
    if is_name(front) {
        Lexeme::Rate(named(front))
    } else {
        Lexeme::Other
    }
}

#[tactic(auto, unfolding(crate::specs::Words::is_name))]
fn is_name(word: &[u8]) -> bool
    ensures { result ≡ spec.is_name word.now }
{
    keyword(word).is_none() && !word.ends_with(RATE_ENDING)
}

fn named(name: &[u8]) -> Name
    requires { IsWord name.now }
    ensures { result ≡ name.now }
{
    match Name::new(name) {
        Some(name) => name,
        None => unreachable!(),
    }
}
