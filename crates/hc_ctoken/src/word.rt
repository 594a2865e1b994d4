//! Words.

ghost use Rattle.std.specs.Prelude.{◌≡◌, length, IsTrue, slice_index};
ghost use Rattle.std.specs.List.{list_all};
ghost use Rattle.std.specs.Char.{is_ascii_alphabetic, is_ascii_digit};
ghost use Rattle.hc_frac.specs.Word.{IsWord, word_byte};
ghost use Rattle.hc_ctoken.specs.Words as spec;

use crate::fixed::keyword;
use crate::number::{is_padded, value};
use crate::token::Lexeme;
use hc_cast::Primitive;
use hc_frac::Name;
use hc_limits::MOST_WORD_BYTES;

/// What a word is, and what it says.
#[tactic(auto, unfolding(crate::specs::Words::word))]
pub(crate) fn word(word: &[u8]) -> Lexeme
    requires letter_first { IsTrue (is_ascii_alphabetic (slice_index word.now 0)) }
    requires all { IsTrue (list_all word_byte word.now) }
    ensures { result ≡ spec.word word.now }
{
    if word.len() > MOST_WORD_BYTES {
        return Lexeme::LongWord;
    }
    if let Some(fixed) = keyword(word) {
        return Lexeme::Fixed(fixed);
    }
    match Primitive::named(word) {
        Some(primitive) => Lexeme::Primitive(primitive),
        None => named(word),
    }
}

/// A word that is no keyword and no primitive, by its first letters.
fn named(word: &[u8]) -> Lexeme
    requires { IsWord word.now }
    ensures { result ≡ spec.named word.now }
{
    if word.starts_with(b"a_") {
        Lexeme::Array(name(word))
    } else if word.starts_with(b"f_") {
        Lexeme::Function(name(word))
    } else if word.starts_with(b"v_") {
        Lexeme::Local(name(word))
    } else {
        thread(word)
    }
}

fn name(word: &[u8]) -> Name
    requires { IsWord word.now }
    ensures { result ≡ word.now }
{
    match Name::new(word) {
        Some(name) => name,
        None => unreachable!(),
    }
}

/// `t` and a number is a thread.
fn thread(word: &[u8]) -> Lexeme
    ensures { result ≡ spec.thread word.now }
{
    match word {
        [b't', digits @ ..] if is_numeral(digits) => Lexeme::Thread(value(digits)),
        _ => Lexeme::Other,
    }
}

/// Whether these are a number without a leading zero, and nothing else.
fn is_numeral(digits: &[u8]) -> bool
    ensures { result ≡ spec.is_numeral digits.now }
{
    !digits.is_empty() && are_digits(digits) && !is_padded(digits)
}

fn are_digits(bytes: &[u8]) -> bool
    ensures { result ≡ list_all is_ascii_digit bytes.now }
{
    bytes.iter().all(|byte| byte.is_ascii_digit())
}
