//! What a text begins with.

ghost use Rattle.std.specs.Prelude.{◌≡◌, ◌<◌, ◌≤◌, length, take_while, true};
ghost use Rattle.std.specs.Char.{is_ascii_digit};
ghost use Rattle.std.specs.List.{list_all, prefix_len};
ghost use Rattle.hc_frac.specs.Word.{word_byte};
ghost use Rattle.hc_ctoken.specs.Kinds.{sign};
ghost use Rattle.hc_ctoken.specs.Pieces as spec;

use crate::fixed::sign;
use crate::number::number;
use crate::quoted::string_piece;
use crate::token::Lexeme;
use crate::word::word;
use hc_scan::Piece;

/// The piece at the front of a text: a token, or a blank, which is none.
#[tactic(auto, unfolding(crate::specs::Pieces::piece))]
pub(crate) fn front_piece(text: &[u8]) -> Piece<Lexeme>
    requires { 0 < length text.now }
    ensures piece { result ≡ spec.piece text.now }
    ensures within { (1 ≤ result.len) × (result.len ≤ length text.now) }
{
    let first = text[0];
    match first {
        b' ' | b'\t' | b'\r' | b'\n' => Piece {
            len: 1,
            lexeme: None,
        },
        _ if first.is_ascii_alphabetic() => {
            let bytes = word_bytes(text);
            Piece {
                len: bytes.len(),
                lexeme: Some(word(bytes)),
            }
        }
        _ if first.is_ascii_digit() => {
            let digits = digits(text);
            Piece {
                len: digits.len(),
                lexeme: Some(number(digits)),
            }
        }
        b'"' => string_piece(&text[1..]),
        _ => sign_piece(text),
    }
}

/// The sign at the front of a text, or one byte that begins no token.
fn sign_piece(text: &[u8]) -> Piece<Lexeme>
    requires { 0 < length text.now }
    ensures piece { result ≡ spec.sign_piece (sign text.now) }
    ensures within { (1 ≤ result.len) × (result.len ≤ length text.now) }
{
    match sign(text) {
        Some((fixed, len)) => Piece {
            len,
            lexeme: Some(Lexeme::Fixed(fixed)),
        },
        None => Piece {
            len: 1,
            lexeme: Some(Lexeme::Other),
        },
    }
}

/// The letters, digits and underlines at the front of a text.
#[tactic(auto, using(crate::proofs::Fronts::all_of_run))]
pub(crate) fn word_bytes(text: &[u8]) -> &[u8]
    ensures value { result.now ≡ take_while word_byte text.now }
    ensures all { list_all word_byte result.now ≡ true }
    ensures len { length result.now ≡ prefix_len word_byte text.now }
    ensures within { length result.now ≤ length text.now }
{
    &text[..word_len(text)]
}

#[tactic(auto, using(crate::proofs::Fronts::run_within))]
fn word_len(text: &[u8]) -> usize
    ensures value { result ≡ prefix_len word_byte text.now }
    ensures within { result ≤ length text.now }
{
    text.iter()
        .take_while(|byte| byte.is_ascii_alphanumeric() || **byte == b'_')
        .count()
}

/// The digits at the front of a text.
#[tactic(auto, using(crate::proofs::Fronts::all_of_run))]
fn digits(text: &[u8]) -> &[u8]
    ensures value { result.now ≡ take_while is_ascii_digit text.now }
    ensures all { list_all is_ascii_digit result.now ≡ true }
    ensures len { length result.now ≡ prefix_len is_ascii_digit text.now }
    ensures within { length result.now ≤ length text.now }
{
    &text[..digit_count(text)]
}

#[tactic(auto, using(crate::proofs::Fronts::run_within))]
fn digit_count(text: &[u8]) -> usize
    ensures value { result ≡ prefix_len is_ascii_digit text.now }
    ensures within { result ≤ length text.now }
{
    text.iter().take_while(|byte| byte.is_ascii_digit()).count()
}
