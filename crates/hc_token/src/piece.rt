//! What a text begins with.

ghost use Rattle.std.specs.Prelude.{◌≡◌, ◌<◌, ◌≤◌, length};
ghost use Rattle.std.specs.List.{prefix_len};
ghost use Rattle.hc_frac.specs.Word.{word_byte};
ghost use Rattle.hc_token.specs.Kinds.{sign};
ghost use Rattle.hc_token.specs.Pieces as spec;

use crate::fixed::sign;
use crate::number::number;
use crate::token::Lexeme;
use crate::word::word;
use hc_scan::Piece;

/// The piece at the front of a text: a token, or a blank or a comment, which are none.
#[tactic(auto, using(crate::proofs::Runs::all_of_run), unfolding(crate::specs::Pieces::piece))]
pub(crate) fn front_piece(text: &[u8]) -> Piece<Lexeme>
    requires { 0 < length text.now }
    ensures piece { result ≡ spec.piece text.now }
    ensures within { (1 ≤ result.len) × (result.len ≤ length text.now) }
{
    let first = text[0];
    match first {
        b' ' | b'\t' | b'\r' | b'\n' => Piece {
            len: 1,
            lexeme: None,
        },
        b'#' => Piece {
            len: 1 + comment_len(&text[1..]),
            lexeme: None,
        },
        _ if first.is_ascii_alphabetic() => {
            let len = word_len(text);
            Piece {
                len,
                lexeme: Some(word(&text[..len])),
            }
        }
        _ if first.is_ascii_digit() => {
            let (number, len) = number(text);
            Piece {
                len,
                lexeme: Some(number),
            }
        }
        _ => sign_piece(text),
    }
}

/// The sign at the front of a text, or one byte that begins no token.
fn sign_piece(text: &[u8]) -> Piece<Lexeme>
    requires { 0 < length text.now }
    ensures piece { result ≡ spec.sign_piece (sign text.now) }
    ensures within { (1 ≤ result.len) × (result.len ≤ length text.now) }
{
    match sign(text) {
        Some((fixed, len)) => Piece {
            len,
            lexeme: Some(Lexeme::Fixed(fixed)),
        },
        None => Piece {
            len: 1,
            lexeme: Some(Lexeme::Other),
        },
    }
}

#[tactic(auto, using(crate::proofs::Runs::run_within))]
fn comment_len(text: &[u8]) -> usize
    ensures value { result ≡ prefix_len spec.in_comment text.now }
    ensures within { result ≤ length text.now }
{
    text.iter().take_while(|byte| **byte != b'\n').count()
}

#[tactic(auto, using(crate::proofs::Runs::run_within))]
fn word_len(text: &[u8]) -> usize
    ensures value { result ≡ prefix_len word_byte text.now }
    ensures within { result ≤ length text.now }
{
    text.iter()
        .take_while(|byte| byte.is_ascii_alphanumeric() || **byte == b'_')
        .count()
}
