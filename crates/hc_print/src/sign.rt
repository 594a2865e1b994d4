//! What stands behind keywords and signs.

ghost use Rattle.std.specs.Prelude.{◌≡◌};
ghost use Rattle.hc_print.specs.Written.{blank_behind};

use hc_token::Fixed;

/// The byte that stands behind a keyword or a sign: a newline or a space.
pub(crate) fn blank(sign: Fixed) -> u8
    ensures { result ≡ blank_behind sign }
{
    match sign {
        Fixed::Begin
        | Fixed::Semicolon
        | Fixed::EndBody
        | Fixed::EndModule
        | Fixed::System
        | Fixed::EndSystem => b'\n',
        _ => b' ',
    }
}
