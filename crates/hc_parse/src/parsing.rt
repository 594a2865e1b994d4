//! Parsing.

ghost use Rattle.std.specs.Prelude.{◌≡◌, ◌≤◌, length};
ghost use Rattle.hc_limits.specs.Limits.{most_source_bytes};
ghost use Rattle.hc_parse.specs.Stops as spec;

use crate::text::SourceText;
use hc_ast::{Flaw, Tree};
use hc_frac::Place;
use hc_grammar::{Stop, read};
use hc_token::Scanner;
use std::alloc::Global;

/// Why there is no tree.
#[derive(Clone, Copy, Debug, PartialEq, Eq)]
pub enum ParseStop {
    /// The word at this place has more than 64 bytes.
    NameTooLong { place: Place },
    /// The number at this place is above 2^63 - 1 without its point, or has more than 18 places.
    NumberUnfit { place: Place },
    /// No source has the tokens up to and with the one at this place.
    Syntax { place: Place },
    /// The token at this place opens the 65th open item.
    TooDeep { place: Place },
    /// The token at this place is the 201st node of its outermost expression or condition.
    TooManyNodes { place: Place },
    /// Memory ran out.
    Memory,
}

/// What parsing stops with where reading stops with this.
fn stop_of(stop: Stop<Flaw>) -> ParseStop
    ensures { result ≡ spec.stop_of stop }
{
    match stop {
        Stop::Refused { flaw, place } => match flaw {
            Flaw::NameTooLong => ParseStop::NameTooLong { place },
            Flaw::NumberUnfit => ParseStop::NumberUnfit { place },
            Flaw::Syntax => ParseStop::Syntax { place },
            Flaw::TooDeep => ParseStop::TooDeep { place },
            Flaw::TooManyNodes => ParseStop::TooManyNodes { place },
        },
        Stop::Memory => ParseStop::Memory,
    }
}

/// The tree of a text, or the first place at which the text is no source, and why.
pub fn parse(alloc: Global, bytes: &[u8]) -> Result<Tree, ParseStop>
    requires { length bytes.now ≤ most_source_bytes }
    ensures { spec.IsExact bytes.now result }
{
    let mut tokens = Scanner::new(bytes);
    match read(alloc, SourceText::new(alloc), &mut tokens) {
        Ok(text) => Ok(text.values.tree()),
        Err(stop) => Err(stop_of(stop)),
    }
}
