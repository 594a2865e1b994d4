//! Which token a wanted kind takes.

ghost use Rattle.std.specs.Prelude.{◌≡◌};
ghost use Rattle.hc_table.specs.Table as spec;

use hc_token::{Fixed, Kind};

/// Whether the first kind, which is wanted, takes a token of the second: it does where they are the same.
pub fn takes(wanted: Kind, kind: Kind) -> bool
    ensures { result ≡ spec.same wanted kind }
{
    match (wanted, kind) {
        (Kind::Fixed(wanted), Kind::Fixed(one)) => same_fixed(wanted, one),
        (Kind::Name, Kind::Name)
        | (Kind::Rate, Kind::Rate)
        | (Kind::Number, Kind::Number)
        | (Kind::End, Kind::End)
        | (Kind::LongWord, Kind::LongWord)
        | (Kind::LargeNumber, Kind::LargeNumber)
        | (Kind::Other, Kind::Other) => true,
        _ => false,
    }
}

fn same_fixed(wanted: Fixed, one: Fixed) -> bool
    ensures { result ≡ spec.same (Kind.Fixed wanted) (Kind.Fixed one) }
{
    wanted == one
}
