//! Which token a wanted kind takes.

ghost use Rattle.std.specs.Prelude.{◌≡◌};
ghost use Rattle.hc_ctable.specs.Table as spec;

use hc_ctoken::{Fixed, Kind};

/// Whether the first kind, which is wanted, takes a token of the second: the same kind, or one of the two that `AnyNumber` and
/// `AnyLocal` stand for.
pub fn takes(wanted: Kind, kind: Kind) -> bool
    ensures { result ≡ spec.same wanted kind }
{
    match (wanted, kind) {
        (Kind::Fixed(wanted), Kind::Fixed(one)) => same_fixed(wanted, one),
        (Kind::AnyNumber, Kind::Number | Kind::Zero)
        | (Kind::AnyLocal, Kind::Local | Kind::Unused)
        | (Kind::Array, Kind::Array)
        | (Kind::Function, Kind::Function)
        | (Kind::Local, Kind::Local)
        | (Kind::Unused, Kind::Unused)
        | (Kind::Thread, Kind::Thread)
        | (Kind::Primitive, Kind::Primitive)
        | (Kind::Number, Kind::Number)
        | (Kind::Zero, Kind::Zero)
        | (Kind::Text, Kind::Text)
        | (Kind::End, Kind::End)
        | (Kind::LongWord, Kind::LongWord)
        | (Kind::LargeNumber, Kind::LargeNumber)
        | (Kind::Padded, Kind::Padded)
        | (Kind::Other, Kind::Other) => true,
        _ => false,
    }
}

fn same_fixed(wanted: Fixed, one: Fixed) -> bool
    ensures { result ≡ spec.same (Kind.Fixed wanted) (Kind.Fixed one) }
{
    wanted == one
}
