//! Lists of parts of a tree, copied and compared part by part. Statements and branches, which hold such lists of their
//! own kind, have loops of their own in the cycle of their functions.

ghost use Rattle.std.specs.Prelude.{◌≡◌, ◌↔◌, IsTrue, IfOk, map};

use hc_list::List;
use std::alloc::{AllocError, Global};

/// A part of a tree of which there can be an equal one.
pub(crate) trait Copied: Sized + Drop {
    /// An equal part.
    fn copied(&self, alloc: Global) -> Result<Self, AllocError>
        ensures { IfOk result (λ t. t ≡ self.now) };
}

/// Equal parts, in their order.
pub(crate) fn copies<T: Copied>(alloc: Global, parts: &[T]) -> Result<List<T>, AllocError>
    ensures { IfOk result (λ found. found ≡ parts.now) }
{
    let mut found = List::new(alloc);
    for part in parts {
        found.push(part.copied(alloc)?)?;
    }
    Ok(found)
}

/// A part of a tree that is compared with another one in all but places.
pub(crate) trait Alike {
    ghost Bare: { Type 0 };

    ghost bare: { Self → Bare };

    /// Whether two parts are equal in all but places.
    fn is_like(&self, other: &Self) -> bool
        ensures { IsTrue result ↔ (bare self.now ≡ bare other.now) };
}

/// Whether two lists of parts are equal in all but places.
pub(crate) fn all_alike<T: Alike>(left: &[T], right: &[T]) -> bool
    ensures { IsTrue result ↔ (map T.bare left.now ≡ map T.bare right.now) }
{
    if left.len() != right.len() {
        return false;
    }
    for (at, part) in left.iter().enumerate() {
        if !part.is_like(&right[at]) {
            return false;
        }
    }
    true
}
