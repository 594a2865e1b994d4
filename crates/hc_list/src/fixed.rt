ghost use Rattle.std.specs.Prelude.{◌≡◌, ◌<◌, ◌≤◌, [], ◌∷◌, ◌++◌, length, slice_set};

use arrayvec::ArrayVec;
use std::marker::Model;

/// A list with room for `ROOM` elements in the value itself, so that it is kept and replaced without memory.
#[derive(Drop)]
pub struct FixedList<T, const ROOM: usize> {
    items: ArrayVec<T, ROOM>,
}

impl<T, const ROOM: usize> Model for FixedList<T, ROOM> {
    ghost use Rattle.std.specs.Prelude.{List};
    ghost use Rattle.std.specs.Coded.{coded_list};

    ghost Value = { List T };

    ghost coded = { coded_list T.code };

    ghost view = { λ l. l.items.items };
}

impl<T: Default, const ROOM: usize> FixedList<T, ROOM> {
    /// A list without elements.
    pub fn new() -> Self
        ensures { result ≡ [] }
    {
        FixedList {
            items: ArrayVec::new(),
        }
    }
}

impl<T, const ROOM: usize> FixedList<T, ROOM> {
    /// The elements, of which there are at most `ROOM`.
    pub fn as_slice(&self) -> &[T]
        ensures elements { result.now ≡ self.now }
        ensures within { length self.now ≤ ROOM }
    {
        self.items.as_slice()
    }
}

impl<T: Drop, const ROOM: usize> FixedList<T, ROOM> {
    /// Puts an element in the place of the one at `index`, which must be there.
    pub fn set(&mut self, index: usize, element: T)
        requires { index < length self.old }
        ensures { self.new ≡ slice_set self.old index element }
    {
        self.items.as_mut_slice()[index] = element;
    }

    /// Appends an element. There must be room.
    pub fn push(&mut self, element: T)
        requires { length self.old < ROOM }
        ensures { self.new ≡ self.old ++ element ∷ [] }
    {
        self.items.push(element);
    }
}

impl<T: Default + Drop, const ROOM: usize> FixedList<T, ROOM> {
    /// Drops all elements.
    pub fn clear(&mut self)
        ensures { self.new ≡ [] }
    {
        self.items.clear();
    }
}
