//! Ints whose count stays.

ghost use Rattle.std.specs.Prelude.{◌≡◌, IfOk, replicate, take, pos, slice_set, slice_index_or};
ghost use Rattle.hc_cprim.specs.Worth.{loaded};

use std::alloc::{AllocError, Global};
use std::marker::Model;

/// Ints whose count stays, such as the values of a body's locals.
#[derive(Drop)]
pub struct Numbers {
    numbers: Vec<i64>,
}

impl Model for Numbers {
    ghost use Rattle.std.specs.Prelude.{ℤ, List};

    ghost Value = { List ℤ };

    ghost view = { λ n. n.numbers.items };
}

impl Numbers {
    /// So many zeros.
    pub fn zeros(alloc: Global, count: usize) -> Result<Numbers, AllocError>
        ensures { IfOk result (λ n. n ≡ replicate count (pos 0)) }
    {
        let numbers = vec![in alloc; 0; count]?;
        Ok(Numbers { numbers })
    }

    /// The int at a place, and 0 where there is none.
    pub fn at(&self, place: usize) -> i64
        ensures { result ≡ slice_index_or self.now place (pos 0) }
    {
        match self.numbers.get(place) {
            Some(number) => *number,
            None => 0,
        }
    }

    /// The int at a place becomes a value; where there is none, nothing changes.
    pub fn set(&mut self, place: usize, value: i64)
        ensures { self.new ≡ slice_set self.old place value }
    {
        if place < self.numbers.len() {
            self.numbers[place] = value;
        }
    }

    /// All of them.
    pub fn as_slice(&self) -> &[i64]
        ensures { result.now ≡ self.now }
    {
        self.numbers.as_slice()
    }

    /// The first so many, or all where there are fewer.
    pub fn first(&self, count: usize) -> &[i64]
        ensures { result.now ≡ take count self.now }
    {
        let numbers = self.numbers.as_slice();
        match numbers.get(..count) {
            Some(first) => first,
            None => numbers,
        }
    }

    /// The first `count` of `from` come to stand in front, as far as there are as many and there is room, and zeros behind
    /// them.
    pub fn load(&mut self, from: &[i64], count: usize)
        ensures { self.new ≡ loaded self.old count from.now }
    {
        let count = count.min(from.len()).min(self.numbers.len());
        let (front, back) = self.numbers.as_mut_slice().split_at_mut(count);
        front.copy_from_slice(&from[..count]);
        back.fill(0);
    }
}
