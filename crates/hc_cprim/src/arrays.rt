//! The elements of the arrays.

ghost use Rattle.std.specs.Prelude.{◌≡◌, [], IfOk, map, pos, slice_set, slice_index_or};
ghost use Rattle.hc_cmach.specs.State.{zeros};

use crate::numbers::Numbers;
use hc_cast::{CArray, CProgram};
use std::alloc::{AllocError, Global};
use std::marker::Model;

/// The elements of all arrays, by the order of the program.
#[derive(Drop)]
pub struct Arrays {
    rows: Vec<Numbers>,
}

impl Model for Arrays {
    ghost use Rattle.std.specs.Prelude.{ℤ, List};

    ghost Value = { List (List ℤ) };

    ghost view = { λ a. a.rows.items };
}

/// The elements of arrays at the start.
#[tactic(auto, unfolding(hc_cmach::specs::State::zeros))]
fn rows_of(alloc: Global, arrays: &[CArray]) -> Result<Vec<Numbers>, AllocError>
    ensures { IfOk result (λ rows. rows.items ≡ map (λ x. zeros x.length) arrays.now) }
{
    let mut rows = Vec::new(alloc);
    for array in arrays {
        rows.push(Numbers::zeros(alloc, array.length as usize)?)?;
    }
    Ok(rows)
}

impl Arrays {
    /// The arrays of a program at the start, where each element is 0.
    pub fn open(alloc: Global, program: &CProgram) -> Result<Arrays, AllocError>
        ensures { IfOk result (λ a. a ≡ map (λ x. zeros x.length) program.now.arrays) }
    {
        let rows = rows_of(alloc, program.arrays.as_slice())?;
        Ok(Arrays { rows })
    }

    /// An element, and 0 where there is none.
    pub(crate) fn at(&self, array: usize, index: usize) -> i64
        ensures { result ≡ slice_index_or (slice_index_or self.now array []) index (pos 0) }
    {
        match self.rows.get(array) {
            Some(row) => row.at(index),
            None => 0,
        }
    }

    /// An element becomes a value; where there is none, nothing changes.
    pub fn set(&mut self, array: usize, index: usize, value: i64)
        ensures { self.new ≡ slice_set self.old array (slice_set (slice_index_or self.old array []) index value) }
    {
        if array < self.rows.len() {
            self.rows[array].set(index, value);
        }
    }
}
