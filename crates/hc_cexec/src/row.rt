//! Rows of registers.

ghost use Rattle.std.specs.Prelude.{◌≡◌, slice_set, slice_index_or, replicate, IfOk};
ghost use Rattle.hc_rational.specs.Words.{zero_ℚ};
ghost use Rattle.hc_cmach.specs.State.{empty_row};

use hc_frac::Frac;
use std::alloc::{AllocError, Global};
use std::marker::Model;

/// How many registers a row has.
const WIDTH: usize = 20480;

/// The registers of a row.
#[derive(Drop)]
pub(crate) struct Row {
    registers: Vec<Frac>,
}

impl Model for Row {
    ghost use Rattle.std.specs.Prelude.{List};
    ghost use Rattle.hc_rational.specs.Words.{Rational};

    ghost Value = { List Rational };

    ghost view = { λ r. r.registers.items };
}

impl Row {
    /// So many registers at 0.
    fn of(alloc: Global, count: usize) -> Result<Row, AllocError>
        ensures { IfOk result (λ r. r ≡ replicate count zero_ℚ) }
    {
        let registers = vec![in alloc; Frac::zero(); count]?;
        Ok(Row { registers })
    }

    /// A row at the start.
    pub(crate) fn zeros(alloc: Global) -> Result<Row, AllocError>
        ensures { IfOk result (λ r. r ≡ empty_row) }
    {
        Row::of(alloc, WIDTH)
    }

    /// A register, and 0 where there is none.
    pub(crate) fn at(&self, register: usize) -> Frac
        ensures { result ≡ slice_index_or self.now register zero_ℚ }
    {
        match self.registers.get(register) {
            Some(value) => *value,
            None => Frac::zero(),
        }
    }

    /// A register becomes a value.
    pub(crate) fn set(&mut self, register: usize, value: Frac)
        ensures { self.new ≡ slice_set self.old register value }
    {
        if register < self.registers.len() {
            self.registers[register] = value;
        }
    }

    pub(crate) fn as_slice(&self) -> &[Frac]
        ensures { result.now ≡ self.now }
    {
        self.registers.as_slice()
    }
}
