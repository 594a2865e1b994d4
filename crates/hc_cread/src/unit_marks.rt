//! What happens between tokens: arrays, functions and threads begin and end.

ghost use Rattle.std.specs.Prelude.{◌≡◌, OnOk};
ghost use Rattle.hc_cgrammar.specs.UnitTrees.{length_of};
ghost use Rattle.hc_cread.specs.Builder as spec;

use crate::values::Values;
use hc_cast::{CArray, CBody, CFunction};
use hc_cgrammar::Mark;
use hc_list::List;
use std::alloc::{AllocError, Global};

/// A length; one that 32 bits don't hold is said as the greatest that they hold.
fn length_of(number: i64) -> u32
    ensures { result ≡ length_of number }
{
    let length = number.unsigned_abs();
    if length > u64::from(u32::MAX) {
        u32::MAX
    } else {
        length as u32
    }
}

impl Values {
    /// An array ends.
    pub(crate) fn array(&mut self) -> Result<(), AllocError>
        ensures { OnOk result (self.new ≡ spec.at_mark Mark.Array self.old) }
    {
        let Some(number) = self.numbers.pop() else {
            return Ok(());
        };
        let Some(name) = self.names.pop() else {
            return Ok(());
        };
        self.arrays.push(CArray {
            name,
            length: length_of(number),
        })
    }

    /// The parameters of a function begin.
    pub(crate) fn parameters(&mut self, alloc: Global) -> Result<(), AllocError>
        ensures { OnOk result (self.new ≡ spec.at_mark Mark.Parameters self.old) }
    {
        self.lists.push(List::new(alloc))
    }

    /// The locals of a body begin.
    pub(crate) fn locals(&mut self, alloc: Global) -> Result<(), AllocError>
        ensures { OnOk result (self.new ≡ spec.at_mark Mark.Locals self.old) }
    {
        self.lists.push(List::new(alloc))
    }

    /// A function ends.
    pub(crate) fn end_function(&mut self) -> Result<(), AllocError>
        ensures { OnOk result (self.new ≡ spec.at_mark Mark.Function self.old) }
    {
        let Some(statements) = self.bodies.pop() else {
            return Ok(());
        };
        let Some(locals) = self.lists.pop() else {
            return Ok(());
        };
        let Some(params) = self.lists.pop() else {
            return Ok(());
        };
        let Some(gives) = self.gives.pop() else {
            return Ok(());
        };
        let Some(name) = self.names.pop() else {
            return Ok(());
        };
        self.functions.push(CFunction {
            name,
            gives,
            params,
            body: CBody { locals, statements },
        })
    }

    /// A thread ends.
    pub(crate) fn thread(&mut self) -> Result<(), AllocError>
        ensures { OnOk result (self.new ≡ spec.at_mark Mark.Thread self.old) }
    {
        let Some(statements) = self.bodies.pop() else {
            return Ok(());
        };
        let Some(locals) = self.lists.pop() else {
            return Ok(());
        };
        self.threads.push(CBody { locals, statements })
    }
}
