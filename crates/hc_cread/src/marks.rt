//! What happens between tokens.

ghost use Rattle.std.specs.Prelude.{◌≡◌, OnOk};
ghost use Rattle.hc_cread.specs.Builder as spec;

use crate::values::Values;
use hc_cgrammar::Mark;
use std::alloc::{AllocError, Global};

impl Values {
    /// A mark.
    pub(crate) fn mark(&mut self, alloc: Global, mark: Mark) -> Result<(), AllocError>
        ensures { OnOk result (self.new ≡ spec.at_mark mark self.old) }
    {
        match mark {
            Mark::Fresh => Ok(()),
            Mark::Negate => self.negate(alloc),
            Mark::Not => self.not(alloc),
            Mark::Element => self.element(alloc),
            Mark::Binary => self.binary(alloc),
            Mark::Array => self.array(),
            Mark::Parameters => self.parameters(alloc),
            Mark::Locals => self.locals(alloc),
            Mark::Statements => self.statements(alloc),
            Mark::Function => self.end_function(),
            Mark::Thread => self.thread(),
            Mark::Argument => self.argument(),
            Mark::Set => self.set(),
            Mark::Store => self.store(),
            Mark::Call => self.call(),
            Mark::SetCall => self.set_call(),
            Mark::If => self.end_if(),
            Mark::IfElse => self.end_else(),
            Mark::While => self.end_while(),
            Mark::Cases => self.cases_begin(alloc),
            Mark::Case => self.case(),
            Mark::Switch => self.switch(),
            Mark::Return => self.end_return(),
            Mark::ValueReturn => self.value_return(),
        }
    }
}
