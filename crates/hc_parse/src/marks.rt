//! What happens between tokens.

ghost use Rattle.std.specs.Prelude.{◌≡◌, OnOk};
ghost use Rattle.hc_parse.specs.Builder as spec;

use crate::values::Values;
use hc_ast::Mark;
use std::alloc::{AllocError, Global};

impl Values {
    /// A mark.
    pub(crate) fn mark(&mut self, alloc: Global, mark: Mark) -> Result<(), AllocError>
        ensures { OnOk result (self.new ≡ spec.at_mark mark self.old) }
    {
        match mark {
            Mark::Fresh => Ok(()),
            Mark::Negate => self.negate(alloc),
            Mark::Binary => self.binary(alloc),
            Mark::Compare => self.compare(alloc),
            Mark::Not => self.not(alloc),
            Mark::And => self.and(alloc),
            Mark::Or => self.or(alloc),
            Mark::Body => self.body(alloc),
            Mark::Skip => self.skip(),
            Mark::Assign => self.assign(),
            Mark::Wait => self.wait(),
            Mark::Log => self.log(),
            Mark::Send => self.send(),
            Mark::Receive => self.receive(),
            Mark::Io => self.io(),
            Mark::If => self.end_if(),
            Mark::Else => self.end_else(),
            Mark::Pick => self.pick(),
            Mark::Forever => self.forever(),
            Mark::Loop => self.end_loop(),
            Mark::Branches => self.branches(alloc),
            Mark::Choice => self.choice(),
            Mark::Branch => self.branch(),
            Mark::Rates => self.rates(alloc),
            Mark::Rate => self.rate(),
            Mark::Evolve => self.evolve(),
            Mark::Params => self.params_begin(alloc),
            Mark::Param => self.param(),
            Mark::Module => self.module(alloc),
            Mark::Arguments => self.arguments_begin(alloc),
            Mark::Argument => self.argument(),
            Mark::Inline => self.inline(),
            Mark::Call => self.call(alloc),
        }
    }
}
