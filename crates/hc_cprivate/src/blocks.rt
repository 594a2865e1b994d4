//! The code of values, tests, lines and end moments, on the row of one thread.

ghost use Rattle.std.specs.Prelude.{◌≡◌, ◌++◌, IsTrue, OnOk};
ghost use Rattle.hc_limits.specs.Limits.{most_nodes};
ghost use Rattle.hc_cprivate.specs.Whole.{parts};

use crate::pattern::pattern_of;
use hc_cast::CStmt;
use hc_cend::push_ends;
use hc_cstep::Blocks;
use hc_cvalue::{push_line, push_test, push_value};
use hc_list::List;
use hc_term::{Cond, Expr, Rate};
use std::alloc::{AllocError, Global};

/// Working values stand from this register on.
const FIRST_SCRATCH: u32 = 320;

/// The row of a thread, whose process has so many variables.
#[derive(Drop)]
pub(crate) struct OwnRow {
    pub(crate) thread: u32,
    pub(crate) variables: u32,
}

impl Blocks for OwnRow {
    ghost parts = { λ row. parts row.thread row.variables most_nodes };

    fn push_value(
        &self,
        alloc: Global,
        code: &mut List<CStmt>,
        expr: &Expr,
    ) -> Result<(), AllocError> {
        push_value(alloc, code, self.thread, FIRST_SCRATCH, expr)
    }

    fn push_test(
        &self,
        alloc: Global,
        code: &mut List<CStmt>,
        test: &Cond,
    ) -> Result<(), AllocError> {
        push_test(alloc, code, self.thread, FIRST_SCRATCH, test)
    }

    fn push_line(
        &self,
        alloc: Global,
        code: &mut List<CStmt>,
        rates: &[Rate],
        expr: &Expr,
    ) -> Result<(), AllocError> {
        let pattern = pattern_of(alloc, self.variables, rates)?;
        push_line(
            alloc,
            code,
            pattern.as_slice(),
            self.thread,
            FIRST_SCRATCH,
            expr,
        )?;
        Ok(())
    }

    fn push_end(
        &self,
        alloc: Global,
        code: &mut List<CStmt>,
        rates: &[Rate],
        domain: &Cond,
    ) -> Result<(), AllocError> {
        let pattern = pattern_of(alloc, self.variables, rates)?;
        push_ends(alloc, code, pattern.as_slice(), self.thread, domain)
    }
}
