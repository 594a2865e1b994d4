//! What happens between tokens: statements and their parts begin and end.

ghost use Rattle.std.specs.Prelude.{◌≡◌, OnOk};
ghost use Rattle.hc_cread.specs.Builder as spec;

use crate::values::Values;
use hc_cast::{CCase, CExpr, CStmt};
use hc_cgrammar::Mark;
use hc_list::List;
use std::alloc::{AllocError, Global};

impl Values {
    /// Adds a statement to the innermost list.
    fn statement(&mut self, statement: CStmt) -> Result<(), AllocError>
        ensures { OnOk result (self.new ≡ spec.add_stmt statement self.old) }
    {
        let Some(mut body) = self.bodies.pop() else {
            return Ok(());
        };
        body.push(statement)?;
        self.bodies.push(body)
    }

    fn add_argument(&mut self, value: CExpr) -> Result<(), AllocError>
        ensures { OnOk result (self.new ≡ spec.add_argument value self.old) }
    {
        let Some(mut arguments) = self.arguments.pop() else {
            return Ok(());
        };
        arguments.push(value)?;
        self.arguments.push(arguments)
    }

    fn add_case(&mut self, case: CCase) -> Result<(), AllocError>
        ensures { OnOk result (self.new ≡ spec.add_case case self.old) }
    {
        let Some(mut cases) = self.cases.pop() else {
            return Ok(());
        };
        cases.push(case)?;
        self.cases.push(cases)
    }

    /// A list of statements begins.
    pub(crate) fn statements(&mut self, alloc: Global) -> Result<(), AllocError>
        ensures { OnOk result (self.new ≡ spec.at_mark Mark.Statements self.old) }
    {
        self.bodies.push(List::new(alloc))
    }

    /// An argument ends.
    pub(crate) fn argument(&mut self) -> Result<(), AllocError>
        ensures { OnOk result (self.new ≡ spec.at_mark Mark.Argument self.old) }
    {
        let Some(value) = self.exprs.pop() else {
            return Ok(());
        };
        self.add_argument(value)
    }

    /// A local becomes the value of an expression.
    pub(crate) fn set(&mut self) -> Result<(), AllocError>
        ensures { OnOk result (self.new ≡ spec.at_mark Mark.Set self.old) }
    {
        let Some(value) = self.exprs.pop() else {
            return Ok(());
        };
        let Some(local) = self.names.pop() else {
            return Ok(());
        };
        self.statement(CStmt::Set { local, value })
    }

    /// An element of an array becomes a value.
    pub(crate) fn store(&mut self) -> Result<(), AllocError>
        ensures { OnOk result (self.new ≡ spec.at_mark Mark.Store self.old) }
    {
        let Some(value) = self.exprs.pop() else {
            return Ok(());
        };
        let Some(index) = self.exprs.pop() else {
            return Ok(());
        };
        let Some(array) = self.names.pop() else {
            return Ok(());
        };
        self.statement(CStmt::Store {
            array,
            index,
            value,
        })
    }

    /// A call ends whose result is left.
    pub(crate) fn call(&mut self) -> Result<(), AllocError>
        ensures { OnOk result (self.new ≡ spec.at_mark Mark.Call self.old) }
    {
        let Some(arguments) = self.arguments.pop() else {
            return Ok(());
        };
        let Some(callee) = self.names.pop() else {
            return Ok(());
        };
        self.statement(CStmt::Call {
            result: None,
            callee,
            arguments,
        })
    }

    /// A call ends whose result a local takes.
    pub(crate) fn set_call(&mut self) -> Result<(), AllocError>
        ensures { OnOk result (self.new ≡ spec.at_mark Mark.SetCall self.old) }
    {
        let Some(arguments) = self.arguments.pop() else {
            return Ok(());
        };
        let Some(callee) = self.names.pop() else {
            return Ok(());
        };
        let Some(local) = self.names.pop() else {
            return Ok(());
        };
        self.statement(CStmt::Call {
            result: Some(local),
            callee,
            arguments,
        })
    }

    /// An `if` without an else part ends.
    pub(crate) fn end_if(&mut self) -> Result<(), AllocError>
        ensures { OnOk result (self.new ≡ spec.at_mark Mark.If self.old) }
    {
        let Some(yes) = self.bodies.pop() else {
            return Ok(());
        };
        let Some(test) = self.exprs.pop() else {
            return Ok(());
        };
        self.statement(CStmt::If {
            test,
            yes,
            no: None,
        })
    }

    /// An `if` with an else part ends.
    pub(crate) fn end_else(&mut self) -> Result<(), AllocError>
        ensures { OnOk result (self.new ≡ spec.at_mark Mark.IfElse self.old) }
    {
        let Some(no) = self.bodies.pop() else {
            return Ok(());
        };
        let Some(yes) = self.bodies.pop() else {
            return Ok(());
        };
        let Some(test) = self.exprs.pop() else {
            return Ok(());
        };
        self.statement(CStmt::If {
            test,
            yes,
            no: Some(no),
        })
    }

    /// A `while` ends.
    pub(crate) fn end_while(&mut self) -> Result<(), AllocError>
        ensures { OnOk result (self.new ≡ spec.at_mark Mark.While self.old) }
    {
        let Some(body) = self.bodies.pop() else {
            return Ok(());
        };
        let Some(test) = self.exprs.pop() else {
            return Ok(());
        };
        self.statement(CStmt::While { test, body })
    }

    /// The cases of a `switch` begin.
    pub(crate) fn cases_begin(&mut self, alloc: Global) -> Result<(), AllocError>
        ensures { OnOk result (self.new ≡ spec.at_mark Mark.Cases self.old) }
    {
        self.cases.push(List::new(alloc))
    }

    /// A case ends.
    pub(crate) fn case(&mut self) -> Result<(), AllocError>
        ensures { OnOk result (self.new ≡ spec.at_mark Mark.Case self.old) }
    {
        let Some(body) = self.bodies.pop() else {
            return Ok(());
        };
        let Some(number) = self.numbers.pop() else {
            return Ok(());
        };
        self.add_case(CCase { number, body })
    }

    /// A `switch` ends.
    pub(crate) fn switch(&mut self) -> Result<(), AllocError>
        ensures { OnOk result (self.new ≡ spec.at_mark Mark.Switch self.old) }
    {
        let Some(otherwise) = self.bodies.pop() else {
            return Ok(());
        };
        let Some(cases) = self.cases.pop() else {
            return Ok(());
        };
        let Some(on) = self.exprs.pop() else {
            return Ok(());
        };
        self.statement(CStmt::Switch {
            on,
            cases,
            otherwise,
        })
    }

    /// A `return` without a value ends.
    pub(crate) fn end_return(&mut self) -> Result<(), AllocError>
        ensures { OnOk result (self.new ≡ spec.at_mark Mark.Return self.old) }
    {
        self.statement(CStmt::Return { value: None })
    }

    /// A `return` with a value ends.
    pub(crate) fn value_return(&mut self) -> Result<(), AllocError>
        ensures { OnOk result (self.new ≡ spec.at_mark Mark.ValueReturn self.old) }
    {
        let Some(value) = self.exprs.pop() else {
            return Ok(());
        };
        self.statement(CStmt::Return { value: Some(value) })
    }
}
