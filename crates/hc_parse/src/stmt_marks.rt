//! What happens between tokens: parts of statements begin and end.

ghost use Rattle.std.specs.Prelude.{◌≡◌, OnOk};
ghost use Rattle.hc_parse.specs.Builder as spec;

use crate::values::Values;
use hc_ast::{BranchTree, IoTree, Mark, RateTree, StmtKind, StmtTree};
use hc_list::List;
use std::alloc::{AllocError, Global};

impl Values {
    /// Adds a statement to the innermost list.
    fn statement(&mut self, statement: StmtTree) -> Result<(), AllocError>
        ensures { OnOk result (self.new ≡ spec.add_stmt statement self.old) }
    {
        let Some(mut body) = self.bodies.pop() else {
            return Ok(());
        };
        body.push(statement)?;
        self.bodies.push(body)
    }

    /// A list of statements begins.
    pub(crate) fn body(&mut self, alloc: Global) -> Result<(), AllocError>
        ensures { OnOk result (self.new ≡ spec.at_mark Mark.Body self.old) }
    {
        self.bodies.push(List::new(alloc))
    }

    /// A `skip` ends.
    pub(crate) fn skip(&mut self) -> Result<(), AllocError>
        ensures { OnOk result (self.new ≡ spec.at_mark Mark.Skip self.old) }
    {
        let Some((place, _)) = self.fixed.pop() else {
            return Ok(());
        };
        self.statement(StmtTree {
            place,
            kind: StmtKind::Skip,
        })
    }

    /// The value of an assignment ends.
    pub(crate) fn assign(&mut self) -> Result<(), AllocError>
        ensures { OnOk result (self.new ≡ spec.at_mark Mark.Assign self.old) }
    {
        let Some(value) = self.exprs.pop() else {
            return Ok(());
        };
        let Some((place, target)) = self.names.pop() else {
            return Ok(());
        };
        self.statement(StmtTree {
            place,
            kind: StmtKind::Assign { target, value },
        })
    }

    /// A `wait` ends.
    pub(crate) fn wait(&mut self) -> Result<(), AllocError>
        ensures { OnOk result (self.new ≡ spec.at_mark Mark.Wait self.old) }
    {
        let Some(time) = self.exprs.pop() else {
            return Ok(());
        };
        let Some((place, _)) = self.fixed.pop() else {
            return Ok(());
        };
        self.statement(StmtTree {
            place,
            kind: StmtKind::Wait { time },
        })
    }

    /// A `log` ends.
    pub(crate) fn log(&mut self) -> Result<(), AllocError>
        ensures { OnOk result (self.new ≡ spec.at_mark Mark.Log self.old) }
    {
        let Some(value) = self.exprs.pop() else {
            return Ok(());
        };
        let Some((place, _)) = self.fixed.pop() else {
            return Ok(());
        };
        self.statement(StmtTree {
            place,
            kind: StmtKind::Log { value },
        })
    }

    /// The value that is sent ends.
    pub(crate) fn send(&mut self) -> Result<(), AllocError>
        ensures { OnOk result (self.new ≡ spec.at_mark Mark.Send self.old) }
    {
        let Some(value) = self.exprs.pop() else {
            return Ok(());
        };
        let Some((place, channel)) = self.names.pop() else {
            return Ok(());
        };
        self.ios.push((place, IoTree::Send { channel, value }))
    }

    /// The variable of a receive ends.
    pub(crate) fn receive(&mut self) -> Result<(), AllocError>
        ensures { OnOk result (self.new ≡ spec.at_mark Mark.Receive self.old) }
    {
        let Some((_, target)) = self.names.pop() else {
            return Ok(());
        };
        let Some((place, channel)) = self.names.pop() else {
            return Ok(());
        };
        self.ios.push((place, IoTree::Receive { channel, target }))
    }

    /// A communication that is a statement ends.
    pub(crate) fn io(&mut self) -> Result<(), AllocError>
        ensures { OnOk result (self.new ≡ spec.at_mark Mark.Io self.old) }
    {
        let Some((place, io)) = self.ios.pop() else {
            return Ok(());
        };
        self.statement(StmtTree {
            place,
            kind: StmtKind::Io(io),
        })
    }

    /// An `if` without an else part ends.
    pub(crate) fn end_if(&mut self) -> Result<(), AllocError>
        ensures { OnOk result (self.new ≡ spec.at_mark Mark.If self.old) }
    {
        let Some(yes) = self.bodies.pop() else {
            return Ok(());
        };
        let Some(test) = self.conds.pop() else {
            return Ok(());
        };
        let Some((place, _)) = self.fixed.pop() else {
            return Ok(());
        };
        self.statement(StmtTree {
            place,
            kind: StmtKind::If {
                test,
                yes,
                no: None,
            },
        })
    }

    /// An `if` with an else part ends.
    pub(crate) fn end_else(&mut self) -> Result<(), AllocError>
        ensures { OnOk result (self.new ≡ spec.at_mark Mark.Else self.old) }
    {
        let Some(no) = self.bodies.pop() else {
            return Ok(());
        };
        let Some(yes) = self.bodies.pop() else {
            return Ok(());
        };
        let Some(test) = self.conds.pop() else {
            return Ok(());
        };
        let Some((place, _)) = self.fixed.pop() else {
            return Ok(());
        };
        self.statement(StmtTree {
            place,
            kind: StmtKind::If {
                test,
                yes,
                no: Some(no),
            },
        })
    }

    /// An internal choice ends.
    pub(crate) fn pick(&mut self) -> Result<(), AllocError>
        ensures { OnOk result (self.new ≡ spec.at_mark Mark.Pick self.old) }
    {
        let Some(right) = self.bodies.pop() else {
            return Ok(());
        };
        let Some(left) = self.bodies.pop() else {
            return Ok(());
        };
        let Some((place, _)) = self.fixed.pop() else {
            return Ok(());
        };
        self.statement(StmtTree {
            place,
            kind: StmtKind::Pick { left, right },
        })
    }

    /// A loop without a test ends.
    pub(crate) fn forever(&mut self) -> Result<(), AllocError>
        ensures { OnOk result (self.new ≡ spec.at_mark Mark.Forever self.old) }
    {
        let Some(body) = self.bodies.pop() else {
            return Ok(());
        };
        let Some((place, _)) = self.fixed.pop() else {
            return Ok(());
        };
        self.statement(StmtTree {
            place,
            kind: StmtKind::Forever { body },
        })
    }

    /// A loop with a test ends.
    pub(crate) fn end_loop(&mut self) -> Result<(), AllocError>
        ensures { OnOk result (self.new ≡ spec.at_mark Mark.Loop self.old) }
    {
        let Some(test) = self.conds.pop() else {
            return Ok(());
        };
        let Some(body) = self.bodies.pop() else {
            return Ok(());
        };
        let Some((place, _)) = self.fixed.pop() else {
            return Ok(());
        };
        self.statement(StmtTree {
            place,
            kind: StmtKind::Loop { test, body },
        })
    }

    /// A list of branches begins.
    pub(crate) fn branches(&mut self, alloc: Global) -> Result<(), AllocError>
        ensures { OnOk result (self.new ≡ spec.at_mark Mark.Branches self.old) }
    {
        self.choices.push(List::new(alloc))
    }

    /// An external choice ends.
    pub(crate) fn choice(&mut self) -> Result<(), AllocError>
        ensures { OnOk result (self.new ≡ spec.at_mark Mark.Choice self.old) }
    {
        let Some(branches) = self.choices.pop() else {
            return Ok(());
        };
        let Some((place, _)) = self.fixed.pop() else {
            return Ok(());
        };
        self.statement(StmtTree {
            place,
            kind: StmtKind::Choice { branches },
        })
    }

    /// A branch ends.
    pub(crate) fn branch(&mut self) -> Result<(), AllocError>
        ensures { OnOk result (self.new ≡ spec.at_mark Mark.Branch self.old) }
    {
        let Some(body) = self.bodies.pop() else {
            return Ok(());
        };
        let Some((place, io)) = self.ios.pop() else {
            return Ok(());
        };
        let Some(mut branches) = self.choices.pop() else {
            return Ok(());
        };
        branches.push(BranchTree { place, io, body })?;
        self.choices.push(branches)
    }

    /// A list of rates begins, and the branches of their evolution.
    pub(crate) fn rates(&mut self, alloc: Global) -> Result<(), AllocError>
        ensures { OnOk result (self.new ≡ spec.at_mark Mark.Rates self.old) }
    {
        self.rates.push(List::new(alloc))?;
        self.choices.push(List::new(alloc))
    }

    /// A rate ends.
    pub(crate) fn rate(&mut self) -> Result<(), AllocError>
        ensures { OnOk result (self.new ≡ spec.at_mark Mark.Rate self.old) }
    {
        let Some(value) = self.exprs.pop() else {
            return Ok(());
        };
        let Some((place, variable)) = self.names.pop() else {
            return Ok(());
        };
        let Some(mut rates) = self.rates.pop() else {
            return Ok(());
        };
        rates.push(RateTree {
            place,
            variable,
            value,
        })?;
        self.rates.push(rates)
    }

    /// An evolution ends.
    pub(crate) fn evolve(&mut self) -> Result<(), AllocError>
        ensures { OnOk result (self.new ≡ spec.at_mark Mark.Evolve self.old) }
    {
        let Some(branches) = self.choices.pop() else {
            return Ok(());
        };
        let Some(rates) = self.rates.pop() else {
            return Ok(());
        };
        let Some(domain) = self.conds.pop() else {
            return Ok(());
        };
        let Some((place, _)) = self.fixed.pop() else {
            return Ok(());
        };
        self.statement(StmtTree {
            place,
            kind: StmtKind::Evolve {
                rates,
                domain,
                branches,
            },
        })
    }
}
