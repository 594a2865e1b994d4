//! Statements.

ghost use Rattle.std.specs.Prelude.{◌≡◌, IfOk};
ghost use Rattle.hc_term.specs.declared.stmt.Stmt.TheVariants as a;

use crate::{Cond, Expr};
use hc_list::List;
use std::alloc::{AllocError, Global};

/// One side of a communication: what is sent on a channel, or the variable that what comes is put into.
#[derive(Drop)]
pub enum Io {
    Send { channel: u32, value: Expr },
    Receive { channel: u32, variable: u32 },
}

/// The rate of a variable: by how much it grows in a time unit while an evolution lasts.
#[derive(Drop)]
pub struct Rate {
    pub variable: u32,
    pub value: Expr,
}

/// A statement. Lists of statements are done one after the other.
#[derive(Drop)]
#[cycle(stmt)]
pub enum Stmt {
    Skip,
    Assign {
        variable: u32,
        value: Expr,
    },
    /// Lets so many time units pass, and none where the time is at most 0.
    Wait {
        time: Expr,
    },
    Io(Io),
    /// Puts the value on the trace.
    Log {
        value: Expr,
    },
    /// A missing else part is an empty list.
    If {
        test: Cond,
        yes: List<Stmt>,
        no: List<Stmt>,
    },
    /// Internal choice.
    Pick {
        left: List<Stmt>,
        right: List<Stmt>,
    },
    Forever {
        body: List<Stmt>,
    },
    /// The test comes before each round.
    Loop {
        test: Cond,
        body: List<Stmt>,
    },
    /// External choice by communications.
    Choice {
        branches: List<Branch>,
    },
    /// The variables move at their rates as long as the domain holds, or until one of the guarded communications takes place.
    Evolve {
        rates: List<Rate>,
        domain: Cond,
        branches: List<Branch>,
    },
}

/// A guarded communication with the statements that follow it.
#[derive(Drop)]
#[cycle(stmt)]
pub struct Branch {
    pub io: Io,
    pub body: List<Stmt>,
}

impl Io {
    /// An equal communication.
    pub fn copy(&self, alloc: Global) -> Result<Io, AllocError>
        ensures { IfOk result (λ t. t ≡ self.now) }
    {
        match self {
            Io::Send { channel, value } => {
                let value = value.copy(alloc)?;
                Ok(Io::Send {
                    channel: *channel,
                    value,
                })
            }
            Io::Receive { channel, variable } => Ok(Io::Receive {
                channel: *channel,
                variable: *variable,
            }),
        }
    }
}

impl Rate {
    /// An equal rate.
    pub fn copy(&self, alloc: Global) -> Result<Rate, AllocError>
        ensures { IfOk result (λ t. t ≡ self.now) }
    {
        let value = self.value.copy(alloc)?;
        Ok(Rate {
            variable: self.variable,
            value,
        })
    }
}

fn copy_rates(alloc: Global, rates: &[Rate]) -> Result<List<Rate>, AllocError>
    ensures { IfOk result (λ found. found ≡ rates.now) }
{
    let mut found = List::new(alloc);
    for rate in rates {
        found.push(rate.copy(alloc)?)?;
    }
    Ok(found)
}

impl Stmt {
    /// An equal statement.
    #[cycle(stmt_copies)]
    pub fn copy(&self, alloc: Global) -> Result<Stmt, AllocError>
        ensures { IfOk result (λ t. t ≡ self.now) }
    {
        match self {
            Stmt::Skip => Ok(Stmt::Skip),
            Stmt::Assign { variable, value } => {
                let value = value.copy(alloc)?;
                Ok(Stmt::Assign {
                    variable: *variable,
                    value,
                })
            }
            Stmt::Wait { time } => {
                let time = time.copy(alloc)?;
                Ok(Stmt::Wait { time })
            }
            Stmt::Io(io) => {
                let io = io.copy(alloc)?;
                Ok(Stmt::Io(io))
            }
            Stmt::Log { value } => {
                let value = value.copy(alloc)?;
                Ok(Stmt::Log { value })
            }
            Stmt::If { test, yes, no } => {
                let yes = copy_statements(alloc, yes.as_slice())?;
                copy_if(alloc, no.as_slice(), test, yes)
            }
            Stmt::Pick { left, right } => {
                let left = copy_statements(alloc, left.as_slice())?;
                copy_pick(alloc, right.as_slice(), left)
            }
            Stmt::Forever { body } => {
                let body = copy_statements(alloc, body.as_slice())?;
                Ok(Stmt::Forever { body })
            }
            Stmt::Loop { test, body } => copy_loop(alloc, body.as_slice(), test),
            Stmt::Choice { branches } => {
                let branches = copy_branches(alloc, branches.as_slice())?;
                Ok(Stmt::Choice { branches })
            }
            Stmt::Evolve {
                rates,
                domain,
                branches,
            } => copy_evolve(alloc, branches.as_slice(), rates.as_slice(), domain),
        }
    }
}

// The forms with several parts have functions of their own, whose first part is the one that they go down; a part that
// was copied before is handed on.

#[cycle(stmt_copies)]
fn copy_if(alloc: Global, no: &[Stmt], test: &Cond, yes: List<Stmt>) -> Result<Stmt, AllocError>
    ensures { IfOk result (λ t. t ≡ a.If test.now yes no.now) }
{
    let test = test.copy(alloc)?;
    let no = copy_statements(alloc, no)?;
    Ok(Stmt::If { test, yes, no })
}

#[cycle(stmt_copies)]
fn copy_pick(alloc: Global, right: &[Stmt], left: List<Stmt>) -> Result<Stmt, AllocError>
    ensures { IfOk result (λ t. t ≡ a.Pick left right.now) }
{
    let right = copy_statements(alloc, right)?;
    Ok(Stmt::Pick { left, right })
}

#[cycle(stmt_copies)]
fn copy_loop(alloc: Global, body: &[Stmt], test: &Cond) -> Result<Stmt, AllocError>
    ensures { IfOk result (λ t. t ≡ a.Loop test.now body.now) }
{
    let test = test.copy(alloc)?;
    let body = copy_statements(alloc, body)?;
    Ok(Stmt::Loop { test, body })
}

#[cycle(stmt_copies)]
fn copy_evolve(
    alloc: Global,
    branches: &[Branch],
    rates: &[Rate],
    domain: &Cond,
) -> Result<Stmt, AllocError>
    ensures { IfOk result (λ t. t ≡ a.Evolve rates.now domain.now branches.now) }
{
    let rates = copy_rates(alloc, rates)?;
    let domain = domain.copy(alloc)?;
    let branches = copy_branches(alloc, branches)?;
    Ok(Stmt::Evolve {
        rates,
        domain,
        branches,
    })
}

impl Branch {
    /// An equal branch.
    #[cycle(stmt_copies)]
    pub fn copy(&self, alloc: Global) -> Result<Branch, AllocError>
        ensures { IfOk result (λ t. t ≡ self.now) }
    {
        let io = self.io.copy(alloc)?;
        let body = copy_statements(alloc, self.body.as_slice())?;
        Ok(Branch { io, body })
    }
}

/// Equal statements, in their order.
#[cycle(stmt_copies)]
pub(crate) fn copy_statements(alloc: Global, stmts: &[Stmt]) -> Result<List<Stmt>, AllocError>
    ensures { IfOk result (λ found. found ≡ stmts.now) }
{
    let mut found = List::new(alloc);
    for stmt in stmts {
        found.push(stmt.copy(alloc)?)?;
    }
    Ok(found)
}

#[cycle(stmt_copies)]
fn copy_branches(alloc: Global, branches: &[Branch]) -> Result<List<Branch>, AllocError>
    ensures { IfOk result (λ found. found ≡ branches.now) }
{
    let mut found = List::new(alloc);
    for branch in branches {
        found.push(branch.copy(alloc)?)?;
    }
    Ok(found)
}
