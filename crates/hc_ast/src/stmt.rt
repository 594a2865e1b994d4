//! Statements.

ghost use Rattle.std.specs.Prelude.{◌≡◌, Some, None, IfOk};
ghost use Rattle.hc_ast.specs.declared.stmt.StmtKind.TheVariants as a;

use crate::lists::{Copied, copies};
use crate::{CondTree, ExprTree};
use hc_frac::{Name, Place};
use hc_list::List;
use std::alloc::{AllocError, Global};

/// A communication: what is sent on a channel, or the variable that what comes is put into.
#[derive(Drop)]
pub enum IoTree {
    Send { channel: Name, value: ExprTree },
    Receive { channel: Name, target: Name },
}

/// The rate of a variable, at its first word.
#[derive(Drop)]
pub struct RateTree {
    pub place: Place,
    pub variable: Name,
    pub value: ExprTree,
}

/// A statement, at its first token.
#[derive(Drop)]
#[cycle(stmt)]
pub struct StmtTree {
    pub place: Place,
    pub kind: StmtKind,
}

/// What a statement is.
#[derive(Drop)]
#[cycle(stmt)]
pub enum StmtKind {
    Skip,
    Assign {
        target: Name,
        value: ExprTree,
    },
    Wait {
        time: ExprTree,
    },
    Io(IoTree),
    Log {
        value: ExprTree,
    },
    If {
        test: CondTree,
        yes: List<StmtTree>,
        no: Option<List<StmtTree>>,
    },
    /// Internal choice.
    Pick {
        left: List<StmtTree>,
        right: List<StmtTree>,
    },
    Forever {
        body: List<StmtTree>,
    },
    Loop {
        test: CondTree,
        body: List<StmtTree>,
    },
    /// External choice by communications.
    Choice {
        branches: List<BranchTree>,
    },
    /// An evolution without `|>` has no branches.
    Evolve {
        rates: List<RateTree>,
        domain: CondTree,
        branches: List<BranchTree>,
    },
}

/// A guarded communication with the statements that follow it, at its first token.
#[derive(Drop)]
#[cycle(stmt)]
pub struct BranchTree {
    pub place: Place,
    pub io: IoTree,
    pub body: List<StmtTree>,
}

impl IoTree {
    /// An equal communication.
    pub fn copy(&self, alloc: Global) -> Result<IoTree, AllocError>
        ensures { IfOk result (λ t. t ≡ self.now) }
    {
        match self {
            IoTree::Send { channel, value } => {
                let value = value.copy(alloc)?;
                Ok(IoTree::Send {
                    channel: channel.copy(),
                    value,
                })
            }
            IoTree::Receive { channel, target } => Ok(IoTree::Receive {
                channel: channel.copy(),
                target: target.copy(),
            }),
        }
    }
}

impl RateTree {
    /// An equal rate.
    pub fn copy(&self, alloc: Global) -> Result<RateTree, AllocError>
        ensures { IfOk result (λ t. t ≡ self.now) }
    {
        let value = self.value.copy(alloc)?;
        Ok(RateTree {
            place: self.place,
            variable: self.variable.copy(),
            value,
        })
    }
}

impl Copied for RateTree {
    fn copied(&self, alloc: Global) -> Result<RateTree, AllocError> {
        self.copy(alloc)
    }
}

impl StmtTree {
    /// An equal statement.
    #[cycle(stmt_copies)]
    pub fn copy(&self, alloc: Global) -> Result<StmtTree, AllocError>
        ensures { IfOk result (λ t. t ≡ self.now) }
    {
        let kind = self.kind.copy(alloc)?;
        Ok(StmtTree {
            place: self.place,
            kind,
        })
    }
}

impl StmtKind {
    /// An equal statement.
    #[cycle(stmt_copies)]
    pub fn copy(&self, alloc: Global) -> Result<StmtKind, AllocError>
        ensures { IfOk result (λ t. t ≡ self.now) }
    {
        match self {
            StmtKind::Skip => Ok(StmtKind::Skip),
            StmtKind::Assign { target, value } => {
                let value = value.copy(alloc)?;
                Ok(StmtKind::Assign {
                    target: target.copy(),
                    value,
                })
            }
            StmtKind::Wait { time } => {
                let time = time.copy(alloc)?;
                Ok(StmtKind::Wait { time })
            }
            StmtKind::Io(io) => {
                let io = io.copy(alloc)?;
                Ok(StmtKind::Io(io))
            }
            StmtKind::Log { value } => {
                let value = value.copy(alloc)?;
                Ok(StmtKind::Log { value })
            }
            StmtKind::If {
                test,
                yes,
                no: None,
            } => copy_if(alloc, yes.as_slice(), test),
            StmtKind::If {
                test,
                yes,
                no: Some(no),
            } => {
                let yes = copy_statements(alloc, yes.as_slice())?;
                copy_if_else(alloc, no.as_slice(), test, yes)
            }
            StmtKind::Pick { left, right } => {
                let left = copy_statements(alloc, left.as_slice())?;
                copy_pick(alloc, right.as_slice(), left)
            }
            StmtKind::Forever { body } => {
                let body = copy_statements(alloc, body.as_slice())?;
                Ok(StmtKind::Forever { body })
            }
            StmtKind::Loop { test, body } => copy_loop(alloc, body.as_slice(), test),
            StmtKind::Choice { branches } => {
                let branches = copy_branches(alloc, branches.as_slice())?;
                Ok(StmtKind::Choice { branches })
            }
            StmtKind::Evolve {
                rates,
                domain,
                branches,
            } => copy_evolve(alloc, branches.as_slice(), rates.as_slice(), domain),
        }
    }
}

// The forms with several parts have functions of their own, whose first part is the one that they go down; a part that
// was copied before is handed on.

#[cycle(stmt_copies)]
fn copy_if(alloc: Global, yes: &[StmtTree], test: &CondTree) -> Result<StmtKind, AllocError>
    ensures { IfOk result (λ t. t ≡ a.If test.now yes.now None) }
{
    let test = test.copy(alloc)?;
    let yes = copy_statements(alloc, yes)?;
    Ok(StmtKind::If {
        test,
        yes,
        no: None,
    })
}

#[cycle(stmt_copies)]
fn copy_if_else(
    alloc: Global,
    no: &[StmtTree],
    test: &CondTree,
    yes: List<StmtTree>,
) -> Result<StmtKind, AllocError>
    ensures { IfOk result (λ t. t ≡ a.If test.now yes (Some no.now)) }
{
    let test = test.copy(alloc)?;
    let no = copy_statements(alloc, no)?;
    Ok(StmtKind::If {
        test,
        yes,
        no: Some(no),
    })
}

#[cycle(stmt_copies)]
fn copy_pick(
    alloc: Global,
    right: &[StmtTree],
    left: List<StmtTree>,
) -> Result<StmtKind, AllocError>
    ensures { IfOk result (λ t. t ≡ a.Pick left right.now) }
{
    let right = copy_statements(alloc, right)?;
    Ok(StmtKind::Pick { left, right })
}

#[cycle(stmt_copies)]
fn copy_loop(alloc: Global, body: &[StmtTree], test: &CondTree) -> Result<StmtKind, AllocError>
    ensures { IfOk result (λ t. t ≡ a.Loop test.now body.now) }
{
    let test = test.copy(alloc)?;
    let body = copy_statements(alloc, body)?;
    Ok(StmtKind::Loop { test, body })
}

#[cycle(stmt_copies)]
fn copy_evolve(
    alloc: Global,
    branches: &[BranchTree],
    rates: &[RateTree],
    domain: &CondTree,
) -> Result<StmtKind, AllocError>
    ensures { IfOk result (λ t. t ≡ a.Evolve rates.now domain.now branches.now) }
{
    let rates = copies(alloc, rates)?;
    let domain = domain.copy(alloc)?;
    let branches = copy_branches(alloc, branches)?;
    Ok(StmtKind::Evolve {
        rates,
        domain,
        branches,
    })
}

impl BranchTree {
    /// An equal branch.
    #[cycle(stmt_copies)]
    pub fn copy(&self, alloc: Global) -> Result<BranchTree, AllocError>
        ensures { IfOk result (λ t. t ≡ self.now) }
    {
        let io = self.io.copy(alloc)?;
        let body = copy_statements(alloc, self.body.as_slice())?;
        Ok(BranchTree {
            place: self.place,
            io,
            body,
        })
    }
}

/// Equal statements, in their order.
#[cycle(stmt_copies)]
pub(crate) fn copy_statements(
    alloc: Global,
    statements: &[StmtTree],
) -> Result<List<StmtTree>, AllocError>
    ensures { IfOk result (λ found. found ≡ statements.now) }
{
    let mut found = List::new(alloc);
    for statement in statements {
        found.push(statement.copy(alloc)?)?;
    }
    Ok(found)
}

#[cycle(stmt_copies)]
fn copy_branches(alloc: Global, branches: &[BranchTree]) -> Result<List<BranchTree>, AllocError>
    ensures { IfOk result (λ found. found ≡ branches.now) }
{
    let mut found = List::new(alloc);
    for branch in branches {
        found.push(branch.copy(alloc)?)?;
    }
    Ok(found)
}
