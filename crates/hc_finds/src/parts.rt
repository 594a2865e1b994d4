//! The parts of a process, in order.

ghost use Rattle.std.specs.Prelude.{◌≡◌, ◌++◌, ◌∷◌, [], map, OnOk, Bool, List};
ghost use Rattle.hc_ast.specs.declared.stmt.BranchTree.{out-BranchTree};
ghost use Rattle.hc_finds.specs.Seen.{part_of, seen, io_in};
ghost use Rattle.hc_finds.specs.Parts as spec;

use hc_ast::{BranchTree, CondTree, ExprTree, IoTree, RateTree, StmtKind, StmtTree};
use hc_frac::{Name, Place};
use std::alloc::{AllocError, Global};

/// Where an expression, a condition, a rate or a communication stands in a process.
#[derive(Clone, Copy, Drop)]
pub enum Part<'a> {
    Assign {
        place: Place,
        target: &'a Name,
        value: &'a ExprTree,
    },
    /// The time of a wait, or the value of a log.
    Compute {
        place: Place,
        value: &'a ExprTree,
    },
    /// The test of an `if` or a loop.
    Test {
        place: Place,
        test: &'a CondTree,
    },
    /// A statement that sends or receives.
    Communicate {
        place: Place,
        io: &'a IoTree,
    },
    /// A rate, with all rates of its evolution and those before it.
    Rate {
        all: &'a [RateTree],
        earlier: &'a [RateTree],
        rate: &'a RateTree,
    },
    /// The domain of an evolution with these rates.
    Domain {
        rates: &'a [RateTree],
        place: Place,
        domain: &'a CondTree,
    },
    /// A branch, with the rates of its evolution (none in a choice) and the branches before it.
    Guard {
        rates: &'a [RateTree],
        earlier: &'a [BranchTree],
        place: Place,
        io: &'a IoTree,
    },
}

fn add_rates<'a>(parts: &mut Vec<Part<'a>>, rates: &'a [RateTree]) -> Result<(), AllocError>
    ensures { OnOk result (seen parts.new.items ≡ seen parts.old.items ++ spec.rates_from rates.now [] rates.now) }
{
    for (at, rate) in rates.iter().enumerate() {
        parts.push(Part::Rate {
            all: rates,
            earlier: &rates[..at],
            rate,
        })?;
    }
    Ok(())
}

/// The rates and the domain of an evolution.
fn add_motion<'a>(
    parts: &mut Vec<Part<'a>>,
    rates: &'a [RateTree],
    place: Place,
    domain: &'a CondTree,
) -> Result<(), AllocError>
    ensures { OnOk result (seen parts.new.items ≡
        seen parts.old.items ++ spec.rates_from rates.now [] rates.now ++ spec.domain rates.now place domain.now ∷ []) }
{
    add_rates(parts, rates)?;
    Ok(parts.push(Part::Domain {
        rates,
        place,
        domain,
    })?)
}

/// The parts of a statement.
#[cycle(parts)]
fn add_parts<'a>(
    parts: &mut Vec<Part<'a>>,
    tests_first: bool,
    stmt: &'a StmtTree,
) -> Result<(), AllocError>
    ensures { OnOk result (seen parts.new.items ≡ seen parts.old.items ++ spec.parts tests_first stmt.now) }
{
    let place = stmt.place;
    match &stmt.kind {
        StmtKind::Skip => Ok(()),
        StmtKind::Assign { target, value } => Ok(parts.push(Part::Assign {
            place,
            target,
            value,
        })?),
        StmtKind::Wait { time: value } => Ok(parts.push(Part::Compute { place, value })?),
        StmtKind::Log { value } => Ok(parts.push(Part::Compute { place, value })?),
        StmtKind::Io(io) => Ok(parts.push(Part::Communicate { place, io })?),
        StmtKind::If { test, yes, no } => {
            parts.push(Part::Test { place, test })?;
            add_all(parts, tests_first, yes.as_slice())?;
            match no {
                Some(no) => add_all(parts, tests_first, no.as_slice()),
                None => Ok(()),
            }
        }
        StmtKind::Pick { left, right } => {
            add_all(parts, tests_first, left.as_slice())?;
            add_all(parts, tests_first, right.as_slice())
        }
        StmtKind::Forever { body } => add_all(parts, tests_first, body.as_slice()),
        StmtKind::Loop { test, body } => add_loop(parts, tests_first, body.as_slice(), place, test),
        StmtKind::Choice { branches } => add_guards(parts, tests_first, &[], branches.as_slice()),
        StmtKind::Evolve {
            rates,
            domain,
            branches,
        } => {
            let rates = rates.as_slice();
            add_motion(parts, rates, place, domain)?;
            add_guards(parts, tests_first, rates, branches.as_slice())
        }
    }
}

/// The parts of a loop, whose test comes first, or last as the tokens stand.
#[cycle(parts)]
fn add_loop<'a>(
    parts: &mut Vec<Part<'a>>,
    tests_first: bool,
    body: &'a [StmtTree],
    place: Place,
    test: &'a CondTree,
) -> Result<(), AllocError>
    ensures { OnOk result (seen parts.new.items ≡
        seen parts.old.items ++ spec.loop_parts tests_first (spec.test place test.now) (spec.parts_of tests_first body.now)) }
{
    if tests_first {
        parts.push(Part::Test { place, test })?;
        add_all(parts, true, body)
    } else {
        add_all(parts, false, body)?;
        Ok(parts.push(Part::Test { place, test })?)
    }
}

#[cycle(parts)]
pub(crate) fn add_all<'a>(
    parts: &mut Vec<Part<'a>>,
    tests_first: bool,
    stmts: &'a [StmtTree],
) -> Result<(), AllocError>
    ensures { OnOk result (seen parts.new.items ≡ seen parts.old.items ++ spec.parts_of tests_first stmts.now) }
{
    for stmt in stmts {
        add_parts(parts, tests_first, stmt)?;
    }
    Ok(())
}

#[cycle(parts)]
fn add_guards<'a>(
    parts: &mut Vec<Part<'a>>,
    tests_first: bool,
    rates: &'a [RateTree],
    branches: &'a [BranchTree],
) -> Result<(), AllocError>
    ensures { OnOk result (seen parts.new.items ≡
        seen parts.old.items ++ spec.guards_from rates.now [] (map (spec.guard_of tests_first) branches.now)) }
{
    for (at, branch) in branches.iter().enumerate() {
        parts.push(Part::Guard {
            rates,
            earlier: &branches[..at],
            place: branch.place,
            io: &branch.io,
        })?;
        add_all(parts, tests_first, branch.body.as_slice())?;
    }
    Ok(())
}
