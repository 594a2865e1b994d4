//! Statements.

ghost use Rattle.std.specs.Prelude.{◌≡◌, ◌∷◌, OnOk, map};
ghost use Rattle.hc_ast.specs.Unplaced.{bare_expr, bare_cond, bare_io, bare_rate, bare_stmt, bare_stmts, bare_branch, bare_branches};
ghost use Rattle.hc_print.specs.Lexemes.{fixed};
ghost use Rattle.hc_print.specs.Appends.{Writes};
ghost use Rattle.hc_print.specs.CanonExprs.{expr, cond};
ghost use Rattle.hc_print.specs.CanonStmts as canon;

use crate::expr::{write_cond, write_expr};
use crate::level::Level;
use crate::writer::Writer;
use hc_ast::{BranchTree, CondTree, ExprTree, IoTree, RateTree, StmtKind, StmtTree};
use hc_token::Fixed;
use std::alloc::{AllocError, Global};

fn write_io(out: &mut Writer, io: &IoTree) -> Result<(), AllocError>
    ensures { OnOk result (Writes out.old out.new (canon.io (bare_io io.now))) }
{
    match io {
        IoTree::Send { channel, value } => {
            out.name(channel)?;
            out.sign(Fixed::Exclamation)?;
            write_expr(out, value, Level::Alone)
        }
        IoTree::Receive { channel, target } => {
            out.name(channel)?;
            out.sign(Fixed::Question)?;
            out.name(target)
        }
    }
}

fn write_rate(out: &mut Writer, rate: &RateTree) -> Result<(), AllocError>
    ensures { OnOk result (Writes out.old out.new (canon.rate (bare_rate rate.now))) }
{
    out.rate(&rate.variable)?;
    out.sign(Fixed::Equal)?;
    write_expr(out, &rate.value, Level::Alone)
}

fn write_rates(out: &mut Writer, rates: &[RateTree]) -> Result<(), AllocError>
    ensures { OnOk result (Writes out.old out.new (canon.rates (map bare_rate rates.now))) }
{
    let [first, more @ ..] = rates else {
        return Ok(());
    };
    write_rate(out, first)?;
    for rate in more {
        out.sign(Fixed::Comma)?;
        write_rate(out, rate)?;
    }
    Ok(())
}

/// A statement.
#[cycle(write_stmts)]
#[tactic(auto, using(hc_ast::proofs::BareForms::forms))]
fn write_stmt(out: &mut Writer, statement: &StmtTree) -> Result<(), AllocError>
    ensures { OnOk result (Writes out.old out.new (canon.stmt (bare_stmt statement.now))) }
{
    match &statement.kind {
        StmtKind::Skip => out.sign(Fixed::Skip),
        StmtKind::Assign { target, value } => {
            out.name(target)?;
            out.sign(Fixed::ColonEqual)?;
            write_expr(out, value, Level::Alone)
        }
        StmtKind::Wait { time } => write_call(out, Fixed::Wait, time),
        StmtKind::Io(io) => write_io(out, io),
        StmtKind::Log { value } => write_call(out, Fixed::Log, value),
        StmtKind::If { test, yes, no } => {
            write_if(out, test)?;
            write_stmts(out, yes.as_slice())?;
            match no {
                Some(no) => {
                    out.sign(Fixed::Else)?;
                    write_stmts(out, no.as_slice())?;
                    out.sign(Fixed::EndIf)
                }
                None => out.sign(Fixed::EndIf),
            }
        }
        StmtKind::Pick { left, right } => {
            write_group(out, left.as_slice())?;
            out.sign(Fixed::PlusPlus)?;
            write_group(out, right.as_slice())
        }
        StmtKind::Forever { body } => {
            write_group(out, body.as_slice())?;
            out.sign(Fixed::StarStar)
        }
        StmtKind::Loop { test, body } => {
            write_group(out, body.as_slice())?;
            write_test(out, test)
        }
        StmtKind::Choice { branches } => write_choice(out, branches.as_slice()),
        StmtKind::Evolve {
            rates,
            domain,
            branches,
        } => {
            write_motion(out, rates.as_slice(), domain)?;
            write_interrupt(out, branches.as_slice())
        }
    }
}

/// A loop's test.
fn write_test(out: &mut Writer, test: &CondTree) -> Result<(), AllocError>
    ensures { OnOk result (Writes out.old out.new (λ w.
        fixed Fixed.OpenCurly ∷ cond (bare_cond test.now) Level.Alone (fixed Fixed.CloseCurly ∷ fixed Fixed.StarStar ∷ w))) }
{
    out.sign(Fixed::OpenCurly)?;
    write_cond(out, test, Level::Alone)?;
    out.sign(Fixed::CloseCurly)?;
    out.sign(Fixed::StarStar)
}

/// An evolution's rates and its domain.
fn write_motion(out: &mut Writer, rates: &[RateTree], domain: &CondTree) -> Result<(), AllocError>
    ensures { OnOk result (Writes out.old out.new (λ w.
        fixed Fixed.Less ∷ canon.rates (map bare_rate rates.now)
        (fixed Fixed.And ∷ cond (bare_cond domain.now) Level.Alone (fixed Fixed.Greater ∷ w)))) }
{
    out.sign(Fixed::Less)?;
    write_rates(out, rates)?;
    out.sign(Fixed::And)?;
    write_cond(out, domain, Level::Alone)?;
    out.sign(Fixed::Greater)
}

/// A test before the statements where it holds.
fn write_if(out: &mut Writer, test: &CondTree) -> Result<(), AllocError>
    ensures { OnOk result (Writes out.old out.new (λ w.
        fixed Fixed.If ∷ cond (bare_cond test.now) Level.Alone (fixed Fixed.Then ∷ w))) }
{
    out.sign(Fixed::If)?;
    write_cond(out, test, Level::Alone)?;
    out.sign(Fixed::Then)
}

/// A word and one expression in round brackets.
fn write_call(out: &mut Writer, word: Fixed, value: &ExprTree) -> Result<(), AllocError>
    ensures { OnOk result (Writes out.old out.new (λ w.
        fixed word ∷ fixed Fixed.OpenRound ∷ expr (bare_expr value.now) Level.Alone (fixed Fixed.CloseRound ∷ w))) }
{
    out.sign(word)?;
    out.sign(Fixed::OpenRound)?;
    write_expr(out, value, Level::Alone)?;
    out.sign(Fixed::CloseRound)
}

/// Statements with semicolons between them.
#[cycle(write_stmts)]
#[tactic(auto, using(hc_ast::proofs::BareForms::forms))]
pub(crate) fn write_stmts(out: &mut Writer, statements: &[StmtTree]) -> Result<(), AllocError>
    ensures { OnOk result (Writes out.old out.new (canon.stmts (bare_stmts statements.now))) }
{
    let [first, more @ ..] = statements else {
        return Ok(());
    };
    write_stmt(out, first)?;
    for statement in more {
        out.sign(Fixed::Semicolon)?;
        write_stmt(out, statement)?;
    }
    Ok(())
}

/// Statements in round brackets.
#[cycle(write_stmts)]
#[tactic(auto, using(hc_ast::proofs::BareForms::forms))]
fn write_group(out: &mut Writer, statements: &[StmtTree]) -> Result<(), AllocError>
    ensures { OnOk result (Writes out.old out.new (λ w.
        fixed Fixed.OpenRound ∷ canon.stmts (bare_stmts statements.now) (fixed Fixed.CloseRound ∷ w))) }
{
    out.sign(Fixed::OpenRound)?;
    write_stmts(out, statements)?;
    out.sign(Fixed::CloseRound)
}

/// A choice between branches.
#[cycle(write_stmts)]
#[tactic(auto, using(hc_ast::proofs::BareForms::forms))]
fn write_choice(out: &mut Writer, branches: &[BranchTree]) -> Result<(), AllocError>
    ensures { OnOk result (Writes out.old out.new (λ w.
        fixed Fixed.EmptySquare ∷ fixed Fixed.OpenRound
        ∷ canon.branches (bare_branches branches.now) (fixed Fixed.CloseRound ∷ w))) }
{
    out.sign(Fixed::EmptySquare)?;
    out.sign(Fixed::OpenRound)?;
    write_branches(out, branches)?;
    out.sign(Fixed::CloseRound)
}

/// What may end an evolution.
#[cycle(write_stmts)]
#[tactic(auto, using(hc_ast::proofs::BareForms::forms))]
fn write_interrupt(out: &mut Writer, branches: &[BranchTree]) -> Result<(), AllocError>
    ensures { OnOk result (Writes out.old out.new (canon.interrupt (bare_branches branches.now))) }
{
    if branches.is_empty() {
        return Ok(());
    }
    out.sign(Fixed::BarGreater)?;
    write_choice(out, branches)
}

/// Branches with commas between them.
#[cycle(write_stmts)]
#[tactic(auto, using(hc_ast::proofs::BareForms::forms))]
fn write_branches(out: &mut Writer, branches: &[BranchTree]) -> Result<(), AllocError>
    ensures { OnOk result (Writes out.old out.new (canon.branches (bare_branches branches.now))) }
{
    let [first, more @ ..] = branches else {
        return Ok(());
    };
    write_branch(out, first)?;
    for branch in more {
        out.sign(Fixed::Comma)?;
        write_branch(out, branch)?;
    }
    Ok(())
}

#[cycle(write_stmts)]
#[tactic(auto, using(hc_ast::proofs::BareForms::forms))]
fn write_branch(out: &mut Writer, branch: &BranchTree) -> Result<(), AllocError>
    ensures { OnOk result (Writes out.old out.new (λ w.
        canon.io (bare_branch branch.now).0 (fixed Fixed.Arrow ∷ canon.stmts (bare_branch branch.now).1 w))) }
{
    write_io(out, &branch.io)?;
    out.sign(Fixed::Arrow)?;
    write_stmts(out, branch.body.as_slice())
}
