//! Statements.

ghost use Rattle.std.specs.Prelude.{◌≡◌, ◌∷◌, OnOk, map};
ghost use Rattle.hc_ctoken.specs.declared.token.Lexeme.TheVariants as lex;
ghost use Rattle.hc_cspell.specs.declared.level.Level.TheVariants as at;
ghost use Rattle.hc_cspell.specs.Tokens.{fixed};
ghost use Rattle.hc_cspell.specs.Appends.{Writes};
ghost use Rattle.hc_cspell.specs.Exprs.{expr};
ghost use Rattle.hc_cspell.specs.Stmts as canon;

use crate::expr::write_expr;
use crate::level::Level;
use crate::writer::Writer;
use hc_cast::{CCase, CExpr, CStmt};
use hc_ctoken::Fixed;
use hc_frac::Name;
use std::alloc::{AllocError, Global};

/// Arguments with commas between them.
fn write_arguments(out: &mut Writer, arguments: &[CExpr]) -> Result<(), AllocError>
    ensures { OnOk result (Writes out.old out.new (canon.arguments arguments.now)) }
{
    let [first, more @ ..] = arguments else {
        return Ok(());
    };
    write_expr(out, first, Level::Or)?;
    for argument in more {
        out.sign(Fixed::Comma)?;
        write_expr(out, argument, Level::Or)?;
    }
    Ok(())
}

/// A call up to its last bracket.
fn write_call(out: &mut Writer, callee: &Name, arguments: &[CExpr]) -> Result<(), AllocError>
    ensures { OnOk result (Writes out.old out.new (canon.call callee.now arguments.now)) }
{
    out.callee(callee)?;
    out.sign(Fixed::OpenRound)?;
    write_arguments(out, arguments)?;
    out.sign(Fixed::CloseRound)
}

/// The local that takes a call's result, if one does.
fn write_taken(out: &mut Writer, local: &Option<Name>) -> Result<(), AllocError>
    ensures { OnOk result (Writes out.old out.new (canon.taken_by local.now)) }
{
    match local {
        Some(local) => {
            out.local(local)?;
            out.sign(Fixed::Equal)
        }
        None => Ok(()),
    }
}

/// A value that is given back, if one is.
fn write_value(out: &mut Writer, value: &Option<CExpr>) -> Result<(), AllocError>
    ensures { OnOk result (Writes out.old out.new (canon.value value.now)) }
{
    match value {
        Some(value) => write_expr(out, value, Level::Or),
        None => Ok(()),
    }
}

/// A value and the semicolon behind it.
fn write_end(out: &mut Writer, value: &CExpr) -> Result<(), AllocError>
    ensures { OnOk result (Writes out.old out.new (λ w. expr value.now at.Or (fixed Fixed.Semicolon ∷ w))) }
{
    write_expr(out, value, Level::Or)?;
    out.sign(Fixed::Semicolon)
}

/// A word and an expression in round brackets.
fn write_test(out: &mut Writer, word: Fixed, test: &CExpr) -> Result<(), AllocError>
    ensures { OnOk result (Writes out.old out.new (λ w.
        fixed word ∷ fixed Fixed.OpenRound ∷ expr test.now at.Or (fixed Fixed.CloseRound ∷ w))) }
{
    out.sign(word)?;
    out.sign(Fixed::OpenRound)?;
    write_expr(out, test, Level::Or)?;
    out.sign(Fixed::CloseRound)
}

/// A local that becomes a value.
fn write_set(out: &mut Writer, local: &Name, value: &CExpr) -> Result<(), AllocError>
    ensures { OnOk result (Writes out.old out.new (λ w.
        lex.Local local.now ∷ fixed Fixed.Equal ∷ expr value.now at.Or (fixed Fixed.Semicolon ∷ w))) }
{
    out.local(local)?;
    out.sign(Fixed::Equal)?;
    write_end(out, value)
}

/// A call whose result a local may take.
fn write_do(
    out: &mut Writer,
    local: &Option<Name>,
    callee: &Name,
    arguments: &[CExpr],
) -> Result<(), AllocError>
    ensures { OnOk result (Writes out.old out.new (λ w.
        canon.taken_by local.now (canon.call callee.now arguments.now (fixed Fixed.Semicolon ∷ w)))) }
{
    write_taken(out, local)?;
    write_call(out, callee, arguments)?;
    out.sign(Fixed::Semicolon)
}

/// A `return`, with a value or without one.
fn write_return(out: &mut Writer, value: &Option<CExpr>) -> Result<(), AllocError>
    ensures { OnOk result (Writes out.old out.new (λ w.
        fixed Fixed.Return ∷ canon.value value.now (fixed Fixed.Semicolon ∷ w))) }
{
    out.sign(Fixed::Return)?;
    write_value(out, value)?;
    out.sign(Fixed::Semicolon)
}

/// An element of an array that becomes a value.
fn write_store(
    out: &mut Writer,
    array: &Name,
    index: &CExpr,
    value: &CExpr,
) -> Result<(), AllocError>
    ensures { OnOk result (Writes out.old out.new (λ w.
        lex.Array array.now ∷ fixed Fixed.OpenSquare
        ∷ expr index.now at.Or (fixed Fixed.CloseSquare ∷ fixed Fixed.Equal ∷ expr value.now at.Or (fixed Fixed.Semicolon ∷ w)))) }
{
    out.array(array)?;
    out.sign(Fixed::OpenSquare)?;
    write_expr(out, index, Level::Or)?;
    out.sign(Fixed::CloseSquare)?;
    out.sign(Fixed::Equal)?;
    write_end(out, value)
}

/// A `break` and the semicolon behind it.
fn write_break(out: &mut Writer) -> Result<(), AllocError>
    ensures { OnOk result (Writes out.old out.new (λ w. fixed Fixed.Break ∷ fixed Fixed.Semicolon ∷ w)) }
{
    out.sign(Fixed::Break)?;
    out.sign(Fixed::Semicolon)
}

/// A statement.
#[cycle(write_stmts)]
#[tactic(auto, using(crate::proofs::StmtForms::forms))]
fn write_stmt(out: &mut Writer, statement: &CStmt) -> Result<(), AllocError>
    ensures { OnOk result (Writes out.old out.new (canon.stmt statement.now)) }
{
    match statement {
        CStmt::Set { local, value } => write_set(out, local, value),
        CStmt::Store {
            array,
            index,
            value,
        } => write_store(out, array, index, value),
        CStmt::Call {
            result,
            callee,
            arguments,
        } => write_do(out, result, callee, arguments.as_slice()),
        CStmt::If { test, yes, no } => {
            write_test(out, Fixed::If, test)?;
            write_block(out, yes.as_slice())?;
            match no {
                Some(no) => {
                    out.sign(Fixed::Else)?;
                    write_block(out, no.as_slice())
                }
                None => Ok(()),
            }
        }
        CStmt::While { test, body } => {
            write_test(out, Fixed::While, test)?;
            write_block(out, body.as_slice())
        }
        CStmt::Switch {
            on,
            cases,
            otherwise,
        } => {
            write_test(out, Fixed::Switch, on)?;
            out.sign(Fixed::OpenCurly)?;
            write_cases(out, cases.as_slice())?;
            write_default(out, otherwise.as_slice())
        }
        CStmt::Return { value } => write_return(out, value),
    }
}

/// Statements, one after another.
#[cycle(write_stmts)]
pub(crate) fn write_stmts(out: &mut Writer, statements: &[CStmt]) -> Result<(), AllocError>
    ensures { OnOk result (Writes out.old out.new (canon.stmts statements.now)) }
{
    for statement in statements {
        write_stmt(out, statement)?;
    }
    Ok(())
}

/// Statements in curly brackets.
#[cycle(write_stmts)]
fn write_block(out: &mut Writer, statements: &[CStmt]) -> Result<(), AllocError>
    ensures { OnOk result (Writes out.old out.new (canon.block (map canon.stmt statements.now))) }
{
    out.sign(Fixed::OpenCurly)?;
    write_stmts(out, statements)?;
    out.sign(Fixed::CloseCurly)
}

/// What is done in no case, and the end of a `switch`.
#[cycle(write_stmts)]
fn write_default(out: &mut Writer, statements: &[CStmt]) -> Result<(), AllocError>
    ensures { OnOk result (Writes out.old out.new (λ w.
        fixed Fixed.Default ∷ fixed Fixed.Colon
        ∷ canon.block (map canon.stmt statements.now) (fixed Fixed.Break ∷ fixed Fixed.Semicolon ∷ fixed Fixed.CloseCurly ∷ w))) }
{
    out.sign(Fixed::Default)?;
    out.sign(Fixed::Colon)?;
    write_block(out, statements)?;
    write_break(out)?;
    out.sign(Fixed::CloseCurly)
}

/// The cases of a `switch`, one after another.
#[cycle(write_stmts)]
fn write_cases(out: &mut Writer, cases: &[CCase]) -> Result<(), AllocError>
    ensures { OnOk result (Writes out.old out.new (canon.cases cases.now)) }
{
    for case in cases {
        write_case(out, case)?;
    }
    Ok(())
}

#[cycle(write_stmts)]
#[tactic(auto, using(crate::proofs::StmtForms::forms))]
fn write_case(out: &mut Writer, case: &CCase) -> Result<(), AllocError>
    ensures { OnOk result (Writes out.old out.new (canon.a_case case.now)) }
{
    out.sign(Fixed::Case)?;
    out.number(&case.number)?;
    out.sign(Fixed::Colon)?;
    write_block(out, case.body.as_slice())?;
    write_break(out)
}
