//! Programs spelled out with all brackets, so that two are the same where their spellings are.

use hc_cast::{CBody, CCase, CExpr, CProgram, CStmt};
use hc_frac::Name;
use std::alloc::{AllocError, Global};

/// A name, and a blank.
fn show_name(out: &mut String, name: &Name) -> Result<(), AllocError> {
    out.push_str(name.text())?;
    out.push(' ')
}

fn show_names(out: &mut String, names: &[Name]) -> Result<(), AllocError> {
    out.push('[')?;
    for name in names {
        show_name(out, name)?;
    }
    out.push(']')
}

fn show_number(alloc: Global, out: &mut String, number: i64) -> Result<(), AllocError> {
    out.push_str(format!(in alloc; "{number} ")?.as_str())
}

#[cycle(exprs)]
fn show_expr(alloc: Global, out: &mut String, expr: &CExpr) -> Result<(), AllocError> {
    match expr {
        CExpr::Number(number) => show_number(alloc, out, *number),
        CExpr::Local(name) => show_name(out, name),
        CExpr::Element(array, index) => {
            show_name(out, array)?;
            show_part(alloc, out, "at", index.get())
        }
        CExpr::Neg(part) => show_part(alloc, out, "minus", part.get()),
        CExpr::Not(part) => show_part(alloc, out, "not", part.get()),
        CExpr::Binary(op, left, right) => {
            out.push_str(format!(in alloc; "{op:?}")?.as_str())?;
            show_part(alloc, out, "", left.get())?;
            show_part(alloc, out, "", right.get())
        }
    }
}

/// A part of an expression, in brackets.
#[cycle(exprs)]
fn show_part(
    alloc: Global,
    out: &mut String,
    before: &str,
    part: &CExpr,
) -> Result<(), AllocError> {
    out.push_str(before)?;
    out.push('(')?;
    show_expr(alloc, out, part)?;
    out.push(')')
}

fn show_exprs(alloc: Global, out: &mut String, exprs: &[CExpr]) -> Result<(), AllocError> {
    for expr in exprs {
        show_part(alloc, out, "", expr)?;
    }
    Ok(())
}

#[cycle(stmts)]
fn show_stmt(alloc: Global, out: &mut String, stmt: &CStmt) -> Result<(), AllocError> {
    match stmt {
        CStmt::Set { local, value } => {
            show_name(out, local)?;
            show_part(alloc, out, "set", value)
        }
        CStmt::Store {
            array,
            index,
            value,
        } => {
            show_name(out, array)?;
            show_part(alloc, out, "store", index)?;
            show_part(alloc, out, "", value)
        }
        CStmt::Call {
            result,
            callee,
            arguments,
        } => {
            if let Some(local) = result {
                show_name(out, local)?;
            }
            out.push_str("call ")?;
            show_name(out, callee)?;
            show_exprs(alloc, out, arguments.as_slice())
        }
        CStmt::If {
            test,
            yes,
            no: None,
        } => {
            show_part(alloc, out, "if", test)?;
            show_stmts(alloc, out, yes.as_slice())
        }
        CStmt::If {
            test,
            yes,
            no: Some(no),
        } => {
            show_part(alloc, out, "if", test)?;
            show_stmts(alloc, out, yes.as_slice())?;
            out.push_str("else")?;
            show_stmts(alloc, out, no.as_slice())
        }
        CStmt::While { test, body } => {
            show_part(alloc, out, "while", test)?;
            show_stmts(alloc, out, body.as_slice())
        }
        CStmt::Switch {
            on,
            cases,
            otherwise,
        } => {
            show_part(alloc, out, "switch", on)?;
            show_cases(alloc, out, cases.as_slice())?;
            show_stmts(alloc, out, otherwise.as_slice())
        }
        CStmt::Return { value: None } => out.push_str("return"),
        CStmt::Return { value: Some(value) } => show_part(alloc, out, "return", value),
    }
}

#[cycle(stmts)]
fn show_cases(alloc: Global, out: &mut String, cases: &[CCase]) -> Result<(), AllocError> {
    for case in cases {
        show_number(alloc, out, case.number)?;
        show_stmts(alloc, out, case.body.as_slice())?;
    }
    Ok(())
}

#[cycle(stmts)]
fn show_stmts(alloc: Global, out: &mut String, stmts: &[CStmt]) -> Result<(), AllocError> {
    out.push('{')?;
    for stmt in stmts {
        show_stmt(alloc, out, stmt)?;
        out.push(';')?;
    }
    out.push('}')
}

fn show_body(alloc: Global, out: &mut String, body: &CBody) -> Result<(), AllocError> {
    show_names(out, body.locals.as_slice())?;
    show_stmts(alloc, out, body.statements.as_slice())
}

/// A whole program.
pub(crate) fn shown(alloc: Global, program: &CProgram) -> Result<String, AllocError> {
    let mut out = String::new(alloc);
    for array in program.arrays.as_slice() {
        show_name(&mut out, &array.name)?;
        show_number(alloc, &mut out, i64::from(array.length))?;
    }
    show_names(&mut out, program.channels.as_slice())?;
    show_names(&mut out, program.processes.as_slice())?;
    for function in program.functions.as_slice() {
        show_name(&mut out, &function.name)?;
        out.push(if function.gives { '+' } else { '-' })?;
        show_names(&mut out, function.params.as_slice())?;
        show_body(alloc, &mut out, &function.body)?;
    }
    for thread in program.threads.as_slice() {
        show_body(alloc, &mut out, thread)?;
    }
    Ok(out)
}
