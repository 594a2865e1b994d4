//! Statements and functions, out of parts that may have met want of memory.

ghost use Rattle.std.specs.Prelude.{◌≡◌, true, List};
ghost use Rattle.hc_cbuild.specs.Names.{is_name};
ghost use Rattle.hc_cbuild.specs.Written as spec;
ghost use Rattle.hc_cmach.specs.State.{Word};
ghost use Rattle.hc_cast.specs.declared.expr.CExpr.{CExpr};
ghost use Rattle.hc_cast.specs.declared.stmt.CStmt.{CStmt};
ghost use Rattle.hc_cast.specs.declared.stmt.CStmt.TheVariants as form;
ghost use Rattle.hc_cbuild.specs.Makes.{Makes};

use crate::expr::{binary, local, number};
use hc_cast::{CBody, CExpr, CFunction, COp, CStmt};
use hc_cbuild::word;
use hc_frac::Name;
use hc_list::List;
use std::alloc::{AllocError, Global};

/// A local becomes a value.
pub fn set(name: &[u8], value: Result<CExpr, AllocError>) -> Result<CStmt, AllocError>
    requires { is_name name.now ≡ true }
    ensures { (v : CExpr) → Makes value v → Makes result (form.Set name.now v) }
{
    let value = value?;
    Ok(CStmt::Set {
        local: word(name),
        value,
    })
}

/// An element becomes a value.
pub fn store(
    array: &[u8],
    index: Result<CExpr, AllocError>,
    value: Result<CExpr, AllocError>,
) -> Result<CStmt, AllocError>
    requires { is_name array.now ≡ true }
    ensures { (i : CExpr) (v : CExpr) → Makes index i → Makes value v → Makes result (form.Store array.now i v) }
{
    let index = index?;
    let value = value?;
    Ok(CStmt::Store {
        array: word(array),
        index,
        value,
    })
}

/// A call whose result, if any, is left.
pub fn calls(what: &[u8], arguments: Result<List<CExpr>, AllocError>) -> Result<CStmt, AllocError>
    requires { is_name what.now ≡ true }
    ensures { (es : List CExpr) → Makes arguments es → Makes result (spec.call what.now es) }
{
    let arguments = arguments?;
    Ok(CStmt::Call {
        result: None,
        callee: word(what),
        arguments,
    })
}

/// A call whose result a local takes.
pub fn takes(
    name: &[u8],
    what: &[u8],
    arguments: Result<List<CExpr>, AllocError>,
) -> Result<CStmt, AllocError>
    requires name { is_name name.now ≡ true }
    requires what { is_name what.now ≡ true }
    ensures { (es : List CExpr) → Makes arguments es → Makes result (spec.take_call name.now what.now es) }
{
    let arguments = arguments?;
    Ok(CStmt::Call {
        result: Some(word(name)),
        callee: word(what),
        arguments,
    })
}

/// Statements where a test holds.
pub fn when(
    test: Result<CExpr, AllocError>,
    yes: Result<List<CStmt>, AllocError>,
) -> Result<CStmt, AllocError>
    ensures { (t : CExpr) (ss : List CStmt) → Makes test t → Makes yes ss → Makes result (spec.if_then t ss) }
{
    let test = test?;
    let yes = yes?;
    Ok(CStmt::If {
        test,
        yes,
        no: None,
    })
}

/// Statements where a test holds, and others where it doesn't.
pub fn when_else(
    test: Result<CExpr, AllocError>,
    yes: Result<List<CStmt>, AllocError>,
    no: Result<List<CStmt>, AllocError>,
) -> Result<CStmt, AllocError>
    ensures { (t : CExpr) (ss : List CStmt) (rs : List CStmt) → Makes test t → Makes yes ss → Makes no rs → Makes result (spec.if_else t ss rs) }
{
    let test = test?;
    let yes = yes?;
    let no = no?;
    Ok(CStmt::If {
        test,
        yes,
        no: Some(no),
    })
}

/// A round's last statement: a local counts on.
pub fn counts_up(alloc: Global, name: &[u8]) -> Result<CStmt, AllocError>
    requires { is_name name.now ≡ true }
    ensures { Makes result (spec.count_up name.now) }
{
    set(name, binary(alloc, COp::Add, local(name), number(1)))
}

/// Rounds for as long as a local is below a number.
pub fn counted(
    alloc: Global,
    name: &[u8],
    n: u32,
    round: Result<List<CStmt>, AllocError>,
) -> Result<CStmt, AllocError>
    requires { is_name name.now ≡ true }
    ensures { (ss : List CStmt) → Makes round ss → Makes result (form.While (spec.less (spec.local name.now) (spec.number n)) ss) }
{
    let test = binary(alloc, COp::Less, local(name), number(n))?;
    let body = round?;
    Ok(CStmt::While { test, body })
}

/// A function's result.
pub fn gives_back(value: Result<CExpr, AllocError>) -> Result<CStmt, AllocError>
    ensures { (v : CExpr) → Makes value v → Makes result (spec.return_value v) }
{
    let value = value?;
    Ok(CStmt::Return { value: Some(value) })
}

/// A function that gives nothing.
pub fn does(
    name: &[u8],
    params: Result<List<Name>, AllocError>,
    locals: Result<List<Name>, AllocError>,
    statements: Result<List<CStmt>, AllocError>,
) -> Result<CFunction, AllocError>
    requires { is_name name.now ≡ true }
    ensures { (ps : List Word) (ls : List Word) (ss : List CStmt) → Makes params ps → Makes locals ls → Makes statements ss → Makes result (spec.procedure name.now ps ls ss) }
{
    let params = params?;
    let locals = locals?;
    let statements = statements?;
    Ok(CFunction {
        name: word(name),
        gives: false,
        params,
        body: CBody { locals, statements },
    })
}

/// A function that gives an int.
pub fn answers(
    name: &[u8],
    params: Result<List<Name>, AllocError>,
    locals: Result<List<Name>, AllocError>,
    statements: Result<List<CStmt>, AllocError>,
) -> Result<CFunction, AllocError>
    requires { is_name name.now ≡ true }
    ensures { (ps : List Word) (ls : List Word) (ss : List CStmt) → Makes params ps → Makes locals ls → Makes statements ss → Makes result (spec.function name.now ps ls ss) }
{
    let params = params?;
    let locals = locals?;
    let statements = statements?;
    Ok(CFunction {
        name: word(name),
        gives: true,
        params,
        body: CBody { locals, statements },
    })
}
