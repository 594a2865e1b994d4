//! Statements.

ghost use Rattle.std.specs.Prelude.{◌≡◌, ◌∷◌, [], true};
ghost use Rattle.hc_cast.specs.declared.stmt.CStmt.TheVariants.{Switch};
ghost use Rattle.hc_clogic.specs.Cases as cases;
ghost use Rattle.hc_cbuild.specs.Names.{is_name};
ghost use Rattle.hc_cbuild.specs.Makes.{Makes};
ghost use Rattle.hc_cbuild.specs.Written as spec;

use crate::expressions::{less, local, number, sum};
use crate::names::word;
use hc_cast::{CCase, CExpr, CStmt, Primitive};
use hc_list::List;
use std::alloc::{AllocError, Global};

/// `name = value;`
pub fn set(name: &[u8], value: CExpr) -> CStmt
    requires { is_name name.now ≡ true }
    ensures { result ≡ spec.set name.now value }
{
    CStmt::Set {
        local: word(name),
        value,
    }
}

/// `name = n;`
pub fn set_number(name: &[u8], n: u32) -> CStmt
    requires { is_name name.now ≡ true }
    ensures { result ≡ spec.set_number name.now n }
{
    set(name, number(n))
}

/// `array[index] = value;`
pub fn store(array: &[u8], index: CExpr, value: CExpr) -> CStmt
    requires { is_name array.now ≡ true }
    ensures { result ≡ spec.store array.now index value }
{
    CStmt::Store {
        array: word(array),
        index,
        value,
    }
}

/// A call whose result, if there is one, no local takes.
pub fn call(callee: &[u8], arguments: List<CExpr>) -> CStmt
    requires { is_name callee.now ≡ true }
    ensures { result ≡ spec.call callee.now arguments }
{
    CStmt::Call {
        result: None,
        callee: word(callee),
        arguments,
    }
}

/// A call whose result a local takes.
pub fn take_call(name: &[u8], callee: &[u8], arguments: List<CExpr>) -> CStmt
    requires local { is_name name.now ≡ true }
    requires called { is_name callee.now ≡ true }
    ensures { result ≡ spec.take_call name.now callee.now arguments }
{
    CStmt::Call {
        result: Some(word(name)),
        callee: word(callee),
        arguments,
    }
}

/// A call of a primitive whose result, if there is one, no local takes.
pub fn prim(primitive: Primitive, arguments: List<CExpr>) -> CStmt
    ensures { result ≡ spec.prim primitive arguments }
{
    CStmt::Call {
        result: None,
        callee: primitive.name(),
        arguments,
    }
}

/// A call of a primitive whose result a local takes.
pub fn take_prim(name: &[u8], primitive: Primitive, arguments: List<CExpr>) -> CStmt
    requires { is_name name.now ≡ true }
    ensures { result ≡ spec.take_prim name.now primitive arguments }
{
    CStmt::Call {
        result: Some(word(name)),
        callee: primitive.name(),
        arguments,
    }
}

/// Statements that are done where a test holds.
pub fn if_then(test: CExpr, yes: List<CStmt>) -> CStmt
    ensures { result ≡ spec.if_then test yes }
{
    CStmt::If {
        test,
        yes,
        no: None,
    }
}

/// Statements that are done where a test holds, and others where it doesn't.
pub fn if_else(test: CExpr, yes: List<CStmt>, no: List<CStmt>) -> CStmt
    ensures { result ≡ spec.if_else test yes no }
{
    CStmt::If {
        test,
        yes,
        no: Some(no),
    }
}

/// Statements that are done as long as a test holds.
pub fn while_do(test: CExpr, body: List<CStmt>) -> CStmt
    ensures { result ≡ spec.while_do test body }
{
    CStmt::While { test, body }
}

/// `name = name + 1;`
pub fn count_up(alloc: Global, name: &[u8]) -> Result<CStmt, AllocError>
    requires { is_name name.now ≡ true }
    ensures { Makes result (spec.count_up name.now) }
{
    let next = sum(alloc, local(name), number(1))?;
    Ok(set(name, next))
}

/// A local counts on to `n`, with these statements for each number before.
pub fn count_to(
    alloc: Global,
    name: &[u8],
    n: u32,
    statements: List<CStmt>,
) -> Result<CStmt, AllocError>
    requires { is_name name.now ≡ true }
    ensures { Makes result (spec.count_to name.now n statements) }
{
    let test = less(alloc, local(name), number(n))?;
    let mut round = statements;
    round.push(count_up(alloc, name)?)?;
    Ok(while_do(test, round))
}

/// The case of a number, which ends by `break`.
pub fn case_of(n: u32, body: List<CStmt>) -> CCase
    ensures { result ≡ cases.case_of n body }
{
    CCase {
        number: i64::from(n),
        body,
    }
}

/// The first of the cases that has the number `on`, or else other statements.
pub fn switch(on: CExpr, cases: List<CCase>, otherwise: List<CStmt>) -> CStmt
    ensures { result ≡ Switch on cases otherwise }
{
    CStmt::Switch {
        on,
        cases,
        otherwise,
    }
}

/// `return value;`
pub fn return_value(value: CExpr) -> CStmt
    ensures { result ≡ spec.return_value value }
{
    CStmt::Return { value: Some(value) }
}

/// `return 0;`
pub fn return_zero() -> CStmt
    ensures { result ≡ spec.return_zero }
{
    return_value(number(0))
}

/// One statement, as a list.
pub fn single(alloc: Global, statement: CStmt) -> Result<List<CStmt>, AllocError>
    ensures { Makes result (statement ∷ []) }
{
    let mut found = List::new(alloc);
    found.push(statement)?;
    Ok(found)
}
