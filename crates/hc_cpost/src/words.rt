//! Expressions and statements by short words.

ghost use Rattle.std.specs.Prelude.{◌≡◌, ◌∷◌, ◌++◌, [], true, IfOk};
ghost use Rattle.hc_cbuild.specs.Names.{is_name};
ghost use Rattle.hc_cbuild.specs.Written as spec;
ghost use Rattle.hc_cast.specs.declared.expr.CExpr.TheVariants.{Binary};
ghost use Rattle.hc_cast.specs.declared.stmt.CStmt.TheVariants as form;

use crate::names::word;
use hc_cast::{CExpr, COp, CStmt};
use hc_list::{Boxed, List};
use std::alloc::{AllocError, Global};

pub fn number(n: u32) -> CExpr
    ensures { result ≡ spec.number n }
{
    CExpr::Number(i64::from(n))
}

pub fn local(name: &[u8]) -> CExpr
    requires { is_name name.now ≡ true }
    ensures { result ≡ spec.local name.now }
{
    CExpr::Local(word(name))
}

pub fn elem(alloc: Global, array: &[u8], index: CExpr) -> Result<CExpr, AllocError>
    requires { is_name array.now ≡ true }
    ensures { IfOk result (λ e. e ≡ spec.element array.now index) }
{
    let index = Boxed::new(alloc, index)?;
    Ok(CExpr::Element(word(array), index))
}

pub fn first_of(alloc: Global, array: &[u8]) -> Result<CExpr, AllocError>
    requires { is_name array.now ≡ true }
    ensures { IfOk result (λ e. e ≡ spec.first_of array.now) }
{
    elem(alloc, array, number(0))
}

pub fn binary(alloc: Global, op: COp, left: CExpr, right: CExpr) -> Result<CExpr, AllocError>
    ensures { IfOk result (λ e. e ≡ Binary op left right) }
{
    let left = Boxed::new(alloc, left)?;
    let right = Boxed::new(alloc, right)?;
    Ok(CExpr::Binary(op, left, right))
}

pub fn less(alloc: Global, a: CExpr, b: CExpr) -> Result<CExpr, AllocError>
    ensures { IfOk result (λ e. e ≡ spec.less a b) }
{
    binary(alloc, COp::Less, a, b)
}

pub fn same(alloc: Global, a: CExpr, b: CExpr) -> Result<CExpr, AllocError>
    ensures { IfOk result (λ e. e ≡ spec.equals a b) }
{
    binary(alloc, COp::Equal, a, b)
}

pub fn both(alloc: Global, a: CExpr, b: CExpr) -> Result<CExpr, AllocError>
    ensures { IfOk result (λ e. e ≡ spec.both a b) }
{
    binary(alloc, COp::And, a, b)
}

pub fn either(alloc: Global, a: CExpr, b: CExpr) -> Result<CExpr, AllocError>
    ensures { IfOk result (λ e. e ≡ spec.either a b) }
{
    binary(alloc, COp::Or, a, b)
}

pub fn some(alloc: Global, a: CExpr) -> Result<CExpr, AllocError>
    ensures { IfOk result (λ e. e ≡ spec.above_zero a) }
{
    less(alloc, number(0), a)
}

pub fn set(name: &[u8], value: CExpr) -> CStmt
    requires { is_name name.now ≡ true }
    ensures { result ≡ form.Set name.now value }
{
    CStmt::Set {
        local: word(name),
        value,
    }
}

pub fn store(array: &[u8], index: CExpr, value: CExpr) -> CStmt
    requires { is_name array.now ≡ true }
    ensures { result ≡ form.Store array.now index value }
{
    CStmt::Store {
        array: word(array),
        index,
        value,
    }
}

pub fn calls(what: &[u8], arguments: List<CExpr>) -> CStmt
    requires { is_name what.now ≡ true }
    ensures { result ≡ spec.call what.now arguments }
{
    CStmt::Call {
        result: None,
        callee: word(what),
        arguments,
    }
}

pub fn takes(name: &[u8], what: &[u8], arguments: List<CExpr>) -> CStmt
    requires name { is_name name.now ≡ true }
    requires what { is_name what.now ≡ true }
    ensures { result ≡ spec.take_call name.now what.now arguments }
{
    CStmt::Call {
        result: Some(word(name)),
        callee: word(what),
        arguments,
    }
}

pub fn when(test: CExpr, yes: List<CStmt>) -> CStmt
    ensures { result ≡ spec.if_then test yes }
{
    CStmt::If {
        test,
        yes,
        no: None,
    }
}

pub fn when_else(test: CExpr, yes: List<CStmt>, no: List<CStmt>) -> CStmt
    ensures { result ≡ spec.if_else test yes no }
{
    CStmt::If {
        test,
        yes,
        no: Some(no),
    }
}
