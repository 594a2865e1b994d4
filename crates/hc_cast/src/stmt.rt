//! Statements.

ghost use Rattle.std.specs.Prelude.{◌≡◌, IfOk};

use crate::CExpr;
use hc_frac::Name;
use hc_list::List;
use std::alloc::{AllocError, Global};

/// A statement.
#[derive(Drop)]
#[cycle(stmt)]
pub enum CStmt {
    /// A local becomes a value.
    Set {
        local: Name,
        value: CExpr,
    },
    /// An element of an array becomes a value.
    Store {
        array: Name,
        index: CExpr,
        value: CExpr,
    },
    /// A call of a function or a primitive, whose result a local may take.
    Call {
        result: Option<Name>,
        callee: Name,
        arguments: List<CExpr>,
    },
    If {
        test: CExpr,
        yes: List<CStmt>,
        no: Option<List<CStmt>>,
    },
    While {
        test: CExpr,
        body: List<CStmt>,
    },
    /// Each case ends by a `break`.
    Switch {
        on: CExpr,
        cases: List<CCase>,
        otherwise: List<CStmt>,
    },
    Return {
        value: Option<CExpr>,
    },
}

/// A case of a `switch`.
#[derive(Drop)]
#[cycle(stmt)]
pub struct CCase {
    pub number: i64,
    pub body: List<CStmt>,
}

/// Equal expressions, in their order.
fn copy_arguments(alloc: Global, arguments: &[CExpr]) -> Result<List<CExpr>, AllocError>
    ensures { IfOk result (λ found. found ≡ arguments.now) }
{
    let mut found = List::new(alloc);
    for argument in arguments {
        found.push(argument.copy(alloc)?)?;
    }
    Ok(found)
}

fn copy_result(local: &Option<Name>) -> Option<Name>
    ensures { result ≡ local.now }
{
    match local {
        Some(local) => Some(local.copy()),
        None => None,
    }
}

impl CStmt {
    /// An equal statement.
    #[cycle(stmt_copies)]
    pub fn copy(&self, alloc: Global) -> Result<CStmt, AllocError>
        ensures { IfOk result (λ t. t ≡ self.now) }
    {
        match self {
            CStmt::Set { local, value } => {
                let value = value.copy(alloc)?;
                Ok(CStmt::Set {
                    local: local.copy(),
                    value,
                })
            }
            CStmt::Store {
                array,
                index,
                value,
            } => {
                let index = index.copy(alloc)?;
                let value = value.copy(alloc)?;
                Ok(CStmt::Store {
                    array: array.copy(),
                    index,
                    value,
                })
            }
            CStmt::Call {
                result,
                callee,
                arguments,
            } => {
                let arguments = copy_arguments(alloc, arguments.as_slice())?;
                Ok(CStmt::Call {
                    result: copy_result(result),
                    callee: callee.copy(),
                    arguments,
                })
            }
            CStmt::If {
                test,
                yes,
                no: None,
            } => {
                let test = test.copy(alloc)?;
                let yes = copy_statements(alloc, yes.as_slice())?;
                Ok(CStmt::If {
                    test,
                    yes,
                    no: None,
                })
            }
            CStmt::If {
                test,
                yes,
                no: Some(no),
            } => {
                let test = test.copy(alloc)?;
                let yes = copy_statements(alloc, yes.as_slice())?;
                let no = copy_statements(alloc, no.as_slice())?;
                Ok(CStmt::If {
                    test,
                    yes,
                    no: Some(no),
                })
            }
            CStmt::While { test, body } => {
                let test = test.copy(alloc)?;
                let body = copy_statements(alloc, body.as_slice())?;
                Ok(CStmt::While { test, body })
            }
            CStmt::Switch {
                on,
                cases,
                otherwise,
            } => {
                let on = on.copy(alloc)?;
                let cases = copy_cases(alloc, cases.as_slice())?;
                let otherwise = copy_statements(alloc, otherwise.as_slice())?;
                Ok(CStmt::Switch {
                    on,
                    cases,
                    otherwise,
                })
            }
            CStmt::Return { value: None } => Ok(CStmt::Return { value: None }),
            CStmt::Return { value: Some(value) } => {
                let value = value.copy(alloc)?;
                Ok(CStmt::Return { value: Some(value) })
            }
        }
    }
}

impl CCase {
    /// An equal case.
    #[cycle(stmt_copies)]
    pub fn copy(&self, alloc: Global) -> Result<CCase, AllocError>
        ensures { IfOk result (λ t. t ≡ self.now) }
    {
        let body = copy_statements(alloc, self.body.as_slice())?;
        Ok(CCase {
            number: self.number,
            body,
        })
    }
}

/// Equal statements, in their order.
#[cycle(stmt_copies)]
pub(crate) fn copy_statements(
    alloc: Global,
    statements: &[CStmt],
) -> Result<List<CStmt>, AllocError>
    ensures { IfOk result (λ found. found ≡ statements.now) }
{
    let mut found = List::new(alloc);
    for statement in statements {
        found.push(statement.copy(alloc)?)?;
    }
    Ok(found)
}

#[cycle(stmt_copies)]
fn copy_cases(alloc: Global, cases: &[CCase]) -> Result<List<CCase>, AllocError>
    ensures { IfOk result (λ found. found ≡ cases.now) }
{
    let mut found = List::new(alloc);
    for case in cases {
        found.push(case.copy(alloc)?)?;
    }
    Ok(found)
}
