//! Parts of a program.

ghost use Rattle.std.specs.Prelude.{◌≡◌, true};
ghost use Rattle.hc_cbuild.specs.Names.{is_name};
ghost use Rattle.hc_cbuild.specs.Written as spec;

use crate::names::word;
use hc_cast::{CArray, CBody, CFunction, CStmt};
use hc_frac::Name;
use hc_list::List;

/// An array of so many ints.
pub fn array(name: &[u8], length: u32) -> CArray
    requires { is_name name.now ≡ true }
    ensures { result ≡ spec.array name.now length }
{
    CArray {
        name: word(name),
        length,
    }
}

/// Locals, and statements.
pub fn body(locals: List<Name>, statements: List<CStmt>) -> CBody
    ensures { result ≡ spec.body locals statements }
{
    CBody { locals, statements }
}

/// A function that gives nothing.
pub fn procedure(
    name: &[u8],
    params: List<Name>,
    locals: List<Name>,
    statements: List<CStmt>,
) -> CFunction
    requires { is_name name.now ≡ true }
    ensures { result ≡ spec.procedure name.now params locals statements }
{
    CFunction {
        name: word(name),
        gives: false,
        params,
        body: body(locals, statements),
    }
}

/// A function that gives an int.
pub fn function(
    name: &[u8],
    params: List<Name>,
    locals: List<Name>,
    statements: List<CStmt>,
) -> CFunction
    requires { is_name name.now ≡ true }
    ensures { result ≡ spec.function name.now params locals statements }
{
    CFunction {
        name: word(name),
        gives: true,
        params,
        body: body(locals, statements),
    }
}
