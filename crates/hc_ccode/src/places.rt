//! The places of names.

ghost use Rattle.std.specs.Prelude.{◌≡◌, ◌<◌, ◌++◌, length, slice_get, IfOk, MatchOption, IfSome, None};
ghost use Rattle.hc_cmach.specs.State.{place_of, array_place, array_length, function_among};

use hc_cast::{CFunction, CProgram};
use hc_frac::Name;
use hc_list::List;
use std::alloc::{AllocError, Global};

/// The place of a name among names: their number where it isn't there.
pub(crate) fn place_in(names: &[Name], name: &Name) -> usize
    ensures { result ≡ place_of name.now names.now }
{
    for (at, one) in names.iter().enumerate() {
        if name == one {
            return at;
        }
    }
    names.len()
}

/// The place of an array among all: their number where it isn't there.
pub(crate) fn array_in(program: &CProgram, name: &Name) -> usize
    ensures { result ≡ array_place program.now name.now }
{
    for (at, array) in program.arrays.as_slice().iter().enumerate() {
        if *name == array.name {
            return at;
        }
    }
    program.arrays.len()
}

/// The length of the array with a name, and 0 where there is none.
pub(crate) fn array_len(program: &CProgram, name: &Name) -> u32
    ensures { result ≡ array_length program.now name.now }
{
    for array in program.arrays.as_slice() {
        if *name == array.name {
            return array.length;
        }
    }
    0
}

/// The place of the first function of a name, if there is one.
pub(crate) fn function_in(functions: &[CFunction], name: &Name) -> Option<usize>
    ensures named { MatchOption result (function_among name.now functions.now ≡ None) (λ at. slice_get functions.now at ≡ function_among name.now functions.now) }
    ensures within { IfSome result (λ at. at < length functions.now) }
{
    for (at, function) in functions.iter().enumerate() {
        if *name == function.name {
            return Some(at);
        }
    }
    None
}

/// The parameters and then the locals.
pub(crate) fn joined(
    alloc: Global,
    params: &[Name],
    locals: &[Name],
) -> Result<List<Name>, AllocError>
    ensures { IfOk result (λ names. names ≡ params.now ++ locals.now) }
{
    let mut names = List::new(alloc);
    for name in params {
        names.push(name.copy())?;
    }
    for name in locals {
        names.push(name.copy())?;
    }
    Ok(names)
}
