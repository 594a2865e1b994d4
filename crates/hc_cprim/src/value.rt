//! What formulas are worth.

ghost use Rattle.std.specs.Prelude.{◌≡◌, ◌≤◌, length, pos, slice_index_or};
ghost use Rattle.hc_cprim.specs.Worth as spec;

use crate::arrays::Arrays;
use crate::ints::{applied, decided, int_of, int_result, is_true};
use crate::numbers::Numbers;
use hc_ccode::Formula;
use hc_cmach::Kind;

/// A local, and 0 where there is none.
fn local_at(values: &[i64], place: usize) -> i64
    ensures { result ≡ slice_index_or values.now place (pos 0) }
{
    match values.get(place) {
        Some(value) => *value,
        None => 0,
    }
}

/// An element of an array with so many elements.
fn element(arrays: &Arrays, owns: bool, array: usize, length: u32, index: i64) -> Result<i64, Kind>
    ensures { result ≡ spec.indexed owns arrays.now array length (Ok index) }
{
    if index < 0 || index >= i64::from(length) {
        return Err(Kind::Index);
    }
    if !owns {
        return Err(Kind::Unlocked);
    }
    Ok(arrays.at(array, index as usize))
}

/// The value of a formula over the values of a body's locals, and over the arrays if the thread owns the mutex.
pub fn value_of(formula: &Formula, values: &[i64], owns: bool, arrays: &Arrays) -> Result<i64, Kind>
    ensures { result ≡ spec.worth_at values.now owns arrays.now formula.now }
{
    match formula {
        Formula::Number(number) => Ok(*number),
        Formula::Local(place) => Ok(local_at(values, *place)),
        Formula::Element(array, length, index) => {
            let index = value_of(index.get(), values, owns, arrays)?;
            element(arrays, owns, *array, *length, index)
        }
        Formula::Neg(part) => {
            let part = value_of(part.get(), values, owns, arrays)?;
            int_result(-i128::from(part))
        }
        Formula::Not(part) => {
            let part = value_of(part.get(), values, owns, arrays)?;
            Ok(int_of(!is_true(part)))
        }
        Formula::Binary(op, left, right) => {
            let first = value_of(left.get(), values, owns, arrays)?;
            match decided(*op, first) {
                Some(value) => Ok(value),
                None => {
                    let second = value_of(right.get(), values, owns, arrays)?;
                    applied(*op, first, second)
                }
            }
        }
    }
}

/// The values of formulas, from left to right, which come to stand in front; or the first kind for which there is none.
pub fn values_of(
    formulas: &[Formula],
    values: &[i64],
    owns: bool,
    arrays: &Arrays,
    into: &mut Numbers,
) -> Result<(), Kind>
    ensures kept { length into.new ≡ length into.old }
    ensures works { length formulas.now ≤ length into.old → spec.Works (spec.worths_at values.now owns arrays.now formulas.now) (length formulas.now) into.new result }
{
    for (place, formula) in formulas.iter().enumerate() {
        let value = value_of(formula, values, owns, arrays)?;
        into.set(place, value);
    }
    Ok(())
}
