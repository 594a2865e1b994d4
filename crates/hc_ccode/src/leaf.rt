//! Statements without parts.

ghost use Rattle.std.specs.Prelude.{◌≡◌, ◌≤◌, length, take, IfOk, IsTrue};
ghost use Rattle.hc_cast.specs.Primitives.{primitive_named, count};
ghost use Rattle.hc_cast.specs.declared.stmt.CStmt.{out-CStmt};
ghost use Rattle.hc_cmach.specs.Calls.{calls_among, is_call, is_call_of, are_written};
ghost use Rattle.hc_ccode.specs.Placed.{placed_primitive};
ghost use Rattle.hc_ccode.specs.Pieces.{is_leaf};
ghost use Rattle.hc_ccode.specs.Stages.{LeafAgrees, CallAgrees, CallsFunction};
ghost use Rattle.hc_cmach.specs.State.{function_among};

use crate::Node;
use crate::formula::{number_written, placed, placed_all, placed_target};
use crate::places::{array_in, array_len, function_in, place_in};
use hc_cast::{CExpr, CProgram, CStmt, Primitive};
use hc_frac::Name;
use std::alloc::{AllocError, Global};

/// A call of a primitive.
fn primitive_node(
    alloc: Global,
    program: &CProgram,
    names: &[Name],
    target: &Option<Name>,
    primitive: Primitive,
    arguments: &[CExpr],
    next: usize,
) -> Result<Node, AllocError>
    requires { IsTrue (are_written primitive arguments.now) }
    ensures { IfOk result (λ i. i ≡ placed_primitive program.now names.now target.now primitive arguments.now next) }
{
    match (primitive, arguments) {
        (Primitive::FrSet, [row, register, numerator, denominator]) => {
            let row = placed(alloc, program, names, row)?;
            let register = placed(alloc, program, names, register)?;
            Ok(Node::Literal {
                row,
                register,
                numerator: number_written(numerator),
                denominator: number_written(denominator),
                result: placed_target(names, target),
                next,
            })
        }
        _ => {
            let arguments = placed_all(alloc, program, names, arguments)?;
            Ok(Node::Primitive {
                primitive,
                arguments,
                result: placed_target(names, target),
                next,
            })
        }
    }
}

/// A call of one of the first functions, which are `known` in number.
fn function_node(
    alloc: Global,
    program: &CProgram,
    names: &[Name],
    known: usize,
    target: &Option<Name>,
    callee: &Name,
    arguments: &[CExpr],
    next: usize,
) -> Result<Node, AllocError>
    requires within { known ≤ length program.now.functions }
    requires called { IsTrue (is_call_of (function_among callee.now (take known program.now.functions)) arguments.now) }
    ensures { IfOk result (λ i. CallsFunction program.now names.now known next i target.now callee.now arguments.now) }
{
    let Some(function) = function_in(&program.functions.as_slice()[..known], callee) else {
        unreachable!()
    };
    let arguments = placed_all(alloc, program, names, arguments)?;
    Ok(Node::Call {
        function,
        arguments,
        result: placed_target(names, target),
        next,
    })
}

/// A call of a primitive, or else of one of the first functions.
fn call_node(
    alloc: Global,
    program: &CProgram,
    names: &[Name],
    known: usize,
    target: &Option<Name>,
    callee: &Name,
    arguments: &[CExpr],
    next: usize,
) -> Result<Node, AllocError>
    requires within { known ≤ length program.now.functions }
    requires called { IsTrue (is_call (primitive_named callee.now) (function_among callee.now (take known program.now.functions)) arguments.now) }
    ensures { IfOk result (λ i. CallAgrees program.now names.now known next i target.now callee.now arguments.now (primitive_named callee.now)) }
{
    match Primitive::named(callee.text().as_bytes()) {
        Some(primitive) => primitive_node(
            alloc, program, names, target, primitive, arguments, next,
        ),
        None => function_node(
            alloc, program, names, known, target, callee, arguments, next,
        ),
    }
}

/// The node of a statement without parts.
pub(crate) fn leaf_node(
    alloc: Global,
    program: &CProgram,
    names: &[Name],
    known: usize,
    stmt: &CStmt,
    next: usize,
) -> Result<Node, AllocError>
    requires leaf { IsTrue (is_leaf (out-CStmt stmt.now)) }
    requires within { known ≤ length program.now.functions }
    requires called { IsTrue (calls_among (take known program.now.functions) stmt.now) }
    ensures { IfOk result (λ i. LeafAgrees program.now names.now known next i (out-CStmt stmt.now)) }
{
    match stmt {
        CStmt::Set { local, value } => {
            let value = placed(alloc, program, names, value)?;
            Ok(Node::Set {
                local: place_in(names, local),
                value,
                next,
            })
        }
        CStmt::Store {
            array,
            index,
            value,
        } => {
            let index = placed(alloc, program, names, index)?;
            let value = placed(alloc, program, names, value)?;
            Ok(Node::Store {
                array: array_in(program, array),
                length: array_len(program, array),
                index,
                value,
                next,
            })
        }
        CStmt::Call {
            result,
            callee,
            arguments,
        } => call_node(
            alloc,
            program,
            names,
            known,
            result,
            callee,
            arguments.as_slice(),
            next,
        ),
        CStmt::Return { value: None } => Ok(Node::Return { value: None }),
        CStmt::Return { value: Some(value) } => {
            let value = placed(alloc, program, names, value)?;
            Ok(Node::Return { value: Some(value) })
        }
        _ => unreachable!(),
    }
}
