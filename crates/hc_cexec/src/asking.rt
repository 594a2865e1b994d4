//! What a thread asks for that is ready.

ghost use Rattle.std.specs.Prelude.{◌≡◌, ◌≤◌, [], length, slice_get, Some, Ok};
ghost use Rattle.hc_cmach.specs.Expression.{together};
ghost use Rattle.hc_cexec.specs.Asks.{AsksAt, AsksFor, Calls, PerformsWith, SetsLiteral, all_valued};
ghost use Rattle.hc_cprim.specs.Worth.{Works};
ghost use Rattle.hc_cexec.specs.Asks as spec;
ghost use Rattle.hc_cexec.specs.Sights.{view};
ghost use Rattle.hc_cexec.specs.declared.asked.Then.TheVariants as then;

use crate::activation::Activation;
use crate::asked::{Act, Asked, Then};
use crate::thread::Thread;
use hc_cast::Primitive;
use hc_ccode::{Case, Code, Formula, Node};
use hc_cmach::Kind;
use hc_cprim::{
    Arrays, Deed, Numbers, Primitives, Seat, Way, literal, primitive, value_of, values_of,
};
use hc_frac::Frac;

/// To go on at a place, and no more.
fn lead(place: usize) -> Asked
    ensures { result ≡ spec.leads place }
{
    Asked::Does(
        Act::Goes,
        Then::On {
            result: None,
            value: 0,
            place,
        },
    )
}

/// To set a local.
fn set(local: usize, next: usize, value: Result<i64, Kind>) -> Asked
    ensures { result ≡ spec.sets local next value }
{
    match value {
        Ok(value) => Asked::Does(
            Act::Goes,
            Then::On {
                result: Some(local),
                value,
                place: next,
            },
        ),
        Err(kind) => Asked::Fails(kind),
    }
}

/// To store a value in an element.
fn stored(owns: bool, array: usize, index: usize, value: i64, next: usize) -> Asked
    ensures { result ≡ spec.stored owns array index value next }
{
    if !owns {
        return Asked::Fails(Kind::Unlocked);
    }
    Asked::Does(
        Act::Stores {
            array,
            index,
            value,
        },
        Then::On {
            result: None,
            value,
            place: next,
        },
    )
}

/// To store a value at an index of an array with so many elements.
fn store(
    owns: bool,
    array: usize,
    elements: u32,
    next: usize,
    index: Result<i64, Kind>,
    value: Result<i64, Kind>,
) -> Asked
    ensures { result ≡ spec.stores owns array elements next index value }
{
    match (index, value) {
        (Err(kind), _) | (Ok(_), Err(kind)) => Asked::Fails(kind),
        (Ok(index), Ok(value)) => {
            if index < 0 || index >= i64::from(elements) {
                return Asked::Fails(Kind::Index);
            }
            stored(owns, array, index as usize, value, next)
        }
    }
}

/// To go on by a test.
fn branch(then_at: usize, else_at: usize, test: Result<i64, Kind>) -> Asked
    ensures { result ≡ spec.branches then_at else_at test }
{
    match test {
        Ok(0) => lead(else_at),
        Ok(_) => lead(then_at),
        Err(kind) => Asked::Fails(kind),
    }
}

/// The place of the case with a number, and else the other one.
fn case_at(number: i64, cases: &[Case], otherwise: usize) -> usize
    ensures { result ≡ spec.case_at number cases.now otherwise }
{
    for case in cases {
        if number == case.number {
            return case.place;
        }
    }
    otherwise
}

/// To go on by a case.
fn switch(cases: &[Case], otherwise: usize, on: Result<i64, Kind>) -> Asked
    ensures { result ≡ spec.switches cases.now otherwise on }
{
    match on {
        Ok(number) => lead(case_at(number, cases, otherwise)),
        Err(kind) => Asked::Fails(kind),
    }
}

/// To go back to the caller with a value.
fn give_back(value: Result<i64, Kind>) -> Asked
    ensures { result ≡ spec.gives_back value }
{
    match value {
        Ok(value) => Asked::Does(Act::Goes, Then::Back { value }),
        Err(kind) => Asked::Fails(kind),
    }
}

/// What is asked for at the end of a body.
fn end(gives: bool) -> Asked
    ensures { result ≡ spec.ends gives }
{
    if gives {
        Asked::Fails(Kind::NoValue)
    } else {
        give_back(Ok(0))
    }
}

/// Behind the call of a primitive, whose result a local may take.
fn behind(target: Option<usize>, value: i64, place: usize) -> Then
    ensures { result ≡ then.On target value place }
{
    Then::On {
        result: target,
        value,
        place,
    }
}

/// To put a value into a register of a row that is reached.
fn put(row: &Way, register: usize, value: &Frac, then: Then) -> Asked
    ensures { result ≡ spec.puts row.now register value.now then }
{
    match row {
        Way::Its => Asked::Does(
            Act::PutsOwn {
                register,
                value: *value,
            },
            then,
        ),
        Way::Common => Asked::Does(
            Act::PutsCommon {
                register,
                value: *value,
            },
            then,
        ),
        Way::Beyond(kind) => Asked::Fails(*kind),
    }
}

/// What a primitive's deed asks for, with the local that takes its result and the place behind it.
fn done(deed: &Deed, target: Option<usize>, place: usize) -> Asked
    ensures { result ≡ spec.done deed.now target place }
{
    match deed {
        Deed::Fails(kind) => Asked::Fails(*kind),
        Deed::Divides {
            row,
            register,
            kind,
        } => Asked::Divides {
            row: *row,
            register: *register,
            kind: *kind,
        },
        Deed::Gives(value) => Asked::Does(Act::Goes, behind(target, *value, place)),
        Deed::Puts {
            row,
            register,
            value,
            gives,
        } => put(row, *register, value, behind(target, *gives, place)),
        Deed::Prints(line) => Asked::Does(Act::Prints(*line), behind(target, 0, place)),
        Deed::Locks => Asked::Does(Act::Locks, behind(target, 0, place)),
        Deed::Unlocks => Asked::Does(Act::Unlocks, behind(target, 0, place)),
        Deed::Waits(on) => Asked::Does(Act::Waits(*on), behind(target, 0, place)),
        Deed::Wakes(on) => Asked::Does(Act::Wakes(*on), behind(target, 0, place)),
    }
}

/// What a step looks at: the thread's place, the arrays, and the body at hand.
#[derive(Clone, Copy)]
struct Sight<'a> {
    seat: &'a Seat<'a>,
    arrays: &'a Arrays,
    body: &'a Activation,
}

impl Sight<'_> {
    /// The value of a formula.
    fn value(&self, formula: &Formula) -> Result<i64, Kind>
        ensures { result ≡ spec.valued (view self.now) formula.now }
    {
        value_of(
            formula,
            self.body.values.as_slice(),
            self.seat.owns,
            self.arrays,
        )
    }

    /// The values of several, in front there; or the first kind for which there is none.
    fn values(&self, formulas: &[Formula], there: &mut Numbers) -> Result<(), Kind>
        ensures kept { length there.new ≡ length there.old }
        ensures works { length formulas.now ≤ length there.old → Works (all_valued (view self.now) formulas.now) (length formulas.now) there.new result }
    {
        values_of(
            formulas,
            self.body.values.as_slice(),
            self.seat.owns,
            self.arrays,
            there,
        )
    }
}

/// To call a primitive.
fn ask_primitive<R: Primitives>(
    by: &mut R,
    sight: &Sight<'_>,
    called: Primitive,
    arguments: &[Formula],
    target: Option<usize>,
    next: usize,
    there: &mut Numbers,
) -> Asked
    ensures kept { length there.new ≡ length there.old }
    ensures asks { length arguments.now ≤ length there.old → PerformsWith sight.now.seat.now called (all_valued (view sight.now) arguments.now) target next result }
{
    match sight.values(arguments, there) {
        Ok(()) => {
            let deed = primitive(by, sight.seat, called, there.first(arguments.len()));
            done(&deed, target, next)
        }
        Err(kind) => Asked::Fails(kind),
    }
}

/// To call `fr_set`.
fn ask_literal(
    seat: &Seat<'_>,
    row: Result<i64, Kind>,
    register: Result<i64, Kind>,
    numerator: i64,
    denominator: i64,
    target: Option<usize>,
    next: usize,
) -> Asked
    ensures { SetsLiteral seat.now (together row (together register (Ok []))) numerator denominator target next result }
{
    match (row, register) {
        (Err(kind), _) | (Ok(_), Err(kind)) => Asked::Fails(kind),
        (Ok(row), Ok(register)) => {
            let deed = literal(seat, row, register, numerator, denominator);
            done(&deed, target, next)
        }
    }
}

/// To call a function.
fn ask_call(
    sight: &Sight<'_>,
    function: usize,
    arguments: &[Formula],
    target: Option<usize>,
    next: usize,
    there: &mut Numbers,
) -> Asked
    ensures kept { length there.new ≡ length there.old }
    ensures asks { length arguments.now ≤ length there.old → Calls (view sight.now) function arguments.now target next there.new result }
{
    match sight.values(arguments, there) {
        Ok(()) => Asked::Does(
            Act::Goes,
            Then::Into {
                function,
                result: target,
                place: next,
            },
        ),
        Err(kind) => Asked::Fails(kind),
    }
}

/// What is asked for at a node. Where it is a call, the values of the arguments are worked out there.
fn ask_at<R: Primitives>(by: &mut R, sight: &Sight<'_>, node: &Node, there: &mut Numbers) -> Asked
    ensures kept { length there.new ≡ length there.old }
    ensures asks { AsksAt sight.now.seat.now (view sight.now) node.now there.new result }
{
    match node {
        Node::End => end(sight.body.gives),
        Node::Set { local, value, next } => set(*local, *next, sight.value(value)),
        Node::Store {
            array,
            length,
            index,
            value,
            next,
        } => {
            let index = sight.value(index);
            store(
                sight.seat.owns,
                *array,
                *length,
                *next,
                index,
                sight.value(value),
            )
        }
        Node::Literal {
            row,
            register,
            numerator,
            denominator,
            result,
            next,
        } => {
            let row = sight.value(row);
            let register = sight.value(register);
            ask_literal(
                sight.seat,
                row,
                register,
                *numerator,
                *denominator,
                *result,
                *next,
            )
        }
        Node::Primitive {
            primitive,
            arguments,
            result,
            next,
        } => ask_primitive(
            by,
            sight,
            *primitive,
            arguments.as_slice(),
            *result,
            *next,
            there,
        ),
        Node::Call {
            function,
            arguments,
            result,
            next,
        } => ask_call(
            sight,
            *function,
            arguments.as_slice(),
            *result,
            *next,
            there,
        ),
        Node::Branch {
            test,
            yes: then_at,
            no: else_at,
        } => branch(*then_at, *else_at, sight.value(test)),
        Node::Switch {
            on,
            cases,
            otherwise,
        } => switch(cases.as_slice(), *otherwise, sight.value(on)),
        Node::Return { value: Some(value) } => give_back(sight.value(value)),
        Node::Return { value: None } => give_back(Ok(0)),
    }
}

/// What a thread asks for that is ready. Where it is a call, the values of the arguments are worked out there.
pub(crate) fn ask<R: Primitives>(
    by: &mut R,
    code: &Code,
    seat: &Seat<'_>,
    arrays: &Arrays,
    thread: &Thread,
    there: &mut Numbers,
) -> Asked
    ensures kept { length there.new ≡ length there.old }
    ensures asks { AsksFor code.now seat.now arrays.now thread.now there.new result }
{
    let Some(current) = thread.current else {
        return Asked::Returned;
    };
    let Some(body) = thread.activations.get(current) else {
        return Asked::Returned;
    };
    let Some(node) = code.nodes.get(body.place) else {
        return Asked::Returned;
    };
    let sight = Sight { seat, arrays, body };
    ask_at(by, &sight, node, there)
}
