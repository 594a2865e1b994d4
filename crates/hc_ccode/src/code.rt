//! Nodes and codes.

ghost use Rattle.std.specs.Prelude.{◌≡◌, ◌<◌, length, slice_get, Some};

use hc_cast::{COp, Primitive};
use hc_list::{Boxed, List};

/// An expression with places in place of names. A local or an array that isn't declared has a place behind all others.
#[derive(Drop)]
#[cycle(formula)]
pub enum Formula {
    Number(i64),
    /// A local, by its place among the names of its body.
    Local(usize),
    /// An element of an array: the array's place among all, its length, and the index.
    Element(usize, u32, Boxed<Formula>),
    Neg(Boxed<Formula>),
    Not(Boxed<Formula>),
    Binary(COp, Boxed<Formula>, Boxed<Formula>),
}

/// A list of statements still to do, by its first statement. `next` is the place of what follows.
#[derive(Drop)]
pub enum Node {
    /// Nothing is left to do.
    End,
    Set {
        local: usize,
        value: Formula,
        next: usize,
    },
    Store {
        array: usize,
        length: u32,
        index: Formula,
        value: Formula,
        next: usize,
    },
    /// A call of `fr_set`, whose last two numbers are taken as they are written.
    Literal {
        row: Formula,
        register: Formula,
        numerator: i64,
        denominator: i64,
        result: Option<usize>,
        next: usize,
    },
    /// A call of another primitive.
    Primitive {
        primitive: Primitive,
        arguments: List<Formula>,
        result: Option<usize>,
        next: usize,
    },
    /// A call of a function.
    Call {
        function: usize,
        arguments: List<Formula>,
        result: Option<usize>,
        next: usize,
    },
    /// An `if` or a `while`.
    Branch {
        test: Formula,
        yes: usize,
        no: usize,
    },
    Switch {
        on: Formula,
        cases: List<Case>,
        otherwise: usize,
    },
    Return {
        value: Option<Formula>,
    },
}

/// A case of a `switch`: its number, and the place at which it goes on.
#[derive(Clone, Copy, Debug, PartialEq, Eq)]
pub struct Case {
    pub number: i64,
    pub place: usize,
}

/// A body: the place at which it begins, how many parameters and further locals it has, and whether it gives an int.
#[derive(Clone, Copy, Debug, PartialEq, Eq)]
pub struct Entry {
    pub start: usize,
    pub params: usize,
    pub locals: usize,
    pub gives: bool,
}

/// The code of a program: its nodes, the entries of its functions, and those of its threads.
#[derive(Drop)]
pub struct Code {
    pub nodes: List<Node>,
    pub functions: List<Entry>,
    pub threads: List<Entry>,
}
