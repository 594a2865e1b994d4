//! Instructions and codes.

ghost use Rattle.std.specs.Prelude.{◌≡◌, ◌↔◌, ◌<◌, ◌≤◌, IsTrue, length, slice_get, Some};

use crate::same::same_instrs;
use hc_list::List;
use hc_term::{Cond, Expr, Io, Rate};

/// An instruction. It names the places at which the code goes on.
#[derive(Drop)]
pub enum Instr {
    Skip {
        next: u32,
    },
    Assign {
        variable: u32,
        value: Expr,
        next: u32,
    },
    Log {
        value: Expr,
        next: u32,
    },
    /// An `if`, or the test before a round of a loop.
    Test {
        test: Cond,
        yes: u32,
        no: u32,
    },
    /// Internal choice.
    Pick {
        left: u32,
        right: u32,
    },
    /// A loop without a test begins a round.
    Again {
        next: u32,
    },
    Wait {
        time: Expr,
        next: u32,
    },
    /// A communication, or an external choice among several.
    Meet {
        branches: List<Way>,
    },
    /// `next` is the place after an evolution that has reached its end moment.
    Evolve {
        rates: List<Rate>,
        domain: Cond,
        branches: List<Way>,
        next: u32,
    },
    End,
}

/// A guarded communication, and the place at which the code goes on after it.
#[derive(Drop)]
pub struct Way {
    pub io: Io,
    pub next: u32,
}

/// The code of a process. Its places are the numbers of its instructions, from 0.
#[derive(Drop)]
pub struct ProcCode {
    pub(crate) instrs: List<Instr>,
    pub ghost short: { length instrs ≤ 10001 },
}

impl ProcCode {
    /// The instruction at a place below the length.
    pub fn at(&self, place: u32) -> &Instr
        requires { place < length self.now.instrs }
        ensures { slice_get self.now.instrs place ≡ Some result.now }
    {
        &self.instrs.as_slice()[place as usize]
    }

    /// The number of instructions.
    pub fn len(&self) -> u32
        ensures { result ≡ length self.now.instrs }
    {
        self.instrs.len() as u32
    }

    /// Whether two codes are equal.
    pub fn same(&self, other: &ProcCode) -> bool
        ensures { IsTrue result ↔ (self.now ≡ other.now) }
    {
        same_instrs(self.instrs.as_slice(), other.instrs.as_slice())
    }
}
