//! What primitives come to.

use hc_cmach::Kind;
use hc_frac::Frac;

/// A row, as a thread reaches it.
#[derive(Clone, Copy, Debug, PartialEq, Eq)]
pub enum Way {
    /// Its own.
    Its,
    /// The one that is shared, which the thread reaches since it owns the mutex.
    Common,
    /// One that it doesn't reach.
    Beyond(Kind),
}

/// A line of a trace. Processes and channels are numbers.
#[derive(Clone, Copy, Debug)]
pub enum Line {
    Delays {
        clock: Frac,
        by: Frac,
    },
    Meets {
        clock: Frac,
        channel: usize,
        sender: usize,
        receiver: usize,
        value: Frac,
    },
    Logs {
        clock: Frac,
        process: usize,
        value: Frac,
    },
    Ends {
        kind: u32,
        clock: Frac,
        who: Option<usize>,
    },
}

/// What a primitive comes to. Where nothing else is said, its result is 0.
#[derive(Clone, Copy, Debug)]
pub enum Deed {
    Fails(Kind),
    /// A division by a register of a row that the thread doesn't reach.
    Divides {
        row: usize,
        register: usize,
        kind: Kind,
    },
    /// Nothing changes, and this is the result.
    Gives(i64),
    /// A register becomes a value.
    Puts {
        row: Way,
        register: usize,
        value: Frac,
        gives: i64,
    },
    Prints(Line),
    Locks,
    Unlocks,
    Waits(u32),
    Wakes(u32),
}

/// What a thread's primitive looks at: the thread's number, whether it owns the mutex, its row and the one that is shared,
/// and how many channels and processes there are.
#[derive(Clone, Copy)]
pub struct Seat<'a> {
    pub thread: usize,
    pub owns: bool,
    pub row: &'a [Frac],
    pub common: &'a [Frac],
    pub channels: usize,
    pub processes: usize,
}
