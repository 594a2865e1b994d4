//! What a thread asks for.

use hc_cmach::Kind;
use hc_cprim::Line;
use hc_frac::Frac;

/// What a step does to the world.
#[derive(Clone, Copy)]
pub(crate) enum Act {
    Goes,
    Locks,
    Unlocks,
    Waits(u32),
    Wakes(u32),
    /// A register of the thread's own row becomes a value.
    PutsOwn {
        register: usize,
        value: Frac,
    },
    /// A register of the row that is shared becomes a value.
    PutsCommon {
        register: usize,
        value: Frac,
    },
    /// An element of an array becomes a value.
    Stores {
        array: usize,
        index: usize,
        value: i64,
    },
    Prints(Line),
    /// It was woken, and takes the mutex again.
    Retakes,
}

/// How a thread goes on behind a step.
#[derive(Clone, Copy)]
pub(crate) enum Then {
    /// At a place of the body at hand, where a local may take a value.
    On {
        result: Option<usize>,
        value: i64,
        place: usize,
    },
    /// At the start of a function whose arguments are worked out; the caller is left at a place.
    Into {
        function: usize,
        result: Option<usize>,
        place: usize,
    },
    /// Behind the call of the body at hand, with the value that it gives.
    Back {
        value: i64,
    },
    /// As it stands.
    Stays,
}

/// What a thread that is ready asks for.
#[derive(Clone, Copy)]
pub(crate) enum Asked {
    Returned,
    Fails(Kind),
    /// A division by a register of a row that the thread doesn't reach.
    Divides {
        row: usize,
        register: usize,
        kind: Kind,
    },
    Does(Act, Then),
}

/// What a step comes to.
#[derive(Clone, Copy)]
pub(crate) enum Answer {
    Blocked,
    Over,
    Undefined(Kind),
    Takes(Act, Then),
}
