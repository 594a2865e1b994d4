//! Runs and how they stop.

use hc_frac::Frac;

/// A step of a system.
#[derive(Clone, Copy, Debug, PartialEq, Eq)]
pub enum Step {
    /// A step of one process, visible where it logs a value.
    Silent { process: u32, logged: Option<Frac> },
    /// The value is handed over on the channel.
    Comm { channel: u32, value: Frac },
    /// So many time units pass.
    Delay { by: Frac },
}

/// A step with the clock before it, in time units.
#[derive(Clone, Copy, Debug, PartialEq, Eq)]
pub struct Item {
    pub at: Frac,
    pub step: Step,
}

/// How a run stops.
#[derive(Clone, Copy, Debug, PartialEq, Eq)]
pub enum Stop {
    Terminated,
    Deadlock,
    Horizon,
    Limit,
    /// A working value of the process's next step doesn't fit a fraction, or one of the delay's where no process is named.
    Overflow { process: Option<u32> },
}

/// How a stretch of silent steps of one process ends.
#[derive(Clone, Copy, Debug, PartialEq, Eq)]
pub enum StretchEnd {
    /// After a step that logged this value.
    Logged(Frac),
    /// The process has arrived, with no further silent step.
    Waits,
    Ended,
    /// A working value of the next step doesn't fit.
    Unfit,
    /// All steps that were allowed are taken.
    Spent,
}

/// A working value doesn't fit a fraction.
#[derive(Clone, Copy, Debug, PartialEq, Eq)]
pub struct Unfit;
