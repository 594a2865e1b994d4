//! Verdicts on traces.

/// What is answered to a trace.
#[derive(Clone, Copy, Debug, PartialEq, Eq)]
pub enum Verdict {
    /// It is one of a behaviour: so many steps is the least number with which a run shows it.
    Yes { steps: u32 },
    /// It isn't: this line is the first one up to and with which no run has it. The header is line 1, and the end line is
    /// the last.
    No { line: u32 },
}
