//! Refusals.

ghost use Rattle.std.specs.Prelude.{◌≡◌};

use hc_frac::Place;
use std::alloc::AllocError;

/// What there is too much of.
#[derive(Clone, Copy, Debug, PartialEq, Eq)]
pub enum What {
    /// More than 32 guards of one choice: at the 33rd branch.
    Guards,
    /// More than 256 channels: at the statement or branch with the 257th.
    Channels,
    /// More than 64 variables of a process: at the statement, branch or rate that has the 65th.
    Variables,
    /// More than 200 nodes of an expression, or of a condition with its expressions: at its root.
    Nodes,
}

/// Why an expanded source isn't accepted.
#[derive(Clone, Copy, Debug, PartialEq, Eq)]
pub enum CheckStop {
    /// There is too much of something.
    TooMany { what: What, place: Place },
    /// The divisor at this place isn't a number.
    DivisorNotLiteral { place: Place },
    /// The divisor at this place is 0.
    ZeroDivisor { place: Place },
    /// This rate is the second of its variable in an evolution.
    RepeatedRate { place: Place },
    /// This variable evolves, and stands in a rate of its evolution.
    RateEvolves { place: Place },
    /// This product has evolving variables on both sides, in a domain or in a value that a guard sends.
    NotAffine { place: Place },
    /// This branch is the second on its channel in its direction in one choice.
    RepeatedGuard { place: Place },
    /// By this statement or branch a process is on both ends of a channel.
    SelfChannel { place: Place },
    /// This sends on a channel on which an earlier process sends.
    TwoSenders { place: Place },
    /// This receives from a channel from which an earlier process receives.
    TwoReceivers { place: Place },
    /// Memory ran out.
    Memory,
}

impl From<AllocError> for CheckStop {
    ghost use Rattle.hc_finds.specs.declared.stop.CheckStop.TheVariants.{Memory};

    ghost from_gives = { λ _ stop. stop ≡ Memory };

    fn from(_error: AllocError) -> CheckStop {
        CheckStop::Memory
    }
}
