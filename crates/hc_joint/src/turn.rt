//! What a turn answers.

ghost use Rattle.std.specs.Prelude.{◌≡◌};
ghost use Rattle.hc_joint.specs.Judging.{judged, is_made, again};

/// What came of a turn with an advance: the first of these that holds.
#[derive(Clone, Copy, Debug, PartialEq, Eq)]
pub enum Turn {
    /// A stop stood.
    Stopped,
    /// The process has no silent step.
    NotAble,
    /// The advance isn't worked, or doesn't start from what is kept of the process, so its steps were worked out here.
    Recomputed,
    /// The advance has more steps than the limit leaves, and only so many were taken.
    Cut,
    /// The steps of the advance were taken.
    Taken,
}

impl Turn {
    /// Whether a turn was made.
    pub fn is_made(self) -> bool
        ensures { result ≡ is_made self }
    {
        match self {
            Turn::Stopped => false,
            Turn::NotAble => false,
            _ => true,
        }
    }

    /// One where the steps were worked out anew, else none.
    pub(crate) fn again(self) -> u64
        ensures { result ≡ again self }
    {
        match self {
            Turn::Recomputed => 1,
            _ => 0,
        }
    }
}

/// What comes of an advance that starts from what is kept, or doesn't, with its steps, if it is worked, where so many
/// steps are left to the limit.
pub(crate) fn judged(starts: bool, steps: Option<u32>, left: u32) -> Turn
    ensures { result ≡ judged starts steps left }
{
    if !starts {
        return Turn::Recomputed;
    }
    match steps {
        None => Turn::Recomputed,
        Some(steps) => {
            if steps <= left {
                Turn::Taken
            } else {
                Turn::Cut
            }
        }
    }
}
