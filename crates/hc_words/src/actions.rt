//! The actions, and what may stand behind each.

ghost use Rattle.std.specs.Prelude.{◌≡◌, None, IfSome, is_some, option_map};
ghost use Rattle.hc_words.specs.Actions as spec;
ghost use Rattle.hc_words.specs.Seen.{seen};
ghost use Rattle.hc_words.specs.declared.actions.Action as act;

use crate::line::Given;

/// An action of the program.
#[derive(Clone, Copy, Debug, PartialEq, Eq)]
pub enum Action {
    Check,
    Print,
    Simulate,
    Channels,
    Convert,
    Verify,
    Make,
    Cexec,
}

/// What stands behind an action: N where it must, each option and each flag where they may.
#[derive(Clone, Copy, Debug, PartialEq, Eq)]
pub struct Room {
    pub number: bool,
    pub seed: bool,
    pub horizon: bool,
    pub limit: bool,
    pub workers: bool,
    pub steps: bool,
    pub report: bool,
    pub channels: bool,
}

const NOTHING: Room = Room {
    number: false,
    seed: false,
    horizon: false,
    limit: false,
    workers: false,
    steps: false,
    report: false,
    channels: false,
};

/// What stands behind `run`.
pub(crate) const RUN: Room = Room {
    seed: true,
    horizon: true,
    limit: true,
    workers: true,
    report: true,
    channels: true,
    ..NOTHING
};

/// The action of this name.
pub(crate) fn action_named(name: &str) -> Option<Action>
    ensures some { IfSome result (λ a. spec.name_of_action a ≡ name.now) }
    ensures none { result ≡ None → (a : act.Action) → spec.name_of_action a ≡ name.now → ⊥ }
{
    match name {
        "check" => Some(Action::Check),
        "print" => Some(Action::Print),
        "simulate" => Some(Action::Simulate),
        "channels" => Some(Action::Channels),
        "convert" => Some(Action::Convert),
        "verify" => Some(Action::Verify),
        "make" => Some(Action::Make),
        "cexec" => Some(Action::Cexec),
        _ => None,
    }
}

/// The row of an action in the table of what belongs to which.
fn room_of(action: Action) -> Room
    ensures { result ≡ spec.room_of action }
{
    match action {
        Action::Check | Action::Print | Action::Convert => NOTHING,
        Action::Simulate | Action::Channels | Action::Verify => Room {
            seed: true,
            horizon: true,
            limit: true,
            ..NOTHING
        },
        Action::Make => Room {
            number: true,
            seed: true,
            ..NOTHING
        },
        Action::Cexec => Room {
            seed: true,
            steps: true,
            report: true,
            ..NOTHING
        },
    }
}

/// Whether N is given exactly where it's wanted.
fn is_wanted(wanted: bool, number: Option<&str>) -> bool
    ensures { result ≡ spec.is_wanted wanted (option_map (λ s. s.now) number.entry) }
{
    match number {
        Some(_) => wanted,
        None => !wanted,
    }
}

/// Whether an option is given only where there is room for it.
fn allows(room: bool, value: Option<&str>) -> bool
    ensures { result ≡ spec.allows room (option_map (λ s. s.now) value.entry) }
{
    match value {
        Some(_) => room,
        None => true,
    }
}

/// Whether there is room for all that is given, and N is given exactly where it must be.
pub(crate) fn fits(room: Room, given: &Given<'_>) -> bool
    ensures { result ≡ spec.fits room (seen given.now) }
{
    is_wanted(room.number, given.number)
        & allows(room.seed, given.seed)
        & allows(room.horizon, given.horizon)
        & allows(room.limit, given.limit)
        & allows(room.workers, given.workers)
        & allows(room.steps, given.steps)
        & (room.report | !given.report)
        & (room.channels | !given.channels)
}

/// Whether all that is given belongs to the action.
pub(crate) fn belongs(action: Action, given: &Given<'_>) -> bool
    ensures { result ≡ spec.belongs action (seen given.now) }
{
    fits(room_of(action), given)
}
