//! All processes of a task with their board, the clock and the history so far.

ghost use Rattle.std.specs.Prelude.{◌≤◌, length, vec_capacity};
ghost use Rattle.hc_limits.specs.Limits.{most_processes};

use hc_board::Board;
use hc_frac::Frac;
use hc_member::{Member, open_all};
use hc_term::{Item, Task};
use std::alloc::{AllocError, Global};

/// What an event changes. No call but `open` takes memory: the history has room for all items that the limit allows.
#[derive(Drop)]
pub(crate) struct Scene {
    pub(crate) task: Task,
    pub(crate) members: Vec<Member>,
    pub(crate) board: Board,
    /// In time units from the start of the run.
    pub(crate) clock: Frac,
    pub(crate) history: Vec<Item>,
    pub ghost few: { length members.items ≤ most_processes },
    pub ghost room: { task.limit ≤ vec_capacity history },
}

impl Scene {
    ghost use Rattle.std.specs.Prelude.{◌≡◌, [], IfOk};
    ghost use Rattle.hc_term.specs.Step.{opening};
    ghost use Rattle.hc_joint.specs.Stands.{IsAt};

    /// The opening of the task, with room for the whole history.
    pub(crate) fn open(alloc: Global, task: Task) -> Result<Scene, AllocError>
        ensures task { IfOk result (λ s. s.task ≡ task) }
        ensures empty { IfOk result (λ s. s.history.items ≡ []) }
        ensures at { IfOk result (λ s. IsAt s (opening task)) }
    {
        let processes = task.system.processes.as_slice();
        let channels = task.system.channels.len() as u32;
        let members = open_all(alloc, processes)?;
        let board = Board::open(alloc, processes.len() as u32, channels)?;
        let history = Vec::with_capacity(alloc, task.limit as usize)?;
        Ok(Scene {
            task,
            members,
            board,
            clock: Frac::zero(),
            history,
        })
    }
}
