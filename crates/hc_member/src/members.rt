//! All processes of a task, by their numbers.

ghost use Rattle.std.specs.Prelude.{◌≡◌, ◌≤◌, ℕ, List, map, length, sum_by, IsTrue, IfOk};
ghost use Rattle.std.specs.List.{list_all};
ghost use Rattle.hc_limits.specs.Limits.{most_processes, most_statements};
ghost use Rattle.hc_rational.specs.Words.{Rational, zero_ℚ, ◌+ℚ◌, ◌≤ℚ◌};
ghost use Rattle.hc_term.specs.declared.model.ProcessState.{ProcessState};
ghost use Rattle.hc_term.specs.Rules.{is_process, body_statements};
ghost use Rattle.hc_term.specs.Posts.{post_fits};
ghost use Rattle.hc_term.specs.Communication.{moved};
ghost use Rattle.hc_term.specs.Together.{is_within};
ghost use Rattle.hc_member.specs.States.{AllIn, AllOpen};

use crate::member::Member;
use hc_frac::Frac;
use hc_term::Process;
use std::alloc::{AllocError, Global};

/// All processes at the opening, in their order. The one error is want of memory.
pub fn open_all(alloc: Global, processes: &[Process]) -> Result<Vec<Member>, AllocError>
    requires ruled { (channels : ℕ) × IsTrue (list_all (is_process channels) processes.now) }
    requires few { length processes.now ≤ most_processes }
    requires small { sum_by body_statements processes.now ≤ most_statements }
    ensures { IfOk result (λ ms. AllOpen processes.now ms.items) }
{
    let mut members = Vec::with_capacity(alloc, processes.len())?;
    for process in processes {
        let number = members.len() as u32;
        members.push(Member::open(alloc, process, number)?)?;
    }
    Ok(members)
}

/// Lets so many time units pass for all, at most to the least bound.
pub fn move_all(members: &mut [Member], by: Frac)
    requires fits { IsTrue (list_all (λ m. post_fits by m.local.post) members.old) }
    requires from_zero { zero_ℚ ≤ℚ by }
    requires to_bound { IsTrue (list_all (λ m. is_within by m.local.post.bound) members.old) }
    ensures { (clock : Rational) (qs : List ProcessState) → AllIn clock members.old qs →
        AllIn (clock +ℚ by) members.new (map (moved by) qs) }
{
    for at in 0..members.len() {
        members[at].move_by(by);
    }
}
