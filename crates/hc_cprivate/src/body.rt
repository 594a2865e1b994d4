//! The body of a thread's private code.

ghost use Rattle.std.specs.Prelude.{◌≡◌, ◌<◌, ◌≤◌, ℕ, length, IsTrue, IfOk};
ghost use Rattle.std.specs.List.{list_all};
ghost use Rattle.hc_limits.specs.Limits.{most_statements};
ghost use Rattle.hc_term.specs.Rules.{is_process, body_statements};
ghost use Rattle.hc_code.specs.Kept.{is_instr};
ghost use Rattle.hc_cprivate.specs.Body.{IsBodyOf, StepsAsIn, IsPrivateBody, TakesSilentSteps};
ghost use Rattle.hc_cprivate.specs.Body as spec;

use crate::blocks::OwnRow;
use hc_cast::{CBody, CStmt};
use hc_cbuild::word;
use hc_code::{ProcCode, compile};
use hc_cstep::private_code;
use hc_frac::Name;
use hc_list::List;
use hc_term::{Process, Task};
use std::alloc::{AllocError, Global};

/// The locals of a thread, in their order.
pub fn thread_locals(alloc: Global) -> Result<List<Name>, AllocError>
    ensures { IfOk result (λ names. names ≡ spec.thread_locals) }
{
    let mut names = own_locals(alloc)?;
    names.push(word(b"v_done"))?;
    names.push(word(b"v_x"))?;
    names.push(word(b"v_i"))?;
    names.push(word(b"v_after"))?;
    names.push(word(b"v_y"))?;
    names.push(word(b"v_j"))?;
    names.push(word(b"v_turn"))?;
    names.push(word(b"v_fails"))?;
    Ok(names)
}

/// Those by which it stands for its process, and the two in which a step is tried.
fn own_locals(alloc: Global) -> Result<List<Name>, AllocError>
    ensures { IfOk result (λ names. names ≡ spec.own_locals) }
{
    let mut names = List::new(alloc);
    names.push(word(b"v_place"))?;
    names.push(word(b"v_choices"))?;
    names.push(word(b"v_mark"))?;
    names.push(word(b"v_bounded"))?;
    names.push(word(b"v_most"))?;
    names.push(word(b"v_steps"))?;
    names.push(word(b"v_end"))?;
    names.push(word(b"v_ok"))?;
    names.push(word(b"v_truth"))?;
    Ok(names)
}

/// The statements by which thread `p` takes the silent steps of its process, which has so many variables and this flat code.
pub fn private_statements(
    alloc: Global,
    p: u32,
    variables: u32,
    seed: u64,
    code: &ProcCode,
) -> Result<List<CStmt>, AllocError>
    requires few { variables ≤ 64 }
    requires ruled { (channels : ℕ) × IsTrue (list_all (is_instr channels variables) code.now.instrs) }
    ensures { IfOk result (λ ss. ss ≡ spec.private_statements p variables seed code.now.instrs) }
{
    let blocks = OwnRow {
        thread: p,
        variables,
    };
    private_code(alloc, &blocks, p, seed, code)
}

/// The body of thread `p`, whose process this is.
#[tactic(auto, using(crate::proofs::Bodies::few_variables, crate::proofs::Bodies::ruled_code))]
fn body_of_process(alloc: Global, p: u32, seed: u64, process: &Process) -> Result<CBody, AllocError>
    requires low { p < 64 }
    requires ruled { (channels : ℕ) × IsTrue (is_process channels process.now) }
    requires few { body_statements process.now ≤ most_statements }
    ensures made { IfOk result (λ body. IsPrivateBody p seed process.now body) }
    ensures steps { IfOk result (λ body. TakesSilentSteps p seed process.now body.statements) }
{
    let code = compile(alloc, process)?;
    let variables = process.variables.len() as u32;
    let statements = private_statements(alloc, p, variables, seed, &code)?;
    let locals = thread_locals(alloc)?;
    Ok(CBody { locals, statements })
}

/// The body by which the thread of this process takes silent steps: as many as `v_most` allows, from the configuration for which its row and its
/// locals stand. The one error is want of memory.
pub fn private_body(alloc: Global, task: &Task, process: u32) -> Result<CBody, AllocError>
    requires { process < length task.now.system.processes }
    ensures made { IfOk result (λ body. IsBodyOf task.now process body) }
    ensures steps { IfOk result (λ body. StepsAsIn task.now process body) }
{
    let processes = task.system.processes.as_slice();
    body_of_process(alloc, process, task.seed, &processes[process as usize])
}
