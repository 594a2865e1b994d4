//! The thread of a process: its private steps, and its section.

ghost use Rattle.std.specs.Prelude.{◌≡◌, ◌<◌, ◌≤◌, ◌∷◌, ◌++◌, [], ℕ, List, IsTrue, IfOk};
ghost use Rattle.std.specs.List.{list_all};
ghost use Rattle.hc_code.specs.Kept.{is_instr};
ghost use Rattle.hc_cmach.specs.State.{Word};
ghost use Rattle.hc_cbuild.specs.Makes.{Makes};
ghost use Rattle.hc_cthreads.specs.Bodies as bodies;
ghost use Rattle.hc_cthreads.specs.Reports as reports;
ghost use Rattle.hc_csection.specs.Code as section;
ghost use Rattle.hc_csection.specs.PrivateLaw as private_law;
ghost use Rattle.hc_csection.specs.Words.{variables};
ghost use Rattle.hc_cgen.specs.Program.{thread_of};
ghost use Rattle.hc_cgen.specs.Threads as threads;

use hc_cast::{CBody, CExpr, CStmt};
use hc_cbuild::{
    below_one, call, equals, first_of, if_then, less, local, number, numbers, return_zero, set,
    single, store, take_call, while_do,
};
use hc_code::ProcCode;
use hc_cpost::{post_code, take_code};
use hc_cprivate::{private_statements, thread_locals};
use hc_list::List;
use hc_term::Task;
use std::alloc::{AllocError, Global};

/// `a_stop[0] < 1`
fn no_stop(alloc: Global) -> Result<CExpr, AllocError>
    ensures { Makes result section.no_stop }
{
    let stop = first_of(alloc, b"a_stop")?;
    below_one(alloc, stop)
}

/// `a_steps[0] < a_limit[0]`
fn has_room(alloc: Global) -> Result<CExpr, AllocError>
    ensures { Makes result section.has_room }
{
    let steps = first_of(alloc, b"a_steps")?;
    let limit = first_of(alloc, b"a_limit")?;
    less(alloc, steps, limit)
}

/// `fr_set(64, 67, horizon);`
fn sets_horizon(alloc: Global, task: &Task) -> Result<CStmt, AllocError>
    ensures { Makes result (threads.set_horizon task.now) }
{
    let mut arguments = numbers(alloc, &[64, 67])?;
    arguments.push(CExpr::Number(task.horizon.num()))?;
    arguments.push(CExpr::Number(task.horizon.den()))?;
    Ok(call(b"fr_set", arguments))
}

/// Horizon, limit and runner of the core.
fn sets(alloc: Global, task: &Task, n: u32) -> Result<List<CStmt>, AllocError>
    ensures { Makes result (section.sets task.now n) }
{
    let mut found = single(alloc, sets_horizon(alloc, task)?)?;
    found.push(store(b"a_limit", number(0), number(task.limit)))?;
    found.push(store(b"a_self", number(0), number(n)))?;
    Ok(found)
}

/// `f_enter(n, v_steps, v_end);`
fn enters(alloc: Global, n: u32) -> Result<CStmt, AllocError>
    ensures { Makes result (threads.enters n) }
{
    let mut arguments = List::new(alloc);
    arguments.push(number(n))?;
    arguments.push(local(b"v_steps"))?;
    arguments.push(local(b"v_end"))?;
    Ok(call(b"f_enter", arguments))
}

/// What a section does first: it sets the core up for this thread, and enters the thread's steps.
fn enter_steps(alloc: Global, task: &Task, n: u32) -> Result<List<CStmt>, AllocError>
    ensures { Makes result (section.enter_steps task.now n) }
{
    let mut found = sets(alloc, task, n)?;
    found.push(enters(alloc, n)?)?;
    Ok(found)
}

/// `if (room) { show } f_pass();`
fn shows_and_passes(alloc: Global, show: List<CStmt>) -> Result<List<CStmt>, AllocError>
    ensures { Makes result (threads.shows_and_passes show) }
{
    let mut found = single(alloc, if_then(has_room(alloc)?, show))?;
    found.push(call(b"f_pass", List::new(alloc)))?;
    Ok(found)
}

/// The report of thread `n`: it enters its steps, posts, and runs a pass, where no stop stands.
fn report(alloc: Global, task: &Task, n: u32, show: List<CStmt>) -> Result<List<CStmt>, AllocError>
    ensures { Makes result (reports.report_of section.no_stop section.has_room (section.enter_steps task.now n) show section.pass_call) }
{
    let inner = shows_and_passes(alloc, show)?;
    let entered = enter_steps(alloc, task, n)?;
    let mut found = single(alloc, if_then(no_stop(alloc)?, entered))?;
    found.push(if_then(no_stop(alloc)?, inner))?;
    Ok(found)
}

/// `v_x = f_idle(n);`
fn idle_test(alloc: Global, n: u32) -> Result<List<CStmt>, AllocError>
    ensures { Makes result (section.idle_test n) }
{
    let arguments = numbers(alloc, &[n])?;
    single(alloc, take_call(b"v_x", b"f_idle", arguments))
}

/// `while (v_x == 1) { c_wait(n); v_x = f_idle(n); }`
fn waiting(alloc: Global, n: u32) -> Result<CStmt, AllocError>
    ensures { Makes result (threads.waits n) }
{
    let test = equals(alloc, local(b"v_x"), number(1))?;
    let mut body = single(alloc, call(b"c_wait", numbers(alloc, &[n])?))?;
    body.append(idle_test(alloc, n)?)?;
    Ok(while_do(test, body))
}

/// `v_most = limit;`, and the private steps.
fn stretch(alloc: Global, task: &Task, private: List<CStmt>) -> Result<List<CStmt>, AllocError>
    ensures { Makes result (private_law.stretch_of task.now private) }
{
    let mut found = single(alloc, set(b"v_most", number(task.limit)))?;
    found.append(private)?;
    Ok(found)
}

/// A round: the stretch, and the section with its report, the wait and what is taken over.
fn round(
    alloc: Global,
    n: u32,
    stretch: List<CStmt>,
    report: List<CStmt>,
    take: List<CStmt>,
) -> Result<List<CStmt>, AllocError>
    ensures { Makes result (threads.round n stretch report take) }
{
    let mut tail = take;
    tail.push(call(b"m_unlock", List::new(alloc)))?;
    let mut waits = single(alloc, waiting(alloc, n)?)?;
    waits.append(tail)?;
    let mut idle = idle_test(alloc, n)?;
    idle.append(waits)?;
    let mut reported = report;
    reported.append(idle)?;
    let mut locked = single(alloc, call(b"m_lock", List::new(alloc)))?;
    locked.append(reported)?;
    let mut found = stretch;
    found.append(locked)?;
    Ok(found)
}

/// `while (v_done == 0) { .. } return 0;`
fn rounds(alloc: Global, round: List<CStmt>) -> Result<List<CStmt>, AllocError>
    ensures { Makes result (threads.rounds round) }
{
    let test = equals(alloc, local(b"v_done"), number(0))?;
    let mut found = single(alloc, while_do(test, round))?;
    found.push(return_zero())?;
    Ok(found)
}

/// The thread of process `n`, which has so many variables and this code.
pub(crate) fn thread(
    alloc: Global,
    task: &Task,
    n: u32,
    count: u32,
    code: &ProcCode,
) -> Result<CBody, AllocError>
    requires low { n < 64 }
    requires counted { count ≡ variables task.now n }
    requires few { count ≤ 64 }
    requires ruled { (channels : ℕ) × IsTrue (list_all (is_instr channels count) code.now.instrs) }
    ensures { Makes result (thread_of task.now n code.now.instrs) }
{
    let private = private_statements(alloc, n, count, task.seed, code)?;
    let stretch = stretch(alloc, task, private)?;
    let show = post_code(alloc, n, count, code)?;
    let report = report(alloc, task, n, show)?;
    let take = take_code(alloc, n, count, code)?;
    let round = round(alloc, n, stretch, report, take)?;
    let statements = rounds(alloc, round)?;
    let locals = thread_locals(alloc)?;
    Ok(CBody { locals, statements })
}
