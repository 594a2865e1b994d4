//! The program of a task.

ghost use Rattle.std.specs.Prelude.{◌≡◌, ◌<◌, ◌≤◌, ℕ, Some, slice_get, length, map, sum_by, IsTrue, IfOk};
ghost use Rattle.std.specs.List.{list_all};
ghost use Rattle.hc_limits.specs.Limits.{most_processes, most_statements};
ghost use Rattle.hc_term.specs.Rules.{is_process, body_statements};
ghost use Rattle.hc_cgen.specs.Made.{IsThreadFor, AreThreadsFor, IsProgramFor};
ghost use Rattle.hc_cgen.specs.Generated.{IsGenerated};

use crate::thread::thread;
use hc_cast::{CBody, CProgram};
use hc_code::compile;
use hc_core_c::{core_arrays, core_tree};
use hc_csection::section_tree;
use hc_frac::Name;
use hc_list::List;
use hc_runs::read_numbers;
use hc_term::{Process, Task};
use std::alloc::{AllocError, Global};

/// The thread of a process, by its number.
#[tactic(auto, using(crate::proofs::Generating::few_variables, crate::proofs::Generating::ruled_code))]
fn thread_for(
    alloc: Global,
    task: &Task,
    number: u32,
    process: &Process,
) -> Result<CBody, AllocError>
    requires low { number < 64 }
    requires there { slice_get task.now.system.processes number ≡ Some process.now }
    requires ruled { (channels : ℕ) × IsTrue (is_process channels process.now) }
    requires few { body_statements process.now ≤ most_statements }
    ensures { IfOk result (λ body. IsThreadFor task.now number process.now body) }
{
    let code = compile(alloc, process)?;
    let count = process.variables.len() as u32;
    thread(alloc, task, number, count, &code)
}

/// The threads of all processes of a task, in their order.
fn threads_for(alloc: Global, task: &Task, processes: &[Process]) -> Result<List<CBody>, AllocError>
    requires own { processes.now ≡ task.now.system.processes }
    requires ruled { (channels : ℕ) × IsTrue (list_all (is_process channels) processes.now) }
    requires few { length processes.now ≤ most_processes }
    requires small { sum_by body_statements processes.now ≤ most_statements }
    ensures { IfOk result (λ threads. AreThreadsFor task.now 0 processes.now threads) }
{
    let mut threads = List::new(alloc);
    for process in processes {
        let number = threads.len() as u32;
        threads.push(thread_for(alloc, task, number, process)?)?;
    }
    Ok(threads)
}

fn copy_of_names(alloc: Global, names: &[Name]) -> Result<List<Name>, AllocError>
    ensures { IfOk result (λ copy. copy ≡ names.now) }
{
    let mut copy = List::new(alloc);
    for name in names {
        copy.push(name.copy())?;
    }
    Ok(copy)
}

fn process_names(alloc: Global, processes: &[Process]) -> Result<List<Name>, AllocError>
    ensures { IfOk result (λ names. names ≡ map (λ p. p.name) processes.now) }
{
    let mut names = List::new(alloc);
    for process in processes {
        names.push(process.name.copy())?;
    }
    Ok(names)
}

/// The program of C that runs a task, with a thread for each process. Under every schedule it keeps its promises. The one error is
/// want of memory.
pub fn generate(alloc: Global, task: &Task) -> Result<CProgram, AllocError>
    ensures made { IfOk result (λ program. IsProgramFor task.now program) }
    ensures generated { IfOk result (λ program. IsGenerated task.now program) }
{
    read_numbers(task);
    let processes = task.system.processes.as_slice();
    let channels = task.system.channels.as_slice();
    let threads = threads_for(alloc, task, processes)?;
    let count = processes.len() as u32;
    let arrays = core_arrays(alloc, count, channels.len() as u32)?;
    let mut functions = core_tree(alloc, count, channels.len() as u32)?;
    functions.append(section_tree(alloc)?)?;
    let channels = copy_of_names(alloc, channels)?;
    let processes = process_names(alloc, processes)?;
    Ok(CProgram {
        arrays,
        channels,
        processes,
        functions,
        threads,
    })
}
