//! Programs at their opening.

ghost use Rattle.std.specs.Prelude.{◌≡◌, ◌∷◌, ◌++◌, [], map, IfOk};
ghost use Rattle.hc_cexec.specs.Opening as spec;

use crate::activation::{Activation, Activations};
use crate::kernel::World;
use crate::row::Row;
use crate::thread::Thread;
use hc_cast::CProgram;
use hc_ccode::{Code, Entry};
use hc_cprim::{Arrays, Numbers};
use hc_schedule::Status;
use std::alloc::{AllocError, Global};

/// The least room for the values of arguments: a primitive has at most six.
const LEAST_ROOM: usize = 6;

/// Room for the arguments of each function, and of each primitive.
fn most_arguments(functions: &[Entry]) -> usize
    ensures { result ≡ spec.most_of 6 functions.now }
{
    let mut most = LEAST_ROOM;
    for entry in functions {
        most = most.max(entry.params);
    }
    most
}

/// A body that nobody has called.
fn idle(alloc: Global, entry: &Entry) -> Result<Activation, AllocError>
    ensures { IfOk result (λ a. a ≡ spec.idle entry.now) }
{
    let Some(count) = entry.params.checked_add(entry.locals) else {
        return Err(AllocError);
    };
    let values = Numbers::zeros(alloc, count)?;
    Ok(Activation {
        values,
        place: entry.start,
        caller: None,
        result: None,
        gives: entry.gives,
    })
}

/// A body for each function, and behind them the thread's own.
fn all_idle(alloc: Global, functions: &[Entry], own: &Entry) -> Result<Vec<Activation>, AllocError>
    ensures { IfOk result (λ v. v.items ≡ map spec.idle functions.now ++ spec.idle own.now ∷ []) }
{
    let mut bodies = Vec::new(alloc);
    for entry in functions {
        bodies.push(idle(alloc, entry)?)?;
    }
    bodies.push(idle(alloc, own)?)?;
    Ok(bodies)
}

/// A thread at its first statement.
fn open_thread(alloc: Global, functions: &[Entry], own: &Entry) -> Result<Thread, AllocError>
    ensures { IfOk result (λ th. th ≡ spec.opened functions.now own.now) }
{
    let row = Row::zeros(alloc)?;
    let bodies = all_idle(alloc, functions, own)?;
    Ok(Thread {
        row,
        activations: Activations::new(bodies),
        current: Some(functions.len()),
        status: Status::Ready,
    })
}

/// All threads at their first statements.
fn open_threads(
    alloc: Global,
    functions: &[Entry],
    threads: &[Entry],
) -> Result<Vec<Thread>, AllocError>
    ensures { IfOk result (λ v. v.items ≡ map (spec.opened functions.now) threads.now) }
{
    let mut opened = Vec::new(alloc);
    for own in threads {
        opened.push(open_thread(alloc, functions, own)?)?;
    }
    Ok(opened)
}

/// A world at the opening of a program with this code.
pub(crate) fn open_world(
    alloc: Global,
    program: &CProgram,
    code: &Code,
) -> Result<World, AllocError>
    ensures { IfOk result (spec.IsOpened program.now code.now) }
{
    let functions = code.functions.as_slice();
    let row = Row::zeros(alloc)?;
    let arrays = Arrays::open(alloc, program)?;
    let threads = open_threads(alloc, functions, code.threads.as_slice())?;
    let arguments = Numbers::zeros(alloc, most_arguments(functions))?;
    Ok(World {
        owner: None,
        row,
        arrays,
        threads,
        arguments,
    })
}
