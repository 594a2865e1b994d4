//! Programs under the schedule of a seed.

ghost use Rattle.std.specs.Prelude.{◌≡◌, ℕ};
ghost use Rattle.hc_cmach.specs.Calls.{CallsGoBack};
ghost use Rattle.hc_cmach.specs.Machine.{opening};
ghost use Rattle.hc_cexec.specs.Stands.{IsAt};
ghost use Rattle.hc_crun.specs.Told.{Tells, Executes};

use crate::telling::tell_items;
use hc_cast::CProgram;
use hc_cexec::Machine;
use hc_cmach::ExecEnd;
use hc_cprim::{Plain, Primitives};
use hc_world::{Failed, Sink, finish};
use std::alloc::Global;

/// Why there is no end.
#[derive(Clone, Copy, Debug, PartialEq, Eq)]
pub enum ExecStop {
    /// Memory ran out before anything was written.
    Memory,
    /// A write or a flush failed.
    Failed,
}

/// Runs a machine at its opening under the schedule of a seed, of so many items at most: up to the first end line or the first
/// undefined step. It writes the header and then each line when it is printed, each by one `write_all`, and flushes them.
/// `moved` becomes the number of steps that moved or printed. It takes no memory.
pub fn exec_opened<R: Primitives, O: Sink>(
    program: &CProgram,
    machine: &mut Machine,
    by: &mut R,
    seed: u64,
    steps: u32,
    out: &mut O,
    moved: &mut u64,
) -> Result<ExecEnd, Failed>
    ensures { IsAt program.now machine.old (opening program.now) → Tells O.state out.old out.new program.now seed steps moved.new result }
{
    let told = tell_items(program, machine, by, seed, steps, out);
    *moved = machine.moved();
    let end = told?;
    finish(out)?;
    Ok(end)
}

/// The same of a machine that is opened first: memory is all taken before the first write, and where it runs out nothing is
/// written and `moved` stays.
pub fn exec_by<R: Primitives, O: Sink>(
    alloc: Global,
    program: &CProgram,
    by: &mut R,
    seed: u64,
    steps: u32,
    out: &mut O,
    moved: &mut u64,
) -> Result<ExecEnd, ExecStop>
    requires { CallsGoBack program.now }
    ensures { Executes O.state out.old out.new program.now seed steps moved.old moved.new result }
{
    let Ok(mut machine) = Machine::open(alloc, program) else {
        return Err(ExecStop::Memory);
    };
    match exec_opened(program, &mut machine, by, seed, steps, out, moved) {
        Ok(end) => Ok(end),
        Err(_) => Err(ExecStop::Failed),
    }
}

/// `exec_by` with the arithmetic of `Plain`.
pub fn exec_counted<O: Sink>(
    alloc: Global,
    program: &CProgram,
    seed: u64,
    steps: u32,
    out: &mut O,
    moved: &mut u64,
) -> Result<ExecEnd, ExecStop>
    requires { CallsGoBack program.now }
    ensures { Executes O.state out.old out.new program.now seed steps moved.old moved.new result }
{
    exec_by(alloc, program, &mut Plain, seed, steps, out, moved)
}

/// `exec_counted`, without the count.
pub fn exec<O: Sink>(
    alloc: Global,
    program: &CProgram,
    seed: u64,
    steps: u32,
    out: &mut O,
) -> Result<ExecEnd, ExecStop>
    requires { CallsGoBack program.now }
    ensures { (moved : ℕ) × Executes O.state out.old out.new program.now seed steps 0 moved result }
{
    let mut moved = 0;
    exec_counted(alloc, program, seed, steps, out, &mut moved)
}
