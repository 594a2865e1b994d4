//! The simulation of a system: all that wants memory first, then the run, written as it goes on.

ghost use Rattle.std.specs.Prelude.{◌≡◌, IfOk};
ghost use Rattle.hc_term.specs.Given.{HasParts};
ghost use Rattle.hc_cmd.specs.Answers.{listed, simulated, status_at};

use crate::ending::{End, Text, Told};
use crate::listing::listing_of;
use hc_joint::Joint;
use hc_sim::simulate;
use hc_term::{Stop, System, Task};
use hc_words::Settings;
use hc_world::{Failed, Sink};
use std::alloc::{AllocError, Global};

/// A simulation with all its memory, at the opening of its task.
#[derive(Drop)]
pub struct Simulation {
    pub(crate) joint: Joint,
}

impl Simulation {
    ghost use Rattle.hc_cmd.specs.Prepared.{AtOpening, Performs, reply_in};

    /// The simulation of a system with these settings.
    pub(crate) fn open(
        alloc: Global,
        settings: Settings,
        system: System,
    ) -> Result<Simulation, AllocError>
        ensures opening { IfOk result AtOpening }
        ensures parts { IfOk result (λ s. HasParts system settings.seed settings.horizon settings.limit s.joint.task) }
    {
        let joint = Joint::open(alloc, task_of(settings, system))?;
        Ok(Simulation { joint })
    }

    /// Runs it to its stop, writes each line when its turn is done, and tells the status. It takes no memory.
    pub(crate) fn perform<O: Sink>(self, out: &mut O) -> Result<End, Failed>
        requires { AtOpening self }
        ensures { Performs O.state out.old out.new (simulated self.joint.task) result }
    {
        let mut joint = self.joint;
        let stop = simulate(&mut joint, out)?;
        Ok(End::silent(status_of_stop(stop)))
    }

    /// Runs it to its stop, and tells what is handed over on each channel.
    pub(crate) fn list(self, alloc: Global) -> Result<Text, AllocError>
        requires { AtOpening self }
        ensures { IfOk result (λ text. reply_in text ≡ listed self.joint.task) }
    {
        let mut joint = self.joint;
        joint.finish();
        listing_of(alloc, &joint, Told::nothing())
    }
}

/// The task of simulating the system with these settings.
pub(crate) fn task_of(settings: Settings, system: System) -> Task
    ensures { HasParts system settings.seed settings.horizon settings.limit result }
{
    Task::new(system, settings.seed, settings.horizon, settings.limit)
}

/// The status of a run that ends so.
pub(crate) fn status_of_stop(stop: Stop) -> u8
    ensures { result ≡ status_at stop }
{
    match stop {
        Stop::Terminated | Stop::Horizon => 0,
        Stop::Deadlock => 10,
        Stop::Overflow { .. } => 11,
        Stop::Limit => 12,
    }
}
