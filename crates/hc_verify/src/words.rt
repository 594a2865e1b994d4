//! That all names of a system are words. Only a name itself tells that it is one, so each is read.

ghost use Rattle.std.specs.List.{AllByRecursion};
ghost use Rattle.hc_frac.specs.Word.{IsWord};
ghost use Rattle.hc_trace.specs.Written.{HasWords};

use hc_frac::Name;
use hc_term::{Process, System};

fn read_processes(processes: &[Process])
    ensures { AllByRecursion (λ p. IsWord p.name) processes.now }
{
    for process in processes {
        let _text = process.name.text();
    }
}

fn read_channels(channels: &[Name])
    ensures { AllByRecursion IsWord channels.now }
{
    for channel in channels {
        let _text = channel.text();
    }
}

/// All names of a system are words, which is what the law of texts asks of it.
pub fn read_names(system: &System)
    ensures { HasWords system.now }
{
    read_processes(system.processes.as_slice());
    read_channels(system.channels.as_slice());
}
