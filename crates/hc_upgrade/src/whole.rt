//! Whole traces made new.

ghost use Rattle.std.specs.Prelude.{◌≡◌, ◌++◌, Ok, Err, IfOk, IfErr, IfSome};
ghost use Rattle.hc_upgrade.specs.Upgraded as spec;
ghost use Rattle.hc_upgrade.specs.Stops.{told};
ghost use Rattle.hc_upgrade.specs.Written.{behind, lines_text};

use crate::event::upgraded;
use crate::line::{put_end, put_line};
use crate::routes::{Route, routes};
use hc_term::System;
use hc_trace::{HEADER, Trace, TraceLine};
use std::alloc::{AllocError, Global};

/// Why there is no new trace.
#[derive(Clone, Copy, Debug, PartialEq, Eq)]
pub enum UpgradeStop {
    /// The line with this number, the header being line 1, is the first with a communication over no channel of the system
    /// with both ends, or with other ends than those that it names.
    Channel { number: u64 },
    /// Memory ran out.
    Memory,
}

impl From<AllocError> for UpgradeStop {
    ghost use Rattle.hc_upgrade.specs.declared.whole.UpgradeStop.TheVariants.{Memory};

    ghost from_gives = { λ _ stop. stop ≡ Memory };

    fn from(_: AllocError) -> UpgradeStop {
        UpgradeStop::Memory
    }
}

/// The text of a trace, of either version, made new: version 2, with the same lines and the same end line, and with the
/// names that the system has for both ends of each channel.
pub fn upgrade(alloc: Global, system: &System, trace: &Trace) -> Result<Vec<u8>, UpgradeStop>
    ensures text { IfOk result (λ text. spec.upgraded_text system.now trace.now ≡ Ok text.items) }
    ensures refusal { IfErr result (λ stop. IfSome (told stop) (λ n. spec.upgraded_text system.now trace.now ≡ Err n)) }
{
    let routes = routes(alloc, system)?;
    let mut text = Vec::new(alloc);
    text.extend_from_slice(HEADER)?;
    put_lines(&mut text, routes.as_slice(), trace.lines.as_slice())?;
    put_end(&mut text, &trace.end)?;
    Ok(text)
}

/// Appends the lines made new, of which the first is line 2 of the trace.
fn put_lines(text: &mut Vec<u8>, routes: &[Route], lines: &[TraceLine]) -> Result<(), UpgradeStop>
    ensures text { IfOk result (λ done. behind text.old.items (lines_text routes.now 2 lines.now) ≡ Ok text.new.items) }
    ensures refusal { IfErr result (λ stop. IfSome (told stop) (λ n. lines_text routes.now 2 lines.now ≡ Err n)) }
{
    for (place, line) in lines.iter().enumerate() {
        let Some(event) = upgraded(routes, &line.event) else {
            return Err(UpgradeStop::Channel {
                number: place as u64 + 2,
            });
        };
        put_line(text, line.at, &event)?;
    }
    Ok(())
}
