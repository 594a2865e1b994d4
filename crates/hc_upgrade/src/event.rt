//! Events made new.

ghost use Rattle.std.specs.Prelude.{◌≡◌};
ghost use Rattle.std.specs.Option.{option_map};
ghost use Rattle.hc_upgrade.specs.Upgraded as spec;
ghost use Rattle.hc_upgrade.specs.Seen as seen;

use crate::routes::{Route, agrees, route_named};
use hc_frac::{Frac, Name};
use hc_trace::TraceEvent;

/// An event of version 2, whose names stand elsewhere.
#[derive(Clone, Copy)]
pub(crate) enum Event<'a> {
    Delay { by: Frac },
    Comm { route: &'a Route, value: Frac },
    Log { process: &'a Name, value: Frac },
}

/// The event made new, if it can be.
pub(crate) fn upgraded<'a>(routes: &'a [Route], event: &'a TraceEvent) -> Option<Event<'a>>
    ensures { option_map seen.event result ≡ spec.upgraded_event routes.now event.now }
{
    match event {
        TraceEvent::Delay { by } => Some(Event::Delay { by: *by }),
        TraceEvent::Comm {
            channel,
            sender,
            receiver,
            value,
        } => {
            let route = route_named(routes, channel)?;
            if agrees(sender, &route.sender) && agrees(receiver, &route.receiver) {
                Some(Event::Comm {
                    route,
                    value: *value,
                })
            } else {
                None
            }
        }
        TraceEvent::Log { process, value } => Some(Event::Log {
            process,
            value: *value,
        }),
    }
}
