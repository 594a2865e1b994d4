//! The channels of a system, with both ends by their names.

ghost use Rattle.std.specs.Prelude.{◌≡◌, ◌<◌, length, IfOk, IfSome, map, Some};
ghost use Rattle.std.specs.Option.{option_map};
ghost use Rattle.hc_term.specs.TraceText as text;
ghost use Rattle.hc_upgrade.specs.Routes as spec;

use hc_frac::Name;
use hc_list::List;
use hc_term::{System, channel_ends};
use std::alloc::{AllocError, Global};

/// A channel with the process that sends on it and the one that receives, by their names.
#[derive(Drop)]
pub(crate) struct Route {
    pub(crate) channel: Name,
    pub(crate) sender: Name,
    pub(crate) receiver: Name,
}

/// The channels of the system that have both ends, by their numbers.
pub(crate) fn routes(alloc: Global, system: &System) -> Result<List<Route>, AllocError>
    ensures { IfOk result (λ found. found ≡ spec.routes system.now) }
{
    let mut found = List::new(alloc);
    for (number, name) in system.channels.as_slice().iter().enumerate() {
        if let Some(route) = route_of(system, number as u32, name) {
            found.push(route)?;
        }
    }
    Ok(found)
}

/// The channel of this number and name, if it has both ends.
fn route_of(system: &System, number: u32, channel: &Name) -> Option<Route>
    ensures { result ≡ spec.route_at system.now number channel.now }
{
    let ends = channel_ends(system, number);
    let sender = ends.sender?;
    let receiver = ends.receiver?;
    Some(Route {
        channel: channel.copy(),
        sender: process_name(system, sender),
        receiver: process_name(system, receiver),
    })
}

/// The name of the process with this number.
fn process_name(system: &System, process: u32) -> Name
    requires { process < length system.now.processes }
    ensures { result ≡ text.process_name system.now process }
{
    system.processes.as_slice()[process as usize].name.copy()
}

/// The first of the channels that has this name.
pub(crate) fn route_named<'a>(routes: &'a [Route], channel: &Name) -> Option<&'a Route>
    ensures { option_map (λ r. r.now) result ≡ spec.route_named channel.now routes.now }
{
    routes.iter().find(|route| route.channel == *channel)
}

/// Whether a name, where it is given, is this one.
pub(crate) fn agrees(given: &Option<Name>, name: &Name) -> bool
    ensures { result ≡ spec.agrees given.now name.now }
{
    match given {
        None => true,
        Some(given) => *given == *name,
    }
}
