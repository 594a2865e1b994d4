//! The limits on guards, channels, variables and nodes.

ghost use Rattle.std.specs.Prelude.{◌≡◌, ◌++◌, [], map, nat_lt, length, flat_map, slice_get, Some, OnOk, IfErr, option_map};
ghost use Rattle.hc_limits.specs.Limits.{most_nodes};
ghost use Rattle.hc_modules.specs.Finds.{only_if};
ghost use Rattle.hc_modules.specs.Outermost.{of_io};
ghost use Rattle.hc_modules.specs.Sizes as size;
ghost use Rattle.hc_finds.specs.declared.stop.What.TheVariants as what;
ghost use Rattle.hc_finds.specs.declared.stop.CheckStop.TheVariants.{TooMany};
ghost use Rattle.hc_finds.specs.Limits as spec;
ghost use Rattle.hc_finds.specs.Seen.{part_of, seen};
ghost use Rattle.hc_finds.specs.First.{told};
ghost use Rattle.hc_modules.specs.Found.{first_of, IsFirst};
ghost use Rattle.hc_finds.specs.Tally as tally;

use crate::exprs::refused_if;
use crate::names::{note, note_variables};
use crate::parts::Part;
use crate::stop::{CheckStop, What};
use hc_ast::{CondTree, ExprTree, IoTree};
use hc_frac::{Name, Place};
use hc_limits::{MOST_CHANNELS, MOST_GUARDS, MOST_NODES, MOST_VARIABLES};
use hc_modules::{cond_nodes_of, nodes_of};
use indexmap::IndexSet;

/// An error is the root of the expression, where it has too many nodes.
fn short_expr(expr: &ExprTree) -> Result<(), Place>
    ensures { result ≡ first_of (only_if (nat_lt most_nodes (size.nodes expr.now)) expr.now.place) }
{
    refused_if(nodes_of(expr) > MOST_NODES, expr.place)
}

/// An error is the root of the condition, where it has too many nodes.
fn short_cond(cond: &CondTree) -> Result<(), Place>
    ensures { result ≡ first_of (only_if (nat_lt most_nodes (size.cond_nodes cond.now)) cond.now.place) }
{
    refused_if(cond_nodes_of(cond) > MOST_NODES, cond.place)
}

fn short_sent(io: &IoTree) -> Result<(), Place>
    ensures { result ≡ first_of (flat_map (λ o. only_if (nat_lt most_nodes o.size) o.place) (of_io io.now)) }
{
    match io {
        IoTree::Send { channel: _, value } => short_expr(value),
        IoTree::Receive { .. } => Ok(()),
    }
}

/// An error is the root of the outermost expression or condition of a part, where it has too many nodes.
fn short_root(part: Part<'_>) -> Result<(), Place>
    ensures { result ≡ first_of (spec.nodes_beyond (part_of part.entry)) }
{
    match part {
        Part::Assign { value, .. } | Part::Compute { value, .. } => short_expr(value),
        Part::Test { test, .. } => short_cond(test),
        Part::Communicate { io, .. } | Part::Guard { io, .. } => short_sent(io),
        Part::Rate { rate, .. } => short_expr(&rate.value),
        Part::Domain { domain, .. } => short_cond(domain),
    }
}

/// The statement, branch or rate that a part belongs to.
fn place_of(part: Part<'_>) -> Place
    ensures { result ≡ spec.place_of (part_of part.entry) }
{
    match part {
        Part::Assign { place, .. }
        | Part::Compute { place, .. }
        | Part::Test { place, .. }
        | Part::Communicate { place, .. }
        | Part::Domain { place, .. }
        | Part::Guard { place, .. } => place,
        Part::Rate { rate, .. } => rate.place,
    }
}

/// The channel that a part names.
fn channel_of<'a>(part: Part<'a>) -> Option<&'a Name>
    ensures { option_map (λ x. x.now) result ≡ slice_get (spec.channels_in (part_of part.entry)) 0 }
{
    match part {
        Part::Communicate { io, .. } | Part::Guard { io, .. } => match io {
            IoTree::Send { channel, .. } | IoTree::Receive { channel, .. } => Some(channel),
        },
        _ => None,
    }
}

fn too_many(what: What, place: Place) -> CheckStop
    ensures { result ≡ TooMany what place }
{
    CheckStop::TooMany { what, place }
}

/// A branch beyond the limit of guards is refused.
fn limit_guards(part: Part<'_>) -> Result<(), CheckStop>
    ensures ok { OnOk result (spec.guards_beyond (part_of part.entry) ≡ []) }
    ensures stop { IfErr result (IsFirst told (map (TooMany what.Guards) (spec.guards_beyond (part_of part.entry)))) }
{
    match part {
        Part::Guard { earlier, place, .. } => {
            if earlier.len() >= MOST_GUARDS {
                return Err(too_many(What::Guards, place));
            }
            Ok(())
        }
        _ => Ok(()),
    }
}

/// An outermost expression or condition with too many nodes is refused.
fn limit_nodes(part: Part<'_>) -> Result<(), CheckStop>
    ensures ok { OnOk result (spec.nodes_beyond (part_of part.entry) ≡ []) }
    ensures stop { IfErr result (IsFirst told (map (TooMany what.Nodes) (spec.nodes_beyond (part_of part.entry)))) }
{
    match short_root(part) {
        Err(place) => Err(too_many(What::Nodes, place)),
        Ok(()) => Ok(()),
    }
}

/// The names so far, each at its first occurrence.
#[derive(Drop)]
pub(crate) struct NamesSoFar {
    /// Of all channels.
    pub(crate) channels: IndexSet<Name>,
    /// Of the variables of one process.
    pub(crate) variables: IndexSet<Name>,
}

impl NamesSoFar {
    /// Notes the channel of a part, of which there may be so many as the limit says.
    fn limit_channels(&mut self, part: Part<'_>) -> Result<(), CheckStop>
        ensures ok { OnOk result (tally.channels_over self.old.channels.keys (part_of part.entry) ≡ []) }
        ensures noted { OnOk result (self.new.channels.keys ≡ tally.with_names self.old.channels.keys (spec.channels_in (part_of part.entry))) }
        ensures others { self.new.variables ≡ self.old.variables }
        ensures stop { IfErr result (IsFirst told (map (TooMany what.Channels) (tally.channels_over self.old.channels.keys (part_of part.entry)))) }
    {
        let Some(channel) = channel_of(part) else {
            return Ok(());
        };
        note(&mut self.channels, channel)?;
        if self.channels.len() > MOST_CHANNELS {
            return Err(too_many(What::Channels, place_of(part)));
        }
        Ok(())
    }

    /// Notes the variables of a part, of which its process may have so many as the limit says.
    fn limit_variables(&mut self, part: Part<'_>) -> Result<(), CheckStop>
        ensures ok { OnOk result (tally.variables_over self.old.variables.keys (part_of part.entry) ≡ []) }
        ensures noted { OnOk result (self.new.variables.keys ≡ tally.with_names self.old.variables.keys (spec.variables_in (part_of part.entry))) }
        ensures others { self.new.channels ≡ self.old.channels }
        ensures stop { IfErr result (IsFirst told (map (TooMany what.Variables) (tally.variables_over self.old.variables.keys (part_of part.entry)))) }
    {
        note_variables(&mut self.variables, part)?;
        if self.variables.len() > MOST_VARIABLES {
            return Err(too_many(What::Variables, place_of(part)));
        }
        Ok(())
    }

    /// Notes the names of a part, unless it goes beyond a limit.
    fn limit(&mut self, part: Part<'_>) -> Result<(), CheckStop>
        ensures ok { OnOk result (tally.over_at self.old.channels.keys self.old.variables.keys (part_of part.entry) ≡ []) }
        ensures channels { OnOk result (self.new.channels.keys ≡ tally.with_names self.old.channels.keys (spec.channels_in (part_of part.entry))) }
        ensures variables { OnOk result (self.new.variables.keys ≡ tally.with_names self.old.variables.keys (spec.variables_in (part_of part.entry))) }
        ensures stop { IfErr result (IsFirst told (tally.over_at self.old.channels.keys self.old.variables.keys (part_of part.entry))) }
    {
        limit_guards(part)?;
        self.limit_channels(part)?;
        self.limit_variables(part)?;
        limit_nodes(part)
    }

    /// Notes the names of the parts of a process, unless one goes beyond a limit.
    pub(crate) fn limit_all(&mut self, parts: &[Part<'_>]) -> Result<(), CheckStop>
        ensures ok { OnOk result (tally.over_along self.old.channels.keys self.old.variables.keys (seen parts.now) ≡ []) }
        ensures channels { OnOk result (self.new.channels.keys ≡ tally.with_names self.old.channels.keys (flat_map spec.channels_in (seen parts.now))) }
        ensures variables { OnOk result (self.new.variables.keys ≡ tally.with_names self.old.variables.keys (flat_map spec.variables_in (seen parts.now))) }
        ensures stop { IfErr result (IsFirst told (tally.over_along self.old.channels.keys self.old.variables.keys (seen parts.now))) }
    {
        for part in parts {
            self.limit(*part)?;
        }
        Ok(())
    }
}
