//! The phases of the check behind the limits.

ghost use Rattle.std.specs.Prelude.{◌≡◌, [], map, flat_map, OnOk, IfErr};
ghost use Rattle.hc_modules.specs.Outermost.{in_a_row};
ghost use Rattle.hc_modules.specs.Found.{first_of, IsFirst};
ghost use Rattle.hc_finds.specs.First.{told};
ghost use Rattle.hc_finds.specs.declared.stop.CheckStop.TheVariants as stop;
ghost use Rattle.hc_finds.specs.Rules as spec_rules;
ghost use Rattle.hc_finds.specs.Seen.{each_seen, all_uses};
ghost use Rattle.hc_finds.specs.Refusals as found;
ghost use Rattle.hc_finds.specs.Uses as spec;

use crate::parts::Part;
use crate::rules::Rule;
use crate::stop::CheckStop;
use crate::uses::{Use, no_second_end, no_turn};
use std::alloc::Global;

/// The rules in the order in which they are asked.
const RULES: [Rule; 6] = [
    Rule::DivisorNotLiteral,
    Rule::ZeroDivisor,
    Rule::RepeatedRate,
    Rule::RateEvolves,
    Rule::NotAffine,
    Rule::RepeatedGuard,
];

/// An error is the first refusal by a rule on the parts of processes.
fn kept_in(rule: Rule, processes: &[Vec<Part<'_>>]) -> Result<(), CheckStop>
    ensures { result ≡ first_of (spec_rules.broken rule (in_a_row (each_seen processes.now))) }
{
    for parts in processes {
        rule.kept(parts)?;
    }
    Ok(())
}

/// An error is the first refusal by one of these rules, rule after rule.
fn all_kept(rules: &[Rule], processes: &[Vec<Part<'_>>]) -> Result<(), CheckStop>
    ensures { result ≡ first_of (flat_map (λ r. spec_rules.broken r (in_a_row (each_seen processes.now))) rules.now) }
{
    for rule in rules {
        kept_in(*rule, processes)?;
    }
    Ok(())
}

/// An error is the first refusal by a rule.
pub(crate) fn rules_kept(processes: &[Vec<Part<'_>>]) -> Result<(), CheckStop>
    ensures { result ≡ first_of (flat_map (λ r. spec_rules.broken r (in_a_row (each_seen processes.now))) spec_rules.rules) }
{
    all_kept(&RULES, processes)
}

/// No process may use a channel in both directions.
fn no_self_channel(alloc: Global, processes: &[Vec<Use<'_>>]) -> Result<(), CheckStop>
    ensures ok { OnOk result (flat_map spec.self_channels (all_uses processes.now) ≡ []) }
    ensures stop { IfErr result (IsFirst told (map stop.SelfChannel (flat_map spec.self_channels (all_uses processes.now)))) }
{
    for uses in processes {
        no_turn(alloc, uses)?;
    }
    Ok(())
}

/// The ends of channels: no process on both, no second sender, no second receiver.
pub(crate) fn no_bad_end(alloc: Global, processes: &[Vec<Use<'_>>]) -> Result<(), CheckStop>
    ensures ok { OnOk result (found.bad_ends (all_uses processes.now) ≡ []) }
    ensures stop { IfErr result (IsFirst told (found.bad_ends (all_uses processes.now))) }
{
    no_self_channel(alloc, processes)?;
    no_second_end(alloc, true, processes)?;
    no_second_end(alloc, false, processes)
}
