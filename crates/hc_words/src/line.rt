//! The command line, read by `clap`.

ghost use Rattle.std.specs.Prelude.{◌≡◌, false, length, map, IfOk, IsErrOf, IsTrue, option_map};
ghost use Rattle.std.specs.String.{string_bytes};
ghost use Rattle.clap.specs.Matches.{found_of};
ghost use Rattle.clap.specs.Simple.{app_of};
ghost use Rattle.clap.specs.Walk.{rule_of, rows_of};
ghost use Rattle.hc_words.specs.Line as spec;
ghost use Rattle.hc_words.specs.Seen.{seen};

use crate::requests::WordsStop;
use clap::error::ErrorKind;
use clap::{Arg, ArgAction, ArgMatches, Command};
use std::alloc::{AllocError, Global};

/// What stands behind the action, as it is written.
#[derive(Drop)]
pub(crate) struct Given<'a> {
    pub(crate) number: Option<&'a str>,
    pub(crate) seed: Option<&'a str>,
    pub(crate) horizon: Option<&'a str>,
    pub(crate) limit: Option<&'a str>,
    pub(crate) workers: Option<&'a str>,
    pub(crate) steps: Option<&'a str>,
    pub(crate) report: bool,
    pub(crate) channels: bool,
}

/// A word by its place.
fn word_arg<'a>(alloc: Global, id: &'a str) -> Arg<'a>
    ensures rule { rule_of result ≡ spec.word_rule id.entry.now }
    ensures local { result.global ≡ false }
{
    Arg::new(alloc, id)
}

/// An option with one value.
fn option_arg<'a>(alloc: Global, id: &'a str) -> Arg<'a>
    ensures rule { rule_of result ≡ spec.option_rule id.entry.now }
    ensures local { result.global ≡ false }
{
    Arg::new(alloc, id).long(id)
}

/// An option without a value.
fn flag_arg<'a>(alloc: Global, id: &'a str) -> Arg<'a>
    ensures rule { rule_of result ≡ spec.flag_rule id.entry.now }
    ensures local { result.global ≡ false }
{
    Arg::new(alloc, id).long(id).action(ArgAction::SetTrue)
}

fn command<'a>(alloc: Global) -> Result<Command<'a>, AllocError>
    ensures { IfOk result (λ command. app_of command ≡ spec.hcsp) }
{
    Command::new(alloc, "hcsp")
        .arg(word_arg(alloc, "ACTION"))?
        .arg(word_arg(alloc, "N"))?
        .arg(option_arg(alloc, "seed"))?
        .arg(option_arg(alloc, "horizon"))?
        .arg(option_arg(alloc, "limit"))?
        .arg(option_arg(alloc, "workers"))?
        .arg(option_arg(alloc, "steps"))?
        .arg(flag_arg(alloc, "report"))?
        .arg(flag_arg(alloc, "channels"))
}

fn is_yes(flag: Option<&str>) -> bool
    ensures { result ≡ spec.is_yes (option_map (λ s. s.now) flag.entry) }
{
    match flag {
        Some(text) => text == "true",
        None => false,
    }
}

fn given_of<'a>(matches: &ArgMatches<'a>) -> Given<'a>
    ensures { seen result ≡ spec.given_in (rows_of (found_of matches.now)) }
{
    Given {
        number: matches.get_str("N"),
        seed: matches.get_str("seed"),
        horizon: matches.get_str("horizon"),
        limit: matches.get_str("limit"),
        workers: matches.get_str("workers"),
        steps: matches.get_str("steps"),
        report: is_yes(matches.get_str("report")),
        channels: is_yes(matches.get_str("channels")),
    }
}

/// What the words give, or that clap refuses them.
pub(crate) fn read_words<'a>(alloc: Global, words: &'a Vec<String>) -> Result<Given<'a>, WordsStop>
    ensures taken { IfOk result (λ _. IsTrue (spec.is_taken (map string_bytes words.now.items))) }
    ensures given { IfOk result (λ given. seen given ≡ spec.given (map string_bytes words.now.items)) }
    ensures refused { IsErrOf result WordsStop.Usage → IsTrue (spec.is_taken (map string_bytes words.now.items)) → ⊥ }
{
    let command = match command(alloc) {
        Ok(command) => command,
        Err(_) => return Err(WordsStop::Memory),
    };
    match command.try_get_matches_from(words.as_slice()) {
        Ok(matches) => Ok(given_of(&matches)),
        Err(error) if error.kind() == ErrorKind::OutOfMemory => Err(WordsStop::Memory),
        Err(_) => Err(WordsStop::Usage),
    }
}
