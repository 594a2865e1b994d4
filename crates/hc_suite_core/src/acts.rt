//! What is done with a process, as a row says it.

use hc_frac::Frac;
use hc_rows::number;

/// What is done with a process.
#[derive(Clone, Copy, Debug, PartialEq, Eq)]
pub(crate) enum Act {
    /// At most so many silent steps are taken, up to one that logs.
    Stretch(u32),
    /// So many time units pass.
    Pass(Frac),
    /// It sends on the channel.
    Send(u32),
    /// It receives the value on the channel.
    Receive(u32, Frac),
}

/// What a word means: `5` is a stretch of at most 5 steps, `+3/2` lets 3/2 time units pass, `!0` sends on channel 0,
/// and `?1=-5` receives -5 on channel 1.
pub(crate) fn act_of(word: &str) -> Option<Act> {
    if let Some(by) = word.strip_prefix('+') {
        return Some(Act::Pass(Frac::read(by.as_bytes())?));
    }
    if let Some(channel) = word.strip_prefix('!') {
        return Some(Act::Send(number(channel)?));
    }
    if let Some(gift) = word.strip_prefix('?') {
        let (channel, value) = gift.split_once('=')?;
        let channel = number(channel)?;
        let value = Frac::read(value.as_bytes())?;
        return Some(Act::Receive(channel, value));
    }
    Some(Act::Stretch(number(word)?))
}
