//! The text of a made source.

ghost use Rattle.std.specs.Prelude.{◌≡◌, ◌≤◌, ◌+◌, ◌++◌, IfOk, OnOk, length};
ghost use Rattle.hc_limits.specs.Limits.{most_pairs, most_source_bytes};
ghost use Rattle.hc_make.specs.Made as spec;

use arrayvec::ArrayString;
use itoa::Buffer;
use rand_pcg::Pcg32;
use rand_pcg::rand_core::utils::NextWord;
use std::alloc::{AllocError, Global};

/// The rates from which one is drawn, each of which 24 is a multiple of.
const RATES: [u32; 6] = [1, 2, 3, 4, 6, 8];

/// The text of a source with so many pairs of processes, by the words of a generator that the seed starts. In each pair one
/// process fills up at a constant rate and sends, 1,000 times, and the other adds up what it receives and logs it.
pub fn made_source(alloc: Global, pairs: u32, seed: u64) -> Result<Vec<u8>, AllocError>
    requires { pairs ≤ most_pairs }
    ensures text { IfOk result (λ text. text.items ≡ spec.made_text pairs seed) }
    ensures short { IfOk result (λ text. length text.items ≤ most_source_bytes) }
{
    let mut words = Pcg32::new(seed, 1);
    let mut text = Vec::new(alloc);
    text.extend_from_slice(b"system\n")?;
    for number in 0..pairs {
        let rate = rate_of(words.next_word());
        put_pair(&mut text, number, rate)?;
        put_line_end(&mut text, pairs - 1 - number)?;
    }
    text.extend_from_slice(b"endsystem\n")?;
    Ok(text)
}

/// The rate that a word draws.
fn rate_of(word: u32) -> u32
    ensures { result ≡ spec.rate_of word }
{
    RATES[(word % 6) as usize]
}

/// Appends the two processes of a pair, the last without the end of its line.
fn put_pair(text: &mut Vec<u8>, number: u32, rate: u32) -> Result<(), AllocError>
    ensures pair { OnOk result (text.new.items ≡ text.old.items ++ spec.pair number rate) }
    ensures short { OnOk result (length text.new.items ≤ length text.old.items + 256) }
{
    text.extend_from_slice(filling(number, rate).as_str().as_bytes())?;
    text.extend_from_slice(b" ||\n")?;
    text.extend_from_slice(counting(number).as_str().as_bytes())?;
    Ok(())
}

/// Ends the line of a process behind which so many pairs follow.
fn put_line_end(text: &mut Vec<u8>, more: u32) -> Result<(), AllocError>
    ensures { OnOk result (text.new.items ≡ text.old.items ++ spec.line_end more) }
{
    if more == 0 {
        text.extend_from_slice(b"\n")?;
    } else {
        text.extend_from_slice(b" ||\n")?;
    }
    Ok(())
}

/// The process that fills up.
fn filling(number: u32, rate: u32) -> ArrayString<128>
    ensures { result.bytes ≡ spec.filling number rate }
{
    let mut buffer = Buffer::new();
    let mut line = ArrayString::new();
    line.push('A');
    line.push_str(buffer.format(number));
    line.push_str(" = (k := 0; (x := 0; <x_dot = ");
    line.push_str(buffer.format(rate));
    line.push_str(" & x < 24>; c");
    line.push_str(buffer.format(number));
    line.push_str("!x; k := k + 1){k < 1000}**)");
    line
}

/// The process that counts.
fn counting(number: u32) -> ArrayString<128>
    ensures { result.bytes ≡ spec.counting number }
{
    let mut buffer = Buffer::new();
    let mut line = ArrayString::new();
    line.push('B');
    line.push_str(buffer.format(number));
    line.push_str(" = (j := 0; (c");
    line.push_str(buffer.format(number));
    line.push_str("?y; s := s + y; j := j + 1){j < 1000}**; log(s))");
    line
}
