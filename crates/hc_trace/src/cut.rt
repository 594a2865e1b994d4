//! Bytes cut at a byte.
ghost use Rattle.std.specs.Prelude.{◌≡◌, ◌==◌, ◌∷◌, ◌++◌, MatchOption};
ghost use Rattle.std.specs.List.{position};
ghost use Rattle.hc_trace.specs.Reading.{Lacks};

/// What is before the first of these bytes, and what is behind it.
pub(crate) fn cut(bytes: &[u8], at: u8) -> Option<(&[u8], &[u8])>
    ensures { MatchOption result (Lacks at bytes.now) (λ x. Lacks at x.0.now × (bytes.now ≡ x.0.now ++ at ∷ x.1.now)) }
{
    let place = place_of(bytes, at)?;
    Some((&bytes[..place], &bytes[place + 1..]))
}

fn place_of(bytes: &[u8], at: u8) -> Option<usize>
    ensures { result ≡ position (λ b. b == at) bytes.now }
{
    bytes.iter().position(|byte| *byte == at)
}
