//! A trace found behind other text.
ghost use Rattle.std.specs.Prelude.{◌≡◌, ◌≤◌, ◌↔◌, ℕ, length, IsTrue, IfSome, IfNone};
ghost use Rattle.hc_trace.specs.Splitting.{BeginsLine, BeginsTrace, HasHeaderAt, IsFirstHeader};

const FIRST_HEADER: &[u8] = b"hcsp-trace 1\n";

const SECOND_HEADER: &[u8] = b"hcsp-trace 2\n";

/// The first place at which the header of a trace text, of version 1 or 2, stands as a line.
pub fn split_text(bytes: &[u8]) -> Option<usize>
    ensures found { IfSome result (IsFirstHeader bytes.now) }
    ensures none { IfNone result ((place : ℕ) → ¬ (HasHeaderAt bytes.now place)) }
{
    for place in 0..bytes.len() {
        if has_header_at(bytes, place) {
            return Some(place);
        }
    }
    None
}

/// Whether a header stands at this place, as a line.
fn has_header_at(bytes: &[u8], place: usize) -> bool
    requires { place ≤ length bytes.now }
    ensures { IsTrue result ↔ HasHeaderAt bytes.now place }
{
    begins_line(bytes, place) && begins_trace(&bytes[place..])
}

/// Whether a line begins at this place.
fn begins_line(bytes: &[u8], place: usize) -> bool
    requires { place ≤ length bytes.now }
    ensures { IsTrue result ↔ BeginsLine bytes.now place }
{
    place == 0 || bytes[place - 1] == b'\n'
}

/// Whether the bytes begin with a header.
fn begins_trace(bytes: &[u8]) -> bool
    ensures { IsTrue result ↔ BeginsTrace bytes.now }
{
    bytes.starts_with(FIRST_HEADER) || bytes.starts_with(SECOND_HEADER)
}
