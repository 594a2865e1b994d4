//! Keywords and signs of any language.

ghost use Rattle.std.specs.Prelude.{◌≡◌, ◌≤◌, ℕ, true, List, length, IfSome};
ghost use Rattle.hc_scan.specs.Spelling as spec;

/// What has a fixed spelling: a keyword or a sign.
pub trait HasSpelling: Copy {
    ghost spelling: { Self → List ℕ };

    /// How it is spelled.
    fn text(self) -> &'static [u8]
        ensures { result.now ≡ spelling self };
}

/// The first of a list that is spelled so.
pub fn spelled<F: HasSpelling>(ones: &[F], word: &[u8]) -> Option<F>
    ensures { result ≡ spec.spelled F.spelling ones.now word.now }
{
    for one in ones {
        if one.text() == word {
            return Some(*one);
        }
    }
    None
}

/// The first of a list with whose spelling the text begins, and the length of that in bytes.
pub fn in_front<F: HasSpelling>(ones: &[F], text: &[u8]) -> Option<(F, usize)>
    ensures first { result ≡ spec.in_front F.spelling ones.now text.now }
    ensures within { IfSome result (λ s. s.1 ≤ length text.now) }
    ensures has_bytes { spec.have_bytes F.spelling ones.now ≡ true → IfSome result (λ s. 1 ≤ s.1) }
{
    for one in ones {
        let spelling = one.text();
        if text.starts_with(spelling) {
            return Some((*one, spelling.len()));
        }
    }
    None
}
