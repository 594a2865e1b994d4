//! Sets of small numbers, as the bits of words.

ghost use Rattle.std.specs.Prelude.{◌≡◌, ◌<◌, ◌≤◌, ◌*◌, ℕ, ◌==◌, nat_lt, if◌then◌else◌, length, IfSome, IfNone, false};
ghost use Rattle.hc_board.specs.Bits.{has, is_in, IsLeast};

/// The word in which this bit, below 64, is set or cleared.
pub(crate) fn with_bit(word: u64, bit: u32, is_set: bool) -> u64
    requires { bit < 64 }
    ensures { (i : ℕ) → i < 64 → has result i ≡ (if i == bit then is_set else has word i) }
{
    if is_set {
        word | (1 << bit)
    } else {
        word & !(1 << bit)
    }
}

/// The word with the bits below this one, of 64, set.
pub(crate) fn first_bits(count: u32) -> u64
    requires { count ≤ 64 }
    ensures { (i : ℕ) → i < 64 → has result i ≡ nat_lt i count }
{
    let mut word = 0;
    for bit in 0..count {
        word = with_bit(word, bit, true);
    }
    word
}

/// Whether this bit, below 64, is set.
pub(crate) fn has_bit(word: u64, bit: u32) -> bool
    requires { bit < 64 }
    ensures { result ≡ has word bit }
{
    (word >> bit) & 1 == 1
}

/// The least bit that is set.
pub(crate) fn least_bit(word: u64) -> Option<u32>
    ensures least { IfSome result (λ k. IsLeast 64 (has word) k) }
    ensures none { IfNone result (word ≡ 0) }
{
    if word == 0 {
        None
    } else {
        Some(word.trailing_zeros())
    }
}

/// The least member of a set over a few words, of which each has 64 bits.
pub(crate) fn least_member(words: &[u64]) -> Option<u32>
    requires { length words.now ≤ 4 }
    ensures least { IfSome result (λ k. IsLeast (length words.now * 64) (is_in words.now) k) }
    ensures none { IfNone result ((i : ℕ) → i < length words.now * 64 → is_in words.now i ≡ false) }
{
    for at in 0..words.len() {
        if let Some(bit) = least_bit(words[at]) {
            return Some(at as u32 * 64 + bit);
        }
    }
    None
}

/// Sets or clears this member of a set over words.
pub(crate) fn set_member(words: &mut [u64], member: u32, is_set: bool)
    requires { member < length words.old * 64 }
    ensures length { length words.new ≡ length words.old }
    ensures members { (i : ℕ) → i < length words.old * 64 → is_in words.new i ≡ (if i == member then is_set else is_in words.old i) }
{
    let at = (member / 64) as usize;
    words[at] = with_bit(words[at], member % 64, is_set);
}
