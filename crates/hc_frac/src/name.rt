//! Names.

ghost use Rattle.std.specs.Prelude.{◌≡◌, SomeIff, nat_eq};
ghost use Rattle.std.specs.List.{list_all};
ghost use Rattle.std.specs.Cmp.{partial_equiv_from_equiv};
ghost use Rattle.std.specs.Cmp.Lexicographic.{pointwise, nat_list_eq_equiv};
ghost use Rattle.std.specs.Hash as fed;
ghost use Rattle.std.proofs.Common.{rules};
ghost use Rattle.std.specs.Cmp.Rules.{hashing};
ghost use Rattle.hc_frac.specs.Word.{IsWord, word_byte};

use arrayvec::ArrayString;
use std::hash::{Hash, Hasher};
use std::marker::Model;

/// A word of 1 to 64 bytes: a letter, and then letters, digits and underlines.
#[derive(Debug, Drop)]
pub struct Name {
    text: ArrayString<64>,
}

impl Model for Name {
    ghost use Rattle.std.specs.Prelude.{ℕ, List};
    ghost use Rattle.hc_frac.specs.Word.{IsWord};

    ghost Value = { List ℕ };

    ghost view = { λ n. n.text.bytes };

    ghost invariant = { λ n. IsWord n.text.bytes };
}

impl Name {
    /// The name that is spelled by `bytes`, or `None` where they are no word of 1 to 64 bytes.
    pub fn new(bytes: &[u8]) -> Option<Self>
        ensures { SomeIff result (IsWord bytes.now) bytes.now }
    {
        let Some(first) = bytes.first() else {
            return None;
        };
        if !first.is_ascii_alphabetic() || !are_word_bytes(bytes) {
            return None;
        }
        let Ok(text) = str::from_utf8(bytes) else {
            return None;
        };
        let Ok(text) = ArrayString::from(text) else {
            return None;
        };
        Some(Name { text })
    }

    /// The text of the name.
    pub fn text(&self) -> &str
        ensures value { result.now ≡ self.now }
        ensures word { IsWord self.now }
    {
        self.text.as_str()
    }

    /// An equal name.
    pub fn copy(&self) -> Self
        ensures { result ≡ self.now }
    {
        Name { text: self.text }
    }
}

impl PartialEq for Name {
    ghost eq = { pointwise nat_eq };

    ghost laws = { partial_equiv_from_equiv nat_list_eq_equiv };

    fn eq(&self, other: &Self) -> bool {
        self.text() == other.text()
    }
}

impl Eq for Name {
    ghost laws = { nat_list_eq_equiv };
}

impl Hash for Name {
    ghost hash_input = { fed.str };

    ghost respects_eq = { Prim.search (hashing, rules) };

    fn hash<H: Hasher>(&self, state: &mut H) {
        self.text().hash(state);
    }
}

/// Whether all bytes are letters, digits and underlines.
fn are_word_bytes(bytes: &[u8]) -> bool
    ensures { result ≡ list_all word_byte bytes.now }
{
    bytes
        .iter()
        .all(|byte| byte.is_ascii_alphanumeric() || *byte == b'_')
}
