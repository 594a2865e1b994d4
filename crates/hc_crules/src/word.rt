//! What tokens name, and what they say as numbers.

ghost use Rattle.std.specs.Prelude.{◌≡◌, ◌≤◌, length};
ghost use Rattle.std.specs.List.{list_any};
ghost use Rattle.hc_cgrammar.specs.Walk as walk;
ghost use Rattle.hc_cgrammar.specs.Rules as rules;

use arrayvec::ArrayString;
use hc_ctoken::Lexeme;
use hc_frac::Name;
use std::marker::Model;

/// What a token names: at most 64 bytes. A token that names nothing has none.
#[derive(Debug, Drop)]
pub(crate) struct Word {
    text: ArrayString<64>,
}

impl Model for Word {
    ghost use Rattle.std.specs.Prelude.{ℕ, List};

    ghost Value = { List ℕ };

    ghost view = { λ w. w.text.bytes };
}

impl Word {
    /// What a token names.
    pub(crate) fn of(lexeme: &Lexeme) -> Self
        ensures { result ≡ walk.name_of lexeme.now }
    {
        match lexeme {
            Lexeme::Array(name)
            | Lexeme::Function(name)
            | Lexeme::Local(name)
            | Lexeme::Text(name) => Word::of_name(name),
            _ => Word {
                text: ArrayString::new(),
            },
        }
    }

    /// A name.
    pub(crate) fn of_name(name: &Name) -> Self
        ensures { result ≡ name.now }
    {
        match ArrayString::from(name.text()) {
            Ok(text) => Word { text },
            Err(_) => unreachable!(),
        }
    }

    /// An equal one.
    pub(crate) fn copy(&self) -> Self
        ensures { result ≡ self.now }
    {
        Word { text: self.text }
    }

    /// Whether these are its bytes.
    pub(crate) fn is(&self, bytes: &[u8]) -> bool
        ensures { result ≡ walk.same_name self.now bytes.now }
    {
        self.text.as_str().as_bytes() == bytes
    }
}

/// The bytes of what a token names; none where it names nothing.
pub(crate) fn name_of(lexeme: &Lexeme) -> &[u8]
    ensures { result.now ≡ walk.name_of lexeme.now }
{
    match lexeme {
        Lexeme::Array(name) | Lexeme::Function(name) | Lexeme::Local(name) | Lexeme::Text(name) =>
            name.text().as_bytes(),
        _ => &[],
    }
}

/// Whether a name is among others.
pub(crate) fn is_among(words: &[Word], name: &[u8]) -> bool
    ensures { result ≡ walk.is_among words.now name.now }
{
    words.iter().any(|word| word.is(name))
}

/// What a token says as a number; 0 where it says none.
pub(crate) fn value_of(lexeme: &Lexeme) -> i64
    ensures { result ≡ walk.value_of lexeme.now }
{
    match lexeme {
        Lexeme::Number(number) => *number,
        _ => 0,
    }
}

/// Whether a token names the thread of this number.
pub(crate) fn names_thread(lexeme: &Lexeme, thread: u32) -> bool
    ensures { result ≡ rules.names_thread lexeme.now thread }
{
    match lexeme {
        Lexeme::Thread(number) => *number == u64::from(thread),
        _ => false,
    }
}

/// Whether a token says this number.
pub(crate) fn says(lexeme: &Lexeme, number: u32) -> bool
    ensures { result ≡ rules.says lexeme.now number }
{
    value_of(lexeme) == i64::from(number)
}
