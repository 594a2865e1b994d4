//! The strings of an array of names.

ghost use Rattle.std.specs.Prelude.{◌≡◌, pos, IfOk};
ghost use Rattle.std.specs.Ordering.{int_eq};
ghost use Rattle.hc_cgrammar.specs.Walk as walk;
ghost use Rattle.hc_cgrammar.specs.Rules as rules;
ghost use Rattle.hc_crules.specs.Seen.{strings_seen};

use crate::call::one_more;
use crate::word::value_of;
use hc_cgrammar::Role;
use hc_ctoken::Lexeme;
use std::alloc::AllocError;

/// The strings of `chan_name`, or of `proc_name`.
#[derive(Clone, Copy, Debug)]
pub(crate) struct Strings {
    /// How many are said to follow.
    pub(crate) wanted: i64,
    /// How many there are so far.
    pub(crate) count: u64,
    /// Whether one of them is empty.
    pub(crate) has_empty: bool,
}

impl Strings {
    /// One string more.
    fn with(self, lexeme: &Lexeme) -> Result<Self, AllocError>
        ensures { IfOk result (λ x. strings_seen x ≡ walk.with_string lexeme.now (strings_seen self)) }
    {
        let count = one_more(self.count)?;
        Ok(Strings {
            wanted: self.wanted,
            count,
            has_empty: self.has_empty | is_empty(lexeme),
        })
    }

    /// Behind a token in its role.
    pub(crate) fn behind(self, role: Role, lexeme: &Lexeme) -> Result<Self, AllocError>
        ensures { IfOk result (λ x. strings_seen x ≡ walk.strings_after role lexeme.now (strings_seen self)) }
    {
        match role {
            Role::Count => Ok(Strings {
                wanted: value_of(lexeme),
                count: 0,
                has_empty: false,
            }),
            Role::Channel => self.with(lexeme),
            Role::Process => self.with(lexeme),
            _ => Ok(self),
        }
    }

    /// Whether there are as many as were said.
    pub(crate) fn are_all(self) -> bool
        ensures { result ≡ int_eq self.wanted (pos self.count) }
    {
        i128::from(self.wanted) == i128::from(self.count)
    }
}

/// Whether a string is the empty one.
pub(crate) fn is_empty(lexeme: &Lexeme) -> bool
    ensures { result ≡ rules.is_empty lexeme.now }
{
    matches!(lexeme, Lexeme::EmptyText)
}
