//! Reading texts of the small language.

ghost use Rattle.std.specs.Prelude.{IsTrue, ◌↔◌};
ghost use Rattle.hc_grammar.specs.Ends.{Ends};
ghost use Rattle.hc_grammar.specs.Language.{is_last};
ghost use Rattle.hc_small_grammar.specs.Language.{language};
ghost use Rattle.hc_small.specs.Texts as spec;

use crate::names::Names;
use crate::tokens::Tokens;
use hc_grammar::{Reader, Stop, read};
use hc_small_grammar::{Flaw, Kind, Token};
use std::alloc::Global;

/// Whether the last of the tokens is an end, and no other is.
pub fn is_ended(tokens: &[Token]) -> bool
    ensures { IsTrue result ↔ Ends (is_last language) tokens.now }
{
    let Some((first, rest)) = tokens.split_first() else {
        return false;
    };
    let is_end = Names::takes(Kind::End, first.kind);
    if rest.is_empty() {
        is_end
    } else {
        !is_end && is_ended(rest)
    }
}

/// What stands behind some tokens, or the first place at which they are refused, and why.
pub fn parse(alloc: Global, tokens: &[Token]) -> Result<Names, Stop<Flaw>>
    requires { Ends (is_last language) tokens.now }
    ensures { spec.IsExact tokens.now (λ (names : _). names.used) result }
{
    let mut source = Tokens::new(tokens);
    read(alloc, Names::new(alloc), &mut source)
}
