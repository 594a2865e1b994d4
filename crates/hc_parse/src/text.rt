//! The source language, as a table reads it.

ghost use Rattle.std.specs.Prelude.{◌≡◌};
ghost use Rattle.hc_ast.specs.Counts as counting;
ghost use Rattle.hc_ast.specs.Source.{IsSpelling};
ghost use Rattle.hc_parse.specs.Builder.{builder, blank};
ghost use Rattle.hc_parse.specs.Counted.{counted};
ghost use Rattle.hc_parse.specs.Language as spec;
ghost use Rattle.hc_parse.specs.declared.values.Values.{Values as Said};
ghost use Rattle.hc_table.proofs.CloseSources.{is_spelling};
ghost use Rattle.hc_table.proofs.Readable as table;

use crate::counts::Counts;
use crate::values::Values;
use hc_ast::{Flaw, Mark, Role};
use hc_frac::Place;
use hc_grammar::{Fault, Reader, Row, Symbol};
use hc_table::{Head, row_at, takes};
use hc_token::{Kind, Lexeme, Token};
use std::alloc::{AllocError, Global};

/// What stands behind some tokens of a source.
#[derive(Drop)]
pub(crate) struct SourceText {
    pub(crate) counts: Counts,
    pub(crate) values: Values,
}

impl SourceText {
    /// Before the first token.
    pub(crate) fn new(alloc: Global) -> Self
        ensures counts { counted result.counts ≡ counting.opening }
        ensures values { result.values ≡ blank }
    {
        SourceText {
            counts: Counts::new(),
            values: Values::new(alloc),
        }
    }
}

impl Reader for SourceText {
    type Kind = Kind;

    type Head = Head;

    type Role = Role;

    type Mark = Mark;

    type Token = Token;

    type Flaw = Flaw;

    ghost State = { counting.Counts };

    ghost Value = { Said };

    ghost language = { spec.language };

    ghost Is = { IsSpelling };

    ghost state = { λ r. counted r.counts };

    ghost value = { λ r. r.values };

    ghost place = { λ t. t.place };

    fn start() -> &'static [Symbol<Kind, Head, Role, Mark>] {
        &[
            Symbol::Head(Head::Source),
            Symbol::Token(Kind::End, Role::Plain),
        ]
    }

    fn row(head: Head, kind: Kind) -> Row<Kind, Head, Role, Mark> {
        row_at(head, kind)
    }

    fn left_out(head: Head) -> Option<Mark> {
        None
    }

    fn takes(wanted: Kind, kind: Kind) -> bool {
        takes(wanted, kind)
    }

    fn kind(token: &Token) -> Kind {
        token.lexeme.kind()
    }

    fn place(token: &Token) -> Place {
        token.place
    }

    fn syntax() -> Flaw {
        Flaw::Syntax
    }

    fn early(&self, token: &Token) -> Option<Flaw> {
        match &token.lexeme {
            Lexeme::LongWord => Some(Flaw::NameTooLong),
            Lexeme::LargeNumber => Some(Flaw::NumberUnfit),
            _ => None,
        }
    }

    fn token(&mut self, alloc: Global, role: Role, token: Token) -> Result<(), Fault<Flaw>> {
        if let Err(flaw) = self.counts.token(role) {
            return Err(Fault::Flaw(flaw));
        }
        self.values.token(role, token)?;
        Ok(())
    }

    fn mark(&mut self, alloc: Global, mark: Mark) -> Result<(), AllocError> {
        self.counts.mark(mark);
        self.values.mark(alloc, mark)
    }

    ghost readable = { table.readable builder blank };

    ghost derived = { table.derived };

    ghost is = { is_spelling };
}
