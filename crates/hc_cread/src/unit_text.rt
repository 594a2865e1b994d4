//! The subset of C, as a table reads it.

ghost use Rattle.std.specs.Prelude.{◌≡◌};
ghost use Rattle.hc_cgrammar.specs.State as state;
ghost use Rattle.hc_cgrammar.specs.Unit.{IsSpelling};
ghost use Rattle.hc_cread.specs.Builder.{builder, blank};
ghost use Rattle.hc_cread.specs.Language as spec;
ghost use Rattle.hc_cread.specs.declared.values.Values.{Values as Said};
ghost use Rattle.hc_ctable.proofs.CloseUnits.{is_spelling};
ghost use Rattle.hc_ctable.proofs.Readable as table;

use crate::values::Values;
use hc_cgrammar::{Flaw, Mark, Role};
use hc_crules::Standing;
use hc_ctable::{Head, row_at, takes};
use hc_ctoken::{Kind, Token};
use hc_frac::Place;
use hc_grammar::{Fault, Reader, Row, Symbol};
use std::alloc::{AllocError, Global};

/// What stands behind some tokens of a unit.
#[derive(Drop)]
pub(crate) struct UnitText {
    pub(crate) standing: Standing,
    pub(crate) values: Values,
}

impl UnitText {
    /// Before the first token.
    pub(crate) fn new(alloc: Global) -> Self
        ensures standing { result.standing ≡ state.opening }
        ensures values { result.values ≡ blank }
    {
        UnitText {
            standing: Standing::new(alloc),
            values: Values::new(alloc),
        }
    }
}

impl Reader for UnitText {
    type Kind = Kind;

    type Head = Head;

    type Role = Role;

    type Mark = Mark;

    type Token = Token;

    type Flaw = Flaw;

    ghost State = { state.State };

    ghost Value = { Said };

    ghost language = { spec.language };

    ghost Is = { IsSpelling };

    ghost state = { λ r. r.standing };

    ghost value = { λ r. r.values };

    ghost place = { λ t. t.place };

    fn start() -> &'static [Symbol<Kind, Head, Role, Mark>] {
        &[
            Symbol::Head(Head::Unit),
            Symbol::Token(Kind::End, Role::Plain),
        ]
    }

    fn row(head: Head, kind: Kind) -> Row<Kind, Head, Role, Mark> {
        row_at(head, kind)
    }

    fn left_out(head: Head) -> Option<Mark> {
        match head {
            Head::Else => Some(Mark::If),
            _ => None,
        }
    }

    fn takes(wanted: Kind, kind: Kind) -> bool {
        takes(wanted, kind)
    }

    fn kind(token: &Token) -> Kind {
        token.lexeme.kind()
    }

    fn place(token: &Token) -> Place {
        token.place
    }

    fn syntax() -> Flaw {
        Flaw::Syntax
    }

    fn early(&self, token: &Token) -> Option<Flaw> {
        if self.standing.is_unfit(&token.lexeme) {
            Some(Flaw::Limit)
        } else {
            None
        }
    }

    fn token(&mut self, alloc: Global, role: Role, token: Token) -> Result<(), Fault<Flaw>> {
        let Token { place: _, lexeme } = token;
        if let Err(fault) = self.standing.take(alloc, role, &lexeme) {
            return Err(fault);
        }
        self.values.token(alloc, role, lexeme)?;
        Ok(())
    }

    fn mark(&mut self, alloc: Global, mark: Mark) -> Result<(), AllocError> {
        self.standing.mark(mark)?;
        self.values.mark(alloc, mark)
    }

    ghost readable = { table.readable builder blank };

    ghost derived = { table.derived };

    ghost is = { is_spelling };
}
