//! What the nodes of an expression are.

ghost use Rattle.std.specs.Prelude.{◌≡◌};
ghost use Rattle.hc_cgrammar.specs.Walk as walk;
ghost use Rattle.hc_cgrammar.specs.Rules as rules;
ghost use Rattle.hc_crules.specs.Seen.{shape_seen};

use crate::word::value_of;
use hc_cgrammar::Role;
use hc_ctoken::Lexeme;

/// What the nodes of an expression are so far, as far as rules ask.
#[derive(Clone, Copy, Debug, PartialEq, Eq)]
pub(crate) enum Shape {
    Nothing,
    Number(i64),
    Minus,
    /// A minus and a number.
    MinusNumber,
    Other,
}

impl Shape {
    fn with_number(self, number: i64) -> Self
        ensures { shape_seen result ≡ walk.with_number number (shape_seen self) }
    {
        match self {
            Shape::Nothing => Shape::Number(number),
            Shape::Minus => Shape::MinusNumber,
            _ => Shape::Other,
        }
    }

    fn with_minus(self) -> Self
        ensures { shape_seen result ≡ walk.with_minus (shape_seen self) }
    {
        match self {
            Shape::Nothing => Shape::Minus,
            _ => Shape::Other,
        }
    }

    /// Behind a token in its role.
    pub(crate) fn behind(self, role: Role, lexeme: &Lexeme) -> Self
        ensures { shape_seen result ≡ walk.shape_with role lexeme.now (shape_seen self) }
    {
        match role {
            Role::Number => self.with_number(value_of(lexeme)),
            Role::Minus => self.with_minus(),
            Role::Local | Role::Element | Role::Operator | Role::Not => Shape::Other,
            _ => self,
        }
    }

    /// Whether it is a number.
    pub(crate) fn is_number(self) -> bool
        ensures { result ≡ rules.is_number (shape_seen self) }
    {
        matches!(self, Shape::Number(_))
    }

    /// Whether it is a number, or a minus and a number.
    pub(crate) fn is_literal(self) -> bool
        ensures { result ≡ rules.is_literal (shape_seen self) }
    {
        matches!(self, Shape::Number(_) | Shape::MinusNumber)
    }

    /// Whether it is the number 0.
    pub(crate) fn is_zero(self) -> bool
        ensures { result ≡ rules.is_zero (shape_seen self) }
    {
        match self {
            Shape::Number(number) => number == 0,
            _ => false,
        }
    }
}
