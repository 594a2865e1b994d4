//! Calls.

ghost use Rattle.std.specs.Prelude.{◌≡◌, ◌+◌, IfOk};
ghost use Rattle.std.specs.Option.{option_map};
ghost use Rattle.hc_cgrammar.specs.Walk as walk;
ghost use Rattle.hc_cgrammar.specs.Rules as rules;
ghost use Rattle.hc_crules.specs.Seen.{shape_seen, call_seen};

use crate::shape::Shape;
use hc_cast::Primitive;
use hc_ctoken::Lexeme;
use std::alloc::AllocError;

/// One more. A number that 64 bits don't hold is want of memory: no memory holds so many items either.
pub(crate) fn one_more(number: u64) -> Result<u64, AllocError>
    ensures { IfOk result (λ n. n ≡ number + 1) }
{
    match number.checked_add(1) {
        Some(more) => Ok(more),
        None => Err(AllocError),
    }
}

/// A call whose arguments aren't closed yet.
#[derive(Clone, Copy, Debug)]
pub(crate) struct Call {
    /// How many arguments it must have.
    pub(crate) arity: u64,
    /// Whether `fr_set` is called.
    pub(crate) is_set: bool,
    pub(crate) commas: u64,
    /// The arguments that have ended.
    pub(crate) arguments: u64,
    /// The third argument, once it has ended.
    pub(crate) third: Shape,
}

impl Call {
    /// One comma more.
    pub(crate) fn comma(self) -> Result<Self, AllocError>
        ensures { IfOk result (λ c. call_seen c ≡ walk.with_comma (call_seen self)) }
    {
        let commas = one_more(self.commas)?;
        Ok(Call {
            arity: self.arity,
            is_set: self.is_set,
            commas,
            arguments: self.arguments,
            third: self.third,
        })
    }

    /// An argument of this shape ends.
    pub(crate) fn argument(self, shape: Shape) -> Result<Self, AllocError>
        ensures { IfOk result (λ c. call_seen c ≡ walk.with_argument (shape_seen shape) (call_seen self)) }
    {
        let arguments = one_more(self.arguments)?;
        Ok(Call {
            arity: self.arity,
            is_set: self.is_set,
            commas: self.commas,
            arguments,
            third: if self.arguments == 2 {
                shape
            } else {
                self.third
            },
        })
    }

    /// Whether its arguments are as they must be, where the last one has this shape.
    fn is_right(self, last: Shape) -> bool
        ensures { result ≡ rules.are_right (call_seen self) (shape_seen last) }
    {
        let literal = self.third.is_literal() & last.is_number();
        (self.arguments == self.arity) & (!self.is_set | literal)
    }
}

/// The call under way with one comma more.
pub(crate) fn with_comma(call: Option<Call>) -> Result<Option<Call>, AllocError>
    ensures { IfOk result (λ c. option_map call_seen c ≡ option_map walk.with_comma (option_map call_seen call)) }
{
    match call {
        Some(call) => {
            let call = call.comma()?;
            Ok(Some(call))
        }
        None => Ok(None),
    }
}

/// The call under way behind an argument of this shape.
pub(crate) fn with_argument(call: Option<Call>, shape: Shape) -> Result<Option<Call>, AllocError>
    ensures { IfOk result (λ c. option_map call_seen c ≡ option_map (walk.with_argument (shape_seen shape)) (option_map call_seen call)) }
{
    match call {
        Some(call) => {
            let call = call.argument(shape)?;
            Ok(Some(call))
        }
        None => Ok(None),
    }
}

/// Whether a call may be closed behind a last argument of this shape.
pub(crate) fn closes_well(call: Option<Call>, last: Shape) -> bool
    ensures { result ≡ rules.closes_well (option_map call_seen call) (shape_seen last) }
{
    match call {
        Some(call) => call.is_right(last),
        None => true,
    }
}

/// Whether the third or the fourth argument of `fr_set` is under way.
pub(crate) fn in_literal(call: Option<Call>) -> bool
    ensures { result ≡ rules.in_literal (option_map call_seen call) }
{
    match call {
        Some(call) => call.is_set & ((call.commas == 2) | (call.commas == 3)),
        None => false,
    }
}

/// Whether a token is `fr_set`.
pub(crate) fn is_set(lexeme: &Lexeme) -> bool
    ensures { result ≡ walk.is_set lexeme.now }
{
    matches!(lexeme, Lexeme::Primitive(Primitive::FrSet))
}
