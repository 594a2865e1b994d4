//! Reading token by token.

ghost use Rattle.std.specs.Prelude.{◌≡◌, List, ◌∷◌, OnOk, IfOk, IfErr};
ghost use Rattle.hc_grammar.specs.Remaining.{remaining, Stops};

use crate::language::{Fault, Reader, Row};
use crate::stack::Stack;
use crate::symbol::Symbol;
use std::alloc::{AllocError, Global};

/// A text that is read as far as some token: what is wanted next, and what stands so far.
#[derive(Drop)]
pub struct Reading<R: Reader + Drop> {
    pub stack: Stack<Symbol<R::Kind, R::Head, R::Role, R::Mark>>,
    pub reader: R,
}

impl<R: Reader + Drop> Reading<R> {
    /// Before the first token.
    pub fn new(alloc: Global, reader: R) -> Result<Self, AllocError>
        ensures stack { IfOk result (λ r. r.stack ≡ R.language.start) }
        ensures reader { IfOk result (λ r. r.reader ≡ reader) }
    {
        let mut stack = Stack::new(alloc);
        stack.push_all(R::start())?;
        Ok(Reading { stack, reader })
    }

    /// Reads the next token.
    pub fn take(&mut self, alloc: Global, token: R::Token) -> Result<(), Fault<R::Flaw>>
        ensures ok { OnOk result ((ts : List R.Token)
            → remaining R.language self.old.stack (R.state self.old.reader) (R.value self.old.reader) (token ∷ ts)
            ≡ remaining R.language self.new.stack (R.state self.new.reader) (R.value self.new.reader) ts) }
        ensures err { IfErr result (Stops R.language self.old.stack (R.state self.old.reader) (R.value self.old.reader) token) }
    {
        if let Some(flaw) = self.reader.early(&token) {
            return Err(Fault::Flaw(flaw));
        }
        while let Some(symbol) = self.stack.pop() {
            match symbol {
                Symbol::Mark(mark) => self.reader.mark(alloc, mark)?,
                Symbol::Token(wanted, role) => {
                    if R::takes(wanted, R::kind(&token)) {
                        return self.reader.token(alloc, role, token);
                    }
                    return Err(Fault::Flaw(R::syntax()));
                }
                Symbol::Head(head) => match R::row(head, R::kind(&token)) {
                    Row::Takes(role, first, more) => {
                        self.stack.push_all(more)?;
                        self.stack.push_all(first)?;
                        return self.reader.token(alloc, role, token);
                    }
                    Row::Skips => {
                        if let Some(mark) = R::left_out(head) {
                            self.reader.mark(alloc, mark)?;
                        }
                    }
                    Row::Refuses => return Err(Fault::Flaw(R::syntax())),
                },
            }
        }
        Err(Fault::Flaw(R::syntax()))
    }
}
