//! The cases of the open `switch`es.

ghost use Rattle.std.specs.Prelude.{◌≡◌, ◌↔◌, [], ◌∷◌, ◌++◌, false, IsTrue, OnOk};
ghost use Rattle.std.specs.List.{list_any};
ghost use Rattle.std.specs.Ordering.{int_eq};
ghost use Rattle.hc_cgrammar.specs.Walk as walk;
ghost use Rattle.hc_cgrammar.specs.Rules as rules;
ghost use Rattle.hc_cgrammar.specs.declared.role.Role.TheVariants.{CaseNumber};

use crate::word::value_of;
use hc_cgrammar::Role;
use hc_ctoken::Lexeme;
use indexmap::IndexSet;
use std::alloc::{AllocError, Global};
use std::marker::Model;

/// The numbers of the cases of a `switch` so far, in their order.
#[derive(Drop)]
struct Numbers {
    numbers: IndexSet<i64>,
}

impl Model for Numbers {
    ghost use Rattle.std.specs.Prelude.{ℤ, List};

    ghost Value = { List ℤ };

    ghost view = { λ s. s.numbers.keys };
}

impl Numbers {
    fn new(alloc: Global) -> Self
        ensures { result ≡ [] }
    {
        Numbers {
            numbers: IndexSet::new(alloc),
        }
    }

    fn has(&self, number: i64) -> bool
        ensures { result ≡ list_any (λ k. int_eq k number) self.now }
    {
        self.numbers.contains(&number)
    }

    /// Adds a number that isn't among them.
    #[tactic(auto, using(crate::proofs::Added::added))]
    fn add(&mut self, number: i64) -> Result<(), AllocError>
        requires { list_any (λ k. int_eq k number) self.old ≡ false }
        ensures { OnOk result (self.new ≡ self.old ++ number ∷ []) }
    {
        let Ok(_) = self.numbers.insert_full(number) else {
            return Err(AllocError);
        };
        Ok(())
    }
}

/// The numbers of the cases of each open `switch`, seen with the innermost first.
#[derive(Drop)]
pub(crate) struct Switches {
    open: Vec<Numbers>,
}

impl Model for Switches {
    ghost use Rattle.std.specs.Prelude.{ℤ, List, reverse};

    ghost Value = { List (List ℤ) };

    ghost view = { λ s. reverse s.open.items };
}

impl Switches {
    pub(crate) fn new(alloc: Global) -> Self
        ensures { result ≡ [] }
    {
        Switches {
            open: Vec::new(alloc),
        }
    }

    /// Whether a number is among those of the innermost `switch`.
    pub(crate) fn has(&self, number: i64) -> bool
        ensures { result ≡ rules.is_case self.now number }
    {
        match self.open.last() {
            Some(numbers) => numbers.has(number),
            None => false,
        }
    }

    /// A `switch` begins.
    fn begin(&mut self, alloc: Global) -> Result<(), AllocError>
        ensures { OnOk result (self.new ≡ [] ∷ self.old) }
    {
        self.open.push(Numbers::new(alloc))?;
        Ok(())
    }

    /// A number that the innermost `switch` hasn't.
    fn add(&mut self, number: i64) -> Result<(), AllocError>
        requires { rules.is_case self.old number ≡ false }
        ensures { OnOk result (self.new ≡ walk.with_case number self.old) }
    {
        let Some(mut numbers) = self.open.pop() else {
            return Ok(());
        };
        numbers.add(number)?;
        self.open.push(numbers)?;
        Ok(())
    }

    /// The innermost `switch` ends.
    fn end(&mut self)
        ensures { self.new ≡ walk.without_innermost self.old }
    {
        self.open.pop();
    }

    /// A token in its role.
    pub(crate) fn pass(
        &mut self,
        alloc: Global,
        role: Role,
        lexeme: &Lexeme,
    ) -> Result<(), AllocError>
        requires { role ≡ CaseNumber → rules.is_case self.old (walk.value_of lexeme.now) ≡ false }
        ensures { OnOk result (self.new ≡ walk.cases_after role lexeme.now self.old) }
    {
        match role {
            Role::OpenCases => self.begin(alloc),
            Role::CaseNumber => self.add(value_of(lexeme)),
            Role::CloseCases => {
                self.end();
                Ok(())
            }
            _ => Ok(()),
        }
    }
}
