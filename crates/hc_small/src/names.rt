//! The small language as the generic reader reads it.

ghost use Rattle.std.specs.Prelude.{◌≡◌, List, [], ◌∷◌, ◌++◌, ℕ, ◌≤◌, OnOk};
ghost use Rattle.hc_grammar.specs.Texts.{Text};
ghost use Rattle.hc_grammar.specs.Language.{IsText};
ghost use Rattle.hc_small_grammar.specs.Language as spec;
ghost use Rattle.hc_small_grammar.specs.Table as table;
ghost use Rattle.hc_small_grammar.specs.Grammar.{IsSpelling};
ghost use Rattle.hc_small_grammar.proofs.Published as published;
ghost use Rattle.hc_small_grammar.proofs.Readable as proof;

use hc_frac::Place;
use hc_grammar::{Fault, Reader, Row, Stack, Symbol};
use hc_small_grammar::{Flaw, Head, Kind, Mark, Role, Token};
use std::alloc::{AllocError, Global};

/// What stands behind some tokens: the names that are declared, the open brackets, and what is used.
#[derive(Debug, Drop)]
pub struct Names {
    names: Vec<u32>,
    open_items: u32,
    pub used: Stack<u32>,
    ghost few_items: { open_items ≤ 3 },
}

impl Names {
    /// Before the first token.
    pub fn new(alloc: Global) -> Names
        ensures state { ⟦<Names as Reader>⟧.state result ≡ spec.opening }
        ensures value { ⟦<Names as Reader>⟧.value result ≡ spec.language.blank }
    {
        Names {
            names: Vec::new(alloc),
            open_items: 0,
            used: Stack::new(alloc),
        }
    }

    /// The names that are used, the last one first.
    pub fn into_used(self) -> Stack<u32>
        ensures { result ≡ self.used }
    {
        self.used
    }
}

/// What is wrong with a name that isn't declared before.
fn undeclared(token: Token, names: &[u32]) -> Option<Flaw>
    ensures { result ≡ spec.undeclared token names.now }
{
    match token.kind {
        Kind::It => None,
        _ if names.contains(&token.name) => None,
        _ => Some(Flaw::Names),
    }
}

fn add(names: &mut Vec<u32>, name: u32) -> Result<(), AllocError>
    ensures { OnOk result (names.new.items ≡ names.old.items ++ name ∷ []) }
{
    names.push(name)?;
    Ok(())
}

impl Reader for Names {
    type Kind = Kind;

    type Head = Head;

    type Role = Role;

    type Mark = Mark;

    type Token = Token;

    type Flaw = Flaw;

    ghost State = { spec.State };

    ghost Value = { List ℕ };

    ghost language = { spec.language };

    ghost Is = { IsSpelling };

    ghost state = { λ n. record { names = n.names.items; open_items = n.open_items } };

    ghost value = { λ n. n.used };

    ghost place = { λ t. t.place };

    fn start() -> &'static [Symbol<Kind, Head, Role, Mark>] {
        &[
            Symbol::Head(Head::Lines),
            Symbol::Token(Kind::End, Role::Plain),
        ]
    }

    fn row(head: Head, kind: Kind) -> Row<Kind, Head, Role, Mark> {
        match head {
            Head::Lines => match kind {
                Kind::Let => Row::Takes(
                    Role::Plain,
                    &[
                        Symbol::Token(Kind::Name, Role::Declares),
                        Symbol::Head(Head::First),
                        Symbol::Token(Kind::Semicolon, Role::Plain),
                        Symbol::Head(Head::Lines),
                    ],
                    &[],
                ),
                Kind::Use => Row::Takes(
                    Role::Plain,
                    &[
                        Symbol::Head(Head::Value),
                        Symbol::Token(Kind::Semicolon, Role::Plain),
                        Symbol::Head(Head::Lines),
                    ],
                    &[],
                ),
                Kind::Drop => Row::Takes(
                    Role::Plain,
                    &[
                        Symbol::Token(Kind::AnyName, Role::Uses),
                        Symbol::Token(Kind::Semicolon, Role::Plain),
                        Symbol::Head(Head::Lines),
                    ],
                    &[],
                ),
                _ => Row::Skips,
            },
            Head::First => match kind {
                Kind::Equal => Row::Takes(Role::Plain, &[Symbol::Head(Head::Value)], &[]),
                _ => Row::Skips,
            },
            Head::Value => match kind {
                Kind::Name | Kind::It => Row::Takes(Role::Uses, &[], &[]),
                Kind::OpenRound => Row::Takes(
                    Role::Open,
                    &[
                        Symbol::Head(Head::Value),
                        Symbol::Token(Kind::CloseRound, Role::Close),
                        Symbol::Mark(Mark::Bracketed),
                    ],
                    &[],
                ),
                _ => Row::Refuses,
            },
        }
    }

    fn left_out(head: Head) -> Option<Mark> {
        match head {
            Head::First => Some(Mark::Unsaid),
            Head::Lines | Head::Value => None,
        }
    }

    fn takes(wanted: Kind, kind: Kind) -> bool {
        match (wanted, kind) {
            (Kind::AnyName, Kind::Name | Kind::It) => true,
            (Kind::AnyName, _) => false,
            _ => wanted == kind,
        }
    }

    fn kind(token: &Token) -> Kind {
        token.kind
    }

    fn place(token: &Token) -> Place {
        token.place
    }

    fn syntax() -> Flaw {
        Flaw::Syntax
    }

    fn early(&self, token: &Token) -> Option<Flaw> {
        match token.kind {
            Kind::LongWord => Some(Flaw::TooLong),
            _ => None,
        }
    }

    fn token(&mut self, alloc: Global, role: Role, token: Token) -> Result<(), Fault<Flaw>> {
        match role {
            Role::Plain => {}
            Role::Declares => add(&mut self.names, token.name)?,
            Role::Uses => {
                if let Some(flaw) = undeclared(token, &self.names) {
                    return Err(Fault::Flaw(flaw));
                }
                self.used.push(token.name)?;
            }
            Role::Open => {
                if self.open_items >= 3 {
                    return Err(Fault::Flaw(Flaw::TooDeep));
                }
                self.open_items += 1;
            }
            Role::Close => self.open_items = self.open_items.saturating_sub(1),
        }
        Ok(())
    }

    fn mark(&mut self, alloc: Global, mark: Mark) -> Result<(), AllocError> {
        self.used.push(0)
    }

    ghost readable = { proof.readable };

    ghost derived = { published.derived };

    ghost is = { published.is_spelling };
}
