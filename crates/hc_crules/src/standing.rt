//! What stands behind some tokens of a unit, as far as limits and rules on names ask.

ghost use Rattle.std.specs.Prelude.{◌≡◌, ◌∷◌, [], ◌++◌, ◌+◌, ◌<◌, true, false, None, is_some, map, OnOk, IfOk, IfErr};
ghost use Rattle.std.specs.Option.{option_map};
ghost use Rattle.hc_cgrammar.specs.State as state;
ghost use Rattle.hc_cgrammar.specs.Walk as walk;
ghost use Rattle.hc_cgrammar.specs.Rules as rules;
ghost use Rattle.hc_crules.specs.Callee.{callee_of};
ghost use Rattle.hc_crules.specs.Seen as seen;

use crate::call::{Call, closes_well, in_literal, is_set, with_argument, with_comma};
use crate::named::{Callee, function_named};
use crate::owner::{Owner, Signature, end_function};
use crate::shape::Shape;
use crate::strings::{Strings, is_empty};
use crate::switches::Switches;
use crate::walking::{
    declare_array, declare_local, is_node, items_behind, listed_behind, nodes_behind, opens,
    returned_at, returned_behind, threads_behind,
};
use crate::word::{Word, is_among, name_of, names_thread, says, value_of};
use hc_cgrammar::{Flaw, Mark, Role};
use hc_ctoken::Lexeme;
use hc_grammar::Fault;
use hc_limits::{MOST_CHANNELS, MOST_NODES, MOST_OPEN_ITEMS};
use hc_list::List;
use std::alloc::{AllocError, Global};
use std::marker::Model;
use std::mem;

const MOST_ARRAYS: usize = 64;

const MOST_ELEMENTS: i64 = 1_000_000;

const MOST_FUNCTIONS: usize = 200;

const MOST_THREADS: u32 = 64;

const MOST_LOCALS: usize = 64;

/// The greatest number, but in the third and in the fourth argument of `fr_set`.
const MOST_NUMBER: i64 = 2_147_483_647;

/// What stands behind some tokens of a unit, seen as the state of `hc_cgrammar`.
#[derive(Drop)]
pub struct Standing {
    open_items: u32,
    nodes: u32,
    shape: Shape,
    at_length: bool,
    arrays: List<Word>,
    strings: Strings,
    functions: List<Signature>,
    owner: Owner,
    locals: List<Word>,
    returned: bool,
    call: Option<Call>,
    cases: Switches,
    threads: u32,
    listed: u32,
}

impl Model for Standing {
    ghost use Rattle.std.specs.Prelude.{map};
    ghost use Rattle.std.specs.Option.{option_map};
    ghost use Rattle.hc_cgrammar.specs.State.{State};
    ghost use Rattle.hc_crules.specs.Seen as seen;

    ghost Value = { State };

    ghost view = { λ s. record {
      open_items = s.open_items;
      nodes = s.nodes;
      shape = seen.shape_seen s.shape;
      at_length = s.at_length;
      arrays = s.arrays;
      strings = seen.strings_seen s.strings;
      functions = map seen.signature_seen s.functions;
      owner = seen.owner_seen s.owner;
      locals = s.locals;
      returned = s.returned;
      call = option_map seen.call_seen s.call;
      cases = s.cases;
      threads = s.threads;
      listed = s.listed;
    } };
}

impl Standing {
    /// Before the first token.
    pub fn new(alloc: Global) -> Self
        ensures { result ≡ state.opening }
    {
        Standing {
            open_items: 0,
            nodes: 0,
            shape: Shape::Nothing,
            at_length: false,
            arrays: List::new(alloc),
            strings: Strings {
                wanted: 0,
                count: 0,
                has_empty: false,
            },
            functions: List::new(alloc),
            owner: Owner::Thread,
            locals: List::new(alloc),
            returned: false,
            call: None,
            cases: Switches::new(alloc),
            threads: 0,
            listed: 0,
        }
    }

    /// Whether a token can't stand anywhere as it is: a word that is too long, or a number out of range.
    pub fn is_unfit(&self, lexeme: &Lexeme) -> bool
        ensures { result ≡ rules.unfit lexeme.now self.now }
    {
        match lexeme {
            Lexeme::LongWord => true,
            Lexeme::LargeNumber => true,
            Lexeme::Number(number) => self.is_out_of_range(*number),
            Lexeme::Padded(number) => self.is_out_of_range(*number),
            _ => false,
        }
    }

    fn is_out_of_range(&self, number: i64) -> bool
        ensures { result ≡ rules.out_of_range self.now number }
    {
        if self.at_length {
            (number < 1) | (MOST_ELEMENTS < number)
        } else {
            let literal = in_literal(self.call);
            !literal & (MOST_NUMBER < number)
        }
    }

    /// Whether with a token in its role there are more of its sort than the limit.
    fn is_full(&self, role: Role) -> bool
        ensures { result ≡ rules.is_full role self.now }
    {
        match role {
            Role::DeclareArray => self.arrays.as_slice().len() >= MOST_ARRAYS,
            Role::Channel => self.strings.count >= MOST_CHANNELS as u64,
            Role::DeclareGiving => self.functions.as_slice().len() >= MOST_FUNCTIONS,
            Role::DeclareVoid => self.functions.as_slice().len() >= MOST_FUNCTIONS,
            Role::DeclareParameter => self.locals.as_slice().len() >= MOST_LOCALS,
            Role::DeclareLocal => self.locals.as_slice().len() >= MOST_LOCALS,
            Role::DeclareThread => self.threads >= MOST_THREADS,
            _ => is_node(role) & (self.nodes >= MOST_NODES),
        }
    }

    /// Whether a token in its role opens one item more than the limit.
    fn is_too_deep(&self, role: Role) -> bool
        ensures { result ≡ rules.is_too_deep role self.now }
    {
        opens(role) & (self.open_items >= MOST_OPEN_ITEMS)
    }

    /// What a token calls, if that is declared.
    fn called(&self, lexeme: &Lexeme) -> Option<Callee>
        ensures { result ≡ option_map callee_of (walk.called lexeme.now self.now) }
    {
        match lexeme {
            Lexeme::Primitive(primitive) => Some(Callee {
                arity: u64::from(primitive.count()),
                gives: primitive.gives(),
            }),
            Lexeme::Function(name) => function_named(
                self.functions.as_slice(),
                name.text().as_bytes(),
            ),
            _ => None,
        }
    }

    /// Whether what a token calls is declared.
    #[tactic(auto, using(crate::proofs::Callees::is_called))]
    fn is_called(&self, lexeme: &Lexeme) -> bool
        ensures { result ≡ is_some (walk.called lexeme.now self.now) }
    {
        self.called(lexeme).is_some()
    }

    /// Whether what a token calls is declared, and gives an int.
    #[tactic(auto, using(crate::proofs::Callees::gives_some, crate::proofs::Callees::gives_none))]
    fn gives_called(&self, lexeme: &Lexeme) -> bool
        ensures { result ≡ rules.gives (walk.called lexeme.now self.now) }
    {
        match self.called(lexeme) {
            Some(callee) => callee.gives,
            None => false,
        }
    }

    /// Whether a token in its role breaks a rule on names.
    fn breaks_rule(&self, role: Role, lexeme: &Lexeme) -> bool
        ensures { result ≡ rules.breaks_rule role lexeme.now self.now }
    {
        match role {
            Role::DeclareArray => self.has_array(lexeme),
            Role::DeclareGiving => self.has_function(lexeme),
            Role::DeclareVoid => self.has_function(lexeme),
            Role::DeclareParameter => self.has_local(lexeme),
            Role::DeclareLocal => self.has_local(lexeme),
            Role::Target => !self.has_local(lexeme),
            Role::Local => !self.has_local(lexeme),
            Role::TargetArray => !self.has_array(lexeme),
            Role::Element => !self.has_array(lexeme),
            Role::Callee => !self.is_called(lexeme),
            Role::GivingCallee => !self.gives_called(lexeme),
            Role::DeclareThread => !names_thread(lexeme, self.threads),
            Role::Listed => !names_thread(lexeme, self.listed) | (self.threads <= self.listed),
            Role::CloseArguments => !closes_well(self.call, self.shape),
            Role::EndReturn => !self.owner.may_return(),
            Role::EndValueReturn => !self.owner.may_return_value(self.shape),
            Role::EndThread => !self.returned,
            Role::CaseNumber => self.cases.has(value_of(lexeme)),
            Role::Channel => self.strings.has_empty | (is_empty(lexeme) & (0 < self.strings.count)),
            Role::Process => is_empty(lexeme),
            Role::EndNames => !self.strings.are_all(),
            Role::TableCount => !says(lexeme, self.threads)
                | !(u64::from(self.threads) == self.strings.count),
            Role::EndTable => self.listed < self.threads,
            Role::MainCount => !says(lexeme, self.threads),
            _ => false,
        }
    }

    fn has_array(&self, lexeme: &Lexeme) -> bool
        ensures { result ≡ walk.is_among self.now.arrays (walk.name_of lexeme.now) }
    {
        is_among(self.arrays.as_slice(), name_of(lexeme))
    }

    fn has_local(&self, lexeme: &Lexeme) -> bool
        ensures { result ≡ walk.is_among self.now.locals (walk.name_of lexeme.now) }
    {
        is_among(self.locals.as_slice(), name_of(lexeme))
    }

    #[tactic(auto, using(crate::proofs::Callees::is_called))]
    fn has_function(&self, lexeme: &Lexeme) -> bool
        ensures { result ≡ is_some (walk.function_named self.now.functions (walk.name_of lexeme.now)) }
    {
        function_named(self.functions.as_slice(), name_of(lexeme)).is_some()
    }

    /// The call under way behind a token in its role.
    fn call_behind(&self, role: Role, lexeme: &Lexeme) -> Result<Option<Call>, AllocError>
        ensures { IfOk result (λ c. option_map seen.call_seen c ≡ walk.call_after role lexeme.now self.now) }
    {
        match role {
            Role::Callee => Ok(self.begun(lexeme)),
            Role::GivingCallee => Ok(self.begun(lexeme)),
            Role::NextArgument => with_comma(self.call),
            Role::CloseArguments => Ok(None),
            _ => Ok(self.call),
        }
    }

    /// The call that a token begins, if what it calls is declared.
    #[tactic(auto, using(crate::proofs::Callees::begun_some, crate::proofs::Callees::begun_none))]
    fn begun(&self, lexeme: &Lexeme) -> Option<Call>
        ensures { option_map seen.call_seen result ≡ option_map (walk.call_of lexeme.now) (walk.called lexeme.now self.now) }
    {
        match self.called(lexeme) {
            Some(callee) => Some(Call {
                arity: callee.arity,
                is_set: is_set(lexeme),
                commas: 0,
                arguments: 0,
                third: Shape::Nothing,
            }),
            None => None,
        }
    }

    /// Takes a token in its role, if nothing is wrong with it there.
    pub fn take(&mut self, alloc: Global, role: Role, lexeme: &Lexeme) -> Result<(), Fault<Flaw>>
        ensures judged { OnOk result (rules.judged role lexeme.now self.old ≡ None) }
        ensures state { OnOk result (self.new ≡ walk.after_token role lexeme.now self.old) }
        ensures wrong { IfErr result (seen.IsWrong role lexeme.now self.old) }
    {
        if self.is_full(role) {
            return Err(Fault::Flaw(Flaw::Limit));
        }
        if self.is_too_deep(role) {
            return Err(Fault::Flaw(Flaw::TooDeep));
        }
        if self.breaks_rule(role, lexeme) {
            return Err(Fault::Flaw(Flaw::Names));
        }
        self.pass(alloc, role, lexeme)?;
        Ok(())
    }

    /// A token in its role, with which nothing is wrong.
    fn pass(&mut self, alloc: Global, role: Role, lexeme: &Lexeme) -> Result<(), AllocError>
        requires full { rules.is_full role self.old ≡ false }
        requires deep { rules.is_too_deep role self.old ≡ false }
        requires rule { rules.breaks_rule role lexeme.now self.old ≡ false }
        ensures { OnOk result (self.new ≡ walk.after_token role lexeme.now self.old) }
    {
        self.call = self.call_behind(role, lexeme)?;
        self.cases.pass(alloc, role, lexeme)?;
        end_function(&mut self.functions, role, &self.owner)?;
        self.owner = mem::replace(&mut self.owner, Owner::Thread).behind(role, lexeme)?;
        self.strings = self.strings.behind(role, lexeme)?;
        declare_array(&mut self.arrays, role, lexeme)?;
        declare_local(alloc, &mut self.locals, role, lexeme)?;
        self.open_items = items_behind(role, self.open_items);
        self.nodes = nodes_behind(role, self.nodes);
        self.shape = self.shape.behind(role, lexeme);
        self.at_length = matches!(role, Role::OpenLength);
        self.returned = returned_behind(role, self.returned);
        self.threads = threads_behind(role, self.threads);
        self.listed = listed_behind(role, self.listed);
        Ok(())
    }

    /// Passes a mark.
    pub fn mark(&mut self, mark: Mark) -> Result<(), AllocError>
        ensures { OnOk result (self.new ≡ walk.after_mark mark self.old) }
    {
        match mark {
            Mark::Negate => self.open_items = self.open_items.saturating_sub(1),
            Mark::Not => self.open_items = self.open_items.saturating_sub(1),
            Mark::Fresh => {
                self.nodes = 0;
                self.shape = Shape::Nothing;
            }
            Mark::Argument => self.call = with_argument(self.call, self.shape)?,
            _ => self.returned = returned_at(mark, self.returned),
        }
        Ok(())
    }
}
