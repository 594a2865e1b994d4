//! The parts of the program that are read so far.

ghost use Rattle.std.specs.Prelude.{◌≡◌, OnOk};

use crate::expr_marks::op_of;
use hc_cast::{CArray, CBody, CCase, CExpr, CFunction, COp, CProgram, CStmt};
use hc_cgrammar::Role;
use hc_ctoken::Lexeme;
use hc_frac::Name;
use hc_grammar::Stack;
use hc_list::List;
use std::alloc::{AllocError, Global};

/// The parts that wait for the part that holds them.
///
/// A mark takes the parts that it joins off these stacks. A unit never finds a stack empty then (`proofs/Built`); at an empty one
/// nothing more is done, and so the functions at marks go back without a word there. It is no error that is swallowed.
#[derive(Drop)]
pub(crate) struct Values {
    pub(crate) exprs: Stack<CExpr>,
    /// Signs between two expressions.
    pub(crate) signs: Stack<COp>,
    /// Names that the program still needs.
    pub(crate) names: Stack<Name>,
    /// Lengths of arrays, and numbers of cases.
    pub(crate) numbers: Stack<i64>,
    /// Whether a function gives an int.
    pub(crate) gives: Stack<bool>,
    /// Parameters and locals.
    pub(crate) lists: Stack<List<Name>>,
    pub(crate) arguments: Stack<List<CExpr>>,
    /// Lists of statements, the innermost on top.
    pub(crate) bodies: Stack<List<CStmt>>,
    pub(crate) cases: Stack<List<CCase>>,
    pub(crate) arrays: List<CArray>,
    pub(crate) channels: List<Name>,
    pub(crate) processes: List<Name>,
    pub(crate) functions: List<CFunction>,
    pub(crate) threads: List<CBody>,
}

impl Values {
    ghost use Rattle.hc_cread.specs.Builder as spec;

    /// Before the first token.
    pub(crate) fn new(alloc: Global) -> Self
        ensures { result ≡ spec.blank }
    {
        Values {
            exprs: Stack::new(alloc),
            signs: Stack::new(alloc),
            names: Stack::new(alloc),
            numbers: Stack::new(alloc),
            gives: Stack::new(alloc),
            lists: Stack::new(alloc),
            arguments: Stack::new(alloc),
            bodies: Stack::new(alloc),
            cases: Stack::new(alloc),
            arrays: List::new(alloc),
            channels: List::new(alloc),
            processes: List::new(alloc),
            functions: List::new(alloc),
            threads: List::new(alloc),
        }
    }

    /// A token in its role.
    pub(crate) fn token(
        &mut self,
        alloc: Global,
        role: Role,
        lexeme: Lexeme,
    ) -> Result<(), AllocError>
        ensures { OnOk result (self.new ≡ spec.at_token role lexeme self.old) }
    {
        match role {
            Role::Number => self.leaf(lexeme),
            Role::Local => self.leaf(lexeme),
            Role::Operator => self.signed(lexeme),
            Role::Element => self.named(lexeme),
            Role::Target => self.named(lexeme),
            Role::TargetArray => self.named(lexeme),
            Role::Callee => self.named(lexeme),
            Role::GivingCallee => self.named(lexeme),
            Role::DeclareArray => self.named(lexeme),
            Role::DeclareGiving => self.function(true, lexeme),
            Role::DeclareVoid => self.function(false, lexeme),
            Role::DeclareParameter => self.declared(lexeme),
            Role::DeclareLocal => self.declared(lexeme),
            Role::Length => self.numbered(lexeme),
            Role::CaseNumber => self.numbered(lexeme),
            Role::Channel => self.channel(lexeme),
            Role::Process => self.process(lexeme),
            Role::OpenArguments => self.arguments.push(List::new(alloc)),
            _ => Ok(()),
        }
    }

    /// A number or a local in an expression.
    fn leaf(&mut self, lexeme: Lexeme) -> Result<(), AllocError>
        ensures { OnOk result (self.new ≡ spec.leaf lexeme self.old) }
    {
        match lexeme {
            Lexeme::Number(number) => self.exprs.push(CExpr::Number(number)),
            Lexeme::Local(name) => self.exprs.push(CExpr::Local(name)),
            _ => Ok(()),
        }
    }

    /// A sign between two expressions.
    fn signed(&mut self, lexeme: Lexeme) -> Result<(), AllocError>
        ensures { OnOk result (self.new ≡ spec.signed lexeme self.old) }
    {
        match lexeme {
            Lexeme::Fixed(fixed) => self.signs.push(op_of(fixed)),
            _ => Ok(()),
        }
    }

    /// A name that the program still needs.
    fn named(&mut self, lexeme: Lexeme) -> Result<(), AllocError>
        ensures { OnOk result (self.new ≡ spec.named lexeme self.old) }
    {
        match lexeme {
            Lexeme::Array(name) => self.names.push(name),
            Lexeme::Function(name) => self.names.push(name),
            Lexeme::Local(name) => self.names.push(name),
            Lexeme::Primitive(primitive) => self.names.push(primitive.name()),
            _ => Ok(()),
        }
    }

    /// The name of a function that is declared, and whether it gives an int.
    fn function(&mut self, gives: bool, lexeme: Lexeme) -> Result<(), AllocError>
        ensures { OnOk result (self.new ≡ spec.named lexeme (spec.push_gives gives self.old)) }
    {
        self.gives.push(gives)?;
        self.named(lexeme)
    }

    /// A number that the program still needs.
    fn numbered(&mut self, lexeme: Lexeme) -> Result<(), AllocError>
        ensures { OnOk result (self.new ≡ spec.numbered lexeme self.old) }
    {
        match lexeme {
            Lexeme::Number(number) => self.numbers.push(number),
            _ => Ok(()),
        }
    }

    /// A parameter or a local that is declared.
    fn declared(&mut self, lexeme: Lexeme) -> Result<(), AllocError>
        ensures { OnOk result (self.new ≡ spec.declared lexeme self.old) }
    {
        match lexeme {
            Lexeme::Local(name) => self.add_name(name),
            _ => Ok(()),
        }
    }

    fn add_name(&mut self, name: Name) -> Result<(), AllocError>
        ensures { OnOk result (self.new ≡ spec.add_name name self.old) }
    {
        let Some(mut names) = self.lists.pop() else {
            return Ok(());
        };
        names.push(name)?;
        self.lists.push(names)
    }

    /// A string of `chan_name`.
    fn channel(&mut self, lexeme: Lexeme) -> Result<(), AllocError>
        ensures { OnOk result (self.new ≡ spec.channel lexeme self.old) }
    {
        match lexeme {
            Lexeme::Text(name) => self.channels.push(name),
            _ => Ok(()),
        }
    }

    /// A string of `proc_name`.
    fn process(&mut self, lexeme: Lexeme) -> Result<(), AllocError>
        ensures { OnOk result (self.new ≡ spec.process lexeme self.old) }
    {
        match lexeme {
            Lexeme::Text(name) => self.processes.push(name),
            _ => Ok(()),
        }
    }

    /// The program of all parts.
    pub(crate) fn program(self) -> CProgram
        ensures { result ≡ spec.program_of self }
    {
        CProgram {
            arrays: self.arrays,
            channels: self.channels,
            processes: self.processes,
            functions: self.functions,
            threads: self.threads,
        }
    }
}
