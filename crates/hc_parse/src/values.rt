//! The parts of the tree that are read so far.

ghost use Rattle.std.specs.Prelude.{◌≡◌, OnOk};

use hc_ast::{
    BranchTree, CondKind, CondTree, ExprKind, ExprTree, IoTree, ModuleDef, Param, ProcessDef,
    RateTree, Role, StmtTree, Tree,
};
use hc_frac::{Name, Place};
use hc_grammar::Stack;
use hc_list::List;
use hc_token::{Fixed, Lexeme, Token};
use std::alloc::{AllocError, Global};

/// The parts that wait for the part that holds them.
///
/// A mark takes the parts that it joins off these stacks. A text that the table derives never finds
/// a stack empty then (`proofs/Built`); at an empty one nothing more is done, and so the functions at
/// marks go back without a word there. It is no error that is swallowed.
#[derive(Drop)]
pub(crate) struct Values {
    pub(crate) exprs: Stack<ExprTree>,
    pub(crate) conds: Stack<CondTree>,
    /// Lists of statements, the innermost on top.
    pub(crate) bodies: Stack<List<StmtTree>>,
    pub(crate) choices: Stack<List<BranchTree>>,
    pub(crate) rates: Stack<List<RateTree>>,
    /// Communications, each at its first token.
    pub(crate) ios: Stack<(Place, IoTree)>,
    /// Keywords and signs that the tree still needs, by their places.
    pub(crate) fixed: Stack<(Place, Fixed)>,
    /// Names that the tree still needs, rates among them, by their places.
    pub(crate) names: Stack<(Place, Name)>,
    pub(crate) params: List<Param>,
    pub(crate) arguments: List<ExprTree>,
    pub(crate) modules: List<ModuleDef>,
    pub(crate) processes: List<ProcessDef>,
}

impl Values {
    ghost use Rattle.hc_parse.specs.Builder as spec;

    /// Before the first token.
    pub(crate) fn new(alloc: Global) -> Self
        ensures { result ≡ spec.blank }
    {
        Values {
            exprs: Stack::new(alloc),
            conds: Stack::new(alloc),
            bodies: Stack::new(alloc),
            choices: Stack::new(alloc),
            rates: Stack::new(alloc),
            ios: Stack::new(alloc),
            fixed: Stack::new(alloc),
            names: Stack::new(alloc),
            params: List::new(alloc),
            arguments: List::new(alloc),
            modules: List::new(alloc),
            processes: List::new(alloc),
        }
    }

    /// A token in its role.
    pub(crate) fn token(&mut self, role: Role, token: Token) -> Result<(), AllocError>
        ensures { OnOk result (self.new ≡ spec.at_token role token self.old) }
    {
        let Token { place, lexeme } = token;
        match role {
            Role::Plain | Role::Open | Role::Close => Ok(()),
            Role::Leaf => self.leaf(place, lexeme),
            Role::Keep | Role::Operator | Role::Prefix | Role::Begin => self.keep(place, lexeme),
        }
    }

    /// A number, a name, `true` or `false`.
    fn leaf(&mut self, place: Place, lexeme: Lexeme) -> Result<(), AllocError>
        ensures { OnOk result (self.new ≡ spec.leaf lexeme place self.old) }
    {
        match lexeme {
            Lexeme::Number(number) => self.exprs.push(ExprTree {
                place,
                kind: ExprKind::Number(number),
            }),
            Lexeme::Name(name) => self.exprs.push(ExprTree {
                place,
                kind: ExprKind::Name(name),
            }),
            Lexeme::Fixed(Fixed::True) => self.conds.push(CondTree {
                place,
                kind: CondKind::True,
            }),
            Lexeme::Fixed(Fixed::False) => self.conds.push(CondTree {
                place,
                kind: CondKind::False,
            }),
            _ => Ok(()),
        }
    }

    /// A token that the tree still needs: the name that it says, or which keyword or sign it is.
    fn keep(&mut self, place: Place, lexeme: Lexeme) -> Result<(), AllocError>
        ensures { OnOk result (self.new ≡ spec.keep lexeme place self.old) }
    {
        match lexeme {
            Lexeme::Fixed(fixed) => self.fixed.push((place, fixed)),
            Lexeme::Name(name) | Lexeme::Rate(name) => self.names.push((place, name)),
            _ => Ok(()),
        }
    }

    /// The tree of the modules and processes.
    pub(crate) fn tree(self) -> Tree
        ensures { result ≡ spec.tree_of self }
    {
        Tree {
            modules: self.modules,
            processes: self.processes,
        }
    }
}
