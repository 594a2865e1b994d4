//! The processes of a source without its modules.

ghost use Rattle.std.specs.Prelude.{◌≡◌};

use hc_ast::StmtTree;
use hc_frac::{Name, Place};
use hc_list::List;
use std::alloc::AllocError;

/// The processes of a source, in order, and how many statements they have, with those inside others.
#[derive(Drop)]
pub struct Flat {
    pub processes: List<FlatProcess>,
    pub statements: u32,
}

/// A process, at its name, with statements of its own.
#[derive(Drop)]
pub struct FlatProcess {
    pub place: Place,
    pub name: Name,
    pub body: List<StmtTree>,
}

/// Why a source has no processes by themselves.
#[derive(Clone, Copy, Debug, PartialEq, Eq)]
pub enum ModuleStop {
    /// A second module has this name.
    RepeatedModule { place: Place },
    /// A second parameter of one module has this name.
    RepeatedParameter { place: Place },
    /// This statement, branch or rate of a module writes a value parameter.
    ParameterWritten { place: Place },
    /// The 65th process.
    TooManyProcesses { place: Place },
    /// A second process has this name.
    RepeatedProcess { place: Place },
    /// No module has this name.
    UnknownModule { place: Place },
    /// The module that is called here has more parameters than arguments are given, or fewer.
    WrongArgumentCount { place: Place },
    /// This argument stands for a channel and isn't a bare name, or for a value and has a name in it.
    WrongArgumentKind { place: Place },
    /// The process with the 10,001st statement.
    TooManyStatements { place: Place },
    /// The expression or condition with the 50,001st node.
    TooManyNodes { place: Place },
    /// Memory ran out.
    Memory,
}

impl From<AllocError> for ModuleStop {
    ghost use Rattle.hc_modules.specs.declared.flat.ModuleStop.TheVariants.{Memory};

    ghost from_gives = { λ _ stop. stop ≡ Memory };

    fn from(_error: AllocError) -> ModuleStop {
        ModuleStop::Memory
    }
}
