//! Texts of programs.

ghost use Rattle.std.specs.Prelude.{◌≡◌, ◌++◌, IfOk};
ghost use Rattle.hc_frac.specs.declared.place.Place.{Place};
ghost use Rattle.hc_cgrammar.specs.Prelude.{prelude as prelude_bytes};
ghost use Rattle.hc_cgrammar.specs.Text.{IsCText};
ghost use Rattle.hc_cgrammar.specs.Unit.{IsUnit};
ghost use Rattle.hc_cspell.specs.Units.{canonical as canonical_spelling};
ghost use Rattle.hc_cwrite.specs.Writable.{IsWritable};

use hc_cast::CProgram;
use hc_cgrammar::prelude;
use hc_cspell::spell;
use std::alloc::{AllocError, Global};

/// The C text of a program that the grammar has: the prelude, and the program's canonical spelling.
///
/// A newline stands behind each `;`, `{` and `}`, and one space behind each other token; round brackets stand only where the
/// grammar needs them. What is written is a C text again, and its program is the very one.
pub fn c_write(alloc: Global, program: &CProgram) -> Result<Vec<u8>, AllocError>
    requires { IsWritable program.now }
    ensures canonical { IfOk result (λ text. text.items ≡ prelude_bytes ++ canonical_spelling program.now) }
    ensures reads_back { IfOk result (λ text. IsCText text.items program.now) }
{
    spell(alloc, prelude(), program)
}

/// The unit of a program that the grammar has, without the prelude. It is a unit of the very program, wherever it begins.
pub fn write_unit(alloc: Global, program: &CProgram) -> Result<Vec<u8>, AllocError>
    requires { IsWritable program.now }
    ensures canonical { IfOk result (λ text. text.items ≡ canonical_spelling program.now) }
    ensures reads_back { IfOk result (λ text. (from : Place) → IsUnit from text.items program.now) }
{
    spell(alloc, b"", program)
}
