//! Functions by their names.

ghost use Rattle.std.specs.Prelude.{◌≡◌, map};
ghost use Rattle.std.specs.Option.{option_map};
ghost use Rattle.hc_cgrammar.specs.Walk as walk;
ghost use Rattle.hc_crules.specs.Callee as spec;
ghost use Rattle.hc_crules.specs.Seen.{signature_seen};

use crate::owner::Signature;

/// What is called: how many arguments it has, and whether it gives an int.
#[derive(Clone, Copy, Debug)]
pub(crate) struct Callee {
    pub(crate) arity: u64,
    pub(crate) gives: bool,
}

/// The function of a name, if it is declared.
pub(crate) fn function_named(functions: &[Signature], name: &[u8]) -> Option<Callee>
    ensures { result ≡ option_map spec.callee_of (walk.function_named (map signature_seen functions.now) name.now) }
{
    for function in functions {
        if function.name.is(name) {
            return Some(Callee {
                arity: function.arity,
                gives: function.gives,
            });
        }
    }
    None
}
