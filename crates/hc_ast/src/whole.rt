//! Whether two whole sources are equal in all but places.

ghost use Rattle.std.specs.Prelude.{◌≡◌, ◌↔◌, IsTrue};
ghost use Rattle.hc_ast.specs.Unplaced.{bare_param, bare_module, bare_body, bare_process, bare};

use crate::lists::{Alike, all_alike};
use crate::same::same_statements;
use crate::{Body, ModuleDef, Param, ProcessDef, Tree};

/// Whether two trees are equal in all but places.
pub fn same_tree(left: &Tree, right: &Tree) -> bool
    ensures { IsTrue result ↔ (bare left.now ≡ bare right.now) }
{
    all_alike(left.modules.as_slice(), right.modules.as_slice())
        && all_alike(left.processes.as_slice(), right.processes.as_slice())
}

fn same_module(left: &ModuleDef, right: &ModuleDef) -> bool
    ensures { IsTrue result ↔ (bare_module left.now ≡ bare_module right.now) }
{
    left.name == right.name
        && all_alike(left.params.as_slice(), right.params.as_slice())
        && same_statements(left.body.as_slice(), right.body.as_slice())
}

fn same_param(left: &Param, right: &Param) -> bool
    ensures { IsTrue result ↔ (bare_param left.now ≡ bare_param right.now) }
{
    left.kind == right.kind && left.name == right.name
}

fn same_process(left: &ProcessDef, right: &ProcessDef) -> bool
    ensures { IsTrue result ↔ (bare_process left.now ≡ bare_process right.now) }
{
    left.name == right.name && same_body(&left.body, &right.body)
}

fn same_body(left: &Body, right: &Body) -> bool
    ensures { IsTrue result ↔ (bare_body left.now ≡ bare_body right.now) }
{
    match (left, right) {
        (Body::Inline(left), Body::Inline(right)) => same_statements(
            left.as_slice(),
            right.as_slice(),
        ),
        (
            Body::Call {
                module,
                arguments,
                ..
            },
            Body::Call {
                module: other,
                arguments: others,
                ..
            },
        ) => module == other && all_alike(arguments.as_slice(), others.as_slice()),
        _ => false,
    }
}

impl Alike for ModuleDef {
    ghost use Rattle.hc_ast.specs.Bare.{BareModule};
    ghost use Rattle.hc_ast.specs.Unplaced.{bare_module};

    ghost Bare = { BareModule };

    ghost bare = { bare_module };

    fn is_like(&self, other: &ModuleDef) -> bool {
        same_module(self, other)
    }
}

impl Alike for Param {
    ghost use Rattle.hc_ast.specs.Bare.{BareParam};
    ghost use Rattle.hc_ast.specs.Unplaced.{bare_param};

    ghost Bare = { BareParam };

    ghost bare = { bare_param };

    fn is_like(&self, other: &Param) -> bool {
        same_param(self, other)
    }
}

impl Alike for ProcessDef {
    ghost use Rattle.hc_ast.specs.Bare.{BareProcess};
    ghost use Rattle.hc_ast.specs.Unplaced.{bare_process};

    ghost Bare = { BareProcess };

    ghost bare = { bare_process };

    fn is_like(&self, other: &ProcessDef) -> bool {
        same_process(self, other)
    }
}
