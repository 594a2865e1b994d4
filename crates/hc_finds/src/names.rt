//! The names of parts, noted in the order of their first occurrence.

ghost use Rattle.std.specs.Prelude.{◌≡◌, flat_map, OnOk};
ghost use Rattle.hc_modules.specs.Bindings.{same_word};
ghost use Rattle.indexmap.specs.IndexSet.{insert_key};
ghost use Rattle.hc_finds.specs.Exprs.{words_in, sides};
ghost use Rattle.hc_finds.specs.Limits as limit;
ghost use Rattle.hc_finds.specs.Seen.{part_of};
ghost use Rattle.hc_finds.specs.Tally.{with_names};

use crate::parts::Part;
use hc_ast::{CondKind, CondTree, ExprKind, ExprTree, IoTree};
use hc_frac::Name;
use indexmap::IndexSet;
use std::alloc::AllocError;

/// Notes a name, unless it was noted before.
pub(crate) fn note(names: &mut IndexSet<Name>, name: &Name) -> Result<(), AllocError>
    ensures { OnOk result (names.new.keys ≡ insert_key same_word names.old.keys name.now) }
{
    match names.insert_full(name.copy()) {
        Ok(_) => Ok(()),
        Err(_) => Err(AllocError),
    }
}

/// Notes the variables of an expression.
#[tactic(auto, using(crate::proofs::ExprForms::forms))]
fn note_expr(names: &mut IndexSet<Name>, expr: &ExprTree) -> Result<(), AllocError>
    ensures { OnOk result (names.new.keys ≡ with_names names.old.keys (words_in expr.now)) }
{
    match &expr.kind {
        ExprKind::Number(_) => Ok(()),
        ExprKind::Name(name) => note(names, name),
        ExprKind::Neg(part) => note_expr(names, part.get()),
        ExprKind::Binary(_, left, right) => {
            note_expr(names, left.get())?;
            note_expr(names, right.get())
        }
    }
}

/// Notes the variables of a condition.
#[tactic(auto, using(crate::proofs::ExprForms::forms))]
fn note_cond(names: &mut IndexSet<Name>, cond: &CondTree) -> Result<(), AllocError>
    ensures { OnOk result (names.new.keys ≡ with_names names.old.keys (flat_map words_in (sides cond.now))) }
{
    match &cond.kind {
        CondKind::True | CondKind::False => Ok(()),
        CondKind::Compare(_, left, right) => {
            note_expr(names, left.get())?;
            note_expr(names, right.get())
        }
        CondKind::Not(part) => note_cond(names, part.get()),
        CondKind::And(left, right) | CondKind::Or(left, right) => {
            note_cond(names, left.get())?;
            note_cond(names, right.get())
        }
    }
}

fn note_io(names: &mut IndexSet<Name>, io: &IoTree) -> Result<(), AllocError>
    ensures { OnOk result (names.new.keys ≡ with_names names.old.keys (limit.io_variables io.now)) }
{
    match io {
        IoTree::Send { channel: _, value } => note_expr(names, value),
        IoTree::Receive { channel: _, target } => note(names, target),
    }
}

/// Notes the variables of a part.
pub(crate) fn note_variables(names: &mut IndexSet<Name>, part: Part<'_>) -> Result<(), AllocError>
    ensures { OnOk result (names.new.keys ≡ with_names names.old.keys (limit.variables_in (part_of part.entry))) }
{
    match part {
        Part::Assign {
            place: _,
            target,
            value,
        } => {
            note(names, target)?;
            note_expr(names, value)
        }
        Part::Compute { place: _, value } => note_expr(names, value),
        Part::Test { place: _, test } => note_cond(names, test),
        Part::Communicate { place: _, io } => note_io(names, io),
        Part::Rate { rate, .. } => {
            note(names, &rate.variable)?;
            note_expr(names, &rate.value)
        }
        Part::Domain { domain, .. } => note_cond(names, domain),
        Part::Guard { io, .. } => note_io(names, io),
    }
}
