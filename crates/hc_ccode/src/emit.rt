//! From statements to nodes. What follows a statement is put before it, so that its place is known.

ghost use Rattle.std.specs.Prelude.{◌≡◌, ◌≤◌, ◌<◌, [], ◌∷◌, ◌++◌, length, take, slice_set, IsTrue, IfOk, OnOk};
ghost use Rattle.hc_cast.specs.declared.stmt.CStmt.{out-CStmt};
ghost use Rattle.hc_cast.specs.declared.stmt.CCase.{out-CCase};
ghost use Rattle.hc_cmach.specs.Calls.{calls_among, all_among};
ghost use Rattle.hc_ccode.specs.Pieces.{cases_among};
ghost use Rattle.hc_ccode.specs.Placed as spec;
ghost use Rattle.hc_ccode.specs.Pieces.{is_leaf, Adds, AddsCases, AddsBody};

use crate::formula::placed;
use crate::leaf::leaf_node;
use crate::{Case, Node};
use hc_cast::{CCase, CExpr, CProgram, CStmt};
use hc_frac::Name;
use hc_list::List;
use std::alloc::{AllocError, Global};

/// One node more; its place is answered.
fn put(code: &mut List<Node>, node: Node) -> Result<usize, AllocError>
    ensures put { OnOk result (code.new ≡ code.old ++ node ∷ []) }
    ensures place { IfOk result (λ place. place ≡ length code.old) }
{
    let place = code.len();
    code.push(node)?;
    Ok(place)
}

/// Puts a statement without parts behind what is there, and answers its place.
fn emit_leaf(
    alloc: Global,
    program: &CProgram,
    names: &[Name],
    known: usize,
    code: &mut List<Node>,
    stmt: &CStmt,
    next: usize,
) -> Result<usize, AllocError>
    requires leaf { IsTrue (is_leaf (out-CStmt stmt.now)) }
    requires within { known ≤ length program.now.functions }
    requires called { IsTrue (calls_among (take known program.now.functions) stmt.now) }
    ensures { IfOk result (λ place. Adds program.now names.now known code.old code.new next (place ∷ []) ((stmt.now ∷ []) ∷ [])) }
{
    let node = leaf_node(alloc, program, names, known, stmt, next)?;
    put(code, node)
}

/// Puts a test behind what is there, and answers its place.
fn put_branch(
    alloc: Global,
    program: &CProgram,
    names: &[Name],
    code: &mut List<Node>,
    test: &CExpr,
    yes: usize,
    no: usize,
) -> Result<usize, AllocError>
    ensures put { OnOk result (code.new ≡ code.old ++ Node.Branch (spec.placed program.now names.now test.now) yes no ∷ []) }
    ensures place { IfOk result (λ place. place ≡ length code.old) }
{
    let test = placed(alloc, program, names, test)?;
    put(code, Node::Branch { test, yes, no })
}

/// Makes the node at a place the test of a loop.
fn set_loop(
    alloc: Global,
    program: &CProgram,
    names: &[Name],
    code: &mut List<Node>,
    test: &CExpr,
    here: usize,
    body: usize,
    next: usize,
) -> Result<(), AllocError>
    requires { here < length code.old }
    ensures { OnOk result (code.new ≡ slice_set code.old here (Node.Branch (spec.placed program.now names.now test.now) body next)) }
{
    let test = placed(alloc, program, names, test)?;
    code.set(
        here,
        Node::Branch {
            test,
            yes: body,
            no: next,
        },
    );
    Ok(())
}

/// Puts a `switch` behind what is there, and answers its place.
fn put_switch(
    alloc: Global,
    program: &CProgram,
    names: &[Name],
    code: &mut List<Node>,
    on: &CExpr,
    cases: List<Case>,
    otherwise: usize,
) -> Result<usize, AllocError>
    ensures put { OnOk result (code.new ≡ code.old ++ Node.Switch (spec.placed program.now names.now on.now) cases otherwise ∷ []) }
    ensures place { IfOk result (λ place. place ≡ length code.old) }
{
    let on = placed(alloc, program, names, on)?;
    put(
        code,
        Node::Switch {
            on,
            cases,
            otherwise,
        },
    )
}

/// A case that goes on at a place.
fn case_at(case: &CCase, place: usize) -> Case
    ensures { result ≡ record { number = (out-CCase case.now).number; place = place } }
{
    Case {
        number: case.number,
        place,
    }
}

/// Puts a statement behind what is there, and answers its place. What follows it stands at `next`.
#[cycle(emits)]
fn emit_one(
    alloc: Global,
    program: &CProgram,
    names: &[Name],
    known: usize,
    code: &mut List<Node>,
    stmt: &CStmt,
    next: usize,
) -> Result<usize, AllocError>
    requires within { known ≤ length program.now.functions }
    requires called { IsTrue (calls_among (take known program.now.functions) stmt.now) }
    ensures { IfOk result (λ place. Adds program.now names.now known code.old code.new next (place ∷ []) ((stmt.now ∷ []) ∷ [])) }
{
    match stmt {
        CStmt::If { test, yes, no } => {
            let yes = emit_all(alloc, program, names, known, code, yes.as_slice(), next)?;
            match no {
                None => put_branch(alloc, program, names, code, test, yes, next),
                Some(no) => {
                    let no = emit_all(alloc, program, names, known, code, no.as_slice(), next)?;
                    put_branch(alloc, program, names, code, test, yes, no)
                }
            }
        }
        CStmt::While { test, body } => {
            let here = put(code, Node::End)?;
            let body = emit_all(alloc, program, names, known, code, body.as_slice(), here)?;
            set_loop(alloc, program, names, code, test, here, body, next)?;
            Ok(here)
        }
        CStmt::Switch {
            on,
            cases,
            otherwise,
        } => {
            let cases = emit_cases(alloc, program, names, known, code, cases.as_slice(), next)?;
            let otherwise = emit_all(
                alloc,
                program,
                names,
                known,
                code,
                otherwise.as_slice(),
                next,
            )?;
            put_switch(alloc, program, names, code, on, cases, otherwise)
        }
        _ => emit_leaf(alloc, program, names, known, code, stmt, next),
    }
}

/// Puts statements behind what is there, and answers the place of the first: `next` where there is none.
#[cycle(emits)]
fn emit_all(
    alloc: Global,
    program: &CProgram,
    names: &[Name],
    known: usize,
    code: &mut List<Node>,
    stmts: &[CStmt],
    next: usize,
) -> Result<usize, AllocError>
    requires within { known ≤ length program.now.functions }
    requires called { IsTrue (all_among (take known program.now.functions) stmts.now) }
    ensures { IfOk result (λ place. Adds program.now names.now known code.old code.new next (place ∷ []) (stmts.now ∷ [])) }
{
    let mut place = next;
    let mut left = stmts.len();
    while left > 0 {
        left -= 1;
        place = emit_one(alloc, program, names, known, code, &stmts[left], place)?;
    }
    Ok(place)
}

/// Puts the statements of cases behind what is there.
#[cycle(emits)]
fn emit_cases(
    alloc: Global,
    program: &CProgram,
    names: &[Name],
    known: usize,
    code: &mut List<Node>,
    cases: &[CCase],
    next: usize,
) -> Result<List<Case>, AllocError>
    requires within { known ≤ length program.now.functions }
    requires called { IsTrue (cases_among (take known program.now.functions) cases.now) }
    ensures { IfOk result (λ found. AddsCases program.now names.now known code.old code.new next found cases.now) }
{
    let mut found = List::new(alloc);
    for case in cases {
        let place = emit_all(
            alloc,
            program,
            names,
            known,
            code,
            case.body.as_slice(),
            next,
        )?;
        found.push(case_at(case, place))?;
    }
    Ok(found)
}

/// Puts a body behind what is there, and answers the place at which it begins.
pub(crate) fn emit_body(
    alloc: Global,
    program: &CProgram,
    names: &[Name],
    known: usize,
    code: &mut List<Node>,
    stmts: &[CStmt],
) -> Result<usize, AllocError>
    requires within { known ≤ length program.now.functions }
    requires called { IsTrue (all_among (take known program.now.functions) stmts.now) }
    ensures { IfOk result (λ place. AddsBody program.now names.now known code.old code.new place stmts.now) }
{
    let end = put(code, Node::End)?;
    emit_all(alloc, program, names, known, code, stmts, end)
}
