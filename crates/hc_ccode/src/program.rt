//! Whole programs.

ghost use Rattle.std.specs.Prelude.{◌≡◌, ◌≤◌, ◌+◌, ◌<◌, false, [], ◌∷◌, ◌++◌, length, take, IsTrue, IfOk, OnOk};
ghost use Rattle.hc_cmach.specs.Calls.{CallsGoBack, all_among};
ghost use Rattle.hc_ccode.specs.Stages.{IsCode};
ghost use Rattle.hc_ccode.specs.Pieces.{AddsEntry, HasFunctions, HasThreads};

use crate::emit::emit_body;
use crate::places::joined;
use crate::{Code, Entry, Node};
use hc_cast::{CBody, CProgram};
use hc_frac::Name;
use hc_list::List;
use std::alloc::{AllocError, Global};

/// Puts a body behind what is there, and answers its entry.
fn emit_entry(
    alloc: Global,
    program: &CProgram,
    params: &[Name],
    body: &CBody,
    gives: bool,
    known: usize,
    code: &mut List<Node>,
) -> Result<Entry, AllocError>
    requires within { known ≤ length program.now.functions }
    requires called { IsTrue (all_among (take known program.now.functions) body.now.statements) }
    ensures { IfOk result (λ e. AddsEntry program.now known params.now body.now gives code.old code.new e) }
{
    let names = joined(alloc, params, body.locals.as_slice())?;
    let start = emit_body(
        alloc,
        program,
        names.as_slice(),
        known,
        code,
        body.statements.as_slice(),
    )?;
    Ok(Entry {
        start,
        params: params.len(),
        locals: body.locals.len(),
        gives,
    })
}

/// Puts all functions into an empty code, and answers their entries.
fn emit_functions(
    alloc: Global,
    program: &CProgram,
    code: &mut List<Node>,
) -> Result<List<Entry>, AllocError>
    requires called { CallsGoBack program.now }
    requires empty { code.old ≡ [] }
    ensures { IfOk result (λ entries. HasFunctions program.now code.new entries) }
{
    let mut entries = List::new(alloc);
    for (known, function) in program.functions.as_slice().iter().enumerate() {
        entries.push(emit_entry(
            alloc,
            program,
            function.params.as_slice(),
            &function.body,
            function.gives,
            known,
            code,
        )?)?;
    }
    Ok(entries)
}

/// Puts all threads behind the functions, and answers their entries.
fn emit_threads(
    alloc: Global,
    program: &CProgram,
    functions: &List<Entry>,
    code: &mut List<Node>,
) -> Result<List<Entry>, AllocError>
    requires called { CallsGoBack program.now }
    requires functions { HasFunctions program.now code.old functions.now }
    ensures { IfOk result (λ entries. HasThreads program.now code.new functions.now entries) }
{
    let known = program.functions.len();
    let mut entries = List::new(alloc);
    for body in program.threads.as_slice() {
        entries.push(emit_entry(alloc, program, &[], body, false, known, code)?)?;
    }
    Ok(entries)
}

/// The code of a program whose calls go back.
pub fn prepare(alloc: Global, program: &CProgram) -> Result<Code, AllocError>
    requires { CallsGoBack program.now }
    ensures { IfOk result (λ code. IsCode program.now code) }
{
    let mut nodes = List::new(alloc);
    let functions = emit_functions(alloc, program, &mut nodes)?;
    let threads = emit_threads(alloc, program, &functions, &mut nodes)?;
    Ok(Code {
        nodes,
        functions,
        threads,
    })
}
