//! The unit of C in which a body runs.

use crate::acts::Act;
use hc_cast::{CBody, CProgram};
use hc_cspell::spell;
use hc_frac::Name;
use hc_list::List;
use std::alloc::{AllocError, Global};

/// The statements of a body as text: those of the canonical spelling of a program that has them for its thread.
fn statements_text(alloc: Global, body: CBody) -> Result<String, AllocError> {
    let mut threads = List::new(alloc);
    threads.push(CBody {
        locals: List::new(alloc),
        statements: body.statements,
    })?;
    let program = CProgram {
        arrays: List::new(alloc),
        channels: List::new(alloc),
        processes: List::new(alloc),
        functions: List::new(alloc),
        threads,
    };
    let bytes = spell(alloc, b"", &program)?;
    let text = str::from_utf8(&bytes).unwrap_or("");
    let (_, behind) = text.split_once("* v_u ) {\n").unwrap_or(("", ""));
    let (statements, _) = behind
        .split_once("}\nstatic void * ( *")
        .unwrap_or(("", ""));
    String::from_str(alloc, statements)
}

/// The declarations of locals.
fn locals_text(alloc: Global, locals: &[Name]) -> Result<String, AllocError> {
    let mut text = String::new(alloc);
    for local in locals {
        text.push_str("int ")?;
        text.push_str(local.text())?;
        text.push_str(" = 0; ")?;
    }
    Ok(text)
}

/// The statements of all acts, and an end line.
fn acts_text(alloc: Global, p: u32, private: &str, acts: &[Act]) -> Result<String, AllocError> {
    let mut text = String::new(alloc);
    for act in acts {
        text.push_str(act.statements(alloc, p, private)?.as_str())?;
    }
    text.push_str("m_lock(); out_end(0, 64, 0, -1); m_unlock(); ")?;
    Ok(text)
}

/// So many copies of a text, each with its number in place of `$`, and commas between them.
fn numbered(alloc: Global, count: u32, part: &str, between: &str) -> Result<String, AllocError> {
    let mut text = String::new(alloc);
    for number in 0..count {
        if number > 0 {
            text.push_str(between)?;
        }
        let number = format!(in alloc; "{number}")?;
        text.push_str(part.replace(alloc, "$", number.as_str())?.as_str())?;
    }
    Ok(text)
}

/// The unit in which thread `p` does these acts with the body, and those before it nothing.
pub(crate) fn unit_of(
    alloc: Global,
    p: u32,
    body: CBody,
    acts: &[Act],
) -> Result<String, AllocError> {
    let locals = locals_text(alloc, body.locals.as_slice())?;
    let private = statements_text(alloc, body)?;
    let statements = acts_text(alloc, p, private.as_str(), acts)?;
    let count = p.saturating_add(1);
    let names = numbered(alloc, count, "\"P$\"", ", ")?;
    let others = numbered(alloc, p, "static void *t$(void *v_u) { return 0; } ", "")?;
    let table = numbered(alloc, count, "t$", ", ")?;
    format!(in alloc;
        "const char *const chan_name[1] = {{ \"\" }}; const char *const proc_name[{count}] = {{ {names} }}; {others}static void *t{p}(void *v_u) {{ {locals}{statements}return 0; }} static void *(*const hc_threads[{count}])(void *) = {{ {table} }}; int main(void) {{ return hc_main({count}, hc_threads); }}"
    )
}
