//! Whole sources.

ghost use Rattle.std.specs.Prelude.{◌≡◌, ◌∷◌, [], map, OnOk, IfOk};
ghost use Rattle.hc_ast.specs.Unplaced.{bare_expr, bare_param, bare_module, bare_body, bare_process, bare};
ghost use Rattle.hc_print.specs.Lexemes.{fixed};
ghost use Rattle.hc_print.specs.Appends.{Writes};
ghost use Rattle.hc_print.specs.Canonical as canon;
ghost use Rattle.hc_print.specs.Readable.{IsOfSource, ReadsBackAs};

use crate::expr::write_expr;
use crate::level::Level;
use crate::stmt::write_stmts;
use crate::writer::Writer;
use hc_ast::{Body, ExprTree, ModuleDef, Param, ParamKind, ProcessDef, Tree};
use hc_token::Fixed;
use std::alloc::{AllocError, Global};

/// The canonical spelling of a tree that the grammar has.
///
/// A newline stands behind each `begin`, `;`, `end`, `endmodule`, `system` and `endsystem`, and one
/// space behind each other token; brackets stand only where the grammar needs them. What is written
/// is a source again, with the same tree but for places.
pub fn print(alloc: Global, tree: &Tree) -> Result<Vec<u8>, AllocError>
    requires { IsOfSource tree.now }
    ensures canonical { IfOk result (λ text. text.items ≡ canon.canonical tree.now) }
    ensures reads_back { IfOk result (λ text. ReadsBackAs text.items tree.now) }
{
    let mut out = Writer {
        bytes: Vec::new(alloc),
    };
    write_modules(&mut out, tree.modules.as_slice())?;
    write_system(&mut out, tree.processes.as_slice())?;
    Ok(out.bytes)
}

fn write_system(out: &mut Writer, processes: &[ProcessDef]) -> Result<(), AllocError>
    ensures { OnOk result (Writes out.old out.new (λ w.
        fixed Fixed.System ∷ canon.processes (map bare_process processes.now) (fixed Fixed.EndSystem ∷ w))) }
{
    out.sign(Fixed::System)?;
    write_processes(out, processes)?;
    out.sign(Fixed::EndSystem)
}

fn write_modules(out: &mut Writer, modules: &[ModuleDef]) -> Result<(), AllocError>
    ensures { OnOk result (Writes out.old out.new (canon.modules (map bare_module modules.now))) }
{
    for definition in modules {
        write_module(out, definition)?;
    }
    Ok(())
}

fn write_module(out: &mut Writer, definition: &ModuleDef) -> Result<(), AllocError>
    ensures { OnOk result (Writes out.old out.new (canon.module_of (bare_module definition.now))) }
{
    write_head(out, definition)?;
    out.sign(Fixed::Begin)?;
    write_stmts(out, definition.body.as_slice())?;
    out.sign(Fixed::EndBody)?;
    out.sign(Fixed::EndModule)
}

/// A module up to its colon.
fn write_head(out: &mut Writer, definition: &ModuleDef) -> Result<(), AllocError>
    ensures { OnOk result (Writes out.old out.new (canon.head (bare_module definition.now))) }
{
    out.sign(Fixed::Module)?;
    out.name(&definition.name)?;
    out.sign(Fixed::OpenRound)?;
    write_params(out, definition.params.as_slice())?;
    out.sign(Fixed::CloseRound)?;
    out.sign(Fixed::Colon)
}

/// Parameters with commas between them.
fn write_params(out: &mut Writer, params: &[Param]) -> Result<(), AllocError>
    ensures { OnOk result (Writes out.old out.new (canon.params (map bare_param params.now))) }
{
    let [first, more @ ..] = params else {
        return Ok(());
    };
    write_param(out, first)?;
    for param in more {
        out.sign(Fixed::Comma)?;
        write_param(out, param)?;
    }
    Ok(())
}

fn write_param(out: &mut Writer, param: &Param) -> Result<(), AllocError>
    ensures { OnOk result (Writes out.old out.new (canon.param (bare_param param.now))) }
{
    match param.kind {
        ParamKind::Channel => out.sign(Fixed::Ch)?,
        ParamKind::Value => out.sign(Fixed::Val)?,
    }
    out.name(&param.name)
}

/// Processes with `||` between them.
fn write_processes(out: &mut Writer, processes: &[ProcessDef]) -> Result<(), AllocError>
    ensures { OnOk result (Writes out.old out.new (canon.processes (map bare_process processes.now))) }
{
    let [first, more @ ..] = processes else {
        return Ok(());
    };
    write_process(out, first)?;
    for process in more {
        out.sign(Fixed::BarBar)?;
        write_process(out, process)?;
    }
    Ok(())
}

fn write_process(out: &mut Writer, process: &ProcessDef) -> Result<(), AllocError>
    ensures { OnOk result (Writes out.old out.new (canon.process (bare_process process.now))) }
{
    out.name(&process.name)?;
    out.sign(Fixed::Equal)?;
    write_body(out, &process.body)
}

fn write_body(out: &mut Writer, body: &Body) -> Result<(), AllocError>
    ensures { OnOk result (Writes out.old out.new (canon.body (bare_body body.now))) }
{
    match body {
        Body::Inline(statements) => {
            out.sign(Fixed::OpenRound)?;
            write_stmts(out, statements.as_slice())?;
            out.sign(Fixed::CloseRound)
        }
        Body::Call {
            module,
            arguments,
            ..
        } => {
            out.name(module)?;
            out.sign(Fixed::OpenRound)?;
            write_arguments(out, arguments.as_slice())?;
            out.sign(Fixed::CloseRound)
        }
    }
}

/// Arguments with commas between them.
fn write_arguments(out: &mut Writer, arguments: &[ExprTree]) -> Result<(), AllocError>
    ensures { OnOk result (Writes out.old out.new (canon.arguments (map bare_expr arguments.now))) }
{
    let [first, more @ ..] = arguments else {
        return Ok(());
    };
    write_expr(out, first, Level::Alone)?;
    for argument in more {
        out.sign(Fixed::Comma)?;
        write_expr(out, argument, Level::Alone)?;
    }
    Ok(())
}
