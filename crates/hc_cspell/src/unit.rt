//! Whole programs.

ghost use Rattle.std.specs.Prelude.{◌≡◌, ◌∷◌, ◌++◌, [], length, codes, OnOk, IfOk};
ghost use Rattle.hc_ctoken.specs.declared.token.Lexeme.TheVariants as lex;
ghost use Rattle.hc_cspell.specs.Tokens.{fixed, numbered};
ghost use Rattle.hc_cspell.specs.Appends.{Writes};
ghost use Rattle.hc_cspell.specs.Units as canon;

use crate::stmt::write_stmts;
use crate::writer::Writer;
use hc_cast::{CArray, CBody, CFunction, CProgram};
use hc_ctoken::Fixed;
use hc_frac::Name;
use std::alloc::{AllocError, Global};

/// Bytes, and behind them the canonical spelling of a program.
///
/// A newline stands behind each `;`, `{` and `}`, and one space behind each other token; round brackets stand only where the
/// grammar needs them.
pub fn spell(alloc: Global, front: &[u8], program: &CProgram) -> Result<Vec<u8>, AllocError>
    ensures { IfOk result (λ text. text.items ≡ front.now ++ canon.canonical program.now) }
{
    let mut out = begun(alloc, front)?;
    write_arrays(&mut out, program.arrays.as_slice())?;
    write_channels(&mut out, program.channels.as_slice())?;
    write_processes(&mut out, program.processes.as_slice())?;
    write_functions(&mut out, program.functions.as_slice())?;
    write_threads(&mut out, program.threads.as_slice())?;
    write_table(&mut out, program.threads.as_slice())?;
    write_main(&mut out, program.threads.len() as u64)?;
    Ok(out.bytes)
}

/// A text that has these bytes so far.
fn begun(alloc: Global, front: &[u8]) -> Result<Writer, AllocError>
    ensures { IfOk result (λ out. out.bytes.items ≡ front.now) }
{
    let mut bytes = Vec::new(alloc);
    bytes.extend_from_slice(front)?;
    Ok(Writer { bytes })
}

fn write_arrays(out: &mut Writer, arrays: &[CArray]) -> Result<(), AllocError>
    ensures { OnOk result (Writes out.old out.new (canon.arrays arrays.now)) }
{
    for array in arrays {
        write_array(out, array)?;
    }
    Ok(())
}

fn write_array(out: &mut Writer, array: &CArray) -> Result<(), AllocError>
    ensures { OnOk result (Writes out.old out.new (canon.array array.now)) }
{
    out.sign(Fixed::Static)?;
    out.sign(Fixed::Int)?;
    out.array(&array.name)?;
    write_count(out, u64::from(array.length))?;
    out.sign(Fixed::Semicolon)
}

/// A number in square brackets.
fn write_count(out: &mut Writer, count: u64) -> Result<(), AllocError>
    ensures { OnOk result (Writes out.old out.new (λ w. fixed Fixed.OpenSquare ∷ numbered count ∷ fixed Fixed.CloseSquare ∷ w)) }
{
    out.sign(Fixed::OpenSquare)?;
    out.count(count)?;
    out.sign(Fixed::CloseSquare)
}

/// How the strings of `chan_name` or `proc_name` begin.
fn write_head(out: &mut Writer, word: Fixed, count: u64) -> Result<(), AllocError>
    ensures { OnOk result (Writes out.old out.new (canon.head_of_names word count)) }
{
    out.sign(Fixed::Const)?;
    out.sign(Fixed::Char)?;
    out.sign(Fixed::Star)?;
    out.sign(Fixed::Const)?;
    out.sign(word)?;
    write_count(out, count)?;
    out.sign(Fixed::Equal)?;
    out.sign(Fixed::OpenCurly)
}

/// How they end.
fn write_end(out: &mut Writer) -> Result<(), AllocError>
    ensures { OnOk result (Writes out.old out.new canon.end_of_names) }
{
    out.sign(Fixed::CloseCurly)?;
    out.sign(Fixed::Semicolon)
}

/// Strings with commas between them.
fn write_strings(out: &mut Writer, names: &[Name]) -> Result<(), AllocError>
    ensures { OnOk result (Writes out.old out.new (canon.strings names.now)) }
{
    let [first, more @ ..] = names else {
        return Ok(());
    };
    out.string(first)?;
    for name in more {
        out.sign(Fixed::Comma)?;
        out.string(name)?;
    }
    Ok(())
}

/// The names of the channels; without channels there is one empty string.
fn write_channels(out: &mut Writer, names: &[Name]) -> Result<(), AllocError>
    ensures { OnOk result (Writes out.old out.new (canon.channels names.now)) }
{
    if names.is_empty() {
        write_no_channels(out)
    } else {
        write_names(out, Fixed::ChanName, names)
    }
}

fn write_no_channels(out: &mut Writer) -> Result<(), AllocError>
    ensures { OnOk result (Writes out.old out.new (canon.channels [])) }
{
    write_head(out, Fixed::ChanName, 1)?;
    out.empty_string()?;
    write_end(out)
}

/// The names of the processes.
fn write_processes(out: &mut Writer, names: &[Name]) -> Result<(), AllocError>
    ensures { OnOk result (Writes out.old out.new (canon.processes names.now)) }
{
    write_names(out, Fixed::ProcName, names)
}

/// The strings of `chan_name` or `proc_name`.
fn write_names(out: &mut Writer, word: Fixed, names: &[Name]) -> Result<(), AllocError>
    ensures { OnOk result (Writes out.old out.new (λ w.
        canon.head_of_names word (length names.now) (canon.strings names.now (canon.end_of_names w)))) }
{
    write_head(out, word, names.len() as u64)?;
    write_strings(out, names)?;
    write_end(out)
}

fn write_functions(out: &mut Writer, functions: &[CFunction]) -> Result<(), AllocError>
    ensures { OnOk result (Writes out.old out.new (canon.functions functions.now)) }
{
    for function in functions {
        write_function(out, function)?;
    }
    Ok(())
}

fn write_function(out: &mut Writer, function: &CFunction) -> Result<(), AllocError>
    ensures { OnOk result (Writes out.old out.new (canon.function function.now)) }
{
    write_function_head(out, function)?;
    out.sign(Fixed::OpenRound)?;
    write_params(out, function.params.as_slice())?;
    out.sign(Fixed::CloseRound)?;
    write_body(out, &function.body)
}

/// A function up to its name.
fn write_function_head(out: &mut Writer, function: &CFunction) -> Result<(), AllocError>
    ensures { OnOk result (Writes out.old out.new (λ w.
        fixed Fixed.Static ∷ fixed (canon.given function.now.gives) ∷ lex.Function function.now.name ∷ w)) }
{
    out.sign(Fixed::Static)?;
    out.sign(given(function.gives))?;
    out.function(&function.name)
}

/// The word before a function's name.
fn given(gives: bool) -> Fixed
    ensures { result ≡ canon.given gives }
{
    if gives { Fixed::Int } else { Fixed::Void }
}

/// Parameters with commas between them, or `void`.
fn write_params(out: &mut Writer, params: &[Name]) -> Result<(), AllocError>
    ensures { OnOk result (Writes out.old out.new (canon.params params.now)) }
{
    let [first, more @ ..] = params else {
        return out.sign(Fixed::Void);
    };
    write_param(out, first)?;
    for param in more {
        out.sign(Fixed::Comma)?;
        write_param(out, param)?;
    }
    Ok(())
}

fn write_param(out: &mut Writer, param: &Name) -> Result<(), AllocError>
    ensures { OnOk result (Writes out.old out.new (λ w. fixed Fixed.Int ∷ lex.Local param.now ∷ w)) }
{
    out.sign(Fixed::Int)?;
    out.local(param)
}

/// Locals and statements in curly brackets.
fn write_body(out: &mut Writer, body: &CBody) -> Result<(), AllocError>
    ensures { OnOk result (Writes out.old out.new (canon.body body.now)) }
{
    out.sign(Fixed::OpenCurly)?;
    write_locals(out, body.locals.as_slice())?;
    write_stmts(out, body.statements.as_slice())?;
    out.sign(Fixed::CloseCurly)
}

fn write_locals(out: &mut Writer, locals: &[Name]) -> Result<(), AllocError>
    ensures { OnOk result (Writes out.old out.new (canon.locals locals.now)) }
{
    for local in locals {
        write_local(out, local)?;
    }
    Ok(())
}

fn write_local(out: &mut Writer, local: &Name) -> Result<(), AllocError>
    ensures { OnOk result (Writes out.old out.new (λ w.
        fixed Fixed.Int ∷ lex.Local local.now ∷ fixed Fixed.Equal ∷ numbered 0 ∷ fixed Fixed.Semicolon ∷ w)) }
{
    write_param(out, local)?;
    out.sign(Fixed::Equal)?;
    out.count(0)?;
    out.sign(Fixed::Semicolon)
}

/// Threads, numbered from 0 on.
fn write_threads(out: &mut Writer, threads: &[CBody]) -> Result<(), AllocError>
    ensures { OnOk result (Writes out.old out.new (canon.threads_from 0 threads.now)) }
{
    for (number, body) in threads.iter().enumerate() {
        write_thread(out, number as u64, body)?;
    }
    Ok(())
}

fn write_thread(out: &mut Writer, number: u64, body: &CBody) -> Result<(), AllocError>
    ensures { OnOk result (Writes out.old out.new (canon.thread number body.now)) }
{
    write_static(out)?;
    out.thread(number)?;
    write_unused(out)?;
    write_body(out, body)
}

/// `( void * v_u )`
fn write_unused(out: &mut Writer) -> Result<(), AllocError>
    ensures { OnOk result (Writes out.old out.new (λ w.
        fixed Fixed.OpenRound ∷ fixed Fixed.Void ∷ fixed Fixed.Star ∷ lex.Local (codes "v_u") ∷ fixed Fixed.CloseRound ∷ w)) }
{
    out.sign(Fixed::OpenRound)?;
    out.sign(Fixed::Void)?;
    out.sign(Fixed::Star)?;
    out.unused()?;
    out.sign(Fixed::CloseRound)
}

/// `static void *`, which threads and their table begin with.
fn write_static(out: &mut Writer) -> Result<(), AllocError>
    ensures { OnOk result (Writes out.old out.new (λ w. fixed Fixed.Static ∷ fixed Fixed.Void ∷ fixed Fixed.Star ∷ w)) }
{
    out.sign(Fixed::Static)?;
    out.sign(Fixed::Void)?;
    out.sign(Fixed::Star)
}

/// The table of the threads.
fn write_table(out: &mut Writer, threads: &[CBody]) -> Result<(), AllocError>
    ensures { OnOk result (Writes out.old out.new (canon.table threads.now)) }
{
    write_static(out)?;
    out.sign(Fixed::OpenRound)?;
    out.sign(Fixed::Star)?;
    out.sign(Fixed::Const)?;
    out.sign(Fixed::HcThreads)?;
    write_count(out, threads.len() as u64)?;
    out.sign(Fixed::CloseRound)?;
    write_pointer(out)?;
    out.sign(Fixed::Equal)?;
    out.sign(Fixed::OpenCurly)?;
    write_listed(out, threads)?;
    write_end(out)
}

/// `( void * )`
fn write_pointer(out: &mut Writer) -> Result<(), AllocError>
    ensures { OnOk result (Writes out.old out.new (λ w.
        fixed Fixed.OpenRound ∷ fixed Fixed.Void ∷ fixed Fixed.Star ∷ fixed Fixed.CloseRound ∷ w)) }
{
    out.sign(Fixed::OpenRound)?;
    out.sign(Fixed::Void)?;
    out.sign(Fixed::Star)?;
    out.sign(Fixed::CloseRound)
}

/// The names of the threads with commas between them.
fn write_listed(out: &mut Writer, threads: &[CBody]) -> Result<(), AllocError>
    ensures { OnOk result (Writes out.old out.new (canon.listed threads.now)) }
{
    let [_, more @ ..] = threads else {
        return Ok(());
    };
    out.thread(0)?;
    for (number, _) in more.iter().enumerate() {
        out.sign(Fixed::Comma)?;
        out.thread(number as u64 + 1)?;
    }
    Ok(())
}

fn write_main(out: &mut Writer, count: u64) -> Result<(), AllocError>
    ensures { OnOk result (Writes out.old out.new (canon.main count)) }
{
    write_main_head(out)?;
    out.sign(Fixed::Return)?;
    out.sign(Fixed::HcMain)?;
    out.sign(Fixed::OpenRound)?;
    out.count(count)?;
    out.sign(Fixed::Comma)?;
    out.sign(Fixed::HcThreads)?;
    out.sign(Fixed::CloseRound)?;
    out.sign(Fixed::Semicolon)?;
    out.sign(Fixed::CloseCurly)
}

/// `int main(void) {`
fn write_main_head(out: &mut Writer) -> Result<(), AllocError>
    ensures { OnOk result (Writes out.old out.new (λ w.
        fixed Fixed.Int ∷ fixed Fixed.Main ∷ fixed Fixed.OpenRound ∷ fixed Fixed.Void ∷ fixed Fixed.CloseRound
        ∷ fixed Fixed.OpenCurly ∷ w)) }
{
    out.sign(Fixed::Int)?;
    out.sign(Fixed::Main)?;
    out.sign(Fixed::OpenRound)?;
    out.sign(Fixed::Void)?;
    out.sign(Fixed::CloseRound)?;
    out.sign(Fixed::OpenCurly)
}
