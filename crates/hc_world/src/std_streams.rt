//! Sources and sinks over standard input, output and error.
ghost use Rattle.std.specs.Prelude.{◌≡◌, ◌<◌, None, length, IfOk};
ghost use Rattle.std.specs.Io.KnownBytes.{Keeps, WriteAppends};
ghost use Rattle.hc_world.specs.Counts.{HasCause};
ghost use Rattle.hc_world.specs.Streams.{err_contents, err_faults, out_contents, out_faults};
ghost use Rattle.hc_world.specs.Written.{FlushKeeps, WriteAdds};

use crate::faults::Failed;
use crate::sinks::Sink;
use crate::sources::Source;
use std::io::{Read, Write};

/// A source over a reader, as standard input. It tells the bytes that the reader tells.
#[derive(Drop)]
pub struct StdSource<R> {
    reader: R,
    faults: u64,
}

impl<R: Read> StdSource<R> {
    pub fn over(reader: R) -> StdSource<R>
        ensures { ⟦<StdSource<R> as Source>⟧.state result ≡ record { left = R.remaining reader; faults = 0; calls = 0 } }
    {
        StdSource { reader, faults: 0 }
    }
}

impl<R: Read> Source for StdSource<R> {
    ghost state = { λ s. record { left = R.remaining s.reader; faults = s.faults; calls = 0 } };

    fn read(&mut self, buffer: &mut [u8]) -> Result<usize, Failed> {
        match self.reader.read(buffer) {
            Ok(count) => Ok(count),
            Err(_) => {
                self.faults = self.faults.saturating_add(1);
                Err(Failed)
            }
        }
    }
}

/// A sink over a writer, as standard output. It tells no bytes.
#[derive(Drop)]
pub struct StdOut<W> {
    writer: W,
    faults: u64,
}

impl<W: Write> StdOut<W> {
    pub fn over(writer: W) -> StdOut<W>
        ensures { out_faults result ≡ 0 }
    {
        StdOut { writer, faults: 0 }
    }
}

impl<W: Write> Sink for StdOut<W> {
    ghost state = { λ s. record { told = None; faults = out_faults s } };

    fn write(&mut self, piece: &[u8]) -> Result<usize, Failed>
        requires { 0 < length piece.now }
        ensures bytes { WriteAdds None None result piece.now }
        ensures cause { HasCause (out_faults self.old) (out_faults self.new) result }
        ensures below { WriteAppends
            (out_contents W.contents self.old) (out_contents W.contents self.new) result piece.now }
    {
        write_counted(&mut self.writer, &mut self.faults, piece)
    }

    fn flush(&mut self) -> Result<(), Failed>
        ensures bytes { FlushKeeps None None result }
        ensures cause { HasCause (out_faults self.old) (out_faults self.new) result }
        ensures below { Keeps
            (out_contents W.contents self.old) (out_contents W.contents self.new) }
    {
        flush_counted(&mut self.writer, &mut self.faults)
    }
}

/// A sink over a writer, as standard error. It tells no bytes.
#[derive(Drop)]
pub struct StdErr<W> {
    writer: W,
    faults: u64,
}

impl<W: Write> StdErr<W> {
    pub fn over(writer: W) -> StdErr<W>
        ensures { err_faults result ≡ 0 }
    {
        StdErr { writer, faults: 0 }
    }
}

impl<W: Write> Sink for StdErr<W> {
    ghost state = { λ s. record { told = None; faults = err_faults s } };

    fn write(&mut self, piece: &[u8]) -> Result<usize, Failed>
        requires { 0 < length piece.now }
        ensures bytes { WriteAdds None None result piece.now }
        ensures cause { HasCause (err_faults self.old) (err_faults self.new) result }
        ensures below { WriteAppends
            (err_contents W.contents self.old) (err_contents W.contents self.new) result piece.now }
    {
        write_counted(&mut self.writer, &mut self.faults, piece)
    }

    fn flush(&mut self) -> Result<(), Failed>
        ensures bytes { FlushKeeps None None result }
        ensures cause { HasCause (err_faults self.old) (err_faults self.new) result }
        ensures below { Keeps
            (err_contents W.contents self.old) (err_contents W.contents self.new) }
    {
        flush_counted(&mut self.writer, &mut self.faults)
    }
}

// A write that takes nothing is a fault too.
fn write_counted<W: Write>(writer: &mut W, faults: &mut u64, piece: &[u8]) -> Result<usize, Failed>
    ensures bytes { WriteAdds None None result piece.now }
    ensures cause { HasCause faults.old faults.new result }
    ensures below { WriteAppends (W.contents writer.old) (W.contents writer.new) result piece.now }
{
    match writer.write(piece) {
        Ok(count) if count > 0 => Ok(count),
        _ => {
            *faults = faults.saturating_add(1);
            Err(Failed)
        }
    }
}

fn flush_counted<W: Write>(writer: &mut W, faults: &mut u64) -> Result<(), Failed>
    ensures cause { HasCause faults.old faults.new result }
    ensures below { Keeps (W.contents writer.old) (W.contents writer.new) }
{
    match writer.flush() {
        Ok(()) => Ok(()),
        Err(_) => {
            *faults = faults.saturating_add(1);
            Err(Failed)
        }
    }
}
