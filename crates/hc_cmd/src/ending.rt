//! How a call ends.

ghost use Rattle.std.specs.Prelude.{◌≡◌, []};
ghost use Rattle.hc_cmd.specs.Sources.{done};
ghost use Rattle.hc_cmd.specs.Prepared as spec;

use arrayvec::ArrayString;
use hc_world::{Failed, Sink, put};

/// What is told on error.
#[derive(Drop)]
pub enum Told {
    /// A line with its newline; empty where there is none.
    Line(ArrayString<128>),
    /// The numbers of a run.
    Report(Vec<u8>),
}

/// What is known when all of the text stands on output.
#[derive(Drop)]
pub struct End {
    /// The status of the program.
    pub(crate) status: u8,
    pub(crate) told: Told,
}

/// A text that is ready for output, and what is known when all of it stands there.
#[derive(Drop)]
pub struct Text {
    pub(crate) bytes: Vec<u8>,
    pub(crate) end: End,
}

impl Told {
    pub(crate) fn nothing() -> Told
        ensures { spec.bytes_of result ≡ [] }
    {
        Told::Line(ArrayString::new())
    }

    pub(crate) fn bytes(&self) -> &[u8]
        ensures { result.now ≡ spec.bytes_of self.now }
    {
        match self {
            Told::Line(line) => line.as_str().as_bytes(),
            Told::Report(bytes) => bytes.as_slice(),
        }
    }
}

impl End {
    /// An end with nothing on error.
    pub(crate) fn silent(status: u8) -> End
        ensures { (result.status ≡ status) × (spec.bytes_of result.told ≡ []) }
    {
        End {
            status,
            told: Told::nothing(),
        }
    }
}

impl Text {
    /// A text of what is done, with nothing on error.
    pub(crate) fn done(bytes: Vec<u8>) -> Text
        ensures { spec.reply_in result ≡ done bytes.items }
    {
        Text {
            bytes,
            end: End::silent(0),
        }
    }

    /// Writes all of it. It takes no memory.
    pub(crate) fn perform<O: Sink>(self, out: &mut O) -> Result<End, Failed>
        ensures { spec.Performs O.state out.old out.new (spec.reply_in self) result }
    {
        put(out, self.bytes.as_slice())?;
        Ok(self.end)
    }
}
