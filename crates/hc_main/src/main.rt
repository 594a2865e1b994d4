//! The program `hcsp` over standard input, output and error.
#![tactic(auto)]

use hc_cmd::{answer, answer_run};
use hc_run::OpenGate;
use hc_world::{StdErr, StdOut, StdSource};
use std::process::ExitCode;
use std::{env, io};

/// The status where there is no memory for the words of the call.
const NO_MEMORY: u8 = 5;

/// The words of the call. Words that aren't text are none.
fn words_of(rt: &HostRuntime) -> io::Result<Vec<String>> {
    let mut words = Vec::new(rt.alloc());
    match env::args(rt) {
        Ok(given) => {
            for word in given {
                words.push(word)?;
            }
        }
        Err(error) => {
            if error.kind() == io::ErrorKind::OutOfMemory {
                return Err(error);
            }
        }
    }
    Ok(words)
}

fn main(rt: HostRuntime) -> ExitCode {
    let Ok(words) = words_of(&rt) else {
        let _ = rt.eprintln("hcsp: out of memory");
        return ExitCode::from(NO_MEMORY);
    };
    let mut source = StdSource::over(rt.stdin());
    let mut out = StdOut::over(rt.stdout());
    let mut err = StdErr::over(rt.stderr());
    let status = match words.as_slice() {
        [_, name, ..] if name.as_str() == "run" => answer_run(
            &rt,
            rt.alloc(),
            &words,
            &mut source,
            &mut out,
            &mut err,
            &OpenGate,
        ),
        _ => answer(rt.alloc(), &words, &mut source, &mut out, &mut err),
    };
    ExitCode::from(status)
}
