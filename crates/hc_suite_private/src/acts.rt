//! What is done with a body, and what is shown, as statements of C.

use hc_frac::Frac;
use std::alloc::{AllocError, Global};
use std::str::Lines;

/// An act of a row.
#[derive(Drop)]
pub(crate) enum Act {
    /// The body, with so many silent steps allowed.
    Run(u32),
    /// So much time passes: for the clock and the bound.
    Wait(Frac),
    /// A variable moves with its rate for so long.
    Move(u32, Frac),
    /// A register becomes a number.
    Put(u32, Frac),
    /// A local becomes a number.
    Set(String, u32),
    /// A register is shown.
    Register(u32),
    /// A local is shown.
    Local(String),
}

/// The number in a word.
fn number_in(word: &str) -> Option<u32> {
    word.parse::<u32>().ok()
}

/// The fraction in a word.
fn fraction_in(word: &str) -> Option<Frac> {
    Frac::read(word.as_bytes())
}

impl Act {
    /// The act of a word with a register or a variable, and a fraction behind it.
    fn of_two(kind: &str, first: &str, second: &str) -> Option<Act> {
        let first = number_in(first)?;
        let second = fraction_in(second)?;
        match kind {
            "move" => Some(Act::Move(first, second)),
            "put" => Some(Act::Put(first, second)),
            _ => None,
        }
    }

    /// The act `KIND WORDS`.
    fn of_words(alloc: Global, kind: &str, words: &str) -> Result<Option<Act>, AllocError> {
        match (kind, words.split_once(' ')) {
            ("run", None) => Ok(number_in(words).map(Act::Run)),
            ("wait", None) => Ok(fraction_in(words).map(Act::Wait)),
            ("set", Some((local, number))) => match number_in(number) {
                Some(number) => Ok(Some(Act::Set(String::from_str(alloc, local)?, number))),
                None => Ok(None),
            },
            (kind, Some((first, second))) => Ok(Act::of_two(kind, first, second)),
            _ => Ok(None),
        }
    }

    /// One act, or `None` where there is no such.
    fn of(alloc: Global, text: &str) -> Result<Option<Act>, AllocError> {
        match text.split_once(' ') {
            Some((kind, words)) => Act::of_words(alloc, kind, words),
            None => match number_in(text) {
                Some(register) => Ok(Some(Act::Register(register))),
                None => Ok(Some(Act::Local(String::from_str(alloc, text)?))),
            },
        }
    }

    /// The acts of a row, with commas between them.
    pub(crate) fn all(alloc: Global, text: &str) -> Result<Option<Vec<Act>>, AllocError> {
        let mut acts = Vec::new(alloc);
        for part in text.split(", ") {
            match Act::of(alloc, part)? {
                Some(act) => acts.push(act)?,
                None => return Ok(None),
            }
        }
        Ok(Some(acts))
    }

    /// What it does as statements of C, in thread `p`; `private` is the body's text.
    pub(crate) fn statements(
        &self,
        alloc: Global,
        p: u32,
        private: &str,
    ) -> Result<String, AllocError> {
        match self {
            Act::Run(most) => {
                let end = shows_local(alloc, p, "v_end")?;
                let steps = shows_local(alloc, p, "v_steps")?;
                let logged = shows_register(alloc, p, 65)?;
                format!(in alloc; "v_most = {most}; {private}{end}{steps}{logged}")
            }
            Act::Wait(time) => {
                let puts = puts(alloc, p, 20_000, *time)?;
                format!(in alloc;
                    "{puts}v_x = fr_add({p}, 64, 64, 20000); v_x = fr_sub({p}, 66, 66, 20000); "
                )
            }
            Act::Move(x, time) => {
                let puts = puts(alloc, p, 20_000, *time)?;
                let rate = x.saturating_add(128);
                format!(in alloc;
                    "{puts}v_x = fr_mul({p}, 20000, 20000, {rate}); v_x = fr_add({p}, {x}, {x}, 20000); "
                )
            }
            Act::Put(register, value) => puts(alloc, p, *register, *value),
            Act::Set(local, number) => format!(in alloc; "{local} = {number}; "),
            Act::Register(register) => shows_register(alloc, p, *register),
            Act::Local(local) => shows_local(alloc, p, local.as_str()),
        }
    }

    /// What the act shows, by the next lines of what is printed.
    fn shown(&self, alloc: Global, lines: &mut Lines<'_>) -> Result<Option<String>, AllocError> {
        match self {
            Act::Run(_) => {
                let end = value_in(lines.next());
                let steps = value_in(lines.next());
                let logged = value_in(lines.next());
                Ok(Some(stretch_shown(alloc, end, steps, logged)?))
            }
            Act::Register(register) => Ok(Some(format!(in alloc;
                "{register} is {}",
                value_in(lines.next())
            )?)),
            Act::Local(local) => Ok(Some(format!(in alloc;
                "{local} is {}",
                value_in(lines.next())
            )?)),
            _ => Ok(None),
        }
    }
}

/// A register becomes a number.
fn puts(alloc: Global, p: u32, register: u32, value: Frac) -> Result<String, AllocError> {
    format!(in alloc;
        "fr_set({p}, {register}, {}, {}); ",
        value.num(),
        value.den()
    )
}

/// A register is printed.
fn shows_register(alloc: Global, p: u32, register: u32) -> Result<String, AllocError> {
    format!(in alloc; "m_lock(); out_log({p}, 64, 0, {register}); m_unlock(); ")
}

/// A local is counted up to, and the count is printed.
fn shows_local(alloc: Global, p: u32, local: &str) -> Result<String, AllocError> {
    let counts = format!(in alloc;
        "while (v_i < {local}) {{ v_x = fr_add({p}, 20000, 20000, 20001); v_i = v_i + 1; }} "
    )?;
    let shows = shows_register(alloc, p, 20_000)?;
    format!(in alloc;
        "fr_set({p}, 20000, 0, 1); fr_set({p}, 20001, 1, 1); v_i = 0; {counts}{shows}"
    )
}

/// How a stretch ended, and the number of its steps.
fn stretch_shown(
    alloc: Global,
    end: &str,
    steps: &str,
    logged: &str,
) -> Result<String, AllocError> {
    match end {
        "0" => format!(in alloc; "waits by {steps}"),
        "1" => format!(in alloc; "ended by {steps}"),
        "2" => format!(in alloc; "log {logged} by {steps}"),
        "3" => format!(in alloc; "unfit by {steps}"),
        "4" => format!(in alloc; "spent by {steps}"),
        _ => String::from_str(alloc, "no end of a stretch"),
    }
}

/// The value in a line of what is printed.
fn value_in(line: Option<&str>) -> &str {
    match line.unwrap_or("").split_once(" log P0 ") {
        Some((_, value)) => value,
        None => "none",
    }
}

/// What the acts show by what is printed, with commas between; and `no end` where the end isn't reached.
pub(crate) fn values_shown(
    alloc: Global,
    acts: &[Act],
    printed: &str,
) -> Result<String, AllocError> {
    let mut lines = printed.lines();
    let mut answer = String::new(alloc);
    let _header = lines.next();
    for act in acts {
        if let Some(shown) = act.shown(alloc, &mut lines)? {
            if !answer.is_empty() {
                answer.push_str(", ")?;
            }
            answer.push_str(shown.as_str())?;
        }
    }
    if lines.next() != Some("end terminated 0") {
        answer.push_str(", no end")?;
    }
    Ok(answer)
}
