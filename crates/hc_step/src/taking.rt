//! Taking a silent step that was looked at.

ghost use Rattle.std.specs.Prelude.{◌≡◌, ◌<◌, ◌+◌, length, slice_set};
ghost use Rattle.hc_step.specs.Arriving.{plain_post};
ghost use Rattle.hc_step.specs.Taking.{phase_of, first_phase};

use crate::local::Local;
use crate::look::Move;
use hc_code::{Instr, ProcCode};
use hc_frac::Frac;
use hc_term::{Mark, Phase, Post};

/// The phase of a process that comes to an instruction.
fn phase_at(instr: &Instr) -> Phase
    ensures { result ≡ phase_of instr.now }
{
    match instr {
        Instr::End => Phase::Ended,
        _ => Phase::Going,
    }
}

/// What a process shows at the beginning of its code: that it is going, or that it has ended.
pub(crate) fn first_post(code: &ProcCode) -> Post
    ensures { result ≡ plain_post (first_phase code.now.instrs) }
{
    let mut post = Post::going();
    if code.len() == 0 {
        post.show(Phase::Ended);
    } else {
        post.show(phase_at(code.at(0)));
    }
    post
}

impl Local {
    ghost use Rattle.std.specs.Prelude.{List, Option};
    ghost use Rattle.hc_rational.specs.Words.{Rational};
    ghost use Rattle.hc_term.specs.declared.stmt.Stmt.{Stmt};
    ghost use Rattle.hc_term.specs.declared.model.ProcessState.{ProcessState};
    ghost use Rattle.hc_term.specs.declared.model.Mark.TheVariants.{Going};
    ghost use Rattle.hc_code.specs.Stands.{Table, At, AllAgree};
    ghost use Rattle.hc_step.specs.Taking.{IsMovable};
    ghost use Rattle.hc_step.specs.Represents.{Represents, Carries, LeadsTo, Keeps};

    /// Goes on at a place of the code.
    pub(crate) fn go(&mut self, code: &ProcCode, next: u32)
        requires { next < length code.now.instrs }
        ensures keeps { Keeps (length code.now.instrs) self.old self.new }
        ensures stands { (t : Table) (clock : Rational) (q : ProcessState) (rest : List Stmt) → AllAgree t code.now.instrs t →
            At t next rest → Carries self.old q → Represents t clock self.new (record q { todo = rest; mark = Going }) }
    {
        self.place = next;
        self.mark = Mark::Going;
        self.post.show(phase_at(code.at(next)));
    }

    /// Sets a variable and goes on.
    pub(crate) fn set_and_go(&mut self, code: &ProcCode, variable: u32, value: Frac, next: u32)
        requires in_range { variable < self.old.variables }
        requires within { next < length code.now.instrs }
        ensures keeps { Keeps (length code.now.instrs) self.old self.new }
        ensures stands { (t : Table) (clock : Rational) (q : ProcessState) (rest : List Stmt) → AllAgree t code.now.instrs t →
            At t next rest → Carries self.old q → Represents t clock self.new (record q { todo = rest; store = slice_set q.store variable value; mark = Going }) }
    {
        self.store[variable as usize] = value;
        self.go(code, next);
    }

    /// Goes on at the chosen side.
    fn pick_and_go(&mut self, code: &ProcCode, next: u32)
        requires { next < length code.now.instrs }
        ensures keeps { Keeps (length code.now.instrs) self.old self.new }
        ensures stands { (t : Table) (clock : Rational) (q : ProcessState) (rest : List Stmt) → AllAgree t code.now.instrs t →
            At t next rest → Carries self.old q → Represents t clock self.new (record q { todo = rest; choices = q.choices + 1; mark = Going }) }
    {
        self.choices = (self.choices + 1) % 64;
        self.go(code, next);
    }

    /// Takes a silent step.
    pub(crate) fn take(&mut self, code: &ProcCode, step: &Move)
        requires movable { IsMovable code.now.instrs self.old step.now }
        ensures keeps { Keeps (length code.now.instrs) self.old self.new }
        ensures leads { (t : Table) (clock : Rational) (q next : ProcessState) (logged : Option Rational) → AllAgree t code.now.instrs t →
            Represents t clock self.old q → LeadsTo t q step.now logged next → Represents t clock self.new next }
    {
        match step {
            Move::Goes { next } => self.go(code, *next),
            Move::Logs { value: _, next } => self.go(code, *next),
            Move::Sets {
                variable,
                value,
                next,
            } => self.set_and_go(code, *variable, *value, *next),
            Move::Picks { next } => self.pick_and_go(code, *next),
        }
    }
}
