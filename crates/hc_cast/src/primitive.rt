//! Primitives.

ghost use Rattle.std.specs.Prelude.{◌≡◌};
ghost use Rattle.hc_cast.specs.Primitives as spec;

use hc_frac::Name;

/// A call that every program has: nine on fractions, four that print, and four on the mutex and the conditions.
#[derive(Clone, Copy, Debug, PartialEq, Eq)]
pub enum Primitive {
    /// `fr_set(r, d, n, m)`: register d of row r becomes n by m.
    FrSet,
    /// `fr_move(q, d, r, a)`: register d of row q becomes register a of row r.
    FrMove,
    /// `fr_add(r, d, a, b)`: register d of row r becomes the sum of a and b, and 1 is given, where it fits; else 0.
    FrAdd,
    /// `fr_sub(r, d, a, b)`: the same with the difference.
    FrSub,
    /// `fr_mul(r, d, a, b)`: the same with the product.
    FrMul,
    /// `fr_div(r, d, a, b)`: the same with the quotient.
    FrDiv,
    /// `fr_neg(r, d, a)`: register d of row r becomes minus a.
    FrNeg,
    /// `fr_cmp(r, a, b)`: -1, 0 or 1, as register a of row r is below, equal to or above register b.
    FrCmp,
    /// `fr_sign(r, a)`: -1, 0 or 1, as register a of row r is below, equal to or above 0.
    FrSign,
    /// `out_delay(r, a, b)`: the line of a delay by register b at the clock a.
    OutDelay,
    /// `out_comm(r, a, c, p, q, b)`: the line of a communication on channel c from process p to process q.
    OutComm,
    /// `out_log(r, a, p, b)`: the line of a value logged by process p.
    OutLog,
    /// `out_end(k, r, a, w)`: the end line of kind k.
    OutEnd,
    /// `m_lock()`: waits for the mutex and owns it.
    MLock,
    /// `m_unlock()`: leaves the mutex.
    MUnlock,
    /// `c_wait(k)`: leaves the mutex, waits on condition k, and owns the mutex again.
    CWait,
    /// `c_wake(k)`: wakes all that wait on condition k.
    CWake,
}

const PRIMITIVES: [Primitive; 17] = [
    Primitive::FrSet,
    Primitive::FrMove,
    Primitive::FrAdd,
    Primitive::FrSub,
    Primitive::FrMul,
    Primitive::FrDiv,
    Primitive::FrNeg,
    Primitive::FrCmp,
    Primitive::FrSign,
    Primitive::OutDelay,
    Primitive::OutComm,
    Primitive::OutLog,
    Primitive::OutEnd,
    Primitive::MLock,
    Primitive::MUnlock,
    Primitive::CWait,
    Primitive::CWake,
];

impl Primitive {
    /// The primitive that is spelled so, if there is one.
    #[tactic(auto, unfolding(crate::specs::Primitives::primitive_named, crate::specs::Primitives::primitives))]
    pub fn named(word: &[u8]) -> Option<Primitive>
        ensures { result ≡ spec.primitive_named word.now }
    {
        among(&PRIMITIVES, word)
    }

    /// How it is spelled.
    pub fn text(self) -> &'static [u8]
        ensures { result.now ≡ spec.text_of self }
    {
        match self {
            Primitive::FrSet => b"fr_set",
            Primitive::FrMove => b"fr_move",
            Primitive::FrAdd => b"fr_add",
            Primitive::FrSub => b"fr_sub",
            Primitive::FrMul => b"fr_mul",
            Primitive::FrDiv => b"fr_div",
            Primitive::FrNeg => b"fr_neg",
            Primitive::FrCmp => b"fr_cmp",
            Primitive::FrSign => b"fr_sign",
            Primitive::OutDelay => b"out_delay",
            Primitive::OutComm => b"out_comm",
            Primitive::OutLog => b"out_log",
            Primitive::OutEnd => b"out_end",
            Primitive::MLock => b"m_lock",
            Primitive::MUnlock => b"m_unlock",
            Primitive::CWait => b"c_wait",
            Primitive::CWake => b"c_wake",
        }
    }

    /// Its spelling as a name.
    #[tactic(auto, using(crate::proofs::Spelled::is_word))]
    pub fn name(self) -> Name
        ensures { result ≡ spec.text_of self }
    {
        match Name::new(self.text()) {
            Some(name) => name,
            None => unreachable!(),
        }
    }

    /// How many arguments a call of it has.
    pub fn count(self) -> u32
        ensures { result ≡ spec.count self }
    {
        match self {
            Primitive::MLock | Primitive::MUnlock => 0,
            Primitive::CWait | Primitive::CWake => 1,
            Primitive::FrSign => 2,
            Primitive::FrNeg | Primitive::FrCmp | Primitive::OutDelay => 3,
            Primitive::FrSet
            | Primitive::FrMove
            | Primitive::FrAdd
            | Primitive::FrSub
            | Primitive::FrMul
            | Primitive::FrDiv
            | Primitive::OutLog
            | Primitive::OutEnd => 4,
            Primitive::OutComm => 6,
        }
    }

    /// Whether it gives an int.
    pub fn gives(self) -> bool
        ensures { result ≡ spec.gives self }
    {
        matches!(
            self,
            Primitive::FrAdd
                | Primitive::FrSub
                | Primitive::FrMul
                | Primitive::FrDiv
                | Primitive::FrCmp
                | Primitive::FrSign
        )
    }
}

/// The first of a list that is spelled so, if there is one.
fn among(primitives: &[Primitive], word: &[u8]) -> Option<Primitive>
    ensures { result ≡ spec.primitive_among primitives.now word.now }
{
    for one in primitives {
        if one.text() == word {
            return Some(*one);
        }
    }
    None
}
