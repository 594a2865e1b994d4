//! Keywords and signs, with their spelling.

ghost use Rattle.std.specs.Prelude.{◌≡◌, ◌≤◌, ℕ, true, List, ◌∷◌, length, IfSome};
ghost use Rattle.hc_scan.specs.Spelling as shape;
ghost use Rattle.hc_ctoken.specs.Kinds as spec;

use hc_scan::{HasSpelling, in_front, spelled};

/// A token whose spelling is fixed: a keyword or a sign.
#[derive(Clone, Copy, Debug, PartialEq, Eq)]
pub enum Fixed {
    /// `static`
    Static,
    /// `int`
    Int,
    /// `const`
    Const,
    /// `char`
    Char,
    /// `void`
    Void,
    /// `if`
    If,
    /// `else`
    Else,
    /// `while`
    While,
    /// `switch`
    Switch,
    /// `case`
    Case,
    /// `break`
    Break,
    /// `default`
    Default,
    /// `return`
    Return,
    /// `chan_name`
    ChanName,
    /// `proc_name`
    ProcName,
    /// `hc_threads`
    HcThreads,
    /// `main`
    Main,
    /// `hc_main`
    HcMain,
    /// `||`
    BarBar,
    /// `&&`
    AndAnd,
    /// `<=`
    LessEqual,
    /// `>=`
    GreaterEqual,
    /// `==`
    EqualEqual,
    /// `!=`
    NotEqual,
    /// `(`
    OpenRound,
    /// `)`
    CloseRound,
    /// `{`
    OpenCurly,
    /// `}`
    CloseCurly,
    /// `[`
    OpenSquare,
    /// `]`
    CloseSquare,
    /// `<`
    Less,
    /// `>`
    Greater,
    /// `,`
    Comma,
    /// `;`
    Semicolon,
    /// `:`
    Colon,
    /// `=`
    Equal,
    /// `!`
    Exclamation,
    /// `+`
    Plus,
    /// `-`
    Minus,
    /// `*`
    Star,
}

impl Fixed {
    /// How it is spelled.
    pub fn text(self) -> &'static [u8]
        ensures { result.now ≡ spec.text_of self }
    {
        match self {
            Fixed::Static => b"static",
            Fixed::Int => b"int",
            Fixed::Const => b"const",
            Fixed::Char => b"char",
            Fixed::Void => b"void",
            Fixed::If => b"if",
            Fixed::Else => b"else",
            Fixed::While => b"while",
            Fixed::Switch => b"switch",
            Fixed::Case => b"case",
            Fixed::Break => b"break",
            Fixed::Default => b"default",
            Fixed::Return => b"return",
            Fixed::ChanName => b"chan_name",
            Fixed::ProcName => b"proc_name",
            Fixed::HcThreads => b"hc_threads",
            Fixed::Main => b"main",
            Fixed::HcMain => b"hc_main",
            Fixed::BarBar => b"||",
            Fixed::AndAnd => b"&&",
            Fixed::LessEqual => b"<=",
            Fixed::GreaterEqual => b">=",
            Fixed::EqualEqual => b"==",
            Fixed::NotEqual => b"!=",
            Fixed::OpenRound => b"(",
            Fixed::CloseRound => b")",
            Fixed::OpenCurly => b"{",
            Fixed::CloseCurly => b"}",
            Fixed::OpenSquare => b"[",
            Fixed::CloseSquare => b"]",
            Fixed::Less => b"<",
            Fixed::Greater => b">",
            Fixed::Comma => b",",
            Fixed::Semicolon => b";",
            Fixed::Colon => b":",
            Fixed::Equal => b"=",
            Fixed::Exclamation => b"!",
            Fixed::Plus => b"+",
            Fixed::Minus => b"-",
            Fixed::Star => b"*",
        }
    }
}

impl HasSpelling for Fixed {
    ghost spelling = { spec.text_of };

    fn text(self) -> &'static [u8] {
        Fixed::text(self)
    }
}

/// The keyword that is spelled so, if there is one.
#[tactic(auto, unfolding(crate::specs::Kinds::keyword, crate::specs::Kinds::keywords))]
pub(crate) fn keyword(word: &[u8]) -> Option<Fixed>
    ensures { result ≡ spec.keyword word.now }
{
    match word {
        [] => None,
        [first, ..] => spelled(keywords_from(*first), word),
    }
}

/// The longest sign that the text begins with, if there is one, and its length in bytes.
#[tactic(auto, unfolding(crate::specs::Kinds::sign, crate::specs::Kinds::signs))]
pub(crate) fn sign(text: &[u8]) -> Option<(Fixed, usize)>
    ensures sign { result ≡ spec.sign text.now }
    ensures not_empty { IfSome result (λ s. 1 ≤ s.1) }
    ensures within { IfSome result (λ s. s.1 ≤ length text.now) }
{
    match text {
        [] => None,
        [first, ..] => in_front(signs_from(*first), text),
    }
}

/// The keywords that begin with a byte.
#[tactic(auto, unfolding(crate::specs::Kinds::keyword, crate::specs::Kinds::keywords))]
fn keywords_from(first: u8) -> &'static [Fixed]
    ensures { (rest : List ℕ) → shape.spelled spec.text_of result.now (first ∷ rest) ≡ spec.keyword (first ∷ rest) }
{
    match first {
        b's' => &[Fixed::Static, Fixed::Switch],
        b'i' => &[Fixed::Int, Fixed::If],
        b'c' => &[Fixed::Const, Fixed::Char, Fixed::Case, Fixed::ChanName],
        b'v' => &[Fixed::Void],
        b'e' => &[Fixed::Else],
        b'w' => &[Fixed::While],
        b'b' => &[Fixed::Break],
        b'd' => &[Fixed::Default],
        b'r' => &[Fixed::Return],
        b'p' => &[Fixed::ProcName],
        b'h' => &[Fixed::HcThreads, Fixed::HcMain],
        b'm' => &[Fixed::Main],
        _ => &[],
    }
}

/// The signs that begin with a byte, the longer ones first.
#[tactic(auto, unfolding(crate::specs::Kinds::sign, crate::specs::Kinds::signs))]
fn signs_from(first: u8) -> &'static [Fixed]
    ensures has_bytes { shape.have_bytes spec.text_of result.now ≡ true }
    ensures first { (rest : List ℕ) → shape.in_front spec.text_of result.now (first ∷ rest) ≡ spec.sign (first ∷ rest) }
{
    match first {
        b'|' => &[Fixed::BarBar],
        b'&' => &[Fixed::AndAnd],
        b'<' => &[Fixed::LessEqual, Fixed::Less],
        b'>' => &[Fixed::GreaterEqual, Fixed::Greater],
        b'=' => &[Fixed::EqualEqual, Fixed::Equal],
        b'!' => &[Fixed::NotEqual, Fixed::Exclamation],
        b'(' => &[Fixed::OpenRound],
        b')' => &[Fixed::CloseRound],
        b'{' => &[Fixed::OpenCurly],
        b'}' => &[Fixed::CloseCurly],
        b'[' => &[Fixed::OpenSquare],
        b']' => &[Fixed::CloseSquare],
        b',' => &[Fixed::Comma],
        b';' => &[Fixed::Semicolon],
        b':' => &[Fixed::Colon],
        b'+' => &[Fixed::Plus],
        b'-' => &[Fixed::Minus],
        b'*' => &[Fixed::Star],
        _ => &[],
    }
}
