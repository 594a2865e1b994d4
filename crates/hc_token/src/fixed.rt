//! Keywords and signs, with their spelling.

ghost use Rattle.std.specs.Prelude.{◌≡◌, ◌≤◌, ℕ, true, List, ◌∷◌, length, IfSome};
ghost use Rattle.hc_scan.specs.Spelling as shape;
ghost use Rattle.hc_token.specs.Kinds as spec;

use hc_scan::{HasSpelling, in_front, spelled};

/// A token whose spelling is fixed: a keyword or a sign.
#[derive(Clone, Copy, Debug, PartialEq, Eq)]
pub enum Fixed {
    /// `module`
    Module,
    /// `endmodule`
    EndModule,
    /// `begin`
    Begin,
    /// `end`, which closes what `begin` opens
    EndBody,
    /// `system`
    System,
    /// `endsystem`
    EndSystem,
    /// `ch`
    Ch,
    /// `val`
    Val,
    /// `skip`
    Skip,
    /// `wait`
    Wait,
    /// `log`
    Log,
    /// `if`
    If,
    /// `then`
    Then,
    /// `else`
    Else,
    /// `endif`
    EndIf,
    /// `true`
    True,
    /// `false`
    False,
    /// `-->`
    Arrow,
    /// `:=`
    ColonEqual,
    /// `||`
    BarBar,
    /// `|>`
    BarGreater,
    /// `++`
    PlusPlus,
    /// `**`
    StarStar,
    /// `[]`
    EmptySquare,
    /// `&&`
    AndAnd,
    /// `<=`
    LessEqual,
    /// `>=`
    GreaterEqual,
    /// `==`
    EqualEqual,
    /// `!=`
    NotEqual,
    /// `(`
    OpenRound,
    /// `)`
    CloseRound,
    /// `{`
    OpenCurly,
    /// `}`
    CloseCurly,
    /// `[`
    OpenSquare,
    /// `]`
    CloseSquare,
    /// `<`
    Less,
    /// `>`
    Greater,
    /// `,`
    Comma,
    /// `;`
    Semicolon,
    /// `:`
    Colon,
    /// `=`
    Equal,
    /// `&`
    And,
    /// `!`
    Exclamation,
    /// `?`
    Question,
    /// `+`
    Plus,
    /// `-`
    Minus,
    /// `*`
    Star,
    /// `/`
    Slash,
}

impl Fixed {
    /// How it is spelled.
    pub fn text(self) -> &'static [u8]
        ensures { result.now ≡ spec.text_of self }
    {
        match self {
            Fixed::Module => b"module",
            Fixed::EndModule => b"endmodule",
            Fixed::Begin => b"begin",
            Fixed::EndBody => b"end",
            Fixed::System => b"system",
            Fixed::EndSystem => b"endsystem",
            Fixed::Ch => b"ch",
            Fixed::Val => b"val",
            Fixed::Skip => b"skip",
            Fixed::Wait => b"wait",
            Fixed::Log => b"log",
            Fixed::If => b"if",
            Fixed::Then => b"then",
            Fixed::Else => b"else",
            Fixed::EndIf => b"endif",
            Fixed::True => b"true",
            Fixed::False => b"false",
            Fixed::Arrow => b"-->",
            Fixed::ColonEqual => b":=",
            Fixed::BarBar => b"||",
            Fixed::BarGreater => b"|>",
            Fixed::PlusPlus => b"++",
            Fixed::StarStar => b"**",
            Fixed::EmptySquare => b"[]",
            Fixed::AndAnd => b"&&",
            Fixed::LessEqual => b"<=",
            Fixed::GreaterEqual => b">=",
            Fixed::EqualEqual => b"==",
            Fixed::NotEqual => b"!=",
            Fixed::OpenRound => b"(",
            Fixed::CloseRound => b")",
            Fixed::OpenCurly => b"{",
            Fixed::CloseCurly => b"}",
            Fixed::OpenSquare => b"[",
            Fixed::CloseSquare => b"]",
            Fixed::Less => b"<",
            Fixed::Greater => b">",
            Fixed::Comma => b",",
            Fixed::Semicolon => b";",
            Fixed::Colon => b":",
            Fixed::Equal => b"=",
            Fixed::And => b"&",
            Fixed::Exclamation => b"!",
            Fixed::Question => b"?",
            Fixed::Plus => b"+",
            Fixed::Minus => b"-",
            Fixed::Star => b"*",
            Fixed::Slash => b"/",
        }
    }
}

impl HasSpelling for Fixed {
    ghost spelling = { spec.text_of };

    fn text(self) -> &'static [u8] {
        Fixed::text(self)
    }
}

/// The keyword that is spelled so, if there is one.
#[tactic(auto, unfolding(crate::specs::Kinds::keyword, crate::specs::Kinds::keywords))]
pub(crate) fn keyword(word: &[u8]) -> Option<Fixed>
    ensures { result ≡ spec.keyword word.now }
{
    match word {
        [] => None,
        [first, ..] => spelled(keywords_from(*first), word),
    }
}

/// The longest sign that the text begins with, if there is one, and its length in bytes.
#[tactic(auto, unfolding(crate::specs::Kinds::sign, crate::specs::Kinds::signs))]
pub(crate) fn sign(text: &[u8]) -> Option<(Fixed, usize)>
    ensures sign { result ≡ spec.sign text.now }
    ensures not_empty { IfSome result (λ s. 1 ≤ s.1) }
    ensures within { IfSome result (λ s. s.1 ≤ length text.now) }
{
    match text {
        [] => None,
        [first, ..] => in_front(signs_from(*first), text),
    }
}

/// The keywords that begin with a byte.
#[tactic(auto, unfolding(crate::specs::Kinds::keyword, crate::specs::Kinds::keywords))]
fn keywords_from(first: u8) -> &'static [Fixed]
    ensures { (rest : List ℕ) → shape.spelled spec.text_of result.now (first ∷ rest) ≡ spec.keyword (first ∷ rest) }
{
    match first {
        b'm' => &[Fixed::Module],
        b'e' => &[
            Fixed::EndModule,
            Fixed::EndBody,
            Fixed::EndSystem,
            Fixed::Else,
            Fixed::EndIf,
        ],
        b'b' => &[Fixed::Begin],
        b's' => &[Fixed::System, Fixed::Skip],
        b'c' => &[Fixed::Ch],
        b'v' => &[Fixed::Val],
        b'w' => &[Fixed::Wait],
        b'l' => &[Fixed::Log],
        b'i' => &[Fixed::If],
        b't' => &[Fixed::Then, Fixed::True],
        b'f' => &[Fixed::False],
        _ => &[],
    }
}

/// The signs that begin with a byte, the longer ones first.
#[tactic(auto, unfolding(crate::specs::Kinds::sign, crate::specs::Kinds::signs))]
fn signs_from(first: u8) -> &'static [Fixed]
    ensures has_bytes { shape.have_bytes spec.text_of result.now ≡ true }
    ensures first { (rest : List ℕ) → shape.in_front spec.text_of result.now (first ∷ rest) ≡ spec.sign (first ∷ rest) }
{
    match first {
        b'-' => &[Fixed::Arrow, Fixed::Minus],
        b':' => &[Fixed::ColonEqual, Fixed::Colon],
        b'|' => &[Fixed::BarBar, Fixed::BarGreater],
        b'+' => &[Fixed::PlusPlus, Fixed::Plus],
        b'*' => &[Fixed::StarStar, Fixed::Star],
        b'[' => &[Fixed::EmptySquare, Fixed::OpenSquare],
        b'&' => &[Fixed::AndAnd, Fixed::And],
        b'<' => &[Fixed::LessEqual, Fixed::Less],
        b'>' => &[Fixed::GreaterEqual, Fixed::Greater],
        b'=' => &[Fixed::EqualEqual, Fixed::Equal],
        b'!' => &[Fixed::NotEqual, Fixed::Exclamation],
        b'(' => &[Fixed::OpenRound],
        b')' => &[Fixed::CloseRound],
        b'{' => &[Fixed::OpenCurly],
        b'}' => &[Fixed::CloseCurly],
        b']' => &[Fixed::CloseSquare],
        b',' => &[Fixed::Comma],
        b';' => &[Fixed::Semicolon],
        b'?' => &[Fixed::Question],
        b'/' => &[Fixed::Slash],
        _ => &[],
    }
}
