//! The text that is being written.

ghost use Rattle.std.specs.Prelude.{◌≡◌, OnOk, ◌∷◌, ◌++◌, ◌≤ℤ◌, List, pos, codes, decimal};
ghost use Rattle.hc_ctoken.specs.declared.token.Lexeme.TheVariants as lex;
ghost use Rattle.hc_cspell.specs.Tokens.{fixed, only_if, blank_behind};
ghost use Rattle.hc_cspell.specs.Stmts.{callee};
ghost use Rattle.hc_cspell.specs.Appends.{Appends, Writes};

use hc_cast::Primitive;
use hc_ctoken::Fixed;
use hc_frac::Name;
use itoa::Buffer;
use std::alloc::{AllocError, Global};

/// A text that grows by one token after the other, each with the blank behind it.
#[derive(Drop)]
pub(crate) struct Writer {
    pub(crate) bytes: Vec<u8>,
}

impl Writer {
    /// A keyword or a sign.
    #[tactic(auto, unfolding(crate::specs::Tokens::written))]
    pub(crate) fn sign(&mut self, sign: Fixed) -> Result<(), AllocError>
        ensures { OnOk result (Writes self.old self.new (λ w. fixed sign ∷ w)) }
    {
        self.text(sign.text())?;
        self.byte(blank(sign))
    }

    /// A keyword or a sign where it is needed.
    pub(crate) fn sign_if(&mut self, is_needed: bool, sign: Fixed) -> Result<(), AllocError>
        ensures { OnOk result (Writes self.old self.new (only_if is_needed sign)) }
    {
        if is_needed {
            self.sign(sign)?;
        }
        Ok(())
    }

    /// The name of an array.
    #[tactic(auto, unfolding(crate::specs::Tokens::written))]
    pub(crate) fn array(&mut self, name: &Name) -> Result<(), AllocError>
        ensures { OnOk result (Writes self.old self.new (λ w. lex.Array name.now ∷ w)) }
    {
        self.word(name.text().as_bytes())
    }

    /// The name of a local or a parameter.
    #[tactic(auto, unfolding(crate::specs::Tokens::written))]
    pub(crate) fn local(&mut self, name: &Name) -> Result<(), AllocError>
        ensures { OnOk result (Writes self.old self.new (λ w. lex.Local name.now ∷ w)) }
    {
        self.word(name.text().as_bytes())
    }

    /// The name of a function.
    #[tactic(auto, unfolding(crate::specs::Tokens::written))]
    pub(crate) fn function(&mut self, name: &Name) -> Result<(), AllocError>
        ensures { OnOk result (Writes self.old self.new (λ w. lex.Function name.now ∷ w)) }
    {
        self.word(name.text().as_bytes())
    }

    /// What is called: a primitive, or else a function.
    pub(crate) fn callee(&mut self, name: &Name) -> Result<(), AllocError>
        ensures { OnOk result (Writes self.old self.new (λ w. callee name.now ∷ w)) }
    {
        match Primitive::named(name.text().as_bytes()) {
            Some(primitive) => self.primitive(primitive),
            None => self.function(name),
        }
    }

    #[tactic(auto, unfolding(crate::specs::Tokens::written))]
    fn primitive(&mut self, primitive: Primitive) -> Result<(), AllocError>
        ensures { OnOk result (Writes self.old self.new (λ w. lex.Primitive primitive ∷ w)) }
    {
        self.word(primitive.text())
    }

    /// `v_u`, which names the parameter of each thread.
    #[tactic(auto, unfolding(crate::specs::Tokens::written))]
    pub(crate) fn unused(&mut self) -> Result<(), AllocError>
        ensures { OnOk result (Writes self.old self.new (λ w. lex.Local (codes "v_u") ∷ w)) }
    {
        self.word(b"v_u")
    }

    /// The name of the thread of this number.
    #[tactic(auto, unfolding(crate::specs::Tokens::written))]
    pub(crate) fn thread(&mut self, number: u64) -> Result<(), AllocError>
        ensures { OnOk result (Writes self.old self.new (λ w. lex.Thread number ∷ w)) }
    {
        let mut buffer = Buffer::new();
        self.byte(b't')?;
        self.word(buffer.format(number).as_bytes())
    }

    /// A number.
    #[tactic(auto, unfolding(crate::specs::Tokens::written))]
    pub(crate) fn number(&mut self, number: &i64) -> Result<(), AllocError>
        ensures { OnOk result (Writes self.old self.new (λ w. lex.Number number.now ∷ w)) }
    {
        let value = *number;
        let mut buffer = Buffer::new();
        self.word(buffer.format(value.unsigned_abs()).as_bytes())
    }

    /// How many there are of something.
    #[tactic(auto, unfolding(crate::specs::Tokens::written))]
    pub(crate) fn count(&mut self, count: u64) -> Result<(), AllocError>
        ensures { OnOk result (Writes self.old self.new (λ w. lex.Number (pos count) ∷ w)) }
    {
        let mut buffer = Buffer::new();
        self.word(buffer.format(count).as_bytes())
    }

    /// A name between quotes.
    #[tactic(auto, unfolding(crate::specs::Tokens::written))]
    pub(crate) fn string(&mut self, name: &Name) -> Result<(), AllocError>
        ensures { OnOk result (Writes self.old self.new (λ w. lex.Text name.now ∷ w)) }
    {
        self.byte(b'"')?;
        self.text(name.text().as_bytes())?;
        self.byte(b'"')?;
        self.byte(b' ')
    }

    /// Two quotes with nothing between them.
    #[tactic(auto, unfolding(crate::specs::Tokens::written))]
    pub(crate) fn empty_string(&mut self) -> Result<(), AllocError>
        ensures { OnOk result (Writes self.old self.new (λ w. lex.EmptyText ∷ w)) }
    {
        self.text(b"\"\" ")
    }

    /// A word and the space behind it.
    fn word(&mut self, word: &[u8]) -> Result<(), AllocError>
        ensures { OnOk result (Appends self.old self.new (λ z. word.now ++ 32 ∷ z)) }
    {
        self.text(word)?;
        self.byte(b' ')
    }

    fn text(&mut self, text: &[u8]) -> Result<(), AllocError>
        ensures { OnOk result (Appends self.old self.new (λ z. text.now ++ z)) }
    {
        self.bytes.extend_from_slice(text)?;
        Ok(())
    }

    fn byte(&mut self, byte: u8) -> Result<(), AllocError>
        ensures { OnOk result (Appends self.old self.new (λ z. byte ∷ z)) }
    {
        self.bytes.push(byte)?;
        Ok(())
    }
}

/// The byte that stands behind a keyword or a sign: a newline or a space.
fn blank(sign: Fixed) -> u8
    ensures { result ≡ blank_behind sign }
{
    match sign {
        Fixed::Semicolon | Fixed::OpenCurly | Fixed::CloseCurly => b'\n',
        _ => b' ',
    }
}
