//! What a language gives to be read by a table.

ghost use Rattle.std.specs.Prelude.{◌≡◌, ◌↔◌, Option, Some, None, IsTrue, true, OnOk, IfErr};
ghost use Rattle.hc_frac.specs.declared.place.Place.{Place as At};
ghost use Rattle.hc_grammar.specs.Table as table;
ghost use Rattle.hc_grammar.specs.Texts.{Text};
ghost use Rattle.hc_grammar.specs.Language.{Language, IsText, IsReadable};
ghost use Rattle.hc_grammar.specs.RowOf.{row_of};
ghost use Rattle.hc_grammar.specs.Taken.{IsTaken, IsRefused};

use crate::symbol::Symbol;
use hc_frac::Place;
use std::alloc::{AllocError, Global};

/// What a phrase is before a token.
pub enum Row<K: 'static, H: 'static, A: 'static, B: 'static> {
    /// It takes the token in this role, and goes on by the first symbols, and then by the second.
    Takes(A, &'static [Symbol<K, H, A, B>], &'static [Symbol<K, H, A, B>]),
    /// It is empty here.
    Skips,
    /// It can't stand here.
    Refuses,
}

/// Why a token isn't taken.
#[derive(Debug, Drop)]
pub enum Fault<F> {
    Flaw(F),
    Memory,
}

impl<F> From<AllocError> for Fault<F> {
    ghost use Rattle.hc_grammar.specs.declared.language.Fault.TheVariants.{Memory};

    ghost from_gives = { λ _ fault. fault ≡ Memory };

    fn from(_error: AllocError) -> Self {
        Fault::Memory
    }
}

/// A language that is read by a table; its values are what stands so far behind some token.
pub trait Reader {
    type Kind: Copy + 'static;

    type Head: Copy + 'static;

    type Role: Copy + 'static;

    type Mark: Copy + 'static;

    type Token: Drop;

    type Flaw: Drop;

    // the state that the questions see, and the value that a text builds
    ghost State: { Type 0 };

    ghost Value: { Type 0 };

    // the table, the questions at each token, and what a text builds
    ghost language: { Language Self.Kind Self.Head Self.Role Self.Mark Self.Token State Self.Flaw Value };

    // the texts of the language, as whoever publishes its grammar says them
    ghost Is: { Text Self.Token Self.Role Self.Mark → Type 0 };

    // what stands so far
    ghost state: { Self → State };

    ghost value: { Self → Value };

    // where a token begins
    ghost place: { Self.Token → At };

    /// What a whole text is.
    fn start() -> &'static [Symbol<Self::Kind, Self::Head, Self::Role, Self::Mark>]
        ensures { result.now ≡ language.start };

    /// What the phrase is before a token of the kind.
    fn row(
        head: Self::Head,
        kind: Self::Kind,
    ) -> Row<Self::Kind, Self::Head, Self::Role, Self::Mark>
        ensures { row_of result ≡ language.table.entry head kind };

    /// The mark that stands in the place of a phrase that is empty, if there is one.
    fn left_out(head: Self::Head) -> Option<Self::Mark>
        ensures { result ≡ language.table.left_out head };

    /// Whether the first kind, which is wanted, takes a token of the second.
    fn takes(wanted: Self::Kind, kind: Self::Kind) -> bool
        ensures { result ≡ language.table.same wanted kind };

    fn kind(token: &Self::Token) -> Self::Kind
        ensures { result ≡ language.kind token.now };

    /// Where a token begins.
    fn place(token: &Self::Token) -> Place
        ensures { result ≡ place token.now };

    /// What is wrong where no text goes on with a token.
    fn syntax() -> Self::Flaw
        ensures { result ≡ language.reader.syntax };

    /// What is wrong with a token as it stands.
    fn early(&self, token: &Self::Token) -> Option<Self::Flaw>
        ensures { result ≡ language.reader.early token.now (state self.now) };

    /// Takes a token in its role, if nothing is wrong with it there.
    fn token(
        &mut self,
        alloc: Global,
        role: Self::Role,
        token: Self::Token,
    ) -> Result<(), Fault<Self::Flaw>>
        ensures ok { OnOk result (IsTaken language role token (state self.old) (value self.old) (state self.new) (value self.new)) }
        ensures err { IfErr result (IsRefused language role token (state self.old)) };

    /// Passes a mark.
    fn mark(&mut self, alloc: Global, mark: Self::Mark) -> Result<(), AllocError>
        ensures state { OnOk result (state self.new ≡ language.reader.walk.on_mark mark (state self.old)) }
        ensures value { OnOk result (value self.new ≡ language.builder.on_mark mark (value self.old)) };

    // the next token alone decides, and a last token ends a text
    ghost readable: { IsReadable language };

    // the texts are those that the table derives
    ghost derived: { (w : Text Self.Token Self.Role Self.Mark) → Is w → IsText language w };

    ghost is: { (w : Text Self.Token Self.Role Self.Mark) → IsText language w → Is w };
}
