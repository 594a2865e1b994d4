//! What the small language is made of.

use hc_frac::Place;

/// What a token is. No token is `AnyName`: that kind is wanted alone, and takes a name or `it`.
#[derive(Clone, Copy, Debug, PartialEq, Eq)]
pub enum Kind {
    Let,
    Use,
    Drop,
    Name,
    It,
    AnyName,
    OpenRound,
    CloseRound,
    Semicolon,
    Equal,
    LongWord,
    End,
    Other,
}

/// The phrases.
#[derive(Clone, Copy, Debug, PartialEq, Eq)]
pub enum Head {
    Lines,
    /// What a name stands for at first, if it is said.
    First,
    Value,
}

/// The role of a token in its phrase.
#[derive(Clone, Copy, Debug, PartialEq, Eq)]
pub enum Role {
    Plain,
    Declares,
    Uses,
    Open,
    Close,
}

/// What is done between two tokens.
#[derive(Clone, Copy, Debug, PartialEq, Eq)]
pub enum Mark {
    /// A value in brackets ends.
    Bracketed,
    /// It isn't said what a name stands for at first.
    Unsaid,
}

/// One token, with the number of its name where it has one.
#[derive(Clone, Copy, Debug, PartialEq, Eq)]
pub struct Token {
    pub place: Place,
    pub kind: Kind,
    pub name: u32,
}

/// What may be wrong with a token.
#[derive(Clone, Copy, Debug, PartialEq, Eq)]
pub enum Flaw {
    /// A word that is too long, wherever it stands.
    TooLong,
    /// No text goes on with the token.
    Syntax,
    /// A fourth open bracket.
    TooDeep,
    /// A name that isn't declared before.
    Names,
}
