//! What tokens do in a source, and what happens between them.

/// The role of a token: whether it is kept for the tree, whether it is a node of an expression or a
/// condition, and whether it opens or closes an item.
#[derive(Clone, Copy, Debug, PartialEq, Eq)]
pub enum Role {
    /// It only parts others.
    Plain,
    /// It is kept for the tree.
    Keep,
    /// A number, a name, `true` or `false`: a node by itself.
    Leaf,
    /// A sign between two parts: a node, and kept.
    Operator,
    /// A sign before its one part: a node, and kept, and an item is open up to the end of the part.
    Prefix,
    /// A statement that is an open item, kept.
    Begin,
    /// A bracket that opens an item.
    Open,
    /// What closes an item.
    Close,
}

/// What happens between two tokens: a part of the tree ends, or begins.
#[derive(Clone, Copy, Debug, PartialEq, Eq)]
pub enum Mark {
    /// An outermost expression or condition begins.
    Fresh,
    Negate,
    Binary,
    Compare,
    Not,
    And,
    Or,
    /// A list of statements begins.
    Body,
    Skip,
    Assign,
    Wait,
    Log,
    Send,
    Receive,
    Io,
    /// An `if` without an else part ends.
    If,
    /// An `if` with an else part ends.
    Else,
    Pick,
    Forever,
    Loop,
    /// A list of branches begins.
    Branches,
    Choice,
    Branch,
    /// A list of rates begins, and the branches of their evolution.
    Rates,
    Rate,
    Evolve,
    /// The parameters of a module begin.
    Params,
    Param,
    Module,
    /// The arguments of a process begin.
    Arguments,
    Argument,
    Inline,
    Call,
}
