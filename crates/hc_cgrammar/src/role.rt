//! What tokens do in a unit, and what happens between them.

/// The role of a token.
#[derive(Clone, Copy, Debug, PartialEq, Eq)]
pub enum Role {
    /// It only parts others.
    Plain,
    /// A bracket that opens an item.
    Open,
    /// A bracket that closes an item.
    Close,
    /// It names an array that is declared.
    DeclareArray,
    /// The `[` in front of an array's length.
    OpenLength,
    Length,
    /// How many strings are said to follow.
    Count,
    /// A string of `chan_name`.
    Channel,
    /// A string of `proc_name`.
    Process,
    /// The `}` that ends the strings.
    EndNames,
    /// It names a function that is declared and gives an int.
    DeclareGiving,
    /// It names a function that is declared and gives nothing.
    DeclareVoid,
    /// It names a parameter that is declared.
    DeclareParameter,
    /// It names a local that is declared.
    DeclareLocal,
    /// The `}` that ends a function.
    EndFunction,
    /// It names a thread that is declared.
    DeclareThread,
    /// The `}` that ends a thread.
    EndThread,
    /// The number of threads in the table.
    TableCount,
    /// A thread's name in the table.
    Listed,
    /// The `}` that ends the table's names.
    EndTable,
    /// The number of threads in `main`.
    MainCount,
    /// A local that becomes a value.
    Target,
    /// An array of which an element becomes a value.
    TargetArray,
    /// What is called, and its result left.
    Callee,
    /// What is called, and its result taken.
    GivingCallee,
    /// The `(` in front of a call's arguments.
    OpenArguments,
    /// The `,` between two arguments.
    NextArgument,
    /// The `)` that ends a call's arguments.
    CloseArguments,
    /// The `{` of a `switch`.
    OpenCases,
    CaseNumber,
    /// The `}` of a `switch`.
    CloseCases,
    /// The `;` that ends a `return` without a value.
    EndReturn,
    /// The `;` that ends a `return` with a value.
    EndValueReturn,
    /// A number in an expression: a node.
    Number,
    /// A local in an expression: a node.
    Local,
    /// An array in an expression, in front of an index: a node.
    Element,
    /// A sign between two parts: a node.
    Operator,
    /// A minus before its one part: a node, and an item is open up to the end of the part.
    Minus,
    /// A `!` before its one part: a node, and an item is open up to the end of the part.
    Not,
}

/// What happens between two tokens: a part of the program ends, or begins.
#[derive(Clone, Copy, Debug, PartialEq, Eq)]
pub enum Mark {
    /// An expression begins.
    Fresh,
    /// The part behind a minus ends.
    Negate,
    /// The part behind a `!` ends.
    Not,
    /// An element's index ends.
    Element,
    /// The right part of a sign ends.
    Binary,
    Array,
    /// The parameters of a function begin.
    Parameters,
    /// The locals of a body begin.
    Locals,
    /// A list of statements begins.
    Statements,
    Function,
    Thread,
    Argument,
    /// A local becomes the value of an expression.
    Set,
    Store,
    /// A call whose result is left.
    Call,
    /// A call whose result a local takes.
    SetCall,
    /// An `if` without an else part ends.
    If,
    /// An `if` with an else part ends.
    IfElse,
    While,
    /// The cases of a `switch` begin.
    Cases,
    Case,
    Switch,
    /// A `return` without a value ends.
    Return,
    /// A `return` with a value ends.
    ValueReturn,
}
