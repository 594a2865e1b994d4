//! The phrases of the grammar, each known by its first token.

/// A phrase of the grammar.
#[derive(Clone, Copy, Debug, PartialEq, Eq)]
pub enum Head {
    /// Arrays, and all that follows them.
    Unit,
    /// Further strings of `chan_name`.
    Channels,
    /// Further strings of `proc_name`.
    Processes,
    /// Functions, and all that follows them.
    Functions,
    /// A function, or the first thread, behind `static`.
    Kinded,
    /// A function, or the first thread, behind `static void`.
    Voided,
    /// Further threads, and all that follows them.
    Threads,
    /// A thread, or the table, behind `static void *`.
    Starred,
    /// Further names in the table.
    Listed,
    Parameters,
    MoreParameters,
    Locals,
    Statements,
    /// What follows the block of an `if`.
    Else,
    /// Cases up to the `}` behind them.
    Cases,
    /// What a local becomes, up to its `;`.
    Value,
    /// What follows `return`, up to its `;`.
    Returned,
    /// Arguments up to the `)` behind them.
    Arguments,
    MoreArguments,
    Or,
    /// Further parts behind `||`.
    Ors,
    And,
    /// Further parts behind `&&`.
    Ands,
    Compared,
    /// A comparison behind its left side.
    Compare,
    Sum,
    /// Further parts behind `+` and `-`.
    Sums,
    Product,
    /// Further parts behind `*`.
    Products,
    Unary,
}
