//! The table: what each phrase is before a token of each kind.

ghost use Rattle.std.specs.Prelude.{◌≡◌, [], ◌∷◌};
ghost use Rattle.hc_grammar.specs.Table.{with_more, Takes};
ghost use Rattle.hc_grammar.specs.RowOf.{row_of};
ghost use Rattle.hc_cgrammar.specs.declared.role.Role.TheVariants as role;
ghost use Rattle.hc_ctable.specs.declared.head.Head.TheVariants as h;
ghost use Rattle.hc_ctable.specs.Rows as spec;
ghost use Rattle.hc_ctable.specs.Table.{entry};

use crate::head::Head;
use hc_cgrammar::{Mark, Role};
use hc_ctoken::{Fixed, Kind};
use hc_grammar::Row as Found;
use hc_grammar::Symbol::{self, Head as Phrase, Mark as Did, Token as Wants};

/// A symbol of the table.
pub type Rule = Symbol<Kind, Head, Role, Mark>;

/// What a phrase is before a token.
type Row = Found<Kind, Head, Role, Mark>;

/// What the phrase is before a token of the kind.
pub fn row_at(head: Head, kind: Kind) -> Row
    ensures { row_of result ≡ entry head kind }
{
    match head {
        Head::Unit => unit(kind),
        Head::Channels => channels(kind),
        Head::Processes => processes(kind),
        Head::Functions => functions(kind),
        Head::Kinded => kinded(kind),
        Head::Voided => voided(kind),
        Head::Threads => threads(kind),
        Head::Starred => starred(kind),
        Head::Listed => listed(kind),
        Head::Parameters => parameters(kind),
        Head::MoreParameters => more_parameters(kind),
        Head::Locals => locals(kind),
        Head::Statements => statements(kind),
        Head::Else => else_part(kind),
        Head::Cases => cases(kind),
        Head::Value => value(kind),
        Head::Returned => returned(kind),
        Head::Arguments => arguments(kind),
        Head::MoreArguments => more_arguments(kind),
        Head::Or => unary(
            kind,
            &[
                Phrase(Head::Products),
                Phrase(Head::Sums),
                Phrase(Head::Compare),
                Phrase(Head::Ands),
                Phrase(Head::Ors),
            ],
        ),
        Head::Ors => ors(kind),
        Head::And => unary(
            kind,
            &[
                Phrase(Head::Products),
                Phrase(Head::Sums),
                Phrase(Head::Compare),
                Phrase(Head::Ands),
            ],
        ),
        Head::Ands => ands(kind),
        Head::Compared => unary(
            kind,
            &[
                Phrase(Head::Products),
                Phrase(Head::Sums),
                Phrase(Head::Compare),
            ],
        ),
        Head::Compare => compare(kind),
        Head::Sum => unary(kind, &[Phrase(Head::Products), Phrase(Head::Sums)]),
        Head::Sums => sums(kind),
        Head::Product => unary(kind, &[Phrase(Head::Products)]),
        Head::Products => products(kind),
        Head::Unary => unary(kind, &[]),
    }
}

fn takes(role: Role, symbols: &'static [Rule]) -> Row
    ensures { row_of result ≡ Takes role symbols.now }
{
    Row::Takes(role, symbols, &[])
}

/// An operand, and then more symbols.
fn unary(kind: Kind, more: &'static [Rule]) -> Row
    ensures { row_of result ≡ with_more more.now (spec.unary kind) }
{
    match kind {
        Kind::Fixed(Fixed::Minus) => Row::Takes(
            Role::Minus,
            &[Phrase(Head::Unary), Did(Mark::Negate)],
            more,
        ),
        Kind::Fixed(Fixed::Exclamation) => Row::Takes(
            Role::Not,
            &[Phrase(Head::Unary), Did(Mark::Not)],
            more,
        ),
        Kind::Number | Kind::Zero => Row::Takes(Role::Number, &[], more),
        Kind::Local | Kind::Unused => Row::Takes(Role::Local, &[], more),
        Kind::Array => Row::Takes(
            Role::Element,
            &[
                Wants(Kind::Fixed(Fixed::OpenSquare), Role::Open),
                Phrase(Head::Or),
                Wants(Kind::Fixed(Fixed::CloseSquare), Role::Close),
                Did(Mark::Element),
            ],
            more,
        ),
        Kind::Fixed(Fixed::OpenRound) => Row::Takes(
            Role::Open,
            &[
                Phrase(Head::Or),
                Wants(Kind::Fixed(Fixed::CloseRound), Role::Close),
            ],
            more,
        ),
        _ => Row::Refuses,
    }
}

/// A function behind its name, and all that follows it.
const FUNCTION: &[Rule] = &[
    Wants(Kind::Fixed(Fixed::OpenRound), Role::Open),
    Did(Mark::Parameters),
    Phrase(Head::Parameters),
    Wants(Kind::Fixed(Fixed::CloseRound), Role::Close),
    Wants(Kind::Fixed(Fixed::OpenCurly), Role::Open),
    Did(Mark::Locals),
    Phrase(Head::Locals),
    Did(Mark::Statements),
    Phrase(Head::Statements),
    Wants(Kind::Fixed(Fixed::CloseCurly), Role::EndFunction),
    Did(Mark::Function),
    Phrase(Head::Functions),
];

/// A thread behind its name, and all that follows it.
const THREAD: &[Rule] = &[
    Wants(Kind::Fixed(Fixed::OpenRound), Role::Open),
    Wants(Kind::Fixed(Fixed::Void), Role::Plain),
    Wants(Kind::Fixed(Fixed::Star), Role::Plain),
    Wants(Kind::Unused, Role::Plain),
    Wants(Kind::Fixed(Fixed::CloseRound), Role::Close),
    Wants(Kind::Fixed(Fixed::OpenCurly), Role::Open),
    Did(Mark::Locals),
    Phrase(Head::Locals),
    Did(Mark::Statements),
    Phrase(Head::Statements),
    Wants(Kind::Fixed(Fixed::CloseCurly), Role::EndThread),
    Did(Mark::Thread),
    Phrase(Head::Threads),
];

/// `main`.
const MAIN: &[Rule] = &[
    Wants(Kind::Fixed(Fixed::Int), Role::Plain),
    Wants(Kind::Fixed(Fixed::Main), Role::Plain),
    Wants(Kind::Fixed(Fixed::OpenRound), Role::Open),
    Wants(Kind::Fixed(Fixed::Void), Role::Plain),
    Wants(Kind::Fixed(Fixed::CloseRound), Role::Close),
    Wants(Kind::Fixed(Fixed::OpenCurly), Role::Open),
    Wants(Kind::Fixed(Fixed::Return), Role::Plain),
    Wants(Kind::Fixed(Fixed::HcMain), Role::Plain),
    Wants(Kind::Fixed(Fixed::OpenRound), Role::Open),
    Wants(Kind::AnyNumber, Role::MainCount),
    Wants(Kind::Fixed(Fixed::Comma), Role::Plain),
    Wants(Kind::Fixed(Fixed::HcThreads), Role::Plain),
    Wants(Kind::Fixed(Fixed::CloseRound), Role::Close),
    Wants(Kind::Fixed(Fixed::Semicolon), Role::Plain),
    Wants(Kind::Fixed(Fixed::CloseCurly), Role::Close),
];

/// Arrays, and all that follows them.
fn unit(kind: Kind) -> Row
    ensures { row_of result ≡ spec.unit kind }
{
    match kind {
        Kind::Fixed(Fixed::Static) => takes(
            Role::Plain,
            &[
                Wants(Kind::Fixed(Fixed::Int), Role::Plain),
                Wants(Kind::Array, Role::DeclareArray),
                Wants(Kind::Fixed(Fixed::OpenSquare), Role::OpenLength),
                Wants(Kind::AnyNumber, Role::Length),
                Wants(Kind::Fixed(Fixed::CloseSquare), Role::Close),
                Wants(Kind::Fixed(Fixed::Semicolon), Role::Plain),
                Did(Mark::Array),
                Phrase(Head::Unit),
            ],
        ),
        Kind::Fixed(Fixed::Const) => takes(
            Role::Plain,
            &[
                Wants(Kind::Fixed(Fixed::Char), Role::Plain),
                Wants(Kind::Fixed(Fixed::Star), Role::Plain),
                Wants(Kind::Fixed(Fixed::Const), Role::Plain),
                Wants(Kind::Fixed(Fixed::ChanName), Role::Plain),
                Wants(Kind::Fixed(Fixed::OpenSquare), Role::Open),
                Wants(Kind::AnyNumber, Role::Count),
                Wants(Kind::Fixed(Fixed::CloseSquare), Role::Close),
                Wants(Kind::Fixed(Fixed::Equal), Role::Plain),
                Wants(Kind::Fixed(Fixed::OpenCurly), Role::Open),
                Wants(Kind::Text, Role::Channel),
                Phrase(Head::Channels),
                Wants(Kind::Fixed(Fixed::CloseCurly), Role::EndNames),
                Wants(Kind::Fixed(Fixed::Semicolon), Role::Plain),
                Wants(Kind::Fixed(Fixed::Const), Role::Plain),
                Wants(Kind::Fixed(Fixed::Char), Role::Plain),
                Wants(Kind::Fixed(Fixed::Star), Role::Plain),
                Wants(Kind::Fixed(Fixed::Const), Role::Plain),
                Wants(Kind::Fixed(Fixed::ProcName), Role::Plain),
                Wants(Kind::Fixed(Fixed::OpenSquare), Role::Open),
                Wants(Kind::AnyNumber, Role::Count),
                Wants(Kind::Fixed(Fixed::CloseSquare), Role::Close),
                Wants(Kind::Fixed(Fixed::Equal), Role::Plain),
                Wants(Kind::Fixed(Fixed::OpenCurly), Role::Open),
                Wants(Kind::Text, Role::Process),
                Phrase(Head::Processes),
                Wants(Kind::Fixed(Fixed::CloseCurly), Role::EndNames),
                Wants(Kind::Fixed(Fixed::Semicolon), Role::Plain),
                Phrase(Head::Functions),
            ],
        ),
        _ => Row::Refuses,
    }
}

/// Further strings of `chan_name`.
fn channels(kind: Kind) -> Row
    ensures { row_of result ≡ spec.more_strings (role.Channel) (h.Channels) kind }
{
    match kind {
        Kind::Fixed(Fixed::Comma) => takes(
            Role::Plain,
            &[Wants(Kind::Text, Role::Channel), Phrase(Head::Channels)],
        ),
        _ => Row::Skips,
    }
}

/// Further strings of `proc_name`.
fn processes(kind: Kind) -> Row
    ensures { row_of result ≡ spec.more_strings (role.Process) (h.Processes) kind }
{
    match kind {
        Kind::Fixed(Fixed::Comma) => takes(
            Role::Plain,
            &[Wants(Kind::Text, Role::Process), Phrase(Head::Processes)],
        ),
        _ => Row::Skips,
    }
}

/// Functions, and all that follows them.
fn functions(kind: Kind) -> Row
    ensures { row_of result ≡ spec.functions kind }
{
    match kind {
        Kind::Fixed(Fixed::Static) => takes(Role::Plain, &[Phrase(Head::Kinded)]),
        _ => Row::Refuses,
    }
}

/// A function, or the first thread, behind `static`.
fn kinded(kind: Kind) -> Row
    ensures { row_of result ≡ spec.kinded kind }
{
    match kind {
        Kind::Fixed(Fixed::Int) => Row::Takes(
            Role::Plain,
            &[Wants(Kind::Function, Role::DeclareGiving)],
            FUNCTION,
        ),
        Kind::Fixed(Fixed::Void) => takes(Role::Plain, &[Phrase(Head::Voided)]),
        _ => Row::Refuses,
    }
}

/// A function, or the first thread, behind `static void`.
fn voided(kind: Kind) -> Row
    ensures { row_of result ≡ spec.voided kind }
{
    match kind {
        Kind::Function => takes(Role::DeclareVoid, FUNCTION),
        Kind::Fixed(Fixed::Star) => Row::Takes(
            Role::Plain,
            &[Wants(Kind::Thread, Role::DeclareThread)],
            THREAD,
        ),
        _ => Row::Refuses,
    }
}

/// Further threads, and all that follows them.
fn threads(kind: Kind) -> Row
    ensures { row_of result ≡ spec.threads kind }
{
    match kind {
        Kind::Fixed(Fixed::Static) => takes(
            Role::Plain,
            &[
                Wants(Kind::Fixed(Fixed::Void), Role::Plain),
                Wants(Kind::Fixed(Fixed::Star), Role::Plain),
                Phrase(Head::Starred),
            ],
        ),
        _ => Row::Refuses,
    }
}

/// A thread, or the table, behind `static void *`.
fn starred(kind: Kind) -> Row
    ensures { row_of result ≡ spec.starred kind }
{
    match kind {
        Kind::Thread => takes(Role::DeclareThread, THREAD),
        Kind::Fixed(Fixed::OpenRound) => Row::Takes(
            Role::Open,
            &[
                Wants(Kind::Fixed(Fixed::Star), Role::Plain),
                Wants(Kind::Fixed(Fixed::Const), Role::Plain),
                Wants(Kind::Fixed(Fixed::HcThreads), Role::Plain),
                Wants(Kind::Fixed(Fixed::OpenSquare), Role::Open),
                Wants(Kind::AnyNumber, Role::TableCount),
                Wants(Kind::Fixed(Fixed::CloseSquare), Role::Close),
                Wants(Kind::Fixed(Fixed::CloseRound), Role::Close),
                Wants(Kind::Fixed(Fixed::OpenRound), Role::Open),
                Wants(Kind::Fixed(Fixed::Void), Role::Plain),
                Wants(Kind::Fixed(Fixed::Star), Role::Plain),
                Wants(Kind::Fixed(Fixed::CloseRound), Role::Close),
                Wants(Kind::Fixed(Fixed::Equal), Role::Plain),
                Wants(Kind::Fixed(Fixed::OpenCurly), Role::Open),
                Wants(Kind::Thread, Role::Listed),
                Phrase(Head::Listed),
                Wants(Kind::Fixed(Fixed::CloseCurly), Role::EndTable),
                Wants(Kind::Fixed(Fixed::Semicolon), Role::Plain),
            ],
            MAIN,
        ),
        _ => Row::Refuses,
    }
}

/// Further names in the table.
fn listed(kind: Kind) -> Row
    ensures { row_of result ≡ spec.listed kind }
{
    match kind {
        Kind::Fixed(Fixed::Comma) => takes(
            Role::Plain,
            &[Wants(Kind::Thread, Role::Listed), Phrase(Head::Listed)],
        ),
        _ => Row::Skips,
    }
}

/// Parameters.
fn parameters(kind: Kind) -> Row
    ensures { row_of result ≡ spec.parameters kind }
{
    match kind {
        Kind::Fixed(Fixed::Void) => takes(Role::Plain, &[]),
        Kind::Fixed(Fixed::Int) => takes(
            Role::Plain,
            &[
                Wants(Kind::AnyLocal, Role::DeclareParameter),
                Phrase(Head::MoreParameters),
            ],
        ),
        _ => Row::Refuses,
    }
}

/// Further parameters.
fn more_parameters(kind: Kind) -> Row
    ensures { row_of result ≡ spec.more_parameters kind }
{
    match kind {
        Kind::Fixed(Fixed::Comma) => takes(
            Role::Plain,
            &[
                Wants(Kind::Fixed(Fixed::Int), Role::Plain),
                Wants(Kind::AnyLocal, Role::DeclareParameter),
                Phrase(Head::MoreParameters),
            ],
        ),
        _ => Row::Skips,
    }
}

/// Locals.
fn locals(kind: Kind) -> Row
    ensures { row_of result ≡ spec.locals kind }
{
    match kind {
        Kind::Fixed(Fixed::Int) => takes(
            Role::Plain,
            &[
                Wants(Kind::AnyLocal, Role::DeclareLocal),
                Wants(Kind::Fixed(Fixed::Equal), Role::Plain),
                Wants(Kind::Zero, Role::Plain),
                Wants(Kind::Fixed(Fixed::Semicolon), Role::Plain),
                Phrase(Head::Locals),
            ],
        ),
        _ => Row::Skips,
    }
}

/// Statements.
fn statements(kind: Kind) -> Row
    ensures { row_of result ≡ spec.statements kind }
{
    match kind {
        Kind::Local | Kind::Unused => takes(
            Role::Target,
            &[
                Wants(Kind::Fixed(Fixed::Equal), Role::Plain),
                Did(Mark::Fresh),
                Phrase(Head::Value),
                Phrase(Head::Statements),
            ],
        ),
        Kind::Array => takes(
            Role::TargetArray,
            &[
                Wants(Kind::Fixed(Fixed::OpenSquare), Role::Open),
                Did(Mark::Fresh),
                Phrase(Head::Or),
                Wants(Kind::Fixed(Fixed::CloseSquare), Role::Close),
                Wants(Kind::Fixed(Fixed::Equal), Role::Plain),
                Did(Mark::Fresh),
                Phrase(Head::Or),
                Wants(Kind::Fixed(Fixed::Semicolon), Role::Plain),
                Did(Mark::Store),
                Phrase(Head::Statements),
            ],
        ),
        Kind::Function | Kind::Primitive => takes(
            Role::Callee,
            &[
                Wants(Kind::Fixed(Fixed::OpenRound), Role::OpenArguments),
                Did(Mark::Fresh),
                Phrase(Head::Arguments),
                Wants(Kind::Fixed(Fixed::Semicolon), Role::Plain),
                Did(Mark::Call),
                Phrase(Head::Statements),
            ],
        ),
        Kind::Fixed(Fixed::If) => takes(
            Role::Plain,
            &[
                Wants(Kind::Fixed(Fixed::OpenRound), Role::Open),
                Did(Mark::Fresh),
                Phrase(Head::Or),
                Wants(Kind::Fixed(Fixed::CloseRound), Role::Close),
                Wants(Kind::Fixed(Fixed::OpenCurly), Role::Open),
                Did(Mark::Statements),
                Phrase(Head::Statements),
                Wants(Kind::Fixed(Fixed::CloseCurly), Role::Close),
                Phrase(Head::Else),
                Phrase(Head::Statements),
            ],
        ),
        Kind::Fixed(Fixed::While) => takes(
            Role::Plain,
            &[
                Wants(Kind::Fixed(Fixed::OpenRound), Role::Open),
                Did(Mark::Fresh),
                Phrase(Head::Or),
                Wants(Kind::Fixed(Fixed::CloseRound), Role::Close),
                Wants(Kind::Fixed(Fixed::OpenCurly), Role::Open),
                Did(Mark::Statements),
                Phrase(Head::Statements),
                Wants(Kind::Fixed(Fixed::CloseCurly), Role::Close),
                Did(Mark::While),
                Phrase(Head::Statements),
            ],
        ),
        Kind::Fixed(Fixed::Switch) => takes(
            Role::Plain,
            &[
                Wants(Kind::Fixed(Fixed::OpenRound), Role::Open),
                Did(Mark::Fresh),
                Phrase(Head::Or),
                Wants(Kind::Fixed(Fixed::CloseRound), Role::Close),
                Wants(Kind::Fixed(Fixed::OpenCurly), Role::OpenCases),
                Did(Mark::Cases),
                Phrase(Head::Cases),
                Did(Mark::Switch),
                Phrase(Head::Statements),
            ],
        ),
        Kind::Fixed(Fixed::Return) => takes(
            Role::Plain,
            &[
                Did(Mark::Fresh),
                Phrase(Head::Returned),
                Phrase(Head::Statements),
            ],
        ),
        _ => Row::Skips,
    }
}

/// What follows the block of an `if`.
fn else_part(kind: Kind) -> Row
    ensures { row_of result ≡ spec.else_part kind }
{
    match kind {
        Kind::Fixed(Fixed::Else) => takes(
            Role::Plain,
            &[
                Wants(Kind::Fixed(Fixed::OpenCurly), Role::Open),
                Did(Mark::Statements),
                Phrase(Head::Statements),
                Wants(Kind::Fixed(Fixed::CloseCurly), Role::Close),
                Did(Mark::IfElse),
            ],
        ),
        _ => Row::Skips,
    }
}

/// Cases up to the `}` behind them.
fn cases(kind: Kind) -> Row
    ensures { row_of result ≡ spec.cases kind }
{
    match kind {
        Kind::Fixed(Fixed::Case) => takes(
            Role::Plain,
            &[
                Wants(Kind::AnyNumber, Role::CaseNumber),
                Wants(Kind::Fixed(Fixed::Colon), Role::Plain),
                Wants(Kind::Fixed(Fixed::OpenCurly), Role::Open),
                Did(Mark::Statements),
                Phrase(Head::Statements),
                Wants(Kind::Fixed(Fixed::CloseCurly), Role::Close),
                Wants(Kind::Fixed(Fixed::Break), Role::Plain),
                Wants(Kind::Fixed(Fixed::Semicolon), Role::Plain),
                Did(Mark::Case),
                Phrase(Head::Cases),
            ],
        ),
        Kind::Fixed(Fixed::Default) => takes(
            Role::Plain,
            &[
                Wants(Kind::Fixed(Fixed::Colon), Role::Plain),
                Wants(Kind::Fixed(Fixed::OpenCurly), Role::Open),
                Did(Mark::Statements),
                Phrase(Head::Statements),
                Wants(Kind::Fixed(Fixed::CloseCurly), Role::Close),
                Wants(Kind::Fixed(Fixed::Break), Role::Plain),
                Wants(Kind::Fixed(Fixed::Semicolon), Role::Plain),
                Wants(Kind::Fixed(Fixed::CloseCurly), Role::CloseCases),
            ],
        ),
        _ => Row::Refuses,
    }
}

/// What a local becomes, up to its `;`.
fn value(kind: Kind) -> Row
    ensures { row_of result ≡ spec.value kind }
{
    match kind {
        Kind::Function | Kind::Primitive => takes(
            Role::GivingCallee,
            &[
                Wants(Kind::Fixed(Fixed::OpenRound), Role::OpenArguments),
                Did(Mark::Fresh),
                Phrase(Head::Arguments),
                Wants(Kind::Fixed(Fixed::Semicolon), Role::Plain),
                Did(Mark::SetCall),
            ],
        ),
        _ => unary(
            kind,
            &[
                Phrase(Head::Products),
                Phrase(Head::Sums),
                Phrase(Head::Compare),
                Phrase(Head::Ands),
                Phrase(Head::Ors),
                Wants(Kind::Fixed(Fixed::Semicolon), Role::Plain),
                Did(Mark::Set),
            ],
        ),
    }
}

/// What follows `return`, up to its `;`.
fn returned(kind: Kind) -> Row
    ensures { row_of result ≡ spec.returned kind }
{
    match kind {
        Kind::Fixed(Fixed::Semicolon) => takes(Role::EndReturn, &[Did(Mark::Return)]),
        _ => unary(
            kind,
            &[
                Phrase(Head::Products),
                Phrase(Head::Sums),
                Phrase(Head::Compare),
                Phrase(Head::Ands),
                Phrase(Head::Ors),
                Wants(Kind::Fixed(Fixed::Semicolon), Role::EndValueReturn),
                Did(Mark::ValueReturn),
            ],
        ),
    }
}

/// Arguments up to the `)` behind them.
fn arguments(kind: Kind) -> Row
    ensures { row_of result ≡ spec.arguments kind }
{
    match kind {
        Kind::Fixed(Fixed::CloseRound) => takes(Role::CloseArguments, &[]),
        _ => unary(
            kind,
            &[
                Phrase(Head::Products),
                Phrase(Head::Sums),
                Phrase(Head::Compare),
                Phrase(Head::Ands),
                Phrase(Head::Ors),
                Did(Mark::Argument),
                Phrase(Head::MoreArguments),
            ],
        ),
    }
}

/// Further arguments up to the `)` behind them.
fn more_arguments(kind: Kind) -> Row
    ensures { row_of result ≡ spec.more_arguments kind }
{
    match kind {
        Kind::Fixed(Fixed::CloseRound) => takes(Role::CloseArguments, &[]),
        Kind::Fixed(Fixed::Comma) => takes(
            Role::NextArgument,
            &[
                Did(Mark::Fresh),
                Phrase(Head::Or),
                Did(Mark::Argument),
                Phrase(Head::MoreArguments),
            ],
        ),
        _ => Row::Refuses,
    }
}

/// Further parts behind `||`.
fn ors(kind: Kind) -> Row
    ensures { row_of result ≡ spec.ors kind }
{
    match kind {
        Kind::Fixed(Fixed::BarBar) => takes(
            Role::Operator,
            &[Phrase(Head::And), Did(Mark::Binary), Phrase(Head::Ors)],
        ),
        _ => Row::Skips,
    }
}

/// Further parts behind `&&`.
fn ands(kind: Kind) -> Row
    ensures { row_of result ≡ spec.ands kind }
{
    match kind {
        Kind::Fixed(Fixed::AndAnd) => takes(
            Role::Operator,
            &[
                Phrase(Head::Compared),
                Did(Mark::Binary),
                Phrase(Head::Ands),
            ],
        ),
        _ => Row::Skips,
    }
}

/// A comparison behind its left side.
fn compare(kind: Kind) -> Row
    ensures { row_of result ≡ spec.compare kind }
{
    match kind {
        Kind::Fixed(
            Fixed::Less
            | Fixed::LessEqual
            | Fixed::EqualEqual
            | Fixed::NotEqual
            | Fixed::GreaterEqual
            | Fixed::Greater,
        ) => takes(Role::Operator, &[Phrase(Head::Sum), Did(Mark::Binary)]),
        _ => Row::Skips,
    }
}

/// Further parts behind `+` and `-`.
fn sums(kind: Kind) -> Row
    ensures { row_of result ≡ spec.sums kind }
{
    match kind {
        Kind::Fixed(Fixed::Plus | Fixed::Minus) => takes(
            Role::Operator,
            &[Phrase(Head::Product), Did(Mark::Binary), Phrase(Head::Sums)],
        ),
        _ => Row::Skips,
    }
}

/// Further parts behind `*`.
fn products(kind: Kind) -> Row
    ensures { row_of result ≡ spec.products kind }
{
    match kind {
        Kind::Fixed(Fixed::Star) => takes(
            Role::Operator,
            &[
                Phrase(Head::Unary),
                Did(Mark::Binary),
                Phrase(Head::Products),
            ],
        ),
        _ => Row::Skips,
    }
}
