//! The table: what each phrase is before a token of each kind.

ghost use Rattle.std.specs.Prelude.{◌≡◌, [], ◌∷◌};
ghost use Rattle.hc_grammar.specs.declared.symbol.Symbol.TheVariants as want;
ghost use Rattle.hc_grammar.specs.Table.{with_more, Takes};
ghost use Rattle.hc_grammar.specs.RowOf.{row_of};
ghost use Rattle.hc_table.specs.declared.head.Head.TheVariants as h;
ghost use Rattle.hc_table.specs.Rows as spec;
ghost use Rattle.hc_table.specs.Table.{entry};

use crate::head::Head;
use hc_ast::{Mark, Role};
use hc_grammar::Row as Found;
use hc_grammar::Symbol::{self, Head as Phrase, Mark as Did, Token as Wants};
use hc_token::{Fixed, Kind};

/// A symbol of the source language.
pub type Rule = Symbol<Kind, Head, Role, Mark>;

/// What a phrase of the source language is before a token.
type Row = Found<Kind, Head, Role, Mark>;

/// What the phrase is before a token of the kind.
pub fn row_at(head: Head, kind: Kind) -> Row
    ensures { row_of result ≡ entry head kind }
{
    match head {
        Head::Source => source(kind),
        Head::Params => params(kind),
        Head::MoreParams => more_params(kind),
        Head::Param => param(kind),
        Head::Process => process(kind),
        Head::ProcessBody => process_body(kind),
        Head::Processes => processes(kind),
        Head::Arguments => arguments(kind),
        Head::MoreArguments => more_arguments(kind),
        Head::Seq => stmt_then(kind, &[Phrase(Head::More)]),
        Head::Stmt => stmt_then(kind, &[]),
        Head::Named => named(kind),
        Head::Else => else_part(kind),
        Head::After => after(kind),
        Head::Branch => branch(kind),
        Head::Meet => meet(kind),
        Head::Branches => branches(kind),
        Head::Rate => rate(kind),
        Head::Rates => rates(kind),
        Head::Interrupt => interrupt(kind),
        Head::More => more(kind),
        Head::Expr => factor(kind, &[Phrase(Head::Products), Phrase(Head::Sums)]),
        Head::Sums => sums(kind),
        Head::Term => factor(kind, &[Phrase(Head::Products)]),
        Head::Products => products(kind),
        Head::Factor => factor(kind, &[]),
        Head::Cond => cond(kind),
        Head::Ors => ors(kind),
        Head::Both => both(kind),
        Head::Ands => ands(kind),
        Head::One => one(kind),
        Head::Compare => compare(kind),
    }
}

fn takes(role: Role, symbols: &'static [Rule]) -> Row
    ensures { row_of result ≡ Takes role symbols.now }
{
    Row::Takes(role, symbols, &[])
}

/// A factor, and then more symbols.
fn factor(kind: Kind, more: &'static [Rule]) -> Row
    ensures { row_of result ≡ with_more more.now (spec.factor kind) }
{
    match kind {
        Kind::Number | Kind::Name => Row::Takes(Role::Leaf, &[], more),
        Kind::Fixed(Fixed::Minus) => Row::Takes(
            Role::Prefix,
            &[Phrase(Head::Factor), Did(Mark::Negate)],
            more,
        ),
        Kind::Fixed(Fixed::OpenRound) => Row::Takes(
            Role::Open,
            &[
                Phrase(Head::Expr),
                Wants(Kind::Fixed(Fixed::CloseRound), Role::Close),
            ],
            more,
        ),
        _ => Row::Refuses,
    }
}

/// A source.
fn source(kind: Kind) -> Row
    ensures { row_of result ≡ spec.source kind }
{
    match kind {
        Kind::Fixed(Fixed::Module) => takes(
            Role::Plain,
            &[
                Wants(Kind::Name, Role::Keep),
                Wants(Kind::Fixed(Fixed::OpenRound), Role::Plain),
                Did(Mark::Params),
                Phrase(Head::Params),
                Wants(Kind::Fixed(Fixed::Colon), Role::Plain),
                Wants(Kind::Fixed(Fixed::Begin), Role::Plain),
                Did(Mark::Body),
                Phrase(Head::Seq),
                Wants(Kind::Fixed(Fixed::EndBody), Role::Plain),
                Wants(Kind::Fixed(Fixed::EndModule), Role::Plain),
                Did(Mark::Module),
                Phrase(Head::Source),
            ],
        ),
        Kind::Fixed(Fixed::System) => takes(
            Role::Plain,
            &[Phrase(Head::Process), Phrase(Head::Processes)],
        ),
        _ => Row::Refuses,
    }
}

/// Parameters, up to the bracket behind them.
fn params(kind: Kind) -> Row
    ensures { row_of result ≡ spec.params kind }
{
    match kind {
        Kind::Fixed(Fixed::CloseRound) => takes(Role::Plain, &[]),
        Kind::Fixed(Fixed::Ch) | Kind::Fixed(Fixed::Val) => takes(
            Role::Keep,
            &[
                Wants(Kind::Name, Role::Keep),
                Did(Mark::Param),
                Phrase(Head::MoreParams),
            ],
        ),
        _ => Row::Refuses,
    }
}

/// Further parameters, up to the bracket behind them.
fn more_params(kind: Kind) -> Row
    ensures { row_of result ≡ spec.more_params kind }
{
    match kind {
        Kind::Fixed(Fixed::CloseRound) => takes(Role::Plain, &[]),
        Kind::Fixed(Fixed::Comma) => takes(
            Role::Plain,
            &[Phrase(Head::Param), Phrase(Head::MoreParams)],
        ),
        _ => Row::Refuses,
    }
}

/// A parameter.
fn param(kind: Kind) -> Row
    ensures { row_of result ≡ spec.param_then [] kind }
{
    match kind {
        Kind::Fixed(Fixed::Ch) | Kind::Fixed(Fixed::Val) => takes(
            Role::Keep,
            &[Wants(Kind::Name, Role::Keep), Did(Mark::Param)],
        ),
        _ => Row::Refuses,
    }
}

/// A process.
fn process(kind: Kind) -> Row
    ensures { row_of result ≡ spec.process kind }
{
    match kind {
        Kind::Name => takes(
            Role::Keep,
            &[
                Wants(Kind::Fixed(Fixed::Equal), Role::Plain),
                Phrase(Head::ProcessBody),
            ],
        ),
        _ => Row::Refuses,
    }
}

/// A process behind its `=`.
fn process_body(kind: Kind) -> Row
    ensures { row_of result ≡ spec.process_body kind }
{
    match kind {
        Kind::Fixed(Fixed::OpenRound) => takes(
            Role::Plain,
            &[
                Did(Mark::Body),
                Phrase(Head::Seq),
                Wants(Kind::Fixed(Fixed::CloseRound), Role::Plain),
                Did(Mark::Inline),
            ],
        ),
        Kind::Name => takes(
            Role::Keep,
            &[
                Wants(Kind::Fixed(Fixed::OpenRound), Role::Plain),
                Did(Mark::Arguments),
                Did(Mark::Fresh),
                Phrase(Head::Arguments),
                Did(Mark::Call),
            ],
        ),
        _ => Row::Refuses,
    }
}

/// Further processes, up to the end of the system.
fn processes(kind: Kind) -> Row
    ensures { row_of result ≡ spec.processes kind }
{
    match kind {
        Kind::Fixed(Fixed::BarBar) => takes(
            Role::Plain,
            &[Phrase(Head::Process), Phrase(Head::Processes)],
        ),
        Kind::Fixed(Fixed::EndSystem) => takes(Role::Plain, &[]),
        _ => Row::Refuses,
    }
}

/// Arguments, up to the bracket behind them.
fn arguments(kind: Kind) -> Row
    ensures { row_of result ≡ spec.arguments kind }
{
    match kind {
        Kind::Fixed(Fixed::CloseRound) => takes(Role::Plain, &[]),
        _ => factor(
            kind,
            &[
                Phrase(Head::Products),
                Phrase(Head::Sums),
                Did(Mark::Argument),
                Phrase(Head::MoreArguments),
            ],
        ),
    }
}

/// Further arguments, up to the bracket behind them.
fn more_arguments(kind: Kind) -> Row
    ensures { row_of result ≡ spec.more_arguments kind }
{
    match kind {
        Kind::Fixed(Fixed::CloseRound) => takes(Role::Plain, &[]),
        Kind::Fixed(Fixed::Comma) => takes(
            Role::Plain,
            &[
                Did(Mark::Fresh),
                Phrase(Head::Expr),
                Did(Mark::Argument),
                Phrase(Head::MoreArguments),
            ],
        ),
        _ => Row::Refuses,
    }
}

/// A statement, and then more symbols.
fn stmt_then(kind: Kind, more: &'static [Rule]) -> Row
    ensures { row_of result ≡ with_more more.now (spec.stmt kind) }
{
    match kind {
        Kind::Fixed(Fixed::Skip) => Row::Takes(Role::Keep, &[Did(Mark::Skip)], more),
        Kind::Name => Row::Takes(Role::Keep, &[Phrase(Head::Named)], more),
        Kind::Fixed(Fixed::Wait) => Row::Takes(
            Role::Keep,
            &[
                Wants(Kind::Fixed(Fixed::OpenRound), Role::Plain),
                Did(Mark::Fresh),
                Phrase(Head::Expr),
                Wants(Kind::Fixed(Fixed::CloseRound), Role::Plain),
                Did(Mark::Wait),
            ],
            more,
        ),
        Kind::Fixed(Fixed::Log) => Row::Takes(
            Role::Keep,
            &[
                Wants(Kind::Fixed(Fixed::OpenRound), Role::Plain),
                Did(Mark::Fresh),
                Phrase(Head::Expr),
                Wants(Kind::Fixed(Fixed::CloseRound), Role::Plain),
                Did(Mark::Log),
            ],
            more,
        ),
        Kind::Fixed(Fixed::If) => word_if(more),
        Kind::Fixed(Fixed::OpenRound) => group(more),
        Kind::Fixed(Fixed::EmptySquare) => sign_of_choice(more),
        Kind::Fixed(Fixed::Less) => evolution(more),
        _ => Row::Refuses,
    }
}

/// `if`, and then more symbols.
fn word_if(more: &'static [Rule]) -> Row
    ensures { row_of result ≡ with_more more.now (spec.stmt (Kind.Fixed Fixed.If)) }
{
    Row::Takes(
        Role::Begin,
        &[
            Did(Mark::Fresh),
            Phrase(Head::Cond),
            Wants(Kind::Fixed(Fixed::Then), Role::Plain),
            Did(Mark::Body),
            Phrase(Head::Seq),
            Phrase(Head::Else),
        ],
        more,
    )
}

/// Statements in brackets, and then more symbols.
fn group(more: &'static [Rule]) -> Row
    ensures { row_of result ≡ with_more more.now (spec.stmt (Kind.Fixed Fixed.OpenRound)) }
{
    Row::Takes(
        Role::Begin,
        &[
            Did(Mark::Body),
            Phrase(Head::Seq),
            Wants(Kind::Fixed(Fixed::CloseRound), Role::Close),
            Phrase(Head::After),
        ],
        more,
    )
}

/// `[]`, and then more symbols.
fn sign_of_choice(more: &'static [Rule]) -> Row
    ensures { row_of result ≡ with_more more.now (spec.stmt (Kind.Fixed Fixed.EmptySquare)) }
{
    Row::Takes(
        Role::Keep,
        &[
            Wants(Kind::Fixed(Fixed::OpenRound), Role::Open),
            Did(Mark::Branches),
            Phrase(Head::Branch),
            Phrase(Head::Branches),
            Did(Mark::Choice),
        ],
        more,
    )
}

/// An evolution, and then more symbols.
fn evolution(more: &'static [Rule]) -> Row
    ensures { row_of result ≡ with_more more.now (spec.stmt (Kind.Fixed Fixed.Less)) }
{
    Row::Takes(
        Role::Begin,
        &[
            Did(Mark::Rates),
            Phrase(Head::Rate),
            Phrase(Head::Rates),
            Phrase(Head::Interrupt),
            Did(Mark::Evolve),
        ],
        more,
    )
}

/// A statement behind the name that it begins with.
fn named(kind: Kind) -> Row
    ensures { row_of result ≡ spec.named kind }
{
    match kind {
        Kind::Fixed(Fixed::ColonEqual) => takes(
            Role::Plain,
            &[Did(Mark::Fresh), Phrase(Head::Expr), Did(Mark::Assign)],
        ),
        Kind::Fixed(Fixed::Exclamation) => takes(
            Role::Plain,
            &[
                Did(Mark::Fresh),
                Phrase(Head::Expr),
                Did(Mark::Send),
                Did(Mark::Io),
            ],
        ),
        Kind::Fixed(Fixed::Question) => takes(
            Role::Plain,
            &[
                Wants(Kind::Name, Role::Keep),
                Did(Mark::Receive),
                Did(Mark::Io),
            ],
        ),
        _ => Row::Refuses,
    }
}

/// What follows the statements behind `then`.
fn else_part(kind: Kind) -> Row
    ensures { row_of result ≡ spec.else_part kind }
{
    match kind {
        Kind::Fixed(Fixed::EndIf) => takes(Role::Close, &[Did(Mark::If)]),
        Kind::Fixed(Fixed::Else) => takes(
            Role::Plain,
            &[
                Did(Mark::Body),
                Phrase(Head::Seq),
                Wants(Kind::Fixed(Fixed::EndIf), Role::Close),
                Did(Mark::Else),
            ],
        ),
        _ => Row::Refuses,
    }
}

/// What follows a group of statements.
fn after(kind: Kind) -> Row
    ensures { row_of result ≡ spec.after kind }
{
    match kind {
        Kind::Fixed(Fixed::StarStar) => takes(Role::Plain, &[Did(Mark::Forever)]),
        Kind::Fixed(Fixed::PlusPlus) => takes(
            Role::Plain,
            &[
                Wants(Kind::Fixed(Fixed::OpenRound), Role::Open),
                Did(Mark::Body),
                Phrase(Head::Seq),
                Wants(Kind::Fixed(Fixed::CloseRound), Role::Close),
                Did(Mark::Pick),
            ],
        ),
        Kind::Fixed(Fixed::OpenCurly) => takes(
            Role::Open,
            &[
                Did(Mark::Fresh),
                Phrase(Head::Cond),
                Wants(Kind::Fixed(Fixed::CloseCurly), Role::Close),
                Wants(Kind::Fixed(Fixed::StarStar), Role::Plain),
                Did(Mark::Loop),
            ],
        ),
        _ => Row::Refuses,
    }
}

/// A branch.
fn branch(kind: Kind) -> Row
    ensures { row_of result ≡ spec.branch kind }
{
    match kind {
        Kind::Name => takes(
            Role::Keep,
            &[
                Phrase(Head::Meet),
                Wants(Kind::Fixed(Fixed::Arrow), Role::Plain),
                Did(Mark::Body),
                Phrase(Head::Seq),
                Did(Mark::Branch),
            ],
        ),
        _ => Row::Refuses,
    }
}

/// A communication behind the name that it begins with.
fn meet(kind: Kind) -> Row
    ensures { row_of result ≡ spec.meet kind }
{
    match kind {
        Kind::Fixed(Fixed::Exclamation) => takes(
            Role::Plain,
            &[Did(Mark::Fresh), Phrase(Head::Expr), Did(Mark::Send)],
        ),
        Kind::Fixed(Fixed::Question) => takes(
            Role::Plain,
            &[Wants(Kind::Name, Role::Keep), Did(Mark::Receive)],
        ),
        _ => Row::Refuses,
    }
}

/// Further branches, up to the bracket behind them.
fn branches(kind: Kind) -> Row
    ensures { row_of result ≡ spec.branches kind }
{
    match kind {
        Kind::Fixed(Fixed::CloseRound) => takes(Role::Close, &[]),
        Kind::Fixed(Fixed::Comma) => takes(
            Role::Plain,
            &[Phrase(Head::Branch), Phrase(Head::Branches)],
        ),
        _ => Row::Refuses,
    }
}

/// A rate.
fn rate(kind: Kind) -> Row
    ensures { row_of result ≡ spec.rate kind }
{
    match kind {
        Kind::Rate => takes(
            Role::Keep,
            &[
                Wants(Kind::Fixed(Fixed::Equal), Role::Plain),
                Did(Mark::Fresh),
                Phrase(Head::Expr),
                Did(Mark::Rate),
            ],
        ),
        _ => Row::Refuses,
    }
}

/// Further rates, and then the domain.
fn rates(kind: Kind) -> Row
    ensures { row_of result ≡ spec.rates kind }
{
    match kind {
        Kind::Fixed(Fixed::Comma) => takes(Role::Plain, &[Phrase(Head::Rate), Phrase(Head::Rates)]),
        Kind::Fixed(Fixed::And) => takes(
            Role::Plain,
            &[
                Did(Mark::Fresh),
                Phrase(Head::Cond),
                Wants(Kind::Fixed(Fixed::Greater), Role::Close),
            ],
        ),
        _ => Row::Refuses,
    }
}

/// What may interrupt an evolution.
fn interrupt(kind: Kind) -> Row
    ensures { row_of result ≡ spec.interrupt kind }
{
    match kind {
        Kind::Fixed(Fixed::BarGreater) => takes(
            Role::Plain,
            &[
                Wants(Kind::Fixed(Fixed::EmptySquare), Role::Plain),
                Wants(Kind::Fixed(Fixed::OpenRound), Role::Open),
                Phrase(Head::Branch),
                Phrase(Head::Branches),
            ],
        ),
        _ => Row::Skips,
    }
}

/// Further statements.
fn more(kind: Kind) -> Row
    ensures { row_of result ≡ spec.more kind }
{
    match kind {
        Kind::Fixed(Fixed::Semicolon) => takes(
            Role::Plain,
            &[Phrase(Head::Stmt), Phrase(Head::More)],
        ),
        _ => Row::Skips,
    }
}

/// Further factors.
fn products(kind: Kind) -> Row
    ensures { row_of result ≡ spec.products kind }
{
    match kind {
        Kind::Fixed(Fixed::Star) | Kind::Fixed(Fixed::Slash) => takes(
            Role::Operator,
            &[
                Phrase(Head::Factor),
                Did(Mark::Binary),
                Phrase(Head::Products),
            ],
        ),
        _ => Row::Skips,
    }
}

/// Further terms.
fn sums(kind: Kind) -> Row
    ensures { row_of result ≡ spec.sums kind }
{
    match kind {
        Kind::Fixed(Fixed::Plus) | Kind::Fixed(Fixed::Minus) => takes(
            Role::Operator,
            &[Phrase(Head::Term), Did(Mark::Binary), Phrase(Head::Sums)],
        ),
        _ => Row::Skips,
    }
}

/// One of the conditions that `&&` joins, and then more symbols; `compared` is what comes behind the
/// first factor of a comparison.
fn one_then(kind: Kind, more: &'static [Rule], compared: &'static [Rule]) -> Row
    requires { compared.now ≡ want.Head h.Products ∷ want.Head h.Sums ∷ want.Head h.Compare ∷ more.now }
    ensures { row_of result ≡ with_more more.now (spec.one kind) }
{
    match kind {
        Kind::Fixed(Fixed::Exclamation) => Row::Takes(
            Role::Prefix,
            &[Phrase(Head::One), Did(Mark::Not)],
            more,
        ),
        Kind::Fixed(Fixed::True) | Kind::Fixed(Fixed::False) => Row::Takes(Role::Leaf, &[], more),
        Kind::Fixed(Fixed::OpenSquare) => Row::Takes(
            Role::Open,
            &[
                Phrase(Head::Cond),
                Wants(Kind::Fixed(Fixed::CloseSquare), Role::Close),
            ],
            more,
        ),
        Kind::Number | Kind::Name | Kind::Fixed(Fixed::Minus) | Kind::Fixed(Fixed::OpenRound) =>
            factor(kind, compared),
        _ => Row::Refuses,
    }
}

/// A condition.
fn cond(kind: Kind) -> Row
    ensures { row_of result ≡ spec.cond kind }
{
    one_then(
        kind,
        &[Phrase(Head::Ands), Phrase(Head::Ors)],
        &[
            Phrase(Head::Products),
            Phrase(Head::Sums),
            Phrase(Head::Compare),
            Phrase(Head::Ands),
            Phrase(Head::Ors),
        ],
    )
}

/// Conditions that `&&` joins.
fn both(kind: Kind) -> Row
    ensures { row_of result ≡ spec.both kind }
{
    one_then(
        kind,
        &[Phrase(Head::Ands)],
        &[
            Phrase(Head::Products),
            Phrase(Head::Sums),
            Phrase(Head::Compare),
            Phrase(Head::Ands),
        ],
    )
}

/// One of the conditions that `&&` joins.
fn one(kind: Kind) -> Row
    ensures { row_of result ≡ with_more [] (spec.one kind) }
{
    one_then(
        kind,
        &[],
        &[
            Phrase(Head::Products),
            Phrase(Head::Sums),
            Phrase(Head::Compare),
        ],
    )
}

/// A comparison behind its left side.
fn compare(kind: Kind) -> Row
    ensures { row_of result ≡ spec.compare kind }
{
    match kind {
        Kind::Fixed(Fixed::Less)
        | Kind::Fixed(Fixed::LessEqual)
        | Kind::Fixed(Fixed::EqualEqual)
        | Kind::Fixed(Fixed::NotEqual)
        | Kind::Fixed(Fixed::GreaterEqual)
        | Kind::Fixed(Fixed::Greater) => takes(
            Role::Operator,
            &[Phrase(Head::Expr), Did(Mark::Compare)],
        ),
        _ => Row::Refuses,
    }
}

/// Further conditions behind `&&`.
fn ands(kind: Kind) -> Row
    ensures { row_of result ≡ spec.ands kind }
{
    match kind {
        Kind::Fixed(Fixed::AndAnd) => takes(
            Role::Operator,
            &[Phrase(Head::One), Did(Mark::And), Phrase(Head::Ands)],
        ),
        _ => Row::Skips,
    }
}

/// Further conditions behind `||`.
fn ors(kind: Kind) -> Row
    ensures { row_of result ≡ spec.ors kind }
{
    match kind {
        Kind::Fixed(Fixed::BarBar) => takes(
            Role::Operator,
            &[Phrase(Head::Both), Did(Mark::Or), Phrase(Head::Ors)],
        ),
        _ => Row::Skips,
    }
}
