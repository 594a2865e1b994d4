use super::{is_ended, parse};
use hc_frac::Place;
use hc_grammar::Stop;
use hc_small_grammar::{Flaw, Kind, Token};
use std::alloc::{AllocError, Global};
use std::test::Fail;

/// A token as its kind and the number of its name; it begins at the column of its number in the row.
type Word = (Kind, u32);

/// Tokens that are accepted, with what they use: the last name first, 0 for brackets and for a value that isn't said.
const ACCEPTED: [(&[Word], &[u32]); 4] = [
    (&[(Kind::End, 0)], &[]),
    // let 7; let 8 = (7); drop 8;
    (
        &[
            (Kind::Let, 0),
            (Kind::Name, 7),
            (Kind::Semicolon, 0),
            (Kind::Let, 0),
            (Kind::Name, 8),
            (Kind::Equal, 0),
            (Kind::OpenRound, 0),
            (Kind::Name, 7),
            (Kind::CloseRound, 0),
            (Kind::Semicolon, 0),
            (Kind::Drop, 0),
            (Kind::Name, 8),
            (Kind::Semicolon, 0),
            (Kind::End, 0),
        ],
        &[8, 0, 7, 0],
    ),
    // use it; drop it;
    (
        &[
            (Kind::Use, 0),
            (Kind::It, 5),
            (Kind::Semicolon, 0),
            (Kind::Drop, 0),
            (Kind::It, 6),
            (Kind::Semicolon, 0),
            (Kind::End, 0),
        ],
        &[6, 5],
    ),
    // let 7 = 7;
    (
        &[
            (Kind::Let, 0),
            (Kind::Name, 7),
            (Kind::Equal, 0),
            (Kind::Name, 7),
            (Kind::Semicolon, 0),
            (Kind::End, 0),
        ],
        &[7],
    ),
];

/// Tokens that are refused, with the reason and the column.
const REFUSED: [(&[Word], Flaw, u32); 9] = [
    // use 7;  but 7 isn't declared
    (
        &[
            (Kind::Use, 0),
            (Kind::Name, 7),
            (Kind::Semicolon, 0),
            (Kind::End, 0),
        ],
        Flaw::Names,
        2,
    ),
    // let 8 = 7; let 7;  where 7 is declared too late
    (
        &[
            (Kind::Let, 0),
            (Kind::Name, 8),
            (Kind::Equal, 0),
            (Kind::Name, 7),
            (Kind::Semicolon, 0),
            (Kind::Let, 0),
            (Kind::Name, 7),
            (Kind::Semicolon, 0),
            (Kind::End, 0),
        ],
        Flaw::Names,
        4,
    ),
    // drop (it);
    (
        &[
            (Kind::Drop, 0),
            (Kind::OpenRound, 0),
            (Kind::It, 0),
            (Kind::End, 0),
        ],
        Flaw::Syntax,
        2,
    ),
    // let it;
    (
        &[(Kind::Let, 0), (Kind::It, 0), (Kind::End, 0)],
        Flaw::Syntax,
        2,
    ),
    // let 7
    (
        &[(Kind::Let, 0), (Kind::Name, 7), (Kind::End, 0)],
        Flaw::Syntax,
        3,
    ),
    // use ((((
    (
        &[
            (Kind::Use, 0),
            (Kind::OpenRound, 0),
            (Kind::OpenRound, 0),
            (Kind::OpenRound, 0),
            (Kind::OpenRound, 0),
            (Kind::End, 0),
        ],
        Flaw::TooDeep,
        5,
    ),
    // use it; and a word that is too long where no text goes on with it
    (
        &[
            (Kind::Use, 0),
            (Kind::It, 0),
            (Kind::Semicolon, 0),
            (Kind::LongWord, 0),
            (Kind::End, 0),
        ],
        Flaw::TooLong,
        4,
    ),
    // use it use 7: the first thing that is wrong counts
    (
        &[
            (Kind::Use, 0),
            (Kind::It, 0),
            (Kind::Use, 0),
            (Kind::Name, 7),
            (Kind::End, 0),
        ],
        Flaw::Syntax,
        3,
    ),
    (&[(Kind::Other, 0), (Kind::End, 0)], Flaw::Syntax, 1),
];

/// The tokens of a row, each at the column of its number.
fn tokens_of(alloc: Global, row: &[Word]) -> Result<Vec<Token>, AllocError> {
    let mut tokens = Vec::new(alloc);
    let mut column: u32 = 0;
    for (kind, name) in row {
        column = column.saturating_add(1);
        tokens.push(Token {
            place: Place { line: 1, column },
            kind: *kind,
            name: *name,
        })?;
    }
    Ok(tokens)
}

#[test]
fn reads_tokens(rt: HostRuntime) -> Result<(), Fail> {
    for (row, used) in &ACCEPTED {
        let tokens = tokens_of(rt.alloc(), row)?;
        if !is_ended(&tokens) {
            return Err("a row has no end".into());
        }
        let Ok(names) = parse(rt.alloc(), &tokens) else {
            return Err("a text is refused".into());
        };
        let mut left = names.into_used();
        for name in *used {
            assert_eq!(rt; left.pop(), Some(*name));
        }
        assert!(rt; left.is_empty());
    }
    Ok(())
}

#[test]
fn refuses_tokens(rt: HostRuntime) -> Result<(), Fail> {
    for (row, wanted, column) in &REFUSED {
        let tokens = tokens_of(rt.alloc(), row)?;
        if !is_ended(&tokens) {
            return Err("a row has no end".into());
        }
        let Err(Stop::Refused { flaw, place }) = parse(rt.alloc(), &tokens) else {
            return Err("a text isn't refused".into());
        };
        assert_eq!(rt; flaw, *wanted);
        assert_eq!(rt; place.column, *column);
    }
    Ok(())
}
