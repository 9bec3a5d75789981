//! Texts read token by token and item by item, from places that were counted by hand.

use fzn_lexer::{Kind, Token, lex, next_token};
use fzn_parser::tree::{Item, SetLit, Shape, What};
use fzn_parser::{ItemError, ParseError, Room, next_item, parse};
use std::test::Fail;

/// What comes behind a byte of a text: a token as (kind, from, to), no token, or a byte at which none begins.
struct TokenCase {
    text: &'static [u8],
    from: usize,
    answer: Result<Option<(Kind, usize, usize)>, usize>,
}

const TOKENS: &[TokenCase] = &[
    TokenCase {
        text: b"",
        from: 0,
        answer: Ok(None),
    },
    TokenCase {
        text: b" \t\r\n%x\n ab",
        from: 0,
        answer: Ok(Some((Kind::Word, 8, 10))),
    },
    TokenCase {
        text: b" \t\r\n%x\n ab",
        from: 9,
        answer: Ok(Some((Kind::Word, 9, 10))),
    },
    TokenCase {
        text: b"_a9+",
        from: 0,
        answer: Ok(Some((Kind::Word, 0, 3))),
    },
    TokenCase {
        text: b"_a9+",
        from: 2,
        answer: Ok(Some((Kind::Int, 2, 3))),
    },
    TokenCase {
        text: b"_a9+",
        from: 3,
        answer: Err(3),
    },
    TokenCase {
        text: b"1203x",
        from: 0,
        answer: Ok(Some((Kind::Int, 0, 4))),
    },
    TokenCase {
        text: b"1203x",
        from: 3,
        answer: Ok(Some((Kind::Int, 3, 4))),
    },
    TokenCase {
        text: b"12..34",
        from: 0,
        answer: Ok(Some((Kind::Int, 0, 2))),
    },
    TokenCase {
        text: b"12..34",
        from: 2,
        answer: Ok(Some((Kind::Mark, 2, 4))),
    },
    TokenCase {
        text: b"12..34",
        from: 3,
        answer: Err(3),
    },
    TokenCase {
        text: b"-1.5e3;",
        from: 0,
        answer: Ok(Some((Kind::Float, 0, 6))),
    },
    TokenCase {
        text: b"-1.5e3;",
        from: 1,
        answer: Ok(Some((Kind::Float, 1, 6))),
    },
    TokenCase {
        text: b"-1.5e3;",
        from: 3,
        answer: Ok(Some((Kind::Float, 3, 6))),
    },
    TokenCase {
        text: b"-1.5e3;",
        from: 6,
        answer: Ok(Some((Kind::Mark, 6, 7))),
    },
    TokenCase {
        text: b"-1.5e3;",
        from: 7,
        answer: Ok(None),
    },
    TokenCase {
        text: b"12e+x",
        from: 0,
        answer: Ok(Some((Kind::Int, 0, 2))),
    },
    TokenCase {
        text: b"0x1G",
        from: 0,
        answer: Ok(Some((Kind::Int, 0, 3))),
    },
    TokenCase {
        text: b"\"a %\"%b",
        from: 0,
        answer: Ok(Some((Kind::Text, 0, 5))),
    },
    TokenCase {
        text: b"\"a %\"%b",
        from: 2,
        answer: Ok(None),
    },
    TokenCase {
        text: b"\"a %\"%b",
        from: 5,
        answer: Ok(None),
    },
    TokenCase {
        text: b"x::y",
        from: 1,
        answer: Ok(Some((Kind::Mark, 1, 3))),
    },
    TokenCase {
        text: b"x::y",
        from: 2,
        answer: Ok(Some((Kind::Mark, 2, 3))),
    },
    TokenCase {
        text: b"a % b\n ^",
        from: 1,
        answer: Err(7),
    },
    TokenCase {
        text: b"a % b\n ^",
        from: 8,
        answer: Ok(None),
    },
    TokenCase {
        text: b"0..9",
        from: 0,
        answer: Ok(Some((Kind::Int, 0, 1))),
    },
    TokenCase {
        text: b"0",
        from: 0,
        answer: Ok(Some((Kind::Int, 0, 1))),
    },
    TokenCase {
        text: b"0.x",
        from: 0,
        answer: Ok(Some((Kind::Int, 0, 1))),
    },
    TokenCase {
        text: b"0.5",
        from: 0,
        answer: Ok(Some((Kind::Float, 0, 3))),
    },
    TokenCase {
        text: b"00x1",
        from: 0,
        answer: Ok(Some((Kind::Int, 0, 2))),
    },
    TokenCase {
        text: b"0o178",
        from: 0,
        answer: Ok(Some((Kind::Int, 0, 4))),
    },
    TokenCase {
        text: b"0o8",
        from: 0,
        answer: Ok(Some((Kind::Int, 0, 1))),
    },
    TokenCase {
        text: b"7.",
        from: 0,
        answer: Ok(Some((Kind::Int, 0, 1))),
    },
    TokenCase {
        text: b"7.",
        from: 1,
        answer: Err(1),
    },
    TokenCase {
        text: b":",
        from: 0,
        answer: Ok(Some((Kind::Mark, 0, 1))),
    },
    TokenCase {
        text: b". .",
        from: 0,
        answer: Err(0),
    },
];

#[test]
fn the_next_token_is_this(rt: HostRuntime) -> Result<(), Fail> {
    for case in TOKENS {
        assert!(rt; case.from <= case.text.len());
        match (next_token(case.text, case.from), case.answer) {
            (Ok(Some(token)), Ok(Some((kind, from, to)))) => {
                assert_eq!(rt; token.kind, kind);
                assert_eq!(rt; token.from, from);
                assert_eq!(rt; token.to, to);
            }
            (Ok(None), Ok(None)) => {}
            (Err(none), Err(at)) => assert_eq!(rt; none.at, at),
            _ => assert!(rt; false),
        }
    }
    Ok(())
}

/// What is read behind a byte of a text.
#[derive(Clone, Copy, Debug, PartialEq, Eq)]
enum Next {
    /// An item that begins at the first place, and the place behind it.
    Item(usize, usize),
    /// No token is left.
    End,
    /// The tokens from the first place to the second are no item.
    NoItem(usize, usize),
    /// No token begins there.
    NoToken(usize),
    NoMemory,
}

/// A text, a place in it, and what is read behind it.
type ItemCase = (&'static str, usize, Next);

/// The words of these texts are separated by blanks.
const ITEMS: &[ItemCase] = &[
    ("", 0, Next::End),
    (" % only ; ", 0, Next::End),
    ("var int : x ; solve satisfy ; ", 0, Next::Item(0, 13)),
    ("var int : x ; solve satisfy ; ", 13, Next::Item(14, 29)),
    ("var int : x ; solve satisfy ; ", 29, Next::End),
    ("var int : x ; ^", 0, Next::Item(0, 13)),
    ("var int : x ; ^", 13, Next::NoToken(14)),
    ("var int : x ; var ; x ; ", 13, Next::NoItem(14, 19)),
    ("var int : x ; var ; x ; ", 19, Next::NoItem(20, 23)),
    ("var int : x ; solve", 13, Next::NoItem(14, 19)),
    ("var int : x ; predicate p (", 13, Next::NoItem(14, 27)),
    ("var int : x ; predicate p ( ; ", 13, Next::Item(14, 29)),
    ("var int ^ : x ; ", 0, Next::NoToken(8)),
    (
        "constraint c ( [ 1 , x ] , { } ) :: d ( \"t\" ) ; ; ",
        0,
        Next::Item(0, 47),
    ),
    (
        "constraint c ( [ 1 , x ] , { } ) :: d ( \"t\" ) ; ; ",
        48,
        Next::NoItem(48, 49),
    ),
    (
        "array [ 1 .. 1 ] of int : a = [ 1 ] ; ",
        0,
        Next::Item(0, 37),
    ),
    (
        "array [ 1 .. 1 ] of int : a = [ 1 ] ; ",
        7,
        Next::NoItem(8, 37),
    ),
];

#[test]
fn the_next_item_is_this(rt: HostRuntime) -> Result<(), Fail> {
    // One room serves all texts, those behind a fault too.
    let mut room = Room::new(rt.alloc());
    for (text, from, expected) in ITEMS {
        assert!(rt; *from <= text.len());
        let next = match next_item(rt.alloc(), text.as_bytes(), *from, &mut room) {
            Ok(Some(read)) => Next::Item(read.0.from, read.1),
            Ok(None) => Next::End,
            Err(ItemError::NoItem { at, to }) => Next::NoItem(at, to),
            Err(ItemError::NoToken { at }) => Next::NoToken(at),
            Err(ItemError::NoMemory) => Next::NoMemory,
        };
        assert_eq!(rt; next, *expected);
    }
    Ok(())
}

/// Declarations in the form that most have, forms next to it, and such as are no items.
const DECLARATIONS: &[&str] = &[
    "var 1..20: x;",
    "\nvar 1 ..\t20 : x ;",
    "%a\nvar%b\n1%c\n..%d\n2%e\n:%f\nx%g\n;",
    "var -1..2: x;",
    "var 1..-2: x;",
    "var 0x1..2: x;",
    "var 1..2: x :: output_var;",
    "var 1..2: x = 1;",
    "var 1..2: vary;",
    "var {1, 2}: x;",
    "var 1..2: x",
    "var 1..2: var;",
    "vary 1..2: x;",
];

/// The place of an item, with the bounds, the name, the number of annotations and whether there is a value, where it declares a
/// variable by a range.
fn declared(item: &Item) -> (usize, Option<(Token, Token, Token, usize, bool)>) {
    match &item.what {
        What::Scalar {
            shape: Shape::VarIn(SetLit::Range(low, high)),
            name,
            anns,
            value,
        } => (
            item.from,
            Some((*low, *high, *name, anns.len(), value.is_some())),
        ),
        _ => (item.from, None),
    }
}

#[test]
fn declarations_are_read_as_by_parse(rt: HostRuntime) -> Result<(), Fail> {
    let mut room = Room::new(rt.alloc());
    for text in DECLARATIONS {
        let bytes = text.as_bytes();
        let tokens = lex(rt.alloc(), bytes)?;
        let whole = parse(rt.alloc(), bytes, tokens.as_slice());
        match (next_item(rt.alloc(), bytes, 0, &mut room), whole) {
            (Ok(Some(read)), Ok(items)) => {
                assert_eq!(rt; items.len(), 1);
                assert_eq!(rt; declared(&read.0), declared(&items[0]));
                assert_eq!(rt; read.1, text.len());
            }
            (Err(ItemError::NoItem { at, .. }), Err(ParseError::Syntax { at: fault })) => {
                assert_eq!(rt; at, fault);
            }
            _ => assert!(rt; false, "{text}"),
        }
    }
    Ok(())
}
