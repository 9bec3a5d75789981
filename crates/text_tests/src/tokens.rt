//! Texts with their tokens, worked out by hand.

use fzn_lexer::{Kind, LexError, lex};
use std::test::Fail;

/// A text with its tokens as (kind, from, to), or with the place of its fault.
struct Case {
    text: &'static [u8],
    answer: Result<&'static [(Kind, usize, usize)], usize>,
}

const CASES: &[Case] = &[
    Case {
        text: b"",
        answer: Ok(&[]),
    },
    Case {
        text: b"1..5",
        answer: Ok(&[(Kind::Int, 0, 1), (Kind::Mark, 1, 3), (Kind::Int, 3, 4)]),
    },
    Case {
        text: b"1.5",
        answer: Ok(&[(Kind::Float, 0, 3)]),
    },
    Case {
        text: b"0x",
        answer: Ok(&[(Kind::Int, 0, 1), (Kind::Word, 1, 2)]),
    },
    Case {
        text: b"-",
        answer: Err(0),
    },
    Case {
        text: b".",
        answer: Err(0),
    },
    Case {
        text: b"1...2",
        answer: Err(3),
    },
    Case {
        text: b"1.",
        answer: Err(1),
    },
    Case {
        text: b"5-3",
        answer: Ok(&[(Kind::Int, 0, 1), (Kind::Int, 1, 3)]),
    },
    Case {
        text: b"1e",
        answer: Ok(&[(Kind::Int, 0, 1), (Kind::Word, 1, 2)]),
    },
    Case {
        text: b"1e+5",
        answer: Ok(&[(Kind::Float, 0, 4)]),
    },
    Case {
        text: b"1e+",
        answer: Err(2),
    },
    Case {
        text: b"-2.5E-10",
        answer: Ok(&[(Kind::Float, 0, 8)]),
    },
    Case {
        text: b"-0x1F",
        answer: Ok(&[(Kind::Int, 0, 5)]),
    },
    Case {
        text: b"0o8",
        answer: Ok(&[(Kind::Int, 0, 1), (Kind::Word, 1, 3)]),
    },
    Case {
        text: b"0o17",
        answer: Ok(&[(Kind::Int, 0, 4)]),
    },
    Case {
        text: b"\"a\\\"b\"",
        answer: Ok(&[(Kind::Text, 0, 6)]),
    },
    Case {
        text: b"\"\\\\\"",
        answer: Ok(&[(Kind::Text, 0, 4)]),
    },
    Case {
        text: b"\"\\(x\"",
        answer: Ok(&[(Kind::Text, 0, 5)]),
    },
    Case {
        text: b"\"ab\n\"",
        answer: Err(0),
    },
    Case {
        text: b"x \"ab\\\n\"",
        answer: Err(2),
    },
    Case {
        text: b"\"ab\\",
        answer: Err(0),
    },
    Case {
        text: b"a\x0Cb",
        answer: Err(1),
    },
    Case {
        text: b"% \xC3\xA9\n\"\xFF\"",
        answer: Ok(&[(Kind::Text, 5, 8)]),
    },
    Case {
        text: b"x\xC3",
        answer: Err(1),
    },
    Case {
        text: b":::",
        answer: Ok(&[(Kind::Mark, 0, 2), (Kind::Mark, 2, 3)]),
    },
    Case {
        text: b"%a\r\nb",
        answer: Ok(&[(Kind::Word, 4, 5)]),
    },
];

#[test]
fn texts_have_these_tokens(rt: HostRuntime) -> Result<(), Fail> {
    for case in CASES {
        match (lex(rt.alloc(), case.text), case.answer) {
            (Ok(tokens), Ok(expected)) => {
                assert_eq!(rt; tokens.len(), expected.len());
                for (token, (kind, from, to)) in tokens.iter().zip(expected) {
                    assert_eq!(rt; token.kind, *kind);
                    assert_eq!(rt; token.from, *from);
                    assert_eq!(rt; token.to, *to);
                }
            }
            (Err(LexError::Lex { at }), Err(expected)) => assert_eq!(rt; at, expected),
            _ => assert!(rt; false),
        }
    }
    Ok(())
}
