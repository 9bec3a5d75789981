//! Small texts whose words are separated by blanks, so that places can be counted. What is expected was worked out by hand
//! from the grammar.

use fzn_lexer::{Token, lex};
use fzn_parser::tree::{Aim, Elem, Expr, Item, SetLit, What};
use fzn_parser::{ParseError, parse};
use std::alloc::{AllocError, Global};
use std::test::Fail;

/// The items of a text that has tokens, or the place of its fault.
fn items_of(alloc: Global, text: &[u8]) -> Result<Result<Vec<Item>, usize>, AllocError> {
    let Ok(tokens) = lex(alloc, text) else {
        return Err(AllocError);
    };
    match parse(alloc, text, tokens.as_slice()) {
        Ok(items) => Ok(Ok(items)),
        Err(ParseError::Syntax { at }) => Ok(Err(at)),
        Err(ParseError::NoMemory) => Err(AllocError),
    }
}

/// How many items the text has, or the place of its fault.
fn outcome(alloc: Global, text: &str) -> Result<Result<usize, usize>, AllocError> {
    match items_of(alloc, text.as_bytes())? {
        Ok(items) => Ok(Ok(items.len())),
        Err(at) => Ok(Err(at)),
    }
}

/// Texts that the grammar writes, with how many items each has.
const TAKEN: &[(&str, usize)] = &[
    ("", 0),
    // predicate
    ("predicate ; ", 1),
    (
        "predicate p ( var int : x , ] } ) : : satisfy = 1.5 \"t\" ; ",
        1,
    ),
    // a parameter of each type, with an expression of each kind
    ("bool : b = true ; bool : c = false ; ", 2),
    ("int : i = 3 ; int : j = i ; ", 2),
    ("float : f = 1.5 ; float : g = f ; ", 2),
    (
        "set of int : s = { } ; set of int : t = 1 .. 3 ; set of int : u = { 3 , 1 , 3 } ; ",
        3,
    ),
    ("int : i = [ ] ; ", 1),
    // a variable of each type, without a value and with one
    ("var bool : b ; var bool : c = b ; ", 2),
    ("var int : i ; var int : j :: is_defined_var = 3 ; ", 2),
    ("var float : f ; var float : g = 1.5 ; ", 2),
    ("var 1 .. 9 : i ; var { } : j ; var { 1 , 3 } : k = 3 ; ", 3),
    ("var 1.5 .. 2.5 : f ; ", 1),
    (
        "var set of int : s ; var set of 1 .. 3 : t ; var set of { 1 , 3 } : u = { 1 } ; ",
        3,
    ),
    // arrays
    ("array [ 1 .. 0 ] of int : a = [ ] ; ", 1),
    (
        "array [ 1 .. 2 ] of var int : a :: x ( [ 1 .. 2 ] ) :: y = [ x , 2 ] ; ",
        1,
    ),
    (
        "array [ 1 .. 2 ] of var set of 1 .. 3 : a = [ { } , s ] ; array [ 1 .. 1 ] of bool : b = c ; ",
        2,
    ),
    // constraints
    ("constraint c ( ) ; ", 1),
    (
        "constraint c ( [ ] , { } , 1 .. 2 , { 1 , 2 } , true , false , 1 , 1.5 , x ) ; ",
        1,
    ),
    (
        "constraint c ( [ true , 1 , 1.5 , x , 1 .. 2 , { } ] , [ y ] ) :: d :: e ; ",
        1,
    ),
    // solve
    ("solve satisfy ; ", 1),
    (
        "solve :: s ( a , b ) :: t minimize x ; solve maximize 3 ; solve minimize [ x ] ; ",
        3,
    ),
    // annotations and their arguments, nested
    (
        "constraint c ( ) :: d ( ) :: e ( [ ] ) :: f ( g ( ) , h ) ; ",
        1,
    ),
    (
        "solve :: a ( true , false , 1 , 1.5 , \"t\" , 1 .. 2 , { } , { 3 , 1 } , n ) satisfy ; ",
        1,
    ),
    (
        "solve :: a ( [ b ( [ c ( d , [ ] ) , [ [ \"t\" ] ] ] ) , e ] , f ( g ) ) satisfy ; ",
        1,
    ),
];

#[test]
fn each_production_is_taken(rt: HostRuntime) -> Result<(), Fail> {
    for (text, items) in TAKEN {
        assert_eq!(rt; outcome(rt.alloc(), text)?, Ok(*items), "at {text}");
    }
    Ok(())
}

/// Texts that it does not write, with the place of the stretch that is refused.
const REFUSED: &[(&str, usize)] = &[
    // stretches: the third of five, the end inside an item, no semicolon before `solve`
    (
        "var int : a ; var int : b ; var int ; var : d ; solve satisfy ; ",
        28,
    ),
    ("solve satisfy ; var int : x = ", 16),
    ("solve satisfy ; predicate p ( ", 16),
    ("var int : y ; var int : x solve satisfy ; ", 14),
    ("; ", 0),
    ("solve satisfy ; ; ", 16),
    // a parameter and an array have a value
    ("int : x ; ", 0),
    ("array [ 1 .. 2 ] of var int : a ; ", 0),
    ("var int : x = ; ", 0),
    // types
    ("set of bool : s = { } ; ", 0),
    ("1 .. 3 : i = 1 ; ", 0),
    ("var 1.5 .. 2 : f ; ", 0),
    ("var set of bool : s ; ", 0),
    ("array [ x .. 2 ] of int : a = [ ] ; ", 0),
    ("array [ int ] of int : a = [ ] ; ", 0),
    // keywords are no names
    ("var int : var ; ", 0),
    ("constraint solve ( ) ; ", 0),
    ("solve :: satisfy satisfy ; ", 0),
    // expressions
    ("constraint c ( [ [ 1 ] ] ) ; ", 0),
    ("constraint c ( \"t\" ) ; ", 0),
    ("constraint c ( { x } ) ; ", 0),
    ("constraint c ( x .. 2 ) ; ", 0),
    // lists
    ("constraint c ( { 1 , } ) ; ", 0),
    ("constraint c ( x , ) ; ", 0),
    ("constraint c ( [ x , ] ) ; ", 0),
    ("constraint c ( , x ) ; ", 0),
    ("constraint c ( x y ) ; ", 0),
    ("solve :: a ( b , ) satisfy ; ", 0),
    // solve and annotations
    ("solve ; ", 0),
    ("solve minimize ; ", 0),
    ("solve satisfy x ; ", 0),
    ("constraint c ; ", 0),
    ("constraint c ( ) : : d ; ", 0),
    ("constraint c ( ) :: d ( ) ( ) ; ", 0),
    ("constraint c ( ) :: \"t\" ; ", 0),
];

#[test]
fn what_the_grammar_does_not_write_is_refused_at_its_stretch(rt: HostRuntime) -> Result<(), Fail> {
    for (text, at) in REFUSED {
        assert_eq!(rt; outcome(rt.alloc(), text)?, Err(*at), "at {text}");
    }
    Ok(())
}

/// The words around and inside some pairs of brackets, with how many pairs there are, and whether the text is an item.
#[derive(Clone, Copy)]
struct Nest {
    before: &'static str,
    opening: &'static str,
    middle: &'static str,
    closing: &'static str,
    after: &'static str,
    depth: usize,
    answer: Result<usize, usize>,
}

const PARENS: Nest = Nest {
    before: "solve :: a ",
    opening: "( a ",
    middle: "",
    closing: ") ",
    after: "satisfy ; ",
    depth: 64,
    answer: Ok(1),
};

/// One more bracket is around these, and the innermost hold braces, which don't count.
const BRACES: Nest = Nest {
    before: "solve :: a ( ",
    opening: "[ ",
    middle: "{ 1 } ",
    closing: "] ",
    after: ") satisfy ; ",
    depth: 63,
    answer: Ok(1),
};

/// Here the innermost hold nothing.
const EMPTY: Nest = Nest {
    middle: "",
    ..BRACES
};

/// Brackets side by side are free.
const SIDE_BY_SIDE: Nest = Nest {
    before: "solve ",
    opening: ":: a ( ) ",
    middle: "",
    closing: "",
    after: "satisfy ; ",
    depth: 70,
    answer: Ok(1),
};

/// And so are those of a predicate.
const PREDICATE: Nest = Nest {
    before: "predicate p ",
    opening: "( [ ",
    middle: "",
    closing: "] ) ",
    after: "; ",
    depth: 70,
    answer: Ok(1),
};

const NESTS: &[Nest] = &[
    PARENS,
    Nest {
        depth: 65,
        answer: Err(0),
        ..PARENS
    },
    BRACES,
    EMPTY,
    Nest {
        depth: 64,
        answer: Err(0),
        ..EMPTY
    },
    SIDE_BY_SIDE,
    PREDICATE,
];

/// Adds a word so many times.
fn push_times(text: &mut String, word: &str, times: usize) -> Result<(), AllocError> {
    for _ in 0..times {
        text.push_str(word)?;
    }
    Ok(())
}

/// The text with its brackets.
fn nested(alloc: Global, nest: &Nest) -> Result<String, AllocError> {
    let mut text = String::from_str(alloc, nest.before)?;
    push_times(&mut text, nest.opening, nest.depth)?;
    text.push_str(nest.middle)?;
    push_times(&mut text, nest.closing, nest.depth)?;
    text.push_str(nest.after)?;
    Ok(text)
}

/// How many items the text with its brackets has, or the place of its fault.
fn nested_outcome(alloc: Global, nest: &Nest) -> Result<Result<usize, usize>, AllocError> {
    let text = nested(alloc, nest)?;
    outcome(alloc, text.as_str())
}

#[test]
fn sixty_four_brackets_are_taken_and_one_more_is_not(rt: HostRuntime) -> Result<(), Fail> {
    for nest in NESTS {
        let outcome = nested_outcome(rt.alloc(), nest)?;
        assert_eq!(rt; outcome, nest.answer, "at {} {}", nest.before, nest.depth);
    }
    Ok(())
}

/// Adds the first bytes of what an expression keeps, entry by entry.
fn push_places(found: &mut Vec<usize>, expr: &Expr) -> Result<(), AllocError> {
    let entries = match expr {
        Expr::One(_) => &[],
        Expr::Row(entries) => entries.as_slice(),
    };
    for entry in entries {
        push_elem(found, entry)?;
    }
    Ok(())
}

/// Adds the first bytes of what an entry keeps.
fn push_elem(found: &mut Vec<usize>, entry: &Elem) -> Result<(), AllocError> {
    match entry {
        Elem::True | Elem::False => found.push(0)?,
        Elem::Int(token) | Elem::Float(token) | Elem::Name(token) => found.push(token.from)?,
        Elem::Set(set) => match set.literal() {
            SetLit::Range(low, high) => found.extend_from_slice(&[low.from, high.from])?,
            SetLit::Braces(_) => found.push(1)?,
        },
    }
    Ok(())
}

/// Adds the first bytes of tokens.
fn push_tokens(found: &mut Vec<usize>, tokens: &[Token]) -> Result<(), AllocError> {
    for token in tokens {
        found.push(token.from)?;
    }
    Ok(())
}

/// Adds the first bytes of an item and of what it keeps.
fn push_item(found: &mut Vec<usize>, item: &Item) -> Result<(), AllocError> {
    found.push(item.from)?;
    match &item.what {
        What::Predicate(kept) => push_tokens(found, kept.as_slice()),
        What::Solve {
            aim: Aim::Maximize(objective),
            ..
        } => push_places(found, objective),
        _ => Err(AllocError),
    }
}

/// The first bytes of the items of a text and of what they keep, with 1000 behind each item.
fn places_of(alloc: Global, text: &str) -> Result<Vec<usize>, AllocError> {
    let mut found = Vec::new(alloc);
    if let Ok(items) = items_of(alloc, text.as_bytes())? {
        for item in &items {
            push_item(&mut found, item)?;
            found.push(1000)?;
        }
    }
    Ok(found)
}

#[test]
fn what_an_item_keeps_stands_in_its_place(rt: HostRuntime) -> Result<(), Fail> {
    let text = "predicate p ; solve maximize [ x , 1 .. 3 , true , 2.5 ] ; ";
    let found = places_of(rt.alloc(), text)?;
    let expected = [0, 10, 1000, 14, 31, 35, 40, 0, 51, 1000];
    assert_eq!(rt; found.as_slice(), expected.as_slice());
    Ok(())
}
