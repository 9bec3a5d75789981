//! The terminals of the grammar, and a place in a list of them.

ghost use Rattle.std.specs.Prelude.{◌≡◌, ◌≢◌, [], ◌∷◌, length, true, false, cond, MatchOption, nat_eq, IfOk, OnOk, OnErr};
ghost use Rattle.fzn_parser.specs.Reading.{separator_at};
ghost use Rattle.fzn_parser.specs.Items.{is_end};
ghost use Rattle.fzn_parser.specs.Terminals.{symbol_code, class_code, same_symbol, same_class, begins, rest, kept_at};

use fzn_lexer::Token;
use std::alloc::{AllocError, AllocFailed};
use std::marker::Model;

/// A keyword or a mark.
#[derive(Clone, Copy)]
pub enum Symbol {
    Predicate,
    Var,
    Array,
    Of,
    Set,
    Bool,
    Int,
    Float,
    Constraint,
    Solve,
    Satisfy,
    Minimize,
    Maximize,
    True,
    False,
    ParenOpen,
    ParenClose,
    BracketOpen,
    BracketClose,
    BraceOpen,
    BraceClose,
    Comma,
    Semicolon,
    Colon,
    DoubleColon,
    Equals,
    DotDot,
    /// A mark of no spelling that the grammar writes.
    Stray,
}

/// The kinds of token that an item keeps.
#[derive(Clone, Copy)]
pub enum Class {
    Name,
    Int,
    Float,
    Text,
}

/// A token as the grammar sees it: a keyword or a mark, known by its spelling, or a name or a literal.
#[derive(Clone, Copy)]
pub enum Lexeme {
    Fixed(Symbol),
    Kept(Class, Token),
}

/// The same token, copied field by field. Copied whole, the bytes between its fields go along in two steps that overlap, and
/// the next copy of them has to wait for both.
#[inline(always)]
pub fn same_token(token: Token) -> Token
    ensures { result ≡ token }
{
    Token {
        kind: token.kind,
        from: token.from,
        to: token.to,
    }
}

/// Why no value was read.
#[derive(Drop)]
pub enum Stop {
    /// The grammar takes none of these tokens here.
    Refused,
    NoMemory,
}

impl From<AllocError> for Stop {
    ghost use Rattle.std.specs.Prelude.{◌≡◌};
    ghost use Rattle.fzn_parser.specs.declared.cursor.Stop.{Stop};

    ghost from_gives = { λ _ r. r ≡ Stop.NoMemory };

    fn from(_: AllocError) -> Stop {
        Stop::NoMemory
    }
}

impl<T: Drop> From<AllocFailed<T>> for Stop {
    ghost use Rattle.std.specs.Prelude.{◌≡◌};
    ghost use Rattle.fzn_parser.specs.declared.cursor.Stop.{Stop};

    ghost from_gives = { λ _ r. r ≡ Stop.NoMemory };

    fn from(_: AllocFailed<T>) -> Stop {
        Stop::NoMemory
    }
}

impl Symbol {
    fn code(self) -> u8
        ensures { result ≡ symbol_code self }
    {
        self as u8
    }

    /// Whether both are one symbol.
    #[inline(always)]
    pub fn is_same(self, other: Symbol) -> bool
        ensures { result ≡ same_symbol self other }
    {
        self.code() == other.code()
    }
}

impl Class {
    fn code(self) -> u8
        ensures { result ≡ class_code self }
    {
        self as u8
    }

    /// Whether both are one class.
    pub fn is_same(self, other: Class) -> bool
        ensures { result ≡ same_class self other }
    {
        self.code() == other.code()
    }
}

/// Whether these lexemes begin with this keyword or mark.
#[tactic(auto, unfolding(crate::specs::Terminals::begins))]
#[inline(always)]
pub fn begins(symbol: Symbol, lexemes: &[Lexeme]) -> bool
    ensures { result ≡ begins symbol lexemes.now }
{
    match lexemes {
        [Lexeme::Fixed(first), ..] => first.is_same(symbol),
        _ => false,
    }
}

/// A place in a list of lexemes. Contracts see the lexemes that are left.
#[derive(Drop)]
pub struct Cursor<'a> {
    left: &'a [Lexeme],
}

impl<'a> Model for Cursor<'a> {
    ghost use Rattle.std.specs.Prelude.{List};
    ghost use Rattle.fzn_parser.specs.declared.cursor.Lexeme.{Lexeme};

    ghost Value = { List Lexeme };

    ghost view = { λ c. c.left.now };
}

impl<'a> Cursor<'a> {
    /// The place before all of `lexemes`.
    pub fn new(lexemes: &'a [Lexeme]) -> Cursor<'a>
        ensures { result ≡ lexemes.now }
    {
        Cursor { left: lexemes }
    }

    /// How many lexemes are left.
    pub fn len(&self) -> usize
        ensures { result ≡ length self.now }
    {
        self.left.len()
    }

    /// Whether no lexeme is left.
    pub fn is_done(&self) -> bool
        ensures { result ≡ is_end self.now }
    {
        match self.left {
            [] => true,
            [_, ..] => false,
        }
    }

    /// Whether `symbol` is next; it is then passed.
    #[tactic(auto, unfolding(crate::specs::Terminals::begins, crate::specs::Terminals::rest))]
    #[inline(always)]
    pub fn take(&mut self, symbol: Symbol) -> bool
        ensures taken { result ≡ begins symbol self.old }
        ensures passed { self.new ≡ cond result (rest self.old) self.old }
    {
        match self.left {
            [Lexeme::Fixed(first), left @ ..] if first.is_same(symbol) => {
                self.left = left;
                true
            }
            _ => false,
        }
    }

    /// The next token, where it is of `class`; it is then passed.
    #[tactic(auto, unfolding(crate::specs::Terminals::kept_at))]
    #[inline(always)]
    pub fn take_kept(&mut self, class: Class) -> Option<Token>
        ensures { MatchOption result ((kept_at class self.old ≡ None) × (self.new ≡ self.old)) (λ t. kept_at class self.old ≡ Some (t, self.new)) }
    {
        match self.left {
            [Lexeme::Kept(first, token), left @ ..] if first.is_same(class) => {
                self.left = left;
                Some(same_token(*token))
            }
            _ => None,
        }
    }
}

impl Cursor<'_> {
    /// Passes `symbol`, or refuses.
    #[inline(always)]
    pub fn expect(&mut self, symbol: Symbol) -> Result<(), Stop>
        ensures passed { OnOk result ((begins symbol self.old ≡ true) × (self.new ≡ rest self.old)) }
        ensures refused { OnErr result (begins symbol self.old ≡ false) }
        ensures memory { result ≢ Err Stop.NoMemory }
    {
        if self.take(symbol) {
            Ok(())
        } else {
            Err(Stop::Refused)
        }
    }

    /// The next token, where it is of `class`, or refuses.
    #[inline(always)]
    pub fn kept(&mut self, class: Class) -> Result<Token, Stop>
        ensures read { IfOk result (λ t. kept_at class self.old ≡ Some (t, self.new)) }
        ensures refused { OnErr result (kept_at class self.old ≡ None) }
        ensures memory { result ≢ Err Stop.NoMemory }
    {
        self.take_kept(class).ok_or(Stop::Refused)
    }

    /// Whether a comma goes on with a list that `close` ends; either is passed, and all else refused.
    #[tactic(auto, unfolding(crate::specs::Reading::separator_at))]
    #[inline(always)]
    pub fn continues(&mut self, close: Symbol) -> Result<bool, Stop>
        ensures read { IfOk result (λ b. separator_at close self.old ≡ Some (b, self.new)) }
        ensures refused { OnErr result (separator_at close self.old ≡ None) }
        ensures memory { result ≢ Err Stop.NoMemory }
    {
        if self.take(Symbol::Comma) {
            return Ok(true);
        }
        self.expect(close)?;
        Ok(false)
    }
}
