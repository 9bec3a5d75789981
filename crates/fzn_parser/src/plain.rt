//! The items that most are, `var LOW..HIGH: NAME;` and `constraint NAME(ARGUMENT, ..);`, with or without annotations: read as
//! their tokens are found. Only annotations are gathered as a list of lexemes. An item in another form, as one with a value, a bound
//! below 0, a set in braces or a string, is refused here, and its list is read from the start.

ghost use Rattle.std.specs.Prelude.{◌≡◌, ◌≤◌, List, [], ◌∷◌, ◌++◌, false, true, length, map, None, Some, IfOk};
ghost use Rattle.fzn_lexer.specs.Lexing.{IsNext};
ghost use Rattle.fzn_parser.specs.declared.cursor.Class.{Class as Group};
ghost use Rattle.fzn_parser.specs.declared.cursor.Lexeme.{Lexeme as Sort};
ghost use Rattle.fzn_parser.specs.declared.cursor.Symbol.{Symbol as Sign};
ghost use Rattle.fzn_parser.specs.declared.tree.SetLit.{SetLit as Set};
ghost use Rattle.fzn_parser.specs.declared.tree.Shape.{Shape as Typed};
ghost use Rattle.fzn_parser.specs.Texts.{is_symbol, lexeme_of};
ghost use Rattle.fzn_parser.specs.Grammar.{separated, print_elem, print_expr};
ghost use Rattle.fzn_parser.specs.Items.{scalar_item, constraint_item};
ghost use Rattle.fzn_parser.specs.Notes.{ann_tree};
ghost use Rattle.fzn_parser.specs.Parsing.{item_tree, placed_at};
ghost use Rattle.fzn_parser.specs.Stream.{IsNextItem};
ghost use Rattle.fzn_parser.specs.Plain.{AreLexemes, AreNotes};

use crate::MAX_DEPTH;
use crate::cursor::{Class, Cursor, Lexeme, Stop, Symbol, same_token};
use crate::notes::read_notes;
use crate::stream::{ItemError, gather};
use crate::texts::{is_plain_name, keyword, lexeme_of, plain_mark, spelling};
use crate::tree::{Ann, Elem, Expr, Item, SetApart, SetLit, Shape, What};
use fzn_lexer::{Kind, Token, law_tokens_in_turn, next_plain, next_token};
use list_of::ListOf;
use std::alloc::Global;

/// The forms of items that are read so.
#[derive(Clone, Copy)]
pub(crate) enum Form {
    /// `var LOW..HIGH: NAME;`
    Variable,
    /// `constraint NAME(ARGUMENT, ..);`
    Constraint,
    /// Any other.
    Other,
}

/// The form that an item behind the byte `from` may have. It is told by one of three bytes, since most items begin a line: so items
/// of other forms cost little more.
#[inline(always)]
pub(crate) fn form_behind(text: &[u8], from: usize) -> Form
    requires { from ≤ length text.now }
{
    match &text[from..] {
        [b'v', ..] | [_, b'v', ..] | [_, _, b'v', ..] => Form::Variable,
        [b'c', ..] | [_, b'c', ..] | [_, _, b'c', ..] => Form::Constraint,
        _ => Form::Other,
    }
}

/// The declaration of a variable behind the byte `from`, with the place behind its tokens, where it is in this form.
#[inline(never)]
pub(crate) fn plain_declaration(
    alloc: Global,
    text: &[u8],
    from: usize,
    lexemes: &mut Vec<Lexeme>,
) -> Result<(Item, usize), Stop>
    requires { from ≤ length text.now }
    ensures { IfOk result (λ p. IsNextItem text.now from (Some p)) }
{
    law_tokens_in_turn();
    let var = word_var(text, from)?;
    let low = integer(text, var.to)?;
    let dots = range_mark(text, low.to)?;
    let high = integer(text, dots.to)?;
    let colon = mark(Symbol::Colon, text, high.to)?;
    let name = name_behind(text, colon.to)?;
    if let Ok(end) = mark(Symbol::Semicolon, text, name.to) {
        let item = declaration(var.from, low, high, name, Vec::new(alloc));
        return Ok((item, end.to));
    }
    let (anns, to) = notes_behind(alloc, text, name.to, lexemes)?;
    Ok((declaration(var.from, low, high, name, anns), to))
}

/// The item of such a declaration.
#[inline(always)]
fn declaration(from: usize, low: Token, high: Token, name: Token, anns: Vec<Ann>) -> Item
    ensures { item_tree result ≡ placed_at from (scalar_item (Typed.VarIn (Set.Range low high)) name (map ann_tree anns.items) None) }
{
    Item {
        from,
        what: What::Scalar {
            shape: Shape::VarIn(SetLit::Range(low, high)),
            name,
            anns,
            value: None,
        },
    }
}

/// The constraint behind the byte `from`, with the place behind its tokens, where it is in this form.
#[inline(never)]
pub(crate) fn plain_constraint(
    alloc: Global,
    text: &[u8],
    from: usize,
    lexemes: &mut Vec<Lexeme>,
) -> Result<(Item, usize), Stop>
    requires { from ≤ length text.now }
    ensures { IfOk result (λ p. IsNextItem text.now from (Some p)) }
{
    law_tokens_in_turn();
    let word = word_constraint(text, from)?;
    let name = name_behind(text, word.to)?;
    let bracket = mark(Symbol::ParenOpen, text, name.to)?;
    let (args, at) = plain_list::<Expr>(alloc, text, bracket.to)?;
    if let Ok(end) = mark(Symbol::Semicolon, text, at) {
        let item = constraint(word.from, name, args, Vec::new(alloc));
        return Ok((item, end.to));
    }
    let (anns, to) = notes_behind(alloc, text, at, lexemes)?;
    Ok((constraint(word.from, name, args, anns), to))
}

/// The item of such a constraint.
#[inline(always)]
fn constraint(from: usize, name: Token, args: ListOf<Expr>, anns: Vec<Ann>) -> Item
    ensures { item_tree result ≡ placed_at from (constraint_item name args (map ann_tree anns.items)) }
{
    Item {
        from,
        what: What::Constraint { name, args, anns },
    }
}

/// The annotations behind the byte `from`, with the place behind the semicolon that ends them. They are read by the list of their
/// lexemes, which isn't gathered where a value comes first.
#[inline(never)]
fn notes_behind(
    alloc: Global,
    text: &[u8],
    from: usize,
    lexemes: &mut Vec<Lexeme>,
) -> Result<(Vec<Ann>, usize), Stop>
    requires { from ≤ length text.now }
    ensures { IfOk result (λ p. AreNotes text.now from p.1 (map ann_tree p.0.items)) }
{
    if mark(Symbol::Equals, text, from).is_ok() {
        return Err(Stop::Refused);
    }
    let stretch = match gather(text, from, lexemes) {
        Ok(stretch) => stretch,
        Err(ItemError::NoMemory) => return Err(Stop::NoMemory),
        Err(_) => return Err(Stop::Refused),
    };
    let mut cursor = Cursor::new(lexemes.as_slice());
    let notes = read_notes(alloc, &mut cursor, MAX_DEPTH)?;
    cursor.expect(Symbol::Semicolon)?;
    if cursor.is_done() {
        return Ok((notes, stretch.to));
    }
    Err(Stop::Refused)
}

/// What a list of these forms may have as its entries.
pub(crate) trait PlainEntry: Sized + Drop {
    // the lexemes of an entry
    ghost print: { Self → List Sort };

    // the bracket that closes such a list
    ghost close: { Sign };

    /// The bracket that closes such a list.
    fn close() -> Symbol
        ensures is { result ≡ close }
        ensures goes_on { is_symbol Sign.Semicolon (Sort.Fixed close) ≡ false };

    /// The entry behind the byte `from`, with the place behind it.
    fn read_plain(alloc: Global, text: &[u8], from: usize) -> Result<(Self, usize), Stop>
        requires { from ≤ length text.now }
        ensures { IfOk result (λ p. AreLexemes text.now from p.1 (print p.0)) };
}

/// Whether a closing bracket stands at this byte, as where a list has no entries. Most lists are told from such by it.
#[inline(always)]
fn closes_at(text: &[u8], at: usize) -> bool {
    at < text.len() && matches!(text[at], b')' | b']')
}

/// The entries of a list behind its opening bracket, with the place behind the closing one.
#[inline(always)]
fn plain_list<E: PlainEntry>(
    alloc: Global,
    text: &[u8],
    from: usize,
) -> Result<(ListOf<E>, usize), Stop>
    requires { from ≤ length text.now }
    ensures { IfOk result (λ p. AreLexemes text.now from p.1 (separated E.print p.0 ++ Sort.Fixed E.close ∷ [])) }
{
    law_tokens_in_turn();
    let mut list = ListOf::new(alloc);
    if closes_at(text, from) {
        let end = mark(E::close(), text, from)?;
        return Ok((list, end.to));
    }
    let mut at = from;
    while at < text.len() {
        let (entry, to) = E::read_plain(alloc, text, at)?;
        list.push(entry)?;
        match mark(Symbol::Comma, text, to) {
            Ok(comma) => at = comma.to,
            // A mark takes no memory.
            Err(_) => {
                let end = mark(E::close(), text, to)?;
                return Ok((list, end.to));
            }
        }
    }
    Err(Stop::Refused)
}

/// An entry of an array literal.
impl PlainEntry for Elem {
    ghost print = { λ e. print_elem e };

    ghost close = { Sign.BracketClose };

    #[inline(always)]
    fn close() -> Symbol {
        Symbol::BracketClose
    }

    #[inline(always)]
    fn read_plain(alloc: Global, text: &[u8], from: usize) -> Result<(Elem, usize), Stop> {
        let token = token_behind(text, from)?;
        elem_at(alloc, text, from, token)
    }
}

/// An argument of a constraint.
impl PlainEntry for Expr {
    ghost print = { λ e. print_expr e };

    ghost close = { Sign.ParenClose };

    #[inline(always)]
    fn close() -> Symbol {
        Symbol::ParenClose
    }

    #[inline(always)]
    fn read_plain(alloc: Global, text: &[u8], from: usize) -> Result<(Expr, usize), Stop> {
        law_tokens_in_turn();
        let token = token_behind(text, from)?;
        if is_mark(Symbol::BracketOpen, text, token) {
            let (entries, to) = plain_row(alloc, text, token.to)?;
            return Ok((Expr::Row(entries), to));
        }
        let (elem, to) = elem_at(alloc, text, from, token)?;
        Ok((Expr::One(elem), to))
    }
}

/// The entries of an array literal, with the place behind it. It isn't inlined, so that the code for other arguments is short.
#[inline(never)]
fn plain_row(alloc: Global, text: &[u8], from: usize) -> Result<(ListOf<Elem>, usize), Stop>
    requires { from ≤ length text.now }
    ensures { IfOk result (λ p. AreLexemes text.now from p.1 (separated print_elem p.0 ++ Sort.Fixed Sign.BracketClose ∷ [])) }
{
    plain_list::<Elem>(alloc, text, from)
}

/// Whether a point stands at this byte, as where a range goes on. Most integers are told from ranges by it.
#[inline(always)]
fn goes_on_at(text: &[u8], at: usize) -> bool {
    at < text.len() && text[at] == b'.'
}

/// The entry that begins with this token, the first behind the byte `from`, with the place behind it.
#[inline(always)]
fn elem_at(alloc: Global, text: &[u8], from: usize, token: Token) -> Result<(Elem, usize), Stop>
    requires from { from ≤ length text.now }
    requires next { IsNext text.now from (Some token) }
    ensures { IfOk result (λ p. AreLexemes text.now from p.1 (print_elem p.0)) }
{
    if goes_on_at(text, token.to) {
        return range_at(alloc, text, from, token);
    }
    let elem = elem_of(text, token)?;
    Ok((elem, token.to))
}

/// The range that begins with this token, the first behind the byte `from`, with the place behind it.
#[tactic(auto, unfolding(crate::specs::Texts::lexeme_of))]
#[inline(never)]
fn range_at(alloc: Global, text: &[u8], from: usize, low: Token) -> Result<(Elem, usize), Stop>
    requires from { from ≤ length text.now }
    requires next { IsNext text.now from (Some low) }
    ensures { IfOk result (λ p. AreLexemes text.now from p.1 (print_elem p.0)) }
{
    law_tokens_in_turn();
    let Kind::Int = low.kind else {
        return Err(Stop::Refused);
    };
    let dots = range_mark(text, low.to)?;
    let high = integer(text, dots.to)?;
    let set = SetApart::new(alloc, SetLit::Range(low, high))?;
    Ok((Elem::Set(set), high.to))
}

/// The entry that a token is by itself.
#[tactic(auto, unfolding(crate::specs::Texts::lexeme_of))]
#[inline(always)]
fn elem_of(text: &[u8], token: Token) -> Result<Elem, Stop>
    ensures { IfOk result (λ e. print_elem e ≡ lexeme_of text.now token ∷ []) }
{
    match token.kind {
        Kind::Int => Ok(Elem::Int(same_token(token))),
        Kind::Float => Ok(Elem::Float(same_token(token))),
        Kind::Word => {
            if is_plain_name(text, token) {
                return Ok(Elem::Name(same_token(token)));
            }
            elem_of_word(text, token)
        }
        Kind::Text | Kind::Mark => Err(Stop::Refused),
    }
}

/// The entry that a word is by itself, which may be a keyword.
#[inline(never)]
fn elem_of_word(text: &[u8], token: Token) -> Result<Elem, Stop>
    ensures { IfOk result (λ e. print_elem e ≡ lexeme_of text.now token ∷ []) }
{
    match lexeme_of(text, token) {
        Lexeme::Fixed(Symbol::True) => Ok(Elem::True),
        Lexeme::Fixed(Symbol::False) => Ok(Elem::False),
        Lexeme::Kept(Class::Name, name) => Ok(Elem::Name(name)),
        _ => Err(Stop::Refused),
    }
}

/// The first token behind the byte `from`. Most are found in few steps.
#[inline(always)]
fn token_behind(text: &[u8], from: usize) -> Result<Token, Stop>
    requires { from ≤ length text.now }
    ensures { IfOk result (λ t. IsNext text.now from (Some t)) }
{
    match next_plain(text, from) {
        Some(token) => Ok(token),
        None => any_token_behind(text, from),
    }
}

/// The first token behind the byte `from`, whatever it is.
#[inline(never)]
fn any_token_behind(text: &[u8], from: usize) -> Result<Token, Stop>
    requires { from ≤ length text.now }
    ensures { IfOk result (λ t. IsNext text.now from (Some t)) }
{
    match next_token(text, from) {
        Ok(Some(token)) => Ok(token),
        Ok(None) | Err(_) => Err(Stop::Refused),
    }
}

/// The token behind the byte `from`, where it is a mark, a word, or an integer without a sign.
#[inline(always)]
fn plain_token(text: &[u8], from: usize) -> Result<Token, Stop>
    requires { from ≤ length text.now }
    ensures { IfOk result (λ t. IsNext text.now from (Some t)) }
{
    match next_plain(text, from) {
        Some(token) => Ok(token),
        None => Err(Stop::Refused),
    }
}

/// The token behind the byte `from`, where it is the keyword `var`.
#[tactic(auto, unfolding(crate::specs::Texts::lexeme_of, crate::specs::Texts::keyword))]
#[inline(always)]
fn word_var(text: &[u8], from: usize) -> Result<Token, Stop>
    requires { from ≤ length text.now }
    ensures next { IfOk result (λ t. IsNext text.now from (Some t)) }
    ensures seen { IfOk result (λ t. lexeme_of text.now t ≡ Sort.Fixed Sign.Var) }
{
    let token = plain_token(text, from)?;
    match token.kind {
        Kind::Word => match spelling(text, token) {
            [b'v', b'a', b'r'] => Ok(token),
            _ => Err(Stop::Refused),
        },
        _ => Err(Stop::Refused),
    }
}

/// The token behind the byte `from`, where it is the keyword `constraint`.
#[tactic(auto, unfolding(crate::specs::Texts::lexeme_of, crate::specs::Texts::keyword))]
#[inline(always)]
fn word_constraint(text: &[u8], from: usize) -> Result<Token, Stop>
    requires { from ≤ length text.now }
    ensures next { IfOk result (λ t. IsNext text.now from (Some t)) }
    ensures seen { IfOk result (λ t. lexeme_of text.now t ≡ Sort.Fixed Sign.Constraint) }
{
    let token = plain_token(text, from)?;
    match token.kind {
        Kind::Word => {
            if spelling(text, token) == b"constraint".as_slice() {
                return Ok(token);
            }
            Err(Stop::Refused)
        }
        _ => Err(Stop::Refused),
    }
}

/// The token behind the byte `from`, where it is `..`.
#[tactic(auto, unfolding(crate::specs::Texts::lexeme_of, crate::specs::Texts::mark))]
#[inline(always)]
fn range_mark(text: &[u8], from: usize) -> Result<Token, Stop>
    requires { from ≤ length text.now }
    ensures next { IfOk result (λ t. IsNext text.now from (Some t)) }
    ensures seen { IfOk result (λ t. lexeme_of text.now t ≡ Sort.Fixed Sign.DotDot) }
{
    let token = plain_token(text, from)?;
    match token.kind {
        Kind::Mark => match spelling(text, token) {
            [b'.', b'.'] => Ok(token),
            _ => Err(Stop::Refused),
        },
        _ => Err(Stop::Refused),
    }
}

/// Whether a token is this mark of one byte.
#[tactic(auto, unfolding(crate::specs::Texts::lexeme_of))]
#[inline(always)]
fn is_mark(symbol: Symbol, text: &[u8], token: Token) -> bool
    ensures { result ≡ true → lexeme_of text.now token ≡ Sort.Fixed symbol }
{
    match token.kind {
        Kind::Mark => match plain_mark(text, token) {
            Some(found) => found.is_same(symbol),
            None => false,
        },
        _ => false,
    }
}

/// The token behind the byte `from`, where it is this mark of one byte.
#[inline(always)]
fn mark(symbol: Symbol, text: &[u8], from: usize) -> Result<Token, Stop>
    requires { from ≤ length text.now }
    ensures next { IfOk result (λ t. IsNext text.now from (Some t)) }
    ensures seen { IfOk result (λ t. lexeme_of text.now t ≡ Sort.Fixed symbol) }
{
    let token = plain_token(text, from)?;
    if is_mark(symbol, text, token) {
        return Ok(token);
    }
    Err(Stop::Refused)
}

/// The token behind the byte `from`, where it is an integer without a sign.
#[tactic(auto, unfolding(crate::specs::Texts::lexeme_of))]
#[inline(always)]
fn integer(text: &[u8], from: usize) -> Result<Token, Stop>
    requires { from ≤ length text.now }
    ensures next { IfOk result (λ t. IsNext text.now from (Some t)) }
    ensures seen { IfOk result (λ t. lexeme_of text.now t ≡ Sort.Kept Group.Int t) }
{
    let token = plain_token(text, from)?;
    match token.kind {
        Kind::Int => Ok(token),
        _ => Err(Stop::Refused),
    }
}

/// The token behind the byte `from`, where it is a name.
#[tactic(auto, unfolding(crate::specs::Texts::lexeme_of))]
#[inline(always)]
fn name_behind(text: &[u8], from: usize) -> Result<Token, Stop>
    requires { from ≤ length text.now }
    ensures next { IfOk result (λ t. IsNext text.now from (Some t)) }
    ensures seen { IfOk result (λ t. lexeme_of text.now t ≡ Sort.Kept Group.Name t) }
{
    let token = plain_token(text, from)?;
    match token.kind {
        Kind::Word => match keyword(spelling(text, token)) {
            None => Ok(token),
            Some(_) => Err(Stop::Refused),
        },
        _ => Err(Stop::Refused),
    }
}
