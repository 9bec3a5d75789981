// A machine over bytes that finds the longest piece that begins at a place, in one pass.

ghost use Rattle.std.specs.Prelude.{◌≡◌, ◌≤◌, ◌<◌, [], Some, IfSome, drop, false, length, true};
ghost use Rattle.fzn_lexer.specs.Lexing.{LexesTo};
ghost use Rattle.fzn_lexer.specs.Bytes as bytes;
ghost use Rattle.fzn_lexer.specs.Machine as machine;
ghost use Rattle.fzn_lexer.specs.declared.machine.State.{State as States};

use crate::{Kind, PieceKind};

/// What the bytes so far may still become.
#[derive(Clone, Copy, Debug, PartialEq, Eq)]
pub enum State {
    Start,
    /// No piece begins with these bytes.
    Dead,
    InWord,
    Minus,
    /// A decimal number that is `0` so far.
    Zero,
    Digits,
    HexBase,
    Hex,
    OctalBase,
    Octal,
    Point,
    Fraction,
    ExponentLetter,
    ExponentSign,
    Exponent,
    InText,
    Escape,
    TextEnd,
    MarkEnd,
    Colon,
    Dot,
    InComment,
    BlankEnd,
}

/// A piece, and the place one past its last byte.
#[derive(Clone, Copy, Debug, PartialEq, Eq)]
pub struct Found {
    pub piece: PieceKind,
    pub to: usize,
}

fn is_octal_digit(b: u8) -> bool
    ensures { result ≡ bytes.is_octal_digit b }
{
    matches!(b, b'0'..=b'7')
}

/// For each byte 1 where it is a letter or a digit, else 0: of each word each byte is looked up.
const WORD_BYTES: [u8; 256] = [
    0, 0, 0, 0, 0, 0, 0, 0, 0, 0, 0, 0, 0, 0, 0, 0, 0, 0, 0, 0, 0, 0, 0, 0, 0, 0, 0, 0, 0, 0, 0, 0,
    0, 0, 0, 0, 0, 0, 0, 0, 0, 0, 0, 0, 0, 0, 0, 0, 1, 1, 1, 1, 1, 1, 1, 1, 1, 1, 0, 0, 0, 0, 0, 0,
    0, 1, 1, 1, 1, 1, 1, 1, 1, 1, 1, 1, 1, 1, 1, 1, 1, 1, 1, 1, 1, 1, 1, 1, 1, 1, 1, 0, 0, 0, 0, 1,
    0, 1, 1, 1, 1, 1, 1, 1, 1, 1, 1, 1, 1, 1, 1, 1, 1, 1, 1, 1, 1, 1, 1, 1, 1, 1, 1, 0, 0, 0, 0, 0,
    0, 0, 0, 0, 0, 0, 0, 0, 0, 0, 0, 0, 0, 0, 0, 0, 0, 0, 0, 0, 0, 0, 0, 0, 0, 0, 0, 0, 0, 0, 0, 0,
    0, 0, 0, 0, 0, 0, 0, 0, 0, 0, 0, 0, 0, 0, 0, 0, 0, 0, 0, 0, 0, 0, 0, 0, 0, 0, 0, 0, 0, 0, 0, 0,
    0, 0, 0, 0, 0, 0, 0, 0, 0, 0, 0, 0, 0, 0, 0, 0, 0, 0, 0, 0, 0, 0, 0, 0, 0, 0, 0, 0, 0, 0, 0, 0,
    0, 0, 0, 0, 0, 0, 0, 0, 0, 0, 0, 0, 0, 0, 0, 0, 0, 0, 0, 0, 0, 0, 0, 0, 0, 0, 0, 0, 0, 0, 0, 0,
];

fn is_word_byte(b: u8) -> bool
    ensures { result ≡ bytes.is_word_byte b }
{
    WORD_BYTES[b as usize] == 1
}

fn is_exponent_letter(b: u8) -> bool
    ensures { result ≡ bytes.is_exponent_letter b }
{
    b == b'e' || b == b'E'
}

fn is_sign_byte(b: u8) -> bool
    ensures { result ≡ bytes.is_sign_byte b }
{
    b == b'+' || b == b'-'
}

fn is_blank_byte(b: u8) -> bool
    ensures { result ≡ bytes.is_blank_byte b }
{
    matches!(b, b' ' | b'\t' | b'\r' | b'\n')
}

#[inline(always)]
fn start_step(b: u8) -> State
    ensures { result ≡ machine.start_step b }
{
    match b {
        b'a'..=b'z' | b'A'..=b'Z' | b'_' => State::InWord,
        b'-' => State::Minus,
        b'"' => State::InText,
        b'0' => State::Zero,
        b'1'..=b'9' => State::Digits,
        b'(' | b')' | b'[' | b']' | b'{' | b'}' | b',' | b';' | b'=' => State::MarkEnd,
        b':' => State::Colon,
        b'.' => State::Dot,
        b'%' => State::InComment,
        b' ' | b'\t' | b'\r' | b'\n' => State::BlankEnd,
        _ => State::Dead,
    }
}

fn minus_step(b: u8) -> State
    ensures { result ≡ machine.minus_step b }
{
    if b == b'0' {
        State::Zero
    } else if b.is_ascii_digit() {
        State::Digits
    } else {
        State::Dead
    }
}

fn digits_step(b: u8) -> State
    ensures { result ≡ machine.digits_step b }
{
    if b.is_ascii_digit() {
        State::Digits
    } else if b == b'.' {
        State::Point
    } else if is_exponent_letter(b) {
        State::ExponentLetter
    } else {
        State::Dead
    }
}

fn zero_step(b: u8) -> State
    ensures { result ≡ machine.zero_step b }
{
    if b == b'x' {
        State::HexBase
    } else if b == b'o' {
        State::OctalBase
    } else {
        digits_step(b)
    }
}

fn fraction_step(b: u8) -> State
    ensures { result ≡ machine.fraction_step b }
{
    if b.is_ascii_digit() {
        State::Fraction
    } else if is_exponent_letter(b) {
        State::ExponentLetter
    } else {
        State::Dead
    }
}

fn exponent_step(b: u8) -> State
    ensures { result ≡ machine.exponent_step b }
{
    if b.is_ascii_digit() {
        State::Exponent
    } else if is_sign_byte(b) {
        State::ExponentSign
    } else {
        State::Dead
    }
}

fn text_step(b: u8) -> State
    ensures { result ≡ machine.text_step b }
{
    if b == b'"' {
        State::TextEnd
    } else if b == b'\\' {
        State::Escape
    } else if b == b'\n' {
        State::Dead
    } else {
        State::InText
    }
}

fn alive_if(alive: bool, state: State) -> State
    ensures { result ≡ machine.alive_if alive state }
{
    if alive { state } else { State::Dead }
}

fn number_step(state: State, b: u8) -> State
    ensures { result ≡ machine.number_step state b }
{
    match state {
        State::Minus => minus_step(b),
        State::Zero => zero_step(b),
        State::Digits => digits_step(b),
        State::HexBase | State::Hex => alive_if(b.is_ascii_hexdigit(), State::Hex),
        State::OctalBase | State::Octal => alive_if(is_octal_digit(b), State::Octal),
        State::Point => alive_if(b.is_ascii_digit(), State::Fraction),
        State::Fraction => fraction_step(b),
        State::ExponentLetter => exponent_step(b),
        State::ExponentSign | State::Exponent => alive_if(b.is_ascii_digit(), State::Exponent),
        _ => State::Dead,
    }
}

fn step(state: State, b: u8) -> State
    ensures { result ≡ machine.step state b }
{
    match state {
        State::Start => start_step(b),
        State::InWord => alive_if(is_word_byte(b), State::InWord),
        State::InText => text_step(b),
        State::Escape => alive_if(b != b'\n', State::InText),
        State::Colon => alive_if(b == b':', State::MarkEnd),
        State::Dot => alive_if(b == b'.', State::MarkEnd),
        State::InComment => alive_if(b != b'\n', State::InComment),
        _ => number_step(state, b),
    }
}

fn accepted(state: State) -> Option<PieceKind>
    ensures { result ≡ machine.accepted state }
{
    match state {
        State::InWord => Some(PieceKind::Token(Kind::Word)),
        State::Zero | State::Digits | State::Hex | State::Octal => Some(PieceKind::Token(
            Kind::Int,
        )),
        State::Fraction | State::Exponent => Some(PieceKind::Token(Kind::Float)),
        State::TextEnd => Some(PieceKind::Token(Kind::Text)),
        State::MarkEnd | State::Colon => Some(PieceKind::Token(Kind::Mark)),
        State::InComment => Some(PieceKind::Comment),
        State::BlankEnd => Some(PieceKind::Blank),
        _ => None,
    }
}

/// Whether no longer piece can be reached from this state.
fn is_last(state: State) -> bool
    ensures { result ≡ machine.is_last state }
{
    matches!(state, State::TextEnd | State::MarkEnd | State::BlankEnd)
}

/// The piece that ends at `to`, where there is one, else what was found before.
fn later(first: Option<Found>, piece: Option<PieceKind>, to: usize) -> Option<Found>
    ensures { result ≡ machine.later first (machine.found_as piece to) }
{
    match piece {
        Some(piece) => Some(Found { piece, to }),
        None => first,
    }
}

/// The place behind the letters and digits at `from`, where a word goes on.
#[inline(always)]
fn word_end(text: &[u8], from: usize) -> usize
    requires { from ≤ length text.now }
    ensures { machine.found_on machine.word States.InWord from text.now ≡ machine.found_as machine.word result }
{
    for at in from..text.len() {
        if !is_word_byte(text[at]) {
            return at;
        }
    }
    text.len()
}

/// The place behind the decimal digits at `from`, where a number goes on.
#[inline(always)]
fn digits_end(text: &[u8], from: usize) -> usize
    requires { from ≤ length text.now }
    ensures found { machine.found_on machine.int States.Digits from text.now ≡ machine.found_on machine.int States.Digits result text.now }
    ensures inside { result ≤ length text.now }
{
    for at in from..text.len() {
        if !text[at].is_ascii_digit() {
            return at;
        }
    }
    text.len()
}

/// The place of the line end behind `from`, or the text's end, where a comment goes on.
fn comment_end(text: &[u8], from: usize) -> usize
    requires { from ≤ length text.now }
    ensures { machine.found_on machine.comment States.InComment from text.now ≡ machine.found_as machine.comment result }
{
    for at in from..text.len() {
        if text[at] == b'\n' {
            return at;
        }
    }
    text.len()
}

/// The longest piece where the bytes before `from` leave this state, and this was found before.
#[inline(never)]
fn longest_behind(text: &[u8], from: usize, first: Option<Found>, before: State) -> Option<Found>
    requires { from ≤ length text.now }
    ensures { result ≡ machine.later first (machine.longest_found before from (drop from text.now)) }
{
    let mut state = before;
    let mut found = first;
    for at in from..text.len() {
        state = step(state, text[at]);
        if let State::Dead = state {
            return found;
        }
        found = later(found, accepted(state), at + 1);
        if is_last(state) {
            return found;
        }
    }
    found
}

/// Whether a number may go on with this byte behind its digits.
#[inline(always)]
fn goes_on(b: u8) -> bool
    ensures { result ≡ false → machine.step States.Digits b ≡ States.Dead }
{
    b.is_ascii_digit() || b == b'.' || is_exponent_letter(b)
}

/// Whether a number whose decimal digits stand before `to` ends there. A point with no digit behind it is none of a number.
#[inline(always)]
fn ends_at(text: &[u8], to: usize) -> bool
    requires { to ≤ length text.now }
    ensures { result ≡ true → machine.found_on machine.int States.Digits to text.now ≡ machine.found_as machine.int to }
{
    if to >= text.len() {
        return true;
    }
    if text[to] != b'.' {
        return !goes_on(text[to]);
    }
    to + 1 >= text.len() || !text[to + 1].is_ascii_digit()
}

/// The longest number where decimal digits stand before `from`.
#[inline(always)]
fn number_behind(text: &[u8], from: usize) -> Option<Found>
    requires { from ≤ length text.now }
    ensures { result ≡ machine.found_on machine.int States.Digits from text.now }
{
    let to = digits_end(text, from);
    let piece = PieceKind::Token(Kind::Int);
    if ends_at(text, to) {
        return Some(Found { piece, to });
    }
    longest_behind(text, to, Some(Found { piece, to }), State::Digits)
}

/// Whether a number may go on with this letter behind the 0 with which it begins, and not as digits do.
#[inline(always)]
fn is_base_letter(b: u8) -> bool
    ensures { result ≡ false → machine.step States.Digits b ≡ machine.step States.Zero b }
{
    b == b'x' || b == b'o'
}

/// The longest number where a 0 with which it begins stands before `from`. It is called, so that what stands for the many other
/// numbers is written once where pieces are read.
#[inline(never)]
fn zero_behind(text: &[u8], from: usize) -> Option<Found>
    requires { from ≤ length text.now }
    ensures { result ≡ machine.found_on machine.int States.Zero from text.now }
{
    let piece = PieceKind::Token(Kind::Int);
    if from >= text.len() {
        return Some(Found { piece, to: from });
    }
    if is_base_letter(text[from]) {
        return longest_behind(text, from, Some(Found { piece, to: from }), State::Zero);
    }
    number_behind(text, from)
}

/// The longest mark where a colon stands before `from`.
#[inline(always)]
fn colon_behind(text: &[u8], from: usize) -> Option<Found>
    requires { from ≤ length text.now }
    ensures { result ≡ machine.found_on (machine.accepted States.Colon) States.Colon from text.now }
{
    let piece = PieceKind::Token(Kind::Mark);
    if from >= text.len() {
        return Some(Found { piece, to: from });
    }
    if text[from] == b':' {
        return Some(Found {
            piece,
            to: from + 1,
        });
    }
    Some(Found { piece, to: from })
}

/// The mark of two points where the first stands before `from`.
#[inline(always)]
fn point_behind(text: &[u8], from: usize) -> Option<Found>
    requires { from ≤ length text.now }
    ensures { result ≡ machine.found_on (machine.accepted States.Dot) States.Dot from text.now }
{
    if from >= text.len() {
        return None;
    }
    if text[from] == b'.' {
        let piece = PieceKind::Token(Kind::Mark);
        return Some(Found {
            piece,
            to: from + 1,
        });
    }
    None
}

/// The longest piece where its first byte, before `from`, leaves this state.
#[inline(always)]
fn piece_behind(text: &[u8], from: usize, state: State) -> Option<Found>
    requires { from ≤ length text.now }
    ensures { result ≡ machine.found_on (machine.accepted state) state from text.now }
{
    match state {
        State::InWord => Some(Found {
            piece: PieceKind::Token(Kind::Word),
            to: word_end(text, from),
        }),
        State::Digits => number_behind(text, from),
        State::Zero => zero_behind(text, from),
        State::Colon => colon_behind(text, from),
        State::Dot => point_behind(text, from),
        State::InComment => Some(Found {
            piece: PieceKind::Comment,
            to: comment_end(text, from),
        }),
        State::MarkEnd => Some(Found {
            piece: PieceKind::Token(Kind::Mark),
            to: from,
        }),
        State::Dead => None,
        _ => longest_behind(text, from, later(None, accepted(state), from), state),
    }
}

/// The longest piece that begins at `from`.
#[inline(always)]
pub fn longest_piece(text: &[u8], from: usize) -> Option<Found>
    requires { from ≤ length text.now }
    ensures { result ≡ machine.longest_found machine.start from (drop from text.now) }
{
    if from == text.len() {
        return None;
    }
    piece_behind(text, from + 1, start_step(text[from]))
}

/// The number where decimal digits stand before `from`, if it ends where they do.
#[inline(always)]
fn plain_number(text: &[u8], from: usize) -> Option<Found>
    requires { from ≤ length text.now }
    ensures { IfSome result (λ f. machine.found_on machine.int States.Digits from text.now ≡ Some f) }
{
    let to = digits_end(text, from);
    if ends_at(text, to) {
        let piece = PieceKind::Token(Kind::Int);
        return Some(Found { piece, to });
    }
    None
}

/// The number where the 0 with which it begins stands before `from`, if it ends where its decimal digits do.
#[inline(always)]
fn plain_zero(text: &[u8], from: usize) -> Option<Found>
    requires { from ≤ length text.now }
    ensures { IfSome result (λ f. machine.found_on machine.int States.Zero from text.now ≡ Some f) }
{
    if from >= text.len() {
        return None;
    }
    if is_base_letter(text[from]) {
        return None;
    }
    plain_number(text, from)
}

/// The longest piece where its first byte, before `from`, leaves this state, and it is of those that most are.
#[inline(always)]
fn plain_behind(text: &[u8], from: usize, state: State) -> Option<Found>
    requires { from ≤ length text.now }
    ensures { IfSome result (λ f. machine.found_on (machine.accepted state) state from text.now ≡ Some f) }
{
    match state {
        State::MarkEnd => Some(Found {
            piece: PieceKind::Token(Kind::Mark),
            to: from,
        }),
        State::Digits => plain_number(text, from),
        State::InWord => Some(Found {
            piece: PieceKind::Token(Kind::Word),
            to: word_end(text, from),
        }),
        State::Colon => colon_behind(text, from),
        State::Dot => point_behind(text, from),
        State::Zero => plain_zero(text, from),
        _ => None,
    }
}

/// The state behind the first byte of a piece, where it is of those that most are.
#[inline(always)]
fn plain_state(b: u8) -> Option<State>
    ensures { IfSome result (λ q. q ≡ machine.start_step b) }
{
    match b {
        b'(' | b')' | b'[' | b']' | b'{' | b'}' | b',' | b';' | b'=' => Some(State::MarkEnd),
        b'1'..=b'9' => Some(State::Digits),
        b'a'..=b'z' | b'A'..=b'Z' | b'_' => Some(State::InWord),
        b':' => Some(State::Colon),
        b'.' => Some(State::Dot),
        b'0' => Some(State::Zero),
        _ => None,
    }
}

/// The longest piece that begins at `at`, where it is of those that most are: a mark, a word, or a number without a sign.
#[inline(always)]
pub fn plain_piece(text: &[u8], at: usize) -> Option<Found>
    requires { at < length text.now }
    ensures { IfSome result (λ f. machine.longest_found machine.start at (drop at text.now) ≡ Some f) }
{
    match plain_state(text[at]) {
        Some(state) => plain_behind(text, at + 1, state),
        None => None,
    }
}

/// The first place from `from` on at which no blank stands.
#[inline(always)]
pub fn after_blanks(text: &[u8], from: usize) -> usize
    requires { from ≤ length text.now }
    ensures { LexesTo text.now from result [] }
{
    for at in from..text.len() {
        if !is_blank_byte(text[at]) {
            return at;
        }
    }
    text.len()
}
