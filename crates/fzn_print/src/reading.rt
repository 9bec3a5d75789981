//! From a text of solutions to the answer that it is the text of.

ghost use Rattle.std.specs.Prelude.{◌≡◌, ◌≢◌, ◌++◌, ◌↔◌, ℕ, ℤ, List, length, IsTrue, IfOk, IfSome, IsErrOf, IsSomeAnd, MatchOption};
ghost use Rattle.constraint_model.specs.WellFormed.{IsWellFormed};
ghost use Rattle.fzn_print.specs.AnswerText.{mark_text_of, solution_text};
ghost use Rattle.fzn_print.specs.Reading.{AllPrinted, AreValues, IsReading, IsValue};
ghost use Rattle.fzn_print.specs.Lines.{IsFrontSolution};
ghost use Rattle.fzn_print.specs.declared.answers.Answer.{Answer};
ghost use Rattle.fzn_print.specs.declared.marks.Mark.{Mark};

use crate::answers::Answer;
use crate::lines::read_lines;
use crate::marks::{Mark, mark_text};
use crate::numbers::strip;
use crate::solutions::print_solution;
use constraint_model::{FznModel, LARGEST, VarDecl};
use list_of::ListOf;
use memory::NoMemory;
use std::alloc::{AllocError, Global};

/// Why a text of solutions gave no answer.
#[derive(Debug, Clone, Copy, PartialEq, Eq)]
pub enum SolutionError {
    /// It is the text of no answer of the model.
    BadText,
    /// Memory was refused.
    NoMemory,
}

/// Whether a number may be the value of a variable.
#[tactic(auto, unfolding(constraint_model::specs::Numbers::largest))]
fn is_value(is_bool: bool, number: i64) -> bool
    ensures { IsTrue result ↔ IsValue is_bool number }
{
    -LARGEST <= number && number <= LARGEST && (!is_bool || number == 0 || number == 1)
}

/// Whether there is such a number for each variable.
fn are_values(vars: &[VarDecl], values: &[i64]) -> bool
    ensures { IsTrue result ↔ AreValues vars.now values.now }
{
    if values.len() != vars.len() {
        return false;
    }
    for (place, var) in vars.iter().enumerate() {
        if !is_value(var.is_bool, values[place]) {
            return false;
        }
    }
    true
}

/// The mark whose text these bytes are.
fn mark_of(bytes: &[u8]) -> Option<Mark>
    ensures { MatchOption result ((mark : Mark) → bytes.now ≢ mark_text_of mark) (λ mark. bytes.now ≡ mark_text_of mark) }
{
    if is_mark(bytes, Mark::Plain) {
        Some(Mark::Plain)
    } else if is_mark(bytes, Mark::Complete) {
        Some(Mark::Complete)
    } else if is_mark(bytes, Mark::Unsatisfiable) {
        Some(Mark::Unsatisfiable)
    } else if is_mark(bytes, Mark::Unknown) {
        Some(Mark::Unknown)
    } else {
        None
    }
}

/// Whether these bytes are the text of a mark.
fn is_mark(bytes: &[u8], mark: Mark) -> bool
    ensures { IsTrue result ↔ (bytes.now ≡ mark_text_of mark) }
{
    bytes == mark_text(mark).as_bytes()
}

/// A solution at the front of the bytes and the bytes behind it, where there is one. `values` has room for a number of each
/// variable; what it holds makes no difference.
fn read_solution<'a>(
    alloc: Global,
    model: &FznModel,
    values: &mut [i64],
    rest: &'a [u8],
) -> Result<Option<(ListOf<i64>, &'a [u8])>, NoMemory>
    requires model { IsWellFormed model.now }
    requires printed { AllPrinted model.now }
    requires room { length values.old ≡ length model.now.vars }
    ensures room { length values.new ≡ length values.old }
    ensures found { IfOk result (λ found. IfSome found (λ read. IsFrontSolution model.now rest.now read.0 read.1.now)) }
    ensures each { IfOk result (λ found. (a : List ℤ) (tail : List ℕ) → AreValues model.now.vars a → rest.now ≡ solution_text model.now a ++ tail → IsSomeAnd found (λ read. (read.0 ≡ a) × (read.1.now ≡ tail))) }
{
    read_lines(alloc, model.output.as_slice(), values, rest)?;
    if !are_values(model.vars.as_slice(), values) {
        return Ok(None);
    }
    let text = print_solution(alloc, model, values)?;
    match strip(rest, &text) {
        Some(after) => Ok(Some((ListOf::from_vec(Vec::from_slice(alloc, values)?), after))),
        None => Ok(None),
    }
}

/// So many zeros.
fn zeros(alloc: Global, count: usize) -> Result<Vec<i64>, AllocError>
    ensures { IfOk result (λ zeros. length zeros.items ≡ count) }
{
    vec![in alloc; 0i64; count]
}

/// The answer that the bytes are the text of. `values` has room for a number of each variable; what it holds makes no
/// difference.
fn read_with(
    alloc: Global,
    model: &FznModel,
    bytes: &[u8],
    values: &mut [i64],
) -> Result<Answer, SolutionError>
    requires model { IsWellFormed model.now }
    requires printed { AllPrinted model.now }
    requires room { length values.old ≡ length model.now.vars }
    ensures ok { IfOk result (IsReading model.now bytes.now) }
    ensures alone { IfOk result (λ answer. (other : Answer) → IsReading model.now bytes.now other → other ≡ answer) }
    ensures bad_text { IsErrOf result SolutionError.BadText → (answer : Answer) → IsReading model.now bytes.now answer → ⊥ }
{
    let mut solutions = ListOf::new(alloc);
    let mut rest = bytes;
    loop {
        if let Some(mark) = mark_of(rest) {
            return Ok(Answer { solutions, mark });
        }
        let Ok(read) = read_solution(alloc, model, values, rest) else {
            return Err(SolutionError::NoMemory);
        };
        let Some((solution, after)) = read else {
            return Err(SolutionError::BadText);
        };
        if solutions.push(solution).is_err() {
            return Err(SolutionError::NoMemory);
        }
        rest = after;
    }
}

/// The answer that the bytes are the text of: its solutions, each with a number that a text may have for each variable, 0 or 1
/// for a boolean, and its mark. There is no other. Errors: `BadText` where there is none; `NoMemory`.
pub fn read_solutions(
    alloc: Global,
    model: &FznModel,
    bytes: &[u8],
) -> Result<Answer, SolutionError>
    requires model { IsWellFormed model.now }
    requires printed { AllPrinted model.now }
    ensures ok { IfOk result (IsReading model.now bytes.now) }
    ensures alone { IfOk result (λ answer. (other : Answer) → IsReading model.now bytes.now other → other ≡ answer) }
    ensures bad_text { IsErrOf result SolutionError.BadText → (answer : Answer) → IsReading model.now bytes.now answer → ⊥ }
{
    match zeros(alloc, model.vars.len()) {
        Ok(mut values) => read_with(alloc, model, bytes, &mut values),
        Err(_) => Err(SolutionError::NoMemory),
    }
}
