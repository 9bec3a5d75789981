//! An answer and its text.

ghost use Rattle.std.specs.Prelude.{◌≡◌, ◌++◌, IfOk, OnOk, flat_map};
ghost use Rattle.fzn_print.specs.AnswerText.{answer_text, solution_text};

use crate::marks::{Mark, mark_text};
use crate::solutions::print_solution;
use constraint_model::FznModel;
use list_of::ListOf;
use memory::NoMemory;
use std::alloc::Global;

/// What is answered.
#[derive(Drop)]
pub struct Answer {
    /// The solutions that are given, one number for each declared variable.
    pub solutions: ListOf<ListOf<i64>>,
    /// What is known besides.
    pub mark: Mark,
}

/// The text of an answer: its solutions, each with its end, and its mark. Errors: memory.
pub fn print_answer(alloc: Global, model: &FznModel, answer: &Answer) -> Result<Vec<u8>, NoMemory>
    ensures { IfOk result (λ text. text.items ≡ answer_text model.now answer.now) }
{
    let mut text = Vec::new(alloc);
    push_solutions(alloc, &mut text, model, answer.solutions.as_slice())?;
    text.extend_from_slice(mark_text(answer.mark).as_bytes())?;
    Ok(text)
}

/// Adds the texts of solutions.
fn push_solutions(
    alloc: Global,
    text: &mut Vec<u8>,
    model: &FznModel,
    solutions: &[ListOf<i64>],
) -> Result<(), NoMemory>
    ensures { OnOk result (text.new.items ≡ text.old.items ++ flat_map (solution_text model.now) solutions.now) }
{
    for solution in solutions {
        let lines = print_solution(alloc, model, solution.as_slice())?;
        text.extend_from_slice(&lines)?;
    }
    Ok(())
}
