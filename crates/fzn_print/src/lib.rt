//! The text of an answer, the lines of its solutions and its mark; and from such a text back to the answer.
//!
//! `print_answer` writes exactly the text of the definition (`specs/AnswerText.antt`); `read_solutions` reads bytes as the one
//! answer whose text they are, and refuses exactly those that are the text of none. It builds on `constraint_model` and
//! `interval`, and judges no solution.
#![tactic(auto)]

mod answers;
mod arrays;
mod lines;
mod marks;
mod numbers;
mod reading;
mod solutions;
mod unprinted;
mod values;

pub use answers::{Answer, print_answer};
pub use marks::{Mark, mark_text};
pub use reading::{SolutionError, read_solutions};
pub use solutions::print_solution;
pub use unprinted::hidden;
