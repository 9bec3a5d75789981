//! What is told of the objective.

ghost use Rattle.std.specs.Prelude.{◌≡◌};
ghost use Rattle.constraint_model.specs.Relations.{value};
ghost use Rattle.solver_top.specs.Answers.{first_objective, known_objective, objective_in};

use answer::Answer;
use constraint_model::{Goal, Term};
use fzn_model::FznModel;
use fzn_print::Mark;
use list_of::ListOf;

/// The number of the objective in the solution that is given, where the search came to its end and there is an objective.
pub(crate) fn known_objective(model: &FznModel, answer: &Answer) -> Option<i64>
    ensures { result ≡ known_objective model.now.goal answer.now }
{
    match answer.mark {
        Mark::Complete => first_objective(model.goal, answer.solutions.as_slice()),
        Mark::Plain | Mark::Unsatisfiable | Mark::Unknown => None,
    }
}

/// The number of the objective in the first of the solutions.
fn first_objective(goal: Goal, solutions: &[ListOf<i64>]) -> Option<i64>
    ensures { result ≡ first_objective goal solutions.now }
{
    let solution = solutions.first()?;
    match goal {
        Goal::Satisfy => None,
        Goal::Minimize(term) | Goal::Maximize(term) => Some(value_of(term, solution.as_slice())),
    }
}

/// The number of a term in a solution.
fn value_of(term: Term, solution: &[i64]) -> i64
    ensures { result ≡ value solution.now term }
{
    match term {
        Term::Number(number) => number,
        Term::Var(place) => solution.get(place as usize).copied().unwrap_or(0),
    }
}
