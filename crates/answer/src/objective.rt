//! Solutions and boxes by the objective.

ghost use Rattle.std.specs.Prelude.{◌≡◌, ◌≢◌, ◌<◌, ◌++◌, ℤ, List, [], ◌∷◌, length, flat_map, All, Some};
ghost use Rattle.std.specs.Bool.{OnTrue, OnFalse};
ghost use Rattle.interval.specs.Limits.{IsBound};
ghost use Rattle.constraint_model.specs.declared.model.Goal.TheVariants.{Satisfy};
ghost use Rattle.constraint_model.specs.Relations.{cost_of};
ghost use Rattle.search.specs.Costs.{IsObjectiveIn};
ghost use Rattle.answer.specs.Cuts.{at_value, cut_to};
ghost use Rattle.answer.specs.Results.{listed, least_collected};
ghost use Rattle.answer.specs.Unfinished.{CostsMore, CostsAsMuch, IsBestOf};

use branching::pair_of;
use constraint_model::{Goal, Term};
use interval::BoxOf;
use list_of::ListOf;
use search::{LeastEnd, value};

/// Whether the first assignment costs less than the second.
fn costs_less(goal: Goal, a: &[i64], b: &[i64]) -> bool
    requires first { IsObjectiveIn (length a.now) goal }
    requires second { IsObjectiveIn (length b.now) goal }
    ensures less { OnTrue result (CostsMore goal a.now b.now) }
    ensures not_less { OnFalse result (CostsAsMuch goal b.now a.now) }
{
    match goal {
        Goal::Satisfy => false,
        Goal::Minimize(term) => value(a, term) < value(b, term),
        Goal::Maximize(term) => value(a, term) > value(b, term),
    }
}

/// The solution of a run, if it has one.
fn solution_of(end: LeastEnd) -> Option<ListOf<i64>>
    ensures { listed result ≡ least_collected end }
{
    match end {
        LeastEnd::Done(answer) => answer,
        LeastEnd::Spent { so_far, .. } => so_far,
    }
}

/// The better of the best solution so far and the next one, the first of two that cost as much.
fn better(goal: Goal, best: Option<ListOf<i64>>, next: ListOf<i64>) -> ListOf<i64>
    requires objective { goal ≢ Satisfy }
    requires next { IsObjectiveIn (length next) goal }
    requires best { All (λ a. IsObjectiveIn (length a) goal) (listed best) }
    ensures objective { IsObjectiveIn (length result) goal }
    ensures best { (collected : List (List ℤ)) → IsBestOf goal collected best → IsBestOf goal (collected ++ next ∷ []) (Some result) }
{
    match best {
        None => next,
        Some(a) => {
            if costs_less(goal, next.as_slice(), a.as_slice()) {
                next
            } else {
                a
            }
        }
    }
}

/// The first solution of least cost.
pub(crate) fn best_of(goal: Goal, ends: ListOf<LeastEnd>) -> Option<ListOf<i64>>
    requires objective { goal ≢ Satisfy }
    requires lengths { All (λ a. IsObjectiveIn (length a) goal) (flat_map least_collected ends) }
    ensures { IsBestOf goal (flat_map least_collected ends) result }
{
    let mut best = None;
    for end in ends.into_vec() {
        if let Some(next) = solution_of(end) {
            best = Some(better(goal, best, next));
        }
    }
    best
}

/// Cuts a pair to one number.
fn keep_at(b: &mut BoxOf, pair: u32, z: i64)
    requires pair { pair < length b.old }
    requires z { IsBound z }
    ensures cut { b.new ≡ at_value b.old pair z }
    ensures same_length { length b.new ≡ length b.old }
{
    let low = b.low(pair).max(z);
    let high = b.high(pair).min(z);
    b.put(pair, low, high);
}

/// Cuts the objective of a box to its value in an assignment.
pub(crate) fn cut_to_value(goal: Goal, a: &[i64], b: &mut BoxOf)
    requires objective { IsObjectiveIn (length a.now) goal }
    requires long { length a.now < length b.old }
    requires bounds { All IsBound a.now }
    ensures { (cost : ℤ) → cost_of goal a.now ≡ Some cost → b.new ≡ cut_to goal cost b.old }
{
    match goal {
        Goal::Satisfy | Goal::Minimize(Term::Number(_)) | Goal::Maximize(Term::Number(_)) => {}
        Goal::Minimize(Term::Var(v)) | Goal::Maximize(Term::Var(v)) => {
            let pair = pair_of(b, v);
            keep_at(b, pair, a[v as usize]);
        }
    }
}
