//! What the box at the end of a way is, and which boxes the best cost beats.

ghost use Rattle.std.specs.Prelude.{◌<◌, length, IfSome};
ghost use Rattle.std.specs.Bool.{OnTrue, OnFalse};
ghost use Rattle.constraint_model.specs.WellFormed.{IsGoalOf};
ghost use Rattle.subproblem_walk.specs.Beaten.{CostsFrom};
ghost use Rattle.subproblem_walk.specs.Walks.{IsBeatenEnd, IsEndFor, IsLedTo};

use branching::pair_of;
use constraint_model::{FznModel, Goal, Term};
use interval::BoxOf;

/// What the box at the end of the way is.
#[derive(Clone, Copy)]
pub enum End {
    /// A part, to which a number leads. It wasn't cut.
    Part,
    /// One that has no closed box inside.
    Failed,
    /// One whose greatest closed box fixes each declared variable.
    Fixed,
    /// One in which nothing costs less than this cost. It wasn't gone into.
    Beaten(i64),
}

/// Whether the box at the end of a way is what the number leads to: a solution is so by number 0 alone.
pub(crate) fn is_led_to(end: End, number: u64) -> bool
    ensures led { OnTrue result (IsLedTo end number) }
    ensures not { OnFalse result (IsLedTo end number → ⊥) }
{
    match end {
        End::Part => true,
        End::Failed | End::Beaten(_) => false,
        End::Fixed => number == 0,
    }
}

/// Whether the end of a way is one for the best cost, if there is one: a box that is beaten is so by that too.
pub(crate) fn is_end_for(end: End, best: Option<i64>) -> bool
    ensures { OnTrue result (IsEndFor best end) }
{
    match (end, best) {
        (End::Beaten(cost), Some(lowest)) => lowest <= cost,
        (End::Beaten(_), None) => false,
        _ => true,
    }
}

/// Whether each number that a box has for the objective costs at least so much. A constant objective isn't compared.
#[tactic(auto, unfolding(interval::specs::Limits::bound_limit, interval::specs::Limits::largest_number))]
fn costs_from(model: &FznModel, cost: i64, b: &BoxOf) -> bool
    requires long { length model.now.vars < length b.now }
    requires goal { IsGoalOf model.now.vars model.now.goal }
    ensures { OnTrue result (CostsFrom model.now.goal cost b.now) }
{
    match model.goal {
        Goal::Minimize(Term::Var(v)) => cost <= b.low(pair_of(b, v)),
        Goal::Maximize(Term::Var(v)) => cost <= -b.high(pair_of(b, v)),
        Goal::Satisfy | Goal::Minimize(Term::Number(_)) | Goal::Maximize(Term::Number(_)) => false,
    }
}

/// The end of a way at a closed box that the best cost, if there is one, beats: nothing there costs less.
pub(crate) fn beaten_end(model: &FznModel, best: Option<i64>, closed: &BoxOf) -> Option<End>
    requires long { length model.now.vars < length closed.now }
    requires goal { IfSome best (λ _. IsGoalOf model.now.vars model.now.goal) }
    ensures { IfSome result (IsBeatenEnd model.now best closed.now) }
{
    match best {
        Some(cost) if costs_from(model, cost, closed) => Some(End::Beaten(cost)),
        _ => None,
    }
}
