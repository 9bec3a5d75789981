//! What solutions cost, and the bounds that cut a box to lesser costs.

ghost use Rattle.std.specs.Prelude.{◌≡◌, ◌≢◌, ◌<◌, ◌-◌, ℤ, neg_ℤ, length, Some, IfSome};
ghost use Rattle.interval.specs.Limits.{IsBound, IsNumber};
ghost use Rattle.interval.specs.Boxes.{Bounds, IsInside};
ghost use Rattle.constraint_model.specs.declared.model.Goal.TheVariants.{Satisfy};
ghost use Rattle.constraint_model.specs.Relations.{value, cost_of, IsSolution};
ghost use Rattle.search.specs.declared.kind.Kind.TheVariants.{Least};
ghost use Rattle.search.specs.Costs.{up_to, from_on, where_at_most, at_most, IsTermIn, IsObjectiveIn};
ghost use Rattle.trailed_box.specs.Trailed.{IsPart};
ghost use Rattle.search.specs.Cuts.{IsCut};
ghost use Rattle.search.specs.Machine.{cut_by};
ghost use Rattle.search.specs.Premises.{IsRun};
ghost use Rattle.search.specs.LeastEnds.{IsCost};
ghost use Rattle.search.specs.Turns.{lesser, IsCutBelow};

use crate::run::Run;
use branching::pair_of;
use constraint_model::{Goal, Term};
use interval::{BoxOf, law_inside_order};
use trailed_box::Part;

/// The number of a term in an assignment that has one for each variable.
pub fn value(a: &[i64], term: Term) -> i64
    requires { IsTermIn (length a.now) term }
    ensures { result ≡ value a.now term }
{
    match term {
        Term::Number(n) => n,
        Term::Var(v) => a[v as usize],
    }
}

/// The number on the other side of 0.
#[tactic(auto, unfolding(interval::specs::Limits::largest_number))]
fn negated(z: i64) -> i64
    requires { IsNumber z }
    ensures { result ≡ neg_ℤ z }
{
    -z
}

/// What an assignment costs: the objective to be minimized, or the negation of the one to be maximized.
pub(crate) fn cost(goal: Goal, a: &[i64]) -> i64
    requires objective { IsObjectiveIn (length a.now) goal }
    requires numbers { (cost : ℤ) → cost_of goal a.now ≡ Some cost → IsNumber cost }
    ensures costs { cost_of goal a.now ≡ Some result }
    ensures number { IsNumber result }
{
    match goal {
        Goal::Satisfy => 0,
        Goal::Minimize(term) => value(a, term),
        Goal::Maximize(term) => negated(value(a, term)),
    }
}

/// The bounds that cut a pair to the numbers up to `most`, or none where it has no others.
fn up_to(b: &BoxOf, pair: u32, most: i64) -> Option<Part>
    requires pair { pair < length b.now }
    requires most { IsBound most }
    ensures { IsCut b.now (up_to b.now pair most) result }
{
    let high = b.high(pair);
    if most < high {
        return Some(Part {
            var: pair,
            low: b.low(pair),
            high: most,
        });
    }
    None
}

/// The bounds that cut a pair to the numbers from `least` on, or none where it has no others.
fn from_on(b: &BoxOf, pair: u32, least: i64) -> Option<Part>
    requires pair { pair < length b.now }
    requires least { IsBound least }
    ensures { IsCut b.now (from_on b.now pair least) result }
{
    let low = b.low(pair);
    if low < least {
        return Some(Part {
            var: pair,
            low: least,
            high: b.high(pair),
        });
    }
    None
}

/// None where a constant costs `most` at most; else the bounds that leave no number for the constant 1.
#[tactic(auto, unfolding(interval::specs::Limits::bound_limit))]
fn where_at_most(b: &BoxOf, cost: i64, most: i64) -> Option<Part>
    requires { 0 < length b.now }
    ensures { IsCut b.now (where_at_most cost most b.now) result }
{
    if cost > most { up_to(b, 0, 0) } else { None }
}

/// The bounds that cut the objective to costs up to `most`.
#[tactic(auto, unfolding(interval::specs::Limits::bound_limit, interval::specs::Limits::largest_number))]
fn at_most(goal: Goal, most: i64, b: &BoxOf) -> Option<Part>
    requires some { 0 < length b.now }
    requires objective { IsObjectiveIn (length b.now - 1) goal }
    requires most { IsBound most }
    ensures { IsCut b.now (at_most goal most b.now) result }
{
    match goal {
        Goal::Satisfy => None,
        Goal::Minimize(Term::Number(n)) => where_at_most(b, n, most),
        Goal::Maximize(Term::Number(n)) => where_at_most(b, -n, most),
        Goal::Minimize(Term::Var(v)) => up_to(b, pair_of(b, v), most),
        Goal::Maximize(Term::Var(v)) => from_on(b, pair_of(b, v), -most),
    }
}

/// The bounds that cut the objective to costs below the best one, or none where it has no others.
#[tactic(auto, unfolding(interval::specs::Limits::bound_limit, interval::specs::Limits::largest_number))]
pub(crate) fn cut_below(goal: Goal, best: Option<i64>, b: &BoxOf) -> Option<Part>
    requires some { 0 < length b.now }
    requires best { IfSome best (λ cost. IsNumber cost × IsObjectiveIn (length b.now - 1) goal) }
    ensures { IsCut b.now (cut_by Least goal best b.now) result }
{
    match best {
        Some(cost) => at_most(goal, cost - 1, b),
        None => None,
    }
}

/// The lesser of two costs, where there are such.
pub(crate) fn lesser(best: Option<i64>, other: Option<i64>) -> Option<i64>
    ensures { result ≡ lesser best other }
{
    match (best, other) {
        (Some(cost), Some(other)) => Some(cost.min(other)),
        (Some(cost), None) => Some(cost),
        (None, other) => other,
    }
}

/// What a solution costs: the objective to be minimized, or the negation of the one to be maximized.
pub fn solution_cost<L>(run: &Run<'_, L>, a: &[i64]) -> i64
    requires run { IsRun run.now }
    requires objective { run.now.model.now.goal ≢ Satisfy }
    requires solves { IsSolution run.now.model.now a.now }
    ensures costs { cost_of run.now.model.now.goal a.now ≡ Some result }
    ensures is_cost { IsCost run.now.model.now result }
{
    cost(run.model.goal, a)
}

/// Puts the bounds of a cut, if there are such.
fn put_cut(cut: Option<Part>, b: &mut BoxOf)
    requires { IfSome cut (λ part. IsPart (length b.old) part.var part.low part.high) }
    ensures { (whole : Bounds) → IsCut b.old whole cut → b.new ≡ whole }
{
    match cut {
        Some(part) => b.put(part.var, part.low, part.high),
        None => {}
    }
}

/// Cuts a box to what costs less than this one.
pub fn cut_below_cost<L>(run: &Run<'_, L>, best: i64, b: &mut BoxOf)
    requires run { IsRun run.now }
    requires objective { run.now.model.now.goal ≢ Satisfy }
    requires inside { IsInside b.old run.now.program.now.start }
    requires best { IsCost run.now.model.now best }
    ensures cut { b.new ≡ cut_by Least run.now.model.now.goal (Some best) b.old }
    ensures below { IsCutBelow run.now.model.now best b.old b.new }
{
    law_inside_order();
    // its contract says that the bounds are in range
    let _length = b.len();
    let cut = cut_below(run.model.goal, Some(best), b);
    put_cut(cut, b);
}
