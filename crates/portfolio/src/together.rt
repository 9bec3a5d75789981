//! What the searches of a portfolio tell together.

ghost use Rattle.std.specs.Prelude.{◌≡◌, ◌≢◌, ◌⊎◌, ◌≤ℤ◌, ℤ, List, All, IfSome};
ghost use Rattle.std.specs.Bool.{OnTrue};
ghost use Rattle.std.specs.List.{AllZip};
ghost use Rattle.interval.specs.Boxes.{Bounds};
ghost use Rattle.constraint_model.specs.declared.model.Goal.TheVariants.{Satisfy};
ghost use Rattle.constraint_model.specs.declared.model.FznModel.{FznModel};
ghost use Rattle.search.specs.Costs.{IsAtMost};
ghost use Rattle.search.specs.Turns.{CostsAtLeast};
ghost use Rattle.race.specs.Leasts.{IsIncumbent, IsAsLow, best_cost};
ghost use Rattle.portfolio.specs.Told.{TellsFirst, joined, TellsCosts, IsBoundedFrom, BoundTogether, TellsLeast};

use crate::told::{Bound, CostTold, FirstTold, LeastTold};
use race::Incumbent;

/// What the parts of a box tell of its first solution, each of its own list.
fn first_of_parts(told: Vec<FirstTold>) -> FirstTold
    ensures { (lists : List (List (List ℤ))) → AllZip TellsFirst lists told.items → TellsFirst (joined lists) result }
{
    for part in told {
        match part {
            FirstTold::Known(None) => {}
            FirstTold::Known(Some(values)) => return FirstTold::Known(Some(values)),
            FirstTold::Unknown => return FirstTold::Unknown,
        }
    }
    FirstTold::Known(None)
}

/// What is told of the first solution of a box, by a search of the whole, if that tells it, or by its parts.
pub fn first_told(whole: FirstTold, parts: Vec<FirstTold>) -> FirstTold
    ensures { (lists : List (List (List ℤ))) → TellsFirst (joined lists) whole → AllZip TellsFirst lists parts.items → TellsFirst (joined lists) result }
{
    if whole.is_known() {
        return whole;
    }
    first_of_parts(parts)
}

/// The lesser of two bounds.
fn lower(one: Option<i64>, other: Option<i64>) -> Option<i64>
    ensures first { (cost : ℤ) → IsAtMost one cost → IsAtMost result cost }
    ensures second { (cost : ℤ) → IsAtMost other cost → IsAtMost result cost }
{
    match (one, other) {
        (None, least) => least,
        (least, None) => least,
        (Some(a), Some(b)) => Some(a.min(b)),
    }
}

/// What all solutions in parts cost at least, if that is known of each part.
fn bound_of_parts(told: &[CostTold]) -> Option<Bound>
    ensures { IfSome result (λ bound. All (IsBoundedFrom bound.at_least) told.now) }
{
    let mut at_least = None;
    for part in told {
        match part.bound {
            Some(bound) => at_least = lower(at_least, bound.at_least),
            None => return None,
        }
    }
    Some(Bound { at_least })
}

/// The better of two solutions, the first where they cost as much.
fn better(one: Option<Incumbent>, other: Option<Incumbent>) -> Option<Incumbent>
    ensures some { (result ≡ one) ⊎ (result ≡ other) }
    ensures first { IsAsLow (best_cost result) (best_cost one) }
    ensures second { IsAsLow (best_cost result) (best_cost other) }
{
    match (one, other) {
        (None, best) => best,
        (best, None) => best,
        (Some(a), Some(b)) => { if b.cost < a.cost { Some(b) } else { Some(a) } }
    }
}

/// The best of all solutions that were told.
fn best_of_parts(first: Option<Incumbent>, told: Vec<CostTold>) -> Option<Incumbent>
    ensures { (model : FznModel) (b : Bounds) → IfSome first (IsIncumbent model b) → All (λ part. IfSome part.best (IsIncumbent model b)) told.items →
        IfSome result (IsIncumbent model b) }
{
    let mut best = first;
    for part in told {
        best = better(best, part.best);
    }
    best
}

/// What all solutions in a box cost at least, if that is known of the whole, or of each part.
fn bound_of_all(whole: Option<Bound>, parts: &[CostTold]) -> Option<Bound>
    ensures { (model : FznModel) (b : Bounds) → IfSome whole (λ bound. CostsAtLeast model b bound.at_least) → BoundTogether model b parts.now →
        IfSome result (λ bound. CostsAtLeast model b bound.at_least) }
{
    match whole {
        Some(bound) => Some(bound),
        None => bound_of_parts(parts),
    }
}

/// Whether a bound shows that no solution costs less.
fn is_least(cost: i64, bound: Bound) -> bool
    ensures { OnTrue result ((other : ℤ) → IsAtMost bound.at_least other → cost ≤ℤ other) }
{
    match bound.at_least {
        Some(least) => cost <= least,
        None => true,
    }
}

/// What a bound and the best solution tell of the least cost.
fn concluded(bound: Bound, best: Option<Incumbent>) -> LeastTold
    ensures { (model : FznModel) (b : Bounds) → model.goal ≢ Satisfy → CostsAtLeast model b bound.at_least → IfSome best (IsIncumbent model b) →
        TellsLeast model b result }
{
    match best {
        Some(best) => {
            if is_least(best.cost, bound) {
                LeastTold::Known(Some(best))
            } else {
                LeastTold::Unknown
            }
        }
        None => match bound.at_least {
            None => LeastTold::Known(None),
            Some(_) => LeastTold::Unknown,
        },
    }
}

/// What the searches of the whole and of its parts tell of the least cost: that of the best solution, if it is known that none
/// costs less.
pub fn least_told(whole: CostTold, parts: Vec<CostTold>) -> LeastTold
    ensures { (model : FznModel) (b : Bounds) → model.goal ≢ Satisfy → TellsCosts model b b whole → All (λ part. IfSome part.best (IsIncumbent model b)) parts.items →
        BoundTogether model b parts.items → TellsLeast model b result }
{
    let CostTold { bound, best } = whole;
    match bound_of_all(bound, parts.as_slice()) {
        Some(bound) => concluded(bound, best_of_parts(best, parts)),
        None => LeastTold::Unknown,
    }
}
