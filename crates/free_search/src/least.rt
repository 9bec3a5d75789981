//! The least number of a variable among the solutions in a box, by searches in a free order.

ghost use Rattle.std.specs.Prelude.{◌≡◌, ◌<◌, ◌+◌, suc, ◌-ℤ◌, pos, length, IfOk, IfSome};
ghost use Rattle.interval.specs.Limits.{IsBound};
ghost use Rattle.interval.specs.Boxes.{IsInside};
ghost use Rattle.solution_lists.specs.Solutions.{SolvesInside};
ghost use Rattle.solution_lists.specs.Order.{value_at};
ghost use Rattle.nogoods.specs.Learners.{Serves};
ghost use Rattle.search.specs.Premises.{IsRun};
ghost use Rattle.free_search.specs.Ends.{IsCutTo, HasLeast};

use crate::ends::FreeEnd;
use crate::guide::Guide;
use crate::run::run_free;
use fixpoint_laws::law_tightens_one;
use gate::Gate;
use interval::{BOUND_LIMIT, BoxOf, law_inside_order};
use list_of::ListOf;
use memory::NoMemory;
use nogoods::Learner;
use search::Run;
use std::alloc::Global;
use std::thread::Threads;

/// The number below, if it can be a bound.
#[tactic(auto, unfolding(interval::specs::Limits::bound_limit, interval::specs::Limits::largest_number))]
fn below(z: i64) -> Option<i64>
    ensures is { IfSome result (λ bound. bound ≡ z -ℤ pos 1) }
    ensures bound { IfSome result (λ bound. IsBound bound) }
{
    if -BOUND_LIMIT < z && z <= BOUND_LIMIT {
        return Some(z - 1);
    }
    None
}

/// The number of a variable in an assignment.
fn number_at(a: &[i64], var: u32) -> i64
    requires { var < length a.now }
    ensures { result ≡ value_at a.now var }
{
    a[var as usize]
}

/// The box with this upper bound of a pair, if that is tighter.
fn cut_to(alloc: Global, space: &BoxOf, pair: u32, bound: i64) -> Result<Option<BoxOf>, NoMemory>
    requires pair { pair < length space.now }
    requires bound { IsBound bound }
    ensures { IfOk result (λ sub. IfSome sub (IsCutTo space.now pair bound)) }
{
    law_tightens_one();
    if space.high(pair) < bound {
        return Ok(None);
    }
    let mut sub = space.copy(alloc)?;
    sub.put(pair, space.low(pair), bound);
    Ok(Some(sub))
}

/// The solutions with a lesser number of the variable: a box, if it can be made.
fn better(alloc: Global, space: &BoxOf, var: u32, best: &[i64]) -> Result<Option<BoxOf>, NoMemory>
    requires pair { var + 1 < length space.now }
    requires var { var < length best.now }
    ensures { IfOk result (λ sub. IfSome sub (IsCutTo space.now (suc var) (value_at best.now var -ℤ pos 1))) }
{
    // its contract says that there are few pairs
    let _length = space.len();
    match below(number_at(best, var)) {
        Some(bound) => cut_to(alloc, space, var + 1, bound),
        None => Ok(None),
    }
}

/// The units of work that are left.
fn left(guide: &Guide, most: u64) -> u64 {
    most.saturating_sub(guide.spent())
}

/// A solution in the box `base` of the space with the least number of a variable, from another solution; none where that wasn't
/// found within so many units of work. Errors: memory.
pub fn least_value<R: Threads + Sync, L: Gate + Sync>(
    rt: &R,
    alloc: Global,
    run: &Run<'_, L>,
    learner: &mut Learner,
    guide: &mut Guide,
    space: &BoxOf,
    base: &BoxOf,
    var: u32,
    first: ListOf<i64>,
    budget: u64,
) -> Result<Option<ListOf<i64>>, NoMemory>
    requires run { IsRun run.now }
    requires inside { IsInside space.now run.now.program.now.start }
    requires base { IsInside base.now space.now }
    requires serves { Serves run.now.program.now.kernels space.now learner.old }
    requires pair { var + 1 < length base.now }
    requires first { SolvesInside run.now.model.now base.now first }
    ensures serves { IfOk result (λ _. Serves run.now.program.now.kernels space.now learner.new) }
    ensures least { IfOk result (λ least. IfSome least (HasLeast run.now.model.now run.now.program.now.kernels space.now base.now var)) }
{
    law_inside_order();
    let most = guide.spent().saturating_add(budget);
    let mut best = first;
    for _ in 0..u64::MAX {
        if var as usize >= best.as_slice().len() {
            return Ok(None);
        }
        let Some(sub) = better(alloc, base, var, best.as_slice())? else {
            return Ok(None);
        };
        match run_free(
            rt,
            alloc,
            run,
            learner,
            guide,
            space,
            &sub,
            left(guide, most),
        )? {
            FreeEnd::Found(point) => {
                best = point;
            }
            FreeEnd::Refuted => return Ok(Some(best)),
            FreeEnd::GaveUp => return Ok(None),
        }
    }
    Ok(None)
}
