//! The first that is wrong with a solution.

ghost use Rattle.std.specs.Prelude.{◌≡◌, ◌<◌, ◌+◌, ◌^◌, ◌≤ℤ◌, ◌↔◌, length, All, IfOk, IfSome, IsTrue, MatchOption};
ghost use Rattle.constraint_model.specs.Numbers.{IsInProfile};
ghost use Rattle.constraint_model.specs.Relations.{IsWithin};
ghost use Rattle.constraint_model.specs.WellFormed.{IsWellFormed};
ghost use Rattle.fzn_check.specs.Wrong.{CanTest, IsAnswer, IsFirstFailing, IsFirstOutside, IsFirstWrong, HoldsAt};

use crate::wrong::Wrong;
use constraint_check::holds_now;
use constraint_model::{FznModel, VarDecl};
use memory::NoMemory;
use rayon::prelude::*;
use std::thread::Threads;

/// So many constraints a thread tests without asking whether another has found one.
const PIECE: usize = 64;

/// Whether a number is within the bounds that a variable starts with.
fn is_inside(var: &VarDecl, number: i64) -> bool
    ensures { IsTrue result ↔ ((var.now.low ≤ℤ number) × (number ≤ℤ var.now.high)) }
{
    var.low <= number && number <= var.high
}

/// The place of the first variable that isn't within the bounds that it starts with.
fn first_outside(vars: &[VarDecl], solution: &[i64]) -> Option<usize>
    requires { length solution.now ≡ length vars.now }
    ensures { MatchOption result (IsWithin solution.now vars.now) (IsFirstOutside vars.now solution.now) }
{
    for (place, var) in vars.iter().enumerate() {
        if !is_inside(var, solution[place]) {
            return Some(place);
        }
    }
    None
}

/// The place of the first constraint that doesn't hold, as a search from the first to the last finds it, however the
/// threads share them.
fn first_failing(rt: &(impl Threads + Sync), model: &FznModel, solution: &[i64]) -> Option<usize>
    requires model { IsWellFormed model.now }
    requires numbers { All IsInProfile solution.now }
    ensures first { IsFirstFailing (HoldsAt model.now solution.now) (length model.now.constraints) result }
    ensures has_number { IfSome result (λ place. place + 1 < 2 ^ 64) }
{
    (0..model.constraints.len())
        .into_par_iter()
        .with_min_len(PIECE)
        .position_first(
            rt,
            |place: usize| -> bool
                requires { CanTest model.now solution.now place }
                ensures { IsAnswer (HoldsAt model.entry.now solution.entry.now) place result }
            { !holds_now(model, place + 1, solution) },
        )
}

/// The first that is wrong with numbers for the variables: the first variable outside the bounds that it starts with, else the
/// first constraint that doesn't hold, in the order of the model; none exactly where they are a solution. Errors: memory.
pub fn first_wrong(
    rt: &(impl Threads + Sync),
    model: &FznModel,
    solution: &[i64],
) -> Result<Option<Wrong>, NoMemory>
    requires model { IsWellFormed model.now }
    requires numbers { All IsInProfile solution.now }
    requires each { length solution.now ≡ length model.now.vars }
    ensures { IfOk result (IsFirstWrong model.now solution.now) }
{
    if let Some(place) = first_outside(model.vars.as_slice(), solution) {
        return Ok(Some(Wrong::Outside(place as u32)));
    }
    match first_failing(rt, model, solution) {
        Some(place) => Ok(Some(Wrong::Violates(place + 1))),
        None => Ok(None),
    }
}
