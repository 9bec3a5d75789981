//! Boxes of four variables, kernels of them, and what is learned from a box.

ghost use Rattle.std.specs.Prelude.{◌≡◌, ◌≤◌, length, IsTrue, IfOk, OnOk};
ghost use Rattle.std.specs.List.{All};
ghost use Rattle.interval.specs.Limits.{IsBound};
ghost use Rattle.guarded_tell.specs.Kernels.{IsKernel};
ghost use Rattle.nogoods.specs.Learners.{Serves};
ghost use Rattle.learning_tests.specs.Small.{is_small, are_small, are_below_four};

use guarded_tell::{Kernel, Lit, Side, Tell};
use interval::BoxOf;
use memory::NoMemory;
use nogoods::{Bearing, Learner, Nogood};
use shared_list::SharedList;
use std::alloc::{AllocError, Global};
use trailed_box::{Cause, TrailedBox};

/// Variable 0, which is true in each box here.
const TRUE: Lit = Lit {
    var: 0,
    positive: true,
};

/// A box of four variables.
#[tactic(auto, unfolding(interval::specs::Limits::bound_limit, interval::specs::Limits::largest_number))]
pub(crate) fn four(alloc: Global, pairs: [(i8, i8); 4]) -> Result<BoxOf, NoMemory>
    ensures { IfOk result (λ b. length b ≡ 4) }
{
    let mut b = BoxOf::from_pairs(alloc, &[(0, 0); 4])?;
    for v in 0..4 {
        let (low, high) = pairs[v as usize];
        b.put(v, low as i64, high as i64);
    }
    Ok(b)
}

/// The kernel of a sum that is at most a limit.
pub(crate) fn at_most(
    alloc: Global,
    coeffs: &[i64],
    vars: &[u32],
    limit: i64,
) -> Result<Kernel, AllocError>
    requires coeffs { IsTrue (are_small coeffs.now) }
    requires vars { IsTrue (are_below_four vars.now) }
    requires same_length { length coeffs.now ≡ length vars.now }
    requires short { length coeffs.now ≤ 3 }
    requires limit { IsTrue (is_small limit) }
    ensures { IfOk result (IsKernel 4) }
{
    let numbers = SharedList::from_vec(Vec::from_slice(alloc, coeffs)?)?;
    let variables = SharedList::from_vec(Vec::from_slice(alloc, vars)?)?;
    Ok(Kernel::Le {
        lit: TRUE,
        coeffs: numbers,
        vars: variables,
        limit,
    })
}

/// That a variable is at least a number.
pub(crate) fn low(var: u32, bound: i64) -> Tell {
    Tell {
        var,
        side: Side::Low,
        bound,
    }
}

/// That it is at most one.
pub(crate) fn high(var: u32, bound: i64) -> Tell {
    Tell {
        var,
        side: Side::High,
        bound,
    }
}

/// Puts bounds of a variable for this cause.
#[tactic(auto, unfolding(interval::specs::Limits::bound_limit, interval::specs::Limits::largest_number))]
pub(crate) fn put(
    b: &mut TrailedBox,
    cause: Cause,
    v: u32,
    low: i8,
    high: i8,
) -> Result<(), NoMemory>
    requires { length b.old.current ≡ 4 }
    ensures { OnOk result (length b.new.current ≡ 4) }
{
    b.because(cause);
    if v >= b.len() {
        return Ok(());
    }
    b.put(v, low as i64, high as i64)
}

/// Whether the nogood has just these literals.
pub(crate) fn has_just(nogood: &Nogood, wanted: &[Tell]) -> bool {
    let literals = nogood.literals.as_slice();
    literals.len() == wanted.len() && wanted.iter().all(|t| literals.contains(t))
}

/// What learned from the box, which failed.
pub(crate) fn learned(
    alloc: Global,
    kernels: &[Kernel],
    space: &BoxOf,
    b: &TrailedBox,
    from: usize,
    is_whole: bool,
) -> Result<Learner, NoMemory>
    requires kernels { All (IsKernel 4) kernels.now }
    requires space { length space.now ≡ 4 }
    requires same_count { length b.now.current ≡ 4 }
    ensures { IfOk result (Serves kernels.now space.now) }
{
    let mut learner = Learner::new(alloc, space)?;
    let _ = learner.learn(alloc, kernels, space, b.log(), b.current(), from, is_whole);
    Ok(learner)
}

/// How what was learned bears on the box.
pub(crate) fn bearing(
    learner: &mut Learner,
    kernels: &[Kernel],
    space: &BoxOf,
    b: &TrailedBox,
) -> Bearing
    requires space { length space.now ≡ 4 }
    requires same_count { length b.now.current ≡ 4 }
    requires serves { Serves kernels.now space.now learner.old }
    ensures { Serves kernels.now space.now learner.new }
{
    learner.bearing(b.current(), b.log())
}

/// Says that the log was cut to this length, and that each nogood is looked at.
pub(crate) fn go_back(learner: &mut Learner, kernels: &[Kernel], space: &BoxOf, len: usize)
    requires { Serves kernels.now space.now learner.old }
    ensures { Serves kernels.now space.now learner.new }
{
    learner.back_to(len);
    learner.begin_anew();
}
