//! What an analysis learns, by hand.

ghost use Rattle.std.specs.Prelude.{◌≡◌, length, IfOk, OnOk};
ghost use Rattle.std.specs.List.{All};
ghost use Rattle.guarded_tell.specs.Kernels.{IsKernel};

use crate::boxes::{at_most, bearing, four, go_back, has_just, high, learned, low, put};
use crate::known::is_met_by;
use guarded_tell::Kernel;
use interval::BoxOf;
use memory::NoMemory;
use nogoods::Bearing;
use std::alloc::{AllocError, Global};
use std::test::Fail;
use trailed_box::{Cause, TrailedBox};

/// Variable 2 is the absolute value of variable 1, and of variable 3.
fn absolutes() -> [Kernel; 2]
    ensures { All (IsKernel 4) result }
{
    [Kernel::Abs { x: 1, y: 2 }, Kernel::Abs { x: 3, y: 2 }]
}

/// The box that is searched then: the constant 1, and the three variables.
fn signs(alloc: Global) -> Result<BoxOf, NoMemory>
    ensures { IfOk result (λ b. length b ≡ 4) }
{
    four(alloc, [(1, 1), (-5, 5), (0, 5), (-5, 5)])
}

/// First variable 3 is chosen between -2 and 2, so that variable 2 is at most 2; then variable 1 is chosen at least 3, so that no
/// number is left for variable 2.
fn failed(alloc: Global) -> Result<TrailedBox, NoMemory>
    ensures { IfOk result (λ b. length b.current ≡ 4) }
{
    let mut b = TrailedBox::new(alloc, signs(alloc)?)?;
    b.keep_log(alloc);
    put(&mut b, Cause::Choice, 3, -2, 2)?;
    put(&mut b, Cause::Kernel(1), 2, 0, 2)?;
    leave(&mut b)?;
    put(&mut b, Cause::Choice, 1, 3, 5)?;
    put(&mut b, Cause::Kernel(0), 2, 3, 2)?;
    Ok(b)
}

/// Leaves the box for later.
#[tactic(auto, unfolding(interval::specs::Limits::bound_limit, interval::specs::Limits::largest_number))]
fn leave(b: &mut TrailedBox) -> Result<(), NoMemory>
    requires { length b.old.current ≡ 4 }
    ensures { OnOk result (length b.new.current ≡ 4) }
{
    b.push(1, -5, 5)
}

#[test]
fn the_choice_and_the_bound_before_it(rt: HostRuntime) -> Result<(), Fail> {
    let (alloc, kernels) = (rt.alloc(), absolutes());
    let space = signs(alloc)?;
    let b = failed(alloc)?;
    let learner = learned(alloc, &kernels, &space, &b, b.level_start(), false)?;
    assert_eq!(rt; learner.store.as_slice().len(), 1);
    assert!(rt; has_just(&learner.store[0], &[low(1, 3), high(2, 2)]));
    Ok(())
}

#[test]
fn the_choices_alone(rt: HostRuntime) -> Result<(), Fail> {
    let (alloc, kernels) = (rt.alloc(), absolutes());
    let space = signs(alloc)?;
    let b = failed(alloc)?;
    let learner = learned(alloc, &kernels, &space, &b, 0, true)?;
    assert_eq!(rt; learner.store.as_slice().len(), 1);
    assert!(rt; has_just(&learner.store[0], &[low(1, 3), low(3, -2), high(3, 2)]));
    assert!(rt; !is_met_by(&learner.store[0], &[1, 3, 3, 3]));
    assert!(rt; is_met_by(&learner.store[0], &[1, 3, 3, 2]));
    Ok(())
}

#[test]
fn what_was_learned_bears_on_the_box_before(rt: HostRuntime) -> Result<(), Fail> {
    let (alloc, kernels) = (rt.alloc(), absolutes());
    let space = signs(alloc)?;
    let mut b = failed(alloc)?;
    let mut learner = learned(alloc, &kernels, &space, &b, b.level_start(), false)?;
    assert_eq!(rt;
        bearing(&mut learner, &kernels, &space, &b),
        Bearing::Failed(0)
    );
    // the bound of variable 2 was put before the box was left
    assert_eq!(rt; learner.jump_place(0, b.log()), 3);
    let _ = b.pop();
    go_back(&mut learner, &kernels, &space, b.log().len());
    assert_eq!(rt;
        bearing(&mut learner, &kernels, &space, &b),
        Bearing::Told(high(1, 2), 0)
    );
    Ok(())
}

/// The sum of three variables is at most 10.
fn sum_of_three(alloc: Global) -> Result<[Kernel; 1], AllocError>
    ensures { IfOk result (All (IsKernel 4)) }
{
    Ok([at_most(alloc, &[1, 1, 1], &[1, 2, 3], 10)?])
}

/// The box that is searched then.
fn numbers(alloc: Global) -> Result<BoxOf, NoMemory>
    ensures { IfOk result (λ b. length b ≡ 4) }
{
    four(alloc, [(1, 1), (0, 10), (0, 10), (0, 10)])
}

/// Variable 1 is chosen at least 4, then variable 2 at least 5 and variable 3 at least 3; but the sum lets it be 1 at most.
fn overfull(alloc: Global) -> Result<TrailedBox, NoMemory>
    ensures { IfOk result (λ b. length b.current ≡ 4) }
{
    let mut b = TrailedBox::new(alloc, numbers(alloc)?)?;
    b.keep_log(alloc);
    put(&mut b, Cause::Choice, 1, 4, 10)?;
    leave(&mut b)?;
    put(&mut b, Cause::Choice, 2, 5, 10)?;
    put(&mut b, Cause::Choice, 3, 3, 10)?;
    put(&mut b, Cause::Kernel(0), 3, 3, 1)?;
    Ok(b)
}

#[test]
fn a_reason_is_weakened_by_the_slack_of_the_sum(rt: HostRuntime) -> Result<(), Fail> {
    let alloc = rt.alloc();
    let kernels = sum_of_three(alloc)?;
    let space = numbers(alloc)?;
    let b = overfull(alloc)?;
    let learner = learned(alloc, &kernels, &space, &b, b.level_start(), false)?;
    assert_eq!(rt; learner.store.as_slice().len(), 1);
    // 3 + 5 + 3 is more than 10 as well
    assert!(rt; has_just(&learner.store[0], &[low(1, 3), low(2, 5), low(3, 3)]));
    Ok(())
}

#[test]
fn a_nogood_is_looked_at_where_a_bound_that_it_watches_moves(rt: HostRuntime) -> Result<(), Fail> {
    let alloc = rt.alloc();
    let kernels = sum_of_three(alloc)?;
    let space = numbers(alloc)?;
    let mut b = overfull(alloc)?;
    let mut learner = learned(alloc, &kernels, &space, &b, b.level_start(), false)?;
    b.restart(&space);
    go_back(&mut learner, &kernels, &space, 0);
    assert_eq!(rt; bearing(&mut learner, &kernels, &space, &b), Bearing::Quiet);
    put(&mut b, Cause::Choice, 2, 5, 10)?;
    assert_eq!(rt; bearing(&mut learner, &kernels, &space, &b), Bearing::Quiet);
    put(&mut b, Cause::Choice, 1, 2, 10)?;
    assert_eq!(rt; bearing(&mut learner, &kernels, &space, &b), Bearing::Quiet);
    put(&mut b, Cause::Choice, 3, 6, 10)?;
    assert_eq!(rt;
        bearing(&mut learner, &kernels, &space, &b),
        Bearing::Told(high(1, 2), 0)
    );
    assert_eq!(rt; bearing(&mut learner, &kernels, &space, &b), Bearing::Quiet);
    Ok(())
}
