//! Boxes of two variables, changed and restored by hand.

ghost use Rattle.std.specs.Prelude.{◌≡◌, length, IfOk, OnOk};

use interval::BoxOf;
use memory::NoMemory;
use std::alloc::Global;
use std::test::Fail;
use trailed_box::{Part, TrailedBox};

/// What is done with bounds of a variable.
#[derive(Clone, Copy)]
enum Step {
    /// The box gets them.
    Put,
    /// The box with them is left for later.
    Push,
}

/// One of the two variables.
#[derive(Clone, Copy)]
enum Variable {
    First,
    Second,
}

use Step::{Push, Put};
use Variable::{First, Second};

/// Takes a step.
#[tactic(auto, unfolding(interval::specs::Limits::bound_limit, interval::specs::Limits::largest_number))]
fn take(
    b: &mut TrailedBox,
    step: Step,
    variable: Variable,
    low: i8,
    high: i8,
) -> Result<(), NoMemory>
    requires { length b.old.current ≡ 2 }
    ensures { OnOk result (length b.new.current ≡ 2) }
{
    let v = match variable {
        First => 0,
        Second => 1,
    };
    match step {
        Put => b.put(v, low as i64, high as i64),
        Push => b.push(v, low as i64, high as i64),
    }
}

/// The box of the pairs (0, 9) and (-5, 5) after these steps.
fn after(alloc: Global, steps: &[(Step, Variable, i8, i8)]) -> Result<TrailedBox, NoMemory>
    ensures { IfOk result (λ b. length b.current ≡ 2) }
{
    let mut b = TrailedBox::new(alloc, BoxOf::from_pairs(alloc, &[(0, 9), (-5, 5)])?)?;
    for (step, variable, low, high) in steps {
        take(&mut b, *step, *variable, *low, *high)?;
    }
    Ok(b)
}

/// The bounds of both variables.
fn bounds_of(b: &TrailedBox) -> [i64; 4]
    requires { length b.now.current ≡ 2 }
{
    [b.low(0), b.high(0), b.low(1), b.high(1)]
}

/// Goes back, and puts the part that was left for later.
fn turn(b: &mut TrailedBox) -> Result<(), NoMemory>
    ensures { length b.new.current ≡ length b.old.current }
{
    match b.pop() {
        Some(part) => b.put(part.var, part.low, part.high),
        None => Ok(()),
    }
}

#[test]
fn a_box_goes_back_to_its_mark(rt: HostRuntime) -> Result<(), Fail> {
    let mut b = after(
        rt.alloc(),
        &[
            (Put, First, 1, 9),
            (Push, First, 6, 9),
            (Put, First, 1, 5),
            (Put, Second, 0, 5),
            (Put, First, 2, 4),
        ],
    )?;
    assert_eq!(rt; bounds_of(&b), [2, 4, 0, 5]);
    let (var, low, high) = (0, 6, 9);
    assert_eq!(rt; b.pop(), Some(Part { var, low, high }));
    assert_eq!(rt; bounds_of(&b), [1, 9, -5, 5]);
    assert_eq!(rt; b.pop(), None);
    Ok(())
}

#[test]
fn marks_stand_in_marks(rt: HostRuntime) -> Result<(), Fail> {
    let mut b = after(
        rt.alloc(),
        &[
            (Push, First, 6, 9),
            (Put, First, 0, 5),
            (Push, Second, 1, 5),
            (Put, Second, -5, 0),
            (Put, First, 3, 3),
        ],
    )?;
    for bounds in [[0, 5, 1, 5], [6, 9, -5, 5], [6, 9, -5, 5]] {
        turn(&mut b)?;
        assert_eq!(rt; bounds_of(&b), bounds);
    }
    Ok(())
}

/// However often a box goes back to later marks, it still goes back to an earlier one.
#[test]
fn an_earlier_mark_outlives_later_ones(rt: HostRuntime) -> Result<(), Fail> {
    let mut b = after(rt.alloc(), &[(Push, Second, 1, 5)])?;
    for number in 0..3 {
        take(&mut b, Push, First, number + 1, 9)?;
        take(&mut b, Put, First, number, number)?;
        turn(&mut b)?;
    }
    assert_eq!(rt; bounds_of(&b), [3, 9, -5, 5]);
    turn(&mut b)?;
    assert_eq!(rt; bounds_of(&b), [0, 9, 1, 5]);
    Ok(())
}
