//! Propagation by lanes on mixes of four variables: holes that stay, holes that move bounds, and two lanes that wait for each
//! other.

ghost use Rattle.std.specs.Prelude.{◌≡◌, ◌≤◌, length, IfOk};
ghost use Rattle.std.specs.List.{All};
ghost use Rattle.guarded_tell.specs.Kernels.{IsKernel};
ghost use Rattle.shared_lanes.specs.Cuts.{IsCut};

use crate::boxes::{at_most, equal, four, opposed, unequal};
use crate::lanes::twice_at_most_three;
use bit_domain::{Dom, MixOf};
use gate::{Gate, NoGate};
use guarded_tell::Kernel;
use interval::BoxOf;
use meeting::Meet;
use memory::NoMemory;
use mix_rounds::{PropagatedMix, propagate_mix};
use rounds::even_cut;
use std::alloc::{AllocError, Global};
use std::process::Abort;
use std::test::Fail;
use std::thread::Threads;

/// The domains of all variables but the first.
fn doms_of(m: &MixOf) -> [Dom; 3]
    requires { length m.now ≡ 4 }
{
    [m.dom(1), m.dom(2), m.dom(3)]
}

/// What propagation of the mix of a box gives: the domains or none, and the rounds.
fn outcome<R: Threads + Sync, G: Gate + Sync>(
    rt: &R,
    alloc: Global,
    start: &BoxOf,
    kernels: &[Kernel],
    cut: &[Vec<u32>],
    gate: &G,
) -> Result<(Option<[Dom; 3]>, u128), NoMemory>
    requires start { length start.now ≡ 4 }
    requires kernels { All (IsKernel 4) kernels.now }
    requires cut { IsCut (length kernels.now) cut.now }
{
    let start = MixOf::from_box(alloc, start)?;
    match propagate_mix(rt, alloc, &start, kernels, cut, gate)? {
        PropagatedMix::Fixed { mix, rounds } => Ok((Some(doms_of(&mix)), rounds)),
        PropagatedMix::Failed { rounds } => Ok((None, rounds)),
    }
}

/// Propagates by one lane and by three, and asserts that both give the same, within so many rounds.
#[tactic(auto, unfolding(rounds::specs::Shares::share_limit))]
fn give<R: Threads + Sync + Abort>(
    rt: &R,
    alloc: Global,
    start: [(i8, i8); 4],
    kernels: &[Kernel],
    doms: Option<[Dom; 3]>,
    most: u128,
) -> Result<(), NoMemory>
    requires kernels { All (IsKernel 4) kernels.now }
    requires short { length kernels.now ≤ 9 }
{
    let start = four(alloc, start)?;
    for lanes in [1, 3] {
        let cut = even_cut(alloc, kernels, lanes)?;
        let (found, rounds) = outcome(rt, alloc, &start, kernels, &cut, &NoGate)?;
        assert_eq!(rt; found, doms, "by {lanes} lanes");
        assert!(rt; rounds <= most, "{rounds} rounds by {lanes} lanes");
    }
    Ok(())
}

/// A variable that is 0.
const ZERO: Dom = Dom::Bits { base: 0, set: 1 };

/// The kernel that takes 3 from x.
fn without_three(alloc: Global) -> Result<[Kernel; 1], AllocError>
    ensures { IfOk result (All (IsKernel 4)) }
{
    Ok([unequal(alloc, &[1], &[1], 3)?])
}

#[test]
fn a_hole_stays(rt: HostRuntime) -> Result<(), Fail> {
    let kernels = without_three(rt.alloc())?;
    let start = [(1, 1), (1, 5), (0, 0), (0, 0)];
    let x = Dom::Bits {
        base: 1,
        set: 0b1_1011,
    };
    give(&rt, rt.alloc(), start, &kernels, Some([x, ZERO, ZERO]), 2)?;
    Ok(())
}

/// The kernels that leave 1, 4 and 9 of the numbers of x, and that of x + 1 = y.
fn squares(alloc: Global) -> Result<[Kernel; 7], AllocError>
    ensures { IfOk result (All (IsKernel 4)) }
{
    Ok([
        unequal(alloc, &[1], &[1], 2)?,
        unequal(alloc, &[1], &[1], 3)?,
        unequal(alloc, &[1], &[1], 5)?,
        unequal(alloc, &[1], &[1], 6)?,
        unequal(alloc, &[1], &[1], 7)?,
        unequal(alloc, &[1], &[1], 8)?,
        equal(alloc, &[1, -1], &[1, 2], -1)?,
    ])
}

#[test]
fn a_small_domain_and_a_pair(rt: HostRuntime) -> Result<(), Fail> {
    let kernels = squares(rt.alloc())?;
    let start = [(1, 1), (1, 9), (0, 100), (0, 0)];
    let x = Dom::Bits {
        base: 1,
        set: 0b1_0000_1001,
    };
    let y = Dom::Pair { low: 2, high: 10 };
    give(&rt, rt.alloc(), start, &kernels, Some([x, y, ZERO]), 9)?;
    Ok(())
}

/// The kernels of x being neither 1 nor 2, of x <= y and of y + z = 9.
fn raised(alloc: Global) -> Result<[Kernel; 4], AllocError>
    ensures { IfOk result (All (IsKernel 4)) }
{
    Ok([
        equal(alloc, &[1, 1], &[2, 3], 9)?,
        at_most(alloc, &[1, -1], &[1, 2], 0)?,
        unequal(alloc, &[1], &[1], 2)?,
        unequal(alloc, &[1], &[1], 1)?,
    ])
}

#[test]
fn a_hole_moves_the_bounds_of_other_variables(rt: HostRuntime) -> Result<(), Fail> {
    let kernels = raised(rt.alloc())?;
    let start = [(1, 1), (1, 4), (0, 9), (0, 100)];
    let x = Dom::Bits {
        base: 1,
        set: 0b1100,
    };
    let y = Dom::Bits {
        base: 0,
        set: 0b11_1111_1000,
    };
    let z = Dom::Pair { low: 0, high: 6 };
    give(&rt, rt.alloc(), start, &kernels, Some([x, y, z]), 6)?;
    Ok(())
}

#[test]
fn no_number_is_left(rt: HostRuntime) -> Result<(), Fail> {
    let kernels = opposed(rt.alloc())?;
    let start = [(1, 1), (0, 3), (0, 3), (0, 0)];
    give(&rt, rt.alloc(), start, &kernels, None, 7)?;
    Ok(())
}

#[test]
fn a_crossed_start_fails_without_a_round(rt: HostRuntime) -> Result<(), Fail> {
    let kernels = without_three(rt.alloc())?;
    let start = [(1, 1), (5, 3), (0, 0), (0, 0)];
    give(&rt, rt.alloc(), start, &kernels, None, 0)?;
    Ok(())
}

#[test]
#[tactic(auto, unfolding(rounds::specs::Shares::share_limit))]
fn two_lanes_meet_over_a_mix(rt: HostRuntime) -> Result<(), Fail> {
    let kernels = twice_at_most_three(rt.alloc())?;
    let start = four(rt.alloc(), [(1, 1), (0, 3), (0, 3), (0, 0)])?;
    let cut = even_cut(rt.alloc(), &kernels, 2)?;
    let gate = Meet::new();
    let found = outcome(&rt, rt.alloc(), &start, &kernels, &cut, &gate)?;
    let x = Dom::Bits {
        base: 0,
        set: 0b1111,
    };
    assert_eq!(rt; found, (Some([x, x, ZERO]), 1));
    assert!(rt; gate.was_passed());
    Ok(())
}
