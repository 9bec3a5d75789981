//! Propagation by lanes on small boxes, and two lanes that wait for each other.

ghost use Rattle.std.specs.Prelude.{◌≡◌, ◌≤◌, length, IfOk};
ghost use Rattle.std.specs.List.{All};
ghost use Rattle.guarded_tell.specs.Kernels.{IsKernel};
ghost use Rattle.rounds.specs.Shares.{IsCut, IsShare};

use crate::boxes::{at_most, bounds_of, equal, four, opposed, raising};
use gate::{Gate, NoGate};
use guarded_tell::Kernel;
use interval::BoxOf;
use lattice_store::Store;
use meeting::Meet;
use memory::NoMemory;
use rounds::{Cache, Engine, Limited, Propagated, Work, even_cut, propagate, run_share};
use std::alloc::{AllocError, Global};
use std::process::Abort;
use std::test::Fail;
use std::thread::Threads;

/// What propagation gives: the bounds of all variables or none, and the rounds.
fn outcome<R: Threads + Sync, G: Gate + Sync>(
    rt: &R,
    alloc: Global,
    start: &BoxOf,
    kernels: &[Kernel],
    cut: &[Vec<u32>],
    gate: &G,
) -> Result<(Option<[i64; 8]>, u128), NoMemory>
    requires start { length start.now ≡ 4 }
    requires kernels { All (IsKernel 4) kernels.now }
    requires cut { IsCut (length kernels.now) cut.now }
{
    match propagate(rt, alloc, start, kernels, cut, gate)? {
        Propagated::Fixed { box_of, rounds } => Ok((Some(bounds_of(&box_of)), rounds)),
        Propagated::Failed { rounds } => Ok((None, rounds)),
    }
}

/// Propagates in even cuts, and asserts that each gives the same: one lane in two rounds, as counted by hand, and more
/// lanes in at most seven.
#[tactic(auto, unfolding(rounds::specs::Shares::share_limit))]
fn give<R: Threads + Sync + Abort>(
    rt: &R,
    alloc: Global,
    start: [(i8, i8); 4],
    kernels: &[Kernel],
    bounds: Option<[i64; 8]>,
) -> Result<(), NoMemory>
    requires kernels { All (IsKernel 4) kernels.now }
    requires short { length kernels.now ≤ 2 }
{
    let start = four(alloc, start)?;
    for (lanes, fewest, most) in [(1, 2, 2), (2, 1, 7), (3, 1, 7), (64, 1, 7)] {
        let cut = even_cut(alloc, kernels, lanes)?;
        let (found, rounds) = outcome(rt, alloc, &start, kernels, &cut, &NoGate)?;
        assert_eq!(rt; found, bounds, "by {lanes} lanes");
        assert!(rt;
            fewest <= rounds && rounds <= most,
            "{rounds} rounds by {lanes} lanes"
        );
    }
    Ok(())
}

/// The kernels of x + y <= 7 and of x + 2 y = z.
fn sums(alloc: Global) -> Result<[Kernel; 2], AllocError>
    ensures { IfOk result (All (IsKernel 4)) }
{
    let at_most_seven = at_most(alloc, &[1, 1], &[1, 2], 7)?;
    let z_is_the_sum = equal(alloc, &[1, 2, -1], &[1, 2, 3], 0)?;
    Ok([at_most_seven, z_is_the_sum])
}

/// The box in which propagation of the two sums begins, and the bounds that it ends with.
const SUMS_START: [(i8, i8); 4] = [(1, 1), (0, 10), (0, 10), (0, 14)];

const SUMS_END: [i64; 8] = [1, 1, 0, 7, 0, 7, 0, 14];

/// A cut of two kernels with an empty share, and with a kernel that is in two.
fn overlapping(alloc: Global) -> Result<Vec<Vec<u32>>, AllocError>
    ensures { IfOk result (λ v. IsCut 2 v.items) }
{
    let one = Vec::from_slice(alloc, &[0, 1])?;
    let two = Vec::from_slice(alloc, &[1])?;
    Ok(vec![in alloc; Vec::new(alloc), one, two]?)
}

#[test]
fn every_even_cut_gives_the_one_box(rt: HostRuntime) -> Result<(), Fail> {
    let kernels = sums(rt.alloc())?;
    give(&rt, rt.alloc(), SUMS_START, &kernels, Some(SUMS_END))?;
    Ok(())
}

#[test]
fn overlapping_shares_give_the_one_box(rt: HostRuntime) -> Result<(), Fail> {
    let kernels = sums(rt.alloc())?;
    let start = four(rt.alloc(), SUMS_START)?;
    let cut = overlapping(rt.alloc())?;
    let (found, rounds) = outcome(&rt, rt.alloc(), &start, &kernels, &cut, &NoGate)?;
    assert_eq!(rt; found, Some(SUMS_END));
    assert!(rt; rounds <= 7);
    Ok(())
}

#[test]
fn one_kernel_is_run_by_one_of_many_lanes(rt: HostRuntime) -> Result<(), Fail> {
    let kernels = raising(rt.alloc())?;
    let start = [(1, 1), (1, 3), (2, 2), (0, 0)];
    let bounds = [1, 1, 2, 3, 2, 2, 0, 0];
    give(&rt, rt.alloc(), start, &kernels, Some(bounds))?;
    Ok(())
}

#[test]
fn opposed_kernels_fail_in_every_cut(rt: HostRuntime) -> Result<(), Fail> {
    let kernels = opposed(rt.alloc())?;
    let start = [(1, 1), (0, 3), (0, 3), (0, 0)];
    give(&rt, rt.alloc(), start, &kernels, None)?;
    Ok(())
}

/// Runs a share twice: whether bounds moved, and how many passes that made.
fn run_twice(
    alloc: Global,
    start: &BoxOf,
    kernels: &[Kernel],
    share: &[u32],
) -> Result<(bool, bool, u64), NoMemory>
    requires start { length start.now ≡ 4 }
    requires kernels { All (IsKernel 4) kernels.now }
    requires share { IsShare (length kernels.now) share.now }
{
    let (store, mut seat) = Store::new(alloc, start)?;
    let mut cache = Cache::new(alloc, 0, start)?;
    let first = run_share(&store, &mut seat, &mut cache, kernels, share, &NoGate);
    let second = run_share(&store, &mut seat, &mut cache, kernels, share, &NoGate);
    Ok((first, second, cache.turn))
}

#[test]
fn a_share_moves_bounds_once(rt: HostRuntime) -> Result<(), Fail> {
    let x_below_y = [at_most(rt.alloc(), &[1, -1], &[1, 2], -1)?];
    let start = four(rt.alloc(), [(1, 1), (0, 3), (0, 3), (0, 0)])?;
    let ran = run_twice(rt.alloc(), &start, &x_below_y, &[0])?;
    assert_eq!(rt; ran, (true, false, 2));
    Ok(())
}

/// Propagates two boxes in turn by one engine, more often than its store has epochs: these are 32,768.
#[tactic(auto, unfolding(rounds::specs::Shares::share_limit, interval::specs::Limits::box_limit))]
fn propagate_in_turn<R: Threads + Sync + Abort>(
    rt: &R,
    alloc: Global,
    wide: &BoxOf,
    failing: &BoxOf,
    kernels: &[Kernel],
) -> Result<(), NoMemory>
    requires wide { length wide.now ≡ 4 }
    requires failing { length failing.now ≡ 4 }
    requires kernels { All (IsKernel 4) kernels.now }
    requires one { length kernels.now ≡ 1 }
{
    let cut = even_cut(alloc, kernels, 1)?;
    let mut engine = Engine::new(alloc, 4, 1)?;
    let mut into = wide.copy(alloc)?;
    for pass in 0..32_800u32 {
        let fails = pass % 2 == 1;
        let work = Work {
            start: if fails { failing } else { wide },
            kernels,
            cut: &cut,
            round_limit: 0,
            gate: &NoGate,
        };
        let end = engine.propagate(rt, alloc, &work, &mut into)?;
        if fails {
            assert_eq!(rt; end, Limited::Failed { rounds: 1 });
        } else {
            assert_eq!(rt; end, Limited::Fixed { rounds: 2 });
            assert_eq!(rt; bounds_of(&into), [1, 1, 0, 2, 1, 3, 0, 0]);
        }
    }
    Ok(())
}

#[test]
fn an_engine_goes_on_after_the_last_epoch_of_its_store(rt: HostRuntime) -> Result<(), Fail> {
    let x_below_y = [at_most(rt.alloc(), &[1, -1], &[1, 2], -1)?];
    let wide = four(rt.alloc(), [(1, 1), (0, 3), (0, 3), (0, 0)])?;
    let failing = four(rt.alloc(), [(1, 1), (2, 3), (0, 2), (0, 0)])?;
    propagate_in_turn(&rt, rt.alloc(), &wide, &failing, &x_below_y)?;
    Ok(())
}

/// How propagation of two kernels by one lane ends within so many rounds, and in which bounds where they aren't crossed.
#[tactic(auto, unfolding(rounds::specs::Shares::share_limit, interval::specs::Limits::box_limit))]
fn limited<R: Threads + Sync>(
    rt: &R,
    alloc: Global,
    start: &BoxOf,
    kernels: &[Kernel],
    round_limit: u64,
) -> Result<(Limited, Option<[i64; 8]>), NoMemory>
    requires start { length start.now ≡ 4 }
    requires kernels { All (IsKernel 4) kernels.now }
    requires two { length kernels.now ≡ 2 }
{
    let cut = even_cut(alloc, kernels, 1)?;
    let mut engine = Engine::new(alloc, 4, 1)?;
    let mut into = start.copy(alloc)?;
    let work = Work {
        start,
        kernels,
        cut: &cut,
        round_limit,
        gate: &NoGate,
    };
    let end = engine.propagate(rt, alloc, &work, &mut into)?;
    match end {
        Limited::Failed { .. } => Ok((end, None)),
        _ => Ok((end, Some(bounds_of(&into)))),
    }
}

#[test]
fn a_limit_stops_rounds_that_creep(rt: HostRuntime) -> Result<(), Fail> {
    let creeping = opposed(rt.alloc())?;
    let start = four(rt.alloc(), [(1, 1), (0, 14), (0, 14), (0, 0)])?;
    let after_one = Some([1, 1, 2, 13, 1, 12, 0, 0]);
    let after_three = Some([1, 1, 6, 9, 5, 8, 0, 0]);
    for (round_limit, end) in [
        (1, (Limited::RoundsSpent { rounds: 1 }, after_one)),
        (3, (Limited::RoundsSpent { rounds: 3 }, after_three)),
        (4, (Limited::Failed { rounds: 4 }, None)),
        (0, (Limited::Failed { rounds: 4 }, None)),
    ] {
        let found = limited(&rt, rt.alloc(), &start, &creeping, round_limit)?;
        assert_eq!(rt; found, end);
    }
    Ok(())
}

/// The kernels of x <= 3 and of y <= 3, each twice: in an even cut each of two lanes has two.
pub(crate) fn twice_at_most_three(alloc: Global) -> Result<[Kernel; 4], AllocError>
    ensures { IfOk result (All (IsKernel 4)) }
{
    Ok([
        at_most(alloc, &[1], &[1], 3)?,
        at_most(alloc, &[1], &[2], 3)?,
        at_most(alloc, &[1], &[1], 3)?,
        at_most(alloc, &[1], &[2], 3)?,
    ])
}

#[test]
#[tactic(auto, unfolding(rounds::specs::Shares::share_limit))]
fn two_lanes_meet_in_one_propagation(rt: HostRuntime) -> Result<(), Fail> {
    let kernels = twice_at_most_three(rt.alloc())?;
    let start = four(rt.alloc(), [(1, 1), (0, 3), (0, 3), (0, 0)])?;
    let cut = even_cut(rt.alloc(), &kernels, 2)?;
    let gate = Meet::new();
    let found = outcome(&rt, rt.alloc(), &start, &kernels, &cut, &gate)?;
    assert_eq!(rt; found, (Some([1, 1, 0, 3, 0, 3, 0, 0]), 1));
    assert!(rt; gate.was_passed());
    Ok(())
}

#[test]
#[tactic(auto, unfolding(rounds::specs::Shares::share_limit, interval::specs::Limits::box_limit))]
fn two_lanes_meet_in_each_propagation_of_an_engine(rt: HostRuntime) -> Result<(), Fail> {
    let kernels = twice_at_most_three(rt.alloc())?;
    let start = four(rt.alloc(), [(1, 1), (0, 3), (0, 3), (0, 0)])?;
    let cut = even_cut(rt.alloc(), &kernels, 2)?;
    let mut engine = Engine::new(rt.alloc(), 4, 2)?;
    let mut into = start.copy(rt.alloc())?;
    for _ in 0..2 {
        let gate = Meet::new();
        let work = Work {
            start: &start,
            kernels: &kernels,
            cut: &cut,
            round_limit: 0,
            gate: &gate,
        };
        let end = engine.propagate(&rt, rt.alloc(), &work, &mut into)?;
        assert_eq!(rt; end, Limited::Fixed { rounds: 1 });
        assert!(rt; gate.was_passed());
    }
    Ok(())
}
