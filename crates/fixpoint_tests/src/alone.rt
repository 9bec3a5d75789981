//! Propagation by one thread on small boxes, with rounds counted by hand.

ghost use Rattle.std.specs.Prelude.{◌≡◌, length};
ghost use Rattle.std.specs.List.{All};
ghost use Rattle.guarded_tell.specs.Kernels.{IsKernel};

use crate::boxes::{bounds_of, four, opposed, raising};
use fixpoint_laws::{Settled, settle_alone};
use guarded_tell::Kernel;
use memory::NoMemory;
use std::alloc::Global;
use std::test::Fail;

/// How a box settles, and the bounds that it has then where it isn't crossed.
fn settled(
    alloc: Global,
    start: [(i8, i8); 4],
    kernels: &[Kernel],
) -> Result<(Settled, Option<[i64; 8]>), NoMemory>
    requires { All (IsKernel 4) kernels.now }
{
    let mut b = four(alloc, start)?;
    let mut spare = b.copy(alloc)?;
    let end = settle_alone(&mut b, &mut spare, kernels);
    match end {
        Settled::Fixed { .. } => Ok((end, Some(bounds_of(&b)))),
        Settled::Failed { .. } => Ok((end, None)),
    }
}

#[test]
fn opposed_kernels_fail_in_the_second_round(rt: HostRuntime) -> Result<(), Fail> {
    let kernels = opposed(rt.alloc())?;
    let found = settled(rt.alloc(), [(1, 1), (0, 3), (0, 3), (0, 0)], &kernels)?;
    assert_eq!(rt; found, (Settled::Failed { rounds: 2 }, None));
    Ok(())
}

#[test]
fn a_raised_bound_takes_a_round_and_a_still_one(rt: HostRuntime) -> Result<(), Fail> {
    let kernels = raising(rt.alloc())?;
    let found = settled(rt.alloc(), [(1, 1), (1, 3), (2, 2), (0, 0)], &kernels)?;
    let bounds = [1, 1, 2, 3, 2, 2, 0, 0];
    assert_eq!(rt; found, (Settled::Fixed { rounds: 2 }, Some(bounds)));
    Ok(())
}

#[test]
fn no_kernels_take_one_round_or_none(rt: HostRuntime) -> Result<(), Fail> {
    for (y, end) in [
        (
            (0, 3),
            (Settled::Fixed { rounds: 1 }, Some([1, 1, 0, 3, 0, 3, 0, 0])),
        ),
        ((2, 1), (Settled::Failed { rounds: 0 }, None)),
    ] {
        let found = settled(rt.alloc(), [(1, 1), (0, 3), y, (0, 0)], &[])?;
        assert_eq!(rt; found, end);
    }
    Ok(())
}
