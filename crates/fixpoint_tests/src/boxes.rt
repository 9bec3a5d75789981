//! Boxes of four variables, and kernels of them.

ghost use Rattle.std.specs.Prelude.{◌≡◌, ◌≤◌, length, IsTrue, IfOk};
ghost use Rattle.std.specs.List.{All};
ghost use Rattle.guarded_tell.specs.Kernels.{IsKernel};
ghost use Rattle.fixpoint_tests.specs.Small.{is_small, are_small, are_below_four};

use guarded_tell::{Extended, Kernel, Lit};
use interval::BoxOf;
use memory::NoMemory;
use shared_list::SharedList;
use std::alloc::{AllocError, Global};

/// Variable 0, which is true in each box here.
const TRUE: Lit = Lit {
    var: 0,
    positive: true,
};

/// A box of four variables.
#[tactic(auto, unfolding(interval::specs::Limits::bound_limit, interval::specs::Limits::largest_number))]
pub(crate) fn four(alloc: Global, pairs: [(i8, i8); 4]) -> Result<BoxOf, NoMemory>
    ensures { IfOk result (λ b. length b ≡ 4) }
{
    let mut b = BoxOf::from_pairs(alloc, &[(0, 0); 4])?;
    for v in 0..4 {
        let (low, high) = pairs[v as usize];
        b.put(v, low as i64, high as i64);
    }
    Ok(b)
}

/// The bounds of all four variables.
pub(crate) fn bounds_of(b: &BoxOf) -> [i64; 8]
    requires { length b.now ≡ 4 }
{
    let (one, x, y, z) = (0, 1, 2, 3);
    [
        b.low(one),
        b.high(one),
        b.low(x),
        b.high(x),
        b.low(y),
        b.high(y),
        b.low(z),
        b.high(z),
    ]
}

/// The kernel of a sum that is at most a limit.
pub(crate) fn at_most(
    alloc: Global,
    coeffs: &[i64],
    vars: &[u32],
    limit: i64,
) -> Result<Kernel, AllocError>
    requires coeffs { IsTrue (are_small coeffs.now) }
    requires vars { IsTrue (are_below_four vars.now) }
    requires same_length { length coeffs.now ≡ length vars.now }
    requires short { length coeffs.now ≤ 3 }
    requires limit { IsTrue (is_small limit) }
    ensures { IfOk result (IsKernel 4) }
{
    let numbers = SharedList::from_vec(Vec::from_slice(alloc, coeffs)?)?;
    let variables = SharedList::from_vec(Vec::from_slice(alloc, vars)?)?;
    Ok(Kernel::Le {
        lit: TRUE,
        coeffs: numbers,
        vars: variables,
        limit,
    })
}

/// The kernel of a sum that is a limit.
pub(crate) fn equal(
    alloc: Global,
    coeffs: &[i64],
    vars: &[u32],
    limit: i64,
) -> Result<Kernel, AllocError>
    requires coeffs { IsTrue (are_small coeffs.now) }
    requires vars { IsTrue (are_below_four vars.now) }
    requires same_length { length coeffs.now ≡ length vars.now }
    requires short { length coeffs.now ≤ 3 }
    requires limit { IsTrue (is_small limit) }
    ensures { IfOk result (IsKernel 4) }
{
    let numbers = SharedList::from_vec(Vec::from_slice(alloc, coeffs)?)?;
    let variables = SharedList::from_vec(Vec::from_slice(alloc, vars)?)?;
    Ok(Kernel::Eq {
        lit: TRUE,
        coeffs: Extended::from_list(numbers),
        vars: Extended::from_list(variables),
        limit,
    })
}

/// The literal that is false in each box here.
const FALSE: Lit = Lit {
    var: 0,
    positive: false,
};

/// The kernel of a sum that isn't a limit.
pub(crate) fn unequal(
    alloc: Global,
    coeffs: &[i64],
    vars: &[u32],
    limit: i64,
) -> Result<Kernel, AllocError>
    requires coeffs { IsTrue (are_small coeffs.now) }
    requires vars { IsTrue (are_below_four vars.now) }
    requires same_length { length coeffs.now ≡ length vars.now }
    requires short { length coeffs.now ≤ 3 }
    requires limit { IsTrue (is_small limit) }
    ensures { IfOk result (IsKernel 4) }
{
    let numbers = SharedList::from_vec(Vec::from_slice(alloc, coeffs)?)?;
    let variables = SharedList::from_vec(Vec::from_slice(alloc, vars)?)?;
    Ok(Kernel::Eq {
        lit: FALSE,
        coeffs: Extended::from_list(numbers),
        vars: Extended::from_list(variables),
        limit,
    })
}

/// The kernels of x < y and of y < x.
pub(crate) fn opposed(alloc: Global) -> Result<[Kernel; 2], AllocError>
    ensures { IfOk result (All (IsKernel 4)) }
{
    let x_below_y = at_most(alloc, &[1, -1], &[1, 2], -1)?;
    let y_below_x = at_most(alloc, &[1, -1], &[2, 1], -1)?;
    Ok([x_below_y, y_below_x])
}

/// The kernel of y <= x.
pub(crate) fn raising(alloc: Global) -> Result<[Kernel; 1], AllocError>
    ensures { IfOk result (All (IsKernel 4)) }
{
    Ok([at_most(alloc, &[1, -1], &[2, 1], 0)?])
}
