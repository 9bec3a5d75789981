//! Kernels in which one variable occurs twice.

ghost use Rattle.std.specs.Prelude.{◌≡◌, ◌<◌, ◌≤◌, ◌∷◌, ℕ, IfOk, pos, length, slice_index};
ghost use Rattle.std.specs.Bool.{OnTrue};
ghost use Rattle.guarded_tell.specs.Words.{AreVariables};
ghost use Rattle.sum_tells.specs.Linear.{IsLinear};
ghost use Rattle.guarded_tell.specs.Kernels.{IsKernel};

use crate::four_variables::number;
use crate::linear::{are_numbers, whole};
use guarded_tell::{Extended, Kernel, Lit};
use std::alloc::{AllocError, Global};
use std::process::Abort;

/// What variable 0 is of some variables, or says of their sum, from which the last one is taken away.
#[derive(Clone, Copy)]
pub(crate) enum Kind {
    /// It says whether the sum is at most a limit.
    AtMost,
    /// It says whether the sum is the limit.
    Equal,
    /// It is the greatest.
    Greatest,
    /// Its square is variable 1.
    Root,
}

use Kind::{AtMost, Equal, Greatest, Root};

/// A kernel: its kind, the variables and the limit.
pub(crate) type Repeated = (Kind, &'static [u32], i64);

/// The last coefficients of these are those of a sum.
static SIGNS: [i64; 3] = [1, 1, -1];

/// Whether these are variables of the box.
fn are_variables(vars: &[u32]) -> bool
    ensures { OnTrue result ((i : ℕ) → i < length vars.now → slice_index vars.now i < 4) }
{
    vars.iter().all(|v| *v < 4)
}

/// The terms of up to three variables: the coefficients, and the variables.
#[tactic(auto, unfolding(sum_tells::specs::Linear::term_limit, interval::specs::Limits::largest_number))]
fn terms<'a>(rt: &impl Abort, vars: &'a [u32]) -> (&'static [i64], &'a [u32])
    ensures linear { IsLinear result.0.now result.1.now (pos 0) }
    ensures variables { AreVariables 4 (0 ∷ result.1.now) }
{
    assert!(rt; vars.len() <= 3);
    assert!(rt; are_variables(vars));
    let coeffs = &SIGNS[3 - vars.len()..];
    assert!(rt; are_numbers(coeffs));
    (coeffs, vars)
}

/// The kernel.
#[tactic(auto, unfolding(guarded_tell::specs::Kernels::vars_of, guarded_tell::specs::Kernels::HasNumbers, sum_tells::specs::Linear::term_limit, extreme_tells::specs::Extremes::member_limit))]
pub(crate) fn repeated(rt: &impl Abort, alloc: Global, of: &Repeated) -> Result<Kernel, AllocError>
    ensures { IfOk result (IsKernel 4) }
{
    let (kind, vars, limit) = *of;
    let limit = number(rt, limit);
    let (coeffs, vars) = terms(rt, vars);
    let lit = Lit {
        var: 0,
        positive: true,
    };
    let xs = whole(alloc, vars)?;
    Ok(match kind {
        AtMost => Kernel::Le {
            lit,
            coeffs: whole(alloc, coeffs)?,
            vars: xs,
            limit,
        },
        Equal => Kernel::Eq {
            lit,
            coeffs: Extended::from_list(whole(alloc, coeffs)?),
            vars: Extended::from_list(xs),
            limit,
        },
        Greatest => Kernel::Max { m: 0, xs },
        Root => Kernel::Times { x: 0, y: 0, z: 1 },
    })
}
