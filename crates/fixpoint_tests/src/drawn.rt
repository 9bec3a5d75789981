//! Small programs and boxes that are drawn.

ghost use Rattle.std.specs.Prelude.{◌≡◌, ◌<◌, ◌≤◌, length, IfOk, unsigned_abs};
ghost use Rattle.std.specs.List.{All};
ghost use Rattle.guarded_tell.specs.Words.{Lit};
ghost use Rattle.set_tells.specs.InSet.{IsSet};
ghost use Rattle.guarded_tell.specs.Kernels.{IsKernel};

use guarded_tell::{Extended, Kernel, Lit, Literals};
use interval::BoxOf;
use memory::NoMemory;
use shared_list::SharedList;
use std::alloc::{AllocError, Global};

/// Numbers that look random, the same in each run. A kernel names variables that lie close together, so that others are
/// far from it.
#[derive(Drop)]
pub(crate) struct Draws {
    state: u64,
    near: u32,
}

impl Draws {
    /// The draws that begin with this number.
    pub(crate) fn new(state: u64) -> Draws {
        Draws { state, near: 0 }
    }

    /// A number below a count.
    pub(crate) fn below(&mut self, count: u32) -> u32
        requires { 0 < count }
        ensures { result < count }
    {
        self.state = self
            .state
            .wrapping_mul(6_364_136_223_846_793_005)
            .wrapping_add(1_442_695_040_888_963_407);
        ((self.state >> 33) as u32) % count
    }

    /// One of forty variables, close to the last one drawn.
    fn var(&mut self) -> u32
        ensures { result < 40 }
    {
        self.near.min(35) + self.below(5)
    }

    /// A number of one digit, or its opposite.
    pub(crate) fn number(&mut self) -> i64
        ensures { unsigned_abs result ≤ 9 }
    {
        self.below(19) as i64 - 9
    }

    /// A literal of one of the variables.
    fn lit(&mut self) -> Lit
        ensures { result.var < 40 }
    {
        let var = self.var();
        let positive = self.below(2) == 0;
        Lit { var, positive }
    }

    /// A literal of a sum: one time in two that the first variable is true, so that sums are asked by side where it is.
    fn sum_lit(&mut self) -> Lit
        ensures { result.var < 40 }
    {
        if self.below(2) == 0 {
            Lit {
                var: 0,
                positive: true,
            }
        } else {
            self.lit()
        }
    }
}

/// Three variables.
fn three_vars(alloc: Global, draws: &mut Draws) -> Result<SharedList<u32>, AllocError>
    ensures below { IfOk result (λ vars. All (λ v. v < 40) vars) }
    ensures three { IfOk result (λ vars. length vars ≡ 3) }
{
    let x = draws.var();
    let y = draws.var();
    let z = draws.var();
    SharedList::from_vec(vec![in alloc; x, y, z]?)
}

/// Three coefficients.
fn three_numbers(alloc: Global, draws: &mut Draws) -> Result<SharedList<i64>, AllocError>
    ensures small { IfOk result (λ numbers. All (λ z. unsigned_abs z ≤ 9) numbers) }
    ensures three { IfOk result (λ numbers. length numbers ≡ 3) }
{
    let x = draws.number();
    let y = draws.number();
    let z = draws.number();
    SharedList::from_vec(vec![in alloc; x, y, z]?)
}

/// Three literals.
fn three_lits(alloc: Global, draws: &mut Draws) -> Result<SharedList<Lit>, AllocError>
    ensures below { IfOk result (λ lits. All (λ l. l.var < 40) lits) }
    ensures three { IfOk result (λ lits. length lits ≡ 3) }
{
    let x = draws.lit();
    let y = draws.lit();
    let z = draws.lit();
    SharedList::from_vec(vec![in alloc; x, y, z]?)
}

/// This list, in one piece or with its last item apart.
fn drawn_apart<T: Copy + Drop>(
    alloc: Global,
    draws: &mut Draws,
    list: SharedList<T>,
) -> Result<Extended<T>, AllocError>
    ensures { IfOk result (λ whole. whole ≡ list) }
{
    match list.as_slice().split_last() {
        Some((last, front)) if draws.below(2) == 0 => {
            let others = SharedList::from_vec(Vec::from_slice(alloc, front)?)?;
            Ok(Extended::with_last(others, *last))
        }
        _ => Ok(Extended::from_list(list)),
    }
}

/// A sum that is a limit, or at most one.
fn sum(alloc: Global, draws: &mut Draws, is_equation: bool) -> Result<Kernel, AllocError>
    ensures { IfOk result (IsKernel 40) }
{
    let lit = draws.sum_lit();
    let limit = draws.number();
    let coeffs = three_numbers(alloc, draws)?;
    let vars = three_vars(alloc, draws)?;
    if is_equation {
        let numbers = drawn_apart(alloc, draws, coeffs)?;
        let variables = drawn_apart(alloc, draws, vars)?;
        Ok(Kernel::Eq {
            lit,
            coeffs: numbers,
            vars: variables,
            limit,
        })
    } else {
        Ok(Kernel::Le {
            lit,
            coeffs,
            vars,
            limit,
        })
    }
}

/// A product, a quotient or a remainder.
fn product(draws: &mut Draws) -> Kernel
    ensures { IsKernel 40 result }
{
    let x = draws.var();
    let y = draws.var();
    let z = draws.var();
    match draws.below(3) {
        0 => Kernel::Times { x, y, z },
        1 => Kernel::Div { x, y, z },
        _ => Kernel::Mod { x, y, z },
    }
}

/// An absolute value.
fn absolute(draws: &mut Draws) -> Kernel
    ensures { IsKernel 40 result }
{
    let x = draws.var();
    let y = draws.var();
    Kernel::Abs { x, y }
}

/// The greatest or the least of three.
fn extreme(alloc: Global, draws: &mut Draws) -> Result<Kernel, AllocError>
    ensures { IfOk result (IsKernel 40) }
{
    let m = draws.var();
    let xs = three_vars(alloc, draws)?;
    if draws.below(2) == 0 {
        Ok(Kernel::Max { m, xs })
    } else {
        Ok(Kernel::Min { m, xs })
    }
}

/// A clause of three literals.
fn clause(alloc: Global, draws: &mut Draws) -> Result<Kernel, AllocError>
    ensures { IfOk result (IsKernel 40) }
{
    let lits = three_lits(alloc, draws)?;
    Ok(Kernel::Clause {
        lits: Literals::from_list(lits),
    })
}

/// An element of a list of three.
fn element(alloc: Global, draws: &mut Draws) -> Result<Kernel, AllocError>
    ensures { IfOk result (IsKernel 40) }
{
    let x = draws.var();
    let c = draws.var();
    let entries = three_vars(alloc, draws)?;
    Ok(Kernel::Element { x, entries, c })
}

/// The set of these ranges.
fn set_of(alloc: Global, ranges: &[(i64, i64)]) -> Result<SharedList<(i64, i64)>, AllocError>
    requires { IsSet ranges.now }
    ensures { IfOk result IsSet }
{
    SharedList::from_vec(Vec::from_slice(alloc, ranges)?)
}

/// One of three sets.
fn ranges(alloc: Global, draws: &mut Draws) -> Result<SharedList<(i64, i64)>, AllocError>
    ensures { IfOk result IsSet }
{
    match draws.below(3) {
        0 => set_of(alloc, &[(-9, -5), (2, 5)]),
        1 => set_of(alloc, &[(-3, 0), (3, 3)]),
        _ => set_of(alloc, &[(-1, -1), (1, 9)]),
    }
}

/// Membership in a set.
fn in_set(alloc: Global, draws: &mut Draws) -> Result<Kernel, AllocError>
    ensures { IfOk result (IsKernel 40) }
{
    let lit = draws.lit();
    let x = draws.var();
    let ranges = ranges(alloc, draws)?;
    Ok(Kernel::InSet { lit, x, ranges })
}

/// A kernel of any kind.
fn kernel(alloc: Global, draws: &mut Draws) -> Result<Kernel, AllocError>
    ensures { IfOk result (IsKernel 40) }
{
    match draws.below(9) {
        0 => sum(alloc, draws, false),
        1 => sum(alloc, draws, true),
        2 => Ok(product(draws)),
        3 => Ok(absolute(draws)),
        4 | 5 => extreme(alloc, draws),
        6 => clause(alloc, draws),
        7 => element(alloc, draws),
        _ => in_set(alloc, draws),
    }
}

/// So many kernels.
pub(crate) fn program(
    alloc: Global,
    draws: &mut Draws,
    count: u32,
) -> Result<Vec<Kernel>, AllocError>
    ensures { IfOk result (λ kernels. All (IsKernel 40) kernels.items) }
{
    let mut kernels = Vec::new(alloc);
    for _ in 0..count {
        draws.near = draws.below(40);
        kernels.push(kernel(alloc, draws)?)?;
    }
    Ok(kernels)
}

#[tactic(auto, unfolding(interval::specs::Limits::bound_limit, interval::specs::Limits::largest_number))]
/// Forty pairs, each of a number up to 0 and one from 0 on, but that one time in two the first variable is 1: where it is at
/// least that, kernels are asked by side.
pub(crate) fn start(alloc: Global, draws: &mut Draws) -> Result<BoxOf, NoMemory>
    ensures { IfOk result (λ b. length b ≡ 40) }
{
    let mut b = BoxOf::from_pairs(alloc, &[(0, 0); 40])?;
    for v in 0..40 {
        let low = -(draws.below(10) as i64);
        let high = draws.below(10) as i64;
        b.put(v, low, high);
    }
    if draws.below(2) == 0 {
        b.put(0, 1, 1);
    }
    Ok(b)
}
