//! The tell by which a kernel's shape says that it leaves a variable no number.

ghost use Rattle.std.specs.Prelude.{◌≡◌, length, MatchOption};
ghost use Rattle.guarded_tell.specs.Words.{IsProperIn};
ghost use Rattle.guarded_tell.specs.Kernels.{vars_of, IsKernel};
ghost use Rattle.kernel_visits.specs.Shapes.{IsShapeOf};
ghost use Rattle.seen_tells.specs.Seen.{IsFailedBy};

use guarded_tell::{Kernel, Lit, Tell};
use interval::{BoxOf, law_clamp_order, law_quotient_order};
use kernel_visits::{Shape, difference};
use small_sums::sum;
use tells::{stands_false, stands_true, tell_false, tell_true};

/// The first tell of the kernel that narrows the box, where it is seen to leave its variable no number. It is the literal's, or
/// that of a clause's first literal. Half of all nodes end so.
#[inline(never)]
pub fn failing_tell(k: &Kernel, shape: &Shape, b: &BoxOf) -> Option<Tell>
    requires kernel { IsKernel (length b.now) k.now }
    requires shape { IsShapeOf k.now shape.now }
    requires proper { IsProperIn (vars_of k.now) b.now }
    ensures { MatchOption result (Unit {0}) (IsFailedBy k.now b.now) }
{
    match shape {
        Shape::AtMost { lit, x, y, limit } => at_most_failing(k, *lit, *x, *y, *limit, b),
        Shape::Same { lit, x, y, limit } => same_failing(k, *lit, *x, *y, *limit, b),
        Shape::Either { first, second } => either_failing(k, *first, *second, b),
        Shape::Triple {
            first,
            second,
            third,
        } => triple_failing(k, *first, *second, *third, b),
        _ => None,
    }
}

/// The same of an inequality that has to hold and can't, or must not and does.
fn at_most_failing(k: &Kernel, lit: Lit, x: u32, y: u32, limit: i64, b: &BoxOf) -> Option<Tell>
    requires kernel { IsKernel (length b.now) k.now }
    requires shape { IsShapeOf k.now (Shape.AtMost lit x y limit) }
    requires proper { IsProperIn (vars_of k.now) b.now }
    ensures { MatchOption result (Unit {0}) (IsFailedBy k.now b.now) }
{
    law_quotient_order();
    law_clamp_order();
    let pair = difference(x, y, b);
    let least = sum(pair.first.least, pair.second.least);
    let greatest = sum(pair.first.greatest, pair.second.greatest);
    if limit < least && stands_true(lit, b) {
        Some(tell_false(lit))
    } else if greatest <= limit && stands_false(lit, b) {
        Some(tell_true(lit))
    } else {
        None
    }
}

/// The same of an equation.
fn same_failing(k: &Kernel, lit: Lit, x: u32, y: u32, limit: i64, b: &BoxOf) -> Option<Tell>
    requires kernel { IsKernel (length b.now) k.now }
    requires shape { IsShapeOf k.now (Shape.Same lit x y limit) }
    requires proper { IsProperIn (vars_of k.now) b.now }
    ensures { MatchOption result (Unit {0}) (IsFailedBy k.now b.now) }
{
    law_quotient_order();
    law_clamp_order();
    let pair = difference(x, y, b);
    let least = sum(pair.first.least, pair.second.least);
    let greatest = sum(pair.first.greatest, pair.second.greatest);
    if stands_false(lit, b) {
        if greatest <= limit && limit <= least {
            Some(tell_true(lit))
        } else {
            None
        }
    } else if stands_true(lit, b) {
        if limit < least {
            Some(tell_false(lit))
        } else if greatest < limit {
            Some(tell_false(lit))
        } else {
            None
        }
    } else {
        None
    }
}

/// The same of a clause of two literals that are both out.
fn either_failing(k: &Kernel, first: Lit, second: Lit, b: &BoxOf) -> Option<Tell>
    requires kernel { IsKernel (length b.now) k.now }
    requires shape { IsShapeOf k.now (Shape.Either first second) }
    requires proper { IsProperIn (vars_of k.now) b.now }
    ensures { MatchOption result (Unit {0}) (IsFailedBy k.now b.now) }
{
    law_clamp_order();
    if stands_false(first, b) && stands_false(second, b) {
        Some(tell_true(first))
    } else {
        None
    }
}

/// The same of a clause of three literals that are all out.
fn triple_failing(k: &Kernel, first: Lit, second: Lit, third: Lit, b: &BoxOf) -> Option<Tell>
    requires kernel { IsKernel (length b.now) k.now }
    requires shape { IsShapeOf k.now (Shape.Triple first second third) }
    requires proper { IsProperIn (vars_of k.now) b.now }
    ensures { MatchOption result (Unit {0}) (IsFailedBy k.now b.now) }
{
    law_clamp_order();
    if stands_false(first, b) && stands_false(second, b) && stands_false(third, b) {
        Some(tell_true(first))
    } else {
        None
    }
}
