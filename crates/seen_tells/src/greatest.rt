//! A visit of a variable that is the greater of two: quiet, or its tells, from bounds that are read once.

ghost use Rattle.std.specs.Prelude.{◌≡◌, ◌<◌, ◌≤ℤ◌, ◌++◌, [], ◌∷◌, List, length};
ghost use Rattle.std.specs.Bool.{OnTrue};
ghost use Rattle.std.specs.Int.{int_max};
ghost use Rattle.std.specs.List.{All, filter};
ghost use Rattle.interval.specs.Boxes.{low_of, high_of};
ghost use Rattle.interval.specs.Limits.{IsBound};
ghost use Rattle.guarded_tell.specs.Words.{IsProperIn, Keeps, Tell as Told};
ghost use Rattle.tell_laws.specs.Narrowing.{narrowing};
ghost use Rattle.tells.specs.Words as tell_words;
ghost use Rattle.extreme_tells.specs.Extremes.{sole, told_of};
ghost use Rattle.extreme_tells.specs.Maximum.{max_reaches, max_tells};
ghost use Rattle.kernel_visits.specs.declared.shape.Shape.{Shape};
ghost use Rattle.seen_tells.specs.Few.{AreFew};
ghost use Rattle.guarded_tell.specs.Kernels.{vars_of, IsKernel};
ghost use Rattle.kernel_visits.specs.Shapes.{IsShapeOf};
ghost use Rattle.seen_tells.specs.Seen.{IsSeen};

use crate::few::with_tell;
use crate::seen::Seen;
use crate::three::larger;
use guarded_tell::Kernel;
use interval::{BoxOf, law_clamp_order};
use kernel_visits::Rest;
use tells::{high_tell, low_tell};

/// What the shape of the greater of two variables says of a visit. It says nothing where more than two tells narrow the box.
#[inline(always)]
pub(crate) fn seen_greatest(k: &Kernel, m: u32, x: u32, y: u32, b: &BoxOf) -> Seen
    requires kernel { IsKernel (length b.now) k.now }
    requires shape { IsShapeOf k.now (Shape.Greatest m x y) }
    requires proper { IsProperIn (vars_of k.now) b.now }
    ensures { IsSeen k.now b.now result }
{
    if is_greatest_kept(m, x, y, b) {
        Seen::Quiet(Rest::Awake)
    } else {
        greatest_tells(m, x, y, b)
    }
}

/// Whether no tell of the three variables is tighter than the box.
#[inline(always)]
fn is_greatest_kept(m: u32, x: u32, y: u32, b: &BoxOf) -> bool
    requires m { m < length b.now }
    requires x { x < length b.now }
    requires y { y < length b.now }
    ensures { OnTrue result (All (Keeps b.now) (max_tells m (x ∷ y ∷ []) b.now)) }
{
    law_clamp_order();
    is_reach_kept(m, x, y, b) && is_sole_kept(m, x, y, b)
}

/// Whether the low of `m` is no less than the lows of the two, and its high is the greater of their highs.
#[inline(always)]
fn is_reach_kept(m: u32, x: u32, y: u32, b: &BoxOf) -> bool
    requires m { m < length b.now }
    requires x { x < length b.now }
    requires y { y < length b.now }
    ensures low { OnTrue result (int_max (low_of b.now x) (low_of b.now y) ≤ℤ low_of b.now m) }
    ensures high { OnTrue result (int_max (high_of b.now x) (high_of b.now y) ≡ high_of b.now m) }
    ensures low_in_range { OnTrue result (IsBound (low_of b.now m)) }
    ensures high_in_range { OnTrue result (IsBound (high_of b.now m)) }
{
    larger(b.low(x), b.low(y)) <= b.low(m) && larger(b.high(x), b.high(y)) == b.high(m)
}

/// Whether each of the two variables can be at least the low of `m`, or the other one is so anyway: neither is then told that it
/// alone must be.
#[inline(always)]
fn is_sole_kept(m: u32, x: u32, y: u32, b: &BoxOf) -> bool
    requires m { m < length b.now }
    requires x { x < length b.now }
    requires y { y < length b.now }
    ensures { OnTrue result (All (Keeps b.now) (told_of (λ v. tell_words.low_tell v (low_of b.now m)) (sole (filter (max_reaches m b.now) (x ∷ y ∷ []))))) }
{
    law_clamp_order();
    let low = b.low(m);
    may_reach(low, x, y, b) && may_reach(low, y, x, b)
}

/// Whether `x` can be as great as this number, or `y` is so great anyway.
#[inline(always)]
fn may_reach(low: i64, x: u32, y: u32, b: &BoxOf) -> bool
    requires x { x < length b.now }
    requires y { y < length b.now }
    ensures { OnTrue result (low ≤ℤ int_max (high_of b.now x) (low_of b.now y)) }
{
    low <= b.high(x) || low <= b.low(y)
}

/// The tells that narrow the box; `Unseen` where there are more than two.
#[inline(never)]
fn greatest_tells(m: u32, x: u32, y: u32, b: &BoxOf) -> Seen
    requires m { m < length b.now }
    requires x { x < length b.now }
    requires y { y < length b.now }
    ensures { AreFew (narrowing b.now (max_tells m (x ∷ y ∷ []) b.now)) result }
{
    let seen = with_tell(
        Seen::Quiet(Rest::Awake),
        low_tell(m, larger(b.low(x), b.low(y)) as i128),
        b,
    );
    let seen = with_tell(seen, high_tell(m, larger(b.high(x), b.high(y)) as i128), b);
    let seen = with_tell(seen, high_tell(x, b.high(m) as i128), b);
    let seen = with_tell(seen, high_tell(y, b.high(m) as i128), b);
    with_sole_reaching(seen, m, x, y, b)
}

/// The same with the tell of the one variable that can be at least the low of `m`, where the other can't.
#[inline(always)]
fn with_sole_reaching(seen: Seen, m: u32, x: u32, y: u32, b: &BoxOf) -> Seen
    requires m { m < length b.now }
    requires x { x < length b.now }
    requires y { y < length b.now }
    ensures { (ts : List Told) → AreFew ts seen → AreFew (ts ++ narrowing b.now (told_of (λ v. tell_words.low_tell v (low_of b.now m)) (sole (filter (max_reaches m b.now) (x ∷ y ∷ []))))) result }
{
    let low = b.low(m);
    if low <= b.high(x) {
        if low <= b.high(y) {
            seen
        } else {
            with_tell(seen, low_tell(x, low as i128), b)
        }
    } else if low <= b.high(y) {
        with_tell(seen, low_tell(y, low as i128), b)
    } else {
        seen
    }
}
