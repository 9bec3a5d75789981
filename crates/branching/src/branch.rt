//! The two boxes into which a box is parted.

ghost use Rattle.std.specs.Prelude.{◌≡◌, ◌<◌, ◌+◌, ◌+ℤ◌, ◌<ℤ◌, ◌≤ℤ◌, pos, length, IfSome, IfNone};
ghost use Rattle.interval.specs.Limits.{IsBound};
ghost use Rattle.interval.specs.Boxes.{low_of, high_of, IsProper};
ghost use Rattle.interval.specs.Quotients.{floor_of};
ghost use Rattle.branching.specs.Selection.{HasUnfixed};
ghost use Rattle.constraint_model.specs.Searches.{IsSearchOf};
ghost use Rattle.branching.specs.Tree.{AreFixed};
ghost use Rattle.branching.specs.Fronts.{IsFrontOf, IsFarthestFront, FitsBox, left_by, right_by};
ghost use Rattle.branching.specs.Parts.{cut_of, is_upper_first, left_of, right_of, IsBranch, AreParts};

use crate::fronts::Front;
use crate::select::{choice, pair_of};
use constraint_model::{FznModel, ValSel};
use fixpoint_laws::law_tightens_one;
use interval::{BoxOf, floor_div, law_inside_order, law_quotient_order};

/// How a box is parted: at one of its pairs, with the pair's bounds in the part that comes first and in the other.
#[derive(Clone, Copy)]
pub struct Branching {
    /// The pair, by its place in the box.
    pub pair: u32,
    /// Its lower bound in the part that comes first.
    pub left_low: i64,
    /// Its upper bound in that part.
    pub left_high: i64,
    /// Its lower bound in the other part.
    pub right_low: i64,
    /// Its upper bound in that part.
    pub right_high: i64,
}

/// How the model's search parts the box, looked for from the front on, with how far the search has come then; none where
/// each declared variable is fixed. It takes no memory, and looks at the variables from the front to the first unfixed
/// one, and at the rest of its phase where its selection compares them.
pub fn branch_from(model: &FznModel, b: &BoxOf, front: Front) -> Option<(Branching, Front)>
    requires phases { IsSearchOf model.now }
    requires length { length model.now.vars < length b.now }
    requires proper { IsProper b.now }
    requires front { IsFrontOf model.now b.now front }
    ensures none { IfNone result (AreFixed model.now b.now) }
    ensures branch { IfSome result (λ r. IsBranch model.now b.now (left_by b.now r.0) (right_by b.now r.0)) }
    ensures parts { IfSome result (λ r. AreParts b.now (left_by b.now r.0) (right_by b.now r.0)) }
    ensures fits { IfSome result (λ r. FitsBox b.now r.0) }
    ensures front { IfSome result (λ r. IsFrontOf model.now b.now r.1) }
    ensures farthest { IfSome result (λ r. IsFarthestFront model.now b.now r.1) }
{
    law_inside_order();
    law_quotient_order();
    law_tightens_one();
    // its contract says that the bounds are in range
    let _length = b.len();
    let (chosen, reached) = choice(model, b, front)?;
    let pair = pair_of(b, chosen.var);
    Some((parted(chosen.val_sel, b, pair), reached))
}

/// Parts the box at the variable, and in the order, that the model's search asks for.
pub fn choose(model: &FznModel, b: &BoxOf, left: &mut BoxOf, right: &mut BoxOf)
    requires phases { IsSearchOf model.now }
    requires length { length model.now.vars < length b.now }
    requires proper { IsProper b.now }
    requires unfixed { HasUnfixed model.now b.now }
    requires left { length left.old ≡ length b.now }
    requires right { length right.old ≡ length b.now }
    ensures branch { IsBranch model.now b.now left.new right.new }
    ensures parts { AreParts b.now left.new right.new }
{
    left.copy_from(b);
    right.copy_from(b);
    // there is one, as some variable isn't fixed
    if let Some((branching, _)) = branch_from(model, b, Front::first()) {
        left.put(branching.pair, branching.left_low, branching.left_high);
        right.put(branching.pair, branching.right_low, branching.right_high);
    }
}

/// How a box is parted at one of its pairs.
fn parted(selection: ValSel, b: &BoxOf, pair: u32) -> Branching
    requires pair { pair < length b.now }
    requires unfixed { low_of b.now pair <ℤ high_of b.now pair }
    ensures left { left_by b.now result ≡ left_of selection b.now pair }
    ensures right { right_by b.now result ≡ right_of selection b.now pair }
    ensures fits { FitsBox b.now result }
{
    let low = b.low(pair);
    let high = b.high(pair);
    let cut = cut(selection, low, high);
    if is_upper_first(selection) {
        Branching {
            pair,
            left_low: cut + 1,
            left_high: high,
            right_low: low,
            right_high: cut,
        }
    } else {
        Branching {
            pair,
            left_low: low,
            left_high: cut,
            right_low: cut + 1,
            right_high: high,
        }
    }
}

/// The greatest number of the lower part.
#[tactic(auto, unfolding(interval::specs::Limits::bound_limit, interval::specs::Limits::largest_number, interval::specs::Limits::dividend_limit))]
fn cut(selection: ValSel, low: i64, high: i64) -> i64
    requires low { IsBound low }
    requires high { IsBound high }
    requires unfixed { low <ℤ high }
    ensures value { result ≡ cut_of selection low high }
    ensures from { low ≤ℤ result }
    ensures to { result <ℤ high }
{
    match selection {
        ValSel::Min => low,
        ValSel::Max => high - 1,
        ValSel::Split | ValSel::ReverseSplit => middle(low, high),
    }
}

/// The floor of the half of the sum.
#[tactic(auto, unfolding(interval::specs::Limits::bound_limit, interval::specs::Limits::largest_number, interval::specs::Limits::dividend_limit))]
fn middle(low: i64, high: i64) -> i64
    requires low { IsBound low }
    requires high { IsBound high }
    requires unfixed { low <ℤ high }
    ensures value { result ≡ floor_of (low +ℤ high) (pos 2) }
    ensures from { low ≤ℤ result }
    ensures to { result <ℤ high }
{
    floor_div((low + high) as i128, 2) as i64
}

/// Whether the upper part comes first.
fn is_upper_first(selection: ValSel) -> bool
    ensures { result ≡ is_upper_first selection }
{
    match selection {
        ValSel::Min | ValSel::Split => false,
        ValSel::Max | ValSel::ReverseSplit => true,
    }
}
