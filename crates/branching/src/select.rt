//! Which variable is taken.

ghost use Rattle.std.specs.Prelude.{◌≡◌, ◌+◌, ◌<◌, ℕ, List, ◌∷◌, [], ◌++◌, length, take, All, IfSome, IfNone};
ghost use Rattle.std.specs.Bool.{OnTrue, OnFalse};
ghost use Rattle.interval.specs.Limits.{IsBound};
ghost use Rattle.interval.specs.Boxes.{IsProper};
ghost use Rattle.branching.specs.Selection.{IsFixed, IsUnfixed, rank_of, rank_in, IsChosen, HasUnfixed};
ghost use Rattle.constraint_model.specs.Searches.{IsSearchOf};
ghost use Rattle.branching.specs.Tree.{AreFixed};
ghost use Rattle.branching.specs.Picks.{IsPick, IsChoiceBy};
ghost use Rattle.branching.specs.Fronts.{IsFrontOf, IsFirstUnfixed, IsFarthestFront};

use crate::fronts::Front;
use constraint_model::{FznModel, Phase, ValSel, VarSel};
use interval::BoxOf;

/// A variable to part at, and how.
#[derive(Clone, Copy)]
pub(crate) struct Chosen {
    /// The declared variable.
    pub(crate) var: u32,
    /// Which values come first.
    pub(crate) val_sel: ValSel,
}

/// What the selection compares; the least is taken.
#[tactic(auto, unfolding(interval::specs::Limits::bound_limit, interval::specs::Limits::largest_number))]
fn rank(selection: VarSel, low: i64, high: i64) -> i64
    requires low { IsBound low }
    requires high { IsBound high }
    ensures { result ≡ rank_of selection low high }
{
    match selection {
        VarSel::InputOrder => 0,
        VarSel::FirstFail => high - low,
        VarSel::AntiFirstFail => low - high,
        VarSel::Smallest => low,
        VarSel::Largest => -high,
    }
}

/// The pair of a declared variable.
#[tactic(auto, unfolding(interval::specs::Limits::box_limit))]
pub fn pair_of(b: &BoxOf, var: u32) -> u32
    requires { var + 1 < length b.now }
    ensures { result ≡ var + 1 }
{
    // its contract says that there are few pairs
    let _length = b.len();
    var + 1
}

/// The rank of a declared variable.
fn rank_in(selection: VarSel, b: &BoxOf, var: u32) -> i64
    requires { var + 1 < length b.now }
    ensures { result ≡ rank_in selection b.now var }
{
    let pair = pair_of(b, var);
    rank(selection, b.low(pair), b.high(pair))
}

/// Whether one number is left for a declared variable.
fn is_fixed(b: &BoxOf, var: u32) -> bool
    requires var { var + 1 < length b.now }
    requires proper { IsProper b.now }
    ensures fixed { OnTrue result (IsFixed b.now var) }
    ensures unfixed { OnFalse result (IsUnfixed b.now var) }
{
    let pair = pair_of(b, var);
    b.low(pair) == b.high(pair)
}

/// Which is taken of some variables and one more behind them, where `best` is taken of the former.
fn better(selection: VarSel, b: &BoxOf, best: Option<u32>, var: u32) -> Option<u32>
    requires var { var + 1 < length b.now }
    requires best { IfSome best (λ v. v + 1 < length b.now) }
    requires proper { IsProper b.now }
    ensures { (vars : List ℕ) → IsPick selection b.now vars best → IsPick selection b.now (vars ++ var ∷ []) result }
{
    if is_fixed(b, var) {
        return best;
    }
    match best {
        None => Some(var),
        Some(kept) => {
            if rank_in(selection, b, var) < rank_in(selection, b, kept) {
                Some(var)
            } else {
                best
            }
        }
    }
}

/// The place of the first unfixed of these variables, where those before `from` are fixed; none where all are.
fn first_unfixed(vars: &[u32], from: usize, b: &BoxOf) -> Option<usize>
    requires vars { All (λ v. v + 1 < length b.now) vars.now }
    requires proper { IsProper b.now }
    requires behind { All (IsFixed b.now) (take from vars.now) }
    ensures none { IfNone result (All (IsFixed b.now) vars.now) }
    ensures first { IfSome result (IsFirstUnfixed b.now vars.now) }
{
    for place in from..vars.len() {
        if !is_fixed(b, vars[place]) {
            return Some(place);
        }
    }
    None
}

/// The variable that is taken of these, where those before `from` are fixed; none where all are.
fn pick(vars: &[u32], from: usize, selection: VarSel, b: &BoxOf) -> Option<u32>
    requires vars { All (λ v. v + 1 < length b.now) vars.now }
    requires proper { IsProper b.now }
    requires behind { All (IsFixed b.now) (take from vars.now) }
    ensures { IsPick selection b.now vars.now result }
{
    let mut best = None;
    for place in from..vars.len() {
        best = better(selection, b, best, vars[place]);
    }
    best
}

/// The variable that the phase takes, and the place of its first unfixed one, where those before `from` are fixed; none
/// where all are.
fn taken(phase: &Phase, from: usize, b: &BoxOf) -> Option<(u32, usize)>
    requires vars { All (λ v. v + 1 < length b.now) phase.now.vars }
    requires proper { IsProper b.now }
    requires behind { All (IsFixed b.now) (take from phase.now.vars) }
    ensures none { IfNone result (All (IsFixed b.now) phase.now.vars) }
    ensures chosen { IfSome result (λ r. IsChosen phase.now.var_sel b.now phase.now.vars r.0) }
    ensures first { IfSome result (λ r. IsFirstUnfixed b.now phase.now.vars r.1) }
{
    let vars = phase.vars.as_slice();
    let place = first_unfixed(vars, from, b)?;
    match phase.var_sel {
        VarSel::InputOrder => Some((vars[place], place)),
        selection => Some((pick(vars, place, selection, b)?, place)),
    }
}

/// The variable at which the model's search parts the box, and how, looked for from the front on; with it how far the
/// search has come. None where each declared variable is fixed.
pub(crate) fn choice(model: &FznModel, b: &BoxOf, front: Front) -> Option<(Chosen, Front)>
    requires phases { IsSearchOf model.now }
    requires length { length model.now.vars < length b.now }
    requires proper { IsProper b.now }
    requires front { IsFrontOf model.now b.now front }
    ensures none { IfNone result (AreFixed model.now b.now) }
    ensures choice { IfSome result (λ r. IsChoiceBy model.now b.now r.0.val_sel r.0.var) }
    ensures front { IfSome result (λ r. IsFarthestFront model.now b.now r.1) }
{
    let phases = model.search.as_slice();
    let mut from = front.vars;
    for number in front.phases..phases.len() {
        let phase = &phases[number];
        if let Some((var, place)) = taken(phase, from, b) {
            let chosen = Chosen {
                var,
                val_sel: phase.val_sel,
            };
            let reached = Front {
                phases: number,
                vars: place,
            };
            return Some((chosen, reached));
        }
        from = 0;
    }
    None
}

/// Whether each declared variable is fixed, so that there is none to part at.
#[tactic(auto, unfolding(interval::specs::Limits::box_limit))]
pub fn are_fixed(model: &FznModel, b: &BoxOf) -> bool
    requires length { length model.now.vars < length b.now }
    requires proper { IsProper b.now }
    ensures fixed { OnTrue result (AreFixed model.now b.now) }
    ensures unfixed { OnFalse result (HasUnfixed model.now b.now) }
{
    // its contract says that there are few pairs
    let _length = b.len();
    for var in 0..model.vars.len() as u32 {
        if !is_fixed(b, var) {
            return false;
        }
    }
    true
}
