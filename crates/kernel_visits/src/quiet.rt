//! Tests that a kernel narrows nothing.

ghost use Rattle.std.specs.Prelude.{◌≡◌, ◌≢◌, ◌<◌, ◌≤◌, ◌<ℤ◌, false, pos, length};
ghost use Rattle.std.specs.Bool.{OnTrue, Decides, MatchBool};
ghost use Rattle.std.specs.List.{All};
ghost use Rattle.guarded_tell.specs.Words.{AreVariables, Keeps};
ghost use Rattle.guarded_tell.specs.Words as words;
ghost use Rattle.clause_tells.specs.Clause.{clause_vars, clause_tells, IsShortClause, AreLiterals};
ghost use Rattle.interval.specs.Boxes.{low_of, high_of};
ghost use Rattle.sum_tells.specs.Linear.{IsLinear};
ghost use Rattle.kernel_visits.specs.Open.{AreTwoOpen, IsOpenAt};
ghost use Rattle.kernel_visits.specs.Found.{AreFoundFrom, IsNoneOrOne, IsLeftAt, with_place, is_two};
ghost use Rattle.kernel_visits.specs.Rests.{IsSureAt};

use clause_tells::Literals;
use guarded_tell::Lit;
use interval::{BoxOf, law_clamp_order};
use tells::{is_out, is_sure};

/// Whether two terms aren't fixed. Those that the hint remembers are looked at first, and then what is found.
#[inline(always)]
pub fn are_two_open(coeffs: &[i64], vars: &[u32], b: &BoxOf, hint: &mut Hint) -> bool
    requires linear { IsLinear coeffs.now vars.now (pos 0) }
    requires variables { AreVariables (length b.now) vars.now }
    ensures { MatchBool result (AreTwoOpen b.now coeffs.now vars.now) (IsNoneOrOne (IsOpenAt b.now coeffs.now vars.now)) }
{
    if are_open_at(coeffs, vars, *hint, b) {
        return true;
    }
    let found = open_places(coeffs, vars, b, *hint);
    *hint = found.hint();
    found.is_two()
}

/// Whether the terms at the hint's two places aren't fixed.
pub fn are_open_at(coeffs: &[i64], vars: &[u32], hint: Hint, b: &BoxOf) -> bool
    requires linear { IsLinear coeffs.now vars.now (pos 0) }
    requires variables { AreVariables (length b.now) vars.now }
    ensures { OnTrue result (AreTwoOpen b.now coeffs.now vars.now) }
{
    let first = hint.first as usize;
    let second = hint.second as usize;
    if second >= coeffs.len() || first >= second {
        return false;
    }
    is_open(coeffs[first], vars[first], b) && is_open(coeffs[second], vars[second], b)
}

/// Whether the term isn't fixed.
fn is_open(coeff: i64, var: u32, b: &BoxOf) -> bool
    requires variable { var < length b.now }
    ensures { Decides result ((coeff ≢ pos 0) × (low_of b.now var <ℤ high_of b.now var)) }
{
    b.low(var) < b.high(var) && is_counted(coeff)
}

/// Whether terms with this coefficient have a value of their own.
fn is_counted(coeff: i64) -> bool
    ensures { Decides result (coeff ≢ pos 0) }
{
    coeff < 0 || 0 < coeff
}

/// Two places of terms that aren't fixed, if there are such, looked for once around from where the last ones were found.
fn open_places(coeffs: &[i64], vars: &[u32], b: &BoxOf, hint: Hint) -> Left
    requires linear { IsLinear coeffs.now vars.now (pos 0) }
    requires variables { AreVariables (length b.now) vars.now }
    ensures { AreFoundFrom (IsOpenAt b.now coeffs.now vars.now) (λ n. ⊥) 0 result }
{
    let count = coeffs.len();
    let start = hint.start(count);
    let found = open_between(coeffs, vars, b, start, count, Left::None);
    if found.is_two() {
        return found;
    }
    open_between(coeffs, vars, b, 0, start, found)
}

/// What is found of terms that aren't fixed from one place up to another, beside what was found behind them.
#[tactic(auto, unfolding(sum_tells::specs::Linear::term_limit))]
fn open_between(
    coeffs: &[i64],
    vars: &[u32],
    b: &BoxOf,
    from: usize,
    to: usize,
    before: Left,
) -> Left
    requires linear { IsLinear coeffs.now vars.now (pos 0) }
    requires variables { AreVariables (length b.now) vars.now }
    requires from { from ≤ to }
    requires to { to ≤ length coeffs.now }
    requires before { AreFoundFrom (IsOpenAt b.now coeffs.now vars.now) (λ n. ⊥) to before }
    ensures { AreFoundFrom (IsOpenAt b.now coeffs.now vars.now) (λ n. ⊥) from result }
{
    let mut found = before;
    for i in from..to {
        if is_open(coeffs[i], vars[i], b) {
            found = found.and(i as u32);
            if found.is_two() {
                return found;
            }
        }
    }
    found
}

/// What a visit of a kernel may remember for the next: it makes a visit faster and changes nothing of what is told.
#[derive(Clone, Copy, PartialEq, Eq, Debug)]
pub struct Hint {
    // two places of a clause or of a sum, the lower first, or one place twice
    pub(crate) first: u32,
    pub(crate) second: u32,
}

impl Hint {
    /// Nothing is remembered.
    pub fn new() -> Hint {
        Hint {
            first: 0,
            second: 0,
        }
    }

    /// These two places, in whatever order they were found.
    fn of_two(one: u32, other: u32) -> Hint {
        Hint {
            first: one.min(other),
            second: one.max(other),
        }
    }

    /// Where the next search begins among so many places.
    fn start(self, count: usize) -> usize
        ensures { result ≤ count }
    {
        (self.second as usize).min(count)
    }
}

/// Whether the clause is seen to narrow nothing. What the hint remembers is looked at first, and then what is found.
pub fn is_clause_quiet(lits: &Literals, b: &BoxOf, hint: &mut Hint) -> bool
    requires variables { AreVariables (length b.now) (clause_vars lits.now) }
    requires short { IsShortClause lits.now }
    ensures { MatchBool result (All (Keeps b.now) (clause_tells lits.now b.now)) (IsNoneOrOne (IsLeftAt b.now lits.now)) }
{
    law_clamp_order();
    if lits.is_empty() {
        return false;
    }
    if is_quiet_at(lits, *hint, b) {
        return true;
    }
    let found = places_left(lits, b, *hint);
    *hint = found.hint();
    found.is_two()
}

/// Whether the literal at the hint's place is sure, or those at its two places aren't out.
fn is_quiet_at(lits: &Literals, hint: Hint, b: &BoxOf) -> bool
    requires some { 0 < length lits.now }
    requires variables { AreLiterals (length b.now) lits.now }
    ensures { OnTrue result (All (Keeps b.now) (clause_tells lits.now b.now)) }
{
    law_clamp_order();
    let first = hint.first as usize;
    let second = hint.second as usize;
    if second >= lits.len() || first > second {
        return false;
    }
    if first == second {
        is_sure(lits.at(first), b)
    } else {
        are_left(lits.at(first), lits.at(second), b)
    }
}

/// Whether neither literal is out.
fn are_left(first: Lit, second: Lit, b: &BoxOf) -> bool
    requires first { first.var < length b.now }
    requires second { second.var < length b.now }
    ensures first { OnTrue result (words.is_out first b.now ≡ false) }
    ensures second { OnTrue result (words.is_out second b.now ≡ false) }
{
    !is_out(first, b) && !is_out(second, b)
}

/// The place of a literal that is sure, twice, or two places of literals that aren't out, if there are such, looked for once
/// around from where the last ones were found.
fn places_left(lits: &Literals, b: &BoxOf, hint: Hint) -> Left
    requires variables { AreLiterals (length b.now) lits.now }
    requires short { IsShortClause lits.now }
    ensures { AreFoundFrom (IsLeftAt b.now lits.now) (λ n. IsSureAt lits.now n b.now) 0 result }
{
    let count = lits.len();
    let start = hint.start(count);
    let found = left_between(lits, b, start, count, Left::None);
    if found.is_two() {
        return found;
    }
    left_between(lits, b, 0, start, found)
}

/// What is found of literals that aren't out from one place up to another, beside what was found behind them; one that is
/// sure is found twice.
#[tactic(auto, unfolding(clause_tells::specs::Clause::literal_limit))]
fn left_between(lits: &Literals, b: &BoxOf, from: usize, to: usize, before: Left) -> Left
    requires variables { AreLiterals (length b.now) lits.now }
    requires short { IsShortClause lits.now }
    requires from { from ≤ to }
    requires to { to ≤ length lits.now }
    requires before { AreFoundFrom (IsLeftAt b.now lits.now) (λ n. IsSureAt lits.now n b.now) to before }
    ensures { AreFoundFrom (IsLeftAt b.now lits.now) (λ n. IsSureAt lits.now n b.now) from result }
{
    let mut found = before;
    for i in from..to {
        let place = i as u32;
        let lit = lits.at(i);
        if is_sure(lit, b) {
            return Left::Two(place, place);
        }
        if !is_out(lit, b) {
            found = found.and(place);
            if found.is_two() {
                return found;
            }
        }
    }
    found
}

/// What is found of places that matter to a kernel.
#[derive(Clone, Copy)]
enum Left {
    /// None.
    None,
    /// One.
    One(u32),
    /// Two, or one twice.
    Two(u32, u32),
}

impl Left {
    /// One more place.
    #[tactic(auto, unfolding(crate::specs::Found::with_place))]
    fn and(self, place: u32) -> Left
        ensures { result ≡ with_place self place }
    {
        match self {
            Left::None => Left::One(place),
            Left::One(first) => Left::Two(first, place),
            Left::Two(_, _) => self,
        }
    }

    /// Whether it is two places, or one twice.
    #[tactic(auto, unfolding(crate::specs::Found::is_two))]
    fn is_two(self) -> bool
        ensures { result ≡ is_two self }
    {
        matches!(self, Left::Two(_, _))
    }

    /// What is remembered of it. One place alone is remembered twice: once its literal is told, it is sure.
    fn hint(self) -> Hint {
        match self {
            Left::None => Hint::new(),
            Left::One(place) => Hint::of_two(place, place),
            Left::Two(first, second) => Hint::of_two(first, second),
        }
    }
}
