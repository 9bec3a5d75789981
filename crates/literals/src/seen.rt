//! What is seen of a list of literals on a box.

ghost use Rattle.std.specs.Prelude.{◌≤◌, ◌<◌, length};
ghost use Rattle.std.specs.List.{All, AllWithin};
ghost use Rattle.tells.specs.Words.{Keeps};
ghost use Rattle.literals.specs.Literals.{IsSeen};

use crate::literal::is_met;
use interval::BoxOf;
use tells::Tell;

/// What is seen of literals on a box.
#[derive(Clone, Copy, PartialEq, Eq, Debug)]
pub enum Seen {
    /// All are met.
    Met,
    /// All but the one at this place.
    AllBut(usize),
    /// Two or more aren't met.
    Open,
}

/// The first place from a place on whose literal the box doesn't meet, or the end.
fn first_unmet(literals: &[Tell], b: &BoxOf, from: usize) -> usize
    requires variables { All (λ t. t.var < length b.now) literals.now }
    requires place { from ≤ length literals.now }
    ensures from { from ≤ result }
    ensures to { result ≤ length literals.now }
    ensures met { AllWithin (Keeps b.now) literals.now from result }
{
    for place in from..literals.len() {
        if !is_met(literals[place], b) {
            return place;
        }
    }
    literals.len()
}

/// Sees whether the box meets all literals, or all but one.
pub fn see(literals: &[Tell], b: &BoxOf) -> Seen
    requires { All (λ t. t.var < length b.now) literals.now }
    ensures { IsSeen literals.now b.now result }
{
    let first = first_unmet(literals, b, 0);
    if first == literals.len() {
        return Seen::Met;
    }
    if first_unmet(literals, b, first + 1) == literals.len() {
        return Seen::AllBut(first);
    }
    Seen::Open
}
