//! The turns on the way to a number.

ghost use Rattle.std.specs.Prelude.{◌≡◌, ◌<◌, ◌≤◌, ◌+◌, ◌-◌, ◌^◌, length, take, IfSome};
ghost use Rattle.interval.specs.Boxes.{Bounds, put_of};
ghost use Rattle.trailed_box.specs.Trailed.{IsPart};
ghost use Rattle.branching.specs.Fronts.{FitsBox, left_by, right_by};
ghost use Rattle.subproblem_walk.specs.Turns.{side_of, IsTurn, AreTurnsTo};

use branching::Branching;
use subproblems::count_to;
use trailed_box::Part;

/// A turn on the way down: how a closed box is parted, and whether the way goes on to the right.
#[derive(Clone, Copy)]
pub struct Turn {
    pub(crate) branching: Branching,
    pub(crate) goes_right: bool,
}

/// A number of a subproblem, to a depth.
#[derive(Clone, Copy)]
pub struct Address {
    /// How many turns lead to it.
    pub(crate) depth: u32,
    /// The turns, the highest bit first.
    pub(crate) number: u64,
}

/// How far two ways are the same.
#[derive(Clone, Copy)]
pub(crate) struct Shared {
    /// How many turns they share.
    pub(crate) count: usize,
    /// What the rest of the one is after these.
    pub(crate) rest: Address,
}

/// Whether the way turns to the right, and the number to which it goes on in the part on that side.
pub(crate) fn first_turn(address: Address) -> (bool, Address)
    requires some { 0 < address.depth }
    requires depth { address.depth ≤ 62 }
    ensures depth { result.1.depth ≡ address.depth - 1 }
    ensures turn { IsTurn (2 ^ (address.depth - 1)) address.number result.0 result.1.number }
{
    let depth = address.depth - 1;
    let half = count_to(depth);
    if address.number < half {
        return (
            false,
            Address {
                depth,
                number: address.number,
            },
        );
    }
    let number = address.number - half;
    (true, Address { depth, number })
}

/// The bounds that are put in the part on the side of a turn.
pub(crate) fn part_on(goes_right: bool, branching: &Branching) -> Part
    ensures part { (closed : Bounds) →
        put_of closed result.var result.low result.high ≡ side_of goes_right (left_by closed branching.now) (right_by closed branching.now) }
    ensures pair { result.var ≡ branching.now.pair }
    ensures fits { (closed : Bounds) → FitsBox closed branching.now → IsPart (length closed) result.var result.low result.high }
{
    let var = branching.pair;
    if goes_right {
        Part {
            var,
            low: branching.right_low,
            high: branching.right_high,
        }
    } else {
        Part {
            var,
            low: branching.left_low,
            high: branching.left_high,
        }
    }
}

/// How many of the turns, of the first `limit`, are on the way to a number too.
pub(crate) fn shared_turns(turns: &[Turn], limit: usize, address: Address) -> Shared
    requires limit { limit ≤ length turns.now }
    requires depth { address.depth ≤ 62 }
    ensures count { result.count ≤ limit }
    ensures depth { result.rest.depth + result.count ≡ address.depth }
    ensures turns { AreTurnsTo address.depth address.number (take result.count turns.now) result.rest.depth result.rest.number }
{
    let mut rest = address;
    for count in 0..limit {
        if rest.depth == 0 {
            return Shared { count, rest };
        }
        let (goes_right, next) = first_turn(rest);
        if goes_right != turns[count].goes_right {
            return Shared { count, rest };
        }
        rest = next;
    }
    Shared { count: limit, rest }
}

/// Where the way to a number leaves the turns: at the last one at the latest. None: before the first.
pub(crate) fn fork(turns: &[Turn], address: Address) -> Option<Shared>
    requires depth { address.depth ≤ 62 }
    ensures count { IfSome result (λ shared. shared.count < length turns.now) }
    ensures depth { IfSome result (λ shared. shared.rest.depth + shared.count ≡ address.depth) }
    ensures some { IfSome result (λ shared. 0 < shared.rest.depth) }
    ensures turns { IfSome result (λ shared. AreTurnsTo address.depth address.number (take shared.count turns.now) shared.rest.depth shared.rest.number) }
{
    let limit = turns.len().min(address.depth as usize);
    if limit == 0 {
        return None;
    }
    Some(shared_turns(turns, limit - 1, address))
}
