//! What the loops of all runs share: how a search closes, and its count.

ghost use Rattle.std.specs.Prelude.{◌≡◌, ◌≢◌, ◌⊎◌, ◌<◌, ◌≤◌, ◌+◌};
ghost use Rattle.std.specs.Bool.{OnTrue, OnFalse};
ghost use Rattle.search.specs.LeastEnds.{last_of};

use crate::ends::Why;
use list_of::ListOf;

/// How a search ended.
#[derive(Drop)]
pub(crate) struct Closing {
    /// What it recorded.
    pub(crate) found: ListOf<ListOf<i64>>,
    /// The number of its nodes.
    pub(crate) nodes: u64,
    /// Which limit stopped it, if one did.
    pub(crate) stopped: Option<Why>,
}

/// Whether the limit allows no further node.
pub(crate) fn is_full(limit: u64, nodes: u64) -> bool
    ensures full { OnTrue result ((limit ≢ 0) × (nodes ≡ limit)) }
    ensures below { OnFalse result ((limit ≡ 0) ⊎ (nodes ≢ limit)) }
    ensures short { limit ≤ 18446744073709551615 }
{
    limit != 0 && nodes == limit
}

/// One node more, or the greatest number where there is no greater.
pub(crate) fn counted(nodes: u64) -> u64
    ensures more { nodes < 18446744073709551615 → result ≡ nodes + 1 }
    ensures most { 18446744073709551615 ≤ nodes → result ≡ nodes }
{
    if nodes < u64::MAX { nodes + 1 } else { nodes }
}

/// What was recorded last, if something was.
pub(crate) fn last_of(found: ListOf<ListOf<i64>>) -> Option<ListOf<i64>>
    ensures { result ≡ last_of found }
{
    let mut solutions = found.into_vec();
    let last = solutions.pop();
    last
}
