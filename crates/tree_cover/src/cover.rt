//! Whether parts cover a tree.

ghost use Rattle.std.specs.Prelude.{◌≡◌, ◌<◌, ◌≤◌, ◌^◌, ◌↔◌, List, [], length, All, IsTrue, MatchOption};
ghost use Rattle.tree_cover.specs.Covers.{IsPart, AreCover, IsCoverFrom, IsNoCoverFrom, JoinsLists, PartsTo};

use crate::part::Part;

/// Where the parts behind `from` go on, if those from there on cover what lies below a node and then go on.
fn cover_below(parts: &[Part], from: usize, depth: u32, number: u64) -> Option<usize>
    requires parts { All IsPart parts.now }
    requires from { from ≤ length parts.now }
    requires depth { depth ≤ 62 }
    requires number { number < 2 ^ depth }
    ensures { MatchOption result (IsNoCoverFrom parts.now from depth number) (IsCoverFrom parts.now from depth number) }
{
    let part = parts.get(from)?;
    if part.depth <= depth {
        if part.depth == depth && part.number == number {
            return Some(from + 1);
        }
        return None;
    }
    let middle = cover_below(parts, from, depth + 1, 2 * number)?;
    cover_below(parts, middle, depth + 1, 2 * number + 1)
}

/// Whether the parts, in this order, cover the tree: none is missing and none is there twice.
pub fn are_cover(parts: &[Part]) -> bool
    requires { All IsPart parts.now }
    ensures { IsTrue result ↔ AreCover parts.now }
{
    match cover_below(parts, 0, 0, 0) {
        Some(end) => end == parts.len(),
        None => false,
    }
}

/// What is listed of each part, one behind the other, is what is listed of the tree.
pub fn law_joined()
    ensures { JoinsLists }
{}

/// All parts of one depth, the least number first, cover the tree.
pub fn law_parts_to()
    ensures { PartsTo }
{}
