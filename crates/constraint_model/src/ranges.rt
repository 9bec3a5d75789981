//! Sets of integers as their greatest ranges.

ghost use Rattle.std.specs.Prelude.{◌≡◌, IfOk};
ghost use Rattle.constraint_model.specs.Ranges.{ranges_of, ranges_of_rising, range_of, HaveRanges, RangesAreUnique, IntervalsHold};

use list_of::ListOf;
use shared_list::SharedList;
use std::alloc::{AllocError, Global};

/// Each list of numbers has the ranges that the definition makes, and no others; an interval holds the numbers between
/// its ends.
pub fn law_ranges()
    ensures there { HaveRanges }
    ensures unique { RangesAreUnique }
    ensures intervals { IntervalsHold }
{}

/// The ranges of rising numbers.
#[tactic(auto, unfolding(crate::specs::Ranges::ranges_of_rising))]
fn ranges_of_rising(alloc: Global, numbers: &[i64]) -> Result<ListOf<(i64, i64)>, AllocError>
    ensures { IfOk result (λ r. r ≡ ranges_of_rising numbers.now) }
{
    let mut ranges = ListOf::new(alloc);
    let Some((first, rest)) = numbers.split_first() else {
        return Ok(ranges);
    };
    let mut low = *first;
    let mut high = *first;
    for number in rest {
        if number.saturating_sub(1) > high {
            ranges.push((low, high))?;
            low = *number;
        }
        high = *number;
    }
    ranges.push((low, high))?;
    Ok(ranges)
}

/// The ranges of the set of these numbers. Errors: memory.
#[tactic(auto, using(crate::proofs::RangeLaws::sorted_ranges))]
pub fn ranges_of(alloc: Global, mut numbers: Vec<i64>) -> Result<SharedList<(i64, i64)>, AllocError>
    ensures { IfOk result (λ r. r ≡ ranges_of numbers.items) }
{
    numbers.sort_unstable();
    let ranges = ranges_of_rising(alloc, numbers.as_slice())?;
    SharedList::from_vec(ranges.into_vec())
}

/// The ranges of the set of all numbers from `low` to `high`. Errors: memory.
pub fn range_of(alloc: Global, low: i64, high: i64) -> Result<SharedList<(i64, i64)>, AllocError>
    ensures { IfOk result (λ r. r ≡ range_of low high) }
{
    let mut ranges = Vec::new(alloc);
    if low <= high {
        ranges.push((low, high))?;
    }
    SharedList::from_vec(ranges)
}
