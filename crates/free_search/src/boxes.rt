//! The box of what lies in two boxes.

ghost use Rattle.std.specs.Prelude.{◌≡◌, ◌≤ℤ◌, ◌⊎◌, length, IfOk};
ghost use Rattle.interval.specs.Limits.{IsBound};
ghost use Rattle.free_search.specs.Free.{IsMeet};

use fixpoint_laws::law_tightens_one;
use interval::{BoxOf, law_inside_order};
use memory::NoMemory;
use std::alloc::Global;

/// The greater of two lower bounds.
fn greater(x: i64, y: i64) -> i64
    requires x { IsBound x }
    requires y { IsBound y }
    ensures first { x ≤ℤ result }
    ensures second { y ≤ℤ result }
    ensures one { (result ≡ x) ⊎ (result ≡ y) }
    ensures bound { IsBound result }
{
    if x < y { y } else { x }
}

/// The lesser of two upper bounds.
fn lesser(x: i64, y: i64) -> i64
    requires x { IsBound x }
    requires y { IsBound y }
    ensures first { result ≤ℤ x }
    ensures second { result ≤ℤ y }
    ensures one { (result ≡ x) ⊎ (result ≡ y) }
    ensures bound { IsBound result }
{
    if y < x { y } else { x }
}

/// The box of what lies in both of two boxes.
pub(crate) fn meet(alloc: Global, first: &BoxOf, second: &BoxOf) -> Result<BoxOf, NoMemory>
    requires { length first.now ≡ length second.now }
    ensures { IfOk result (IsMeet first.now second.now) }
{
    law_inside_order();
    law_tightens_one();
    let mut met = first.copy(alloc)?;
    for v in 0..second.len() {
        let low = greater(met.low(v), second.low(v));
        let high = lesser(met.high(v), second.high(v));
        met.put(v, low, high);
    }
    Ok(met)
}
