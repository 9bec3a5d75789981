//! Boxes that are made, changed and copied.

ghost use Rattle.std.specs.Prelude.{◌≡◌, IfOk, pos, negsuc, [], ◌∷◌};

use crate::four_variables::PAST;
use interval::{BoxOf, is_crossed, is_point, width_sum};
use memory::NoMemory;
use std::alloc::Global;
use std::test::Fail;

/// A box of the pairs (-3, 4) and (7, 7).
fn two_pairs(alloc: Global) -> Result<BoxOf, NoMemory>
    ensures { IfOk result (λ b. b ≡ (negsuc 2, pos 4) ∷ (pos 7, pos 7) ∷ []) }
{
    BoxOf::from_pairs(alloc, &[(-3, 4), (7, 7)])
}

#[tactic(auto, unfolding(interval::specs::Limits::bound_limit, interval::specs::Limits::largest_number))]
#[test]
fn a_box_is_made_and_changed(rt: HostRuntime) -> Result<(), Fail> {
    let mut b = two_pairs(rt.alloc())?;
    assert_eq!(rt; width_sum(&b), 7);
    assert!(rt; !is_point(&b));
    b.put(0, 4, 4);
    assert!(rt; is_point(&b));
    b.put(1, -PAST, PAST);
    assert!(rt; !is_crossed(&b));
    assert_eq!(rt; width_sum(&b), 1 << 48);
    Ok(())
}

#[tactic(auto, unfolding(interval::specs::Limits::bound_limit, interval::specs::Limits::largest_number))]
#[test]
fn a_box_is_copied(rt: HostRuntime) -> Result<(), Fail> {
    let mut b = two_pairs(rt.alloc())?;
    b.put(0, 4, 4);
    let mut other = b.copy(rt.alloc())?;
    other.put(1, 8, 7);
    assert!(rt; is_crossed(&other));
    other.copy_from(&b);
    assert_eq!(rt; (other.len(), other.low(0), other.high(1)), (2, 4, 7));
    Ok(())
}
