//! Drops by the element at a place of a list.

ghost use Rattle.std.specs.Prelude.{◌≡◌, ◌<◌, ◌≤◌, ◌∷◌, ◌&&◌, ◌-◌, pos, ℕ, not, length, int_le, slice_index_or, unsigned_abs};
ghost use Rattle.interval.specs.Limits.{IsBound};
ghost use Rattle.guarded_tell.specs.Words.{AreVariables};
ghost use Rattle.extreme_tells.specs.Extremes.{member_limit};
ghost use Rattle.element_tells.specs.Element as element;
ghost use Rattle.bit_domain.specs.Mixes.{hull};
ghost use Rattle.domain_drops.specs.Hearing.{MayHearDrops, HearsDrops};
ghost use Rattle.domain_drops.specs.Removals.{is_place_apart, place_removal};
ghost use Rattle.domain_drops.specs.Drops.{dropped};

use crate::HearDrop;
use crate::walk::{NumberTest, drop_passing};
use bit_domain::MixOf;

/// A list, and a variable that the one at a place is to equal.
#[derive(Clone, Copy)]
struct Apart<'a, 'b> {
    entries: &'a [u32],
    c: u32,
    m: &'b MixOf,
}

impl NumberTest for Apart<'_, '_> {
    ghost is_ready = { λ a. (length a.entries.now ≤ member_limit) × AreVariables (length a.m.now) (a.c ∷ a.entries.now) };

    ghost test = { λ a z. is_place_apart a.entries.now a.c (hull a.m.now) z };

    fn passes(&self, value: i64) -> bool {
        is_apart(self.entries, self.c, self.m, value)
    }
}

/// Whether the value is a place whose variable can't equal c.
#[tactic(auto, unfolding(extreme_tells::specs::Extremes::member_limit))]
fn is_apart(entries: &[u32], c: u32, m: &MixOf, value: i64) -> bool
    requires short { length entries.now ≤ member_limit }
    requires variables { AreVariables (length m.now) (c ∷ entries.now) }
    requires number { IsBound value }
    ensures { result ≡ is_place_apart entries.now c (hull m.now) value }
{
    if value >= 1 && value <= entries.len() as i64 {
        !can_equal(entries[value as usize - 1], c, m)
    } else {
        false
    }
}

/// Whether y and c can be equal.
fn can_equal(y: u32, c: u32, m: &MixOf) -> bool
    requires y { y < length m.now }
    requires c { c < length m.now }
    ensures { result ≡ element.can_equal y c (hull m.now) }
{
    m.low(y) <= m.high(c) && m.low(c) <= m.high(y)
}

/// Drops the places of x whose variable can't equal c.
pub(crate) fn drop_places<H: HearDrop>(x: u32, entries: &[u32], c: u32, m: &MixOf, h: &mut H)
    requires short { length entries.now ≤ member_limit }
    requires variables { AreVariables (length m.now) (x ∷ c ∷ entries.now) }
    requires hearer { MayHearDrops H.can_hear H.hears h.old (dropped m.now (place_removal x entries.now c (hull m.now))) }
    ensures { HearsDrops H.hears h.old (dropped m.now (place_removal x entries.now c (hull m.now))) h.new }
{
    let test = Apart { entries, c, m };
    drop_passing(x, &test, m, h);
}
