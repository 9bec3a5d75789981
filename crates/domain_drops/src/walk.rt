//! The numbers of one variable, one after the other.

ghost use Rattle.std.specs.Prelude.{◌<◌, Bool, ℕ, ℤ, length, map, ◌≡◌};
ghost use Rattle.std.specs.List.{filter};
ghost use Rattle.interval.specs.Limits.{IsBound};
ghost use Rattle.bit_domain.specs.declared.dom.Dom.TheVariants.{Bits};
ghost use Rattle.bit_domain.specs.Mixes.{dom_of, values_of, values_from, IsDomInRange};
ghost use Rattle.domain_drops.specs.Hearing.{MayHearDrops, HearsDrops};
ghost use Rattle.domain_drops.specs.Hearing as hearing;

use crate::HearDrop;
use bit_domain::{Dom, MixOf, part_least};

/// A test of numbers.
pub(crate) trait NumberTest {
    // what it needs to be asked
    ghost is_ready: { Self → Type 0 };

    // which numbers pass
    ghost test: { Self → ℤ → Bool };

    /// Whether a number passes.
    fn passes(&self, value: i64) -> bool
        requires ready { is_ready self.now }
        requires number { IsBound value }
        ensures { result ≡ test self.now value };
}

/// Drops from the variable those of its numbers that pass the test.
pub(crate) fn drop_passing<T: NumberTest, H: HearDrop>(var: u32, test: &T, m: &MixOf, h: &mut H)
    requires variable { var < length m.now }
    requires ready { T.is_ready test.now }
    requires hearer { MayHearDrops H.can_hear H.hears h.old
        (map (λ z. (var, z)) (filter (T.test test.now) (values_of (dom_of m.now var)))) }
    ensures { HearsDrops H.hears h.old
        (map (λ z. (var, z)) (filter (T.test test.now) (values_of (dom_of m.now var)))) h.new }
{
    match m.dom(var) {
        Dom::Bits { base, set } => drop_members(var, base, set, test, h),
        Dom::Pair { .. } => {}
    }
}

/// Drops those of the numbers of a set over a base that pass the test.
fn drop_members<T: NumberTest, H: HearDrop>(var: u32, base: i64, set: u64, test: &T, h: &mut H)
    requires range { IsDomInRange (Bits base set) }
    requires ready { T.is_ready test.now }
    requires hearer { MayHearDrops H.can_hear H.hears h.old
        (map (λ z. (var, z)) (filter (T.test test.now) (values_from base set))) }
    ensures { HearsDrops H.hears h.old (map (λ z. (var, z)) (filter (T.test test.now) (values_from base set))) h.new }
{
    let mut rest = set;
    while rest != 0 {
        let (member, others) = part_least(rest);
        drop_one(var, base + member as i64, test, h);
        rest = others;
    }
}

/// Drops the number where it passes the test.
fn drop_one<T: NumberTest, H: HearDrop>(var: u32, value: i64, test: &T, h: &mut H)
    requires number { IsBound value }
    requires ready { T.is_ready test.now }
    requires hearer { MayHearDrops H.can_hear H.hears h.old (hearing.drop_when (T.test test.now value) (var, value)) }
    ensures { HearsDrops H.hears h.old (hearing.drop_when (T.test test.now value) (var, value)) h.new }
{
    if test.passes(value) {
        h.drop_value(var, value);
    }
}
