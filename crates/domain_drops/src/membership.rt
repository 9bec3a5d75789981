//! Drops by the membership in a set.

ghost use Rattle.std.specs.Prelude.{◌≡◌, ◌<◌, ◌||◌, Bool, ℤ, List, length, not, ◌&&◌, true};
ghost use Rattle.std.specs.List.{list_any};
ghost use Rattle.set_tells.specs.InSet.{has_number, IsSet};
ghost use Rattle.bit_domain.specs.Mixes.{hull};
ghost use Rattle.domain_drops.specs.Hearing.{MayHearDrops, HearsDrops};
ghost use Rattle.domain_drops.specs.Removals.{set_removal};
ghost use Rattle.domain_drops.specs.Drops.{dropped};

use crate::HearDrop;
use crate::literals::{is_out, is_sure};
use crate::walk::{NumberTest, drop_passing};
use bit_domain::MixOf;
use guarded_tell::Lit;

/// A set, and whether the numbers outside it pass, and those inside.
#[derive(Clone, Copy)]
struct AgainstSet<'a> {
    ranges: &'a [(i64, i64)],
    is_sure: bool,
    is_out: bool,
}

impl NumberTest for AgainstSet<'_> {
    ghost is_ready = { λ s. IsSet s.ranges.now };

    ghost test = { λ s z. (s.is_sure && not (list_any (has_number z) s.ranges.now)) || (s.is_out && list_any (has_number z) s.ranges.now) };

    fn passes(&self, value: i64) -> bool {
        let inside = has_value(self.ranges, value);
        (self.is_sure && !inside) || (self.is_out && inside)
    }
}

/// Whether the set has the value.
fn has_value(ranges: &[(i64, i64)], value: i64) -> bool
    requires { IsSet ranges.now }
    ensures { result ≡ list_any (has_number value) ranges.now }
{
    ranges
        .iter()
        .any(|range| range.0 <= value && value <= range.1)
}

/// Drops the numbers of x that are outside the set where the literal is sure, and those in it where the literal is out.
#[tactic(auto, unfolding(crate::specs::Removals::is_against_set))]
pub(crate) fn drop_against_set<H: HearDrop>(
    lit: Lit,
    x: u32,
    ranges: &[(i64, i64)],
    m: &MixOf,
    h: &mut H,
)
    requires ranges { IsSet ranges.now }
    requires literal { lit.var < length m.now }
    requires variable { x < length m.now }
    requires hearer { MayHearDrops H.can_hear H.hears h.old (dropped m.now (set_removal lit x ranges.now (hull m.now))) }
    ensures { HearsDrops H.hears h.old (dropped m.now (set_removal lit x ranges.now (hull m.now))) h.new }
{
    let test = AgainstSet {
        ranges,
        is_sure: is_sure(lit, m),
        is_out: is_out(lit, m),
    };
    drop_passing(x, &test, m, h);
}
