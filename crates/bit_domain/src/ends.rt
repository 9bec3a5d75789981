//! The least and the greatest number of a domain.

ghost use Rattle.std.specs.Prelude.{◌≡◌};
ghost use Rattle.interval.specs.Limits.{IsBound};
ghost use Rattle.bit_domain.specs.declared.dom.Dom.TheVariants.{Bits};
ghost use Rattle.bit_domain.specs.Mixes.{ends_of, hull_of, values_from, IsDomInRange};

use crate::Dom;
use crate::bits::{greatest, least};

/// The least number; 1 where there are bits and none is set.
pub(crate) fn least_of(dom: Dom) -> i64
    requires { IsDomInRange dom }
    ensures value { result ≡ (hull_of dom).0 }
    ensures in_range { IsBound result }
{
    match dom {
        Dom::Bits { base, set } => least_from(base, set),
        Dom::Pair { low, .. } => low,
    }
}

/// The greatest number; 0 where there are bits and none is set.
pub(crate) fn greatest_of(dom: Dom) -> i64
    requires { IsDomInRange dom }
    ensures value { result ≡ (hull_of dom).1 }
    ensures in_range { IsBound result }
{
    match dom {
        Dom::Bits { base, set } => greatest_from(base, set),
        Dom::Pair { high, .. } => high,
    }
}

/// The least number of a set over a base; 1 of an empty one.
#[tactic(auto, unfolding(interval::specs::Limits::bound_limit, interval::specs::Limits::largest_number))]
fn least_from(base: i64, set: u64) -> i64
    requires { IsDomInRange (Bits base set) }
    ensures value { result ≡ (ends_of (values_from base set)).0 }
    ensures in_range { IsBound result }
{
    if set == 0 {
        1
    } else {
        let member = least(set);
        base + member as i64
    }
}

/// The greatest number of a set over a base; 0 of an empty one.
#[tactic(auto, unfolding(interval::specs::Limits::bound_limit, interval::specs::Limits::largest_number))]
fn greatest_from(base: i64, set: u64) -> i64
    requires { IsDomInRange (Bits base set) }
    ensures value { result ≡ (ends_of (values_from base set)).1 }
    ensures in_range { IsBound result }
{
    if set == 0 {
        0
    } else {
        let member = greatest(set);
        base + member as i64
    }
}
