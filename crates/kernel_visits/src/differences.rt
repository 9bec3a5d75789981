//! A variable of a sum that must not have one number.

ghost use Rattle.std.specs.Prelude.{◌≡◌, ◌<◌, length, unsigned_abs};
ghost use Rattle.interval.specs.Limits.{IsBound};
ghost use Rattle.guarded_tell.specs.Hearing.{MayHearAll, HearsAll};
ghost use Rattle.sum_tells.specs.Equality.{low_is_not, high_is_not, product_is_not};
ghost use Rattle.sum_tells.specs.Equality as equality;
ghost use Rattle.tell_laws.specs.Narrowing.{narrowing};

use guarded_tell::Hear;
use interval::BoxOf;
use short_tells::{is_same, tell_where};
use tells::{high_tell, low_tell};

/// Tells that the coefficient times the variable isn't the product.
#[inline(always)]
pub fn narrow_apart<H: Hear>(coeff: i64, var: u32, product: i64, b: &BoxOf, h: &mut H)
    requires unit { unsigned_abs coeff ≡ 1 }
    requires variable { var < length b.now }
    requires hearer { MayHearAll H.can_hear H.hears h.old (narrowing b.now (product_is_not var coeff product b.now)) }
    ensures { HearsAll H.hears h.old (narrowing b.now (product_is_not var coeff product b.now)) h.new }
{
    narrow_low_apart(coeff, var, product, b, h);
    narrow_high_apart(coeff, var, product, b, h);
}

/// Leaves the low of the variable out, where it makes the product.
#[inline(always)]
fn narrow_low_apart<H: Hear>(coeff: i64, var: u32, product: i64, b: &BoxOf, h: &mut H)
    requires unit { unsigned_abs coeff ≡ 1 }
    requires variable { var < length b.now }
    requires hearer { MayHearAll H.can_hear H.hears h.old (narrowing b.now (low_is_not var coeff product b.now)) }
    ensures { HearsAll H.hears h.old (narrowing b.now (low_is_not var coeff product b.now)) h.new }
{
    let low = b.low(var);
    let tell = low_tell(var, low as i128 + 1);
    tell_where(is_product(coeff, low, product), tell, b, h);
}

/// Leaves the high of the variable out, where it makes the product.
#[inline(always)]
fn narrow_high_apart<H: Hear>(coeff: i64, var: u32, product: i64, b: &BoxOf, h: &mut H)
    requires unit { unsigned_abs coeff ≡ 1 }
    requires variable { var < length b.now }
    requires hearer { MayHearAll H.can_hear H.hears h.old (narrowing b.now (high_is_not var coeff product b.now)) }
    ensures { HearsAll H.hears h.old (narrowing b.now (high_is_not var coeff product b.now)) h.new }
{
    let high = b.high(var);
    let tell = high_tell(var, high as i128 - 1);
    tell_where(is_product(coeff, high, product), tell, b, h);
}

/// Whether the coefficient, which is 1 or -1, times the bound is the product.
#[tactic(auto, unfolding(interval::specs::Limits::bound_limit, interval::specs::Limits::largest_number))]
pub fn is_product(coeff: i64, value: i64, product: i64) -> bool
    requires unit { unsigned_abs coeff ≡ 1 }
    requires bound { IsBound value }
    ensures { result ≡ equality.is_product coeff value product }
{
    is_same(coeff * value, product)
}
