//! Literals on a box, and the tells that are made of a number.

ghost use Rattle.std.specs.Prelude.{◌≡◌, ◌<◌, ◌≤ℤ◌, pos, ℤ, length};
ghost use Rattle.interval.specs.Limits.{bound_limit};
ghost use Rattle.interval.specs.Boxes.{low_of, high_of};
ghost use Rattle.tells.specs.Words as words;

use crate::{Lit, Side, Tell};
use interval::{BOUND_LIMIT, BoxOf, clamp_bound};

/// Whether the literal is true where its variable is `value`.
fn is_true(lit: Lit, value: i64) -> bool
    ensures { result ≡ words.literal_true lit value }
{
    if lit.positive { value >= 1 } else { value <= 0 }
}

/// Whether the literal is true for both bounds of its variable.
#[tactic(auto, unfolding(crate::specs::Words::is_sure))]
pub fn is_sure(lit: Lit, b: &BoxOf) -> bool
    requires { lit.var < length b.now }
    ensures { result ≡ words.is_sure lit b.now }
{
    is_true(lit, b.low(lit.var)) && is_true(lit, b.high(lit.var))
}

/// Whether the literal is false for both bounds of its variable.
#[tactic(auto, unfolding(crate::specs::Words::is_out))]
pub fn is_out(lit: Lit, b: &BoxOf) -> bool
    requires { lit.var < length b.now }
    ensures { result ≡ words.is_out lit b.now }
{
    !is_true(lit, b.low(lit.var)) && !is_true(lit, b.high(lit.var))
}

/// Whether the literal is sure, where its variable has a number left. One bound then says so.
#[tactic(auto, unfolding(crate::specs::Words::is_sure))]
pub fn stands_true(lit: Lit, b: &BoxOf) -> bool
    requires variable { lit.var < length b.now }
    requires proper { low_of b.now lit.var ≤ℤ high_of b.now lit.var }
    ensures { result ≡ words.is_sure lit b.now }
{
    if lit.positive {
        b.low(lit.var) >= 1
    } else {
        b.high(lit.var) <= 0
    }
}

/// Whether the literal is out, where its variable has a number left.
#[tactic(auto, unfolding(crate::specs::Words::is_out))]
pub fn stands_false(lit: Lit, b: &BoxOf) -> bool
    requires variable { lit.var < length b.now }
    requires proper { low_of b.now lit.var ≤ℤ high_of b.now lit.var }
    ensures { result ≡ words.is_out lit b.now }
{
    if lit.positive {
        b.high(lit.var) <= 0
    } else {
        b.low(lit.var) >= 1
    }
}

/// The low of `var` is told the bound nearest to `value`.
pub fn low_tell(var: u32, value: i128) -> Tell
    ensures { result ≡ words.low_tell var value }
{
    Tell {
        var,
        side: Side::Low,
        bound: clamp_bound(value),
    }
}

/// The high of `var` is told the bound nearest to `value`.
pub fn high_tell(var: u32, value: i128) -> Tell
    ensures { result ≡ words.high_tell var value }
{
    Tell {
        var,
        side: Side::High,
        bound: clamp_bound(value),
    }
}

/// The low of `var` is told the bound past all numbers: no number is left.
#[tactic(auto, unfolding(interval::specs::Limits::bound_limit, interval::specs::Limits::largest_number))]
pub fn no_number(var: u32) -> Tell
    ensures { result ≡ words.low_tell var (pos bound_limit) }
{
    low_tell(var, BOUND_LIMIT as i128)
}

/// The literal is told true.
pub fn tell_true(lit: Lit) -> Tell
    ensures { result ≡ words.tell_true lit }
{
    if lit.positive {
        low_tell(lit.var, 1)
    } else {
        high_tell(lit.var, 0)
    }
}

/// The literal is told false.
pub fn tell_false(lit: Lit) -> Tell
    ensures { result ≡ words.tell_false lit }
{
    if lit.positive {
        high_tell(lit.var, 0)
    } else {
        low_tell(lit.var, 1)
    }
}
