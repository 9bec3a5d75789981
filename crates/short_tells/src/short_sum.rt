//! Linear kernels whose sums are formed in 64 bits: the sums are formed once, and the tells are given from them.

ghost use Rattle.std.specs.Prelude.{◌≡◌, ◌≤◌, ◌≤ℤ◌, ◌<◌, ◌+ℤ◌, ◌-ℤ◌, pos, [], ◌∷◌, ◌&&◌, ◌||◌, int_lt, false, unsigned_abs, length};
ghost use Rattle.std.specs.Bool.{OnTrue, OnFalse};
ghost use Rattle.interval.specs.Limits.{IsNumber};
ghost use Rattle.interval.specs.Boxes.{low_of, high_of};
ghost use Rattle.tells.specs.Words.{AreVariables, IsProperIn};
ghost use Rattle.tells.specs.Words as words;
ghost use Rattle.tells.specs.Hearing.{MayHearAll, HearsAll};
ghost use Rattle.sum_tells.specs.Linear.{at_most_tells, literal_tells, IsLinear};
ghost use Rattle.sum_tells.specs.Equality.{eq_tells, equation_tells};
ghost use Rattle.sum_tells.specs.Equality as equality;
ghost use Rattle.tell_laws.specs.Narrowing.{narrowing};
ghost use Rattle.small_sums.specs.Short.{AreShortSums, short_sum_limit};
ghost use Rattle.short_tells.specs.ShortTells as rooms;

use crate::short_terms::{Room, narrow_terms};
use interval::{BoxOf, law_clamp_order, law_quotient_order};
use small_sums::{
    Sums, is_equation_quiet, is_pair_at_most_quiet, is_pair_equation_quiet,
    is_whole_equation_quiet, leaves_room, leaves_room_on_both_sides, short_sums,
};
use sum_tells::Extended;
use tell_laws::tell_narrowing;
use tells::{Hear, Lit, Tell, stands_false, stands_true, tell_false, tell_true};

/// Gives the tells of the inequality that narrow the box to `h`, and answers yes. Where some number is too large for 64
/// bits it gives none, and answers no.
pub fn narrow_at_most<H: Hear>(
    lit: Lit,
    coeffs: &[i64],
    vars: &[u32],
    limit: i64,
    b: &BoxOf,
    h: &mut H,
) -> bool
    requires linear { IsLinear coeffs.now vars.now limit }
    requires variables { AreVariables (length b.now) (lit.var ∷ vars.now) }
    requires proper { IsProperIn (lit.var ∷ vars.now) b.now }
    requires hearer { MayHearAll H.can_hear H.hears h.old (narrowing b.now (at_most_tells lit coeffs.now vars.now limit b.now)) }
    ensures given { OnTrue result (HearsAll H.hears h.old (narrowing b.now (at_most_tells lit coeffs.now vars.now limit b.now)) h.new) }
    ensures left { OnFalse result (h.new ≡ h.old) }
{
    if coeffs.len() == 2 {
        if is_pair_at_most_quiet(lit, coeffs, vars, limit, b) {
            return true;
        }
    }
    match short_sums(coeffs, vars, b) {
        Some(sums) => {
            narrow_short_at_most(lit, coeffs, vars, limit, sums, b, h);
            true
        }
        None => false,
    }
}

/// Gives the tells of an inequality whose sums these are.
#[inline(always)]
pub fn narrow_short_at_most<H: Hear>(
    lit: Lit,
    coeffs: &[i64],
    vars: &[u32],
    limit: i64,
    sums: Sums,
    b: &BoxOf,
    h: &mut H,
)
    requires linear { IsLinear coeffs.now vars.now limit }
    requires variables { AreVariables (length b.now) (lit.var ∷ vars.now) }
    requires proper { IsProperIn (lit.var ∷ vars.now) b.now }
    requires sums { AreShortSums b.now coeffs.now vars.now sums }
    requires hearer { MayHearAll H.can_hear H.hears h.old (narrowing b.now (at_most_tells lit coeffs.now vars.now limit b.now)) }
    ensures { HearsAll H.hears h.old (narrowing b.now (at_most_tells lit coeffs.now vars.now limit b.now)) h.new }
{
    law_quotient_order();
    law_clamp_order();
    if !leaves_room(lit, limit, sums, b) {
        tell_at_most(lit, coeffs, vars, limit, sums, b, h);
    }
}

/// The same where they leave no room: the literal's tells, and then the bounds'.
#[inline(never)]
fn tell_at_most<H: Hear>(
    lit: Lit,
    coeffs: &[i64],
    vars: &[u32],
    limit: i64,
    sums: Sums,
    b: &BoxOf,
    h: &mut H,
)
    requires linear { IsLinear coeffs.now vars.now limit }
    requires variables { AreVariables (length b.now) (lit.var ∷ vars.now) }
    requires proper { IsProperIn (lit.var ∷ vars.now) b.now }
    requires sums { AreShortSums b.now coeffs.now vars.now sums }
    requires hearer { MayHearAll H.can_hear H.hears h.old (narrowing b.now (at_most_tells lit coeffs.now vars.now limit b.now)) }
    ensures { HearsAll H.hears h.old (narrowing b.now (at_most_tells lit coeffs.now vars.now limit b.now)) h.new }
{
    law_clamp_order();
    let room = room_at_most(lit, limit, sums, b);
    narrow_literal(lit, limit, sums, b, h);
    narrow_terms(coeffs, vars, room, b, h);
}

/// Tells the literal where the sums decide the inequality.
#[inline(always)]
pub fn narrow_literal<H: Hear>(lit: Lit, limit: i64, sums: Sums, b: &BoxOf, h: &mut H)
    requires variable { lit.var < length b.now }
    requires hearer { MayHearAll H.can_hear H.hears h.old (narrowing b.now (literal_tells lit limit sums.least sums.greatest)) }
    ensures { HearsAll H.hears h.old (narrowing b.now (literal_tells lit limit sums.least sums.greatest)) h.new }
{
    tell_where(sums.greatest <= limit, tell_true(lit), b, h);
    tell_where(limit < sums.least, tell_false(lit), b, h);
}

/// Gives the tell to `h` where the test holds and it narrows the box.
pub fn tell_where<H: Hear>(test: bool, t: Tell, b: &BoxOf, h: &mut H)
    requires variable { t.var < length b.now }
    requires hearer { MayHearAll H.can_hear H.hears h.old (narrowing b.now (words.when test (t ∷ []))) }
    ensures { HearsAll H.hears h.old (narrowing b.now (words.when test (t ∷ []))) h.new }
{
    if test {
        tell_narrowing(t, b, h);
    }
}

/// The room that the sums leave to the terms of the inequality.
#[tactic(auto, unfolding(crate::specs::ShortTells::room_at_most))]
pub fn room_at_most(lit: Lit, limit: i64, sums: Sums, b: &BoxOf) -> Room
    requires variable { lit.var < length b.now }
    requires proper { low_of b.now lit.var ≤ℤ high_of b.now lit.var }
    requires limit { IsNumber limit }
    requires least { unsigned_abs sums.least ≤ short_sum_limit }
    requires greatest { unsigned_abs sums.greatest ≤ short_sum_limit }
    ensures { result ≡ rooms.room_at_most b.now lit limit sums }
{
    if stands_true(lit, b) {
        Room {
            rise: Some(rise_to(limit, sums)),
            fall: None,
        }
    } else if stands_false(lit, b) {
        Room {
            rise: None,
            fall: Some(fall_past(limit, sums)),
        }
    } else {
        Room {
            rise: None,
            fall: None,
        }
    }
}

/// Gives the tells of the equation that narrow the box to `h`, and answers yes, or gives none and answers no. The terms
/// of an equation that must not hold, and of one whose last term stands apart, are left to the answer no where they
/// may be told something.
pub fn narrow_equation<H: Hear>(
    lit: Lit,
    coeffs: &Extended<i64>,
    vars: &Extended<u32>,
    limit: i64,
    b: &BoxOf,
    h: &mut H,
) -> bool
    requires linear { IsLinear coeffs.now vars.now limit }
    requires variables { AreVariables (length b.now) (lit.var ∷ vars.now) }
    requires proper { IsProperIn (lit.var ∷ vars.now) b.now }
    requires hearer { MayHearAll H.can_hear H.hears h.old (narrowing b.now (eq_tells lit coeffs.now vars.now limit b.now)) }
    ensures given { OnTrue result (HearsAll H.hears h.old (narrowing b.now (eq_tells lit coeffs.now vars.now limit b.now)) h.new) }
    ensures left { OnFalse result (h.new ≡ h.old) }
{
    if let (Some(coeffs), Some(vars)) = (coeffs.as_slice(), vars.as_slice()) {
        narrow_equation_of(lit, coeffs, vars, limit, b, h)
    } else {
        is_whole_equation_quiet(lit, coeffs, vars, limit, b)
    }
}

/// The same of an equation whose terms all stand together.
fn narrow_equation_of<H: Hear>(
    lit: Lit,
    coeffs: &[i64],
    vars: &[u32],
    limit: i64,
    b: &BoxOf,
    h: &mut H,
) -> bool
    requires linear { IsLinear coeffs.now vars.now limit }
    requires variables { AreVariables (length b.now) (lit.var ∷ vars.now) }
    requires proper { IsProperIn (lit.var ∷ vars.now) b.now }
    requires hearer { MayHearAll H.can_hear H.hears h.old (narrowing b.now (eq_tells lit coeffs.now vars.now limit b.now)) }
    ensures given { OnTrue result (HearsAll H.hears h.old (narrowing b.now (eq_tells lit coeffs.now vars.now limit b.now)) h.new) }
    ensures left { OnFalse result (h.new ≡ h.old) }
{
    if stands_false(lit, b) {
        is_equation_quiet(lit, coeffs, vars, limit, b)
    } else {
        narrow_possible_equation(lit, coeffs, vars, limit, b, h)
    }
}

/// The same of an equation that may hold.
fn narrow_possible_equation<H: Hear>(
    lit: Lit,
    coeffs: &[i64],
    vars: &[u32],
    limit: i64,
    b: &BoxOf,
    h: &mut H,
) -> bool
    requires linear { IsLinear coeffs.now vars.now limit }
    requires variables { AreVariables (length b.now) (lit.var ∷ vars.now) }
    requires proper { IsProperIn (lit.var ∷ vars.now) b.now }
    requires possible { words.is_out lit b.now ≡ false }
    requires hearer { MayHearAll H.can_hear H.hears h.old (narrowing b.now (eq_tells lit coeffs.now vars.now limit b.now)) }
    ensures given { OnTrue result (HearsAll H.hears h.old (narrowing b.now (eq_tells lit coeffs.now vars.now limit b.now)) h.new) }
    ensures left { OnFalse result (h.new ≡ h.old) }
{
    if coeffs.len() == 2 {
        if is_pair_equation_quiet(lit, coeffs, vars, limit, b) {
            return true;
        }
    }
    match short_sums(coeffs, vars, b) {
        Some(sums) => {
            narrow_short_equation(lit, coeffs, vars, limit, sums, b, h);
            true
        }
        None => false,
    }
}

/// Gives the tells of an equation that may hold and whose sums these are.
#[inline(always)]
pub fn narrow_short_equation<H: Hear>(
    lit: Lit,
    coeffs: &[i64],
    vars: &[u32],
    limit: i64,
    sums: Sums,
    b: &BoxOf,
    h: &mut H,
)
    requires linear { IsLinear coeffs.now vars.now limit }
    requires variables { AreVariables (length b.now) (lit.var ∷ vars.now) }
    requires proper { IsProperIn (lit.var ∷ vars.now) b.now }
    requires possible { words.is_out lit b.now ≡ false }
    requires sums { AreShortSums b.now coeffs.now vars.now sums }
    requires hearer { MayHearAll H.can_hear H.hears h.old (narrowing b.now (eq_tells lit coeffs.now vars.now limit b.now)) }
    ensures { HearsAll H.hears h.old (narrowing b.now (eq_tells lit coeffs.now vars.now limit b.now)) h.new }
{
    law_quotient_order();
    law_clamp_order();
    if !leaves_room_on_both_sides(lit, limit, sums, b) {
        tell_equation(lit, coeffs, vars, limit, sums, b, h);
    }
}

/// The same where they leave no room: the literal's tells, and then the bounds'.
#[inline(never)]
fn tell_equation<H: Hear>(
    lit: Lit,
    coeffs: &[i64],
    vars: &[u32],
    limit: i64,
    sums: Sums,
    b: &BoxOf,
    h: &mut H,
)
    requires linear { IsLinear coeffs.now vars.now limit }
    requires variables { AreVariables (length b.now) (lit.var ∷ vars.now) }
    requires proper { IsProperIn (lit.var ∷ vars.now) b.now }
    requires possible { words.is_out lit b.now ≡ false }
    requires sums { AreShortSums b.now coeffs.now vars.now sums }
    requires hearer { MayHearAll H.can_hear H.hears h.old (narrowing b.now (eq_tells lit coeffs.now vars.now limit b.now)) }
    ensures { HearsAll H.hears h.old (narrowing b.now (eq_tells lit coeffs.now vars.now limit b.now)) h.new }
{
    law_clamp_order();
    let room = room_equal(lit, limit, sums, b);
    narrow_equation_literal(lit, limit, sums, b, h);
    narrow_terms(coeffs, vars, room, b, h);
}

/// Tells the literal where the sums decide the equation.
#[inline(always)]
pub fn narrow_equation_literal<H: Hear>(lit: Lit, limit: i64, sums: Sums, b: &BoxOf, h: &mut H)
    requires variable { lit.var < length b.now }
    requires hearer { MayHearAll H.can_hear H.hears h.old (narrowing b.now (equation_tells lit limit sums.least sums.greatest)) }
    ensures { HearsAll H.hears h.old (narrowing b.now (equation_tells lit limit sums.least sums.greatest)) h.new }
{
    tell_where(is_impossible(limit, sums), tell_false(lit), b, h);
    tell_where(is_certain(limit, sums), tell_true(lit), b, h);
}

/// Whether the limit isn't from the least to the greatest sum.
fn is_impossible(limit: i64, sums: Sums) -> bool
    ensures { result ≡ (int_lt limit sums.least || int_lt sums.greatest limit) }
{
    limit < sums.least || sums.greatest < limit
}

/// Whether the least and the greatest sum are the limit.
fn is_certain(limit: i64, sums: Sums) -> bool
    ensures { result ≡ (equality.is_same sums.least limit && equality.is_same sums.greatest limit) }
{
    is_same(sums.least, limit) && is_same(sums.greatest, limit)
}

/// Whether two numbers are the same.
pub fn is_same(y: i64, z: i64) -> bool
    ensures { result ≡ equality.is_same y z }
{
    y <= z && z <= y
}

/// The room that the sums leave to the terms of the equation.
#[tactic(auto, unfolding(crate::specs::ShortTells::room_equal))]
pub fn room_equal(lit: Lit, limit: i64, sums: Sums, b: &BoxOf) -> Room
    requires variable { lit.var < length b.now }
    requires proper { low_of b.now lit.var ≤ℤ high_of b.now lit.var }
    requires limit { IsNumber limit }
    requires least { unsigned_abs sums.least ≤ short_sum_limit }
    requires greatest { unsigned_abs sums.greatest ≤ short_sum_limit }
    ensures { result ≡ rooms.room_equal b.now lit limit sums }
{
    if stands_true(lit, b) {
        Room {
            rise: Some(rise_to(limit, sums)),
            fall: Some(fall_to(limit, sums)),
        }
    } else {
        Room {
            rise: None,
            fall: None,
        }
    }
}

/// How far a term may rise above its least value where the sum is at most the limit.
#[tactic(auto, unfolding(small_sums::specs::Short::short_sum_limit, interval::specs::Limits::largest_number))]
fn rise_to(limit: i64, sums: Sums) -> i64
    requires limit { IsNumber limit }
    requires sum { unsigned_abs sums.least ≤ short_sum_limit }
    ensures { result ≡ limit -ℤ sums.least }
{
    limit - sums.least
}

/// How far a term may fall below its greatest value where the sum is at least the limit.
#[tactic(auto, unfolding(small_sums::specs::Short::short_sum_limit, interval::specs::Limits::largest_number))]
fn fall_to(limit: i64, sums: Sums) -> i64
    requires limit { IsNumber limit }
    requires sum { unsigned_abs sums.greatest ≤ short_sum_limit }
    ensures { result ≡ sums.greatest -ℤ limit }
{
    sums.greatest - limit
}

/// How far a term may fall below its greatest value where the sum is more than the limit.
#[tactic(auto, unfolding(small_sums::specs::Short::short_sum_limit, interval::specs::Limits::largest_number))]
fn fall_past(limit: i64, sums: Sums) -> i64
    requires limit { IsNumber limit }
    requires sum { unsigned_abs sums.greatest ≤ short_sum_limit }
    ensures { result ≡ sums.greatest -ℤ (limit +ℤ pos 1) }
{
    sums.greatest - (limit + 1)
}
