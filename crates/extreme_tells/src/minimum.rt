//! The least of a list of variables.

ghost use Rattle.std.specs.Prelude.{◌≡◌, ◌<◌, ◌≤ℤ◌, [], ◌∷◌, length, IfSome};
ghost use Rattle.std.specs.Bool.{OnTrue};
ghost use Rattle.std.specs.Int.{int_min};
ghost use Rattle.std.specs.List.{All, filter};
ghost use Rattle.interval.specs.Boxes.{high_of, low_of};
ghost use Rattle.tells.specs.Words.{AreVariables, Keeps};
ghost use Rattle.tells.specs.Words as words;
ghost use Rattle.tells.specs.Hearing.{MayHearAll, HearsAll};
ghost use Rattle.extreme_tells.specs.Extremes.{least_over, sole, told_each, told_of};
ghost use Rattle.extreme_tells.specs.Minimum.{min_reaches, min_member_tells, min_some_tells, min_tells};

use interval::{BoxOf, law_clamp_order};
use tells::{Hear, high_tell, low_tell, no_number};

/// The least high and the least low of a list of variables.
#[derive(Clone, Copy)]
struct Reach {
    high: i64,
    low: i64,
}

/// Gives the tells of: m is the least of the list, to `h`, in order.
pub fn visit_min<H: Hear>(m: u32, xs: &[u32], b: &BoxOf, h: &mut H)
    requires variables { AreVariables (length b.now) (m ∷ xs.now) }
    requires hearer { MayHearAll H.can_hear H.hears h.old (min_tells m xs.now b.now) }
    ensures { HearsAll H.hears h.old (min_tells m xs.now b.now) h.new }
{
    if xs.is_empty() {
        h.hear(no_number(m));
    } else {
        tell_least(m, xs, b, h);
    }
}

/// Gives the tells of: m is the least of some variables.
fn tell_least<H: Hear>(m: u32, xs: &[u32], b: &BoxOf, h: &mut H)
    requires some { 0 < length xs.now }
    requires variables { AreVariables (length b.now) (m ∷ xs.now) }
    requires hearer { MayHearAll H.can_hear H.hears h.old (min_some_tells m xs.now b.now) }
    ensures { HearsAll H.hears h.old (min_some_tells m xs.now b.now) h.new }
{
    let reach = reach_of(xs, b);
    tell_reach(m, reach, h);
    tell_members(m, xs, b, h);
}

/// Tells that m lies in the reach.
fn tell_reach<H: Hear>(m: u32, reach: Reach, h: &mut H)
    requires { MayHearAll H.can_hear H.hears h.old (words.high_tell m reach.high ∷ words.low_tell m reach.low ∷ []) }
    ensures { HearsAll H.hears h.old (words.high_tell m reach.high ∷ words.low_tell m reach.low ∷ []) h.new }
{
    h.hear(high_tell(m, reach.high as i128));
    h.hear(low_tell(m, reach.low as i128));
}

/// The least high and the least low of some variables.
fn reach_of(xs: &[u32], b: &BoxOf) -> Reach
    requires some { 0 < length xs.now }
    requires variables { AreVariables (length b.now) xs.now }
    ensures high { result.high ≡ least_over (high_of b.now) xs.now }
    ensures low { result.low ≡ least_over (low_of b.now) xs.now }
{
    let mut reach = Reach {
        high: b.high(xs[0]),
        low: b.low(xs[0]),
    };
    for i in 0..xs.len() {
        reach = reach_with(reach, xs[i], b);
    }
    reach
}

/// The reach with one more variable.
fn reach_with(reach: Reach, x: u32, b: &BoxOf) -> Reach
    requires { x < length b.now }
    ensures high { result.high ≡ int_min reach.high (high_of b.now x) }
    ensures low { result.low ≡ int_min reach.low (low_of b.now x) }
{
    Reach {
        high: reach.high.min(b.high(x)),
        low: reach.low.min(b.low(x)),
    }
}

/// Tells the variables of the list.
fn tell_members<H: Hear>(m: u32, xs: &[u32], b: &BoxOf, h: &mut H)
    requires variables { AreVariables (length b.now) (m ∷ xs.now) }
    requires hearer { MayHearAll H.can_hear H.hears h.old (min_member_tells m xs.now b.now) }
    ensures { HearsAll H.hears h.old (min_member_tells m xs.now b.now) h.new }
{
    tell_each(m, xs, b, h);
    tell_sole(m, xs, b, h);
}

/// Tells that no variable of the list is less than m can be.
fn tell_each<H: Hear>(m: u32, xs: &[u32], b: &BoxOf, h: &mut H)
    requires variables { AreVariables (length b.now) (m ∷ xs.now) }
    requires hearer { MayHearAll H.can_hear H.hears h.old (told_each (λ x. words.low_tell x (low_of b.now m)) xs.now) }
    ensures { HearsAll H.hears h.old (told_each (λ x. words.low_tell x (low_of b.now m)) xs.now) h.new }
{
    for i in 0..xs.len() {
        tell_limit(m, xs[i], b, h);
    }
}

/// Tells that the variable isn't less than m can be.
fn tell_limit<H: Hear>(m: u32, x: u32, b: &BoxOf, h: &mut H)
    requires m { m < length b.now }
    requires hearer { MayHearAll H.can_hear H.hears h.old (words.low_tell x (low_of b.now m) ∷ []) }
    ensures { HearsAll H.hears h.old (words.low_tell x (low_of b.now m) ∷ []) h.new }
{
    h.hear(low_tell(x, b.low(m) as i128));
}

/// Where one variable alone can be as small as m, tells that it is.
fn tell_sole<H: Hear>(m: u32, xs: &[u32], b: &BoxOf, h: &mut H)
    requires variables { AreVariables (length b.now) (m ∷ xs.now) }
    requires hearer { MayHearAll H.can_hear H.hears h.old
        (told_of (λ x. words.high_tell x (high_of b.now m)) (sole (filter (min_reaches m b.now) xs.now))) }
    ensures { HearsAll H.hears h.old
        (told_of (λ x. words.high_tell x (high_of b.now m)) (sole (filter (min_reaches m b.now) xs.now))) h.new }
{
    let found = sole_reaching(m, xs, b);
    tell_found(m, found, b, h);
}

/// Tells the variable that was found, if one was, that it isn't greater than m can be.
fn tell_found<H: Hear>(m: u32, found: Option<u32>, b: &BoxOf, h: &mut H)
    requires m { m < length b.now }
    requires hearer { MayHearAll H.can_hear H.hears h.old (told_of (λ x. words.high_tell x (high_of b.now m)) found) }
    ensures { HearsAll H.hears h.old (told_of (λ x. words.high_tell x (high_of b.now m)) found) h.new }
{
    if let Some(x) = found {
        h.hear(high_tell(x, b.high(m) as i128));
    }
}

/// The variable that alone can be as small as m, if there is one.
fn sole_reaching(m: u32, xs: &[u32], b: &BoxOf) -> Option<u32>
    requires { AreVariables (length b.now) (m ∷ xs.now) }
    ensures { result ≡ sole (filter (min_reaches m b.now) xs.now) }
{
    let mut found = None;
    for i in 0..xs.len() {
        if reaches(m, xs[i], b) {
            if found.is_some() {
                return None;
            }
            found = Some(xs[i]);
        }
    }
    found
}

/// Whether x can be as small as m.
#[tactic(auto, unfolding(crate::specs::Minimum::min_reaches))]
fn reaches(m: u32, x: u32, b: &BoxOf) -> bool
    requires m { m < length b.now }
    requires x { x < length b.now }
    ensures { result ≡ min_reaches m b.now x }
{
    b.high(m) >= b.low(x)
}

/// Whether the least of the list is seen to tell nothing: m lies in the reach of the list and can be as small, and where one
/// variable alone can be as small as m, it is no greater.
pub fn is_min_quiet(m: u32, xs: &[u32], b: &BoxOf) -> bool
    requires { AreVariables (length b.now) (m ∷ xs.now) }
    ensures { OnTrue result (All (Keeps b.now) (min_tells m xs.now b.now)) }
{
    law_clamp_order();
    // its contract says that the bounds are in range
    let _length = b.len();
    if xs.is_empty() {
        return false;
    }
    is_reach_kept(m, reach_of(xs, b), b) && is_sole_kept(m, sole_reaching(m, xs, b), b)
}

/// Whether m lies in the reach and can be as small.
fn is_reach_kept(m: u32, reach: Reach, b: &BoxOf) -> bool
    requires { m < length b.now }
    ensures high { OnTrue result (high_of b.now m ≤ℤ reach.high) }
    ensures from { OnTrue result (reach.low ≤ℤ low_of b.now m) }
    ensures to { OnTrue result (low_of b.now m ≤ℤ reach.low) }
{
    let low = b.low(m);
    b.high(m) <= reach.high && reach.low <= low && low <= reach.low
}

/// Whether the variable that was found, if one was, is no greater than m can be.
fn is_sole_kept(m: u32, found: Option<u32>, b: &BoxOf) -> bool
    requires m { m < length b.now }
    requires found { IfSome found (λ x. x < length b.now) }
    ensures { OnTrue result (IfSome found (λ x. high_of b.now x ≤ℤ high_of b.now m)) }
{
    match found {
        Some(x) => b.high(x) <= b.high(m),
        None => true,
    }
}
