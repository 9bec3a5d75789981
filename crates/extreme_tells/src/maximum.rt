//! The greatest of a list of variables.

ghost use Rattle.std.specs.Prelude.{◌≡◌, ◌<◌, ◌≤ℤ◌, [], ◌∷◌, length, IfSome};
ghost use Rattle.std.specs.Bool.{OnTrue};
ghost use Rattle.std.specs.Int.{int_max};
ghost use Rattle.std.specs.List.{All, filter};
ghost use Rattle.interval.specs.Boxes.{low_of, high_of};
ghost use Rattle.tells.specs.Words.{AreVariables, Keeps};
ghost use Rattle.tells.specs.Words as words;
ghost use Rattle.tells.specs.Hearing.{MayHearAll, HearsAll};
ghost use Rattle.extreme_tells.specs.Extremes.{greatest_over, sole, told_each, told_of};
ghost use Rattle.extreme_tells.specs.Maximum.{max_reaches, max_member_tells, max_some_tells, max_tells};

use interval::{BoxOf, law_clamp_order};
use tells::{Hear, high_tell, low_tell, no_number};

/// The greatest low and the greatest high of a list of variables.
#[derive(Clone, Copy)]
struct Reach {
    low: i64,
    high: i64,
}

/// Gives the tells of: m is the greatest of the list, to `h`, in order.
pub fn visit_max<H: Hear>(m: u32, xs: &[u32], b: &BoxOf, h: &mut H)
    requires variables { AreVariables (length b.now) (m ∷ xs.now) }
    requires hearer { MayHearAll H.can_hear H.hears h.old (max_tells m xs.now b.now) }
    ensures { HearsAll H.hears h.old (max_tells m xs.now b.now) h.new }
{
    if xs.is_empty() {
        h.hear(no_number(m));
    } else {
        tell_greatest(m, xs, b, h);
    }
}

/// Gives the tells of: m is the greatest of some variables.
fn tell_greatest<H: Hear>(m: u32, xs: &[u32], b: &BoxOf, h: &mut H)
    requires some { 0 < length xs.now }
    requires variables { AreVariables (length b.now) (m ∷ xs.now) }
    requires hearer { MayHearAll H.can_hear H.hears h.old (max_some_tells m xs.now b.now) }
    ensures { HearsAll H.hears h.old (max_some_tells m xs.now b.now) h.new }
{
    let reach = reach_of(xs, b);
    tell_reach(m, reach, h);
    tell_members(m, xs, b, h);
}

/// Tells that m lies in the reach.
fn tell_reach<H: Hear>(m: u32, reach: Reach, h: &mut H)
    requires { MayHearAll H.can_hear H.hears h.old (words.low_tell m reach.low ∷ words.high_tell m reach.high ∷ []) }
    ensures { HearsAll H.hears h.old (words.low_tell m reach.low ∷ words.high_tell m reach.high ∷ []) h.new }
{
    h.hear(low_tell(m, reach.low as i128));
    h.hear(high_tell(m, reach.high as i128));
}

/// The greatest low and the greatest high of some variables.
fn reach_of(xs: &[u32], b: &BoxOf) -> Reach
    requires some { 0 < length xs.now }
    requires variables { AreVariables (length b.now) xs.now }
    ensures low { result.low ≡ greatest_over (low_of b.now) xs.now }
    ensures high { result.high ≡ greatest_over (high_of b.now) xs.now }
{
    let mut reach = Reach {
        low: b.low(xs[0]),
        high: b.high(xs[0]),
    };
    for i in 0..xs.len() {
        reach = reach_with(reach, xs[i], b);
    }
    reach
}

/// The reach with one more variable.
fn reach_with(reach: Reach, x: u32, b: &BoxOf) -> Reach
    requires { x < length b.now }
    ensures low { result.low ≡ int_max reach.low (low_of b.now x) }
    ensures high { result.high ≡ int_max reach.high (high_of b.now x) }
{
    Reach {
        low: reach.low.max(b.low(x)),
        high: reach.high.max(b.high(x)),
    }
}

/// Tells the variables of the list.
fn tell_members<H: Hear>(m: u32, xs: &[u32], b: &BoxOf, h: &mut H)
    requires variables { AreVariables (length b.now) (m ∷ xs.now) }
    requires hearer { MayHearAll H.can_hear H.hears h.old (max_member_tells m xs.now b.now) }
    ensures { HearsAll H.hears h.old (max_member_tells m xs.now b.now) h.new }
{
    tell_each(m, xs, b, h);
    tell_sole(m, xs, b, h);
}

/// Tells that no variable of the list is greater than m can be.
fn tell_each<H: Hear>(m: u32, xs: &[u32], b: &BoxOf, h: &mut H)
    requires variables { AreVariables (length b.now) (m ∷ xs.now) }
    requires hearer { MayHearAll H.can_hear H.hears h.old (told_each (λ x. words.high_tell x (high_of b.now m)) xs.now) }
    ensures { HearsAll H.hears h.old (told_each (λ x. words.high_tell x (high_of b.now m)) xs.now) h.new }
{
    for i in 0..xs.len() {
        tell_limit(m, xs[i], b, h);
    }
}

/// Tells that the variable isn't greater than m can be.
fn tell_limit<H: Hear>(m: u32, x: u32, b: &BoxOf, h: &mut H)
    requires m { m < length b.now }
    requires hearer { MayHearAll H.can_hear H.hears h.old (words.high_tell x (high_of b.now m) ∷ []) }
    ensures { HearsAll H.hears h.old (words.high_tell x (high_of b.now m) ∷ []) h.new }
{
    h.hear(high_tell(x, b.high(m) as i128));
}

/// Where one variable alone can be as great as m, tells that it is.
fn tell_sole<H: Hear>(m: u32, xs: &[u32], b: &BoxOf, h: &mut H)
    requires variables { AreVariables (length b.now) (m ∷ xs.now) }
    requires hearer { MayHearAll H.can_hear H.hears h.old
        (told_of (λ x. words.low_tell x (low_of b.now m)) (sole (filter (max_reaches m b.now) xs.now))) }
    ensures { HearsAll H.hears h.old
        (told_of (λ x. words.low_tell x (low_of b.now m)) (sole (filter (max_reaches m b.now) xs.now))) h.new }
{
    let found = sole_reaching(m, xs, b);
    tell_found(m, found, b, h);
}

/// Tells the variable that was found, if one was, that it isn't less than m can be.
fn tell_found<H: Hear>(m: u32, found: Option<u32>, b: &BoxOf, h: &mut H)
    requires m { m < length b.now }
    requires hearer { MayHearAll H.can_hear H.hears h.old (told_of (λ x. words.low_tell x (low_of b.now m)) found) }
    ensures { HearsAll H.hears h.old (told_of (λ x. words.low_tell x (low_of b.now m)) found) h.new }
{
    if let Some(x) = found {
        h.hear(low_tell(x, b.low(m) as i128));
    }
}

/// The variable that alone can be as great as m, if there is one.
fn sole_reaching(m: u32, xs: &[u32], b: &BoxOf) -> Option<u32>
    requires { AreVariables (length b.now) (m ∷ xs.now) }
    ensures { result ≡ sole (filter (max_reaches m b.now) xs.now) }
{
    let mut found = None;
    for i in 0..xs.len() {
        if reaches(m, xs[i], b) {
            if found.is_some() {
                return None;
            }
            found = Some(xs[i]);
        }
    }
    found
}

/// Whether x can be as great as m.
#[tactic(auto, unfolding(crate::specs::Maximum::max_reaches))]
fn reaches(m: u32, x: u32, b: &BoxOf) -> bool
    requires m { m < length b.now }
    requires x { x < length b.now }
    ensures { result ≡ max_reaches m b.now x }
{
    b.low(m) <= b.high(x)
}

/// Whether the greatest of the list is seen to tell nothing: m lies in the reach of the list and can be as great, and where one
/// variable alone can be as great as m, it is no less.
pub fn is_max_quiet(m: u32, xs: &[u32], b: &BoxOf) -> bool
    requires { AreVariables (length b.now) (m ∷ xs.now) }
    ensures { OnTrue result (All (Keeps b.now) (max_tells m xs.now b.now)) }
{
    law_clamp_order();
    // its contract says that the bounds are in range
    let _length = b.len();
    if xs.is_empty() {
        return false;
    }
    is_reach_kept(m, reach_of(xs, b), b) && is_sole_kept(m, sole_reaching(m, xs, b), b)
}

/// Whether m lies in the reach and can be as great.
fn is_reach_kept(m: u32, reach: Reach, b: &BoxOf) -> bool
    requires { m < length b.now }
    ensures low { OnTrue result (reach.low ≤ℤ low_of b.now m) }
    ensures from { OnTrue result (high_of b.now m ≤ℤ reach.high) }
    ensures to { OnTrue result (reach.high ≤ℤ high_of b.now m) }
{
    let high = b.high(m);
    reach.low <= b.low(m) && high <= reach.high && reach.high <= high
}

/// Whether the variable that was found, if one was, is no less than m can be.
fn is_sole_kept(m: u32, found: Option<u32>, b: &BoxOf) -> bool
    requires m { m < length b.now }
    requires found { IfSome found (λ x. x < length b.now) }
    ensures { OnTrue result (IfSome found (λ x. low_of b.now m ≤ℤ low_of b.now x)) }
{
    match found {
        Some(x) => b.low(m) <= b.low(x),
        None => true,
    }
}
