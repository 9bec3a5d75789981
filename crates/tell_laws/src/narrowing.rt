//! The tells that narrow a box.

ghost use Rattle.std.specs.Prelude.{◌≡◌, ◌<◌, length, [], ◌∷◌, true, false};
ghost use Rattle.tells.specs.Words.{Keeps};
ghost use Rattle.tells.specs.Hearing.{MayHearAll, HearsAll};
ghost use Rattle.tell_laws.specs.Narrowing.{narrowing, narrows};
ghost use Rattle.interval.specs.Boxes.{Bounds};
ghost use Rattle.tells.specs.declared.tell.Tell.{Tell};
ghost use Rattle.tell_laws.specs.Narrowing as words;

use interval::BoxOf;
use tells::{Hear, Side, Tell};

/// Gives the tell to `h` where it narrows the box.
#[inline(always)]
pub fn tell_narrowing<H: Hear>(t: Tell, b: &BoxOf, h: &mut H)
    requires variable { t.var < length b.now }
    requires hearer { MayHearAll H.can_hear H.hears h.old (narrowing b.now (t ∷ [])) }
    ensures { HearsAll H.hears h.old (narrowing b.now (t ∷ [])) h.new }
{
    if narrows(t, b) {
        h.hear(t);
    }
}

/// Whether the tell's bound is tighter than the box's.
fn narrows(t: Tell, b: &BoxOf) -> bool
    requires { t.var < length b.now }
    ensures { result ≡ words.narrows b.now t }
{
    match t.side {
        Side::Low => b.low(t.var) < t.bound,
        Side::High => t.bound < b.high(t.var),
    }
}

/// A tell that doesn't narrow a box keeps it, and one that narrows it doesn't.
pub fn law_narrowing()
    ensures keeps { (b : Bounds) (t : Tell) → narrows b t ≡ false → Keeps b t }
    ensures tighter { (b : Bounds) (t : Tell) → narrows b t ≡ true → ¬ Keeps b t }
{}
