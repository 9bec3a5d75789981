//! What a kernel's shape says of a visit, put together tell by tell.

ghost use Rattle.std.specs.Prelude.{◌≡◌, ◌<◌, ◌∷◌, ◌++◌, [], List, length};
ghost use Rattle.tell_laws.specs.Narrowing.{narrowing};
ghost use Rattle.tell_laws.specs.Narrowing as words;
ghost use Rattle.seen_tells.specs.Few.{AreFew};

use crate::seen::Seen;
use guarded_tell::{Side, Tell};
use interval::BoxOf;

impl Seen {
    /// The same with a tell appended to those that it has; `Unseen` where there are more than two then.
    #[inline(always)]
    pub(crate) fn with(self, t: Tell) -> Seen
        ensures { (ts : List Tell) → AreFew ts self → AreFew (ts ++ t ∷ []) result }
    {
        match self {
            Seen::Quiet(_) => Seen::One(t),
            Seen::One(first) => Seen::Two(first, t),
            Seen::Two(..) | Seen::Unseen => Seen::Unseen,
        }
    }

    /// Appends a tell to those that it has; it is `Unseen` where there are more than two then.
    #[inline(always)]
    pub(crate) fn add(&mut self, t: Tell)
        ensures { (ts : List Tell) → AreFew ts self.old → AreFew (ts ++ t ∷ []) self.new }
    {
        *self = self.with(t);
    }
}

/// The same with a tell appended to those that it has, where that narrows the box.
#[inline(always)]
pub(crate) fn with_tell(seen: Seen, t: Tell, b: &BoxOf) -> Seen
    requires { t.var < length b.now }
    ensures { (ts : List Tell) → AreFew ts seen → AreFew (ts ++ narrowing b.now (t ∷ [])) result }
{
    if narrows(t, b) { seen.with(t) } else { seen }
}

/// Whether the tell's bound is tighter than the box's.
#[inline(always)]
fn narrows(t: Tell, b: &BoxOf) -> bool
    requires { t.var < length b.now }
    ensures { result ≡ words.narrows b.now t }
{
    match t.side {
        Side::Low => b.low(t.var) < t.bound,
        Side::High => t.bound < b.high(t.var),
    }
}
