//! One literal.

ghost use Rattle.std.specs.Prelude.{◌≡◌, ◌<◌, ◌↔◌, length, IsTrue};
ghost use Rattle.interval.specs.Limits.{IsBound};
ghost use Rattle.tells.specs.Words.{Keeps};
ghost use Rattle.literals.specs.Literals as words;
ghost use Rattle.literals.specs.Literals.{IsAsTight};

use interval::BoxOf;
use tells::{Side, Tell};

/// Whether the box meets the literal.
pub fn is_met(t: Tell, b: &BoxOf) -> bool
    requires { t.var < length b.now }
    ensures { IsTrue result ↔ Keeps b.now t }
{
    match t.side {
        Side::Low => t.bound <= b.low(t.var),
        Side::High => b.high(t.var) <= t.bound,
    }
}

/// Whether the first literal is as tight as the second.
pub fn is_as_tight(t: Tell, u: Tell) -> bool
    ensures { IsTrue result ↔ IsAsTight t u }
{
    if t.var != u.var {
        return false;
    }
    match (t.side, u.side) {
        (Side::Low, Side::Low) => u.bound <= t.bound,
        (Side::High, Side::High) => t.bound <= u.bound,
        _ => false,
    }
}

/// The literal that a point meets exactly where it doesn't meet this one.
#[tactic(auto, unfolding(interval::specs::Limits::bound_limit, interval::specs::Limits::largest_number))]
pub fn opposite(t: Tell) -> Tell
    requires { IsBound t.bound }
    ensures { result ≡ words.opposite t }
{
    match t.side {
        Side::Low => Tell {
            var: t.var,
            side: Side::High,
            bound: t.bound - 1,
        },
        Side::High => Tell {
            var: t.var,
            side: Side::Low,
            bound: t.bound + 1,
        },
    }
}
