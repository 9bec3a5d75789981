//! Literals on the hull of a mix.

ghost use Rattle.std.specs.Prelude.{◌≡◌, ◌<◌, length};
ghost use Rattle.guarded_tell.specs.Words as words;
ghost use Rattle.bit_domain.specs.Mixes.{hull};

use bit_domain::MixOf;
use guarded_tell::Lit;

/// Whether the literal is true where its variable is `value`.
fn is_true(lit: Lit, value: i64) -> bool
    ensures { result ≡ words.literal_true lit value }
{
    if lit.positive { value >= 1 } else { value <= 0 }
}

/// Whether the literal is true for both ends of its variable.
#[tactic(auto, unfolding(guarded_tell::specs::Words::is_sure))]
pub(crate) fn is_sure(lit: Lit, m: &MixOf) -> bool
    requires { lit.var < length m.now }
    ensures { result ≡ words.is_sure lit (hull m.now) }
{
    is_true(lit, m.low(lit.var)) && is_true(lit, m.high(lit.var))
}

/// Whether the literal is false for both ends of its variable.
#[tactic(auto, unfolding(guarded_tell::specs::Words::is_out))]
pub(crate) fn is_out(lit: Lit, m: &MixOf) -> bool
    requires { lit.var < length m.now }
    ensures { result ≡ words.is_out lit (hull m.now) }
{
    !is_true(lit, m.low(lit.var)) && !is_true(lit, m.high(lit.var))
}
