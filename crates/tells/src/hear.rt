//! Those who are given tells.

ghost use Rattle.std.specs.Prelude.{◌≡◌, List};
ghost use Rattle.std.specs.Bool.{OnTrue};
ghost use Rattle.tells.specs.declared.tell.Tell.{Tell};
ghost use Rattle.tells.specs.Hearing.{MayHearAll, HearsAll};
ghost use Rattle.tells.specs.Words.{product_at_most, product_at_least};

use crate::Tell;

/// Is given tells, one after the other.
pub trait Hear {
    // which tell it may be given as it stands
    ghost can_hear: { Self → Tell → Type 0 };

    // how it stands before and after it heard a tell
    ghost hears: { Self → Tell → Self → Type 0 };

    /// Takes one tell.
    fn hear(&mut self, t: Tell)
        requires { can_hear self.old t }
        ensures { hears self.old t self.new };

    /// Whether it is seen to stay as it is whatever it hears. It then isn't told more. Who doesn't look says no.
    fn is_done(&self) -> bool
        ensures { OnTrue result ((ts : List Tell) → HearsAll hears self.now ts self.now) }
    {
        false
    }

    /// Whether it is seen to stay as it is where it hears that `coeff` times the variable is at most `room`. It then isn't
    /// told, and the division that the tell would take is saved. Who doesn't look says no.
    fn knows_at_most(&self, var: u32, coeff: i64, room: i128) -> bool
        requires { MayHearAll can_hear hears self.now (product_at_most var coeff room) }
        ensures { OnTrue result (HearsAll hears self.now (product_at_most var coeff room) self.now) }
    {
        false
    }

    /// The same where it hears that `coeff` times the variable is at least `room`.
    fn knows_at_least(&self, var: u32, coeff: i64, room: i128) -> bool
        requires { MayHearAll can_hear hears self.now (product_at_least var coeff room) }
        ensures { OnTrue result (HearsAll hears self.now (product_at_least var coeff room) self.now) }
    {
        false
    }
}
