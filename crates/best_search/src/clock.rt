//! Whose turn it is, and how long. No contract speaks of it.

use race::Turns;

/// How often the turns change before the plain search goes on alone.
pub(crate) const MOST_TURNS: u32 = 100;

/// Which of the two searches has its turn.
#[derive(Clone, Copy, PartialEq, Eq, Debug)]
enum Whose {
    Plain,
    Free,
    /// The plain one's, and no other comes.
    Alone,
}

/// The turns of the two searches, of which the plain one's are twice as long each time.
#[derive(Clone, Copy, PartialEq, Eq, Debug)]
pub(crate) struct Clock {
    whose: Whose,
    // the units of its own work at which the turn ends
    end: u64,
    // the units of the plain search's next turn
    units: u64,
}

impl Clock {
    /// At the first turn, which is the plain search's.
    pub(crate) fn new(turns: Turns) -> Clock {
        Clock {
            whose: Whose::Plain,
            end: turns.first,
            units: turns.least,
        }
    }

    /// Whether the free search has its turn.
    pub(crate) fn is_free(&self) -> bool {
        self.whose == Whose::Free
    }

    /// The units of work that are left of the turn, where the search that has it did so many.
    pub(crate) fn left(&self, spent: u64) -> u64 {
        match self.whose {
            Whose::Alone => u64::MAX,
            Whose::Plain | Whose::Free => self.end.saturating_sub(spent),
        }
    }

    /// No other turn of the free search comes.
    pub(crate) fn leave_alone(&mut self) {
        self.whose = Whose::Alone;
    }

    /// The next turn, where the plain search did so many units of work and the free one so many.
    pub(crate) fn pass(&mut self, plain: u64, free: u64) {
        match self.whose {
            Whose::Plain => {
                self.whose = Whose::Free;
                self.end = free.saturating_add(free_units(self.units));
            }
            Whose::Free => {
                self.whose = Whose::Plain;
                self.end = plain.saturating_add(self.units);
                self.units = doubled(self.units);
            }
            Whose::Alone => {}
        }
    }
}

/// The turn of the free search before one of so many units of the plain one.
pub(crate) fn free_units(units: u64) -> u64 {
    (units / 8).saturating_mul(3)
}

/// The units of the turn after one of so many.
pub(crate) fn doubled(units: u64) -> u64 {
    units.saturating_mul(2)
}
