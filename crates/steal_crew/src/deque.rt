//! The rule of a deque of numbers: what its passes know, and what each kind of step tells.

use crossbeam_deque::protocol::{Join, Lesson, Outcome, Protocol, Split};
use std::collections::LinkedList;

/// What a pass of a deque knows. No value of it is made.
pub struct View {
    /// Its share of the 1024 parts that all passes of the deque have together.
    pub parts: u64,
    /// The numbers that were dealt to the deque.
    pub dealt: LinkedList<u32>,
    /// The numbers that left the deque by this pass.
    pub taken: LinkedList<u32>,
}

/// The rule of the numbers and the views.
pub struct Rule;

impl Protocol<u32, View> for Rule {
    ghost use Rattle.steal_crew.specs.Rule.{Lawful, first_view, spent_view};

    ghost holds = { Lawful };

    ghost first = { first_view };

    ghost guest = { spent_view };
}

/// A push.
pub struct Pushes;

impl Outcome<u32, View> for Pushes {
    ghost use Rattle.steal_crew.specs.Rule.{pushed};

    ghost then = { pushed };
}

/// A steal.
pub struct Steals;

impl Outcome<u32, View> for Steals {
    ghost use Rattle.steal_crew.specs.Rule.{took};

    ghost then = { took };
}

/// A look at the deque.
pub struct Looks;

impl Lesson<u32, View> for Looks {
    ghost use Rattle.steal_crew.specs.Rule.{looked};

    ghost fact = { looked };
}

/// A new pass gets one part and has taken nothing.
pub struct Parts;

impl Split<View> for Parts {
    ghost use Rattle.steal_crew.specs.Rule.{one_less, one_part};

    ghost left = { one_less };

    ghost right = { one_part };
}

/// A pass takes in what another has taken, and its parts.
pub struct Merges;

impl Join<View> for Merges {
    ghost use Rattle.steal_crew.specs.Rule.{joined, spent_view};

    ghost both = { joined };

    ghost spent = { spent_view };
}

/// A pop.
pub struct Pops;

impl Outcome<u32, View> for Pops {
    ghost use Rattle.steal_crew.specs.Rule.{took, IsAllTaken};

    ghost then = { took };

    ghost empty = { IsAllTaken };
}
