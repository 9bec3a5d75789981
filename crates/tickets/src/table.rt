//! The table of words that seats share: what a seat knows, the rule, and what each kind of step tells.

use atomic_table::{Join, Play, Split, TableRule};
use std::alloc::Global;
use std::collections::LinkedList;

/// What a seat knows. No value of it is made.
pub struct View {
    /// Its share of the 1024 parts that all seats have together.
    pub parts: u64,
    /// How many numbers there are.
    pub count: u64,
    /// The first number whose word the seat hasn't stepped on.
    pub next: u64,
    /// The numbers that it has drawn.
    pub drawn: LinkedList<u64>,
}

/// The rule of the words and the views.
pub struct Rule;

impl TableRule<u8, View, u64> for Rule {
    ghost use Rattle.tickets.specs.Rule.{Keeps, first_view};

    ghost holds = { λ _. Keeps };

    ghost first = { first_view };
}

pub type Table = atomic_table::Table<u8, View, u64, Rule, Global>;

pub type Place = atomic_table::Seat<u8, View>;

/// A step on the word of the seat's next number, which is 1 then.
pub struct Draws;

impl Play<u8, View> for Draws {
    ghost use Rattle.tickets.specs.Rule.{drew};

    ghost then = { drew };
}

/// A load of the spare word.
pub struct Hears;

impl Play<u8, View> for Hears {
    ghost use Rattle.tickets.specs.Rule.{heard};

    ghost then = { heard };
}

/// A new seat gets one part and has drawn nothing.
pub struct Parts;

impl Split<View> for Parts {
    ghost use Rattle.tickets.specs.Rule.{one_less, one_part};

    ghost left = { one_less };

    ghost right = { one_part };
}

/// A seat takes in what another has drawn, and its parts.
pub struct Merges;

impl Join<View> for Merges {
    ghost use Rattle.tickets.specs.Rule.{joined, spent_view};

    ghost both = { joined };

    ghost spent = { spent_view };
}
