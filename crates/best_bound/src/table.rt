//! The table of one word that seats share: what a seat knows, the rule, and what each kind of step tells.

use atomic_table::{Join, Play, Split, TableRule};
use std::alloc::Global;
use std::collections::LinkedList;
use std::marker::PhantomData;

/// What a seat knows. No value of it is made.
pub struct View {
    /// Its share of the 1024 parts that all seats have together.
    pub parts: u64,
    /// The words that it has posted.
    pub posts: LinkedList<u64>,
    /// The words that it has seen.
    pub seen: LinkedList<u64>,
}

/// The test of a posted word, for contracts alone.
pub trait Law {
    ghost use Rattle.std.specs.Prelude.{ℕ};

    ghost passes: { ℕ → Type 0 };
}

/// The rule of the word and the views.
pub struct Rule<L> {
    law: PhantomData<L>,
}

impl<L: Law> TableRule<u8, View, u8> for Rule<L> {
    ghost use Rattle.best_bound.specs.Rule.{Keeps, first_view};

    ghost holds = { λ _. Keeps L.passes };

    ghost first = { λ _. first_view };
}

pub type Table<L> = atomic_table::Table<u8, View, u8, Rule<L>, Global>;

pub type Place = atomic_table::Seat<u8, View>;

/// A load of the word.
pub struct Looks<L> {
    law: PhantomData<L>,
}

impl<L: Law> Play<u8, View> for Looks<L> {
    ghost use Rattle.best_bound.specs.Rule.{looked};

    ghost then = { looked L.passes };
}

/// A post, by the least of the word and the posted one.
pub struct Tells<L> {
    law: PhantomData<L>,
}

impl<L: Law> Play<u8, View> for Tells<L> {
    ghost use Rattle.best_bound.specs.Rule.{told};

    ghost then = { told L.passes };
}

/// A new seat gets one part, and has seen the same.
pub struct Parts;

impl Split<View> for Parts {
    ghost use Rattle.best_bound.specs.Rule.{one_less, one_part};

    ghost left = { one_less };

    ghost right = { one_part };
}

/// A seat takes in what another knows, and its parts.
pub struct Merges;

impl Join<View> for Merges {
    ghost use Rattle.best_bound.specs.Rule.{joined, spent_view};

    ghost both = { joined };

    ghost spent = { spent_view };
}
