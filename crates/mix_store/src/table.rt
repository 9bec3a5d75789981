//! The table of words that seats share: what a seat knows, the rule, and what each kind of step tells.

use atomic_table::{Join, Play, Split, TableRule};
use bit_domain::{Dom, MixOf};
use std::alloc::Global;
use std::collections::LinkedList;
use std::marker::{Brand, PhantomData};

/// What a word keeps.
pub enum WordKind {
    /// A set, one bit for each number. Sets are joined by `and`.
    Set,
    /// A lower bound. Lower bounds are joined by taking the greater.
    Low,
    /// An upper bound. Upper bounds are joined by taking the lesser.
    High,
}

/// What a seat knows. No value of it is made.
pub struct View {
    /// Whether it isn't spent.
    pub live: bool,
    /// Whether the store was just made, and nobody has stepped.
    pub fresh: bool,
    /// What each word keeps.
    pub kinds: LinkedList<WordKind>,
    /// The mix that no tell may cut, or none.
    pub floor: Option<LinkedList<Dom>>,
    /// The words that it has seen.
    pub seen: LinkedList<u64>,
}

/// The rule of the words and the views.
pub struct Rule;

impl TableRule<u8, View, MixOf> for Rule {
    ghost use Rattle.mix_store.specs.Rule.{Keeps, made_view};

    ghost holds = { λ _. Keeps };

    ghost first = { made_view };
}

pub type Table = atomic_table::Table<u8, View, MixOf, Rule, Global>;

pub type Place = atomic_table::Seat<u8, View>;

/// A floor, for contracts alone.
pub trait Naming {
    ghost use Rattle.std.specs.Prelude.{Option};
    ghost use Rattle.bit_domain.specs.Mixes.{Mix};

    ghost floor: { Option Mix };
}

impl Naming for Brand {
    ghost use Rattle.std.specs.Prelude.{None};

    ghost floor = { None };
}

/// The load that names the floor of a store that was just made.
pub struct Names<N> {
    named: PhantomData<N>,
}

impl<N: Naming> Play<u8, View> for Names<N> {
    ghost use Rattle.mix_store.specs.Rule.{named};

    ghost then = { named N.floor };
}

/// A load of a word.
pub struct Asks;

impl Play<u8, View> for Asks {
    ghost use Rattle.mix_store.specs.Rule.{asked};

    ghost then = { asked };
}

/// A join of a word: it is then what it was and what is told both leave.
pub struct Tells;

impl Play<u8, View> for Tells {
    ghost use Rattle.mix_store.specs.Rule.{told};

    ghost then = { told };
}

/// The load after a join of seats, which tells what the rule says of the seat's own view.
pub struct Learns;

impl Play<u8, View> for Learns {
    ghost use Rattle.mix_store.specs.Rule.{learned};

    ghost then = { learned };
}

/// A new seat has seen the same.
pub struct Copies;

impl Split<View> for Copies {
    ghost left = { λ v. v };

    ghost right = { λ v. v };
}

/// A seat has seen what both have seen.
pub struct Merges;

impl Join<View> for Merges {
    ghost use Rattle.mix_store.specs.Rule.{merged, spent_view};

    ghost both = { merged };

    ghost spent = { spent_view };
}
