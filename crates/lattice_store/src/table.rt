//! The table of words that seats share: what a seat knows, the rule, and what each kind of step tells.

use atomic_table::{Join, Play, Split, TableRule};
use interval::BoxOf;
use std::alloc::Global;
use std::collections::LinkedList;
use std::marker::{Brand, PhantomData};

/// What a seat knows. No value of it is made.
pub struct View {
    /// The epoch whose bounds the seat reads and tells.
    pub epoch: u64,
    /// Whether it is the store's first seat, which alone opens epochs.
    pub first: bool,
    /// Whether it isn't spent.
    pub live: bool,
    /// Whether the store was just made, and nobody has stepped.
    pub fresh: bool,
    /// Whether it has seen a word of a later epoch. From then on it sees nothing new.
    pub past: bool,
    /// How many words it has opened at its epoch.
    pub opened: u64,
    /// The box that no tell of its epoch may cut, or none.
    pub floor: Option<LinkedList<(i64, i64)>>,
    /// The words that it has seen.
    pub seen: LinkedList<u64>,
}

/// What a table is made of.
#[derive(Drop)]
pub struct Made {
    pub words: Vec<u64>,
    pub epoch: u32,
}

/// The rule of the words and the views.
pub struct Rule;

impl TableRule<u8, View, Made> for Rule {
    ghost use Rattle.lattice_store.specs.Rule.{Keeps, made_view};

    ghost holds = { λ _. Keeps };

    ghost first = { λ made. made_view made.words.items made.epoch };
}

pub type Table = atomic_table::Table<u8, View, Made, Rule, Global>;

pub type Place = atomic_table::Seat<u8, View>;

/// A floor, for contracts alone.
pub trait Naming {
    ghost use Rattle.std.specs.Prelude.{Option};
    ghost use Rattle.interval.specs.Boxes.{Bounds};

    ghost floor: { Option Bounds };
}

impl Naming for Brand {
    ghost use Rattle.std.specs.Prelude.{None};

    ghost floor = { None };
}

/// The load that names the floor of a store that was just made.
pub struct Names<N> {
    named: PhantomData<N>,
}

impl<N: Naming> Play<u8, View> for Names<N> {
    ghost use Rattle.lattice_store.specs.Rule.{named};

    ghost then = { named N.floor };
}

/// A load of a bound.
pub struct Asks;

impl Play<u8, View> for Asks {
    ghost use Rattle.lattice_store.specs.Rule.{asked};

    ghost then = { asked };
}

/// A join of a bound.
pub struct Tells;

impl Play<u8, View> for Tells {
    ghost use Rattle.lattice_store.specs.Rule.{told};

    ghost then = { told };
}

/// The first step of an opening: a join of the spare word, with which the first seat moves to the next epoch.
pub struct Begins<N> {
    named: PhantomData<N>,
}

impl<N: Naming> Play<u8, View> for Begins<N> {
    ghost use Rattle.lattice_store.specs.Rule.{began};

    ghost then = { began N.floor };
}

/// Each further step of an opening: a join of a bound of the new epoch.
pub struct Opens;

impl Play<u8, View> for Opens {
    ghost use Rattle.lattice_store.specs.Rule.{opens};

    ghost then = { opens };
}

/// The load after a join of seats, which tells what the rule says of the seat's own view.
pub struct Learns;

impl Play<u8, View> for Learns {
    ghost use Rattle.lattice_store.specs.Rule.{learned};

    ghost then = { learned };
}

/// A new seat has seen the same, and isn't the first.
pub struct Copies;

impl Split<View> for Copies {
    ghost use Rattle.lattice_store.specs.Rule.{not_first};

    ghost left = { λ v. v };

    ghost right = { not_first };
}

/// A seat has seen what both have seen.
pub struct Merges;

impl Join<View> for Merges {
    ghost use Rattle.lattice_store.specs.Rule.{merged, spent_view};

    ghost both = { merged };

    ghost spent = { spent_view };
}
