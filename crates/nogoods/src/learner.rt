//! What learns from failures.

ghost use Rattle.std.specs.Prelude.{◌≡◌, ◌<◌, ◌++◌, ◌∷◌, ◌⊎◌, [], List, length, OnOk, IfOk};
ghost use Rattle.std.specs.Bool.{OnTrue};
ghost use Rattle.std.specs.List.{All};
ghost use Rattle.interval.specs.Boxes.{Bounds};
ghost use Rattle.guarded_tell.specs.declared.kernel.Kernel.{Kernel};
ghost use Rattle.guarded_tell.specs.Words.{Keeps};
ghost use Rattle.guarded_tell.specs.Kernels.{IsKernel};
ghost use Rattle.literals.specs.Literals as words;
ghost use Rattle.literals.specs.Literals.{IsPlaced};
ghost use Rattle.nogoods.specs.Nogoods.{IsNogood};
ghost use Rattle.nogoods.specs.Bearings.{IfTold, IfFailed};
ghost use Rattle.nogoods.specs.Learnings.{IsKept};
ghost use Rattle.nogoods.specs.Learners.{Serves, AreFor, StillServes, RulesOut, Tells, AreRuledOut, AreTold};

use crate::analysis::{Learning, analyze};
use crate::bearing::{Bearing, bearing_on};
use crate::crossing::crossing_of;
use crate::first::{begin, begin_by};
use crate::store::Nogood;
use crate::touched::Touched;
use crate::uses::Uses;
use crate::watches::Watches;
use guarded_tell::{Kernel, Tell};
use interval::BoxOf;
use literals::Literals;
use memory::NoMemory;
use reasons::place_met;
use std::alloc::Global;
use trailed_box::Log;

/// Learns from failures. What it keeps are nogoods of one space; the rest are hints and room to work in.
#[derive(Drop)]
pub struct Learner {
    /// The nogoods.
    pub store: Vec<Nogood>,
    /// The nogood that is made.
    pub literals: Literals,
    /// A box to look at kernels in.
    pub past: BoxOf,
    /// What the last analysis read.
    pub touched: Touched,
    // which nogoods are looked at
    watches: Watches,
    // which are forgotten
    uses: Uses,
}

/// The most that there are between two times that some are forgotten.
const MOST_NOGOODS: usize = 100_000;

/// Puts a nogood behind the others, if there is memory for it.
fn put_behind(store: &mut Vec<Nogood>, nogood: Nogood)
    ensures { (store.new.items ≡ store.old.items ++ nogood ∷ []) ⊎ (store.new.items ≡ store.old.items) }
{
    match store.push(nogood) {
        Ok(()) => {}
        Err(_) => {}
    }
}

/// How the nogoods that may bear on the box do.
fn look(store: &[Nogood], watches: &mut Watches, b: &BoxOf, log: &Log) -> Bearing
    requires { All (λ nogood. All (IsPlaced (length b.now)) nogood.literals.items) store.now }
    ensures failed { IfFailed result (AreRuledOut store.now b.now) }
    ensures told { IfTold result (AreTold store.now b.now) }
    ensures placed { IfTold result (IsPlaced (length b.now)) }
    ensures unmet { IfTold result (λ t. Keeps b.now t → ⊥) }
{
    for _ in 0..u32::MAX {
        let Some(number) = watches.next(store, b, log) else {
            return Bearing::Quiet;
        };
        if number >= store.len() {
            return Bearing::Quiet;
        }
        match bearing_on(store[number].literals.as_slice(), number, b) {
            Bearing::Quiet => {}
            Bearing::Failed(number) => return Bearing::Failed(number),
            Bearing::Told(t, number) => return Bearing::Told(t, number),
        }
    }
    Bearing::Quiet
}

/// Notes which nogoods the last analysis used, and a new one.
fn note_uses(uses: &mut Uses, touched: &Touched) {
    uses.begin();
    for number in touched.nogoods.as_slice() {
        uses.add(*number);
    }
}

/// Forgets the nogood at a place.
fn drop_one(store: &mut Vec<Nogood>, place: usize)
    requires { place < length store.old.items }
    ensures { (kernels : List Kernel) (space : Bounds) → All (IsKept kernels space) store.old.items → All (IsKept kernels space) store.new.items }
{
    store.swap_remove(place);
}

/// Forgets the nogoods that were used so much at most, but none of two literals.
fn forget_some(store: &mut Vec<Nogood>, uses: &mut Uses, most: u32)
    ensures { (kernels : List Kernel) (space : Bounds) → All (IsKept kernels space) store.old.items → All (IsKept kernels space) store.new.items }
{
    let mut place = store.as_slice().len();
    while place > 0 {
        place -= 1;
        if place < store.as_slice().len()
            && uses.of(place) <= most
            && store[place].literals.as_slice().len() > 2
        {
            drop_one(store, place);
            uses.take(place);
        }
    }
    uses.halve();
}

/// How long the log must stay so that all literals of a list but one are met.
fn met_but_one(literals: &[Tell], log: &Log) -> usize {
    let (mut latest, mut next) = (0, 0);
    for t in literals {
        let count = match place_met(log, *t) {
            None => 0,
            Some(place) => place.wrapping_add(1),
        };
        next = next.max(count.min(latest));
        latest = latest.max(count);
    }
    next
}

impl Learner {
    /// One that has learned nothing, for a search of this space. Errors: memory.
    pub fn new(alloc: Global, space: &BoxOf) -> Result<Learner, NoMemory>
        ensures { IfOk result (λ learner. (kernels : List Kernel) → Serves kernels space.now learner) }
    {
        Ok(Learner {
            store: Vec::new(alloc),
            literals: Literals::new(alloc, space.len())?,
            past: space.copy(alloc)?,
            touched: Touched::new(alloc),
            watches: Watches::new(alloc, space.len())?,
            uses: Uses::new(alloc),
        })
    }

    /// The units of work of all analyses, and of all looks at nogoods, so far: a hint, comparable with what visits cost.
    pub fn work(&self) -> u64 {
        self.touched.work().saturating_add(self.watches.work())
    }

    /// Makes a nogood of a literal that a box meets with its opposite.
    fn make(
        &mut self,
        kernels: &[Kernel],
        space: &BoxOf,
        log: &Log,
        crossing: Tell,
        from: usize,
        is_whole: bool,
    ) -> Result<(), NoMemory>
        requires kernels { All (IsKernel (length space.now)) kernels.now }
        requires serves { Serves kernels.now space.now self.old }
        requires placed { IsPlaced (length space.now) crossing }
        requires opposite { IsPlaced (length space.now) (words.opposite crossing) }
        ensures placed { OnOk result (All (IsPlaced (length space.now)) self.new.literals) }
        ensures nogood { OnOk result (IsNogood kernels.now space.now self.new.literals) }
        ensures store { self.new.store ≡ self.old.store }
        ensures past { length self.new.past ≡ length self.old.past }
    {
        self.touched.clear();
        begin(crossing, space, &mut self.literals)?;
        let what = Learning {
            kernels,
            nogoods: self.store.as_slice(),
            space,
            log,
        };
        analyze(
            &what,
            &mut self.past,
            &mut self.literals,
            &mut self.touched,
            from,
            is_whole,
        )
    }

    /// Makes a nogood of one that is kept.
    fn make_of(
        &mut self,
        kernels: &[Kernel],
        space: &BoxOf,
        log: &Log,
        number: usize,
        from: usize,
        is_whole: bool,
    ) -> Result<(), NoMemory>
        requires kernels { All (IsKernel (length space.now)) kernels.now }
        requires serves { Serves kernels.now space.now self.old }
        requires number { number < length self.old.store.items }
        ensures placed { OnOk result (All (IsPlaced (length space.now)) self.new.literals) }
        ensures nogood { OnOk result (IsNogood kernels.now space.now self.new.literals) }
        ensures store { self.new.store ≡ self.old.store }
        ensures past { length self.new.past ≡ length self.old.past }
    {
        self.touched.clear();
        begin_by(
            self.store[number].literals.as_slice(),
            space,
            &mut self.literals,
        )?;
        let what = Learning {
            kernels,
            nogoods: self.store.as_slice(),
            space,
            log,
        };
        analyze(
            &what,
            &mut self.past,
            &mut self.literals,
            &mut self.touched,
            from,
            is_whole,
        )
    }

    /// Keeps the nogood that was made, if there is memory for it. The number that it has then, as a hint.
    fn keep(&mut self, alloc: Global) -> Option<usize>
        ensures { (kernels : List Kernel) (space : Bounds) → Serves kernels space self.old →
            All (IsPlaced (length space)) self.old.literals → IsNogood kernels space self.old.literals → Serves kernels space self.new }
    {
        if self.store.as_slice().len() >= MOST_NOGOODS {
            return None;
        }
        self.touched.touch_all(self.literals.as_slice());
        match Nogood::new(alloc, &self.literals) {
            Ok(nogood) => {
                put_behind(&mut self.store, nogood);
                note_uses(&mut self.uses, &self.touched);
                self.store.as_slice().len().checked_sub(1)
            }
            Err(_) => None,
        }
    }

    /// Learns from a box that failed: goes back along the log of how it was made to a place, or, where the whole is asked for, to
    /// what was chosen. The number of the nogood, if it learned one; where memory is refused it learns none.
    pub fn learn(
        &mut self,
        alloc: Global,
        kernels: &[Kernel],
        space: &BoxOf,
        log: &Log,
        b: &BoxOf,
        from: usize,
        is_whole: bool,
    ) -> Option<usize>
        requires kernels { All (IsKernel (length space.now)) kernels.now }
        requires same_count { length b.now ≡ length space.now }
        requires serves { Serves kernels.now space.now self.old }
        ensures { Serves kernels.now space.now self.new }
    {
        match crossing_of(b, log) {
            None => None,
            Some(crossing) => {
                match self.make(kernels, space, log, crossing, from, is_whole) {
                    Ok(()) => self.keep(alloc),
                    Err(_) => None,
                }
            }
        }
    }

    /// The same from a nogood that a box met.
    pub fn learn_again(
        &mut self,
        alloc: Global,
        kernels: &[Kernel],
        space: &BoxOf,
        log: &Log,
        number: usize,
        from: usize,
        is_whole: bool,
    ) -> Option<usize>
        requires kernels { All (IsKernel (length space.now)) kernels.now }
        requires serves { Serves kernels.now space.now self.old }
        ensures { Serves kernels.now space.now self.new }
    {
        if number >= self.store.as_slice().len() {
            return None;
        }
        match self.make_of(kernels, space, log, number, from, is_whole) {
            Ok(()) => self.keep(alloc),
            Err(_) => None,
        }
    }

    /// How the nogoods bear on a box that was made as the log says.
    pub fn bearing(&mut self, b: &BoxOf, log: &Log) -> Bearing
        requires { AreFor (length b.now) self.old }
        ensures failed { IfFailed result (RulesOut self.old b.now) }
        ensures told { IfTold result (Tells self.old b.now) }
        ensures placed { IfTold result (IsPlaced (length b.now)) }
        ensures unmet { IfTold result (λ t. Keeps b.now t → ⊥) }
        ensures serves { StillServes self.old self.new }
    {
        look(self.store.as_slice(), &mut self.watches, b, log)
    }

    /// Says that the log was cut to this length, as where a search goes back.
    pub fn back_to(&mut self, len: usize)
        ensures { StillServes self.old self.new }
    {
        self.watches.back_to(len);
    }

    /// Says that a search begins anew: each nogood is looked at then.
    pub fn begin_anew(&mut self)
        ensures { StillServes self.old self.new }
    {
        self.watches.clear();
    }

    /// Forgets, where there are more than some 2,000 nogoods, and more the longer it learns, about half of them: those that were used
    /// least, but none of two literals. It is for a search that begins anew, since the others have other numbers then.
    pub fn forget(&mut self, alloc: Global)
        ensures { StillServes self.old self.new }
    {
        self.watches.clear();
        if self.uses.are_too_many(self.store.as_slice().len())
            && let Some(most) = self.uses.median(alloc)
        {
            forget_some(&mut self.store, &mut self.uses, most);
        }
    }

    /// How long the log must stay so that all literals but one of the nogood of this number are met: where to go back to when it
    /// was learned. A hint.
    pub fn jump_place(&self, number: usize, log: &Log) -> usize {
        match self.store.as_slice().get(number) {
            None => 0,
            Some(nogood) => met_but_one(nogood.literals.as_slice(), log),
        }
    }

    /// Whether the box meets the nogood of this number: it has no solution then.
    pub fn refutes(&self, number: usize, b: &BoxOf) -> bool
        requires { AreFor (length b.now) self.now }
        ensures { OnTrue result (RulesOut self.now b.now) }
    {
        if number >= self.store.as_slice().len() {
            return false;
        }
        match bearing_on(self.store[number].literals.as_slice(), number, b) {
            Bearing::Quiet => false,
            Bearing::Failed(_) => true,
            Bearing::Told(_, _) => false,
        }
    }
}
