//! For each variable the kernels that name it, as masks: those of which it is an own variable, by the bounds by which they are
//! asked, and those that have a list that it is in, which are kept once for each list.

ghost use Rattle.std.specs.Prelude.{◌≡◌, ◌<◌, ◌≤◌, ◌+◌, ◌*◌, ◌^◌, ◌&&◌, ◌||◌, ℕ, false, length, slice_index_or, All, IfOk};
ghost use Rattle.std.specs.Bool.{OnTrue};
ghost use Rattle.guarded_tell.specs.Kernels.{IsKernel};
ghost use Rattle.kernel_visits.specs.Shapes.{AreShapesOf};
ghost use Rattle.moved_set.specs.Sets.{AreOwnShapes, IsNaming, set_at, side_set_at};
ghost use Rattle.moved_set.specs.Asking.{IsAsked, side_row, some_uses};
ghost use Rattle.moved_set.specs.Words.{names};

use crate::asked::AskedSet;
use crate::build::masks_of;
use crate::groups::Groups;
use crate::mask::Mask;
use crate::parts::parts_of;
use crate::rows::Rows;
use crate::shapes::shapes_of;
use crate::trailed_set::TrailedSet;
use guarded_tell::{Kernel, Side};
use kernel_visits::Shape;
use memory::NoMemory;
use std::alloc::Global;
use std::marker::Model;

/// Masks are of fewer variables than this.
const MOST_VARIABLES: u32 = 1073741824;

/// For each variable the kernels that name it, as masks. A long list of variables that several kernels have has these kernels
/// once. Contracts see the set of each kernel's variables, and those of the variables by whose lower or upper bound it is asked.
#[derive(Drop)]
pub struct Masks {
    count: u32,
    kernels: usize,
    // for each variable the kernels of which it is an own one: those that are asked by its lower bound alone, by both, and by the
    // upper one
    own: Groups,
    // for each variable the lists that it is in
    lists_of: Vec<Vec<u32>>,
    // for each list the kernels that have it
    users: Groups,
    // for each kernel its shape
    shapes: Vec<Shape>,
}

impl Model for Masks {
    ghost use Rattle.moved_set.specs.Sets.{Naming};
    ghost use Rattle.moved_set.specs.Asking.{asked_sets, row_of, side_row};
    ghost use Rattle.guarded_tell.specs.Words.{Low, High};
    ghost use Rattle.moved_set.specs.Consistent.{IsConsistent};

    ghost Value = { Naming };

    ghost view = { λ m. record { count = m.count; sets = asked_sets (row_of m.own) m.lists_of.items m.users m.count m.kernels; lows = asked_sets (side_row m.own Low) m.lists_of.items m.users m.count m.kernels; highs = asked_sets (side_row m.own High) m.lists_of.items m.users m.count m.kernels; shapes = m.shapes.items } };

    ghost invariant = { IsConsistent };
}

impl Masks {
    /// The masks of these kernels, which name some of the first `count` variables. 2^32 kernels or 2^30
    /// variables count as refused memory.
    pub fn new(alloc: Global, kernels: &[Kernel], count: u32) -> Result<Masks, NoMemory>
        requires { All (IsKernel count) kernels.now }
        ensures count { IfOk result (λ m. m.count ≡ count) }
        ensures naming { IfOk result (IsNaming kernels.now) }
        ensures shapes { IfOk result (λ m. AreShapesOf kernels.now m.shapes) }
        ensures own_shapes { IfOk result (λ m. AreOwnShapes kernels.now m.shapes) }
    {
        let parts = parts_of(alloc, kernels, count)?;
        if count >= MOST_VARIABLES || !can_be_numbered(kernels.len(), parts.lists.len()) {
            return Err(NoMemory);
        }
        let rows = Rows::of(alloc, kernels, &parts, count)?;
        let words = kernels.len() / 32 + 1;
        let own = masks_of(alloc, rows.own.as_slice(), words)?;
        let users = masks_of(alloc, rows.users.as_slice(), words)?;
        let shapes = shapes_of(alloc, kernels)?;
        let Rows { lists_of, .. } = rows;
        Ok(Masks {
            count,
            kernels: kernels.len(),
            own,
            lists_of,
            users,
            shapes,
        })
    }

    /// The shape of the kernel at a place.
    pub fn shape(&self, place: usize) -> &Shape
        requires { place < length self.now.shapes }
        ensures { result.now ≡ slice_index_or self.now.shapes place result.now }
    {
        &self.shapes.as_slice()[place]
    }

    /// Puts the kernels that name the variable into the set too.
    pub fn ask(&self, v: u32, asked: &mut AskedSet)
        requires variable { v < self.now.count }
        requires set { length asked.old ≡ length self.now.sets }
        ensures { IsAsked asked.old (λ j. slice_index_or (set_at self.now j) v false) asked.new }
    {
        let place = v as usize;
        asked.unite(self.own.three(3 * place));
        for list in &self.lists_of[place] {
            asked.unite(self.users.group(*list as usize));
        }
    }

    /// Puts those kernels that name the variable and are in the wanted set into the set too.
    pub fn ask_in(&self, v: u32, wanted: &TrailedSet, asked: &mut AskedSet)
        requires variable { v < self.now.count }
        requires set { length asked.old ≡ length self.now.sets }
        requires wanted { length wanted.now.current ≡ length self.now.sets }
        ensures { IsAsked asked.old (λ j. slice_index_or (set_at self.now j) v false && slice_index_or wanted.now.current j false) asked.new }
    {
        let place = v as usize;
        let row = self.own.three(3 * place);
        let lists = self.lists_of[place].as_slice();
        ask_row(row, lists, &self.users, wanted, asked);
    }

    /// Puts those kernels that are asked where the variable's bound on this side moves, and are in the wanted set, into the set
    /// too.
    #[inline(always)]
    pub fn ask_side_in(&self, v: u32, side: Side, wanted: &TrailedSet, asked: &mut AskedSet)
        requires variable { v < self.now.count }
        requires set { length asked.old ≡ length self.now.sets }
        requires wanted { length wanted.now.current ≡ length self.now.sets }
        ensures { IsAsked asked.old (λ j. slice_index_or (side_set_at self.now side j) v false && slice_index_or wanted.now.current j false) asked.new }
    {
        let place = v as usize;
        let row = row_of_side(&self.own, v, side);
        let lists = self.lists_of[place].as_slice();
        ask_row(row, lists, &self.users, wanted, asked);
    }

    /// Puts those kernels that name the variable and are in both wanted sets into the set too.
    pub fn ask_in_both(&self, v: u32, one: &TrailedSet, other: &TrailedSet, asked: &mut AskedSet)
        requires variable { v < self.now.count }
        requires set { length asked.old ≡ length self.now.sets }
        requires one { length one.now.current ≡ length self.now.sets }
        requires other { length other.now.current ≡ length self.now.sets }
        ensures { IsAsked asked.old (λ j. slice_index_or (set_at self.now j) v false && (slice_index_or one.now.current j false && slice_index_or other.now.current j false)) asked.new }
    {
        let place = v as usize;
        let row = self.own.three(3 * place);
        let lists = self.lists_of[place].as_slice();
        ask_row_in_both(row, lists, &self.users, one, other, asked);
    }

    /// Puts those kernels that are asked where the variable's bound on this side moves, and are in both wanted sets, into the
    /// set too.
    #[inline(always)]
    pub fn ask_side_in_both(
        &self,
        v: u32,
        side: Side,
        one: &TrailedSet,
        other: &TrailedSet,
        asked: &mut AskedSet,
    )
        requires variable { v < self.now.count }
        requires set { length asked.old ≡ length self.now.sets }
        requires one { length one.now.current ≡ length self.now.sets }
        requires other { length other.now.current ≡ length self.now.sets }
        ensures { IsAsked asked.old (λ j. slice_index_or (side_set_at self.now side j) v false && (slice_index_or one.now.current j false && slice_index_or other.now.current j false)) asked.new }
    {
        let place = v as usize;
        let row = row_of_side(&self.own, v, side);
        let lists = self.lists_of[place].as_slice();
        ask_row_in_both(row, lists, &self.users, one, other, asked);
    }
}

/// The kernels that are asked where the variable's bound on this side moves.
#[inline(always)]
fn row_of_side(own: &Groups, v: u32, side: Side) -> &[Mask]
    requires { 3 * v + 2 < length own.now }
    ensures { result.now ≡ side_row own.now side v }
{
    let place = 3 * v as usize;
    match side {
        Side::Low => own.two(place),
        Side::High => own.two(place + 1),
    }
}

/// Puts those kernels into the set too that a row or one of these lists has and that are in the wanted set.
#[inline(always)]
fn ask_row(row: &[Mask], lists: &[u32], users: &Groups, wanted: &TrailedSet, asked: &mut AskedSet)
    requires row { All (λ m. m.place * 32 ≤ length asked.old) row.now }
    requires lists { All (λ l. l < length users.now) lists.now }
    requires users { All (All (λ m. m.place * 32 ≤ length asked.old)) users.now }
    requires wanted { length wanted.now.current ≡ length asked.old }
    ensures { IsAsked asked.old (λ j. (names row.now j || some_uses users.now j lists.now) && slice_index_or wanted.now.current j false) asked.new }
{
    asked.unite_in(row, wanted);
    for list in lists {
        asked.unite_in(users.group(*list as usize), wanted);
    }
}

/// Puts those kernels into the set too that a row or one of these lists has and that are in both wanted sets.
#[inline(always)]
fn ask_row_in_both(
    row: &[Mask],
    lists: &[u32],
    users: &Groups,
    one: &TrailedSet,
    other: &TrailedSet,
    asked: &mut AskedSet,
)
    requires row { All (λ m. m.place * 32 ≤ length asked.old) row.now }
    requires lists { All (λ l. l < length users.now) lists.now }
    requires users { All (All (λ m. m.place * 32 ≤ length asked.old)) users.now }
    requires one { length one.now.current ≡ length asked.old }
    requires other { length other.now.current ≡ length asked.old }
    ensures { IsAsked asked.old (λ j. (names row.now j || some_uses users.now j lists.now) && (slice_index_or one.now.current j false && slice_index_or other.now.current j false)) asked.new }
{
    asked.unite_in_both(row, one, other);
    for list in lists {
        asked.unite_in_both(users.group(*list as usize), one, other);
    }
}

/// Whether so many kernels and lists can have numbers of 32 bits.
fn can_be_numbered(kernels: usize, lists: usize) -> bool
    ensures { OnTrue result ((kernels < 2 ^ 32) × (lists < 2 ^ 32)) }
{
    u32::try_from(kernels).is_ok() && u32::try_from(lists).is_ok()
}
