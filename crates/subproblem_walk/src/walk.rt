//! Subproblems of one number after another: what the way to the last one shares with the way to the next isn't cut again.

ghost use Rattle.std.specs.Prelude.{◌≡◌, ◌≢◌, ◌<◌, ◌≤◌, ◌-◌, ◌^◌, List, [], ◌∷◌, ◌++◌, length, take, Some, None, IfOk, IfSome, OnOk};
ghost use Rattle.std.specs.Bool.{OnTrue, OnFalse};
ghost use Rattle.interval.specs.Boxes.{Bounds, IsInside, put_of};
ghost use Rattle.guarded_tell.specs.declared.kernel.Kernel.{Kernel};
ghost use Rattle.constraint_model.specs.declared.model.FznModel.{FznModel};
ghost use Rattle.constraint_model.specs.Searches.{IsSearchOf};
ghost use Rattle.constraint_model.specs.WellFormed.{IsGoalOf};
ghost use Rattle.decompose.specs.Program.{IsProgramOf};
ghost use Rattle.fixpoint_laws.specs.Fixpoints.{IsClosed};
ghost use Rattle.branching.specs.Fronts.{FitsBox};
ghost use Rattle.trailed_box.specs.Trailed.{Left, left_of, IsPart, IsOver};
ghost use Rattle.moved_fixpoint.specs.Made.{IsMadeBy};
ghost use Rattle.moved_fixpoint.specs.Moved.{AreMasksOf};
ghost use Rattle.subproblems.specs.Cuts.{CanBeCut};
ghost use Rattle.subproblems.specs.Paths.{LeadsTo};
ghost use Rattle.subproblem_walk.specs.Nodes.{IsPartedAt, Serve, MayServe};
ghost use Rattle.subproblem_walk.specs.Beaten.{LeadsBelow};
ghost use Rattle.subproblem_walk.specs.Turns.{IsTurn, AreTurnsTo};
ghost use Rattle.subproblem_walk.specs.Walks.{IsWalkFrom, IsOnWay, IsWayTo, StandsOn, StandsUnder, AreSteps, IsAt, IsBackAt, IsWayTowards, IsEndFor, IsPathAt, IsReached, IsAnswer, IsLedTo, TakesTurn, box_of, IsMadeFrom, IsTold};

use crate::cutter::{Node, Subproblem, cut};
use crate::ends::{End, beaten_end, is_end_for, is_led_to};
use crate::tree::Tree;
use crate::turns::{Address, Turn, first_turn, fork, part_on, shared_turns};
use branching::Branching;
use interval::law_inside_order;
use memory::NoMemory;
use moved_fixpoint::MovedSets;
use std::alloc::{AllocError, Global};
use subproblems::{law_cuts, law_paths};
use trailed_box::{Part, TrailedBox};

/// What a way comes to.
#[derive(Clone, Copy)]
pub struct Reached {
    pub(crate) end: End,
    // what is left of the number there
    pub(crate) rest: Address,
}

/// The way to the number that was asked for last.
#[derive(Drop)]
pub struct Walk {
    // the first turn is the first one; each has a box on the stack, the closed one where the way turns
    turns: Vec<Turn>,
    end: End,
    // none: no number was asked for, or the box was given out
    boxes: Option<TrailedBox>,
    // what propagation works with
    sets: Option<MovedSets>,
}

/// The sets, or new ones.
fn take_sets(
    alloc: Global,
    tree: &Tree<'_>,
    sets: &mut Option<MovedSets>,
) -> Result<MovedSets, NoMemory>
    requires { MayServe sets.old tree.now.program.now.kernels (length tree.now.start.now) }
    ensures taken { sets.new ≡ None }
    ensures sets { IfOk result (λ s. Serve s tree.now.program.now.kernels (length tree.now.start.now)) }
{
    match sets.take() {
        Some(kept) => Ok(kept),
        None => {
            let made = MovedSets::new(alloc, tree.start.len(), tree.program.kernels.len())?;
            Ok(made)
        }
    }
}

/// Keeps a turn.
fn keep(turns: &mut Vec<Turn>, turn: Turn) -> Result<(), AllocError>
    ensures { OnOk result (turns.new.items ≡ turns.old.items ++ turn ∷ []) }
{
    turns.push(turn)?;
    Ok(())
}

/// Goes into a part of a closed box, which is left on the stack.
fn enter(sub: &mut Subproblem, part: Part) -> Result<(), NoMemory>
    requires part { IsPart (length sub.old.boxes.current) part.var part.low part.high }
    ensures current { OnOk result (sub.new.boxes.current ≡ put_of sub.old.boxes.current part.var part.low part.high) }
    ensures stack { OnOk result (sub.new.boxes.stack ≡ sub.old.boxes.stack ++ left_of sub.old.boxes.current part.var part.low part.high ∷ []) }
    ensures changed { OnOk result (sub.new.changed ≡ Some part.var) }
    ensures length { length sub.new.boxes.current ≡ length sub.old.boxes.current }
{
    sub.boxes.push(part.var, part.low, part.high)?;
    sub.boxes.put(part.var, part.low, part.high)?;
    sub.changed = Some(part.var);
    Ok(())
}

/// Goes on from a closed box to one of its parts. The closed box is left on the stack.
fn take_turn(
    sub: &mut Subproblem,
    turns: &mut Vec<Turn>,
    branching: Branching,
    address: Address,
) -> Result<Address, NoMemory>
    requires some { 0 < address.depth }
    requires depth { address.depth ≤ 62 }
    requires fits { FitsBox sub.old.boxes.current branching }
    ensures depth { IfOk result (λ rest. rest.depth ≡ address.depth - 1) }
    ensures turn { IfOk result (λ rest. (turn : Turn) × IsTurn (2 ^ (address.depth - 1)) address.number turn.goes_right rest.number ×
        TakesTurn branching sub.old.boxes sub.new.boxes turns.old.items turns.new.items turn) }
    ensures made { (model : FznModel) (kernels : List Kernel) → IsClosed sub.old.boxes.current kernels → IsPartedAt model sub.old.boxes.current branching →
        OnOk result (IsMadeBy sub.new.changed kernels sub.new.boxes.current) }
    ensures told { OnOk result (sub.new.changed ≢ None) }
    ensures length { length sub.new.boxes.current ≡ length sub.old.boxes.current }
{
    let (goes_right, rest) = first_turn(address);
    let part = part_on(goes_right, &branching);
    enter(sub, part)?;
    keep(
        turns,
        Turn {
            branching,
            goes_right,
        },
    )?;
    Ok(rest)
}

/// Goes down from a box to where the address leads, or to a closed box that the best cost beats.
fn lead(
    tree: &Tree<'_>,
    sub: &mut Subproblem,
    turns: &mut Vec<Turn>,
    sets: &mut MovedSets,
    address: Address,
    best: Option<i64>,
) -> Result<Reached, NoMemory>
    requires cut { CanBeCut tree.now.model.now tree.now.program.now.kernels sub.old.boxes.current }
    requires masks { AreMasksOf tree.now.program.now.kernels (length sub.old.boxes.current) tree.now.masks.now }
    requires made { IsMadeBy sub.old.changed tree.now.program.now.kernels sub.old.boxes.current }
    requires sets { Serve sets.old tree.now.program.now.kernels (length sub.old.boxes.current) }
    requires depth { address.depth ≤ 62 }
    requires goal { IfSome best (λ _. IsGoalOf tree.now.model.now.vars tree.now.model.now.goal) }
    ensures way { IfOk result (IsReached tree.now.model.now tree.now.program.now.kernels address sub.old.boxes sub.new.boxes turns.old.items turns.new.items) }
    ensures end_for { IfOk result (λ reached. IsEndFor best reached.end) }
    ensures made { IfOk result (λ reached.
        IsLedTo reached.end reached.rest.number → IsMadeBy sub.new.changed tree.now.program.now.kernels sub.new.boxes.current) }
    ensures told { (address.depth ≡ 0 → sub.old.changed ≢ None) → IfOk result (λ reached. IsLedTo reached.end reached.rest.number → sub.new.changed ≢ None) }
    ensures length { length sub.new.boxes.current ≡ length sub.old.boxes.current }
    ensures sets { OnOk result (Serve sets.new tree.now.program.now.kernels (length sub.old.boxes.current)) }
{
    if address.depth == 0 {
        return Ok(Reached {
            end: End::Part,
            rest: address,
        });
    }
    match cut(tree, sub, sets)? {
        Node::Failed => Ok(Reached {
            end: End::Failed,
            rest: address,
        }),
        Node::Fixed => {
            // it is made of itself: by any pair, put as it is
            sub.changed = Some(0);
            Ok(Reached {
                end: End::Fixed,
                rest: address,
            })
        }
        Node::Parted(branching) => {
            if let Some(end) = beaten_end(tree.model, best, sub.boxes.current()) {
                return Ok(Reached { end, rest: address });
            }
            let rest = take_turn(sub, turns, branching, address)?;
            // its contract says that the bounds are in range
            let _length = sub.boxes.len();
            let reached = lead(tree, sub, turns, sets, rest, best)?;
            Ok(reached)
        }
    }
}

/// Goes back to the closed box where the way took the turn at this place, and says how that box is parted.
fn back_to(boxes: &mut TrailedBox, turns: &mut Vec<Turn>, place: usize) -> Branching
    requires place { place < length turns.old.items }
    requires short { place ≤ 62 }
    ensures turns { turns.new.items ≡ take place turns.old.items }
    ensures back { (model : FznModel) (kernels : List Kernel) (start : Bounds) (way : List Left) → AreSteps model kernels start turns.old.items way →
        IsOver way boxes.old.stack → IsBackAt model kernels start turns.new.items boxes.new result }
    ensures length { length boxes.new.current ≡ length boxes.old.current }
{
    boxes.truncate(place + 1);
    boxes.pop();
    let branching = turns[place].branching;
    turns.truncate(place);
    branching
}

impl Walk {
    /// A walk that was asked for no number.
    pub fn new(alloc: Global) -> Walk
        ensures { (model : FznModel) (kernels : List Kernel) (start : Bounds) → IsWalkFrom model kernels start result }
    {
        Walk {
            turns: Vec::new(alloc),
            end: End::Part,
            boxes: None,
            sets: None,
        }
    }

    /// The box that the number leads to from the walk's start, if there is one, and by which pair it differs from a closed
    /// one. The box is the walk's own, and it is to be given back by `take_back`. The way to it stays known, so that the next
    /// number's boxes are cut only from where the two ways part. Errors: memory.
    pub fn path_box(
        &mut self,
        alloc: Global,
        tree: &Tree<'_>,
        number: u64,
    ) -> Result<Option<Subproblem>, NoMemory>
        requires program { IsProgramOf tree.now.model.now tree.now.program.now }
        requires masks { AreMasksOf tree.now.program.now.kernels (length tree.now.program.now.start) tree.now.masks.now }
        requires phases { IsSearchOf tree.now.model.now }
        requires length { length tree.now.start.now ≡ length tree.now.program.now.start }
        requires depth { tree.now.depth ≤ 62 }
        requires number { number < 2 ^ tree.now.depth }
        requires walk { IsWalkFrom tree.now.model.now tree.now.program.now.kernels tree.now.start.now self.old }
        ensures path { IfOk result (λ found. LeadsTo tree.now.model.now tree.now.program.now.kernels tree.now.depth tree.now.start.now number (box_of found)) }
        ensures inside { IfOk result (λ found. IfSome (box_of found) (λ b. IsInside b tree.now.start.now)) }
        ensures made { IfOk result (IsMadeFrom tree.now.program.now.kernels) }
        ensures told { tree.now.depth ≢ 0 → IfOk result IsTold }
        ensures walk { IsWalkFrom tree.now.model.now tree.now.program.now.kernels tree.now.start.now self.new }
        ensures over { IfOk result (StandsUnder tree.now.model.now tree.now.program.now.kernels tree.now.start.now self.new) }
        ensures kept { OnOk result (IsWayTo tree.now.depth number self.new) }
    {
        law_paths();
        // its contract says that the bounds are in range
        let _length = tree.start.len();
        self.go(alloc, tree, number, None)
    }

    /// The same where so much is the best cost: nothing too where that is known to beat what the number leads to. Errors: memory.
    pub fn path_box_below(
        &mut self,
        alloc: Global,
        tree: &Tree<'_>,
        number: u64,
        best: Option<i64>,
    ) -> Result<Option<Subproblem>, NoMemory>
        requires program { IsProgramOf tree.now.model.now tree.now.program.now }
        requires masks { AreMasksOf tree.now.program.now.kernels (length tree.now.program.now.start) tree.now.masks.now }
        requires phases { IsSearchOf tree.now.model.now }
        requires length { length tree.now.start.now ≡ length tree.now.program.now.start }
        requires depth { tree.now.depth ≤ 62 }
        requires number { number < 2 ^ tree.now.depth }
        requires walk { IsWalkFrom tree.now.model.now tree.now.program.now.kernels tree.now.start.now self.old }
        requires goal { IfSome best (λ _. IsGoalOf tree.now.model.now.vars tree.now.model.now.goal) }
        ensures path { IfOk result (λ found.
            LeadsBelow tree.now.model.now tree.now.program.now.kernels tree.now.depth tree.now.start.now number best (box_of found)) }
        ensures inside { IfOk result (λ found. IfSome (box_of found) (λ b. IsInside b tree.now.start.now)) }
        ensures made { IfOk result (IsMadeFrom tree.now.program.now.kernels) }
        ensures told { tree.now.depth ≢ 0 → IfOk result IsTold }
        ensures walk { IsWalkFrom tree.now.model.now tree.now.program.now.kernels tree.now.start.now self.new }
        ensures over { IfOk result (StandsUnder tree.now.model.now tree.now.program.now.kernels tree.now.start.now self.new) }
        ensures kept { OnOk result (IsWayTowards tree.now.depth number self.new) }
    {
        law_inside_order();
        law_paths();
        law_cuts();
        // its contract says that the bounds are in range
        let _length = tree.start.len();
        self.go(alloc, tree, number, best)
    }

    /// Goes to a number, as far as the best cost, if there is one, beats no box on the way.
    fn go(
        &mut self,
        alloc: Global,
        tree: &Tree<'_>,
        number: u64,
        best: Option<i64>,
    ) -> Result<Option<Subproblem>, NoMemory>
        requires program { IsProgramOf tree.now.model.now tree.now.program.now }
        requires masks { AreMasksOf tree.now.program.now.kernels (length tree.now.program.now.start) tree.now.masks.now }
        requires phases { IsSearchOf tree.now.model.now }
        requires length { length tree.now.start.now ≡ length tree.now.program.now.start }
        requires depth { tree.now.depth ≤ 62 }
        requires number { number < 2 ^ tree.now.depth }
        requires walk { IsWalkFrom tree.now.model.now tree.now.program.now.kernels tree.now.start.now self.old }
        requires goal { IfSome best (λ _. IsGoalOf tree.now.model.now.vars tree.now.model.now.goal) }
        ensures answer { IfOk result (IsAnswer tree.now.model.now tree.now.program.now.kernels tree.now.start.now tree.now.depth number best self.new) }
        ensures walk { IsWalkFrom tree.now.model.now tree.now.program.now.kernels tree.now.start.now self.new }
    {
        // its contract says that the bounds are in range
        let _length = tree.start.len();
        let address = Address {
            depth: tree.depth,
            number,
        };
        match self.boxes.take() {
            None => self.from_start(alloc, tree, address, best),
            Some(boxes) => self.from_last(alloc, tree, address, boxes, best),
        }
    }

    /// Goes from the way to the last number to another.
    fn from_last(
        &mut self,
        alloc: Global,
        tree: &Tree<'_>,
        address: Address,
        boxes: TrailedBox,
        best: Option<i64>,
    ) -> Result<Option<Subproblem>, NoMemory>
        requires cut { CanBeCut tree.now.model.now tree.now.program.now.kernels tree.now.start.now }
        requires masks { AreMasksOf tree.now.program.now.kernels (length tree.now.start.now) tree.now.masks.now }
        requires depth { address.depth ≤ 62 }
        requires goal { IfSome best (λ _. IsGoalOf tree.now.model.now.vars tree.now.model.now.goal) }
        requires sets { MayServe self.old.sets tree.now.program.now.kernels (length tree.now.start.now) }
        requires none { self.old.boxes ≡ None }
        requires way { IsOnWay tree.now.model.now tree.now.program.now.kernels tree.now.start.now self.old boxes }
        ensures answer { IfOk result (IsAnswer tree.now.model.now tree.now.program.now.kernels tree.now.start.now address.depth address.number best self.new) }
        ensures walk { IsWalkFrom tree.now.model.now tree.now.program.now.kernels tree.now.start.now self.new }
    {
        if self.ends_before(address, best) {
            self.boxes = Some(boxes);
            return Ok(None);
        }
        match fork(self.turns.as_slice(), address) {
            None => self.from_start(alloc, tree, address, best),
            Some(shared) => {
                let mut boxes = boxes;
                let branching = back_to(&mut boxes, &mut self.turns, shared.count);
                // it may have become better since the box was closed
                if let Some(end) = beaten_end(tree.model, best, boxes.current()) {
                    self.end = end;
                    self.boxes = Some(boxes);
                    return Ok(None);
                }
                let mut sub = Subproblem {
                    boxes,
                    changed: None,
                };
                let rest = take_turn(&mut sub, &mut self.turns, branching, shared.rest)?;
                self.go_down(alloc, tree, sub, address, rest, best)
            }
        }
    }

    /// Whether the way to the last number ends at a box below which this number leads nowhere, or to what the best cost beats.
    fn ends_before(&self, address: Address, best: Option<i64>) -> bool
        requires { address.depth ≤ 62 }
        ensures none { (model : FznModel) (kernels : List Kernel) (start : Bounds) (way : List Left) → StandsOn model kernels start self.now way →
            OnTrue result (IsPathAt model kernels address.depth start address.number self.now.end None) }
        ensures end_for { OnTrue result (IsEndFor best self.now.end) }
        ensures way { OnTrue result (IsWayTowards address.depth address.number self.now) }
    {
        if let End::Part = self.end {
            return false;
        }
        if !is_end_for(self.end, best) {
            return false;
        }
        let turns = self.turns.as_slice();
        let shared = shared_turns(turns, turns.len(), address);
        if shared.count < turns.len() || shared.rest.depth == 0 {
            return false;
        }
        if is_led_to(self.end, shared.rest.number) {
            return false;
        }
        true
    }

    /// Goes all the way.
    fn from_start(
        &mut self,
        alloc: Global,
        tree: &Tree<'_>,
        address: Address,
        best: Option<i64>,
    ) -> Result<Option<Subproblem>, NoMemory>
        requires cut { CanBeCut tree.now.model.now tree.now.program.now.kernels tree.now.start.now }
        requires masks { AreMasksOf tree.now.program.now.kernels (length tree.now.start.now) tree.now.masks.now }
        requires depth { address.depth ≤ 62 }
        requires goal { IfSome best (λ _. IsGoalOf tree.now.model.now.vars tree.now.model.now.goal) }
        requires sets { MayServe self.old.sets tree.now.program.now.kernels (length tree.now.start.now) }
        requires none { self.old.boxes ≡ None }
        ensures answer { IfOk result (IsAnswer tree.now.model.now tree.now.program.now.kernels tree.now.start.now address.depth address.number best self.new) }
        ensures walk { IsWalkFrom tree.now.model.now tree.now.program.now.kernels tree.now.start.now self.new }
    {
        self.turns.clear();
        let sub = Subproblem {
            boxes: TrailedBox::new(alloc, tree.start.copy(alloc)?)?,
            changed: None,
        };
        self.go_down(alloc, tree, sub, address, address, best)
    }

    /// Goes down from a box to where the address leads.
    fn go_down(
        &mut self,
        alloc: Global,
        tree: &Tree<'_>,
        sub: Subproblem,
        whole: Address,
        rest: Address,
        best: Option<i64>,
    ) -> Result<Option<Subproblem>, NoMemory>
        requires cut { CanBeCut tree.now.model.now tree.now.program.now.kernels tree.now.start.now }
        requires masks { AreMasksOf tree.now.program.now.kernels (length tree.now.start.now) tree.now.masks.now }
        requires depth { rest.depth ≤ 62 }
        requires goal { IfSome best (λ _. IsGoalOf tree.now.model.now.vars tree.now.model.now.goal) }
        requires sets { MayServe self.old.sets tree.now.program.now.kernels (length tree.now.start.now) }
        requires none { self.old.boxes ≡ None }
        requires at { IsAt tree.now.model.now tree.now.program.now.kernels tree.now.start.now self.old.turns.items sub.boxes }
        requires turns { AreTurnsTo whole.depth whole.number self.old.turns.items rest.depth rest.number }
        requires length { length sub.boxes.current ≡ length tree.now.start.now }
        requires made { IsMadeBy sub.changed tree.now.program.now.kernels sub.boxes.current }
        requires told { whole.depth ≢ 0 → rest.depth ≡ 0 → sub.changed ≢ None }
        ensures answer { IfOk result (IsAnswer tree.now.model.now tree.now.program.now.kernels tree.now.start.now whole.depth whole.number best self.new) }
        ensures walk { IsWalkFrom tree.now.model.now tree.now.program.now.kernels tree.now.start.now self.new }
    {
        let mut sub = sub;
        let mut sets = take_sets(alloc, tree, &mut self.sets)?;
        let reached = lead(tree, &mut sub, &mut self.turns, &mut sets, rest, best)?;
        self.sets = Some(sets);
        self.end = reached.end;
        if is_led_to(reached.end, reached.rest.number) {
            return Ok(Some(sub));
        }
        self.boxes = Some(sub.boxes);
        Ok(None)
    }

    /// Takes the box back that was given out for the last number, whatever was put and left above the way.
    pub fn take_back(&mut self, boxes: TrailedBox)
        ensures walk { (model : FznModel) (kernels : List Kernel) (start : Bounds) → IsWalkFrom model kernels start self.old →
            IsOnWay model kernels start self.old boxes → IsWalkFrom model kernels start self.new }
        ensures boxes { self.new.boxes ≡ Some boxes }
        ensures way { (self.new.turns ≡ self.old.turns) × (self.new.end ≡ self.old.end) × (self.new.sets ≡ self.old.sets) }
    {
        self.boxes = Some(boxes);
    }
}
