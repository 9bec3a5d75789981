//! The trailed box.

ghost use Rattle.std.specs.Prelude.{◌≡◌, ◌<◌, ◌++◌, [], ◌∷◌, length, take, IfOk, OnOk, OnErr, IfSome, IfNone};
ghost use Rattle.interval.specs.Limits.{IsBound};
ghost use Rattle.interval.specs.Boxes.{low_of, high_of, put_of, IsInRange};
ghost use Rattle.trailed_box.specs.Trailed.{left_of, IsPart};

use crate::log::{Cause, Log};
use crate::trail::{Change, Mark, Part, note, undo};
use interval::BoxOf;
use memory::NoMemory;
use std::alloc::Global;
use std::marker::Model;

/// A box, and a stack of boxes that are left for later. Contracts see these two, and of each box of the stack its base,
/// the box as it was when that one was left. It is kept as the part in which it differs from its base, and the changes of
/// the base since then are kept on a trail. So no box is copied, and each step costs what it changes.
#[derive(Drop)]
pub struct TrailedBox {
    current: BoxOf,
    trail: Vec<Change>,
    marks: Vec<Mark>,
    // for each variable the place on the trail of its last change
    last: Vec<u32>,
    // what was put and why, a hint
    log: Log,
}

impl Model for TrailedBox {
    ghost use Rattle.trailed_box.specs.Trailed.{Trailed};

    ghost Value = { Trailed };

    ghost use Rattle.trailed_box.specs.Trail.{stack_of};
    ghost use Rattle.trailed_box.specs.Invariant.{IsOrderly};

    ghost view = { λ t. record { current = t.current; stack = stack_of t.trail.items t.current t.marks.items } };

    ghost invariant = { IsOrderly };
}

/// Notes in the log, where bounds are kept, that these are put.
#[inline(always)]
fn log_put(log: &mut Log, b: &BoxOf, v: u32, low: i64, high: i64)
    requires { v < length b.now }
{
    if log.is_open() {
        log.note(v, (b.low(v), b.high(v)), (low, high));
    }
}

impl TrailedBox {
    /// The box `start`, with nothing left for later.
    pub fn new(alloc: Global, start: BoxOf) -> Result<TrailedBox, NoMemory>
        ensures current { IfOk result (λ t. t.current ≡ start) }
        ensures stack { IfOk result (λ t. t.stack ≡ []) }
    {
        let last = vec![in alloc; 0; start.len() as usize]?;
        Ok(TrailedBox {
            current: start,
            trail: Vec::new(alloc),
            marks: Vec::new(alloc),
            last,
            log: Log::closed(alloc),
        })
    }

    /// Goes over to the box `start`, which has as many variables, with nothing left for later. It takes no memory.
    pub fn restart(&mut self, start: &BoxOf)
        requires { length start.now ≡ length self.old.current }
        ensures current { self.new.current ≡ start.now }
        ensures stack { self.new.stack ≡ [] }
    {
        self.current.copy_from(start);
        self.trail.clear();
        self.marks.clear();
        self.log.forget(0);
    }

    /// Keeps a log of what is put from now on, if there is memory for it.
    pub fn keep_log(&mut self, alloc: Global)
        ensures { self.new ≡ self.old }
    {
        self.log.open(alloc, self.current.len());
    }

    /// Says why what is put from now on is put.
    #[inline(always)]
    pub fn because(&mut self, cause: Cause)
        ensures { self.new ≡ self.old }
    {
        self.log.because(cause);
    }

    /// What was put and why.
    pub fn log(&self) -> &Log {
        &self.log
    }

    /// How long the log was when the last box was left for later; 0 where none is left.
    pub fn level_start(&self) -> usize {
        match self.marks.as_slice().last() {
            Some(mark) => mark.logged,
            None => 0,
        }
    }

    /// The box.
    pub fn current(&self) -> &BoxOf
        ensures { result.now ≡ self.now.current }
    {
        &self.current
    }

    /// How many variables the box has.
    pub fn len(&self) -> u32
        ensures value { result ≡ length self.now.current }
        ensures in_range { IsInRange self.now.current }
    {
        self.current.len()
    }

    /// The lower bound of variable `v` of the box.
    pub fn low(&self, v: u32) -> i64
        requires { v < length self.now.current }
        ensures value { result ≡ low_of self.now.current v }
        ensures in_range { IsBound result }
    {
        self.current.low(v)
    }

    /// The upper bound of variable `v` of the box.
    pub fn high(&self, v: u32) -> i64
        requires { v < length self.now.current }
        ensures value { result ≡ high_of self.now.current v }
        ensures in_range { IsBound result }
    {
        self.current.high(v)
    }

    /// Sets the bounds of variable `v` of the box. They may be crossed.
    pub fn put(&mut self, v: u32, low: i64, high: i64) -> Result<(), NoMemory>
        requires variable { v < length self.old.current }
        requires low_in_range { IsBound low }
        requires high_in_range { IsBound high }
        ensures current { OnOk result (self.new.current ≡ put_of self.old.current v low high) }
        ensures stack { OnOk result (self.new.stack ≡ self.old.stack) }
        ensures err { OnErr result (self.new ≡ self.old) }
    {
        note(
            &self.current,
            self.marks.as_slice(),
            &mut self.trail,
            self.last.as_mut_slice(),
            v,
        )?;
        log_put(&mut self.log, &self.current, v, low, high);
        self.current.put(v, low, high);
        Ok(())
    }

    /// Leaves for later the box with these bounds for variable `v`.
    pub fn push(&mut self, v: u32, low: i64, high: i64) -> Result<(), NoMemory>
        requires variable { v < length self.old.current }
        requires low_in_range { IsBound low }
        requires high_in_range { IsBound high }
        ensures current { OnOk result (self.new.current ≡ self.old.current) }
        ensures stack { OnOk result (self.new.stack ≡ self.old.stack ++ left_of self.old.current v low high ∷ []) }
        ensures err { OnErr result (self.new ≡ self.old) }
    {
        let mark = Mark {
            from: self.trail.as_slice().len(),
            logged: self.log.len(),
            part: Part { var: v, low, high },
        };
        if self.marks.push(mark).is_err() {
            return Err(NoMemory);
        }
        Ok(())
    }

    /// Drops the boxes that are left for later, but for so many of those that were left first. The box stays.
    pub fn truncate(&mut self, count: usize)
        ensures current { self.new.current ≡ self.old.current }
        ensures stack { self.new.stack ≡ take count self.old.stack }
    {
        self.marks.truncate(count);
    }

    /// Goes back to the base of the box that was left for later last, and gives the part in which that box differs from
    /// it: the caller puts the part. It takes no memory.
    pub fn pop(&mut self) -> Option<Part>
        ensures none { IfNone result (self.old.stack ≡ []) }
        ensures unchanged { IfNone result (self.new ≡ self.old) }
        ensures some { IfSome result (λ p. self.old.stack ≡ self.new.stack ++ left_of self.new.current p.var p.low p.high ∷ []) }
        ensures part { IfSome result (λ p. IsPart (length self.new.current) p.var p.low p.high) }
        ensures same_length { length self.new.current ≡ length self.old.current }
    {
        let mark = self.marks.pop()?;
        undo(
            &mut self.current,
            &mut self.trail,
            self.last.as_mut_slice(),
            mark.from,
        );
        self.log.forget(mark.logged);
        Some(mark.part)
    }
}
