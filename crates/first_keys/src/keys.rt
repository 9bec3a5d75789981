//! The first solution, key by key.

ghost use Rattle.std.specs.Prelude.{◌≡◌, ◌<◌, ℕ, suc, ℤ, List, length, Some, IfOk, IfSome, IfNone};
ghost use Rattle.std.specs.Bool.{OnTrue};
ghost use Rattle.interval.specs.Boxes.{IsInside, low_of, high_of};
ghost use Rattle.branching.specs.Tree.{SolutionsIn};
ghost use Rattle.solution_lists.specs.Solutions.{SolvesInside};
ghost use Rattle.solution_lists.specs.Order.{value_at};
ghost use Rattle.solution_lists.specs.Static.{IsStaticSearch};
ghost use Rattle.search.specs.Premises.{IsRun};
ghost use Rattle.search.specs.Ends.{head_of};
ghost use Rattle.free_search.specs.Free.{IsFreeSearch};
ghost use Rattle.first_keys.specs.Order.{IsKeyAt};
ghost use Rattle.first_keys.specs.Halves.{AreHalves, best_of};
ghost use Rattle.first_keys.specs.Least.{IsKeys, IsDone, AreNumbersOf, asked};

use crate::halves::{Halves, halve};
use crate::key::{Key, keys_of};
use fixpoint_laws::law_tightens_one;
use free_laws::law_first_by_keys;
use free_search::{FreeEnd, FreeSearch};
use gate::Gate;
use interval::{BoxOf, law_inside_order};
use list_of::ListOf;
use memory::NoMemory;
use search::{Run, law_can_search};
use std::alloc::Global;
use std::thread::Threads;

/// A search for the first solution of a static order in a box. It can be left and gone on with.
#[derive(Drop)]
pub struct Keys {
    // the keys, in the order in which they are compared
    pub(crate) list: ListOf<Key>,
    // the box that is asked for
    pub(crate) sub: BoxOf,
    // a solution there whose first keys are the least
    pub(crate) solution: ListOf<i64>,
    // how many of them are so
    pub(crate) place: usize,
    // the solutions with these keys are those in this box
    pub(crate) rest: BoxOf,
    // whether propagation has narrowed it since it was cut, a hint
    pub(crate) is_narrow: bool,
}

/// The number of a variable in the solution, and its bounds.
#[derive(Clone, Copy, Debug)]
pub(crate) struct Numbers {
    /// The lower bound.
    pub(crate) low: i64,
    /// The upper bound.
    pub(crate) high: i64,
    /// The number.
    pub(crate) value: i64,
}

/// The number of a variable in an assignment.
fn number_at(a: &[i64], var: u32) -> i64
    requires { var < length a.now }
    ensures { result ≡ value_at a.now var }
{
    a[var as usize]
}

impl Keys {
    /// One for the first solution in a box, from any other there. Errors: memory.
    pub fn new<L>(
        alloc: Global,
        run: &Run<'_, L>,
        sub: &BoxOf,
        solution: ListOf<i64>,
    ) -> Result<Keys, NoMemory>
        requires run { IsRun run.now }
        requires is_static { IsStaticSearch run.now.model.now }
        requires inside { IsInside sub.now run.now.program.now.start }
        requires solves { SolvesInside run.now.model.now sub.now solution }
        ensures keys { IfOk result (λ keys. IsKeys run.now keys) }
        ensures asked { IfOk result (λ keys. asked keys ≡ sub.now) }
    {
        law_inside_order();
        let list = keys_of(alloc, run.model)?;
        let rest = sub.copy(alloc)?;
        let sub = sub.copy(alloc)?;
        Ok(Keys {
            list,
            sub,
            solution,
            place: 0,
            rest,
            is_narrow: false,
        })
    }

    /// The key that is next, if there is one.
    fn next_key(&self) -> Option<Key>
        ensures some { IfSome result (IsKeyAt self.now.list self.now.place) }
        ensures none { IfNone result (IsDone self.now) }
    {
        let list = self.list.as_slice();
        if self.place < list.len() {
            return Some(list[self.place]);
        }
        None
    }

    /// The pair of a key's variable.
    fn pair_of<L>(&self, run: &Run<'_, L>, key: Key) -> u32
        requires run { IsRun run.now }
        requires keys { IsKeys run.now self.now }
        requires key { IsKeyAt self.now.list self.now.place key }
        ensures is { result ≡ suc key.var }
        ensures var { key.var < length run.now.model.now.vars }
        ensures pair { suc key.var < length self.now.rest }
    {
        law_inside_order();
        law_can_search(run, &self.rest);
        // its contract says that there are few pairs
        let _length = self.rest.len();
        key.var + 1
    }

    /// The number of a variable in the solution, and its bounds in the box that is left.
    fn numbers<L>(&self, run: &Run<'_, L>, var: u32, pair: u32) -> Numbers
        requires keys { IsKeys run.now self.now }
        requires var { var < length run.now.model.now.vars }
        requires pair { pair ≡ suc var }
        requires in_box { pair < length self.now.rest }
        ensures { AreNumbersOf self.now var result }
    {
        Numbers {
            low: self.rest.low(pair),
            high: self.rest.high(pair),
            value: number_at(self.solution.as_slice(), var),
        }
    }

    /// Narrows the box that is left, where it was cut.
    fn narrow<R: Threads + Sync, L: Gate + Sync>(
        &mut self,
        rt: &R,
        alloc: Global,
        run: &Run<'_, L>,
        free: &mut FreeSearch,
    ) -> Result<(), NoMemory>
        requires run { IsRun run.now }
        requires keys { IsKeys run.now self.old }
        requires free { IsFreeSearch run.now free.old }
        ensures keys { IsKeys run.now self.new }
        ensures asked { asked self.new ≡ asked self.old }
        ensures free { IsFreeSearch run.now free.new }
    {
        if self.is_narrow {
            return Ok(());
        }
        law_inside_order();
        match free.narrow(rt, alloc, run, &self.rest)? {
            Some(narrowed) => {
                self.rest = narrowed;
                self.is_narrow = true;
                Ok(())
            }
            // never: the solution lies there
            None => Ok(()),
        }
    }

    /// The key that is next is the least: the solutions with it are left.
    fn settle<L>(&mut self, run: &Run<'_, L>, key: Key, pair: u32, numbers: Numbers)
        requires keys { IsKeys run.now self.old }
        requires key { IsKeyAt self.old.list self.old.place key }
        requires var { key.var < length run.now.model.now.vars }
        requires pair { pair ≡ suc key.var }
        requires in_box { pair < length self.old.rest }
        requires numbers { AreNumbersOf self.old key.var numbers }
        requires best { numbers.value ≡ best_of key.is_upper_first numbers.low numbers.high }
        ensures keys { IsKeys run.now self.new }
        ensures asked { asked self.new ≡ asked self.old }
    {
        law_inside_order();
        law_tightens_one();
        // it says that there are few keys
        let _count = self.list.as_slice().len();
        self.rest.put(pair, numbers.value, numbers.value);
        self.place += 1;
        self.is_narrow = self.is_narrow && numbers.low == numbers.high;
    }

    /// Asks for a solution in the better half of the numbers that the key may have; tells whether there was an answer.
    fn ask<R: Threads + Sync, L: Gate + Sync>(
        &mut self,
        rt: &R,
        alloc: Global,
        run: &Run<'_, L>,
        free: &mut FreeSearch,
        var: u32,
        halves: Halves,
        budget: u64,
    ) -> Result<bool, NoMemory>
        requires run { IsRun run.now }
        requires keys { IsKeys run.now self.old }
        requires free { IsFreeSearch run.now free.old }
        requires var { var < length run.now.model.now.vars }
        requires halves { AreHalves (low_of self.old.rest (suc var)) (high_of self.old.rest (suc var)) halves }
        ensures keys { IsKeys run.now self.new }
        ensures asked { asked self.new ≡ asked self.old }
        ensures free { IfOk result (λ done. IsFreeSearch run.now free.new) }
    {
        law_inside_order();
        law_tightens_one();
        law_can_search(run, &self.rest);
        let mut half = self.rest.copy(alloc)?;
        half.put(var + 1, halves.better_low, halves.better_high);
        match free.look_for(rt, alloc, run, &half, budget)? {
            FreeEnd::Found(solution) => {
                self.solution = solution;
                Ok(true)
            }
            FreeEnd::Refuted => {
                self.rest.put(var + 1, halves.rest_low, halves.rest_high);
                self.is_narrow = false;
                Ok(true)
            }
            FreeEnd::GaveUp => Ok(false),
        }
    }

    /// Settles the key that is next, or asks for a better one; tells whether there was an answer.
    fn step<R: Threads + Sync, L: Gate + Sync>(
        &mut self,
        rt: &R,
        alloc: Global,
        run: &Run<'_, L>,
        free: &mut FreeSearch,
        key: Key,
        budget: u64,
    ) -> Result<bool, NoMemory>
        requires run { IsRun run.now }
        requires keys { IsKeys run.now self.old }
        requires free { IsFreeSearch run.now free.old }
        requires key { IsKeyAt self.old.list self.old.place key }
        ensures keys { IsKeys run.now self.new }
        ensures asked { asked self.new ≡ asked self.old }
        ensures free { IfOk result (λ done. IsFreeSearch run.now free.new) }
    {
        let pair = self.pair_of(run, key);
        let numbers = self.numbers(run, key.var, pair);
        match halve(numbers.low, numbers.high, numbers.value, key.is_upper_first) {
            Some(halves) => self.ask(rt, alloc, run, free, key.var, halves, budget),
            None => {
                self.settle(run, key, pair, numbers);
                Ok(true)
            }
        }
    }

    /// Goes on until the first solution is found, or until so many units of the free search's work are spent; tells whether it
    /// is found. Errors: memory; the keys stay as good as they were, the free search doesn't.
    pub fn go_on<R: Threads + Sync, L: Gate + Sync>(
        &mut self,
        rt: &R,
        alloc: Global,
        run: &Run<'_, L>,
        free: &mut FreeSearch,
        budget: u64,
    ) -> Result<bool, NoMemory>
        requires run { IsRun run.now }
        requires keys { IsKeys run.now self.old }
        requires free { IsFreeSearch run.now free.old }
        ensures keys { IsKeys run.now self.new }
        ensures asked { asked self.new ≡ asked self.old }
        ensures free { IfOk result (λ done. IsFreeSearch run.now free.new) }
        ensures done { IfOk result (λ done. OnTrue done (IsDone self.new)) }
    {
        let most = free.spent().saturating_add(budget);
        for _ in 0..u64::MAX {
            self.narrow(rt, alloc, run, free)?;
            let Some(key) = self.next_key() else {
                return Ok(true);
            };
            let left = most.saturating_sub(free.spent());
            if !self.step(rt, alloc, run, free, key, left)? {
                return Ok(false);
            }
        }
        Ok(false)
    }

    /// The first solution in the box that was asked for.
    pub fn into_solution<L>(self, run: &Run<'_, L>) -> ListOf<i64>
        requires run { IsRun run.now }
        requires keys { IsKeys run.now self }
        requires done { IsDone self }
        ensures solves { SolvesInside run.now.model.now (asked self) result }
        ensures first { (solutions : List (List ℤ)) → SolutionsIn run.now.model.now run.now.program.now.kernels (asked self) solutions → head_of solutions ≡ Some result }
    {
        law_inside_order();
        law_first_by_keys();
        law_can_search(run, &self.sub);
        // its contract says that the box is in range
        let _length = self.sub.len();
        let Keys { solution, .. } = self;
        solution
    }
}
