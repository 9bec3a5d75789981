//! What guides a free search. All of it are hints: no contract speaks of them.

use constraint_model::{FznModel, Goal, Phase, Term, ValSel};
use interval::BoxOf;
use memory::NoMemory;
use search::{Run, node_work};
use std::alloc::Global;

/// How many failures the shortest restart waits for.
const RESTART_UNIT: u64 = 100;

/// How many failures the first block has of a text without an objective.
const FIRST_BLOCK: u64 = 500;

/// What a variable gets that is in a nogood which is learned, at first.
const FIRST_STEP: u64 = 1024;

/// Where the steps are so great that all is divided.
const GREATEST_STEP: u64 = 1_125_899_906_842_624;

/// What guides a free search, kept over several: hints alone.
#[derive(Drop)]
pub struct Guide {
    // the variables, in the order of the text's search
    order: Vec<u32>,
    // for each variable how often it lately was in a nogood that was learned
    activity: Vec<u64>,
    step: u64,
    // for each variable the number that is tried first: that of the last solution
    values: Vec<i64>,
    // for each variable the number that the text's search tries first
    firsts: Vec<i64>,
    // whether variables are taken in the order of the text's search, with no restarts: in every second block of failures, where
    // there is no objective; the first block is by activity
    is_by_order: bool,
    // how many failures this block has, and how many are left of them
    block: u64,
    block_left: u64,
    // what a search costs that begins with nothing visited, and what a node costs besides its visits
    start: u64,
    node: u64,
    // what this search's visits cost, and what the learner's work did, when it was last looked
    visited: u64,
    learned: u64,
    // the units of work that were spent
    spent: u64,
    nodes: u64,
    // the state of the sequence of restarts, and how many failures are left before the next
    turn: u64,
    length: u64,
    failures_left: u64,
}

/// The number that is tried first where none is known.
fn first_value(phase: &Phase) -> i64 {
    match phase.val_sel {
        ValSel::Min | ValSel::Split => i64::MIN,
        ValSel::Max | ValSel::ReverseSplit => i64::MAX,
    }
}

/// The entry of a variable, if there is one, else 0.
fn entry_of(entries: &[i64], v: u32) -> i64 {
    match entries.get(v as usize) {
        Some(value) => *value,
        None => 0,
    }
}

/// Sets an entry, if there is one.
fn set(entries: &mut [i64], place: usize, value: i64) {
    if place < entries.len() {
        entries[place] = value;
    }
}

/// Appends the variables of a phase that aren't there, and what is tried first for each.
fn order_phase(
    phase: &Phase,
    order: &mut Vec<u32>,
    values: &mut [i64],
    are_in: &mut [bool],
) -> Result<(), NoMemory> {
    'on: for var in phase.vars.as_slice() {
        let v = var.saturating_add(1);
        let place = v as usize;
        if place >= are_in.len() || are_in[place] {
            continue 'on;
        }
        are_in[place] = true;
        set(values, place, first_value(phase));
        if order.push(v).is_err() {
            return Err(NoMemory);
        }
    }
    Ok(())
}

/// The variables in the order of the text's search, and what is tried first for each.
fn order_of(alloc: Global, model: &FznModel, values: &mut [i64]) -> Result<Vec<u32>, NoMemory> {
    let mut order = Vec::new(alloc);
    let mut are_in = vec![in alloc; false; values.len()]?;
    for phase in model.search.as_slice() {
        order_phase(phase, &mut order, values, are_in.as_mut_slice())?;
    }
    Ok(order)
}

/// The greatest number of the objective is tried first where that is asked for.
fn aim(model: &FznModel, values: &mut [i64]) {
    match model.goal {
        Goal::Maximize(Term::Var(var)) => set(values, (var as usize).saturating_add(1), i64::MAX),
        Goal::Minimize(Term::Var(var)) => set(values, (var as usize).saturating_add(1), i64::MIN),
        _ => {}
    }
}

/// Whether any solution is as good as another.
fn has_no_objective(model: &FznModel) -> bool {
    match model.goal {
        Goal::Satisfy => true,
        _ => false,
    }
}

/// The part of a variable's numbers that is tried first: the wanted number alone where that is a bound, else those up to it.
fn first_part(low: i64, high: i64, wanted: i64) -> (i64, i64) {
    if wanted >= high {
        (high, high)
    } else if wanted <= low {
        (low, low)
    } else {
        (low, wanted)
    }
}

impl Guide {
    /// One that knows of no search yet. Errors: memory.
    pub fn new<L>(alloc: Global, run: &Run<'_, L>) -> Result<Guide, NoMemory> {
        let model = run.model;
        let kernels = run.program.kernels.as_slice().len() as u64;
        let count = run.program.start.len();
        let mut values = vec![in alloc; 0; count as usize]?;
        let order = order_of(alloc, model, values.as_mut_slice())?;
        let firsts = Vec::from_slice(alloc, values.as_slice())?;
        aim(model, values.as_mut_slice());
        let has_blocks = has_no_objective(model);
        Ok(Guide {
            order,
            firsts,
            is_by_order: false,
            block: FIRST_BLOCK,
            block_left: if has_blocks { FIRST_BLOCK } else { u64::MAX },
            activity: vec![in alloc; 0; count as usize]?,
            step: FIRST_STEP,
            values,
            start: kernels.saturating_add(count as u64),
            node: node_work(count),
            visited: 0,
            learned: 0,
            spent: 0,
            nodes: 0,
            turn: 1,
            length: 1,
            failures_left: RESTART_UNIT,
        })
    }

    /// How many units of work were spent so far, of the same kind as a plain search's: those of visits, of the learner's work, and
    /// some for each node and for each search.
    pub fn spent(&self) -> u64 {
        self.spent
    }

    /// How many nodes were visited so far: boxes that failed, or of which something was decided.
    pub fn nodes(&self) -> u64 {
        self.nodes
    }

    /// Counts a node.
    pub(crate) fn count_node(&mut self) {
        self.nodes = self.nodes.saturating_add(1);
        self.spend(self.node);
    }

    /// Counts units of work.
    fn spend(&mut self, units: u64) {
        self.spent = self.spent.saturating_add(units);
    }

    /// Counts what a search costs that begins: a searcher is made that has visited nothing yet, and so many nogoods are looked at.
    pub(crate) fn begin_search(&mut self, nogoods: usize) {
        self.visited = 0;
        self.spend(self.start);
        self.spend((nogoods as u64).saturating_mul(2));
    }

    /// Counts visits, of which this search had so many so far.
    pub(crate) fn spend_visits(&mut self, visited: u64) {
        let visits = visited.saturating_sub(self.visited);
        self.visited = visited;
        self.spend(visits);
    }

    /// Counts a learner's work, which was so much so far.
    pub(crate) fn spend_learned(&mut self, learned: u64) {
        let work = learned.saturating_sub(self.learned);
        self.learned = learned;
        self.spend(work);
    }

    /// What is tried next in a box: a variable, and a part of its numbers.
    pub(crate) fn choose(&self, b: &BoxOf) -> (u32, i64, i64) {
        if self.is_by_order {
            self.choose_first(b)
        } else {
            self.choose_active(b)
        }
    }

    /// The first variable in the order of the text's search, and the number that this tries first.
    fn choose_first(&self, b: &BoxOf) -> (u32, i64, i64) {
        for v in self.order.as_slice() {
            if *v < b.len() && b.low(*v) < b.high(*v) {
                let wanted = entry_of(self.firsts.as_slice(), *v);
                let (low, high) = first_part(b.low(*v), b.high(*v), wanted);
                return (*v, low, high);
            }
        }
        (0, 1, 0)
    }

    /// The variable that was most active of late, and the number of the last solution, or as near to it as can be.
    fn choose_active(&self, b: &BoxOf) -> (u32, i64, i64) {
        let mut best = (0, 1, 0);
        let mut most = None;
        for v in self.order.as_slice() {
            // the box is read last: most variables are less active than the best so far
            let activity = self.activity_of(*v);
            if is_more(activity, most) && *v < b.len() && b.low(*v) < b.high(*v) {
                most = Some(activity);
                let wanted = entry_of(self.values.as_slice(), *v);
                let (low, high) = first_part(b.low(*v), b.high(*v), wanted);
                best = (*v, low, high);
            }
        }
        best
    }

    /// How often a variable lately was in a nogood.
    fn activity_of(&self, v: u32) -> u64 {
        match self.activity.as_slice().get(v as usize) {
            Some(activity) => *activity,
            None => 0,
        }
    }

    /// Keeps the numbers of a solution.
    pub(crate) fn keep_values(&mut self, a: &[i64]) {
        for place in 0..a.len() {
            set(
                self.values.as_mut_slice(),
                place.saturating_add(1),
                a[place],
            );
        }
    }

    /// Hears of a failure, and which variables were looked at where the nogood was made.
    pub(crate) fn hear(&mut self, touched: &[u32]) {
        for v in touched {
            self.raise(*v as usize);
        }
        self.block_left = self.block_left.saturating_sub(1);
        self.failures_left = self.failures_left.saturating_sub(1);
        self.step = self.step.saturating_add(self.step / 20);
        if self.step > GREATEST_STEP {
            self.lower();
        }
    }

    /// Raises the activity of a variable.
    fn raise(&mut self, place: usize) {
        if place < self.activity.as_slice().len() {
            self.activity[place] = self.activity[place].saturating_add(self.step);
        }
    }

    /// Divides all activities, and the step, by the same.
    fn lower(&mut self) {
        self.step >>= 40;
        for activity in self.activity.as_mut_slice() {
            *activity >>= 40;
        }
    }

    /// Begins the next block: by activity and in the order of the text's search by turns, each time twice as long.
    fn begin_block(&mut self) {
        self.is_by_order = !self.is_by_order;
        if !self.is_by_order {
            self.block = self.block.saturating_mul(2);
        }
        self.block_left = self.block;
    }

    /// Whether the search is to begin anew; if so it counts to the next time.
    pub(crate) fn restarts(&mut self) -> bool {
        if self.block_left == 0 {
            self.begin_block();
            return true;
        }
        if self.is_by_order || self.failures_left > 0 {
            return false;
        }
        if self.turn & self.turn.wrapping_neg() == self.length {
            self.turn = self.turn.saturating_add(1);
            self.length = 1;
        } else {
            self.length = self.length.saturating_mul(2);
        }
        self.failures_left = RESTART_UNIT.saturating_mul(self.length);
        true
    }
}

/// Whether an activity is more than the most so far.
fn is_more(activity: u64, most: Option<u64>) -> bool {
    match most {
        Some(most) => activity > most,
        None => true,
    }
}
