//! The state of a model after some items of its text.

ghost use Rattle.std.specs.Prelude.{◌≡◌, ◌+◌, ◌<◌, ◌≤◌, ◌++◌, cond, not, true, false, nat_lt, length, fold, flat_map, sum_by, option_to_list, MatchOption, IfOk, IfErr, None, OnOk, map};
ghost use Rattle.std.specs.Option.{option_or};
ghost use Rattle.fzn_parser.specs.Items.{what_tree};
ghost use Rattle.fzn_parser.specs.Parsing.{item_tree};
ghost use Rattle.constraint_model.specs.Fits.{add_once, constants_in, kernels_of};
ghost use Rattle.constraint_model.specs.Limits as limits;
ghost use Rattle.fzn_model.specs.declared.fault_kinds.FaultKind.{FaultKind as Kind};
ghost use Rattle.fzn_model.specs.declared.stop.Stop.{Stop as Halt};
ghost use Rattle.constraint_model.specs.Arrays.{HaveNumbers};
ghost use Rattle.fzn_model.specs.Drafts.{seen, counted, put, is_new, declares_again, first_kind};
ghost use Rattle.fzn_model.specs.Scopes.{AreNumbered};
ghost use Rattle.fzn_model.specs.Effects as effects;
ghost use Rattle.fzn_model.specs.Faults as faults;

use crate::declaring::declares_again;
use crate::effect::Effect;
use crate::fault_kinds::FaultKind;
use crate::limits::{MOST_CONSTANTS, MOST_KERNELS, MOST_VARS, has_long_rows};
use crate::reads::{no_effect, read_item};
use crate::scope::Scope;
use crate::stop::Stop;
use constraint_model::{
    Array, Constants, Constraint, Goal, Meaning, Output, Phase, VarDecl, add_constant,
    add_constants, kernel_count,
};
use fzn_parser::tree::{Item, What};
use list_of::ListOf;
use names::Name;
use std::alloc::{AllocError, Global};
use std::mem::replace;

/// The state of a model after some items of its text: what these declare and ask for.
#[derive(Drop)]
pub(crate) struct Draft {
    /// The declared names.
    pub(crate) scope: Scope,
    /// The declared variables.
    pub(crate) vars: ListOf<VarDecl>,
    /// The constraints.
    pub(crate) constraints: ListOf<Constraint>,
    /// What is written of a solution.
    pub(crate) output: ListOf<Output>,
    /// The phases of the search and the goal, behind the solve item.
    pub(crate) solved: Option<(ListOf<Phase>, Goal)>,
    /// The numbers other than 1 that occur where a variable may be, and the terms of the declared arrays.
    pub(crate) constants: Constants,
    /// How many propagators the constraints are run as.
    pub(crate) kernels: u64,
}

/// How many propagators there are with one more constraint, where these are not too many.
#[tactic(auto, unfolding(constraint_model::specs::Fits::kernels_of))]
fn with_kernels(total: u64, constraint: &Constraint) -> Option<u64>
    requires { total ≤ limits.most_kernels }
    ensures { MatchOption result (limits.most_kernels < total + kernels_of constraint.now)
        (λ t. (t ≡ total + kernels_of constraint.now) × (t ≤ limits.most_kernels)) }
{
    let more = kernel_count(constraint);
    if more > MOST_KERNELS - total {
        None
    } else {
        Some(total + more)
    }
}

/// How many propagators there are with these constraints, where these are not too many.
fn with_all_kernels(total: u64, constraints: &[Constraint]) -> Option<u64>
    requires { total ≤ limits.most_kernels }
    ensures { MatchOption result (limits.most_kernels < total + sum_by kernels_of constraints.now)
        (λ t. (t ≡ total + sum_by kernels_of constraints.now) × (t ≤ limits.most_kernels)) }
{
    let mut kernels = total;
    for constraint in constraints {
        match with_kernels(kernels, constraint) {
            Some(sum) => kernels = sum,
            None => return None,
        }
    }
    Some(kernels)
}

fn add_all_constants(found: &mut Constants, constraints: &[Constraint]) -> Result<(), AllocError>
    requires { HaveNumbers found.old.arrays constraints.now }
    ensures added { OnOk result (found.new.numbers ≡ fold add_once found.old.numbers (flat_map constants_in constraints.now)) }
    ensures arrays { found.new.arrays ≡ found.old.arrays }
{
    for constraint in constraints {
        add_constants(found, constraint)?;
    }
    Ok(())
}

fn add_goal_constant(
    found: &mut Constants,
    solved: &Option<(ListOf<Phase>, Goal)>,
) -> Result<(), AllocError>
    ensures added { OnOk result (found.new.numbers ≡ fold add_once found.old.numbers (effects.solved_constants solved.now)) }
    ensures arrays { found.new.arrays ≡ found.old.arrays }
{
    match solved {
        Some((_, Goal::Minimize(term))) => add_constant(found, *term),
        Some((_, Goal::Maximize(term))) => add_constant(found, *term),
        Some((_, Goal::Satisfy)) | None => Ok(()),
    }
}

/// What is declared; an array gets its number, and its terms are kept behind those of the arrays before it.
fn numbered(
    alloc: Global,
    constants: &mut Constants,
    meaning: Meaning,
) -> Result<Meaning, AllocError>
    ensures number { IfOk result (λ m. m ≡ effects.with_number (length constants.old.arrays) meaning) }
    ensures kept { OnOk result (constants.new ≡ record { numbers = constants.old.numbers; arrays = constants.old.arrays ++ effects.array_terms meaning }) }
{
    match meaning {
        Meaning::Row(array) => {
            let number = constants.array_count();
            constants.add_array(array.entries.share_terms(alloc)?)?;
            Ok(Meaning::Row(Array {
                entries: array.entries,
                number: Some(number),
            }))
        }
        other => Ok(other),
    }
}

/// Declares a name, where an item declares one, and tells whether it is a new one or there is none.
#[inline(always)]
fn declare(
    alloc: Global,
    scope: &mut Scope,
    constants: &mut Constants,
    declared: &mut Option<(Name, Meaning)>,
) -> Result<bool, AllocError>
    ensures new { IfOk result (λ b. b ≡ is_new scope.old declared.old) }
    ensures names { IfOk result (λ b. b ≡ true → scope.new ≡ scope.old ++ map (effects.numbered (length constants.old.arrays)) (option_to_list declared.old)) }
    ensures kept { OnOk result (constants.new.arrays ≡ constants.old.arrays ++ flat_map effects.arrays_in (option_to_list declared.old)) }
    ensures numbers { OnOk result (constants.new.numbers ≡ constants.old.numbers) }
{
    if declared.is_none() {
        return Ok(true);
    }
    match declared.take() {
        Some((name, meaning)) => {
            let meaning = numbered(alloc, constants, meaning)?;
            scope.declare(alloc, name, meaning)
        }
        None => Ok(true),
    }
}

/// Appends a part, where there is one.
#[inline(always)]
fn push_part<T: Drop>(list: &mut ListOf<T>, part: &mut Option<T>) -> Result<(), AllocError>
    ensures { OnOk result (list.new ≡ list.old ++ option_to_list part.old) }
{
    if part.is_none() {
        return Ok(());
    }
    if let Some(value) = part.take() {
        list.push(value)?;
    }
    Ok(())
}

/// Keeps what is asked for of a search, where none was asked for before.
#[inline(always)]
fn keep_solved(solved: &mut Option<(ListOf<Phase>, Goal)>, more: &mut Option<(ListOf<Phase>, Goal)>)
    ensures { solved.new ≡ option_or solved.old more.old }
{
    if solved.is_none() && more.is_some() {
        *solved = more.take();
    }
}

/// Appends constraints to others.
#[inline(always)]
fn push_all(list: &mut ListOf<Constraint>, more: ListOf<Constraint>) -> Result<(), AllocError>
    ensures { OnOk result (list.new ≡ list.old ++ more) }
{
    for constraint in more.into_vec() {
        list.push(constraint)?;
    }
    Ok(())
}

/// Why an item can't be placed: that it declares a name again, or this.
#[inline(never)]
fn misplaced(text: &[u8], scope: &Scope, what: &What, stop: Stop) -> Stop
    ensures { result ≡ cond (declares_again text.now scope.now (what_tree what.now)) (Halt.Fault Kind.NameTwice) stop }
{
    if declares_again(text, scope, what) {
        Stop::Fault(FaultKind::NameTwice)
    } else {
        stop
    }
}

impl Draft {
    /// Before the first item of this text.
    pub(crate) fn new(alloc: Global, text: &[u8]) -> Draft
        ensures { seen result ≡ effects.nothing }
    {
        Draft {
            scope: Scope::new(alloc, text),
            vars: ListOf::new(alloc),
            constraints: ListOf::new(alloc),
            output: ListOf::new(alloc),
            solved: None,
            constants: Constants::new(alloc),
            kernels: 0,
        }
    }

    fn has_room(&self, effect: &Effect) -> bool
        requires { length self.now.vars ≤ limits.most_vars }
        ensures { result ≡ not (nat_lt limits.most_vars (length (self.now.vars ++ option_to_list effect.now.var))) }
    {
        effect.var.is_none() || self.vars.len() < MOST_VARS
    }

    /// Counts what an item adds. Errors: a limit is passed with it; memory.
    fn count(&mut self, effect: &Effect) -> Result<(), Stop>
        requires vars { length self.old.vars ≤ limits.most_vars }
        requires kernels { self.old.kernels ≤ limits.most_kernels }
        requires numbers { HaveNumbers self.old.constants.arrays effect.now.constraints }
        ensures counted { OnOk result (seen self.new ≡ counted (seen self.old) effect.now) }
        ensures fits { OnOk result (faults.is_too_large (effects.joined (seen self.old) effect.now) ≡ false) }
        ensures large { IfErr result (faults.OnlyFault Kind.TooMany (faults.is_too_large (effects.joined (seen self.old) effect.now) ≡ true)) }
        ensures scope { self.new.scope ≡ self.old.scope }
    {
        if !self.has_room(effect) {
            return Err(Stop::Fault(FaultKind::TooMany));
        }
        let Some(kernels) = with_all_kernels(self.kernels, effect.constraints.as_slice()) else {
            return Err(Stop::Fault(FaultKind::TooMany));
        };
        self.kernels = kernels;
        add_all_constants(&mut self.constants, effect.constraints.as_slice())?;
        add_goal_constant(&mut self.constants, &effect.solved)?;
        if self.constants.len() > MOST_CONSTANTS {
            return Err(Stop::Fault(FaultKind::TooMany));
        }
        Ok(())
    }

    /// Appends what an item adds, which was counted, and answers yes, where the item declares no name that was declared before. A
    /// declared array gets its number. Each part is taken where it is: an item lacks most of them, and these aren't moved.
    #[inline(always)]
    fn put(&mut self, alloc: Global, effect: &mut Effect) -> Result<bool, AllocError>
        ensures new { IfOk result (λ b. b ≡ is_new self.old.scope effect.old.declared) }
        ensures put { IfOk result (λ b. b ≡ true → seen self.new ≡ put (seen self.old) effect.old) }
    {
        let is_new = declare(
            alloc,
            &mut self.scope,
            &mut self.constants,
            &mut effect.declared,
        )?;
        if !is_new {
            return Ok(false);
        }
        push_part(&mut self.vars, &mut effect.var)?;
        push_part(&mut self.output, &mut effect.output)?;
        keep_solved(&mut self.solved, &mut effect.solved);
        let constraints = replace(&mut effect.constraints, ListOf::new(alloc));
        push_all(&mut self.constraints, constraints)?;
        Ok(true)
    }

    /// Counts what an item adds. Errors: the least fault that this has after the items before; memory.
    #[inline(always)]
    fn place(&mut self, effect: &Effect) -> Result<(), Stop>
        requires vars { length self.old.vars ≤ limits.most_vars }
        requires kernels { self.old.kernels ≤ limits.most_kernels }
        requires numbers { HaveNumbers self.old.constants.arrays effect.now.constraints }
        ensures counted { OnOk result (seen self.new ≡ counted (seen self.old) effect.now) }
        ensures lawful { OnOk result (first_kind (faults.place_tests (seen self.old) effect.now) ≡ None) }
        ensures fits { OnOk result (faults.is_too_large (effects.joined (seen self.old) effect.now) ≡ false) }
        ensures fault { IfErr result (λ s. faults.Refuses (first_kind (faults.place_tests (seen self.old) effect.now)) s) }
        ensures scope { self.new.scope ≡ self.old.scope }
    {
        if has_long_rows(effect.constraints.as_slice()) {
            return Err(Stop::Fault(FaultKind::TooMany));
        }
        match self.count(effect) {
            Ok(()) => {}
            Err(stop) => return Err(stop),
        }
        if self.solved.is_some() {
            return Err(Stop::Fault(FaultKind::AfterSolve));
        }
        Ok(())
    }

    /// Records what an item adds, and counts it. Errors: its least fault after the items before; memory. Where its only fault
    /// is that it declares a name again, this is seen later, when the name is put.
    #[tactic(auto, unfolding(crate::specs::Faults::fault_of))]
    #[inline(always)]
    fn judge(
        &mut self,
        alloc: Global,
        text: &[u8],
        what: &What,
        effect: &mut Effect,
    ) -> Result<(), Stop>
        requires nothing { effect.old ≡ effects.no_effect }
        requires vars { length self.old.vars ≤ limits.most_vars }
        requires kernels { self.old.kernels ≤ limits.most_kernels }
        requires numbers { AreNumbered self.old.constants.arrays self.old.scope }
        ensures effect { OnOk result (effect.new ≡ effects.effect_of text.now self.old.scope (length self.old.vars) (what_tree what.now)) }
        ensures new { OnOk result (is_new self.old.scope effect.new.declared ≡ not (declares_again text.now self.old.scope (what_tree what.now))) }
        ensures counted { OnOk result (seen self.new ≡ counted (seen self.old) effect.new) }
        ensures fits { OnOk result (faults.is_too_large (effects.joined (seen self.old) effect.new) ≡ false) }
        ensures lawful { OnOk result (declares_again text.now self.old.scope (what_tree what.now) ≡ false → faults.fault_of text.now (seen self.old) (what_tree what.now) ≡ None) }
        ensures fault { IfErr result (λ s. faults.Refuses (faults.fault_of text.now (seen self.old) (what_tree what.now)) s) }
    {
        let count = self.vars.len() as u32;
        match read_item(alloc, text, &self.scope, count, what, effect) {
            Ok(()) => {}
            Err(stop) => return Err(stop),
        }
        match self.place(effect) {
            Ok(()) => Ok(()),
            Err(stop) => Err(misplaced(text, &self.scope, what, stop)),
        }
    }

    /// Adds an item. Errors: its least fault after the items before; memory.
    pub(crate) fn add(&mut self, alloc: Global, text: &[u8], item: &Item) -> Result<(), Stop>
        requires vars { length self.old.vars ≤ limits.most_vars }
        requires kernels { self.old.kernels ≤ limits.most_kernels }
        requires numbers { AreNumbered self.old.constants.arrays self.old.scope }
        ensures added { OnOk result (seen self.new ≡ effects.with_item text.now (seen self.old) (item_tree item.now)) }
        ensures fits { OnOk result (faults.is_too_large (effects.with_item text.now (seen self.old) (item_tree item.now)) ≡ false) }
        ensures lawful { OnOk result (faults.fault_of text.now (seen self.old) (what_tree item.now.what) ≡ None) }
        ensures fault { IfErr result (λ s. faults.Refuses (faults.fault_of text.now (seen self.old) (what_tree item.now.what)) s) }
    {
        let mut effect = no_effect(alloc);
        match self.judge(alloc, text, &item.what, &mut effect) {
            Ok(()) => {}
            Err(stop) => return Err(stop),
        }
        match self.put(alloc, &mut effect) {
            Ok(true) => Ok(()),
            Ok(false) => Err(Stop::Fault(FaultKind::NameTwice)),
            Err(_) => Err(Stop::NoMemory),
        }
    }
}
