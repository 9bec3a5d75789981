//! Kernels' variables in two parts: a list that a kernel may share with others, and those before and behind it, which are
//! its own. What is kept for each variable of a list is then kept once, however many kernels have the list.

ghost use Rattle.std.specs.Prelude.{ℕ, ◌≡◌, ◌≢◌, ◌<◌, ◌≤◌, ◌-◌, ◌++◌, [], ◌∷◌, drop, length, slice_index_or, All, IsTrue, IfOk, OnOk, IfSome};
ghost use Rattle.clause_tells.specs.Clause.{clause_vars};
ghost use Rattle.guarded_tell.specs.Kernels.{vars_of, IsKernel, HasNumbers};
ghost use Rattle.kernel_visits.specs.Sides.{sides_of, is_sided};
ghost use Rattle.moved_set.specs.Parts.{HasList, IsPart, AreLists, AreParts, keys_from, kind_at, kind_there, own_keys_at, Grows, GrowsBy};

use guarded_tell::{Extended, Kernel, Literals, Side};
use kernel_visits::{is_sided, side_at};
use shared_list::SharedList;
use std::alloc::{AllocError, Global};
use std::collections::BTreeMap;

/// Where a kernel's list is: behind so many variables of its own. Those behind the list, up to the end, are its own too. The
/// first list is empty, for kernels that share none with others.
#[derive(Clone, Copy)]
pub(crate) struct Part {
    /// How many of the kernel's variables come before the list.
    pub(crate) before: usize,
    /// The place of the list among the lists.
    pub(crate) list: usize,
}

/// Lists, and the place of the list of each mark.
#[derive(Drop)]
struct Lists {
    items: Vec<SharedList<u32>>,
    places: BTreeMap<usize, usize>,
}

/// The parts of kernels and the lists that these name.
#[derive(Drop)]
pub(crate) struct Parts {
    /// For each kernel its part.
    pub(crate) of_kernels: Vec<Part>,
    /// The lists.
    pub(crate) lists: Vec<SharedList<u32>>,
}

/// How many of a kernel's variables come before the list that it may share with others, and this list.
#[tactic(auto, unfolding(guarded_tell::specs::Kernels::vars_of))]
fn long_list(kernel: &Kernel) -> Option<(usize, &SharedList<u32>)>
    ensures { IfSome result (λ found. HasList (vars_of kernel.now) found.0 found.1.now) }
{
    match kernel {
        Kernel::Le { vars, .. } => Some((1, vars)),
        Kernel::Eq { vars, .. } => Some((1, long_list_of_equation(vars))),
        Kernel::Max { xs, .. } | Kernel::Min { xs, .. } => Some((1, xs)),
        Kernel::Element { entries, .. } => Some((2, entries)),
        Kernel::Clause { lits } => long_list_of_clause(lits),
        Kernel::AllDiff { xs } => Some((0, xs)),
        Kernel::Cumulative { starts, .. } => Some((0, starts)),
        _ => None,
    }
}

/// The same of an equation: its variables, or all but the last of them.
#[tactic(auto, using(crate::proofs::EquationLists::has_list))]
fn long_list_of_equation(vars: &Extended<u32>) -> &SharedList<u32>
    ensures { (v : ℕ) → HasList (v ∷ vars.now) 1 result.now }
{
    let (list, _) = vars.parts();
    list
}

/// The same of a clause: the variables of its positive literals, where these have another owner, or those of its negative
/// ones.
fn long_list_of_clause(lits: &Literals) -> Option<(usize, &SharedList<u32>)>
    ensures { IfSome result (λ found. HasList (clause_vars lits.now) found.0 found.1.now) }
{
    let (positives, negatives) = lits.variables_by_sign()?;
    if positives.mark_if_shared().is_some() {
        Some((0, positives))
    } else {
        Some((positives.len(), negatives))
    }
}

/// Whether this list is at this place.
fn stands_at(lists: &[SharedList<u32>], place: usize, list: &SharedList<u32>) -> bool
    ensures { IsTrue result → (place < length lists.now) × (slice_index_or lists.now place [] ≡ list.now) }
{
    place < lists.len() && lists[place].as_slice() == list.as_slice()
}

impl Lists {
    /// The empty list alone.
    fn new(alloc: Global) -> Result<Lists, AllocError>
        ensures { IfOk result (λ lists. lists.items.items ≡ [] ∷ []) }
    {
        let mut items = Vec::new(alloc);
        items.push(SharedList::empty(alloc))?;
        Ok(Lists {
            items,
            places: BTreeMap::new(alloc),
        })
    }

    /// The place of a list, which is added where none has its mark. The mark is a hint: where another list has it, the
    /// place is that of the empty one.
    fn place_of(
        &mut self,
        alloc: Global,
        list: &SharedList<u32>,
        mark: usize,
    ) -> Result<usize, AllocError>
        requires { 0 < length self.old.items.items }
        ensures grows { OnOk result (Grows list.now self.old.items.items self.new.items.items) }
        ensures within { IfOk result (λ place. place < length self.new.items.items) }
        ensures found { IfOk result (λ place. place ≢ 0 → slice_index_or self.new.items.items place [] ≡ list.now) }
    {
        if let Some(place) = self.places.get(&mark) {
            let place = *place;
            let stands = stands_at(self.items.as_slice(), place, list);
            return Ok(if stands { place } else { 0 });
        }
        let place = self.items.len();
        self.places.insert(mark, place)?;
        self.items.push(list.share(alloc)?)?;
        Ok(place)
    }

    /// The part of a kernel. The list that it may share with others is one of the lists where it has another owner.
    fn part_of(&mut self, alloc: Global, kernel: &Kernel) -> Result<Part, AllocError>
        requires some { 0 < length self.old.items.items }
        requires empty { slice_index_or self.old.items.items 0 [] ≡ [] }
        requires numbers { HasNumbers kernel.now }
        ensures grows { OnOk result (GrowsBy (vars_of kernel.now) self.old.items.items self.new.items.items) }
        ensures part { IfOk result (IsPart (vars_of kernel.now) self.new.items.items) }
    {
        let whole = Part {
            before: kernel.var_count(),
            list: 0,
        };
        let Some((before, list)) = long_list(kernel) else {
            return Ok(whole);
        };
        let Some(mark) = list.mark_if_shared() else {
            return Ok(whole);
        };
        let place = self.place_of(alloc, list, mark)?;
        Ok(if place == 0 {
            whole
        } else {
            Part {
                before,
                list: place,
            }
        })
    }
}

/// The parts of kernels that name some of the first `count` variables.
pub(crate) fn parts_of(alloc: Global, kernels: &[Kernel], count: u32) -> Result<Parts, AllocError>
    requires { All (IsKernel count) kernels.now }
    ensures lists { IfOk result (λ parts. AreLists count parts.lists.items) }
    ensures parts { IfOk result (λ parts. AreParts kernels.now (length kernels.now) parts.lists.items parts.of_kernels.items) }
{
    let mut lists = Lists::new(alloc)?;
    let mut of_kernels = Vec::new(alloc);
    for j in 0..kernels.len() {
        let part = lists.part_of(alloc, &kernels[j])?;
        of_kernels.push(part)?;
    }
    let Lists { items, .. } = lists;
    Ok(Parts {
        of_kernels,
        lists: items,
    })
}

impl Parts {
    /// Makes the list of the keys of the own variables of the kernel at a place.
    #[tactic(auto, using(crate::proofs::PartLaws::part_within))]
    pub(crate) fn own_keys(
        &self,
        keys: &mut Vec<u32>,
        kernels: &[Kernel],
        j: usize,
    ) -> Result<(), AllocError>
        requires numbers { All HasNumbers kernels.now }
        requires few { All (λ k. All (λ v. v < 1073741824) (vars_of k)) kernels.now }
        requires place { j < length kernels.now }
        requires parts { AreParts kernels.now (length kernels.now) self.now.lists.items self.now.of_kernels.items }
        ensures { OnOk result (keys.new.items ≡ own_keys_at kernels.now self.now.lists.items self.now.of_kernels.items j) }
    {
        let kernel = &kernels[j];
        let part = self.of_kernels[j];
        let count = kernel.var_count();
        let behind = part.before + self.lists[part.list].len();
        keys.clear();
        push_keys(keys, kernel, 0, part.before)?;
        push_keys(keys, kernel, behind, count)
    }
}

/// Appends the keys of a kernel's variables from one place up to another to a list.
fn push_keys(keys: &mut Vec<u32>, kernel: &Kernel, from: usize, to: usize) -> Result<(), AllocError>
    requires numbers { HasNumbers kernel.now }
    requires few { All (λ v. v < 1073741824) (vars_of kernel.now) }
    requires order { from ≤ to }
    requires end { to ≤ length (vars_of kernel.now) }
    ensures { OnOk result (keys.new.items ≡ keys.old.items ++ keys_from kernel.now from (to - from)) }
{
    let sided = is_sided(kernel);
    for place in from..to {
        keys.push(3 * kernel.var_at(place) + kind_at(kernel, sided, place))?;
    }
    Ok(())
}

/// By which bounds a kernel is asked at a place, where it is known whether it is sided.
fn kind_at(kernel: &Kernel, sided: bool, place: usize) -> u32
    requires numbers { HasNumbers kernel.now }
    requires place { place < length (vars_of kernel.now) }
    requires sided { sided ≡ is_sided kernel.now }
    ensures kind { result ≡ kind_at kernel.now place }
    ensures below { result < 3 }
{
    if sided { kind_of(kernel, place) } else { 1 }
}

/// By which bounds a kernel that is one-sided is asked at a place: 0 by the lower one alone, 2 by the upper one, 1 by both.
fn kind_of(kernel: &Kernel, place: usize) -> u32
    requires numbers { HasNumbers kernel.now }
    requires place { place < length (vars_of kernel.now) }
    ensures { result ≡ kind_there (drop place (sides_of kernel.now)) }
{
    match side_at(kernel, place) {
        Some(Side::Low) => 0,
        Some(Side::High) => 2,
        None => 1,
    }
}
