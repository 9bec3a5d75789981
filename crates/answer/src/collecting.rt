//! What the runs of all parts collected.

ghost use Rattle.std.specs.Prelude.{◌≡◌, ◌++◌, ◌↔◌, List, [], take, flat_map, All, Any, IfOk, OnOk};
ghost use Rattle.std.specs.Bool.{OnTrue, OnFalse};
ghost use Rattle.constraint_model.specs.declared.model.Goal.TheVariants.{Satisfy};
ghost use Rattle.answer.specs.Results.{listed, first_collected, IsFirstSpent, IsIdle, IsOpen, all_collected};

use list_of::ListOf;
use search::{AllEnd, FirstEnd, LeastEnd};
use std::alloc::{AllocError, Global};

/// How a run ended: by a limit, or not.
pub(crate) trait Ended {
    ghost use Rattle.std.specs.Prelude.{◌↔◌, IsTrue};

    ghost is_spent: { Self → Type 0 };

    /// Whether a limit stopped the run.
    fn is_spent(&self) -> bool
        ensures { IsTrue result ↔ is_spent self.now };
}

impl Ended for AllEnd {
    ghost use Rattle.answer.specs.Results.{IsAllSpent};

    ghost is_spent = { IsAllSpent };

    fn is_spent(&self) -> bool {
        match self {
            AllEnd::Spent { .. } => true,
            AllEnd::Done(_) => false,
        }
    }
}

impl Ended for LeastEnd {
    ghost use Rattle.answer.specs.Results.{IsLeastSpent};

    ghost is_spent = { IsLeastSpent };

    fn is_spent(&self) -> bool {
        match self {
            LeastEnd::Spent { .. } => true,
            LeastEnd::Done(_) => false,
        }
    }
}

/// Whether a limit stopped some run.
pub(crate) fn is_any_spent<E: Ended>(ends: &[E]) -> bool
    ensures spent { OnTrue result (Any E.is_spent ends.now) }
    ensures unspent { OnFalse result (All (λ end. E.is_spent end → ⊥) ends.now) }
{
    for end in ends {
        if end.is_spent() {
            return true;
        }
    }
    false
}

/// Whether a limit stopped the search of a part.
fn is_stopped(end: &FirstEnd) -> bool
    ensures stopped { OnTrue result (IsFirstSpent end.now) }
    ensures ended { OnFalse result (IsFirstSpent end.now → ⊥) }
{
    match end {
        FirstEnd::Spent { .. } => true,
        FirstEnd::Done(_) | FirstEnd::Cut(_) => false,
    }
}

/// Whether it neither stopped it nor gave the search a solution.
fn is_idle(end: &FirstEnd) -> bool
    ensures idle { OnTrue result (IsIdle end.now) }
    ensures busy { OnFalse result (IsIdle end.now → ⊥) }
{
    match end {
        FirstEnd::Done(None) | FirstEnd::Cut(_) => true,
        FirstEnd::Spent { .. } | FirstEnd::Done(Some(_)) => false,
    }
}

/// Whether a limit stopped a part's search, and no part before it has a solution. What was stopped behind a part that has one
/// doesn't count: it is the first solution all the same.
pub(crate) fn is_open(ends: &[FirstEnd]) -> bool
    ensures open_part { OnTrue result (IsOpen ends.now) }
    ensures none_open { OnFalse result (IsOpen ends.now → ⊥) }
{
    for end in ends {
        if !is_idle(end) {
            return is_stopped(end);
        }
    }
    false
}

/// The solution of the first part that has one.
pub(crate) fn first_of(ends: ListOf<FirstEnd>) -> Option<ListOf<i64>>
    ensures { listed result ≡ take 1 (flat_map first_collected ends) }
{
    for end in ends.into_vec() {
        if let FirstEnd::Done(Some(values)) = end {
            return Some(values);
        }
    }
    None
}

/// The solutions of a run.
fn solutions_of(end: AllEnd) -> ListOf<ListOf<i64>>
    ensures { result ≡ all_collected end }
{
    match end {
        AllEnd::Done(found) => found,
        AllEnd::Spent { solutions, .. } => solutions,
    }
}

/// Appends solutions to others.
fn put(given: &mut ListOf<ListOf<i64>>, found: ListOf<ListOf<i64>>) -> Result<(), AllocError>
    ensures { OnOk result (given.new ≡ given.old ++ found) }
{
    for values in found.into_vec() {
        given.push(values)?;
    }
    Ok(())
}

/// All solutions, in the order of the parts.
pub(crate) fn all_of(alloc: Global, ends: ListOf<AllEnd>) -> Result<ListOf<ListOf<i64>>, AllocError>
    ensures { IfOk result (λ given. given ≡ flat_map all_collected ends) }
{
    let mut given = ListOf::new(alloc);
    for end in ends.into_vec() {
        put(&mut given, solutions_of(end))?;
    }
    Ok(given)
}

/// The list of a solution, or of none.
pub(crate) fn list_of_one(
    alloc: Global,
    one: Option<ListOf<i64>>,
) -> Result<ListOf<ListOf<i64>>, AllocError>
    ensures { IfOk result (λ given. given ≡ listed one) }
{
    let mut given = ListOf::new(alloc);
    if let Some(values) = one {
        given.push(values)?;
    }
    Ok(given)
}
