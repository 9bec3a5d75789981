//! Tasks, and what they use of a resource.

ghost use Rattle.std.specs.Prelude.{◌≡◌, ◌≤◌, ◌&&◌, ◌+ℤ◌, pos, cond, map, unsigned_abs, int_le, All};
ghost use Rattle.std.specs.List.{list_all};
ghost use Rattle.constraint_model.specs.Numbers.{IsInProfile};
ghost use Rattle.constraint_model.specs.Relations as relations;
ghost use Rattle.constraint_model.specs.Relations.{value};
ghost use Rattle.constraint_check.specs.Asked.{IsSmallRow, IsSmallTerm, product_limit};
ghost use Rattle.constraint_check.specs.Tests.{changes, is_cumulative, used_by};

use crate::comparing::sum_of_two;
use crate::values::{sum_with, value_of};
use constraint_model::Term;

/// Tasks, by the terms of their starts, their durations and their usages, and how much they may use at a time.
#[derive(Clone, Copy)]
pub(crate) struct Tasks<'a> {
    /// The starts.
    pub(crate) starts: &'a [Term],
    /// The durations.
    pub(crate) durations: &'a [Term],
    /// The usages.
    pub(crate) usages: &'a [Term],
    /// The limit of what is used at a time.
    pub(crate) limit: i64,
}

/// When a task ends.
fn end_of(start: Term, duration: Term, solution: &[i64]) -> i128
    ensures { result ≡ value solution.now start +ℤ value solution.now duration }
{
    sum_of_two(value_of(start, solution), value_of(duration, solution))
}

/// Whether a task is under way at a time.
fn is_under_way(start: Term, duration: Term, time: i128, solution: &[i64]) -> bool
    ensures { result ≡ relations.is_under_way (value solution.now start) (value solution.now duration) time }
{
    value_of(start, solution) as i128 <= time && time < end_of(start, duration, solution)
}

/// What a task uses at a time.
fn usage_at(start: Term, duration: Term, usage: Term, time: i128, solution: &[i64]) -> i128
    requires numbers { All IsInProfile solution.now }
    requires usage { IsSmallTerm usage }
    ensures value { result ≡ cond (relations.is_under_way (value solution.now start) (value solution.now duration) time) (value solution.now usage) (pos 0) }
    ensures small { unsigned_abs result ≤ product_limit }
{
    if is_under_way(start, duration, time, solution) {
        value_of(usage, solution) as i128
    } else {
        0
    }
}

/// What the tasks use at a time.
fn used_at(tasks: &Tasks, time: i128, solution: &[i64]) -> i128
    requires numbers { All IsInProfile solution.now }
    requires usages { IsSmallRow tasks.now.usages.now }
    ensures { result ≡ used_by tasks.now solution.now time }
{
    let count = tasks
        .starts
        .len()
        .min(tasks.durations.len())
        .min(tasks.usages.len());
    let mut used = 0;
    for place in 0..count {
        let usage = usage_at(
            tasks.starts[place],
            tasks.durations[place],
            tasks.usages[place],
            time,
            solution,
        );
        used = sum_with(used, usage);
    }
    used
}

/// Whether they use no more than the limit at a time.
fn keeps_at(tasks: &Tasks, time: i128, solution: &[i64]) -> bool
    requires numbers { All IsInProfile solution.now }
    requires usages { IsSmallRow tasks.now.usages.now }
    ensures { result ≡ int_le (used_by tasks.now solution.now time) tasks.now.limit }
{
    used_at(tasks, time, solution) <= tasks.limit as i128
}

/// Whether they use no more than the limit where one task begins, and where it ends.
fn keeps_at_ends(tasks: &Tasks, start: Term, duration: Term, solution: &[i64]) -> bool
    requires numbers { All IsInProfile solution.now }
    requires usages { IsSmallRow tasks.now.usages.now }
    ensures { result ≡ (int_le (used_by tasks.now solution.now (value solution.now start)) tasks.now.limit
        && int_le (used_by tasks.now solution.now (value solution.now start +ℤ value solution.now duration)) tasks.now.limit) }
{
    keeps_at(tasks, value_of(start, solution) as i128, solution)
        && keeps_at(tasks, end_of(start, duration, solution), solution)
}

/// Whether they use no more than the limit wherever one begins or ends.
fn keeps_at_changes(tasks: &Tasks, solution: &[i64]) -> bool
    requires numbers { All IsInProfile solution.now }
    requires usages { IsSmallRow tasks.now.usages.now }
    ensures { result ≡ list_all (λ t. int_le (used_by tasks.now solution.now t) tasks.now.limit)
        (changes (map (value solution.now) tasks.now.starts.now) (map (value solution.now) tasks.now.durations.now)) }
{
    let count = tasks.starts.len().min(tasks.durations.len());
    for place in 0..count {
        if !keeps_at_ends(tasks, tasks.starts[place], tasks.durations[place], solution) {
            return false;
        }
    }
    true
}

/// Whether they use no more than the limit at any time.
pub(crate) fn is_cumulative(tasks: &Tasks, solution: &[i64]) -> bool
    requires numbers { All IsInProfile solution.now }
    requires usages { IsSmallRow tasks.now.usages.now }
    ensures { result ≡ is_cumulative (map (value solution.now) tasks.now.starts.now) (map (value solution.now) tasks.now.durations.now)
        (map (value solution.now) tasks.now.usages.now) tasks.now.limit }
{
    tasks.limit >= 0 && keeps_at_changes(tasks, solution)
}
