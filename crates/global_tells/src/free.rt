//! A first test that a cumulative resource tells nothing.

ghost use Rattle.std.specs.Prelude.{◌<◌, ◌≤ℤ◌, ◌+ℤ◌, length};
ghost use Rattle.std.specs.Bool.{OnTrue};
ghost use Rattle.std.specs.List.{All};
ghost use Rattle.interval.specs.Boxes.{low_of, high_of};
ghost use Rattle.tells.specs.Words.{AreVariables, Keeps};
ghost use Rattle.global_tells.specs.Cumulative as cumulative;
ghost use Rattle.global_tells.specs.Cumulative.{AreTasks, AreTasksOf, IsFree, tasks_of, tasks_in, task_in, cumulative_tells};

use crate::tasks::{Task, Tasks};
use interval::BoxOf;

/// Whether a cumulative resource is seen to tell nothing: no task is sure to be under way at any time, and there is enough
/// for each alone. It asks each task once.
pub fn is_cumulative_quiet(s: &[u32], d: &[i64], r: &[i64], limit: i64, b: &BoxOf) -> bool
    requires variables { AreVariables (length b.now) s.now }
    requires tasks { AreTasks s.now d.now r.now limit }
    ensures { OnTrue result (All (Keeps b.now) (cumulative_tells (tasks_of s.now d.now r.now) limit b.now)) }
{
    let tasks = Tasks {
        starts: s,
        durations: d,
        usages: r,
        limit,
    };
    are_all_free(&tasks, b)
}

/// Whether no task is sure to be under way at any time, and there is enough for each alone.
fn are_all_free(tasks: &Tasks, b: &BoxOf) -> bool
    requires { AreTasksOf (length b.now) tasks.now }
    ensures { OnTrue result (All (Keeps b.now) (cumulative_tells (tasks_in tasks.now) tasks.now.limit b.now)) }
{
    for k in 0..tasks.starts.len() {
        if !is_free(tasks, k, b) {
            return false;
        }
    }
    true
}

/// Whether the task isn't sure to be under way at any time, and there is enough for it alone.
fn is_free(tasks: &Tasks, k: usize, b: &BoxOf) -> bool
    requires tasks { AreTasksOf (length b.now) tasks.now }
    requires place { k < length tasks.now.starts.now }
    ensures { OnTrue result (IsFree tasks.now.limit b.now (task_in tasks.now k)) }
{
    let task = tasks.at(k);
    if task.usage > tasks.limit {
        return false;
    }
    is_never_sure(&task, b)
}

/// Whether the task isn't sure to be under way at any time.
#[tactic(auto, unfolding(interval::specs::Limits::bound_limit, interval::specs::Limits::largest_number))]
fn is_never_sure(task: &Task, b: &BoxOf) -> bool
    requires start { task.now.start < length b.now }
    requires amounts { cumulative.IsTask task.now }
    ensures { OnTrue result ((low_of b.now task.now.start +ℤ task.now.duration) ≤ℤ high_of b.now task.now.start) }
{
    b.low(task.start) + task.duration <= b.high(task.start)
}
