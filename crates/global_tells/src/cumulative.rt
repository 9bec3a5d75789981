//! A cumulative resource: at every whole time, what the tasks that are under way then use of it is at most a limit.

ghost use Rattle.std.specs.Prelude.{◌≡◌, ◌<◌, ◌≤◌, ◌≤ℤ◌, ◌+ℤ◌, ◌-ℤ◌, ◌&&◌, ◌++◌, not, pos, unsigned_abs, [], ◌∷◌, length, slice_index_or, int_le, int_lt};
ghost use Rattle.std.specs.List.{flat_map};
ghost use Rattle.interval.specs.Limits.{IsBound, largest_number};
ghost use Rattle.interval.specs.Boxes.{low_of, high_of};
ghost use Rattle.tells.specs.Words.{AreVariables, when};
ghost use Rattle.tells.specs.Words as words;
ghost use Rattle.tells.specs.Hearing.{MayHearAll, HearsAll};
ghost use Rattle.global_tells.specs.Ranges.{is_from_to, place_limit};
ghost use Rattle.global_tells.specs.Cumulative as cumulative;
ghost use Rattle.global_tells.specs.Cumulative.{AreTasks, AreTasksOf, AreUsedAtStarts, tasks_of, tasks_in, task_in, usage_limit, overload_tells, crowded_tells, room_tells, task_tells, cumulative_tells};

use crate::ranges::{is_from_to, tell_none};
use crate::tasks::{Task, Tasks};
use interval::BoxOf;
use tells::{Hear, high_tell, low_tell};

/// A list has at most so many places.
const PLACE_LIMIT: usize = 256;

/// A time, what is used of the resource then, and how much of it there is.
#[derive(Clone, Copy)]
struct Moment {
    time: i64,
    used: i64,
    limit: i64,
}

/// Gives the tells of: at every whole time the sum of `r` over the places of which the time is from `s` on and before
/// `s + d` is at most the limit, to `h`, in order. It takes no memory.
pub fn visit_cumulative<H: Hear>(s: &[u32], d: &[i64], r: &[i64], limit: i64, b: &BoxOf, h: &mut H)
    requires variables { AreVariables (length b.now) s.now }
    requires tasks { AreTasks s.now d.now r.now limit }
    requires hearer { MayHearAll H.can_hear H.hears h.old (cumulative_tells (tasks_of s.now d.now r.now) limit b.now) }
    ensures { HearsAll H.hears h.old (cumulative_tells (tasks_of s.now d.now r.now) limit b.now) h.new }
{
    let tasks = Tasks {
        starts: s,
        durations: d,
        usages: r,
        limit,
    };
    tell_tasks(&tasks, b, h);
}

/// Tells of the tasks: first of too much use, then of no room.
fn tell_tasks<H: Hear>(tasks: &Tasks, b: &BoxOf, h: &mut H)
    requires tasks { AreTasksOf (length b.now) tasks.now }
    requires hearer { MayHearAll H.can_hear H.hears h.old (cumulative_tells (tasks_in tasks.now) tasks.now.limit b.now) }
    ensures { HearsAll H.hears h.old (cumulative_tells (tasks_in tasks.now) tasks.now.limit b.now) h.new }
{
    let used = used_at_starts(tasks, b);
    tell_overloads(tasks, &used, b, h);
    tell_rooms(tasks, &used, b, h);
}

/// What is used at the latest start of each task.
fn used_at_starts(tasks: &Tasks, b: &BoxOf) -> [i64; PLACE_LIMIT]
    requires { AreTasksOf (length b.now) tasks.now }
    ensures { AreUsedAtStarts tasks.now b.now result }
{
    let mut used = [0; PLACE_LIMIT];
    for j in 0..tasks.starts.len() {
        used[j] = usage_at(tasks, b.high(tasks.starts[j]), b);
    }
    used
}

/// What the tasks use at this time wherever they start.
fn usage_at(tasks: &Tasks, time: i64, b: &BoxOf) -> i64
    requires { AreTasksOf (length b.now) tasks.now }
    ensures value { result ≡ cumulative.usage_at (tasks_in tasks.now) b.now time }
    ensures in_range { unsigned_abs result ≤ usage_limit }
{
    let mut used = 0;
    for k in 0..tasks.starts.len() {
        let task = tasks.at(k);
        used += sure_usage(&task, time, b);
    }
    used
}

/// What the task uses at this time wherever it starts.
#[tactic(auto, unfolding(crate::specs::Cumulative::sure_usage))]
fn sure_usage(task: &Task, time: i64, b: &BoxOf) -> i64
    requires start { task.now.start < length b.now }
    requires amounts { cumulative.IsTask task.now }
    ensures value { result ≡ cumulative.sure_usage b.now time task.now }
    ensures least { pos 0 ≤ℤ result }
    ensures most { result ≤ℤ pos largest_number }
{
    if is_sure_at(task, time, b) {
        task.usage
    } else {
        0
    }
}

/// Whether the task is under way at this time wherever it starts.
#[tactic(auto, unfolding(crate::specs::Cumulative::is_sure_at, interval::specs::Limits::bound_limit, interval::specs::Limits::largest_number))]
fn is_sure_at(task: &Task, time: i64, b: &BoxOf) -> bool
    requires start { task.now.start < length b.now }
    requires amounts { cumulative.IsTask task.now }
    ensures { result ≡ cumulative.is_sure_at b.now time task.now }
{
    if time < b.high(task.start) {
        return false;
    }
    time < b.low(task.start) + task.duration
}

/// Tells where more is used than there is at the latest start of a task.
fn tell_overloads<H: Hear>(tasks: &Tasks, used: &[i64], b: &BoxOf, h: &mut H)
    requires tasks { AreTasksOf (length b.now) tasks.now }
    requires used { AreUsedAtStarts tasks.now b.now used.now }
    requires hearer { MayHearAll H.can_hear H.hears h.old
        (flat_map (λ j. overload_tells (tasks_in tasks.now) tasks.now.limit b.now (high_of b.now j.start)) (tasks_in tasks.now)) }
    ensures { HearsAll H.hears h.old
        (flat_map (λ j. overload_tells (tasks_in tasks.now) tasks.now.limit b.now (high_of b.now j.start)) (tasks_in tasks.now)) h.new }
{
    for j in 0..tasks.starts.len() {
        tell_overload(tasks, used, j, b, h);
    }
}

/// Tells where more is used than there is at the latest start of one task.
fn tell_overload<H: Hear>(tasks: &Tasks, used: &[i64], j: usize, b: &BoxOf, h: &mut H)
    requires tasks { AreTasksOf (length b.now) tasks.now }
    requires used { AreUsedAtStarts tasks.now b.now used.now }
    requires place { j < length tasks.now.starts.now }
    requires hearer { MayHearAll H.can_hear H.hears h.old
        (overload_tells (tasks_in tasks.now) tasks.now.limit b.now (high_of b.now (task_in tasks.now j).start)) }
    ensures { HearsAll H.hears h.old
        (overload_tells (tasks_in tasks.now) tasks.now.limit b.now (high_of b.now (task_in tasks.now j).start)) h.new }
{
    if is_overload(tasks, used, j, b) {
        tell_none(tasks.starts, h);
    }
}

/// Whether more is used than there is at the latest start of one task.
fn is_overload(tasks: &Tasks, used: &[i64], j: usize, b: &BoxOf) -> bool
    requires used { AreUsedAtStarts tasks.now b.now used.now }
    requires tasks { AreTasksOf (length b.now) tasks.now }
    requires place { j < length tasks.now.starts.now }
    ensures { result ≡ int_lt tasks.now.limit
        (cumulative.usage_at (tasks_in tasks.now) b.now (high_of b.now (task_in tasks.now j).start)) }
{
    tasks.limit < used[j]
}

/// Tells of each task where there is no room for it.
fn tell_rooms<H: Hear>(tasks: &Tasks, used: &[i64], b: &BoxOf, h: &mut H)
    requires tasks { AreTasksOf (length b.now) tasks.now }
    requires used { AreUsedAtStarts tasks.now b.now used.now }
    requires hearer { MayHearAll H.can_hear H.hears h.old
        (flat_map (task_tells (tasks_in tasks.now) tasks.now.limit b.now) (tasks_in tasks.now)) }
    ensures { HearsAll H.hears h.old
        (flat_map (task_tells (tasks_in tasks.now) tasks.now.limit b.now) (tasks_in tasks.now)) h.new }
{
    for k in 0..tasks.starts.len() {
        tell_task(tasks, used, k, b, h);
    }
}

/// Tells of one task, if it takes time, where there is no room for it.
fn tell_task<H: Hear>(tasks: &Tasks, used: &[i64], k: usize, b: &BoxOf, h: &mut H)
    requires tasks { AreTasksOf (length b.now) tasks.now }
    requires used { AreUsedAtStarts tasks.now b.now used.now }
    requires place { k < length tasks.now.starts.now }
    requires hearer { MayHearAll H.can_hear H.hears h.old
        (task_tells (tasks_in tasks.now) tasks.now.limit b.now (task_in tasks.now k)) }
    ensures { HearsAll H.hears h.old
        (task_tells (tasks_in tasks.now) tasks.now.limit b.now (task_in tasks.now k)) h.new }
{
    if takes_time(tasks, k) {
        tell_everywhere(tasks, used, k, b, h);
    }
}

/// Whether the task takes time.
fn takes_time(tasks: &Tasks, k: usize) -> bool
    requires tasks { AreTasks tasks.now.starts.now tasks.now.durations.now tasks.now.usages.now tasks.now.limit }
    requires place { k < length tasks.now.starts.now }
    ensures { result ≡ int_le (pos 1) (task_in tasks.now k).duration }
{
    tasks.durations[k] >= 1
}

/// Tells of one task that takes time at the latest starts of all and at its own earliest start.
fn tell_everywhere<H: Hear>(tasks: &Tasks, used: &[i64], k: usize, b: &BoxOf, h: &mut H)
    requires tasks { AreTasksOf (length b.now) tasks.now }
    requires used { AreUsedAtStarts tasks.now b.now used.now }
    requires place { k < length tasks.now.starts.now }
    requires hearer { MayHearAll H.can_hear H.hears h.old
        (flat_map (λ j. room_tells (tasks_in tasks.now) tasks.now.limit b.now (task_in tasks.now k) (high_of b.now j.start)) (tasks_in tasks.now)
        ++ room_tells (tasks_in tasks.now) tasks.now.limit b.now (task_in tasks.now k) (low_of b.now (task_in tasks.now k).start)) }
    ensures { HearsAll H.hears h.old
        (flat_map (λ j. room_tells (tasks_in tasks.now) tasks.now.limit b.now (task_in tasks.now k) (high_of b.now j.start)) (tasks_in tasks.now)
        ++ room_tells (tasks_in tasks.now) tasks.now.limit b.now (task_in tasks.now k) (low_of b.now (task_in tasks.now k).start)) h.new }
{
    tell_at_starts(tasks, used, k, b, h);
    tell_at_low(tasks, k, b, h);
}

/// Tells of the task at the latest starts of all.
fn tell_at_starts<H: Hear>(tasks: &Tasks, used: &[i64], k: usize, b: &BoxOf, h: &mut H)
    requires tasks { AreTasksOf (length b.now) tasks.now }
    requires used { AreUsedAtStarts tasks.now b.now used.now }
    requires place { k < length tasks.now.starts.now }
    requires hearer { MayHearAll H.can_hear H.hears h.old
        (flat_map (λ j. room_tells (tasks_in tasks.now) tasks.now.limit b.now (task_in tasks.now k) (high_of b.now j.start)) (tasks_in tasks.now)) }
    ensures { HearsAll H.hears h.old
        (flat_map (λ j. room_tells (tasks_in tasks.now) tasks.now.limit b.now (task_in tasks.now k) (high_of b.now j.start)) (tasks_in tasks.now)) h.new }
{
    for j in 0..tasks.starts.len() {
        tell_at_start(tasks, used, k, j, b, h);
    }
}

/// Tells of the task at place k at the latest start of the one at place j.
fn tell_at_start<H: Hear>(tasks: &Tasks, used: &[i64], k: usize, j: usize, b: &BoxOf, h: &mut H)
    requires tasks { AreTasksOf (length b.now) tasks.now }
    requires used { AreUsedAtStarts tasks.now b.now used.now }
    requires k { k < length tasks.now.starts.now }
    requires j { j < length tasks.now.starts.now }
    requires hearer { MayHearAll H.can_hear H.hears h.old
        (room_tells (tasks_in tasks.now) tasks.now.limit b.now (task_in tasks.now k) (high_of b.now (task_in tasks.now j).start)) }
    ensures { HearsAll H.hears h.old
        (room_tells (tasks_in tasks.now) tasks.now.limit b.now (task_in tasks.now k) (high_of b.now (task_in tasks.now j).start)) h.new }
{
    let task = tasks.at(k);
    let at = Moment {
        time: b.high(tasks.starts[j]),
        used: used[j],
        limit: tasks.limit,
    };
    tell_where_crowded(&task, &at, b, h);
}

/// Tells of the task at its own earliest start.
fn tell_at_low<H: Hear>(tasks: &Tasks, k: usize, b: &BoxOf, h: &mut H)
    requires tasks { AreTasksOf (length b.now) tasks.now }
    requires place { k < length tasks.now.starts.now }
    requires hearer { MayHearAll H.can_hear H.hears h.old
        (room_tells (tasks_in tasks.now) tasks.now.limit b.now (task_in tasks.now k) (low_of b.now (task_in tasks.now k).start)) }
    ensures { HearsAll H.hears h.old
        (room_tells (tasks_in tasks.now) tasks.now.limit b.now (task_in tasks.now k) (low_of b.now (task_in tasks.now k).start)) h.new }
{
    let task = tasks.at(k);
    let time = b.low(task.start);
    let at = Moment {
        time,
        used: usage_at(tasks, time, b),
        limit: tasks.limit,
    };
    tell_where_crowded(&task, &at, b, h);
}

/// Tells of the task where so much is used at this time that there is no room for it.
fn tell_where_crowded<H: Hear>(task: &Task, at: &Moment, b: &BoxOf, h: &mut H)
    requires start { task.now.start < length b.now }
    requires amounts { cumulative.IsTask task.now }
    requires time { IsBound at.now.time }
    requires used { unsigned_abs at.now.used ≤ usage_limit }
    requires limit { cumulative.IsAmount at.now.limit }
    requires hearer { MayHearAll H.can_hear H.hears h.old
        (crowded_tells at.now.used at.now.limit b.now task.now at.now.time) }
    ensures { HearsAll H.hears h.old (crowded_tells at.now.used at.now.limit b.now task.now at.now.time) h.new }
{
    if has_no_room(task, at, b) {
        tell_after(task, at, b, h);
        tell_before(task, at, b, h);
    }
}

/// Whether the task isn't sure to be under way at this time, and would use more than is left.
#[tactic(auto, unfolding(crate::specs::Cumulative::usage_limit, crate::specs::Ranges::place_limit, interval::specs::Limits::largest_number))]
fn has_no_room(task: &Task, at: &Moment, b: &BoxOf) -> bool
    requires start { task.now.start < length b.now }
    requires amounts { cumulative.IsTask task.now }
    requires time { IsBound at.now.time }
    requires used { unsigned_abs at.now.used ≤ usage_limit }
    requires limit { cumulative.IsAmount at.now.limit }
    ensures { result ≡ not (cumulative.is_sure_at b.now at.now.time task.now)
        && int_lt at.now.limit (at.now.used +ℤ task.now.usage) }
{
    if is_sure_at(task, at.time, b) {
        return false;
    }
    at.limit < at.used + task.usage
}

/// The first start with which the task is under way at this time.
#[tactic(auto, unfolding(interval::specs::Limits::bound_limit, interval::specs::Limits::largest_number))]
fn first_start(task: &Task, at: &Moment) -> i64
    requires amounts { cumulative.IsTask task.now }
    requires time { IsBound at.now.time }
    ensures { result ≡ (at.now.time -ℤ task.now.duration) +ℤ pos 1 }
{
    at.time - task.duration + 1
}

/// The last start with which the task has ended at this time.
#[tactic(auto, unfolding(interval::specs::Limits::bound_limit, interval::specs::Limits::largest_number))]
fn last_start_before(task: &Task, at: &Moment) -> i128
    requires amounts { cumulative.IsTask task.now }
    requires time { IsBound at.now.time }
    ensures { result ≡ at.now.time -ℤ task.now.duration }
{
    at.time as i128 - task.duration as i128
}

/// The next time.
#[tactic(auto, unfolding(interval::specs::Limits::bound_limit, interval::specs::Limits::largest_number))]
fn time_after(at: &Moment) -> i128
    requires { IsBound at.now.time }
    ensures { result ≡ at.now.time +ℤ pos 1 }
{
    at.time as i128 + 1
}

/// Where the task would be under way at this time if it began at its low, tells that it begins later.
#[tactic(auto, unfolding(interval::specs::Limits::bound_limit, interval::specs::Limits::largest_number))]
fn tell_after<H: Hear>(task: &Task, at: &Moment, b: &BoxOf, h: &mut H)
    requires start { task.now.start < length b.now }
    requires amounts { cumulative.IsTask task.now }
    requires time { IsBound at.now.time }
    requires hearer { MayHearAll H.can_hear H.hears h.old
        (when (is_from_to ((at.now.time -ℤ task.now.duration) +ℤ pos 1) at.now.time (low_of b.now task.now.start))
        (words.low_tell task.now.start (at.now.time +ℤ pos 1) ∷ [])) }
    ensures { HearsAll H.hears h.old
        (when (is_from_to ((at.now.time -ℤ task.now.duration) +ℤ pos 1) at.now.time (low_of b.now task.now.start))
        (words.low_tell task.now.start (at.now.time +ℤ pos 1) ∷ [])) h.new }
{
    if is_from_to(first_start(task, at), at.time, b.low(task.start)) {
        h.hear(low_tell(task.start, time_after(at)));
    }
}

/// Where the task would be under way at this time if it began at its high, tells that it begins so early that it has ended.
#[tactic(auto, unfolding(interval::specs::Limits::bound_limit, interval::specs::Limits::largest_number))]
fn tell_before<H: Hear>(task: &Task, at: &Moment, b: &BoxOf, h: &mut H)
    requires start { task.now.start < length b.now }
    requires amounts { cumulative.IsTask task.now }
    requires time { IsBound at.now.time }
    requires hearer { MayHearAll H.can_hear H.hears h.old
        (when (is_from_to ((at.now.time -ℤ task.now.duration) +ℤ pos 1) at.now.time (high_of b.now task.now.start))
        (words.high_tell task.now.start (at.now.time -ℤ task.now.duration) ∷ [])) }
    ensures { HearsAll H.hears h.old
        (when (is_from_to ((at.now.time -ℤ task.now.duration) +ℤ pos 1) at.now.time (high_of b.now task.now.start))
        (words.high_tell task.now.start (at.now.time -ℤ task.now.duration) ∷ [])) h.new }
{
    if is_from_to(first_start(task, at), at.time, b.high(task.start)) {
        h.hear(high_tell(task.start, last_start_before(task, at)));
    }
}
