//! Which bounds a tell of a cumulative resource rests on: those of tasks that are surely under way at one time, just enough of them.
//! Nothing here is relied on, and numbers may wrap: whoever uses the bounds looks whether the kernel tells the literal there.

ghost use Rattle.std.specs.Prelude.{◌≡◌, length};

use crate::halls::is_of_none;
use crate::ranges::{Range, put_range, range_of};
use guarded_tell::{Kernel, Side, Tell};
use interval::BoxOf;

/// The tasks of a resource.
#[derive(Clone, Copy)]
struct Tasks<'a> {
    starts: &'a [u32],
    durations: &'a [i64],
    usages: &'a [i64],
    limit: i64,
}

/// A task.
#[derive(Clone, Copy)]
struct Task {
    start: u32,
    duration: i64,
    usage: i64,
}

/// A time at which the resource is full, and how much more than the other tasks leave must be used then.
#[derive(Clone, Copy)]
struct Crowd {
    time: i64,
    room: i64,
}

/// The task at a place.
fn task_at(tasks: Tasks<'_>, place: usize) -> Option<Task> {
    Some(Task {
        start: *tasks.starts.get(place)?,
        duration: *tasks.durations.get(place)?,
        usage: *tasks.usages.get(place)?,
    })
}

/// Whether the task is surely under way at a time.
fn is_sure(task: Task, time: i64, past: &BoxOf) -> bool {
    let range = range_of(past, task.start);
    range.high <= time && time < range.low.wrapping_add(task.duration)
}

/// What is surely used at a time by all tasks but that of the variable that was told.
fn used_at(tasks: Tasks<'_>, time: i64, is_own_out: bool, sought: Tell, past: &BoxOf) -> i64 {
    let mut used: i64 = 0;
    for place in 0..tasks.starts.len() {
        if let Some(task) = task_at(tasks, place)
            && !(is_own_out && task.start == sought.var)
            && is_sure(task, time, past)
        {
            used = used.wrapping_add(task.usage);
        }
    }
    used
}

/// The task of the variable that was told.
fn own_task(tasks: Tasks<'_>, sought: Tell) -> Option<Task> {
    for place in 0..tasks.starts.len() {
        if let Some(task) = task_at(tasks, place)
            && task.start == sought.var
        {
            return Some(task);
        }
    }
    None
}

/// Whether the task is pushed so far where it can't be under way at a time.
fn is_pushed(task: Task, time: i64, sought: Tell, past: &BoxOf) -> bool {
    let range = range_of(past, task.start);
    let earliest = time.wrapping_sub(task.duration).wrapping_add(1);
    match sought.side {
        Side::Low => earliest <= range.low
            && range.low <= time
            && sought.bound <= time.wrapping_add(1),
        Side::High => earliest <= range.high
            && range.high <= time
            && earliest.wrapping_sub(1) <= sought.bound,
    }
}

/// The crowd at a time, if it tells the literal.
fn crowd_at(
    tasks: Tasks<'_>,
    own: Option<Task>,
    time: i64,
    sought: Tell,
    past: &BoxOf,
) -> Option<Crowd> {
    let room = match own {
        None => tasks.limit,
        Some(task) => {
            if is_sure(task, time, past) || !is_pushed(task, time, sought, past) {
                return None;
            }
            tasks.limit.wrapping_sub(task.usage)
        }
    };
    if used_at(tasks, time, own.is_some(), sought, past) > room {
        Some(Crowd { time, room })
    } else {
        None
    }
}

/// A crowd that tells the literal.
fn crowd_of(tasks: Tasks<'_>, own: Option<Task>, sought: Tell, past: &BoxOf) -> Option<Crowd> {
    for v in tasks.starts {
        let time = range_of(past, *v).high;
        if let Some(crowd) = crowd_at(tasks, own, time, sought, past) {
            return Some(crowd);
        }
    }
    crowd_at(tasks, own, range_of(past, sought.var).low, sought, past)
}

/// The bounds by which a task is under way at a time, or for the one that was told that by which it would be.
fn part_of(task: Task, time: i64, is_own: bool, sought: Tell, widest: Range) -> Range {
    let earliest = time.wrapping_sub(task.duration).wrapping_add(1);
    if !is_own {
        return Range {
            low: earliest,
            high: time,
        };
    }
    match sought.side {
        Side::Low => Range {
            low: earliest,
            high: widest.high,
        },
        Side::High => Range {
            low: widest.low,
            high: time,
        },
    }
}

/// Puts the bounds that the tasks need: just enough of those that are under way, and the one that was told.
fn put_crowd(
    tasks: Tasks<'_>,
    own: Option<Task>,
    crowd: Crowd,
    space: &BoxOf,
    past: &mut BoxOf,
    sought: Tell,
)
    ensures { length past.new ≡ length past.old }
{
    let mut room = crowd.room;
    for place in 0..tasks.starts.len() {
        if let Some(task) = task_at(tasks, place) {
            let widest = range_of(space, task.start);
            let is_own = own.is_some() && task.start == sought.var;
            let is_needed = room >= 0
                && task.usage > 0
                && !is_own
                && is_sure(task, crowd.time, past);
            if is_needed {
                room = room.wrapping_sub(task.usage);
            }
            let part = part_of(task, crowd.time, is_own, sought, widest);
            put_range(
                past,
                task.start,
                if is_own || is_needed { part } else { widest },
            );
        }
    }
}

/// Widens the bounds of the tasks as far as the tell of the literal lets. Whether that is known.
pub(crate) fn weaken_crowd(kernel: &Kernel, space: &BoxOf, past: &mut BoxOf, sought: Tell) -> bool
    ensures { length past.new ≡ length past.old }
{
    let Kernel::Cumulative {
        starts,
        durations,
        usages,
        limit,
    } = kernel
    else {
        return false;
    };
    let tasks = Tasks {
        starts: starts.as_slice(),
        durations: durations.as_slice(),
        usages: usages.as_slice(),
        limit: *limit,
    };
    let own = if is_of_none(sought) {
        None
    } else {
        own_task(tasks, sought)
    };
    let Some(crowd) = crowd_of(tasks, own, sought, past) else {
        return false;
    };
    put_crowd(tasks, own, crowd, space, past, sought);
    true
}
