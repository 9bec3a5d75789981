//! Models of two variables, searched by hand for their first solution and for all.

ghost use Rattle.std.specs.Prelude.{◌≤◌, ◌<◌, IfOk};
ghost use Rattle.interval.specs.Boxes.{IsInside};
ghost use Rattle.best_bound.specs.Seats.{IsFoundSeatOf};
ghost use Rattle.search_tests.specs.Models.{IsCompiled};

use crate::models::{Compiled, compile_text};
use best_bound::{Found, FoundSeat, Numbers};
use gate::{Gate, NoGate};
use interval::{BoxOf, law_inside_order};
use list_of::ListOf;
use memory::NoMemory;
use search::{AllEnd, FirstEnd, Run, Why, run_all, run_first};
use std::alloc::Global;
use std::sync::atomic::{AtomicBool, Ordering};
use std::test::Fail;
use std::thread::Threads;
use subproblems::path_box;

/// Two solutions and no constraint.
const FREE: &str = "var 1..2: x; var 0..0: y; solve satisfy;";

/// Three solutions; the first round moves both variables.
const BELOW: &str = "var 0..2: x; var 0..2: y; constraint int_lt(x,y); solve satisfy;";

/// The same, where no round moves a variable before x is 1, at the fifth node.
const NARROW: &str = "var 0..1: x; var 1..2: y; constraint int_lt(x,y); solve satisfy;";

/// No solution, which one propagation finds.
const CYCLE: &str = "var 0..3: x; var 0..3: y; constraint int_lt(x,y); constraint int_lt(y,x); \
                     solve satisfy;";

/// No solution, since x has no value.
const CROSSED: &str = "var 2..1: x; var 0..3: y; solve satisfy;";

/// The most nodes and the most rounds; 0 is no limit.
type Limits = (u64, u64);

/// After how many nodes a limit stopped a search, and which limit it was.
type Stop = (u64, Why);

/// Any number passes.
struct AnyNumber;

impl Numbers for AnyNumber {
    ghost use Rattle.std.specs.Prelude.{⊤};

    ghost has_solution = { λ _. ⊤ };
}

/// Searches for the first solution as subproblem `number`.
fn first_of<R: Threads + Sync>(
    rt: &R,
    alloc: Global,
    searched: &Compiled,
    limits: Limits,
    number: u32,
    found: &Found<AnyNumber>,
    seat: &mut FoundSeat,
) -> Result<FirstEnd, NoMemory>
    requires compiled { IsCompiled searched.now.model searched.now.program searched.now.masks }
    requires seat { IsFoundSeatOf found.now seat.old }
    ensures { IsFoundSeatOf found.now seat.new }
{
    law_inside_order();
    let run = Run {
        model: &searched.model,
        program: &searched.program,
        masks: &searched.masks,
        lanes: 1,
        node_limit: limits.0,
        round_limit: limits.1,
        gate: &NoGate,
    };
    run_first(
        rt,
        alloc,
        &run,
        &searched.program.start,
        number,
        found,
        seat,
    )
}

/// Searches for the first solution, where nobody else does. With it comes what was posted.
fn first<R: Threads + Sync>(
    rt: &R,
    alloc: Global,
    text: &str,
    limits: Limits,
) -> Result<(FirstEnd, Option<u32>), NoMemory> {
    let searched = compile_text(alloc, text)?;
    let (found, mut seat) = Found::<AnyNumber>::new(alloc)?;
    let end = first_of(rt, alloc, &searched, limits, 0, &found, &mut seat)?;
    Ok((end, found.seen(&mut seat)))
}

/// Searches a part of a model's start for all solutions.
fn all_in<R: Threads + Sync, L: Gate + Sync>(
    rt: &R,
    alloc: Global,
    searched: &Compiled,
    sub: &BoxOf,
    limits: Limits,
    lanes: u32,
    gate: &L,
) -> Result<AllEnd, NoMemory>
    requires compiled { IsCompiled searched.now.model searched.now.program searched.now.masks }
    requires inside { IsInside sub.now searched.now.program.start }
    requires some_lanes { 1 ≤ lanes }
    requires most_lanes { lanes ≤ 64 }
{
    let run = Run {
        model: &searched.model,
        program: &searched.program,
        masks: &searched.masks,
        lanes,
        node_limit: limits.0,
        round_limit: limits.1,
        gate,
    };
    run_all(rt, alloc, &run, sub)
}

/// Searches for all solutions.
fn all<R: Threads + Sync, L: Gate + Sync>(
    rt: &R,
    alloc: Global,
    text: &str,
    limits: Limits,
    lanes: u32,
    gate: &L,
) -> Result<AllEnd, NoMemory>
    requires some_lanes { 1 ≤ lanes }
    requires most_lanes { lanes ≤ 64 }
{
    law_inside_order();
    let searched = compile_text(alloc, text)?;
    all_in(
        rt,
        alloc,
        &searched,
        &searched.program.start,
        limits,
        lanes,
        gate,
    )
}

/// One of the two subproblems into which a model's start is parted.
fn part_of(alloc: Global, searched: &Compiled, number: u32) -> Result<BoxOf, NoMemory>
    requires compiled { IsCompiled searched.now.model searched.now.program searched.now.masks }
    requires number { number < 2 }
    ensures { IfOk result (λ part. IsInside part searched.now.program.start) }
{
    let Compiled { model, program, .. } = searched;
    match path_box(alloc, model, program, &program.start, 1, number)? {
        Some(part) => Ok(part),
        None => Err(NoMemory),
    }
}

/// Whether these are the numbers of a solution, if there is one.
fn is_solution(values: &Option<ListOf<i64>>, expected: Option<[i64; 2]>) -> bool {
    match (values, expected) {
        (Some(values), Some(numbers)) => values.as_slice() == numbers.as_slice(),
        (None, None) => true,
        _ => false,
    }
}

/// How a search for the first solution is expected to end.
#[derive(Clone, Copy)]
enum Expected {
    /// With this solution, or with none.
    Done(Option<[i64; 2]>),
    /// By a limit.
    Spent(Stop),
    /// Cut by this number.
    Cut(u32),
}

/// Whether a search ended so.
fn is_end(end: &FirstEnd, expected: Expected) -> bool {
    match (end, expected) {
        (FirstEnd::Done(values), Expected::Done(solution)) => is_solution(values, solution),
        (FirstEnd::Spent { nodes, why }, Expected::Spent(stop)) => (*nodes, *why) == stop,
        (FirstEnd::Cut(number), Expected::Cut(other)) => *number == other,
        _ => false,
    }
}

/// Whether these are the solutions.
fn are(solutions: &ListOf<ListOf<i64>>, expected: &[[i64; 2]]) -> bool {
    let lists = solutions.as_slice();
    if lists.len() != expected.len() {
        return false;
    }
    for place in 0..lists.len() {
        if lists[place].as_slice() != expected[place].as_slice() {
            return false;
        }
    }
    true
}

/// Whether a search for all solutions ended with these, by a limit or without.
fn is_all(end: &AllEnd, stop: Option<Stop>, expected: &[[i64; 2]]) -> bool {
    match (end, stop) {
        (AllEnd::Done(solutions), None) => are(solutions, expected),
        (
            AllEnd::Spent {
                nodes,
                why,
                solutions,
            },
            Some(stop),
        ) => (*nodes, *why) == stop && are(solutions, expected),
        _ => false,
    }
}

#[test]
fn all_solutions_are_found_as_far_as_the_limits_go(rt: HostRuntime) -> Result<(), Fail> {
    let table: &[(&str, Limits, Option<Stop>, &[[i64; 2]])] = &[
        (FREE, (0, 0), None, &[[1, 0], [2, 0]]),
        (FREE, (1, 0), Some((1, Why::Nodes)), &[]),
        (FREE, (2, 0), Some((2, Why::Nodes)), &[[1, 0]]),
        (FREE, (3, 0), None, &[[1, 0], [2, 0]]),
        (BELOW, (0, 0), None, &[[0, 1], [0, 2], [1, 2]]),
        (BELOW, (5, 0), None, &[[0, 1], [0, 2], [1, 2]]),
        (BELOW, (4, 0), Some((4, Why::Nodes)), &[[0, 1], [0, 2]]),
        (CYCLE, (1, 0), None, &[]),
        (CROSSED, (1, 0), None, &[]),
        (BELOW, (0, 1), Some((1, Why::Rounds)), &[]),
        (BELOW, (0, 2), None, &[[0, 1], [0, 2], [1, 2]]),
        (NARROW, (0, 1), Some((5, Why::Rounds)), &[[0, 1], [0, 2]]),
    ];
    for (text, limits, stop, expected) in table {
        let end = all(&rt, rt.alloc(), text, *limits, 1, &NoGate)?;
        assert!(rt; is_all(&end, *stop, expected), "at {limits:?} of {text}");
    }
    Ok(())
}

#[test]
fn each_part_is_searched_alone(rt: HostRuntime) -> Result<(), Fail> {
    let table: &[(&str, u32, &[[i64; 2]])] = &[
        (FREE, 0, &[[1, 0]]),
        (FREE, 1, &[[2, 0]]),
        (BELOW, 0, &[[0, 1], [0, 2]]),
        (BELOW, 1, &[[1, 2]]),
    ];
    for (text, number, expected) in table {
        assert!(rt; *number < 2);
        let searched = compile_text(rt.alloc(), text)?;
        let part = part_of(rt.alloc(), &searched, *number)?;
        let end = all_in(&rt, rt.alloc(), &searched, &part, (0, 0), 1, &NoGate)?;
        assert!(rt; is_all(&end, None, expected), "in part {number} of {text}");
    }
    Ok(())
}

#[test]
fn the_first_solution_is_found_as_far_as_the_limits_go(rt: HostRuntime) -> Result<(), Fail> {
    let table: &[(&str, Limits, Expected)] = &[
        (FREE, (0, 0), Expected::Done(Some([1, 0]))),
        (FREE, (1, 0), Expected::Spent((1, Why::Nodes))),
        (FREE, (2, 0), Expected::Done(Some([1, 0]))),
        (BELOW, (3, 0), Expected::Done(Some([0, 1]))),
        (BELOW, (2, 0), Expected::Spent((2, Why::Nodes))),
        (CYCLE, (1, 0), Expected::Done(None)),
        (CROSSED, (0, 0), Expected::Done(None)),
        (BELOW, (0, 1), Expected::Spent((1, Why::Rounds))),
        (NARROW, (0, 1), Expected::Done(Some([0, 1]))),
    ];
    for (text, limits, expected) in table {
        let (end, posted) = first(&rt, rt.alloc(), text, *limits)?;
        assert!(rt; is_end(&end, *expected), "at {limits:?} of {text}");
        // what has no solution posts nothing
        let is_posted = matches!(expected, Expected::Done(Some(_)));
        assert_eq!(rt; posted.is_some(), is_posted, "at {limits:?} of {text}");
    }
    Ok(())
}

/// Whether the first solution is the head of all.
fn is_head(first: &FirstEnd, all: &AllEnd) -> bool {
    match (first, all) {
        (FirstEnd::Done(Some(values)), AllEnd::Done(solutions)) => match solutions.as_slice() {
            [head, ..] => head.as_slice() == values.as_slice(),
            [] => false,
        },
        (FirstEnd::Done(None), AllEnd::Done(solutions)) => solutions.is_empty(),
        _ => false,
    }
}

#[test]
fn the_first_solution_is_the_head_of_all(rt: HostRuntime) -> Result<(), Fail> {
    for text in [FREE, BELOW, NARROW, CYCLE, CROSSED] {
        let (first, _) = first(&rt, rt.alloc(), text, (0, 0))?;
        let all = all(&rt, rt.alloc(), text, (0, 0), 1, &NoGate)?;
        assert!(rt; is_head(&first, &all), "of {text}");
    }
    Ok(())
}

/// Tells whether the second lane was ever about to run a kernel.
#[derive(Drop)]
struct Seen {
    passed: AtomicBool,
}

impl Gate for Seen {
    fn pass(&self, lane: u32, _turn: u64) {
        if lane == 1 {
            self.passed.store(true, Ordering::SeqCst);
        }
    }
}

#[test]
fn two_lanes_find_what_one_finds(rt: HostRuntime) -> Result<(), Fail> {
    const TWICE: &str = "var 0..2: x; var 0..2: y; constraint int_lt(x,y); \
                         constraint int_lt(x,y); solve satisfy;";
    let gate = Seen {
        passed: AtomicBool::new(false),
    };
    let end = all(&rt, rt.alloc(), TWICE, (0, 0), 2, &gate)?;
    assert!(rt; is_all(&end, None, &[[0, 1], [0, 2], [1, 2]]));
    assert!(rt; gate.passed.load(Ordering::SeqCst));
    Ok(())
}

#[test]
fn a_lesser_number_cuts_a_search(rt: HostRuntime) -> Result<(), Fail> {
    let searched = compile_text(rt.alloc(), FREE)?;
    let (found, mut seat) = Found::<AnyNumber>::new(rt.alloc())?;
    let mut other = found.split(&mut seat);
    found.post(&mut other, 3);
    // the number itself and greater ones cut nothing; a lesser one does, before the first node
    for (limits, number, expected) in [
        ((0, 0), 2, Expected::Done(Some([1, 0]))),
        ((1, 0), 2, Expected::Spent((1, Why::Nodes))),
        ((0, 0), 3, Expected::Cut(2)),
    ] {
        let end = first_of(
            &rt,
            rt.alloc(),
            &searched,
            limits,
            number,
            &found,
            &mut seat,
        )?;
        assert!(rt; is_end(&end, expected), "as number {number}");
        assert_eq!(rt; found.seen(&mut other), Some(2));
    }
    Ok(())
}

#[test]
fn the_least_number_that_is_seen_cuts_a_search(rt: HostRuntime) -> Result<(), Fail> {
    let searched = compile_text(rt.alloc(), FREE)?;
    let (found, mut seat) = Found::<AnyNumber>::new(rt.alloc())?;
    let mut other = found.split(&mut seat);
    // the seat sees a greater number before a lesser one; a third number is posted when it has seen both
    found.post(&mut other, 5);
    assert_eq!(rt; found.seen(&mut seat), Some(5));
    found.post(&mut other, 2);
    assert_eq!(rt; found.seen(&mut seat), Some(2));
    let end = first_of(&rt, rt.alloc(), &searched, (1, 0), 3, &found, &mut seat)?;
    assert!(rt; is_end(&end, Expected::Cut(2)));
    found.post(&mut other, 1);
    let end = first_of(&rt, rt.alloc(), &searched, (1, 0), 3, &found, &mut seat)?;
    assert!(rt; is_end(&end, Expected::Cut(1)));
    assert_eq!(rt; found.seen(&mut other), Some(1));
    Ok(())
}
