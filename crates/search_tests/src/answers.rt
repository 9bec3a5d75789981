//! Small models, answered; the answers are worked out by hand.

ghost use Rattle.std.specs.Prelude.{◌≤◌};
ghost use Rattle.std.specs.Bool.{OnTrue};

use crate::models::model_of;
use answer::{Answer, Gates, Options, answer};
use fzn_print::Mark;
use gate::NoGate;
use memory::NoMemory;
use std::alloc::Global;
use std::process::Abort;
use std::test::Fail;
use std::thread::Threads;

/// x of 1 to 3 and y of 1 to 2.
const SOME: &str = "var 1..3: x; var 1..2: y; solve satisfy;";

/// The greatest x, which two solutions have.
const GREATEST: &str = "var 1..3: x; var 1..2: y; solve maximize x;";

/// The least constant, which all solutions have.
const CONSTANT: &str = "var 1..3: x; var 1..2: y; solve minimize 4;";

/// x has no value.
const NONE: &str = "var 1..0: x; var 1..2: y; solve satisfy;";

const NONE_LEAST: &str = "var 1..0: x; var 1..2: y; solve minimize y;";

/// The objective stands last in a chain of equal variables: bounds that move from the middle reach all in one round, and
/// from the objective in two. So a limit of two rounds stops the second phase alone, and a limit of one stops the first.
const CHAIN: &str = "var 1..2: x; var 1..2: y; var 1..2: z; constraint int_eq(x,z); \
                     constraint int_eq(x,y); solve minimize y;";

/// Whether there are workers, lanes and parts, and not too many, and the tree isn't cut too deep.
fn can_be_asked(options: Options) -> bool
    ensures some_workers { OnTrue result (1 ≤ options.workers) }
    ensures most_workers { OnTrue result (options.workers ≤ 64) }
    ensures some_lanes { OnTrue result (1 ≤ options.lanes) }
    ensures most_lanes { OnTrue result (options.lanes ≤ 64) }
    ensures depth { OnTrue result (options.depth ≤ 16) }
    ensures some_parts { OnTrue result (1 ≤ options.most_parts) }
    ensures few_parts { OnTrue result (options.most_parts ≤ 65536) }
{
    1 <= options.workers
        && options.workers <= 64
        && 1 <= options.lanes
        && options.lanes <= 64
        && options.depth <= 16
        && 1 <= options.most_parts
        && options.most_parts <= 65536
}

/// Answers the model of a text.
fn answer_to<R: Threads + Sync>(
    rt: &R,
    alloc: Global,
    text: &str,
    options: Options,
) -> Result<Answer, NoMemory>
    requires some_workers { 1 ≤ options.workers }
    requires most_workers { options.workers ≤ 64 }
    requires some_lanes { 1 ≤ options.lanes }
    requires most_lanes { options.lanes ≤ 64 }
    requires depth { options.depth ≤ 16 }
    requires some_parts { 1 ≤ options.most_parts }
    requires few_parts { options.most_parts ≤ 65536 }
{
    let model = model_of(alloc, text)?;
    let gates = Gates {
        crew: &NoGate,
        lanes: &NoGate,
    };
    answer(rt, alloc, &model, &options, &gates)
}

/// Whether these are the solutions, with this mark.
fn is_given(answer: &Answer, solutions: &[&[i64]], mark: Mark) -> bool {
    let given = answer.solutions.as_slice();
    if answer.mark != mark || given.len() != solutions.len() {
        return false;
    }
    for place in 0..given.len() {
        if given[place].as_slice() != solutions[place] {
            return false;
        }
    }
    true
}

/// The text has this answer.
fn assert_answer<R: Abort + Threads + Sync>(
    rt: &R,
    alloc: Global,
    text: &str,
    options: Options,
    solutions: &[&[i64]],
    mark: Mark,
) -> Result<(), NoMemory> {
    assert!(rt; can_be_asked(options));
    let answer = answer_to(rt, alloc, text, options)?;
    assert!(rt;
        is_given(&answer, solutions, mark),
        "at {options:?} of {text}"
    );
    Ok(())
}

/// A text, whether all solutions are asked for, and its answer.
const WHOLE: &[(&str, bool, &[&[i64]], Mark)] = &[
    (SOME, false, &[&[1, 1]], Mark::Plain),
    (
        SOME,
        true,
        &[&[1, 1], &[1, 2], &[2, 1], &[2, 2], &[3, 1], &[3, 2]],
        Mark::Complete,
    ),
    (NONE, true, &[], Mark::Unsatisfiable),
    (GREATEST, false, &[&[3, 1]], Mark::Complete),
    (GREATEST, true, &[&[3, 1]], Mark::Complete),
    (CONSTANT, false, &[&[1, 1]], Mark::Complete),
    (CONSTANT, true, &[&[1, 1]], Mark::Complete),
    (NONE_LEAST, false, &[], Mark::Unsatisfiable),
    (NONE_LEAST, true, &[], Mark::Unsatisfiable),
];

/// Searches without limits give what is asked.
fn assert_whole<R: Abort + Threads + Sync>(
    rt: &R,
    alloc: Global,
    options: Options,
) -> Result<(), NoMemory> {
    for (text, all, solutions, mark) in WHOLE {
        let asked = Options {
            all: *all,
            ..options
        };
        assert_answer(rt, alloc, text, asked, solutions, *mark)?;
    }
    Ok(())
}

#[test]
fn what_is_asked_is_given_by_any_workers_lanes_and_parts(rt: HostRuntime) -> Result<(), Fail> {
    for (workers, lanes, most_parts) in [(1, 1, 1), (2, 1, 2), (2, 1, 5), (3, 2, 64)] {
        for steal in [false, true] {
            let options = Options {
                all: false,
                workers,
                lanes,
                depth: 6,
                most_parts,
                node_limit: 0,
                round_limit: 0,
                steal,
            };
            assert_whole(&rt, rt.alloc(), options)?;
        }
    }
    Ok(())
}

#[test]
fn limits_leave_what_is_known(rt: HostRuntime) -> Result<(), Fail> {
    let table: &[(&str, bool, u64, u64, &[&[i64]], Mark)] = &[
        (SOME, false, 1, 0, &[], Mark::Unknown),
        (SOME, true, 3, 0, &[&[1, 1]], Mark::Plain),
        (GREATEST, false, 3, 0, &[&[1, 1]], Mark::Plain),
        (CHAIN, false, 0, 3, &[&[1, 1, 1]], Mark::Complete),
        (CHAIN, false, 0, 2, &[&[1, 1, 1]], Mark::Plain),
        (CHAIN, false, 0, 1, &[], Mark::Unknown),
    ];
    for (text, all, node_limit, round_limit, solutions, mark) in table {
        let options = Options {
            all: *all,
            workers: 1,
            lanes: 1,
            depth: 0,
            most_parts: 1,
            node_limit: *node_limit,
            round_limit: *round_limit,
            steal: false,
        };
        assert_answer(&rt, rt.alloc(), text, options, solutions, *mark)?;
    }
    Ok(())
}
