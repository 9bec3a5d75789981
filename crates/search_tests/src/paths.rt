//! A model of one variable, cut by hand: all subproblems at once, each by its number alone, and one after another, also with a
//! best cost.

ghost use Rattle.std.specs.Prelude.{◌≡◌, ◌<◌, ◌≤◌, ◌^◌, List, length, OnOk};
ghost use Rattle.interval.specs.Boxes.{Bounds};
ghost use Rattle.guarded_tell.specs.declared.kernel.Kernel.{Kernel};
ghost use Rattle.constraint_model.specs.declared.model.FznModel.{FznModel};
ghost use Rattle.trailed_box.specs.Trailed.{IsOver};
ghost use Rattle.subproblem_walk.specs.Walks.{IsWalkFrom, StandsOn};
ghost use Rattle.search_tests.specs.Models.{IsCompiled};

use crate::models::{Compiled, compile_text};
use interval::BoxOf;
use memory::NoMemory;
use std::alloc::{AllocError, Global};
use std::process::Abort;
use std::test::Fail;
use subproblem_walk::{Subproblem, Tree, Walk};
use subproblems::{expand, numbers_to, path_box};
use trailed_box::TrailedBox;

const FOUR: &str = "var 0..3: x; solve satisfy;";

/// The lesser values cost less, and come first.
const LEAST: &str = "var 0..3: x; solve minimize x;";

/// So they do, and the values are halved.
const LEAST_OF_HALVES: &str =
    "var 0..3: x; solve :: int_search([x],input_order,indomain_split,complete) minimize x;";

/// The bounds of the variable, which has pair 1.
fn bounds(b: &BoxOf) -> Option<(i64, i64)> {
    if b.len() != 2 {
        return None;
    }
    Some((b.low(1), b.high(1)))
}

/// The same where there is a box.
fn bounds_in(found: &Option<BoxOf>) -> Option<(i64, i64)> {
    match found {
        Some(b) => bounds(b),
        None => None,
    }
}

/// The bounds of the variable in each box.
fn bounds_of(alloc: Global, subs: &[BoxOf]) -> Result<Vec<Option<(i64, i64)>>, AllocError> {
    let mut all = Vec::new(alloc);
    for sub in subs {
        all.push(bounds(sub))?;
    }
    Ok(all)
}

/// The bounds of the variable in each subproblem.
fn expanded(alloc: Global, cut: &Compiled, depth: u32) -> Result<Vec<Option<(i64, i64)>>, NoMemory>
    requires compiled { IsCompiled cut.now.model cut.now.program cut.now.masks }
    requires depth { depth ≤ 16 }
{
    let subs = expand(alloc, &cut.model, &cut.program, &cut.program.start, depth)?;
    Ok(bounds_of(alloc, &subs)?)
}

#[test]
fn it_is_cut_into_its_subproblems(rt: HostRuntime) -> Result<(), Fail> {
    let table: &[(u32, &[Option<(i64, i64)>])] = &[
        (0, &[Some((0, 3))]),
        (2, &[Some((0, 0)), Some((1, 1)), Some((2, 3))]),
        (
            16,
            &[Some((0, 0)), Some((1, 1)), Some((2, 2)), Some((3, 3))],
        ),
    ];
    let cut = compile_text(rt.alloc(), FOUR)?;
    for (depth, expected) in table {
        assert!(rt; *depth <= 16);
        let found = expanded(rt.alloc(), &cut, *depth)?;
        assert_eq!(rt; found.as_slice(), *expected, "to depth {depth}");
    }
    Ok(())
}

/// Leaves a box of one variable for later, and goes to another.
fn cover(boxes: &mut TrailedBox) -> Result<(), NoMemory>
    ensures over { OnOk result (IsOver boxes.old.stack boxes.new.stack) }
    ensures length { OnOk result (length boxes.new.current ≡ length boxes.old.current) }
{
    if boxes.len() != 2 {
        return Ok(());
    }
    let (low, high) = (boxes.low(1), boxes.high(1));
    boxes.push(1, low, low)?;
    boxes.put(1, high, high)?;
    Ok(())
}

/// The bounds of the variable in a box that a walk gave out, which takes it back with another above it.
fn given_back(walk: &mut Walk, sub: Subproblem) -> Result<Option<(i64, i64)>, NoMemory>
    ensures { (model : FznModel) (kernels : List Kernel) (start : Bounds) → IsWalkFrom model kernels start walk.old → length sub.boxes.current ≡ length start →
        StandsOn model kernels start walk.old sub.boxes.stack → IsWalkFrom model kernels start walk.new }
{
    let mut boxes = sub.boxes;
    let found = bounds(boxes.current());
    cover(&mut boxes)?;
    walk.take_back(boxes);
    Ok(found)
}

/// What a walk gives for the number, and what the path alone gives.
fn asked(
    alloc: Global,
    cut: &Compiled,
    walk: &mut Walk,
    depth: u32,
    number: u32,
) -> Result<[Option<(i64, i64)>; 2], NoMemory>
    requires compiled { IsCompiled cut.now.model cut.now.program cut.now.masks }
    requires depth { depth ≤ 16 }
    requires number { number < 2 ^ depth }
    requires walk { IsWalkFrom cut.now.model cut.now.program.kernels cut.now.program.start walk.old }
    ensures { IsWalkFrom cut.now.model cut.now.program.kernels cut.now.program.start walk.new }
{
    let Compiled {
        model,
        program,
        masks,
    } = cut;
    let tree = Tree {
        model,
        program,
        masks,
        start: &program.start,
        depth,
    };
    let alone = path_box(alloc, model, program, &program.start, depth, number)?;
    let expected = bounds_in(&alone);
    match walk.path_box(alloc, &tree, u64::from(number))? {
        None => Ok([None, expected]),
        Some(sub) => Ok([given_back(walk, sub)?, expected]),
    }
}

/// A depth, a number, and the bounds where it leads to.
type Step = (u32, u32, Option<(i64, i64)>);

/// A walk goes from number to number, and each leads to the same as alone.
fn assert_walk(
    rt: &impl Abort,
    alloc: Global,
    cut: &Compiled,
    steps: &[Step],
) -> Result<(), NoMemory>
    requires { IsCompiled cut.now.model cut.now.program cut.now.masks }
{
    let mut walk = Walk::new(alloc);
    for (depth, number, expected) in steps {
        assert!(rt; *depth <= 16);
        assert!(rt; *number < numbers_to(*depth));
        let found = asked(alloc, cut, &mut walk, *depth, *number)?;
        assert_eq!(rt;
            found,
            [*expected, *expected],
            "at {number} to depth {depth}"
        );
    }
    Ok(())
}

#[test]
fn numbers_lead_to_the_subproblems(rt: HostRuntime) -> Result<(), Fail> {
    const IN_ORDER: &[Step] = &[
        (2, 0, Some((0, 0))),
        (2, 1, None),
        (2, 2, Some((1, 1))),
        (2, 3, Some((2, 3))),
    ];
    const DEEP: &[Step] = &[
        (16, 0, Some((0, 0))),
        (16, 1, None),
        (16, 32768, Some((1, 1))),
        (16, 49152, Some((2, 2))),
        (16, 57344, Some((3, 3))),
        (16, 65535, None),
    ];
    const BACK_AND_FORTH: &[Step] = &[
        (3, 5, None),
        (3, 2, None),
        (3, 7, Some((3, 3))),
        (3, 7, Some((3, 3))),
        (3, 0, Some((0, 0))),
    ];
    const TO_OTHER_DEPTHS: &[Step] = &[
        (3, 6, Some((2, 2))),
        (2, 3, Some((2, 3))),
        (0, 0, Some((0, 3))),
        (3, 4, Some((1, 1))),
    ];
    let cut = compile_text(rt.alloc(), FOUR)?;
    for steps in [IN_ORDER, DEEP, BACK_AND_FORTH, TO_OTHER_DEPTHS] {
        assert_walk(&rt, rt.alloc(), &cut, steps)?;
    }
    Ok(())
}

/// What a walk gives for a number to depth 2, where so much is the best cost.
fn asked_below(
    alloc: Global,
    cut: &Compiled,
    walk: &mut Walk,
    number: u32,
    best: i64,
) -> Result<Option<(i64, i64)>, NoMemory>
    requires compiled { IsCompiled cut.now.model cut.now.program cut.now.masks }
    requires number { number < 2 ^ 2 }
    requires walk { IsWalkFrom cut.now.model cut.now.program.kernels cut.now.program.start walk.old }
    ensures { IsWalkFrom cut.now.model cut.now.program.kernels cut.now.program.start walk.new }
{
    let tree = Tree {
        model: &cut.model,
        program: &cut.program,
        masks: &cut.masks,
        start: &cut.program.start,
        depth: 2,
    };
    match walk.path_box_below(alloc, &tree, u64::from(number), Some(best))? {
        None => Ok(None),
        Some(sub) => given_back(walk, sub),
    }
}

/// A number, the best cost, and the bounds where the number leads to.
type Below = (u32, i64, Option<(i64, i64)>);

/// A walk goes from number to number, each with a best cost of its own.
fn assert_below(
    rt: &impl Abort,
    alloc: Global,
    cut: &Compiled,
    steps: &[Below],
) -> Result<(), NoMemory>
    requires { IsCompiled cut.now.model cut.now.program cut.now.masks }
{
    let mut walk = Walk::new(alloc);
    for (number, best, expected) in steps {
        assert!(rt; *number < 4);
        let found = asked_below(alloc, cut, &mut walk, *number, *best)?;
        assert_eq!(rt; found, *expected, "at {number} below {best}");
    }
    Ok(())
}

#[test]
fn what_costs_no_less_is_not_gone_to(rt: HostRuntime) -> Result<(), Fail> {
    const BELOW_ONE: &[Below] = &[
        (0, 1, Some((0, 0))),
        (1, 1, None),
        (2, 1, None),
        (3, 1, None),
    ];
    // nothing costs less than 0, and all costs less than 4
    const BACK_AND_FORTH: &[Below] = &[
        (3, 1, None),
        (3, 4, Some((2, 3))),
        (2, 4, Some((1, 1))),
        (2, 0, None),
        (0, 4, Some((0, 0))),
    ];
    let cut = compile_text(rt.alloc(), LEAST)?;
    for steps in [BELOW_ONE, BACK_AND_FORTH] {
        assert_below(&rt, rt.alloc(), &cut, steps)?;
    }
    Ok(())
}

#[test]
fn what_costs_less_is_gone_to(rt: HostRuntime) -> Result<(), Fail> {
    const BELOW_ONE: &[Below] = &[
        (0, 1, Some((0, 0))),
        (1, 1, Some((1, 1))),
        (2, 1, None),
        (3, 1, None),
        (3, 3, Some((3, 3))),
    ];
    let cut = compile_text(rt.alloc(), LEAST_OF_HALVES)?;
    assert_below(&rt, rt.alloc(), &cut, BELOW_ONE)?;
    Ok(())
}
