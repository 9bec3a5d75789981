//! Boxes of three variables, parted by hand.

ghost use Rattle.std.specs.Prelude.{◌≡◌, length, IfOk};
ghost use Rattle.std.specs.Bool.{OnTrue};
ghost use Rattle.interval.specs.Boxes.{IsProper};
ghost use Rattle.constraint_model.specs.Searches.{IsSearchOf};
ghost use Rattle.branching.specs.Fronts.{FitsBox, left_by};
ghost use Rattle.search_tests.specs.Models.{IsCompiled};

use crate::models::{Compiled, compile_text};
use branching::{Branching, Front, are_fixed, branch_from, choose, law_fronts};
use constraint_model::FznModel;
use interval::{BoxOf, is_crossed};
use memory::NoMemory;
use std::alloc::Global;
use std::process::Abort;
use std::test::Fail;

/// Three variables, where a phase of these words is searched before all of them in order; their bounds are the box.
fn searched_by(alloc: Global, variables: &str, phase: &str) -> Result<Compiled, NoMemory>
    ensures { IfOk result (λ c. IsCompiled c.model c.program c.masks) }
{
    let mut text = String::from_str(alloc, variables)?;
    text.push_str(" solve :: int_search(")?;
    text.push_str(phase)?;
    text.push_str(") satisfy;")?;
    compile_text(alloc, text.as_str())
}

/// Whether there are three variables and no other pairs but that of the constant 1.
fn are_three(model: &FznModel, b: &BoxOf) -> bool
    ensures { OnTrue result ((length model.now.vars ≡ 3) × (length b.now ≡ 4)) }
{
    model.vars.len() == 3 && b.len() == 4
}

/// A variable, and its bounds in the two parts.
type Parted = (u32, (i64, i64), (i64, i64));

/// The first variable whose bounds differ, with them.
fn differing(left: &BoxOf, right: &BoxOf) -> Option<Parted>
    requires left { length left.now ≡ 4 }
    requires right { length right.now ≡ 4 }
{
    for pair in 1..4 {
        let first = (left.low(pair), left.high(pair));
        let second = (right.low(pair), right.high(pair));
        if first != second {
            return Some((pair - 1, first, second));
        }
    }
    None
}

/// Parts the box, and says at which variable and how; none where all are fixed.
fn parts_of(alloc: Global, model: &FznModel, b: &BoxOf) -> Result<Option<Parted>, NoMemory>
    requires vars { length model.now.vars ≡ 3 }
    requires phases { IsSearchOf model.now }
    requires pairs { length b.now ≡ 4 }
{
    let mut left = b.copy(alloc)?;
    let mut right = b.copy(alloc)?;
    if is_crossed(b) || are_fixed(model, b) {
        return Ok(None);
    }
    choose(model, b, &mut left, &mut right);
    Ok(differing(&left, &right))
}

/// Which variable a phase parts, and how; none where all are fixed.
fn parted(alloc: Global, variables: &str, phase: &str) -> Result<Option<Parted>, NoMemory> {
    let searched = searched_by(alloc, variables, phase)?;
    if !are_three(&searched.model, &searched.program.start) {
        return Err(NoMemory);
    }
    parts_of(alloc, &searched.model, &searched.program.start)
}

/// Each box is parted as its phase says.
fn assert_parted(
    rt: &impl Abort,
    alloc: Global,
    table: &[(&str, &str, Option<Parted>)],
) -> Result<(), NoMemory> {
    for (variables, phase, expected) in table {
        let found = parted(alloc, variables, phase)?;
        assert_eq!(rt; found, *expected, "at {phase} of {variables}");
    }
    Ok(())
}

/// Takes the part that comes first.
fn take_first(b: &mut BoxOf, branching: Branching)
    requires { FitsBox b.old branching }
    ensures { b.new ≡ left_by b.old branching }
{
    b.put(branching.pair, branching.left_low, branching.left_high);
}

/// The pairs that a dive into the parts that come first takes. Each step looks on from the front that the one before it
/// reached.
fn steps(alloc: Global, model: &FznModel, b: &mut BoxOf) -> Result<Vec<u32>, NoMemory>
    requires vars { length model.now.vars ≡ 3 }
    requires phases { IsSearchOf model.now }
    requires pairs { length b.old ≡ 4 }
    requires proper { IsProper b.old }
{
    law_fronts();
    let mut pairs = Vec::new(alloc);
    let mut front = Front::first();
    for _ in 0..16 {
        match branch_from(model, b, front) {
            None => return Ok(pairs),
            Some((branching, reached)) => {
                take_first(b, branching);
                front = reached;
                if pairs.push(branching.pair).is_err() {
                    return Err(NoMemory);
                }
            }
        }
    }
    Ok(pairs)
}

/// The pairs of a dive where a phase is searched before all variables in order.
fn dive(alloc: Global, variables: &str, phase: &str) -> Result<Vec<u32>, NoMemory> {
    let searched = searched_by(alloc, variables, phase)?;
    let mut b = searched.program.start.copy(alloc)?;
    if is_crossed(&b) || !are_three(&searched.model, &b) {
        return Err(NoMemory);
    }
    steps(alloc, &searched.model, &mut b)
}

#[test]
fn a_front_passes_over_what_is_fixed(rt: HostRuntime) -> Result<(), Fail> {
    const FIXED: &str = "var 0..2: x; var 5..5: y; var 1..2: z;";
    const OPEN: &str = "var 0..1: x; var 0..4: y; var 0..3: z;";
    let table: &[(&str, &str, &[u32])] = &[
        (FIXED, "[z,y,x],input_order,indomain_min", &[3, 1]),
        (FIXED, "[y],input_order,indomain_min", &[1, 3]),
        (OPEN, "[x,y,z],first_fail,indomain_min", &[1, 3, 2]),
        (OPEN, "[y,x,z],first_fail,indomain_min", &[1, 3, 2]),
        (OPEN, "[z],largest,indomain_min", &[3, 1, 2]),
        (
            "var 0..0: x; var 5..5: y; var 1..1: z;",
            "[x],input_order,indomain_min",
            &[],
        ),
    ];
    for (variables, phase, expected) in table {
        let found = dive(rt.alloc(), variables, phase)?;
        assert_eq!(rt; found.as_slice(), *expected, "at {phase} of {variables}");
    }
    Ok(())
}

/// For the selections of a variable.
const SIZES: &str = "var 2..11: x; var 1..8: y; var 10..13: z;";

/// Variables of one size.
const ALIKE: &str = "var 0..3: x; var 0..3: y; var 0..3: z;";

const FIRST: Parted = (0, (2, 2), (3, 11));

const THIRD: Parted = (2, (10, 10), (11, 13));

const TIED: Parted = (2, (0, 0), (1, 3));

#[test]
fn each_variable_selection_takes_its_variable(rt: HostRuntime) -> Result<(), Fail> {
    let table: &[(&str, &str, Option<Parted>)] = &[
        (SIZES, "[x,y,z],input_order,indomain_min", Some(FIRST)),
        (SIZES, "[x,y,z],first_fail,indomain_min", Some(THIRD)),
        (SIZES, "[x,y,z],anti_first_fail,indomain_min", Some(FIRST)),
        (
            SIZES,
            "[x,y,z],smallest,indomain_min",
            Some((1, (1, 1), (2, 8))),
        ),
        (SIZES, "[x,y,z],largest,indomain_min", Some(THIRD)),
        // the first in the list wins a tie
        (ALIKE, "[z,x,y],input_order,indomain_min", Some(TIED)),
        (ALIKE, "[z,x,y],first_fail,indomain_min", Some(TIED)),
        (ALIKE, "[z,x,y],anti_first_fail,indomain_min", Some(TIED)),
        (ALIKE, "[z,x,y],smallest,indomain_min", Some(TIED)),
        (ALIKE, "[z,x,y],largest,indomain_min", Some(TIED)),
    ];
    assert_parted(&rt, rt.alloc(), table)?;
    Ok(())
}

/// One of three isn't fixed.
const NEGATIVE: &str = "var 0..0: x; var -4..-1: y; var 7..7: z;";

#[test]
fn each_value_selection_parts_at_its_place(rt: HostRuntime) -> Result<(), Fail> {
    let table: &[(&str, &str, Option<Parted>)] = &[
        (
            NEGATIVE,
            "[x,y],first_fail,indomain_min",
            Some((1, (-4, -4), (-3, -1))),
        ),
        (
            NEGATIVE,
            "[x,y],first_fail,indomain_max",
            Some((1, (-1, -1), (-4, -2))),
        ),
        (
            NEGATIVE,
            "[x,y],first_fail,indomain_split",
            Some((1, (-4, -3), (-2, -1))),
        ),
        (
            NEGATIVE,
            "[x,y],first_fail,indomain_reverse_split",
            Some((1, (-2, -1), (-4, -3))),
        ),
        (
            "var 0..0: x; var 1..4: y; var 7..7: z;",
            "[x,y],first_fail,indomain_split",
            Some((1, (1, 2), (3, 4))),
        ),
        (
            "var 0..0: x; var -1..0: y; var 7..7: z;",
            "[x,y],first_fail,indomain_split",
            Some((1, (-1, -1), (0, 0))),
        ),
        (
            "var 0..0: x; var 0..1: y; var 7..7: z;",
            "[x,y],first_fail,indomain_reverse_split",
            Some((1, (1, 1), (0, 0))),
        ),
    ];
    assert_parted(&rt, rt.alloc(), table)?;
    Ok(())
}

#[test]
fn a_phase_of_fixed_variables_is_passed_over(rt: HostRuntime) -> Result<(), Fail> {
    const OPEN: &str = "var 0..0: x; var 3..8: y; var 1..9: z;";
    const SECOND: Parted = (1, (3, 3), (4, 8));
    let table: &[(&str, &str, Option<Parted>)] = &[
        (OPEN, "[x],smallest,indomain_max", Some(SECOND)),
        (OPEN, "[],smallest,indomain_max", Some(SECOND)),
        (
            OPEN,
            "[x,z],largest,indomain_max",
            Some((2, (9, 9), (1, 8))),
        ),
        (
            "var 0..0: x; var 3..3: y; var 9..9: z;",
            "[x,z],largest,indomain_max",
            None,
        ),
    ];
    assert_parted(&rt, rt.alloc(), table)?;
    Ok(())
}
