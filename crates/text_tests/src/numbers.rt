//! Sets as ranges, and constants that are found by their value.

use constraint_model::{Constants, range_of, ranges_of};
use shared_list::SharedList;
use std::alloc::{AllocError, Global};
use std::test::Fail;

/// Numbers with the greatest ranges of their set.
struct Case {
    numbers: &'static [i64],
    ranges: &'static [(i64, i64)],
}

const CASES: &[Case] = &[
    Case {
        numbers: &[],
        ranges: &[],
    },
    Case {
        numbers: &[3, 1, 2, 7],
        ranges: &[(1, 3), (7, 7)],
    },
    Case {
        numbers: &[5, 5, 5],
        ranges: &[(5, 5)],
    },
    Case {
        numbers: &[4, -4, 4, -3, 0],
        ranges: &[(-4, -3), (0, 0), (4, 4)],
    },
    Case {
        numbers: &[i64::MAX, i64::MIN, i64::MIN + 1],
        ranges: &[(i64::MIN, i64::MIN + 1), (i64::MAX, i64::MAX)],
    },
];

fn ranges(alloc: Global, numbers: &[i64]) -> Result<SharedList<(i64, i64)>, AllocError> {
    ranges_of(alloc, Vec::from_slice(alloc, numbers)?)
}

#[test]
fn sets_are_their_greatest_ranges(rt: HostRuntime) -> Result<(), Fail> {
    for case in CASES {
        assert_eq!(rt; ranges(rt.alloc(), case.numbers)?.as_slice(), case.ranges);
    }
    Ok(())
}

#[test]
fn an_interval_is_one_range_or_none(rt: HostRuntime) -> Result<(), Fail> {
    for (low, high, expected) in [(-2, 5, [(-2, 5)].as_slice()), (1, 0, &[])] {
        assert_eq!(rt; range_of(rt.alloc(), low, high)?.as_slice(), expected);
    }
    Ok(())
}

/// Numbers that are added in turn, how many constants are kept then, and what is added to these. What is there at the
/// end, and the places of two numbers.
struct Added {
    first: &'static [i64],
    kept: usize,
    more: &'static [i64],
    all: &'static [i64],
    asked: (i64, i64),
    places: (usize, usize),
}

const ADDED: &[Added] = &[
    Added {
        first: &[7, -3, 7, 0, -3],
        kept: 3,
        more: &[],
        all: &[7, -3, 0],
        asked: (0, 5),
        places: (2, 3),
    },
    Added {
        first: &[7, -3, 7, 0, -3],
        kept: 1,
        more: &[],
        all: &[7],
        asked: (7, 0),
        places: (0, 1),
    },
    Added {
        first: &[7, -3, 7, 0, -3],
        kept: 1,
        more: &[5, 0],
        all: &[7, 5, 0],
        asked: (5, 0),
        places: (1, 2),
    },
];

/// Adds numbers in turn.
fn add_all(found: &mut Constants, numbers: &[i64]) -> Result<(), AllocError> {
    for number in numbers {
        found.add(*number)?;
    }
    Ok(())
}

/// The constants that are there at the end.
fn constants_of(alloc: Global, added: &Added) -> Result<Constants, AllocError> {
    let mut found = Constants::new(alloc);
    add_all(&mut found, added.first)?;
    found.truncate(added.kept);
    add_all(&mut found, added.more)?;
    Ok(found)
}

#[test]
fn constants_are_found_by_their_value(rt: HostRuntime) -> Result<(), Fail> {
    for added in ADDED {
        let found = constants_of(rt.alloc(), added)?;
        assert_eq!(rt; found.as_slice(), added.all);
        let places = (found.place_of(added.asked.0), found.place_of(added.asked.1));
        assert_eq!(rt; places, added.places);
    }
    Ok(())
}
