//! Sets of 130 variables or kernels.

ghost use Rattle.std.specs.Prelude.{◌≡◌, length, IfOk};

use memory::NoMemory;
use moved_set::{AskedSet, MovedSet};
use std::alloc::Global;
use std::test::Fail;

/// Which of the variables 0, 6, 64, 70 and 129 are in the set.
fn some_of(set: &MovedSet) -> [bool; 5]
    requires { length set.now ≡ 130 }
{
    [
        set.contains(0),
        set.contains(6),
        set.contains(64),
        set.contains(70),
        set.contains(129),
    ]
}

#[test]
fn sets_have_what_was_put_in(rt: HostRuntime) -> Result<(), Fail> {
    let mut moved = MovedSet::new(rt.alloc(), 130)?;
    moved.mark(64);
    moved.mark(129);
    assert_eq!(rt; some_of(&moved), [false, false, true, false, true]);
    moved.clear();
    assert_eq!(rt; some_of(&moved), [false; 5]);
    moved.mark_all();
    assert_eq!(rt; some_of(&moved), [true; 5]);
    assert_eq!(rt; moved.len(), 130);
    Ok(())
}

/// The kernels 0, 32, 64, 95, 96 and 128 of 130.
fn around_words(alloc: Global) -> Result<AskedSet, NoMemory>
    ensures { IfOk result (λ asked. length asked ≡ 130) }
{
    let mut asked = AskedSet::new(alloc, 130)?;
    asked.ask_all();
    for j in 0..130 {
        if j % 32 != 0 && j != 95 {
            asked.forget(j);
        }
    }
    Ok(asked)
}

#[test]
fn kernels_are_found_around_the_ends_of_words(rt: HostRuntime) -> Result<(), Fail> {
    let asked = around_words(rt.alloc())?;
    for (from, next) in [
        (0, 0),
        (1, 32),
        (33, 64),
        (65, 95),
        (96, 96),
        (97, 128),
        (129, 130),
    ] {
        assert_eq!(rt; asked.next(from), next);
    }
    for (to, last) in [
        (130, 129),
        (128, 97),
        (96, 96),
        (95, 65),
        (64, 33),
        (32, 1),
        (0, 0),
    ] {
        assert_eq!(rt; asked.next_back(to), last);
    }
    Ok(())
}

#[test]
fn a_set_is_empty_at_first_and_once_cleared(rt: HostRuntime) -> Result<(), Fail> {
    let mut asked = AskedSet::new(rt.alloc(), 130)?;
    assert_eq!(rt; (asked.next(0), asked.next_back(130)), (130, 0));
    asked.ask_all();
    assert_eq!(rt; (asked.next(0), asked.next_back(130)), (0, 130));
    asked.clear();
    assert_eq!(rt; (asked.next(0), asked.next_back(130)), (130, 0));
    assert_eq!(rt; asked.len(), 130);
    Ok(())
}
