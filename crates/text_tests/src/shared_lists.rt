//! Shared lists with one owner and with two.

use shared_list::SharedList;
use std::alloc::{AllocError, Global};
use std::test::Fail;

/// Takes what several threads may read.
fn is_for_threads<T: Send + Sync>(_value: &T) {}

/// The numbers below `count`.
fn numbers(alloc: Global, count: u32) -> Result<Vec<u32>, AllocError> {
    let mut numbers = Vec::new(alloc);
    for number in 0..count {
        numbers.push(number)?;
    }
    Ok(numbers)
}

/// A list with the mark 7.
fn marked(alloc: Global, count: u32) -> Result<SharedList<u32>, AllocError> {
    SharedList::with_mark(numbers(alloc, count)?, 7)
}

#[test]
fn a_list_has_its_elements(rt: HostRuntime) -> Result<(), Fail> {
    let list = SharedList::from_vec(Vec::from_slice(rt.alloc(), &[3u8, 1, 2])?)?;
    assert_eq!(rt; list.as_slice(), [3u8, 1, 2].as_slice());
    assert_eq!(rt; list.len(), 3);
    assert!(rt; SharedList::<u8>::empty(rt.alloc()).is_empty());
    Ok(())
}

#[test]
fn a_long_list_has_two_owners_and_a_short_one_is_copied(rt: HostRuntime) -> Result<(), Fail> {
    for (count, mark) in [
        (0, None),
        (1, None),
        (2, None),
        (3, None),
        (64, None),
        (65, Some(7)),
        (100, Some(7)),
    ] {
        let list = marked(rt.alloc(), count)?;
        assert_eq!(rt; list.mark_if_shared(), None);
        let other = list.share(rt.alloc())?;
        is_for_threads(&other);
        assert_eq!(rt; list.mark_if_shared(), mark);
        drop(list);
        assert_eq!(rt; other.mark_if_shared(), None);
        let expected = numbers(rt.alloc(), count)?;
        assert_eq!(rt; other.as_slice(), expected.as_slice());
    }
    Ok(())
}
