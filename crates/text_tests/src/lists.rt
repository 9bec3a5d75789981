//! A list is filled, read and given back; a name is the bytes that it was made of.

use list_of::ListOf;
use names::Name;
use std::test::Fail;

#[test]
fn a_list_is_filled_read_and_given_back(rt: HostRuntime) -> Result<(), Fail> {
    let mut list = ListOf::new(rt.alloc());
    assert!(rt; list.is_empty());
    for number in [3u8, 1, 2] {
        list.push(number)?;
    }
    assert_eq!(rt; list.len(), 3);
    assert_eq!(rt; list.as_slice(), [3u8, 1, 2].as_slice());
    let back = ListOf::from_vec(list.into_vec());
    assert_eq!(rt; back.as_slice(), [3u8, 1, 2].as_slice());
    Ok(())
}

/// Names around the length from which on their bytes are kept apart.
const NAMES: [&[u8]; 5] = [
    b"",
    b"x",
    b"a_name_of_22_bytes____",
    b"a_name_of_23_bytes_____",
    b"a_name_that_is_much_longer_than_the_others_and_stands_apart",
];

#[test]
fn a_name_is_the_bytes_that_it_was_made_of(rt: HostRuntime) -> Result<(), Fail> {
    for bytes in NAMES {
        let name = Name::new(rt.alloc(), bytes)?;
        assert_eq!(rt; name.as_slice(), bytes);
    }
    Ok(())
}
