//! Numbers that hands take from their own deques and then from each other's.

ghost use Rattle.std.specs.Prelude.{◌≡◌, ◌<◌, ℕ, length};
ghost use Rattle.steal_crew.specs.Hands.{AreHandsOfOneDeal};

use std::process::Abort;
use std::test::Fail;
use steal_crew::{Hand, deal, gather, law_hands};

/// Has the hand at this place take a number.
fn take_at(hands: &mut Vec<Hand>, place: usize) -> Option<u32>
    requires place { place < length hands.old.items }
    requires deal { (n : ℕ) × AreHandsOfOneDeal n hands.old.items }
    ensures length { length hands.new.items ≡ length hands.old.items }
    ensures deal { (n : ℕ) × AreHandsOfOneDeal n hands.new.items }
{
    law_hands();
    hands[place].take()
}

/// The hand at this place gives these numbers, and then none.
fn assert_takes(rt: &impl Abort, hands: &mut Vec<Hand>, place: usize, numbers: &[u32])
    requires place { place < length hands.old.items }
    requires deal { (n : ℕ) × AreHandsOfOneDeal n hands.old.items }
    ensures length { length hands.new.items ≡ length hands.old.items }
    ensures deal { (n : ℕ) × AreHandsOfOneDeal n hands.new.items }
{
    for number in numbers {
        assert_eq!(rt; take_at(hands, place), Some(*number));
    }
    assert_eq!(rt; take_at(hands, place), None);
}

/// All that was drawn, or nothing where a hand isn't done.
fn gathered(hands: Vec<Hand>) -> Option<Vec<u32>>
    requires { (n : ℕ) × AreHandsOfOneDeal n hands.items }
{
    match gather(hands) {
        Ok(numbers) => Some(numbers),
        Err(_left) => None,
    }
}

/// Whether these numbers come out, in this order.
fn are(numbers: Option<Vec<u32>>, expected: &[u32]) -> bool {
    match numbers {
        Some(numbers) => numbers.as_slice() == expected,
        None => false,
    }
}

#[test]
fn a_hand_takes_its_own_first(rt: HostRuntime) -> Result<(), Fail> {
    let mut hands = deal(rt.alloc(), 5, 2)?;
    assert_takes(&rt, &mut hands, 0, &[0, 2, 4, 1, 3]);
    assert_takes(&rt, &mut hands, 1, &[]);
    assert!(rt; hands[0].drawn() == [0, 2, 4, 1, 3].as_slice());
    assert!(rt; hands[1].drawn().is_empty());
    assert!(rt; are(gathered(hands), &[0, 2, 4, 1, 3]));
    Ok(())
}

#[test]
fn a_hand_tries_the_next_one_first(rt: HostRuntime) -> Result<(), Fail> {
    let mut hands = deal(rt.alloc(), 4, 4)?;
    assert_takes(&rt, &mut hands, 2, &[2, 3, 0, 1]);
    assert_takes(&rt, &mut hands, 0, &[]);
    assert_takes(&rt, &mut hands, 1, &[]);
    assert_takes(&rt, &mut hands, 3, &[]);
    assert!(rt; are(gathered(hands), &[2, 3, 0, 1]));
    Ok(())
}

#[test]
fn hands_that_are_not_done_go_on(rt: HostRuntime) -> Result<(), Fail> {
    let mut hands = deal(rt.alloc(), 5, 2)?;
    assert_takes(&rt, &mut hands, 0, &[0, 2, 4, 1, 3]);
    let Err(left) = gather(hands) else {
        assert!(rt; false);
        return Ok(());
    };
    let mut hands = left.hands;
    assert_eq!(rt; hands.len(), 2);
    if hands.len() == 2 {
        assert_takes(&rt, &mut hands, 1, &[]);
        assert!(rt; are(gathered(hands), &[0, 2, 4, 1, 3]));
    }
    Ok(())
}

#[test]
fn one_hand_has_all(rt: HostRuntime) -> Result<(), Fail> {
    let mut hands = deal(rt.alloc(), 3, 1)?;
    assert_takes(&rt, &mut hands, 0, &[0, 1, 2]);
    assert!(rt; are(gathered(hands), &[0, 1, 2]));
    Ok(())
}

#[test]
fn there_may_be_more_hands_than_numbers(rt: HostRuntime) -> Result<(), Fail> {
    let mut hands = deal(rt.alloc(), 2, 4)?;
    assert_takes(&rt, &mut hands, 3, &[0, 1]);
    assert_takes(&rt, &mut hands, 0, &[]);
    assert_takes(&rt, &mut hands, 1, &[]);
    assert_takes(&rt, &mut hands, 2, &[]);
    assert!(rt; are(gathered(hands), &[0, 1]));
    Ok(())
}

#[test]
fn of_no_numbers_none_is_taken(rt: HostRuntime) -> Result<(), Fail> {
    let mut hands = deal(rt.alloc(), 0, 2)?;
    assert_takes(&rt, &mut hands, 0, &[]);
    assert_takes(&rt, &mut hands, 1, &[]);
    assert!(rt; are(gathered(hands), &[]));
    Ok(())
}
