//! All that was drawn.

ghost use Rattle.std.specs.Prelude.{◌≡◌, ◌<◌, ◌≤◌, ◌+◌, ◌++◌, ℕ, [], true, false, map, flat_map, length, vec_capacity, IsOk, IfOk, IfErr, OnOk, Err};
ghost use Rattle.std.specs.List.{All, list_all};
ghost use Rattle.tickets.specs.Counting.{IsEachOnce};
ghost use Rattle.steal_crew.specs.Hands.{AreHandsOfOneDeal, all_drawn, count_of, drawn_of, is_done};

use crate::hand::Hand;
use crate::settling::{are_done, settle};
use tickets::law_counting;

/// Some hand isn't done: its last answer wasn't that it found no number.
#[derive(Drop)]
pub struct NotDone {
    /// All hands of the deal, which may go on.
    pub hands: Vec<Hand>,
}

/// Puts a list behind another, which has room for it.
fn put_behind(numbers: &mut Vec<u32>, more: Vec<u32>)
    requires { length numbers.old.items + length more.items ≤ vec_capacity numbers.old }
    ensures items { numbers.new.items ≡ numbers.old.items ++ more.items }
    ensures capacity { vec_capacity numbers.old ≤ vec_capacity numbers.new }
{
    let mut more = more;
    let Ok(()) = numbers.append(&mut more) else {
        unreachable!()
    };
}

/// The lists of what was drawn one after the other, in the room of the first.
fn join_lists(hands: Vec<Hand>) -> Vec<u32>
    requires some { 1 ≤ length hands.items }
    requires room { All (λ hand. length (all_drawn hands.items) ≤ count_of hand) hands.items }
    ensures { result.items ≡ all_drawn hands.items }
{
    let mut hands = hands;
    let Hand {
        drawn: mut numbers,
        ..
    } = hands.remove(0);
    for hand in hands {
        let Hand { drawn, .. } = hand;
        put_behind(&mut numbers, drawn);
    }
    numbers
}

/// All that the hands of a deal have drawn, one list after the other: each number once. NotDone with the hands where one of them
/// hasn't answered yet that it found no number, or a number wasn't drawn, and nowhere else. It takes no memory, as the first list
/// has room for all.
pub fn gather(hands: Vec<Hand>) -> Result<Vec<u32>, NotDone>
    requires { (n : ℕ) × AreHandsOfOneDeal n hands.items }
    ensures all { (n : ℕ) → AreHandsOfOneDeal n hands.items → IfOk result (λ numbers. IsEachOnce n numbers.items) }
    ensures lists { IfOk result (λ numbers. numbers.items ≡ all_drawn hands.items) }
    ensures done { OnOk result (list_all is_done hands.items ≡ true) }
    ensures complete { (n : ℕ) → AreHandsOfOneDeal n hands.items → list_all is_done hands.items ≡ true → IsEachOnce n (all_drawn hands.items) → IsOk result }
    ensures at_once { list_all is_done hands.items ≡ false → result ≡ Err (record { hands = hands }) }
    ensures not_done { IfErr result (λ left. list_all is_done left.hands.items ≡ false) }
    ensures deal { (n : ℕ) → AreHandsOfOneDeal n hands.items → IfErr result (λ left. AreHandsOfOneDeal n left.hands.items) }
    ensures drawn { IfErr result (λ left. map drawn_of left.hands.items ≡ map drawn_of hands.items) }
{
    if !are_done(&hands) {
        return Err(NotDone { hands });
    }
    let mut hands = hands;
    if !settle(&mut hands) {
        return Err(NotDone { hands });
    }
    // As many numbers were drawn as there are, so they fit into the room of the first hand.
    law_counting();
    Ok(join_lists(hands))
}
