//! Two threads that share a deal, a hand each.

ghost use Rattle.std.specs.Prelude.{◌≡◌, ◌<◌, ◌≤◌, ℕ, length, slice_index_or};
ghost use Rattle.steal_crew.specs.declared.hand.Hand.{Hand};
ghost use Rattle.steal_crew.specs.Hands.{AreHandsOfOneDeal, IsSameHand};

use std::sync::atomic::{AtomicBool, Ordering};
use std::test::Fail;
use std::thread::{Threads, for_each_mut, yield_now};
use steal_crew::{Hand, deal, gather, law_hands};

/// Holds hand 0 before its first draw until hand 1 has drawn so many numbers, and hand 1 before its first draw until hand 0
/// has come to its own.
#[derive(Drop)]
struct Meeting {
    until: u64,
    has_begun: AtomicBool,
    has_drawn: AtomicBool,
    gave_up: AtomicBool,
}

impl Meeting {
    fn after(until: u64) -> Meeting {
        Meeting {
            until,
            has_begun: AtomicBool::new(false),
            has_drawn: AtomicBool::new(false),
            gave_up: AtomicBool::new(false),
        }
    }

    /// Waits for the other hand, for so many turns in which others may run.
    fn wait_for(&self, flag: &AtomicBool) {
        for _ in 0..20_000_000u32 {
            if flag.load(Ordering::SeqCst) {
                return;
            }
            yield_now();
        }
        self.gave_up.store(true, Ordering::SeqCst);
    }

    /// The hand at this place is about to draw, and has drawn so many numbers.
    fn pass(&self, place: usize, drawn: u64) {
        if place == 0 && drawn == 0 {
            self.has_begun.store(true, Ordering::SeqCst);
            self.wait_for(&self.has_drawn);
        }
        if place == 1 && drawn == 0 {
            self.wait_for(&self.has_begun);
        }
        if place == 1 && drawn == self.until {
            self.has_drawn.store(true, Ordering::SeqCst);
        }
    }

    /// Whether both passes that were waited for were called, and no wait gave up.
    fn was_passed(&self) -> bool {
        let has_begun = self.has_begun.load(Ordering::SeqCst);
        let has_drawn = self.has_drawn.load(Ordering::SeqCst);
        has_begun && has_drawn && !self.gave_up.load(Ordering::SeqCst)
    }
}

/// Draws until nothing is left.
fn draw_all(meeting: &Meeting, place: usize, hand: &mut Hand)
    ensures { IsSameHand hand.old hand.new }
{
    law_hands();
    let mut drawn = 0u64;
    meeting.pass(place, drawn);
    while hand.take().is_some() {
        drawn = drawn.saturating_add(1);
        meeting.pass(place, drawn);
    }
}

/// Has each hand draw in a thread of its own until nothing is left.
fn draw_each<R: Threads + Sync>(rt: &R, hands: &mut [Hand], meeting: &Meeting)
    requires { 0 < length hands.old }
    ensures { (i : ℕ) (d : Hand) → i < length hands.old → IsSameHand (slice_index_or hands.old i d) (slice_index_or hands.new i d) }
{
    let threads = hands.len();
    for_each_mut(
        rt,
        hands,
        threads,
        &|place, hand: &mut Hand|
            ensures { IsSameHand hand.entry.now hand.exit.now }
        { draw_all(meeting, place, hand) },
    );
}

/// Has the hands of a deal draw side by side until nothing is left.
fn draw_side_by_side<R: Threads + Sync>(rt: &R, hands: &mut Vec<Hand>, meeting: &Meeting)
    requires { (n : ℕ) × AreHandsOfOneDeal n hands.old.items }
    ensures length { length hands.new.items ≡ length hands.old.items }
    ensures deal { (n : ℕ) × AreHandsOfOneDeal n hands.new.items }
{
    law_hands();
    draw_each(rt, hands, meeting);
}

/// Whether these are the numbers from 0 on, each once.
fn are_all(numbers: &[u32], count: usize) -> bool {
    numbers.len() == count
        && numbers
            .iter()
            .enumerate()
            .all(|(place, number)| *number as usize == place)
}

#[test]
fn two_threads_draw_each_number_once(rt: HostRuntime) -> Result<(), Fail> {
    let mut hands = deal(rt.alloc(), 1000, 2)?;
    let meeting = Meeting::after(1);
    draw_side_by_side(&rt, &mut hands, &meeting);
    assert!(rt; meeting.was_passed());
    let Ok(mut numbers) = gather(hands) else {
        assert!(rt; false);
        return Ok(());
    };
    numbers.sort()?;
    assert!(rt; are_all(&numbers, 1000));
    Ok(())
}

#[test]
fn one_thread_steals_what_was_dealt_to_the_other(rt: HostRuntime) -> Result<(), Fail> {
    let mut hands = deal(rt.alloc(), 7, 2)?;
    let meeting = Meeting::after(7);
    draw_side_by_side(&rt, &mut hands, &meeting);
    assert!(rt; meeting.was_passed());
    assert!(rt; hands[0].drawn().is_empty());
    assert!(rt; hands[1].drawn() == [1, 3, 5, 0, 2, 4, 6].as_slice());
    Ok(())
}
