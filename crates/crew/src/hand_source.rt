//! Numbers that are dealt to hands, which steal from each other.

ghost use Rattle.std.specs.Prelude.{◌≡◌, ◌≤◌, ℕ, [], true, length, flat_map, IfOk};
ghost use Rattle.std.specs.Bool.{OnTrue};
ghost use Rattle.std.specs.List.{All};
ghost use Rattle.tickets.specs.Counting.{times, IsEachOnce};
ghost use Rattle.steal_crew.specs.Hands.{IsSameHand, drawn_of};
ghost use Rattle.crew.specs.Rights.{AreDrawn};
ghost use Rattle.crew.specs.HandRights.{numbers_dealt, IsHandOf, HasNoneLeft, hand_left, AreHandsOf};

use crate::source::{Dealt, Source};
use memory::NoMemory;
use std::alloc::Global;
use steal_crew::{Hand, deal, law_hands, settle};

/// What the hands were dealt.
#[derive(Drop)]
pub struct HandSource {
    /// How many numbers there are.
    pub(crate) count: u32,
}

impl Source<Hand> for HandSource {
    ghost count = { numbers_dealt };

    ghost is_right = { IsHandOf };

    ghost drawn = { drawn_of };

    ghost has_passed = { HasNoneLeft };

    ghost most_left = { hand_left };

    ghost same = { IsSameHand };

    ghost are_dealt = { AreHandsOf };

    fn next(&self, right: &mut Hand) -> Option<u32> {
        law_hands();
        right.take()
    }

    fn gather(self, rights: Vec<Hand>) -> bool
        requires rights { All (IsHandOf self) rights.items }
        requires all { AreDrawn (AreHandsOf self) IsSameHand rights.items }
        ensures once { (k : ℕ) → times k (flat_map drawn_of rights.items) ≤ 1 }
        ensures below { (k : ℕ) → numbers_dealt self ≤ k → times k (flat_map drawn_of rights.items) ≡ 0 }
        ensures each_once { OnTrue result (All (HasNoneLeft self) rights.items → IsEachOnce (numbers_dealt self) (flat_map drawn_of rights.items)) }
        ensures full { All (HasNoneLeft self) rights.items → IsEachOnce (numbers_dealt self) (flat_map drawn_of rights.items) → result ≡ true }
    {
        law_hands();
        let mut hands = rights;
        settle(&mut hands)
    }
}

/// The numbers below `count`, and the hands of so many workers.
pub(crate) fn deal_hands(
    alloc: Global,
    count: u32,
    workers: u32,
) -> Result<Dealt<HandSource, Hand>, NoMemory>
    requires some { 1 ≤ workers }
    requires few { workers ≤ 64 }
    ensures numbers { IfOk result (λ dealt. numbers_dealt dealt.source ≡ count) }
    ensures workers { IfOk result (λ dealt. length dealt.rights.items ≡ workers) }
    ensures all { IfOk result (λ dealt. AreHandsOf dealt.source dealt.rights.items) }
    ensures rights { IfOk result (λ dealt. All (IsHandOf dealt.source) dealt.rights.items) }
    ensures idle { IfOk result (λ dealt. All (λ hand. drawn_of hand ≡ []) dealt.rights.items) }
{
    let rights = deal(alloc, count, workers)?;
    Ok(Dealt {
        source: HandSource { count },
        rights,
    })
}
