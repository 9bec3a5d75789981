//! A right at the deque of another hand.

ghost use Rattle.std.specs.Prelude.{◌≡◌, ◌≤◌};
ghost use Rattle.std.proofs.Props.{props};
ghost use Rattle.crossbeam_deque.specs.Handles.{view, IsPassOf, stealer_deque, stealer_flavor};
ghost use Rattle.steal_crew.specs.Numbers.{IsPart};

use crate::deque::View;
use crate::steps::Thief;
use crossbeam_deque::Pass;

/// Another hand's deque, and the right to take from it.
#[derive(Drop)]
pub struct Victim {
    /// The number of the hand whose deque it is.
    pub(crate) of: u32,
    pub(crate) stealer: Thief,
    pub(crate) pass: Pass<u32, View>,
    ghost fifo: { stealer_flavor stealer ≡ 0 },
    ghost of_deque: { IsPassOf (stealer_deque stealer) pass } by { Prim.hlevel props },
    ghost live: { 1 ≤ (view pass).parts },
    ghost within: { IsPart (view pass).taken (view pass).dealt } by { Prim.hlevel props },
}
