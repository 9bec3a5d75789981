//! Lanes that narrow together.

ghost use Rattle.std.specs.Prelude.{◌≡◌, ◌<◌, ◌≤◌, ◌↔◌, length, All, IsTrue, IfOk, OnOk, OnErr};
ghost use Rattle.interval.specs.Limits.{box_limit};
ghost use Rattle.interval.specs.Boxes.{IsInside, low_of, high_of, put_of};
ghost use Rattle.fixpoint_laws.specs.Rounds.{HaveRun};
ghost use Rattle.guarded_tell.specs.Kernels.{IsKernel};
ghost use Rattle.narrowing.specs.Narrowing.{IsNarrowed};
ghost use Rattle.narrowing.specs.Narrowers.{AreLanesFor};
ghost use Rattle.rounds.specs.Shares.{share_limit};

use crate::alone::flat_box;
use crate::narrowed::Narrowed;
use crate::propagation::Propagation;
use fixpoint_laws::{Limited, law_rounds_lead};
use gate::Gate;
use guarded_tell::Kernel;
use interval::{BoxOf, law_inside_order};
use memory::NoMemory;
use rounds::{Engine, Work, even_cut};
use std::alloc::Global;
use std::thread::Threads;
use trailed_box::TrailedBox;

/// Lanes over shared bounds, the kernels that each of them runs, and the box where they end.
#[derive(Drop)]
pub struct Lanes {
    pub(crate) engine: Engine,
    pub(crate) cut: Vec<Vec<u32>>,
    pub(crate) into: BoxOf,
}

/// Whether these are the bounds of variable `v`.
fn are_bounds(b: &TrailedBox, v: u32, low: i64, high: i64) -> bool
    requires { v < length b.now.current }
    ensures { IsTrue result ↔ ((low ≡ low_of b.now.current v) × (high ≡ high_of b.now.current v)) }
{
    low == b.low(v) && high == b.high(v)
}

/// Gives variable `v` its bounds in the other box.
fn take_bounds_of(b: &mut TrailedBox, other: &BoxOf, v: u32) -> Result<(), NoMemory>
    requires variable { v < length b.old.current }
    requires other { length other.now ≡ length b.old.current }
    ensures current { OnOk result (b.new.current ≡ put_of b.old.current v (low_of other.now v) (high_of other.now v)) }
    ensures stack { b.new.stack ≡ b.old.stack }
    ensures same_length { length b.new.current ≡ length b.old.current }
    ensures err { OnErr result (b.new.current ≡ b.old.current) }
{
    let (low, high) = (other.low(v), other.high(v));
    if are_bounds(b, v, low, high) {
        return Ok(());
    }
    b.put(v, low, high)?;
    Ok(())
}

/// Gives the box the bounds of the other, where they aren't the same. The stack stays as it is. Where memory is refused some
/// variables have the bounds of the other, and some their own.
fn take_bounds(b: &mut TrailedBox, other: &BoxOf) -> Result<(), NoMemory>
    requires { length other.now ≡ length b.old.current }
    ensures current { OnOk result (b.new.current ≡ other.now) }
    ensures stack { b.new.stack ≡ b.old.stack }
    ensures same_length { length b.new.current ≡ length b.old.current }
    ensures inside { IsInside other.now b.old.current → OnErr result (IsInside b.new.current b.old.current) }
    ensures around { IsInside other.now b.old.current → OnErr result (IsInside other.now b.new.current) }
{
    law_inside_order();
    for v in 0..other.len() {
        take_bounds_of(b, other, v)?;
    }
    Ok(())
}

impl Lanes {
    /// So many lanes for these kernels and boxes of so many variables. More than 2^32 kernels count as refused memory.
    pub(crate) fn new(
        alloc: Global,
        kernels: &[Kernel],
        len: u32,
        lanes: u32,
    ) -> Result<Lanes, NoMemory>
        requires len { len ≤ box_limit }
        requires several { 1 < lanes }
        requires short { lanes ≤ share_limit }
        ensures fits { IfOk result (λ made. AreLanesFor made kernels.now len) }
        ensures lanes { IfOk result (λ made. length made.cut.items ≡ lanes) }
    {
        if u32::try_from(kernels.len()).is_err() {
            return Err(NoMemory);
        }
        Ok(Lanes {
            engine: Engine::new(alloc, len, lanes)?,
            cut: even_cut(alloc, kernels, lanes)?,
            into: flat_box(alloc, len)?,
        })
    }

    /// Narrows the box by all kernels, round by round. A box that isn't fixed stays as it is.
    pub(crate) fn narrow<R: Threads + Sync, L: Gate + Sync>(
        &mut self,
        rt: &R,
        alloc: Global,
        what: &Propagation<'_, L>,
        b: &mut TrailedBox,
    ) -> Result<Narrowed, NoMemory>
        requires kernels { All (IsKernel (length b.old.current)) what.now.kernels.now }
        requires fits { AreLanesFor self.old what.now.kernels.now (length b.old.current) }
        ensures fits { AreLanesFor self.new what.now.kernels.now (length b.old.current) }
        ensures lanes { self.new.cut ≡ self.old.cut }
        ensures stack { b.new.stack ≡ b.old.stack }
        ensures same_length { length b.new.current ≡ length b.old.current }
        ensures narrowed { IfOk result (IsNarrowed what.now.kernels.now what.now.round_limit b.old.current b.new.current) }
        ensures err { OnErr result (HaveRun what.now.kernels.now b.old.current b.new.current) }
    {
        law_inside_order();
        law_rounds_lead();
        let work = Work {
            start: b.current(),
            kernels: what.kernels,
            cut: self.cut.as_slice(),
            round_limit: what.round_limit,
            gate: what.gate,
        };
        match self.engine.propagate(rt, alloc, &work, &mut self.into)? {
            Limited::Fixed { rounds } => {
                take_bounds(b, &self.into)?;
                Ok(Narrowed::Fixed { rounds })
            }
            Limited::Failed { rounds } => Ok(Narrowed::Failed { rounds }),
            Limited::RoundsSpent { rounds } => Ok(Narrowed::GivenUp { rounds }),
        }
    }
}
