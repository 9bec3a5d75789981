//! Propagation by one thread.

ghost use Rattle.std.specs.Prelude.{◌≡◌, ◌≢◌, ◌<◌, ◌≤◌, ◌+◌, ◌≤ℤ◌, length, slice_index, IsTrue, IsFalse, ◌↔◌};
ghost use Rattle.std.specs.Bool.{OnTrue, OnFalse};
ghost use Rattle.std.specs.List.{All};
ghost use Rattle.interval.specs.Boxes.{Bounds, IsCrossed, IsProper, IsInside, width_sum_of};
ghost use Rattle.interval.specs.Limits.{IsBound};
ghost use Rattle.guarded_tell.specs.Words.{IsProperIn, AgreeIn};
ghost use Rattle.guarded_tell.specs.Kernels.{vars_of, IsKernel, IsClosedUnder};
ghost use Rattle.fixpoint_laws.specs.Fixpoints.{IsClosed, IsGreatest, Fails};
ghost use Rattle.fixpoint_laws.specs.Rounds.{IfFixed, IfFailed, rounds_of, IsJoined, HasRun, HaveRun};

use guarded_tell::{
    Hear, Kernel, Side, Tell, law_local, law_monotone, law_tell_place, visit_tells,
};
use interval::{BoxOf, is_crossed, law_inside_order};

/// How propagation ended, and after how many rounds.
#[derive(Clone, Copy, PartialEq, Eq, Debug)]
pub enum Settled {
    /// The box is the greatest closed box inside the start.
    Fixed { rounds: u128 },
    /// No closed box is inside the start. The box is crossed.
    Failed { rounds: u128 },
}

/// Joins tells into a box, and notes whether one moved it.
#[derive(Drop)]
struct Joiner<'a> {
    b: &'a mut BoxOf,
    moved: bool,
}

impl Hear for Joiner<'_> {
    ghost can_hear = { λ h t. (t.var < length h.b.now) × IsBound t.bound };

    ghost hears = { λ h t after. IsJoined h.b.now h.moved t after.b.now after.moved × (after.b.ghost_name ≡ h.b.ghost_name) };

    fn hear(&mut self, t: Tell) {
        let low = self.b.low(t.var);
        let high = self.b.high(t.var);
        match t.side {
            Side::Low => {
                if low < t.bound {
                    self.b.put(t.var, t.bound, high);
                    self.moved = true;
                }
            }
            Side::High => {
                if t.bound < high {
                    self.b.put(t.var, low, t.bound);
                    self.moved = true;
                }
            }
        }
    }
}

/// Copies the bounds of the variables that the kernel names, unless one of them has no number left: what is copied is then
/// a part. A kernel tells the same on the copy as on the box itself.
pub fn copy_variables(kernel: &Kernel, from: &BoxOf, into: &mut BoxOf) -> bool
    requires kernel { IsKernel (length from.now) kernel.now }
    requires length { length into.old ≡ length from.now }
    ensures length { length into.new ≡ length from.now }
    ensures agree { OnTrue result (AgreeIn (vars_of kernel.now) into.new from.now) }
    ensures proper { OnTrue result (IsProperIn (vars_of kernel.now) from.now) }
    ensures crossed { OnFalse result (IsCrossed from.now) }
{
    for place in 0..kernel.var_count() {
        let v = kernel.var_at(place);
        let low = from.low(v);
        let high = from.high(v);
        if low > high {
            return false;
        }
        into.put(v, low, high);
    }
    true
}

/// Has a joiner that hasn't moved its box hear the kernel's tells on `spare`.
fn hear_tells(kernel: &Kernel, spare: &BoxOf, joiner: &mut Joiner)
    requires kernel { IsKernel (length joiner.old.b.now) kernel.now }
    requires length { length spare.now ≡ length joiner.old.b.now }
    requires agree { AgreeIn (vars_of kernel.now) spare.now joiner.old.b.now }
    requires proper { IsProperIn (vars_of kernel.now) joiner.old.b.now }
    requires unmoved { IsFalse joiner.old.moved }
    ensures same_box { joiner.new.b.ghost_name ≡ joiner.old.b.ghost_name }
    ensures run { HasRun kernel.now joiner.old.b.now joiner.new.b.now }
    ensures still { OnFalse joiner.new.moved (joiner.new.b.now ≡ joiner.old.b.now) }
    ensures closed { OnFalse joiner.new.moved (IsClosedUnder kernel.now joiner.old.b.now) }
    ensures moved { OnTrue joiner.new.moved (joiner.new.b.now ≢ joiner.old.b.now) }
{
    law_inside_order();
    law_local();
    law_monotone();
    law_tell_place();
    // its contract says that the bounds are in range
    let _length = joiner.b.len();
    visit_tells(kernel, spare, joiner);
}

/// Joins the kernel's tells on `spare` into `b`, and says whether one moved it.
fn join_tells(kernel: &Kernel, b: &mut BoxOf, spare: &BoxOf) -> bool
    requires kernel { IsKernel (length b.old) kernel.now }
    requires length { length spare.now ≡ length b.old }
    requires agree { AgreeIn (vars_of kernel.now) spare.now b.old }
    requires proper { IsProperIn (vars_of kernel.now) b.old }
    ensures run { HasRun kernel.now b.old b.new }
    ensures still { OnFalse result (b.new ≡ b.old) }
    ensures closed { OnFalse result (IsClosedUnder kernel.now b.old) }
    ensures moved { OnTrue result (b.new ≢ b.old) }
{
    let mut joiner = Joiner { b, moved: false };
    hear_tells(kernel, spare, &mut joiner);
    joiner.moved
}

/// Runs the kernel on the box, unless its variables are crossed, and says whether that moved it.
fn run_kernel(kernel: &Kernel, b: &mut BoxOf, spare: &mut BoxOf) -> bool
    requires kernel { IsKernel (length b.old) kernel.now }
    requires length { length spare.old ≡ length b.old }
    ensures length { length spare.new ≡ length b.old }
    ensures run { HasRun kernel.now b.old b.new }
    ensures still { OnFalse result (b.new ≡ b.old) }
    ensures closed { OnFalse result (IsProper b.old → IsClosedUnder kernel.now b.old) }
    ensures moved { OnTrue result (b.new ≢ b.old) }
{
    copy_variables(kernel, b, spare) && join_tells(kernel, b, spare)
}

/// Runs each kernel once, in order, and says whether one moved the box.
fn run_round(kernels: &[Kernel], b: &mut BoxOf, spare: &mut BoxOf) -> bool
    requires kernels { All (IsKernel (length b.old)) kernels.now }
    requires length { length spare.old ≡ length b.old }
    ensures length { length spare.new ≡ length b.old }
    ensures run { HaveRun kernels.now b.old b.new }
    ensures still { OnFalse result (b.new ≡ b.old) }
    ensures closed { OnFalse result (IsProper b.old → IsClosed b.old kernels.now) }
    ensures moved { OnTrue result (b.new ≢ b.old) }
{
    law_inside_order();
    let mut moved = false;
    for kernel in kernels {
        if run_kernel(kernel, b, spare) {
            moved = true;
        }
    }
    moved
}

/// Narrows `b` to the greatest closed box inside it, round by round, until a round moves nothing. Where no closed
/// box is inside, `b` ends crossed. `spare` is where the kernels read from.
pub fn settle_alone(b: &mut BoxOf, spare: &mut BoxOf, kernels: &[Kernel]) -> Settled
    requires kernels { All (IsKernel (length b.old)) kernels.now }
    requires spare { length spare.old ≡ length b.old }
    ensures length { length b.new ≡ length b.old }
    ensures spare { length spare.new ≡ length b.old }
    ensures fixed { IfFixed result (λ rounds. IsGreatest b.new b.old kernels.now) }
    ensures failed { IfFailed result (λ rounds. Fails b.old kernels.now) }
    ensures crossed { IfFailed result (λ rounds. IsCrossed b.new) }
    ensures at_once { (rounds_of result ≡ 0) ↔ IsCrossed b.old }
    ensures in_one_round { IfFixed result (λ rounds. (rounds ≡ 1) ↔ IsClosed b.old kernels.now) }
    ensures unmoved { IfFixed result (λ rounds. rounds ≡ 1 → b.new ≡ b.old) }
    ensures fixed_rounds { IfFixed result (λ rounds. rounds + width_sum_of b.new ≤ width_sum_of b.old + 1) }
    ensures rounds { IsProper b.old → rounds_of result ≤ width_sum_of b.old + 1 }
{
    if is_crossed(b) {
        return Settled::Failed { rounds: 0 };
    }
    law_inside_order();
    // its contract says that the bounds are in range, so that the rounds fit
    let _length = b.len();
    let mut rounds = 0;
    'rounds: loop {
        rounds += 1;
        if !run_round(kernels, b, spare) {
            return Settled::Fixed { rounds };
        }
        if is_crossed(b) {
            return Settled::Failed { rounds };
        }
    }
}
