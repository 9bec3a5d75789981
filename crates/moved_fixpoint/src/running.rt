//! Running one kernel.

ghost use Rattle.std.specs.Prelude.{◌≡◌, ◌<◌, ◌∷◌, [], length, slice_index_or};
ghost use Rattle.std.specs.Bool.{OnTrue};
ghost use Rattle.std.specs.List.{All};
ghost use Rattle.interval.specs.Boxes.{IsProper};
ghost use Rattle.guarded_tell.specs.Words.{IsProperIn};
ghost use Rattle.guarded_tell.specs.Kernels.{vars_of, IsKernel};
ghost use Rattle.kernel_visits.specs.Narrowing.{narrowing_tells};
ghost use Rattle.kernel_visits.specs.Shapes.{IsShapeOf};
ghost use Rattle.kernel_visits.specs.Rests.{IsEntailed, IsQuietFor, IsRest};
ghost use Rattle.seen_tells.specs.Seen.{IsEntailedBy};
ghost use Rattle.moved_fixpoint.specs.Moved.{AreMasksOf, count_of};
ghost use Rattle.moved_fixpoint.specs.Resting.{FitRests, KeepStacks};
ghost use Rattle.moved_fixpoint.specs.Asked.{has_one, AreAsked};
ghost use Rattle.moved_fixpoint.specs.Gathered.{AreGathered};
ghost use Rattle.moved_fixpoint.specs.Runs.{KernelRuns};

use crate::drawing::{ask, has_one};
use crate::joiner::{Progress, join, join_all, join_two};
use crate::rests::Rests;
use crate::sets::AskedSets;
use fixpoint_laws::law_tightens_one;
use guarded_tell::{Kernel, Tell, law_local, law_monotone, law_tell_place};
use interval::{BoxOf, law_inside_order};
use kernel_visits::{Rest, Shape, law_sided, seen_rest};
use moved_set::{AskedSet, Masks};
use seen_tells::{Seen, Sole, failing_tell, seen_visit, sole_tell};
use tell_laws::law_narrowing;
use trailed_box::{Cause, TrailedBox};

/// Asks for the bound of each of these tells.
fn ask_told(masks: &Masks, told: &[Tell], b: &BoxOf, rests: &Rests, asked: &mut AskedSet)
    requires variables { All (λ t. t.var < masks.now.count) told.now }
    requires length { masks.now.count ≡ length b.now }
    requires set { count_of asked.old ≡ length masks.now.sets }
    requires rests { FitRests (length masks.now.sets) rests.now }
    ensures { AreAsked masks.now rests.now b.now (has_one b.now) told.now asked.old asked.new }
{
    let by_side = has_one(b);
    for t in told {
        ask(masks, *t, by_side, b, rests, asked);
    }
}

/// Runs the kernel at a place on the box, and says how far the round has come then. It is forgotten before, and asked again
/// if a variable of its own moves and it heeds that. Where its shape alone says that it narrows nothing, nothing else is
/// looked at.
#[inline(always)]
pub(crate) fn run_kernel(
    kernels: &[Kernel],
    masks: &Masks,
    place: usize,
    b: &mut TrailedBox,
    sets: &mut AskedSets,
    progress: Progress,
) -> Progress
    requires place { place < length kernels.now }
    requires kernels { All (IsKernel (length b.old.current)) kernels.now }
    requires masks { AreMasksOf kernels.now (length b.old.current) masks.now }
    requires set { count_of sets.old.asked ≡ length kernels.now }
    requires rests { FitRests (length kernels.now) sets.old.rests }
    requires proper { IsProper b.old.current }
    ensures stack { b.new.stack ≡ b.old.stack }
    ensures rests { FitRests (length kernels.now) sets.new.rests }
    ensures stacks { KeepStacks sets.old.rests sets.new.rests }
    ensures run { KernelRuns kernels.now place b.old.current sets.old.asked sets.old.rests progress b.new.current sets.new.asked sets.new.rests result }
{
    law_inside_order();
    law_tightens_one();
    law_local();
    law_monotone();
    law_tell_place();
    law_narrowing();
    law_sided();
    // its contract says that the bounds are in range
    let _length = b.len();
    let kernel = &kernels[place];
    match seen_rest(kernel, masks.shape(place), b.current()) {
        Some(rest) => {
            sets.asked.forget(place);
            if sets.rest_for(place, rest).is_ok() {
                progress
            } else {
                Progress::Refused
            }
        }
        None => {
            because(b, place);
            match masks.shape(place) {
                Shape::Slight | Shape::Other => run_unseen(
                    kernels, masks, place, b, sets, progress,
                ),
                Shape::Three { .. } => run_three(kernels, masks, place, b, sets, progress),
                Shape::Product { .. } => run_product(kernels, masks, place, b, sets, progress),
                Shape::Greatest { .. } => run_greatest(kernels, masks, place, b, sets, progress),
                _ => run_told(kernels, masks, place, b, sets, progress),
            }
        }
    }
}

/// Says that what is put from now on is told by the kernel at a place.
#[inline(always)]
fn because(b: &mut TrailedBox, place: usize)
    ensures { b.new ≡ b.old }
{
    if let Ok(number) = u32::try_from(place) {
        b.because(Cause::Kernel(number));
    }
}

/// The same of a kernel of which its shape doesn't say that it narrows nothing: it may say what its one tell is. It is a
/// function of its own, so that a visit that narrows nothing keeps no room for it.
#[inline(never)]
fn run_told(
    kernels: &[Kernel],
    masks: &Masks,
    place: usize,
    b: &mut TrailedBox,
    sets: &mut AskedSets,
    progress: Progress,
) -> Progress
    requires place { place < length kernels.now }
    requires kernels { All (IsKernel (length b.old.current)) kernels.now }
    requires masks { AreMasksOf kernels.now (length b.old.current) masks.now }
    requires set { count_of sets.old.asked ≡ length kernels.now }
    requires rests { FitRests (length kernels.now) sets.old.rests }
    requires proper { IsProper b.old.current }
    ensures stack { b.new.stack ≡ b.old.stack }
    ensures rests { FitRests (length kernels.now) sets.new.rests }
    ensures stacks { KeepStacks sets.old.rests sets.new.rests }
    ensures run { KernelRuns kernels.now place b.old.current sets.old.asked sets.old.rests progress b.new.current sets.new.asked sets.new.rests result }
{
    // its contract says that the bounds are in range
    let _length = b.len();
    let kernel = &kernels[place];
    match sole_tell(kernel, masks.shape(place), b.current()) {
        Some(sole) => run_one(kernels, masks, place, sole, b, sets, progress),
        None => run_failing(kernels, masks, place, b, sets, progress),
    }
}

/// The same of an equation of three terms. Its shape is made anew, so that no room is kept for what another may
/// say.
#[inline(never)]
fn run_three(
    kernels: &[Kernel],
    masks: &Masks,
    place: usize,
    b: &mut TrailedBox,
    sets: &mut AskedSets,
    progress: Progress,
) -> Progress
    requires place { place < length kernels.now }
    requires kernels { All (IsKernel (length b.old.current)) kernels.now }
    requires masks { AreMasksOf kernels.now (length b.old.current) masks.now }
    requires set { count_of sets.old.asked ≡ length kernels.now }
    requires rests { FitRests (length kernels.now) sets.old.rests }
    requires proper { IsProper b.old.current }
    ensures stack { b.new.stack ≡ b.old.stack }
    ensures rests { FitRests (length kernels.now) sets.new.rests }
    ensures stacks { KeepStacks sets.old.rests sets.new.rests }
    ensures run { KernelRuns kernels.now place b.old.current sets.old.asked sets.old.rests progress b.new.current sets.new.asked sets.new.rests result }
{
    match masks.shape(place) {
        Shape::Three { terms, limit } => {
            let shape = Shape::Three {
                terms: *terms,
                limit: *limit,
            };
            run_seen(kernels, masks, place, &shape, b, sets, progress)
        }
        _ => run_unseen(kernels, masks, place, b, sets, progress),
    }
}

/// The same of a product.
#[inline(never)]
fn run_product(
    kernels: &[Kernel],
    masks: &Masks,
    place: usize,
    b: &mut TrailedBox,
    sets: &mut AskedSets,
    progress: Progress,
) -> Progress
    requires place { place < length kernels.now }
    requires kernels { All (IsKernel (length b.old.current)) kernels.now }
    requires masks { AreMasksOf kernels.now (length b.old.current) masks.now }
    requires set { count_of sets.old.asked ≡ length kernels.now }
    requires rests { FitRests (length kernels.now) sets.old.rests }
    requires proper { IsProper b.old.current }
    ensures stack { b.new.stack ≡ b.old.stack }
    ensures rests { FitRests (length kernels.now) sets.new.rests }
    ensures stacks { KeepStacks sets.old.rests sets.new.rests }
    ensures run { KernelRuns kernels.now place b.old.current sets.old.asked sets.old.rests progress b.new.current sets.new.asked sets.new.rests result }
{
    match masks.shape(place) {
        Shape::Product { x, y, z } => {
            let shape = Shape::Product {
                x: *x,
                y: *y,
                z: *z,
            };
            run_seen(kernels, masks, place, &shape, b, sets, progress)
        }
        _ => run_unseen(kernels, masks, place, b, sets, progress),
    }
}

/// The same of the greater of two.
#[inline(never)]
fn run_greatest(
    kernels: &[Kernel],
    masks: &Masks,
    place: usize,
    b: &mut TrailedBox,
    sets: &mut AskedSets,
    progress: Progress,
) -> Progress
    requires place { place < length kernels.now }
    requires kernels { All (IsKernel (length b.old.current)) kernels.now }
    requires masks { AreMasksOf kernels.now (length b.old.current) masks.now }
    requires set { count_of sets.old.asked ≡ length kernels.now }
    requires rests { FitRests (length kernels.now) sets.old.rests }
    requires proper { IsProper b.old.current }
    ensures stack { b.new.stack ≡ b.old.stack }
    ensures rests { FitRests (length kernels.now) sets.new.rests }
    ensures stacks { KeepStacks sets.old.rests sets.new.rests }
    ensures run { KernelRuns kernels.now place b.old.current sets.old.asked sets.old.rests progress b.new.current sets.new.asked sets.new.rests result }
{
    match masks.shape(place) {
        Shape::Greatest { m, x, y } => {
            let shape = Shape::Greatest {
                m: *m,
                x: *x,
                y: *y,
            };
            run_seen(kernels, masks, place, &shape, b, sets, progress)
        }
        _ => run_unseen(kernels, masks, place, b, sets, progress),
    }
}

/// The same of a difference, which may have two tells where its literal is sure.
#[inline(never)]
fn run_held(
    kernels: &[Kernel],
    masks: &Masks,
    place: usize,
    b: &mut TrailedBox,
    sets: &mut AskedSets,
    progress: Progress,
) -> Progress
    requires place { place < length kernels.now }
    requires kernels { All (IsKernel (length b.old.current)) kernels.now }
    requires masks { AreMasksOf kernels.now (length b.old.current) masks.now }
    requires set { count_of sets.old.asked ≡ length kernels.now }
    requires rests { FitRests (length kernels.now) sets.old.rests }
    requires proper { IsProper b.old.current }
    ensures stack { b.new.stack ≡ b.old.stack }
    ensures rests { FitRests (length kernels.now) sets.new.rests }
    ensures stacks { KeepStacks sets.old.rests sets.new.rests }
    ensures run { KernelRuns kernels.now place b.old.current sets.old.asked sets.old.rests progress b.new.current sets.new.asked sets.new.rests result }
{
    let shape = masks.shape(place);
    run_seen(kernels, masks, place, shape, b, sets, progress)
}

/// The same of a kernel with this shape, which may say more than one tell.
#[inline(always)]
fn run_seen(
    kernels: &[Kernel],
    masks: &Masks,
    place: usize,
    shape: &Shape,
    b: &mut TrailedBox,
    sets: &mut AskedSets,
    progress: Progress,
) -> Progress
    requires place { place < length kernels.now }
    requires kernels { All (IsKernel (length b.old.current)) kernels.now }
    requires masks { AreMasksOf kernels.now (length b.old.current) masks.now }
    requires set { count_of sets.old.asked ≡ length kernels.now }
    requires rests { FitRests (length kernels.now) sets.old.rests }
    requires proper { IsProper b.old.current }
    requires shape { (k : Kernel) → IsShapeOf (slice_index_or kernels.now place k) shape.now }
    ensures stack { b.new.stack ≡ b.old.stack }
    ensures rests { FitRests (length kernels.now) sets.new.rests }
    ensures stacks { KeepStacks sets.old.rests sets.new.rests }
    ensures run { KernelRuns kernels.now place b.old.current sets.old.asked sets.old.rests progress b.new.current sets.new.asked sets.new.rests result }
{
    // its contract says that the bounds are in range
    let _length = b.len();
    let kernel = &kernels[place];
    match seen_visit(kernel, shape, b.current()) {
        Seen::One(tell) => {
            let is_last = false;
            let sole = Sole { tell, is_last };
            run_one(kernels, masks, place, sole, b, sets, progress)
        }
        Seen::Two(t, u) => run_two(kernels, masks, place, (t, u), b, sets, progress),
        Seen::Quiet(rest) => run_quiet(kernels, masks, place, rest, b, sets, progress),
        Seen::Unseen => run_unseen(kernels, masks, place, b, sets, progress),
    }
}

/// The same of a kernel that narrows nothing of the box, and rests so long.
#[inline(always)]
fn run_quiet(
    kernels: &[Kernel],
    masks: &Masks,
    place: usize,
    rest: Rest,
    b: &mut TrailedBox,
    sets: &mut AskedSets,
    progress: Progress,
) -> Progress
    requires place { place < length kernels.now }
    requires kernels { All (IsKernel (length b.old.current)) kernels.now }
    requires masks { AreMasksOf kernels.now (length b.old.current) masks.now }
    requires set { count_of sets.old.asked ≡ length kernels.now }
    requires rests { FitRests (length kernels.now) sets.old.rests }
    requires proper { IsProper b.old.current }
    requires quiet { (k : Kernel) → IsQuietFor (slice_index_or kernels.now place k) b.old.current rest }
    ensures stack { b.new.stack ≡ b.old.stack }
    ensures rests { FitRests (length kernels.now) sets.new.rests }
    ensures stacks { KeepStacks sets.old.rests sets.new.rests }
    ensures run { KernelRuns kernels.now place b.old.current sets.old.asked sets.old.rests progress b.new.current sets.new.asked sets.new.rests result }
{
    law_inside_order();
    law_tightens_one();
    law_local();
    law_monotone();
    law_tell_place();
    law_narrowing();
    law_sided();
    // its contract says that the bounds are in range
    let _length = b.len();
    sets.asked.forget(place);
    if sets.rest_for(place, rest).is_ok() {
        progress
    } else {
        Progress::Refused
    }
}

/// The same of a kernel that has one tell on the box, or whose first leaves its variable no number. That is joined, and the
/// kernel rests as long as its shape says on the box as it is then.
#[inline(always)]
fn run_one(
    kernels: &[Kernel],
    masks: &Masks,
    place: usize,
    sole: Sole,
    b: &mut TrailedBox,
    sets: &mut AskedSets,
    progress: Progress,
) -> Progress
    requires place { place < length kernels.now }
    requires kernels { All (IsKernel (length b.old.current)) kernels.now }
    requires masks { AreMasksOf kernels.now (length b.old.current) masks.now }
    requires set { count_of sets.old.asked ≡ length kernels.now }
    requires rests { FitRests (length kernels.now) sets.old.rests }
    requires proper { IsProper b.old.current }
    requires told { (k : Kernel) → AreGathered b.old.current (narrowing_tells (slice_index_or kernels.now place k) b.old.current) (sole.tell ∷ []) }
    requires last { (k : Kernel) → OnTrue sole.is_last (IsEntailedBy sole.tell (slice_index_or kernels.now place k) b.old.current) }
    ensures stack { b.new.stack ≡ b.old.stack }
    ensures rests { FitRests (length kernels.now) sets.new.rests }
    ensures stacks { KeepStacks sets.old.rests sets.new.rests }
    ensures run { KernelRuns kernels.now place b.old.current sets.old.asked sets.old.rests progress b.new.current sets.new.asked sets.new.rests result }
{
    law_inside_order();
    law_tightens_one();
    law_local();
    law_monotone();
    law_tell_place();
    law_narrowing();
    law_sided();
    // its contract says that the bounds are in range
    let _length = b.len();
    let kernel = &kernels[place];
    sets.asked.forget(place);
    let after = join(sole.tell, b, progress);
    if !after.goes_on() {
        return after;
    }
    let now = b.current();
    let rest = rest_after(kernel, masks.shape(place), sole.is_last, now);
    if sets.rest_for(place, rest).is_err() {
        return Progress::Refused;
    }
    ask(
        masks,
        sole.tell,
        has_one(now),
        now,
        &sets.rests,
        &mut sets.asked,
    );
    after
}

/// How long the kernel needs no visit once its tell is joined: for good where that is its last, else as far as its shape says.
#[inline(always)]
fn rest_after(kernel: &Kernel, shape: &Shape, is_last: bool, b: &BoxOf) -> Rest
    requires kernel { IsKernel (length b.now) kernel.now }
    requires shape { IsShapeOf kernel.now shape.now }
    requires proper { IsProperIn (vars_of kernel.now) b.now }
    requires last { OnTrue is_last (IsEntailed kernel.now b.now) }
    ensures { IsRest kernel.now b.now result }
{
    if is_last {
        Rest::ForGood
    } else {
        shape_rest(kernel, shape, b)
    }
}

/// The same of a kernel of which its shape says no one tell: it may say that the first leaves its variable no number.
#[inline(never)]
fn run_failing(
    kernels: &[Kernel],
    masks: &Masks,
    place: usize,
    b: &mut TrailedBox,
    sets: &mut AskedSets,
    progress: Progress,
) -> Progress
    requires place { place < length kernels.now }
    requires kernels { All (IsKernel (length b.old.current)) kernels.now }
    requires masks { AreMasksOf kernels.now (length b.old.current) masks.now }
    requires set { count_of sets.old.asked ≡ length kernels.now }
    requires rests { FitRests (length kernels.now) sets.old.rests }
    requires proper { IsProper b.old.current }
    ensures stack { b.new.stack ≡ b.old.stack }
    ensures rests { FitRests (length kernels.now) sets.new.rests }
    ensures stacks { KeepStacks sets.old.rests sets.new.rests }
    ensures run { KernelRuns kernels.now place b.old.current sets.old.asked sets.old.rests progress b.new.current sets.new.asked sets.new.rests result }
{
    // its contract says that the bounds are in range
    let _length = b.len();
    match failing_tell(&kernels[place], masks.shape(place), b.current()) {
        Some(tell) => {
            let is_last = false;
            let sole = Sole { tell, is_last };
            run_one(kernels, masks, place, sole, b, sets, progress)
        }
        None => run_held(kernels, masks, place, b, sets, progress),
    }
}

/// The same of a kernel that has two tells on the box.
#[inline(never)]
fn run_two(
    kernels: &[Kernel],
    masks: &Masks,
    place: usize,
    told: (Tell, Tell),
    b: &mut TrailedBox,
    sets: &mut AskedSets,
    progress: Progress,
) -> Progress
    requires place { place < length kernels.now }
    requires kernels { All (IsKernel (length b.old.current)) kernels.now }
    requires masks { AreMasksOf kernels.now (length b.old.current) masks.now }
    requires set { count_of sets.old.asked ≡ length kernels.now }
    requires rests { FitRests (length kernels.now) sets.old.rests }
    requires proper { IsProper b.old.current }
    requires told { (k : Kernel) → AreGathered b.old.current (narrowing_tells (slice_index_or kernels.now place k) b.old.current) (told.0 ∷ told.1 ∷ []) }
    ensures stack { b.new.stack ≡ b.old.stack }
    ensures rests { FitRests (length kernels.now) sets.new.rests }
    ensures stacks { KeepStacks sets.old.rests sets.new.rests }
    ensures run { KernelRuns kernels.now place b.old.current sets.old.asked sets.old.rests progress b.new.current sets.new.asked sets.new.rests result }
{
    law_inside_order();
    law_tightens_one();
    law_local();
    law_monotone();
    law_tell_place();
    law_narrowing();
    law_sided();
    // its contract says that the bounds are in range
    let _length = b.len();
    let kernel = &kernels[place];
    sets.asked.forget(place);
    let after = join_two(told, b, progress);
    if !after.goes_on() {
        return after;
    }
    let now = b.current();
    let rest = shape_rest(kernel, masks.shape(place), now);
    if sets.rest_for(place, rest).is_err() {
        return Progress::Refused;
    }
    ask_two(masks, told, now, &sets.rests, &mut sets.asked);
    after
}

/// Asks for the bounds of two tells.
fn ask_two(masks: &Masks, told: (Tell, Tell), b: &BoxOf, rests: &Rests, asked: &mut AskedSet)
    requires first { told.0.var < masks.now.count }
    requires second { told.1.var < masks.now.count }
    requires length { masks.now.count ≡ length b.now }
    requires set { count_of asked.old ≡ length masks.now.sets }
    requires rests { FitRests (length masks.now.sets) rests.now }
    ensures { AreAsked masks.now rests.now b.now (has_one b.now) (told.0 ∷ told.1 ∷ []) asked.old asked.new }
{
    let by_side = has_one(b);
    ask(masks, told.0, by_side, b, rests, asked);
    ask(masks, told.1, by_side, b, rests, asked);
}

/// How long the kernel needs no visit, as far as its shape says.
#[inline(always)]
fn shape_rest(kernel: &Kernel, shape: &Shape, b: &BoxOf) -> Rest
    requires kernel { IsKernel (length b.now) kernel.now }
    requires shape { IsShapeOf kernel.now shape.now }
    requires proper { IsProperIn (vars_of kernel.now) b.now }
    ensures { IsRest kernel.now b.now result }
{
    match seen_rest(kernel, shape, b) {
        Some(rest) => rest,
        None => Rest::Awake,
    }
}

/// The same of a kernel of which its shape says neither. It tells what it does on the box as it is before any of that is
/// joined, and rests if it needs no visit on the box as it is then: where it tells nothing the visit itself says how long.
#[inline(never)]
fn run_unseen(
    kernels: &[Kernel],
    masks: &Masks,
    place: usize,
    b: &mut TrailedBox,
    sets: &mut AskedSets,
    progress: Progress,
) -> Progress
    requires place { place < length kernels.now }
    requires kernels { All (IsKernel (length b.old.current)) kernels.now }
    requires masks { AreMasksOf kernels.now (length b.old.current) masks.now }
    requires set { count_of sets.old.asked ≡ length kernels.now }
    requires rests { FitRests (length kernels.now) sets.old.rests }
    requires proper { IsProper b.old.current }
    ensures stack { b.new.stack ≡ b.old.stack }
    ensures rests { FitRests (length kernels.now) sets.new.rests }
    ensures stacks { KeepStacks sets.old.rests sets.new.rests }
    ensures run { KernelRuns kernels.now place b.old.current sets.old.asked sets.old.rests progress b.new.current sets.new.asked sets.new.rests result }
{
    law_inside_order();
    law_tightens_one();
    law_local();
    law_monotone();
    law_tell_place();
    law_narrowing();
    law_sided();
    // its contract says that the bounds are in range
    let _length = b.len();
    let kernel = &kernels[place];
    sets.asked.forget(place);
    let shape = masks.shape(place);
    if let Some(rest) = sets.visit(kernel, shape, place, b.current()) {
        return if sets.rest_for(place, rest).is_ok() {
            progress
        } else {
            Progress::Refused
        };
    }
    if sets.told.refused {
        return Progress::Refused;
    }
    let after = join_all(sets.told.tells.as_slice(), b, progress);
    if !after.goes_on() {
        return after;
    }
    if sets.rest(kernel, shape, place, b.current()).is_err() {
        return Progress::Refused;
    }
    ask_told(
        masks,
        sets.told.tells.as_slice(),
        b.current(),
        &sets.rests,
        &mut sets.asked,
    );
    after
}
