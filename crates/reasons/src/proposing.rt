//! The reason that a kernel gave, as the log says, weakened.

ghost use Rattle.std.specs.Prelude.{◌≡◌, length};
ghost use Rattle.guarded_tell.specs.Kernels.{IsKernel};

use crate::past::{recall, same_before};
use crate::weakening::weaken;
use guarded_tell::{Kernel, Tell};
use interval::BoxOf;
use trailed_box::Log;

/// So many boxes are tried at most: a visit tells several bounds of the box that it began with, so that the box just before the last
/// of them may be tighter, and fail by another bound.
const MOST_BOXES: u32 = 8;

/// Proposes the bounds that the kernel's variables had before the event at a place of the log, or before one that the kernel put just
/// before it, weakened as far as the kernel tells the literal still. It is a hint. Says how many boxes were tried.
pub fn propose(
    kernel: &Kernel,
    space: &BoxOf,
    log: &Log,
    place: usize,
    past: &mut BoxOf,
    sought: Tell,
) -> u32
    requires kernel { IsKernel (length space.now) kernel.now }
    requires same_count { length past.old ≡ length space.now }
    ensures { length past.new ≡ length past.old }
{
    let mut before = Some(place);
    for tried in 0..MOST_BOXES {
        let Some(place) = before else {
            return retry(kernel, space, log, place, past, tried);
        };
        recall(kernel, space, log, place, past);
        if weaken(kernel, space, past, sought) {
            return tried + 1;
        }
        before = same_before(log, place);
    }
    retry(kernel, space, log, place, past, MOST_BOXES)
}

/// The bounds before the event itself, as no box that was tried fits.
fn retry(
    kernel: &Kernel,
    space: &BoxOf,
    log: &Log,
    place: usize,
    past: &mut BoxOf,
    tried: u32,
) -> u32
    requires kernel { IsKernel (length space.now) kernel.now }
    requires same_count { length past.old ≡ length space.now }
    ensures { length past.new ≡ length past.old }
{
    recall(kernel, space, log, place, past);
    tried
}
