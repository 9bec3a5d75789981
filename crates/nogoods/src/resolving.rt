//! One literal of a nogood is replaced by a reason for it.

ghost use Rattle.std.specs.Prelude.{◌≡◌, ◌<◌, List, length, slice_index_or, OnOk, IfOk, IfSome};
ghost use Rattle.std.specs.Bool.{OnFalse};
ghost use Rattle.std.specs.List.{All, Contains};
ghost use Rattle.interval.specs.Limits.{IsBound};
ghost use Rattle.guarded_tell.specs.declared.kernel.Kernel.{Kernel};
ghost use Rattle.guarded_tell.specs.Words.{Tell};
ghost use Rattle.guarded_tell.specs.Kernels.{IsKernel};
ghost use Rattle.literals.specs.Literals as words;
ghost use Rattle.literals.specs.Literals.{IsPlaced, IsAsTight};
ghost use Rattle.nogoods.specs.Nogoods.{IsNogood};

use crate::bounds_met::{meet_bounds, meet_others};
use crate::laws::law_nogoods;
use guarded_tell::{Kernel, Tell};
use interval::{BoxOf, law_inside_order};
use literals::{Literals, is_as_tight, law_literals, opposite};
use memory::NoMemory;
use reasons::{is_proper_in, is_told};

/// Replaces the literal at a place by the bounds of a kernel's variables in the box, if the kernel tells it there; else
/// nothing is changed. Whether it is replaced. Errors: memory.
pub fn resolve(
    kernel: &Kernel,
    past: &BoxOf,
    space: &BoxOf,
    literals: &mut Literals,
    place: usize,
) -> Result<bool, NoMemory>
    requires kernel { IsKernel (length space.now) kernel.now }
    requires same_count { length past.now ≡ length space.now }
    requires place { place < length literals.old }
    requires placed { All (IsPlaced (length space.now)) literals.old }
    ensures nogood { OnOk result ((kernels : List Kernel) → Contains kernels kernel.now →
        IsNogood kernels space.now literals.old → IsNogood kernels space.now literals.new) }
    ensures placed { OnOk result (All (IsPlaced (length space.now)) literals.new) }
    ensures unchanged { IfOk result (λ replaced. OnFalse replaced (literals.new ≡ literals.old)) }
{
    law_nogoods();
    // its contract says that the bounds are in range
    let _length = past.len();
    let sought = literals.at(place);
    if !is_proper_in(kernel, past) {
        return Ok(false);
    }
    if !is_told(kernel, past, sought) {
        return Ok(false);
    }
    literals.take(place);
    meet_bounds(kernel, past, space, literals)?;
    Ok(true)
}

/// The place of the literal of a nogood whose opposite is as tight as the one that is sought.
fn opposing(reason: &[Tell], sought: Tell) -> Option<usize>
    requires { All (λ t. IsBound t.bound) reason.now }
    ensures { IfSome result (λ own. (own < length reason.now) × ((d : Tell) → IsAsTight (words.opposite (slice_index_or reason.now own d)) sought)) }
{
    for place in 0..reason.len() {
        if is_as_tight(opposite(reason[place]), sought) {
            return Some(place);
        }
    }
    None
}

/// Replaces the literal at a place by the others of a nogood, if they and the nogood imply it; else nothing is changed.
/// Whether it is replaced. Errors: memory.
pub fn resolve_by(
    reason: &[Tell],
    space: &BoxOf,
    literals: &mut Literals,
    place: usize,
) -> Result<bool, NoMemory>
    requires reason { All (IsPlaced (length space.now)) reason.now }
    requires place { place < length literals.old }
    requires placed { All (IsPlaced (length space.now)) literals.old }
    ensures nogood { OnOk result ((kernels : List Kernel) → IsNogood kernels space.now reason.now →
        IsNogood kernels space.now literals.old → IsNogood kernels space.now literals.new) }
    ensures placed { OnOk result (All (IsPlaced (length space.now)) literals.new) }
    ensures unchanged { IfOk result (λ replaced. OnFalse replaced (literals.new ≡ literals.old)) }
{
    law_literals();
    law_inside_order();
    let sought = literals.at(place);
    let Some(own) = opposing(reason, sought) else {
        return Ok(false);
    };
    literals.take(place);
    meet_others(reason, own, space, literals)?;
    Ok(true)
}
