//! A literal of a nogood is replaced by the reason that the log gives for it.

ghost use Rattle.std.specs.Prelude.{◌≡◌, ◌<◌, length, OnOk};
ghost use Rattle.std.specs.List.{All};
ghost use Rattle.guarded_tell.specs.Kernels.{IsKernel};
ghost use Rattle.literals.specs.Literals.{IsPlaced};
ghost use Rattle.nogoods.specs.Learnings.{CanLearn, GoesOver};

use crate::analysis::Learning;
use crate::resolving::{resolve, resolve_by};
use crate::touched::Touched;
use crate::watches::look_work;
use interval::BoxOf;
use literals::Literals;
use memory::NoMemory;
use reasons::propose;
use trailed_box::Cause;

/// Replaces the literal at a place of the list by the reason that the cause of the event at a place of the log gives, if it is
/// one; else nothing is changed.
pub(crate) fn explain(
    what: &Learning<'_>,
    cause: Cause,
    place: usize,
    past: &mut BoxOf,
    literals: &mut Literals,
    touched: &mut Touched,
    at: usize,
) -> Result<bool, NoMemory>
    requires what { CanLearn what.now }
    requires same_count { length past.old ≡ length what.now.space.now }
    requires at { at < length literals.old }
    requires placed { All (IsPlaced (length what.now.space.now)) literals.old }
    ensures nogood { OnOk result (GoesOver what.now.kernels.now what.now.space.now literals.old literals.new) }
    ensures placed { OnOk result (All (IsPlaced (length what.now.space.now)) literals.new) }
    ensures same_count { length past.new ≡ length past.old }
{
    match cause {
        Cause::Choice => Ok(false),
        Cause::Kernel(number) => {
            explain_by_kernel(what, number, place, past, literals, touched, at)
        }
        Cause::Nogood(number) => {
            touched.touch_nogood(number);
            explain_by_nogood(what, number, literals, touched, at)
        }
    }
}

/// The same where the kernel of this number is the cause.
fn explain_by_kernel(
    what: &Learning<'_>,
    number: u32,
    place: usize,
    past: &mut BoxOf,
    literals: &mut Literals,
    touched: &mut Touched,
    at: usize,
) -> Result<bool, NoMemory>
    requires what { CanLearn what.now }
    requires same_count { length past.old ≡ length what.now.space.now }
    requires at { at < length literals.old }
    requires placed { All (IsPlaced (length what.now.space.now)) literals.old }
    ensures nogood { OnOk result (GoesOver what.now.kernels.now what.now.space.now literals.old literals.new) }
    ensures placed { OnOk result (All (IsPlaced (length what.now.space.now)) literals.new) }
    ensures same_count { length past.new ≡ length past.old }
{
    let number = number as usize;
    if number >= what.kernels.len() {
        return Ok(false);
    }
    let kernel = &what.kernels[number];
    let sought = literals.at(at);
    let tried = propose(kernel, what.space, what.log, place, past, sought);
    touched.spend(box_work(kernel.var_count()).saturating_mul(tried as u64));
    resolve(kernel, past, what.space, literals, at)
}

/// What it costs to try a box of a kernel of so many variables: it is made from the log, visited, and weakened bound by bound.
fn box_work(variables: usize) -> u64 {
    (variables as u64).saturating_add(1).saturating_mul(12)
}

/// The same where the nogood of this number is the cause.
fn explain_by_nogood(
    what: &Learning<'_>,
    number: u32,
    literals: &mut Literals,
    touched: &mut Touched,
    at: usize,
) -> Result<bool, NoMemory>
    requires what { CanLearn what.now }
    requires at { at < length literals.old }
    requires placed { All (IsPlaced (length what.now.space.now)) literals.old }
    ensures nogood { OnOk result (GoesOver what.now.kernels.now what.now.space.now literals.old literals.new) }
    ensures placed { OnOk result (All (IsPlaced (length what.now.space.now)) literals.new) }
{
    let number = number as usize;
    if number >= what.nogoods.len() {
        return Ok(false);
    }
    let reason = what.nogoods[number].literals.as_slice();
    touched.spend(look_work(reason.len()));
    resolve_by(reason, what.space, literals, at)
}
