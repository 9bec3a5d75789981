//! Going back along the log from a box that failed.

ghost use Rattle.std.specs.Prelude.{◌≡◌, length, OnOk};
ghost use Rattle.std.specs.List.{All};
ghost use Rattle.literals.specs.Literals.{IsPlaced};
ghost use Rattle.nogoods.specs.Learnings.{CanLearn, GoesOver};

use crate::explaining::explain;
use crate::store::Nogood;
use crate::touched::Touched;
use guarded_tell::Kernel;
use interval::BoxOf;
use literals::Literals;
use memory::NoMemory;
use reasons::{is_one_since, met_by};
use trailed_box::Log;

/// What an analysis reads.
#[derive(Clone, Copy)]
pub struct Learning<'a> {
    /// The kernels.
    pub kernels: &'a [Kernel],
    /// The nogoods that are kept.
    pub nogoods: &'a [Nogood],
    /// The box of the whole search.
    pub space: &'a BoxOf,
    /// What was put and why: a hint.
    pub log: &'a Log,
}

/// Goes back along the log to a place, and replaces each literal that an event met by its reason: one at least, since the two
/// bounds that cross say nothing; until one literal alone was met by an event since then, or, where the whole is asked for, as
/// far as reasons are known.
pub fn analyze(
    what: &Learning<'_>,
    past: &mut BoxOf,
    literals: &mut Literals,
    touched: &mut Touched,
    from: usize,
    is_whole: bool,
) -> Result<(), NoMemory>
    requires what { CanLearn what.now }
    requires same_count { length past.old ≡ length what.now.space.now }
    requires placed { All (IsPlaced (length what.now.space.now)) literals.old }
    ensures nogood { OnOk result (GoesOver what.now.kernels.now what.now.space.now literals.old literals.new) }
    ensures placed { OnOk result (All (IsPlaced (length what.now.space.now)) literals.new) }
    ensures same_count { length past.new ≡ length past.old }
{
    let mut place = what.log.len();
    let mut is_begun = false;
    'back: while place > from {
        place -= 1;
        let Some(event) = what.log.at(place) else {
            return Ok(());
        };
        let Some(at) = met_by(what.log, event, literals) else {
            continue 'back;
        };
        if is_begun && !is_whole && is_one_since(what.log, from, literals) {
            return Ok(());
        }
        touched.touch(event.var);
        explain(what, event.cause, place, past, literals, touched, at)?;
        is_begun = true;
    }
    Ok(())
}
