//! A box that meets a nogood has no solution.

ghost use Rattle.std.specs.Prelude.{length};
ghost use Rattle.std.specs.Bool.{OnTrue};
ghost use Rattle.nogoods.specs.Learners.{AreFor, RulesOut};

use interval::BoxOf;
use nogoods::Learner;

/// Whether the box meets a nogood: it has no solution then.
pub(crate) fn is_refuted(learner: &Learner, b: &BoxOf) -> bool
    requires { AreFor (length b.now) learner.now }
    ensures { OnTrue result (RulesOut learner.now b.now) }
{
    for number in 0..learner.store.as_slice().len() {
        if learner.refutes(number, b) {
            return true;
        }
    }
    false
}
