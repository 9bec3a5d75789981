//! The marks of answers.

ghost use Rattle.std.specs.Prelude.{◌≡◌};
ghost use Rattle.std.specs.Bool.{OnTrue, OnFalse};
ghost use Rattle.answer.specs.Given.{mark_for};

use fzn_print::Mark;
use list_of::ListOf;

/// The mark behind some solutions: `whole` is that of a search that no limit stopped.
pub(crate) fn mark_of(is_spent: bool, given: &ListOf<ListOf<i64>>, whole: Mark) -> Mark
    ensures { result ≡ mark_for is_spent given.now whole }
{
    match (is_spent, given.is_empty()) {
        (true, true) => Mark::Unknown,
        (true, false) => Mark::Plain,
        (false, true) => Mark::Unsatisfiable,
        (false, false) => whole,
    }
}

/// The mark of the second phase.
pub(crate) fn second_mark(open_part: bool) -> Mark
    ensures open_part { OnTrue open_part (result ≡ Mark.Plain) }
    ensures none_open { OnFalse open_part (result ≡ Mark.Complete) }
{
    if open_part {
        Mark::Plain
    } else {
        Mark::Complete
    }
}
