//! The marks of an answer.

ghost use Rattle.std.specs.Prelude.{◌≡◌};
ghost use Rattle.fzn_print.specs.AnswerText.{mark_text_of};

/// What is known at the end of an answer.
#[derive(Debug, Clone, Copy, PartialEq, Eq)]
pub enum Mark {
    /// Nothing more than the solutions before it.
    Plain,
    /// The search is complete.
    Complete,
    /// No solution exists.
    Unsatisfiable,
    /// Neither a solution is known nor that none exists.
    Unknown,
}

/// The text of a mark.
pub fn mark_text(mark: Mark) -> &'static str
    ensures { result.now ≡ mark_text_of mark }
{
    match mark {
        Mark::Plain => "",
        Mark::Complete => "==========\n",
        Mark::Unsatisfiable => "=====UNSATISFIABLE=====\n",
        Mark::Unknown => "=====UNKNOWN=====\n",
    }
}
