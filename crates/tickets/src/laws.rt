//! Laws of counting, as functions that do nothing.

ghost use Rattle.tickets.specs.Counting.{CountingLaws};

/// How often a number stands in a list.
pub fn law_counting()
    ensures { CountingLaws }
{}
