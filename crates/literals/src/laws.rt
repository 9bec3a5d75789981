//! The laws of literals. A law does nothing: its contract is what it says.

ghost use Rattle.literals.specs.Laws.{LiteralLaws};

/// How literals go with boxes that lie inside each other, and that a point meets a literal or its opposite.
pub fn law_literals()
    ensures { LiteralLaws }
{}
