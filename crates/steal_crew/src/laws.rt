//! Laws of hands, as a function that does nothing.

ghost use Rattle.steal_crew.specs.Hands.{HandLaws};

/// What stays as hands draw.
pub fn law_hands()
    ensures { HandLaws }
{}
