//! Where workers get their numbers from.

/// A source with all its rights to draw, one for each worker.
#[derive(Drop)]
pub struct Dealt<Q, N> {
    /// What the numbers are drawn from.
    pub source: Q,
    /// The rights, in the order of the workers.
    pub rights: Vec<N>,
}

/// A source of the numbers below a count, each of which is drawn once. Each worker of a crew has an `N`, its right to draw;
/// all rights of a source are dealt with it. The source says what it means that a right drew numbers, and that rights are
/// those that were dealt.
pub trait Source<N> {
    ghost use Rattle.std.specs.Prelude.{ℕ, ◌≡◌, ◌<◌, ◌≤◌, true, List, All, flat_map, IfSome, IfNone};
    ghost use Rattle.std.specs.Bool.{OnTrue};
    ghost use Rattle.tickets.specs.Counting.{times, IsEachOnce};
    ghost use Rattle.tickets.specs.Seats.{with_drawn};
    ghost use Rattle.crew.specs.Rights.{KeepsSame, AreDrawn};

    // the numbers to draw are those below it
    ghost count: { Self → ℕ };

    // it is a right to draw from this source
    ghost is_right: { Self → N → Type 0 };

    // the numbers that were drawn with the right, in order
    ghost drawn: { N → List ℕ };

    // a draw with the right found no number left
    ghost has_passed: { Self → N → Type 0 };

    // so many numbers at most may still be drawn with the right
    ghost most_left: { Self → N → ℕ };

    // the one right may be the other, some draws later
    ghost same: { N → N → Type 0 };

    // these are all rights of this source, in order, before any draw
    ghost are_dealt: { Self → List N → Type 0 };

    /// Draws a number that no right has drawn, or finds none.
    fn next(&self, right: &mut N) -> Option<u32>
        requires { is_right self.now right.old }
        ensures right { is_right self.now right.new }
        ensures same { KeepsSame same right.old right.new }
        ensures drawn { drawn right.new ≡ with_drawn result (drawn right.old) }
        ensures below { IfSome result (λ k. k < count self.now) }
        ensures fewer { IfSome result (λ k. most_left self.now right.new < most_left self.now right.old) }
        ensures passed { IfNone result (has_passed self.now right.new) };

    /// Takes back all rights, and says whether each number was drawn, if each right has found none left. So it was, if each
    /// right has found none left and each number was drawn.
    fn gather(self, rights: Vec<N>) -> bool
        requires rights { All (is_right self) rights.items }
        requires all { AreDrawn (are_dealt self) same rights.items }
        ensures once { (k : ℕ) → times k (flat_map drawn rights.items) ≤ 1 }
        ensures below { (k : ℕ) → count self ≤ k → times k (flat_map drawn rights.items) ≡ 0 }
        ensures each_once { OnTrue result (All (has_passed self) rights.items → IsEachOnce (count self) (flat_map drawn rights.items)) }
        ensures full { All (has_passed self) rights.items → IsEachOnce (count self) (flat_map drawn rights.items) → result ≡ true };
}
