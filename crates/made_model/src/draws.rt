//! The numbers that the orders are made of.

ghost use Rattle.std.specs.Prelude.{◌≡◌, ◌≤◌, ◌<◌, ◌+◌};
ghost use Rattle.made_model.specs.Made.{next_draw, order_of_draws};

/// The draws of a made text, one after the other.
#[derive(Drop)]
pub(crate) struct Draws {
    /// The draw before the next.
    last: u32,
}

/// Which variable comes before which, both counted from 1, and the least gap between them.
#[derive(Clone, Copy)]
pub(crate) struct Order {
    pub(crate) first: u32,
    pub(crate) second: u32,
    pub(crate) gap: u32,
}

impl Draws {
    /// The draws for `n` variables.
    pub(crate) fn new(n: u32) -> Draws
        requires { n ≤ 2000 }
        ensures { result.last ≡ n + 1 }
    {
        Draws { last: n + 1 }
    }

    /// The next draw.
    fn next_draw(&mut self) -> u32
        requires { self.old.last < 65537 }
        ensures next { result ≡ next_draw self.old.last }
        ensures kept { self.new.last ≡ result }
        ensures bound { result < 65537 }
    {
        self.last = 75 * self.last % 65537;
        self.last
    }

    /// The order that the next three draws make.
    pub(crate) fn next_order(&mut self, n: u32) -> Order
        requires count { (2 ≤ n) × (n ≤ 2000) }
        requires draws { self.old.last < 65537 }
        ensures order { result ≡ order_of_draws n (next_draw self.old.last) (next_draw (next_draw self.old.last)) (next_draw (next_draw (next_draw self.old.last))) }
        ensures last { self.new.last ≡ next_draw (next_draw (next_draw self.old.last)) }
        ensures bound { self.new.last < 65537 }
    {
        let one = self.next_draw() % n;
        let drawn = self.next_draw() % n;
        let other = if drawn == one { (one + 1) % n } else { drawn };
        let gap = 1 + self.next_draw() % 9;
        Order {
            first: one.min(other) + 1,
            second: one.max(other) + 1,
            gap,
        }
    }
}
