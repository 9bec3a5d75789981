//! Those who are given drops.

ghost use Rattle.domain_drops.specs.Hearing.{Drop};

/// Is given drops, one after the other.
pub trait HearDrop {
    // which drop it may be given in the state that it is in
    ghost can_hear: { Self → Drop → Type 0 };

    // its states before and after it heard a drop
    ghost hears: { Self → Drop → Self → Type 0 };

    /// Takes one drop: the variable can't have the value.
    fn drop_value(&mut self, var: u32, value: i64)
        requires { can_hear self.old (var, value) }
        ensures { hears self.old (var, value) self.new };
}
