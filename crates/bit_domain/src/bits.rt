//! Sets of small numbers, as the bits of a word.

ghost use Rattle.std.specs.Prelude.{◌≡◌, ◌≢◌, ◌<◌, ◌∷◌};
ghost use Rattle.bit_domain.specs.Bits.{members, IsSubset, IsLeast, IsGreatest};

/// The least member of a set.
pub(crate) fn least(set: u64) -> u32
    requires { set ≢ 0 }
    ensures { IsLeast set result }
{
    set.trailing_zeros()
}

/// The greatest member of a set.
pub(crate) fn greatest(set: u64) -> u32
    requires { set ≢ 0 }
    ensures { IsGreatest set result }
{
    63 - set.leading_zeros()
}

/// The least member of a set, and the set of the others.
pub fn part_least(set: u64) -> (u32, u64)
    requires { set ≢ 0 }
    ensures least { IsLeast set result.0 }
    ensures members { members set ≡ result.0 ∷ members result.1 }
    ensures others { IsSubset result.1 set }
    ensures fewer { result.1 < set }
{
    let member = least(set);
    (member, set & !(1 << member))
}
