//! The laws of domains. A law does nothing: its contract is what it says.

ghost use Rattle.std.specs.Prelude.{◌≡◌, ◌↔◌, ◌<◌, ◌≤◌, ◌^◌, ◌≤ℤ◌, ℕ, ℤ, length};
ghost use Rattle.std.specs.List.{Contains};
ghost use Rattle.interval.specs.Limits.{IsBound};
ghost use Rattle.bit_domain.specs.Bits.{members, IsSubset};
ghost use Rattle.bit_domain.specs.declared.dom.Dom.{Dom};
ghost use Rattle.bit_domain.specs.declared.dom.Dom.TheVariants.{Bits, Pair};
ghost use Rattle.bit_domain.specs.Mixes.{dom_between, hull_of, values_of, Has, IsBits, IsDomInRange, IsInsideDom};

/// The domain of the numbers between two has exactly these, and the two are its hull.
pub fn law_between()
    ensures numbers { (low high z : ℤ) → Has (dom_between low high) z ↔ ((low ≤ℤ z) × (z ≤ℤ high)) }
    ensures hull { (low high : ℤ) → hull_of (dom_between low high) ≡ (low, high) }
{}

/// Each number of a domain lies within its hull, and where the hull isn't crossed its ends are numbers of the domain.
pub fn law_hull()
    ensures within { (d : Dom) (z : ℤ) → IsDomInRange d → Has d z → ((hull_of d).0 ≤ℤ z) × (z ≤ℤ (hull_of d).1) }
    ensures ends { (d : Dom) → IsDomInRange d → (hull_of d).0 ≤ℤ (hull_of d).1
        → Has d (hull_of d).0 × Has d (hull_of d).1 }
    ensures in_range { (d : Dom) → IsDomInRange d → IsBound (hull_of d).0 × IsBound (hull_of d).1 }
{}

/// Of a domain that is kept as bits the listed numbers are those that it has; of a pair none is listed.
pub fn law_values()
    ensures { (d : Dom) (z : ℤ) → IsDomInRange d → Contains (values_of d) z ↔ (IsBits d × Has d z) }
{}

/// A domain inside another of its kind has only numbers of the other, and where two of a kind have so, the one is inside.
pub fn law_inside()
    ensures numbers { (inner outer : Dom) (z : ℤ) → IsInsideDom inner outer → Has inner z → Has outer z }
    ensures bits { (base : ℤ) (inner outer : ℕ) → ((z : ℤ) → Has (Bits base inner) z → Has (Bits base outer) z)
        → IsInsideDom (Bits base inner) (Bits base outer) }
    ensures pairs { (a b c d : ℤ) → a ≤ℤ b → ((z : ℤ) → Has (Pair a b) z → Has (Pair c d) z)
        → IsInsideDom (Pair a b) (Pair c d) }
    ensures in_range { (inner outer : Dom) → IsDomInRange outer → IsInsideDom inner outer
        → (hull_of inner).0 ≤ℤ (hull_of inner).1 → IsDomInRange inner }
{}

/// A set has at most 64 members, and a subset no more members than the other, and as many only where it is the other.
pub fn law_members()
    ensures bounded { (set : ℕ) → length (members set) ≤ 64 }
    ensures fewer { (inner outer : ℕ) → IsSubset inner outer → length (members inner) ≤ length (members outer) }
    ensures same { (inner outer : ℕ) → inner < 2 ^ 64 → outer < 2 ^ 64 → IsSubset inner outer
        → length (members inner) ≡ length (members outer) → inner ≡ outer }
{}
