//! Which bounds of its variables a kernel reads.

ghost use Rattle.std.specs.Prelude.{◌≡◌, ◌<◌, ◌≤◌, ◌≤ℤ◌, pos, true, length, IfSome, IfNone};
ghost use Rattle.interval.specs.Boxes.{Bounds, low_of};
ghost use Rattle.guarded_tell.specs.declared.kernel.Kernel.{Kernel};
ghost use Rattle.guarded_tell.specs.Words.{IsProperIn};
ghost use Rattle.guarded_tell.specs.Kernels.{vars_of, HasNumbers, IsKernel};
ghost use Rattle.kernel_visits.specs.Sides.{is_sided, side_of_literal, side_of_sure, side_of_term, sides_of, IsOneSided, Reads};

use guarded_tell::{Kernel, Lit, Side};
use interval::law_clamp_order;

/// The bound that the kernel reads of the variable that it names at this place, where it is one-sided. None: it never is, or it
/// reads neither.
#[tactic(auto, unfolding(guarded_tell::specs::Kernels::vars_of, guarded_tell::specs::Kernels::HasNumbers, crate::specs::Sides::sides_of, clause_tells::specs::Clause::clause_vars))]
pub fn side_at(k: &Kernel, place: usize) -> Option<Side>
    requires numbers { HasNumbers k.now }
    requires place { place < length (vars_of k.now) }
    ensures side { IfSome result (Reads k.now place) }
    ensures none { IfNone result (length (sides_of k.now) ≤ place) }
{
    match k {
        Kernel::Le { lit, coeffs, .. } => {
            if place == 0 {
                Some(sure_side(*lit))
            } else {
                Some(term_side(coeffs.as_slice()[place - 1]))
            }
        }
        Kernel::Clause { lits } => {
            if place < lits.len() {
                Some(literal_side(lits.at(place)))
            } else {
                None
            }
        }
        _ => None,
    }
}

/// The bound that makes a term with this coefficient least.
fn term_side(coeff: i64) -> Side
    ensures { result ≡ side_of_term coeff }
{
    if coeff < 0 { Side::High } else { Side::Low }
}

/// The bound that says whether the literal is true for both.
fn sure_side(lit: Lit) -> Side
    ensures { result ≡ side_of_sure lit }
{
    if lit.positive { Side::Low } else { Side::High }
}

/// The bound that says whether the literal is false for both.
fn literal_side(lit: Lit) -> Side
    ensures { result ≡ side_of_literal lit }
{
    if lit.positive { Side::High } else { Side::Low }
}

/// Whether the kernel is one-sided wherever the first variable is at least 1: a clause is, and an inequality that has to hold
/// there.
#[tactic(auto, unfolding(crate::specs::Sides::is_sided))]
pub fn is_sided(k: &Kernel) -> bool
    ensures { result ≡ is_sided k.now }
{
    match k {
        Kernel::Le { lit, .. } => lit.var == 0 && lit.positive,
        Kernel::Clause { .. } => true,
        _ => false,
    }
}

/// Such a kernel is one-sided there.
pub fn law_sided()
    ensures { (k : Kernel) (b : Bounds) → IsKernel (length b) k → IsProperIn (vars_of k) b → is_sided k ≡ true → pos 1 ≤ℤ low_of b 0 → IsOneSided k b }
{
    law_clamp_order();
}
