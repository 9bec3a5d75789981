//! Drops by the linear equation.

ghost use Rattle.std.specs.Prelude.{◌≡◌, ◌<◌, ◌≤◌, ◌∷◌, length, map, unsigned_abs};
ghost use Rattle.std.specs.List.{filter, zip, flat_map};
ghost use Rattle.interval.specs.Limits.{IsNumber};
ghost use Rattle.guarded_tell.specs.Words.{AreVariables};
ghost use Rattle.sum_tells.specs.Linear.{sum_limit, IsLinear};
ghost use Rattle.sum_tells.specs.Equality.{is_product};
ghost use Rattle.bit_domain.specs.Mixes.{dom_of, hull, values_of};
ghost use Rattle.domain_drops.specs.Hearing.{MayHearDrops, HearsDrops};
ghost use Rattle.domain_drops.specs.Removals.{equation_removals};
ghost use Rattle.domain_drops.specs.Drops.{dropped, term_drops};

use crate::HearDrop;
use crate::literals::is_out;
use crate::sums::{
    Product, Range, Term, are_others_fixed, room_for, sum_range, term_at, term_range,
};
use crate::walk::drop_passing;
use bit_domain::MixOf;
use guarded_tell::{Extended, Lit};

/// What the sum is at least and at most, and the limit that it isn't to be.
#[derive(Clone, Copy)]
struct Equation {
    /// What the sum is at least and at most.
    sum: Range,
    /// The limit.
    limit: i64,
}

/// Drops the numbers that make the sum the limit, where the literal is out.
pub(crate) fn drop_where_unequal<H: HearDrop>(
    lit: Lit,
    coeffs: &Extended<i64>,
    vars: &Extended<u32>,
    limit: i64,
    m: &MixOf,
    h: &mut H,
)
    requires linear { IsLinear coeffs.now vars.now limit }
    requires variables { AreVariables (length m.now) (lit.var ∷ vars.now) }
    requires hearer { MayHearDrops H.can_hear H.hears h.old
        (flat_map (dropped m.now) (equation_removals lit (zip coeffs.now vars.now) limit (hull m.now))) }
    ensures { HearsDrops H.hears h.old
        (flat_map (dropped m.now) (equation_removals lit (zip coeffs.now vars.now) limit (hull m.now))) h.new }
{
    if is_out(lit, m) {
        let sum = sum_range(coeffs, vars, m);
        drop_unequal(coeffs, vars, Equation { sum, limit }, m, h);
    }
}

/// Drops the numbers that make the sum the limit.
fn drop_unequal<H: HearDrop>(
    coeffs: &Extended<i64>,
    vars: &Extended<u32>,
    equation: Equation,
    m: &MixOf,
    h: &mut H,
)
    requires linear { IsLinear coeffs.now vars.now equation.limit }
    requires variables { AreVariables (length m.now) vars.now }
    requires least_sum { unsigned_abs equation.sum.least ≤ sum_limit }
    requires greatest_sum { unsigned_abs equation.sum.greatest ≤ sum_limit }
    requires hearer { MayHearDrops H.can_hear H.hears h.old
        (flat_map (term_drops m.now equation.limit equation.sum.least equation.sum.greatest) (zip coeffs.now vars.now)) }
    ensures { HearsDrops H.hears h.old
        (flat_map (term_drops m.now equation.limit equation.sum.least equation.sum.greatest) (zip coeffs.now vars.now)) h.new }
{
    for i in 0..vars.len() {
        let term = term_at(coeffs, vars, i);
        drop_term(term, equation, m, h);
    }
}

/// Drops the numbers by which the term makes the sum the limit, where the other terms are fixed.
fn drop_term<H: HearDrop>(term: Term, equation: Equation, m: &MixOf, h: &mut H)
    requires coefficient { IsNumber term.coeff }
    requires variable { term.var < length m.now }
    requires limit { IsNumber equation.limit }
    requires least_sum { unsigned_abs equation.sum.least ≤ sum_limit }
    requires greatest_sum { unsigned_abs equation.sum.greatest ≤ sum_limit }
    requires hearer { MayHearDrops H.can_hear H.hears h.old
        (term_drops m.now equation.limit equation.sum.least equation.sum.greatest (term.coeff, term.var)) }
    ensures { HearsDrops H.hears h.old
        (term_drops m.now equation.limit equation.sum.least equation.sum.greatest (term.coeff, term.var)) h.new }
{
    let own = term_range(term, m);
    if are_others_fixed(own, equation.sum) {
        let room = room_for(equation.limit, equation.sum.least, own.least);
        drop_product(term.coeff, term.var, room, m, h);
    }
}

/// Drops the numbers whose product with the coefficient is `room`.
fn drop_product<H: HearDrop>(coeff: i64, var: u32, room: i128, m: &MixOf, h: &mut H)
    requires coefficient { IsNumber coeff }
    requires variable { var < length m.now }
    requires hearer { MayHearDrops H.can_hear H.hears h.old
        (map (λ z. (var, z)) (filter (λ z. is_product coeff z room) (values_of (dom_of m.now var)))) }
    ensures { HearsDrops H.hears h.old
        (map (λ z. (var, z)) (filter (λ z. is_product coeff z room) (values_of (dom_of m.now var)))) h.new }
{
    let product = Product { coeff, room };
    drop_passing(var, &product, m, h);
}
