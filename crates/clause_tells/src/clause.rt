//! The clause.

ghost use Rattle.std.specs.Prelude.{◌≡◌, ◌<◌, not, cond, min, length, slice_index};
ghost use Rattle.std.specs.List.{count_by, flat_map};
ghost use Rattle.tells.specs.Words.{AreVariables};
ghost use Rattle.tells.specs.Words as words;
ghost use Rattle.tells.specs.Hearing.{MayHearAll, HearsAll};
ghost use Rattle.clause_tells.specs.Clause.{clause_vars, clause_tells, sole_tell, AreLiterals};

use crate::Literals;
use interval::BoxOf;
use tells::{Hear, Lit, is_out, no_number, tell_true};

/// Gives the tells of the clause to `h`, in order.
pub fn visit_clause<H: Hear>(lits: &Literals, b: &BoxOf, h: &mut H)
    requires variables { AreVariables (length b.now) (clause_vars lits.now) }
    requires hearer { MayHearAll H.can_hear H.hears h.old (clause_tells lits.now b.now) }
    ensures { HearsAll H.hears h.old (clause_tells lits.now b.now) h.new }
{
    if lits.is_empty() {
        h.hear(no_number(0));
    } else {
        tell_some(lits, b, h);
    }
}

/// Gives the tells of a clause of some literals.
fn tell_some<H: Hear>(lits: &Literals, b: &BoxOf, h: &mut H)
    requires some { 0 < length lits.now }
    requires variables { AreVariables (length b.now) (clause_vars lits.now) }
    requires hearer { MayHearAll H.can_hear H.hears h.old (clause_tells lits.now b.now) }
    ensures { HearsAll H.hears h.old (clause_tells lits.now b.now) h.new }
{
    let left = count_left(lits, b);
    if left < 2 {
        tell_sole(lits, left, b, h);
    }
}

/// How many variables a clause names, with repeats.
#[tactic(auto, unfolding(crate::specs::Clause::clause_vars))]
pub fn clause_var_count(lits: &Literals) -> usize
    ensures { result ≡ length (clause_vars lits.now) }
{
    if lits.is_empty() { 1 } else { lits.len() }
}

/// The variable that a clause names at this place.
#[tactic(auto, unfolding(crate::specs::Clause::clause_vars))]
pub fn clause_var(lits: &Literals, place: usize) -> u32
    requires { place < length (clause_vars lits.now) }
    ensures { result ≡ slice_index (clause_vars lits.now) place }
{
    if lits.is_empty() {
        0
    } else {
        lits.at(place).var
    }
}

/// How many of the literals aren't out, or two where there are more.
fn count_left(lits: &Literals, b: &BoxOf) -> usize
    requires { AreLiterals (length b.now) lits.now }
    ensures { result ≡ min (count_by (λ l. not (words.is_out l b.now)) lits.now) 2 }
{
    let mut left = 0;
    for i in 0..lits.len() {
        if !is_out(lits.at(i), b) {
            if left == 1 {
                return 2;
            }
            left = 1;
        }
    }
    left
}

/// Tells each literal true beside which all others are out. `left` is how many aren't out.
fn tell_sole<H: Hear>(lits: &Literals, left: usize, b: &BoxOf, h: &mut H)
    requires variables { AreLiterals (length b.now) lits.now }
    requires hearer { MayHearAll H.can_hear H.hears h.old (flat_map (sole_tell left b.now) lits.now) }
    ensures { HearsAll H.hears h.old (flat_map (sole_tell left b.now) lits.now) h.new }
{
    for i in 0..lits.len() {
        tell_where_sole(lits.at(i), left, b, h);
    }
}

/// Tells the literal true where no other of the `left` that aren't out is left.
#[tactic(auto, unfolding(crate::specs::Clause::sole_tell))]
fn tell_where_sole<H: Hear>(lit: Lit, left: usize, b: &BoxOf, h: &mut H)
    requires variable { lit.var < length b.now }
    requires hearer { MayHearAll H.can_hear H.hears h.old (sole_tell left b.now lit) }
    ensures { HearsAll H.hears h.old (sole_tell left b.now lit) h.new }
{
    if left == own_count(lit, b) {
        h.hear(tell_true(lit));
    }
}

/// How many literals this one adds to those that aren't out: none or one.
fn own_count(lit: Lit, b: &BoxOf) -> usize
    requires { lit.var < length b.now }
    ensures { result ≡ cond (words.is_out lit b.now) 0 1 }
{
    if is_out(lit, b) { 0 } else { 1 }
}
