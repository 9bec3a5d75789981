//! The laws of the clause. A law does nothing: its contract is what it says.

ghost use Rattle.std.specs.Prelude.{List};
ghost use Rattle.tells.specs.declared.tell.Lit.{Lit};
ghost use Rattle.tells.specs.Laws.{IsMonotone, IsExact, TellsOnly, ReadsOnly, IsRelationOf};
ghost use Rattle.clause_tells.specs.Clause.{clause_vars, clause_tells, IsClause};

use interval::law_clamp_order;

/// No tell of a clause on a box narrows a box that is closed under it and, in its variables, inside that box.
pub fn law_clause_monotone()
    ensures { (lits : List Lit) → IsMonotone (clause_vars lits) (clause_tells lits) }
{}

/// A point of numbers is closed under a clause exactly where the relation holds.
pub fn law_clause_point()
    ensures { (lits : List Lit) → IsExact (clause_vars lits) (clause_tells lits) (IsClause lits) }
{
    law_clamp_order();
}

/// Each tell of a clause is on one of its variables, and its bound is one.
pub fn law_clause_place()
    ensures { (lits : List Lit) → TellsOnly (clause_vars lits) (clause_tells lits) }
{
    law_clamp_order();
}

/// Tells and relation of a clause depend on its variables alone.
pub fn law_clause_local()
    ensures tells { (lits : List Lit) → ReadsOnly (clause_vars lits) (clause_tells lits) }
    ensures relation { (lits : List Lit) → IsRelationOf (clause_vars lits) (IsClause lits) }
{}
