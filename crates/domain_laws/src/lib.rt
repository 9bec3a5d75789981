//! No solution of a model lies outside the domains that propagation alone leaves; where it leaves none there is no solution.
//!
//! A law alone, no code that runs: `law_solutions_are_left`. The numbers of a solution are a closed mix inside the start, and so
//! inside the greatest one. It builds on `domain_drops` and `decompose`; `domain_text` writes the domains. Begin with
//! `specs/Left.antt`.
#![tactic(auto)]

ghost use Rattle.domain_laws.specs.Left.{LeftHoldSolutions, NoneLeftNoSolution};

use bit_domain::{law_between, law_hull, law_inside};
use decompose::law_some_program;
use domain_drops::law_drop_point;

/// No solution of a well-formed model lies outside the domains that propagation leaves, and where it leaves none the model has
/// no solution. It does nothing.
pub fn law_solutions_are_left()
    ensures left { LeftHoldSolutions }
    ensures none { NoneLeftNoSolution }
{
    law_hull();
    law_inside();
    law_between();
    law_drop_point();
    law_some_program();
}
