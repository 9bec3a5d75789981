//! The bounds that a clause tells: some literal of a list is true.
//!
//! Exactly the tells of the definition, in order (`visit_clause`); monotone, exact at a point, on its own variables alone
//! (`src/laws.rt`). `Literals` is the list, which clauses of the same array share. It stands on `tells` and `shared_list`;
//! `guarded_tell` has the clause as a kernel, and the test by two remembered places that it narrows nothing. Begin with
//! `specs/Clause.antt`.
#![tactic(auto)]

mod clause;
mod laws;
mod literal_list;

pub use clause::{clause_var, clause_var_count, visit_clause};
pub use laws::{law_clause_local, law_clause_monotone, law_clause_place, law_clause_point};
pub use literal_list::Literals;
