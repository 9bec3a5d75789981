//! Variables that no line of a solution shows.

ghost use Rattle.std.specs.Prelude.{◌≡◌, ◌↔◌, ℕ, flat_map, pos, Contains, IsTrue, IfSome, IsNone, IsSome, MatchOption};
ghost use Rattle.constraint_model.specs.declared.model.Term.{Term};
ghost use Rattle.constraint_model.specs.WellFormed.{IsWellFormed};
ghost use Rattle.fzn_print.specs.Reading.{AllPrinted, IsFirstHidden, terms_in};

use constraint_model::{FznModel, Output, Term};

/// Where something is printed.
#[derive(Debug, Clone, Copy, PartialEq, Eq)]
struct Place {
    /// The place of the output.
    output: usize,
    /// The place among its entries.
    entry: usize,
}

/// The place before all others.
const START: Place = Place {
    output: 0,
    entry: 0,
};

/// Whether a term is this variable.
fn is_variable(term: Term, variable: u32) -> bool
    ensures { IsTrue result ↔ (term ≡ Term.Var variable) }
{
    match term {
        Term::Var(place) => place == variable,
        Term::Number(_) => false,
    }
}

/// The place of a variable among entries, looked for from this one on.
fn find_entry(entries: &[Term], from: usize, variable: u32) -> Option<usize>
    ensures found { IsSome result → Contains entries.now (Term.Var variable) }
    ensures none { IsNone result → from ≡ 0 → Contains entries.now (Term.Var variable) → ⊥ }
{
    for place in from..entries.len() {
        if is_variable(entries[place], variable) {
            return Some(place);
        }
    }
    None
}

/// The place of a variable in an output, looked for from this entry on.
fn find_in(output: &Output, from: usize, variable: u32) -> Option<usize>
    ensures found { IsSome result → Contains (terms_in output.now) (Term.Var variable) }
    ensures none { IsNone result → from ≡ 0 → Contains (terms_in output.now) (Term.Var variable) → ⊥ }
{
    match output {
        Output::Scalar { value, .. } => find_entry(&[*value], from, variable),
        Output::Array { entries, .. } => find_entry(entries.as_slice(), from, variable),
    }
}

/// The place of a variable in outputs, looked for from this place on.
fn find_from(outputs: &[Output], from: Place, variable: u32) -> Option<Place>
    ensures found { IsSome result → Contains (flat_map terms_in outputs.now) (Term.Var variable) }
    ensures none { IsNone result → from.output ≡ 0 → from.entry ≡ 0 → Contains (flat_map terms_in outputs.now) (Term.Var variable) → ⊥ }
{
    let mut entry = from.entry;
    for output in from.output..outputs.len() {
        if let Some(entry) = find_in(&outputs[output], entry, variable) {
            return Some(Place { output, entry });
        }
        entry = 0;
    }
    None
}

/// The place of a variable, looked for from this place on and then from the start.
fn find_around(outputs: &[Output], from: Place, variable: u32) -> Option<Place>
    ensures found { IsSome result → Contains (flat_map terms_in outputs.now) (Term.Var variable) }
    ensures none { IsNone result → Contains (flat_map terms_in outputs.now) (Term.Var variable) → ⊥ }
{
    match find_from(outputs, from, variable) {
        Some(place) => Some(place),
        None => find_from(outputs, START, variable),
    }
}

/// The first declared variable that isn't printed, by itself or as an entry of an array. It takes no memory, and time in
/// proportion to what is printed where variables are printed in the order of their declarations.
pub fn hidden(model: &FznModel) -> Option<u32>
    requires { IsWellFormed model.now }
    ensures { MatchOption result (AllPrinted model.now) (IsFirstHidden model.now) }
{
    let outputs = model.output.as_slice();
    let mut place = START;
    for variable in 0..model.vars.len() as u32 {
        match find_around(outputs, place, variable) {
            Some(found) => place = found,
            None => return Some(variable),
        }
    }
    None
}
