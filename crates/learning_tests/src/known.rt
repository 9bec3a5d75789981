//! Whether a known solution meets a nogood.

use guarded_tell::{Side, Tell};
use nogoods::Nogood;

/// Whether the solution meets the literal.
fn is_met_at(t: Tell, solution: &[i64]) -> bool {
    match solution.get(t.var as usize) {
        None => false,
        Some(number) => match t.side {
            Side::Low => t.bound <= *number,
            Side::High => *number <= t.bound,
        },
    }
}

/// Whether the solution, a number for each variable of the box, meets all literals of the nogood: then it isn't one.
pub fn is_met_by(nogood: &Nogood, solution: &[i64]) -> bool {
    nogood
        .literals
        .as_slice()
        .iter()
        .all(|t| is_met_at(*t, solution))
}
