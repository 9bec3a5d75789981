//! Gates: where a thread may be held up before each of its steps.
//!
//! No clause speaks of a gate, so every clause holds for every gate; the program passes `NoGate`, and tests pass gates that
//! wait for each other. It stands on nothing. That a gate which waits is ever left isn't claimed.
#![tactic(auto)]

/// Is called by each lane or worker before each of its steps: a lane's pass over a propagator, a worker's draw of a
/// number. It can hold the caller up; what the call says holds for every gate. All callers share it.
pub trait Gate {
    /// The lane or worker of this number is about to begin a step. `turn` counts its steps from 0.
    fn pass(&self, number: u32, turn: u64);
}

/// The gate that holds nobody up.
#[derive(Clone, Copy, PartialEq, Eq, Debug)]
pub struct NoGate;

impl Gate for NoGate {
    fn pass(&self, _number: u32, _turn: u64) {}
}
