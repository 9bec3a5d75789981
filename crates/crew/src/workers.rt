//! A crew, as it is kept from one job to the next.

ghost use Rattle.std.specs.Prelude.{◌≡◌, ◌≤◌, [], ◌∷◌, length, map, IfOk, replicate};

use crate::worker::Worker;
use memory::NoMemory;
use std::alloc::Global;

/// Some workers: how they get their numbers, and how many times each has asked for one, so that its gate can tell the times
/// apart.
#[derive(Drop)]
pub struct Workers {
    turns: Vec<u64>,
    steals: bool,
    ghost some: { 1 ≤ length turns.items },
    ghost few: { length turns.items ≤ 64 },
}

impl Workers {
    ghost use Rattle.crew.specs.Crews.{workers_of, steals_of, turns_of};

    /// So many workers, which have asked for no number yet. The numbers are dealt to them, and who has none left steals one
    /// where `steals`; else they draw tickets.
    pub fn new(alloc: Global, workers: u32, steals: bool) -> Result<Workers, NoMemory>
        requires some { 1 ≤ workers }
        requires few { workers ≤ 64 }
        ensures turns { IfOk result (λ crew. turns_of crew ≡ replicate workers 0) }
        ensures steals { IfOk result (λ crew. steals_of crew ≡ steals) }
    {
        let turns = vec![in alloc; 0u64; workers as usize]?;
        Ok(Workers { turns, steals })
    }

    /// How many workers there are, 1 to 64.
    pub(crate) fn count(&self) -> u32
        ensures count { result ≡ workers_of self.now }
        ensures some { 1 ≤ result }
        ensures few { result ≤ 64 }
    {
        self.turns.len() as u32
    }

    /// Whether they steal numbers.
    pub(crate) fn steals(&self) -> bool
        ensures { result ≡ steals_of self.now }
    {
        self.steals
    }

    /// How many times each worker has asked for a number by now.
    pub(crate) fn turns(&self) -> &[u64]
        ensures { result.now ≡ turns_of self.now }
    {
        self.turns.as_slice()
    }

    /// How many times the one worker has asked for a number by now.
    pub(crate) fn sole_turn(&self) -> u64
        requires sole { workers_of self.now ≡ 1 }
        ensures { turns_of self.now ≡ result ∷ [] }
    {
        self.turns[0]
    }

    /// Notes how many times the one worker has asked for a number by now.
    pub(crate) fn note_sole_turn(&mut self, turn: u64)
        requires sole { workers_of self.old ≡ 1 }
        ensures turns { turns_of self.new ≡ turn ∷ [] }
        ensures steals { steals_of self.new ≡ steals_of self.old }
    {
        self.turns[0] = turn;
    }

    /// Notes how many times each worker has asked for a number by now.
    pub(crate) fn note_turns<N, S, W, E>(&mut self, workers: &[Worker<N, S, W, E>])
        requires { length workers.now ≡ workers_of self.old }
        ensures turns { turns_of self.new ≡ map (λ worker. worker.turn) workers.now }
        ensures steals { steals_of self.new ≡ steals_of self.old }
    {
        for place in 0..workers.len() {
            self.turns[place] = workers[place].turn;
        }
    }
}
