//! How much work a search did. All of it are hints: no contract speaks of them.

ghost use Rattle.std.specs.Prelude.{◌≡◌, None, IsFalse};

use crate::searcher::Searcher;

/// What a node costs besides its visits and the choice of a variable.
const NODE_WORK: u64 = 8;

/// Of so many variables the choice of one costs a unit.
const VARIABLES_A_UNIT: u64 = 16;

/// The units of work of a node besides its visits, where the box has so many variables: a hint, for plain searches and others.
pub fn node_work(variables: u32) -> u64 {
    (variables as u64 / VARIABLES_A_UNIT).saturating_add(NODE_WORK)
}

/// The units of work that were done: those of the visits, and some for each node.
#[derive(Drop)]
pub(crate) struct Meter {
    // the units of all visits when it was last looked
    visited: u64,
    // what a node costs besides
    node: u64,
    spent: u64,
}

impl Meter {
    /// Before the first node of a box of so many variables.
    pub(crate) fn new(variables: u32) -> Meter {
        Meter {
            visited: 0,
            node: node_work(variables),
            spent: 0,
        }
    }

    /// The units of work so far.
    pub(crate) fn spent(&self) -> u64 {
        self.spent
    }

    /// Counts a node, and the visits since the last.
    pub(crate) fn count(&mut self, searcher: &Searcher) {
        let visited = searcher.narrower.visits();
        let visits = visited.saturating_sub(self.visited);
        self.visited = visited;
        self.spent = self.spent.saturating_add(visits).saturating_add(self.node);
    }

    /// Where a turn of so much work ends; without a number nowhere.
    pub(crate) fn end_of(&self, work: Option<u64>) -> Option<u64>
        ensures { work ≡ None → result ≡ None }
    {
        match work {
            Some(work) => Some(self.spent.saturating_add(work)),
            None => None,
        }
    }

    /// Whether a turn that ends there is over.
    pub(crate) fn is_over(&self, end: Option<u64>) -> bool
        ensures { end ≡ None → IsFalse result }
    {
        match end {
            Some(end) => self.spent >= end,
            None => false,
        }
    }
}
