//! How far the searches of a portfolio have come. All of it are hints: no contract speaks of them.

use gate::Gate;
use std::sync::atomic::{AtomicU64, Ordering};

/// How many units of work the first turn of the free search has.
const FIRST_TURN: u64 = 1_000_000;

/// The number with which the free search passes a gate: no worker has it.
const FREE_NUMBER: u32 = 64;

/// For how many turns in which no part is searched the free search goes on.
const TURNS_ALONE: u64 = 16;

/// What the searches of a portfolio know of each other.
#[derive(Drop)]
pub struct Progress {
    // how many parts there are, how many were begun and how many are over
    parts: u64,
    begun: AtomicU64,
    over: AtomicU64,
    // 1 where nothing more need be searched
    ended: AtomicU64,
}

impl Progress {
    /// Before the first search of so many parts.
    pub fn new(parts: u32) -> Progress {
        Progress {
            parts: u64::from(parts),
            begun: AtomicU64::new(0),
            over: AtomicU64::new(0),
            ended: AtomicU64::new(0),
        }
    }

    /// The search of a part begins.
    pub fn begin(&self) {
        self.begun.fetch_add(1, Ordering::SeqCst);
    }

    /// The search of a part is over. Where it was refused memory nothing more need be searched.
    pub fn finish(&self, is_refused: bool) {
        if is_refused {
            self.end();
        }
        self.over.fetch_add(1, Ordering::SeqCst);
    }

    /// Nothing more need be searched.
    pub fn end(&self) {
        self.ended.store(1, Ordering::SeqCst);
    }

    /// Whether nothing more need be searched.
    pub fn is_ended(&self) -> bool {
        self.ended.load(Ordering::SeqCst) != 0
    }

    /// Whether the search of each part is over, or need not go on.
    fn is_over(&self) -> bool {
        self.is_ended() || self.over.load(Ordering::SeqCst) >= self.parts
    }

    /// Whether no part is searched now.
    fn is_quiet(&self) -> bool {
        self.begun.load(Ordering::SeqCst) <= self.over.load(Ordering::SeqCst)
    }
}

/// The turns of the free search: between them it looks whether there need be another.
#[derive(Drop)]
pub struct FreeTurns<'a, C> {
    progress: &'a Progress,
    // is passed before each turn
    gate: &'a C,
    turn: u64,
    // for how many turns no part was searched
    alone: u64,
}

impl<'a, C: Gate> FreeTurns<'a, C> {
    /// Before the first turn.
    pub fn new(progress: &'a Progress, gate: &'a C) -> FreeTurns<'a, C> {
        FreeTurns {
            progress,
            gate,
            turn: 0,
            alone: 0,
        }
    }

    /// How many units of work the next turn has, by how many were spent so far; none where there need be no other turn. That is
    /// an eighth of them, so that those who have ended don't wait long; and where no part was searched for some time, as where
    /// no other thread can be had, the parts come next.
    pub(crate) fn next(&mut self, spent: u64) -> Option<u64> {
        self.gate.pass(FREE_NUMBER, self.turn);
        self.turn = self.turn.saturating_add(1);
        if self.progress.is_quiet() {
            self.alone = self.alone.saturating_add(1);
        } else {
            self.alone = 0;
        }
        if self.progress.is_over() || self.alone > TURNS_ALONE {
            return None;
        }
        Some(FIRST_TURN.max(spent / 8))
    }
}
