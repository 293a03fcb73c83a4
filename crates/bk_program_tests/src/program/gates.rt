//! Gates that see whether two workers are in a round at once, and in which order the claims come.
use bk_io::Gate;
use std::sync::atomic::{AtomicBool, AtomicU64, Ordering};

/// How often a held claim looks for the other.
const LOOKS: u32 = 2_000_000_000;

/// Holds the claim 0 of each round until another worker comes with the claim 1 of the same round, and counts the claims of
/// four functions.
#[derive(Drop)]
pub struct Held {
    zeros: AtomicU64,
    ones: AtomicU64,
    failed: AtomicBool,
    seen: [AtomicU64; 4],
}

impl Held {
    pub fn new() -> Held {
        Held {
            zeros: AtomicU64::new(0),
            ones: AtomicU64::new(0),
            failed: AtomicBool::new(false),
            seen: [
                AtomicU64::new(0),
                AtomicU64::new(0),
                AtomicU64::new(0),
                AtomicU64::new(0),
            ],
        }
    }

    fn wait(&self, round: u64) -> bool {
        for _ in 0..LOOKS {
            if self.ones.load(Ordering::SeqCst) > round {
                return true;
            }
        }
        false
    }

    pub fn failed(&self) -> bool {
        self.failed.load(Ordering::SeqCst)
    }

    /// How often a number came.
    pub fn times(&self, number: usize) -> u64 {
        match self.seen.get(number) {
            Some(seen) => seen.load(Ordering::SeqCst),
            None => 0,
        }
    }
}

impl Gate for Held {
    fn at_claim(&self, _worker: u32, number: u64) {
        match self.seen.get(number as usize) {
            Some(seen) => {
                seen.fetch_add(1, Ordering::SeqCst);
            }
            None => self.failed.store(true, Ordering::SeqCst),
        }
        if number == 1 {
            self.ones.fetch_add(1, Ordering::SeqCst);
        }
        if number == 0 {
            let round = self.zeros.fetch_add(1, Ordering::SeqCst);
            if !self.wait(round) {
                self.failed.store(true, Ordering::SeqCst);
            }
        }
    }
}

/// Notes whether the claims of so many functions come in rising order, round by round.
#[derive(Drop)]
pub struct Rising {
    count: u64,
    next: AtomicU64,
    failed: AtomicBool,
}

impl Rising {
    pub fn new(count: u64) -> Rising {
        Rising {
            count,
            next: AtomicU64::new(0),
            failed: AtomicBool::new(false),
        }
    }

    pub fn failed(&self) -> bool {
        self.failed.load(Ordering::SeqCst)
    }

    pub fn claims(&self) -> u64 {
        self.next.load(Ordering::SeqCst)
    }
}

impl Gate for Rising {
    fn at_claim(&self, _worker: u32, number: u64) {
        let next = self.next.fetch_add(1, Ordering::SeqCst);
        if next != number && next != number.wrapping_add(self.count) {
            self.failed.store(true, Ordering::SeqCst);
        }
    }
}
