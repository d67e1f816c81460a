//! What happens once, and others wait for.

use std::sync::atomic::{AtomicU64, Ordering};
use std::thread;

/// The most turns that somebody waits.
const TURNS: u32 = 10_000_000;

/// Something that happens once.
#[derive(Drop)]
pub struct Moment(AtomicU64);

impl Moment {
    pub fn new() -> Moment {
        Moment(AtomicU64::new(0))
    }

    pub fn comes(&self) {
        self.0.store(1, Ordering::SeqCst);
    }

    pub fn came(&self) -> bool {
        self.0.load(Ordering::SeqCst) == 1
    }

    /// Waits for it. False where all turns are over first.
    pub fn is_met(&self) -> bool {
        for _ in 0..TURNS {
            if self.came() {
                return true;
            }
            thread::yield_now();
        }
        false
    }
}
