//! A count of events, at which threads wait until there is another.

use std::sync::Wait;
use std::sync::atomic::{AtomicU64, Ordering};
use std::thread::yield_now;

/// Where the count that is read begins again.
const COUNTS: u64 = 0x1_0000_0000;

/// How often a thread looks for another event before it sleeps. A hart mostly waits for no longer than another's leg.
const EVENT_LOOKS: u32 = 64;

/// How many turns changed the board, or showed that there is no more to do, and how often memory was refused for one.
#[derive(Drop)]
pub struct EventCount {
    count: AtomicU64,
    /// How many threads sleep, or are about to.
    sleepers: AtomicU64,
}

impl EventCount {
    pub fn new() -> EventCount {
        EventCount {
            count: AtomicU64::new(0),
            sleepers: AtomicU64::new(0),
        }
    }

    /// The count, modulo 2^32.
    pub fn read(&self) -> u32 {
        (self.count.load(Ordering::SeqCst) % COUNTS) as u32
    }

    /// One more, of which all that sleep are told.
    pub fn advance(&self) {
        let _ = self.count.fetch_add(1, Ordering::SeqCst);
        if self.sleepers.load(Ordering::SeqCst) != 0 {
            self.count.wake_all();
        }
    }

    /// Whether there was another event since the count was read, within some looks. In between other threads go first.
    fn moves_on(&self, read: u32) -> bool {
        for _ in 0..EVENT_LOOKS {
            if self.read() != read {
                return true;
            }
            yield_now();
        }
        false
    }

    /// Waits while the count is the one that was read, soon asleep. It may go on for no reason.
    pub fn wait_beyond<R: Wait>(&self, wait: &R, read: u32) {
        if self.moves_on(read) {
            return;
        }
        let _ = self.sleepers.fetch_add(1, Ordering::SeqCst);
        self.count.park(wait, read);
        let _ = self.sleepers.fetch_sub(1, Ordering::SeqCst);
    }
}
