//! The gate that workers pass, and the two that there are.

ghost use Rattle.std.specs.Prelude.{◌≡◌};

use std::hint::spin_loop;
use std::marker::Model;
use std::sync::atomic::{AtomicBool, Ordering};

/// What each worker passes before each leg of its hart, with `after` false, and again between that leg and the next
/// turn, with `after` true. `leg` counts from 0 per hart. It changes nothing that a clause names.
pub trait Gate: Sync {
    fn pass(&self, hart: u8, leg: u64, after: bool);
}

/// A gate that lets all pass.
#[derive(Clone, Copy, Debug, PartialEq, Eq, Drop)]
pub struct OpenGate;

impl Gate for OpenGate {
    fn pass(&self, _hart: u8, _leg: u64, _after: bool) {}
}

const TRIES: u32 = 100_000_000;

/// A gate that holds each of harts 0 and 1 at its pass after one leg until the other has come to its own, for a
/// stated number of tries. Other harts pass at once.
#[derive(Drop)]
pub struct HoldGate {
    leg: u64,
    first_came: AtomicBool,
    second_came: AtomicBool,
    ran_out: AtomicBool,
}

impl Model for HoldGate {
    ghost use Rattle.std.specs.Prelude.{ℕ};

    ghost Value = { ℕ };

    ghost view = { λ g. g.leg };
}

impl HoldGate {
    /// Contracts see it as the number of its leg.
    pub fn start(leg: u64) -> HoldGate
        ensures { result ≡ leg }
    {
        HoldGate {
            leg,
            first_came: AtomicBool::new(false),
            second_came: AtomicBool::new(false),
            ran_out: AtomicBool::new(false),
        }
    }

    /// Whether a hart ran out of tries.
    pub fn ran_out(&self) -> bool {
        self.ran_out.load(Ordering::SeqCst)
    }

    fn meet(&self, mine: &AtomicBool, other: &AtomicBool) {
        mine.store(true, Ordering::SeqCst);
        for _ in 0..TRIES {
            if other.load(Ordering::SeqCst) {
                return;
            }
            spin_loop();
        }
        self.ran_out.store(true, Ordering::SeqCst);
    }
}

impl Gate for HoldGate {
    fn pass(&self, hart: u8, leg: u64, after: bool) {
        if !after || leg != self.leg {
            return;
        }
        match hart {
            0 => self.meet(&self.first_came, &self.second_came),
            1 => self.meet(&self.second_came, &self.first_came),
            _ => {}
        }
    }
}
