//! The clock outside, and one in memory.

ghost use Rattle.std.specs.Prelude.{◌≡◌};
ghost use Rattle.outside.specs.Seen.{SeenClock, ToldBefore, Tells};
ghost use Rattle.outside.specs.Clocks.{tick_at, seen_of_clock};
ghost use Rattle.outside.specs.Numbered.{one_more};

use std::marker::Model;

/// Answers a time in microseconds at each call.
pub trait Clock: Send + Drop {
    /// What contracts see of it.
    ghost seen: { Self → SeenClock };

    fn now(&mut self) -> u64
        ensures tells { ToldBefore (seen self.old).tells (seen self.new).tells }
        ensures answered { Tells result (seen self.old) (seen self.new) };
}

/// A clock that answers a first number, and then the same step more at each call, up to the last number of 64 bits.
#[derive(Drop)]
pub struct MemClock {
    first: u64,
    next: u64,
    step: u64,
    given: u64,
}

impl Model for MemClock {
    ghost use Rattle.std.specs.Prelude.{◌≡◌};
    ghost use Rattle.outside.specs.Clocks as clocks;

    ghost Value = { clocks.MemClockState };

    ghost view = { λ c. record { first = c.first; step = c.step; given = c.given } };

    ghost invariant = { λ c. c.next ≡ clocks.tick_at c.first c.step c.given };
}

impl MemClock {
    pub fn start(first: u64, step: u64) -> MemClock
        ensures { result ≡ record { first = first; step = step; given = 0 } }
    {
        MemClock {
            first,
            next: first,
            step,
            given: 0,
        }
    }
}

impl Clock for MemClock {
    ghost seen = { seen_of_clock };

    fn now(&mut self) -> u64
        ensures answered { Tells result (seen_of_clock self.old) (seen_of_clock self.new) }
        ensures answer { result ≡ tick_at self.old.first self.old.step self.old.given }
        ensures counted { self.new ≡ record self.old { given = one_more self.old.given } }
    {
        let answer = self.next;
        if self.given < u64::MAX {
            self.given += 1;
            self.next = answer.saturating_add(self.step);
        }
        answer
    }
}
