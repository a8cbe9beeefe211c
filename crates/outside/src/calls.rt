//! The numbered calls of a form in memory, some of which are to fail, and its count of faults.

ghost use Rattle.std.specs.Prelude.{◌≡◌, ◌≤◌, IfOk};
ghost use Rattle.outside.specs.Causes.{Rose};
ghost use Rattle.outside.specs.Numbered.{calls_at_start, fails_next, one_more};

use crate::{Failed, NoMemory};
use std::alloc::Global;
use std::marker::Model;

#[derive(Drop)]
pub(crate) struct Calls {
    fails: Vec<u64>,
    next: u64,
    faults: u64,
}

impl Model for Calls {
    ghost use Rattle.outside.specs.Numbered as numbered;

    ghost Value = { numbered.Numbered };

    ghost view = { λ c. record { fails = c.fails.items; next = c.next; faults = c.faults } };
}

impl Calls {
    pub(crate) fn start(alloc: Global, fails: &[u64]) -> Result<Calls, NoMemory>
        ensures { IfOk result (λ c. c ≡ calls_at_start fails.now) }
    {
        match Vec::from_slice(alloc, fails) {
            Ok(fails) => Ok(Calls {
                fails,
                next: 0,
                faults: 0,
            }),
            Err(_) => Err(NoMemory),
        }
    }

    /// Counts the call that is being made, and says whether it is one that is to fail.
    pub(crate) fn next_fails(&mut self) -> bool
        ensures listed { result ≡ fails_next self.old }
        ensures counted { self.new ≡ record self.old { next = one_more self.old.next } }
    {
        let call = self.next;
        self.next = call.saturating_add(1);
        self.fails.contains(&call)
    }

    /// Counts a fault.
    pub(crate) fn fault(&mut self) -> Failed
        ensures counted { self.new ≡ record self.old { faults = one_more self.old.faults } }
        ensures rose { Rose self.old.faults self.new.faults }
        ensures later { self.old.faults ≤ self.new.faults }
    {
        self.faults = self.faults.saturating_add(1);
        Failed
    }
}
