//! The Yields of one page since its latest Gain.

ghost use Rattle.std.specs.Prelude.{◌≡◌, ◌<◌, ◌≤◌, ◌-◌, ◌∷◌, ◌++◌, [], length};
ghost use Rattle.privilege_directory.specs.Directory.{by_others};

use log_entry::{WaitFor, Waits};
use rv_words::MAX_HARTS;
use std::marker::Model;

const MOST: usize = 8;

#[derive(Drop)]
pub(crate) struct Yields {
    list: [WaitFor; MOST],
    number: usize,
}

impl Model for Yields {
    ghost use Rattle.std.specs.Prelude.{List, ◌≤◌, take};
    ghost use Rattle.log_entry.specs.declared.waits.WaitFor.{WaitFor};

    ghost Value = { List WaitFor };

    ghost view = { λ y. take y.number y.list };

    ghost invariant = { λ y. y.number ≤ 8 };
}

impl Yields {
    pub(crate) fn none() -> Yields
        ensures { result ≡ [] }
    {
        Yields {
            list: [WaitFor { hart: 0, count: 0 }; MOST],
            number: 0,
        }
    }

    pub(crate) fn push(&mut self, wait: WaitFor)
        requires { length self.old < MAX_HARTS }
        ensures { self.new ≡ self.old ++ wait ∷ [] }
    {
        self.list[self.number] = wait;
        self.number += 1;
    }

    pub(crate) fn clear(&mut self)
        ensures { self.new ≡ [] }
    {
        self.number = 0;
    }

    pub(crate) fn list(&self) -> &[WaitFor]
        ensures { result.now ≡ self.now }
    {
        &self.list[..self.number]
    }

    /// How many Yields are by harts other than this one.
    pub(crate) fn others(&self, hart: u8) -> u64
        ensures { result ≡ length (by_others hart self.now) }
    {
        self.list().iter().filter(|wait| wait.hart != hart).count() as u64
    }

    /// Adds the Yields by harts other than this one to the waits.
    pub(crate) fn tell_others(&self, hart: u8, waits: &mut Waits)
        requires empty { waits.old.items ≡ [] }
        requires few { length (by_others hart self.now) ≤ MAX_HARTS - 1 }
        requires room { MAX_HARTS - 1 ≤ waits.old.room }
        ensures list { waits.new.items ≡ by_others hart self.now }
        ensures room { waits.new.room ≡ waits.old.room }
    {
        for wait in self.list() {
            if wait.hart != hart {
                waits.push(*wait);
            }
        }
    }
}
