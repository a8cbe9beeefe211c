//! Rows of turns.

ghost use Rattle.std.specs.Prelude.{◌≡◌, ◌<◌, [], length, OnOk};
ghost use Rattle.crew_core.specs.Lanes.{row_where};

use shared_types::{Listed, NoMemory};
use std::alloc::Global;
use std::marker::Model;

/// Rows of a hart with a number each, with room for more that was taken before.
#[derive(Drop)]
pub(crate) struct Rows<N: Drop> {
    rows: Vec<(u8, N)>,
}

impl<N: Drop> Model for Rows<N> {
    ghost use Rattle.std.specs.Prelude.{vec_capacity};
    ghost use Rattle.crew_core.specs.Lanes as lanes;

    ghost Value = { lanes.Rows N };

    ghost view = { λ r. record { rows = r.rows.items; room = vec_capacity r.rows } };
}

impl<N: Drop> Rows<N> {
    /// No rows, and no room. It takes no memory.
    pub(crate) fn start(alloc: Global) -> Rows<N>
        ensures { result.rows ≡ [] }
    {
        Rows {
            rows: Vec::new(alloc),
        }
    }

    /// Makes room for one more row.
    pub(crate) fn reserve(&mut self) -> Result<(), NoMemory>
        ensures rows { self.new.rows ≡ self.old.rows }
        ensures room { OnOk result (length self.new.rows < self.new.room) }
    {
        self.rows.reserve(1).map_err(|_| NoMemory)
    }

    /// Adds a row, where there is one to be. It takes no memory.
    pub(crate) fn note(&mut self, noted: bool, hart: u8, number: N)
        requires { length self.old.rows < self.old.room }
        ensures { self.new.rows ≡ row_where noted (hart, number) self.old.rows }
    {
        if noted {
            self.rows.push_reserved((hart, number));
        }
    }

    /// How many there are.
    pub(crate) fn count(&self) -> usize
        ensures { result ≡ length self.now.rows }
    {
        self.rows.len()
    }

    /// The rows as a list.
    pub(crate) fn into_list(self) -> Listed<(u8, N)>
        ensures { result ≡ self.rows }
    {
        Listed::of(self.rows)
    }
}
