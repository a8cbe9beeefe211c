//! The entries of one hart so far.

ghost use Rattle.std.specs.Prelude.{◌≡◌, ◌<◌, ◌≤◌, ◌+◌, ◌^◌, ◌++◌, ◌∷◌, [], length, IfOk, OnOk};
ghost use Rattle.log_entry.specs.Room.{entry_without_room};

use log_entry::Entry;
use shared_types::NoMemory;
use std::alloc::Global;
use std::marker::Model;

/// The entries of one hart, with room for more that was taken before. One place stays free for its End.
#[derive(Drop)]
pub(crate) struct Lane {
    pub(crate) entries: Vec<Entry>,
}

impl Model for Lane {
    ghost use Rattle.std.specs.Prelude.{◌<◌, ◌-◌, length, map, vec_capacity};
    ghost use Rattle.crew_core.specs.Lanes as lanes;
    ghost use Rattle.log_entry.specs.Room.{entry_without_room};

    ghost Value = { lanes.Lane };

    ghost view = { λ l. record { entries = map entry_without_room l.entries.items; room = vec_capacity l.entries - 1 } };

    ghost invariant = { λ l. length l.entries.items < vec_capacity l.entries };
}

impl Lane {
    /// No entries, with room for an End.
    pub(crate) fn start(alloc: Global) -> Result<Lane, NoMemory>
        ensures { IfOk result (λ l. l ≡ record { entries = []; room = 0 }) }
    {
        match Vec::with_capacity(alloc, 1) {
            Ok(entries) => Ok(Lane { entries }),
            Err(_) => Err(NoMemory),
        }
    }

    /// How many entries there are.
    pub(crate) fn len(&self) -> u64
        ensures value { result ≡ length self.now.entries }
        ensures bound { result < 2 ^ 63 }
    {
        self.entries.len() as u64
    }

    /// Adds an entry. It takes no memory.
    pub(crate) fn push(&mut self, entry: Entry)
        requires { length self.old.entries < self.old.room }
        ensures { self.new ≡ record self.old { entries = self.old.entries ++ entry_without_room entry ∷ [] } }
    {
        self.entries.push_reserved(entry);
    }

    /// Makes room for so many more entries.
    pub(crate) fn reserve(&mut self, more: usize) -> Result<(), NoMemory>
        requires { more < 2 ^ 32 }
        ensures entries { self.new.entries ≡ self.old.entries }
        ensures room { OnOk result (length self.new.entries + more ≤ self.new.room) }
    {
        self.entries.reserve(more + 1).map_err(|_| NoMemory)
    }
}
