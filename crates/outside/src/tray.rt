//! A list of bytes with room for a stated number, which it takes at once.

ghost use Rattle.std.specs.Prelude.{◌≡◌, ◌++◌, ◌+◌, ◌≤◌, [], length, IfOk, IsTrue, ◌↔◌, if◌then◌else◌};

use crate::NoMemory;
use std::alloc::Global;
use std::marker::Model;

#[derive(Drop)]
pub(crate) struct Tray {
    bytes: Vec<u8>,
    room: u64,
}

impl Model for Tray {
    ghost use Rattle.outside.specs.Sinks as sinks;
    ghost use Rattle.std.specs.Prelude.{◌≤◌, vec_len, vec_capacity};

    ghost Value = { sinks.TrayState };

    ghost view = { λ t. record { bytes = t.bytes.items; room = t.room } };

    ghost invariant = { λ t. (vec_len t.bytes ≤ t.room) × (t.room ≤ vec_capacity t.bytes) };
}

impl Tray {
    pub(crate) fn start(alloc: Global, room: u64) -> Result<Tray, NoMemory>
        ensures { IfOk result (λ t. t ≡ record { bytes = []; room = room }) }
    {
        match Vec::with_capacity(alloc, room as usize) {
            Ok(bytes) => Ok(Tray { bytes, room }),
            Err(_) => Err(NoMemory),
        }
    }

    /// Puts these bytes behind those that are there, and says whether there was room.
    pub(crate) fn put(&mut self, bytes: &[u8]) -> bool
        ensures fits { IsTrue result ↔ (length self.old.bytes + length bytes.now ≤ self.old.room) }
        ensures bytes { self.new.bytes ≡ (if result then self.old.bytes ++ bytes.now else self.old.bytes) }
        ensures room { self.new.room ≡ self.old.room }
    {
        if self.room - (self.bytes.len() as u64) < bytes.len() as u64 {
            return false;
        }
        self.bytes.extend_from_slice(bytes).is_ok()
    }

    pub(crate) fn clear(&mut self)
        ensures { self.new ≡ record self.old { bytes = [] } }
    {
        self.bytes.clear();
    }

    pub(crate) fn as_slice(&self) -> &[u8]
        ensures bytes { result.now ≡ self.now.bytes }
        ensures within { length self.now.bytes ≤ self.now.room }
    {
        self.bytes.as_slice()
    }
}
