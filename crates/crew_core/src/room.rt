//! Room for one turn.

ghost use Rattle.std.specs.Prelude.{◌≡◌, ◌<◌, ◌≤◌, All, OnOk, length};
ghost use Rattle.crew_core.specs.Seats.{HasRoomForAll};
ghost use Rattle.crew_core.specs.Kept.{IsRoomier, IsSpare};

use crate::crew::Crew;
use log_entry::Waits;
use shared_types::NoMemory;
use std::alloc::Global;

/// Two of the waits that were made before.
pub(crate) fn take_two(spare: &mut Vec<Waits>) -> (Waits, Waits)
    requires two { 2 ≤ length spare.old.items }
    requires empty { All IsSpare spare.old.items }
    ensures first { IsSpare result.0 }
    ensures second { IsSpare result.1 }
    ensures rest { All IsSpare spare.new.items }
{
    let (Some(first), Some(second)) = (spare.pop(), spare.pop()) else {
        unreachable!()
    };
    (first, second)
}

/// Makes two spare waits at least, each with room for the Yields that a Gain may come behind.
pub(crate) fn fill(alloc: Global, spare: &mut Vec<Waits>) -> Result<(), NoMemory>
    requires { All IsSpare spare.old.items }
    ensures spare { All IsSpare spare.new.items }
    ensures two { OnOk result (2 ≤ length spare.new.items) }
{
    while spare.len() < 2 {
        let Ok(room) = Vec::with_capacity(alloc, 7) else {
            return Err(NoMemory);
        };
        let Ok(()) = spare.push(Waits::of(room)) else {
            return Err(NoMemory);
        };
    }
    Ok(())
}

impl Crew {
    /// Makes room for the entries of one turn of any hart, and for a console byte.
    pub(crate) fn prepare(&mut self) -> Result<(), NoMemory>
        ensures roomier { IsRoomier self.old self.new }
        ensures lanes { OnOk result (HasRoomForAll 12 self.new.seats) }
        ensures bytes { OnOk result (0 < self.new.backing.devices.spare) }
    {
        self.seats.reserve(12)?;
        self.backing.devices.reserve(1)
    }
}
