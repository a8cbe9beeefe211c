//! The sink of the report, and those in memory.

ghost use Rattle.std.specs.Prelude.{◌≡◌, ◌++◌, [], false, not, OnOk, OnErr, IfOk, is_ok, IsOk, if◌then◌else◌};
ghost use Rattle.outside.specs.Causes.{HasCause};
ghost use Rattle.outside.specs.Seen.{SeenSink, ToldBefore, Writes, WritesPart};
ghost use Rattle.outside.specs.Numbered.{calls_at_start, after_call};
ghost use Rattle.outside.specs.Sinks.{writes, seen_of_sink};

use crate::calls::Calls;
use crate::tray::Tray;
use crate::{Failed, NoMemory};
use std::alloc::Global;
use std::marker::Model;

/// Takes the report, piece by piece.
pub trait Sink {
    /// What contracts see of it.
    ghost seen: { Self → SeenSink };

    /// Writes these bytes behind those written before. After `Failed` some first part of them may be written.
    fn put(&mut self, bytes: &[u8]) -> Result<(), Failed>
        ensures tells { ToldBefore (seen self.old).tells (seen self.new).tells }
        ensures written { OnOk result (Writes bytes.now (seen self.old) (seen self.new)) }
        ensures part { OnErr result (WritesPart bytes.now (seen self.old) (seen self.new)) }
        ensures cause { HasCause (seen self.old).faults (seen self.new).faults result };
}

/// A sink in memory. All its memory is taken when it is made.
#[derive(Drop)]
pub struct MemSink {
    tray: Tray,
    calls: Calls,
}

impl Model for MemSink {
    ghost use Rattle.outside.specs.Sinks as sinks;

    ghost Value = { sinks.MemSinkState };

    ghost view = { λ s. record { written = s.tray.bytes; room = s.tray.room; calls = s.calls } };
}

impl MemSink {
    /// A sink with room for so many bytes, whose calls of these numbers, from 0, fail.
    pub fn start(alloc: Global, room: u64, fails: &[u64]) -> Result<MemSink, NoMemory>
        ensures { IfOk result (λ s. s ≡ record { written = []; room = room; calls = calls_at_start fails.now }) }
    {
        let tray = Tray::start(alloc, room)?;
        let calls = Calls::start(alloc, fails)?;
        Ok(MemSink { tray, calls })
    }

    /// The bytes written.
    pub fn written(&self) -> &[u8]
        ensures { result.now ≡ self.now.written }
    {
        self.tray.as_slice()
    }
}

impl Sink for MemSink {
    ghost seen = { seen_of_sink };

    fn put(&mut self, bytes: &[u8]) -> Result<(), Failed>
        ensures exact { is_ok result ≡ writes self.old bytes.now }
        ensures written { self.new.written
            ≡ (if is_ok result then self.old.written ++ bytes.now else self.old.written) }
        ensures part { OnErr result (WritesPart bytes.now (seen_of_sink self.old) (seen_of_sink self.new)) }
        ensures room { self.new.room ≡ self.old.room }
        ensures calls { self.new.calls ≡ after_call self.old.calls (not (is_ok result)) }
        ensures cause { HasCause self.old.calls.faults self.new.calls.faults result }
    {
        if self.calls.next_fails() || !self.tray.put(bytes) {
            return Err(self.calls.fault());
        }
        Ok(())
    }
}

/// A sink that never fails and keeps nothing.
#[derive(Clone, Copy, Debug, PartialEq, Eq, Drop)]
pub struct SureSink;

impl SureSink {
    pub fn start() -> SureSink
        ensures { (⟦<SureSink as Sink>⟧.seen result).faults ≡ 0 }
    {
        SureSink
    }
}

impl Sink for SureSink {
    ghost seen = { λ _. record { tells = false; written = []; faults = 0 } };

    fn put(&mut self, _bytes: &[u8]) -> Result<(), Failed>
        ensures { IsOk result }
    {
        Ok(())
    }
}
