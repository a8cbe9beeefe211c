//! The adapters over the real terminal and clock. They tell nothing of what these hold.
ghost use Rattle.std.specs.Prelude.{◌≡◌, ◌≢◌, [], false, IfOk};
ghost use Rattle.outside.specs.Causes.{HasCause};

use crate::{Asked, Clock, Console, Failed, Sink};
use std::io::{ErrorKind, Read, Write};
use std::time::Instant;

/// Standard input and output. It waits for each byte of input.
#[derive(Drop)]
pub struct StdConsole<R: Read + Send + Drop, W: Write + Send + Drop> {
    input: R,
    output: W,
    faults: u64,
}

impl<R: Read + Send + Drop, W: Write + Send + Drop> StdConsole<R, W> {
    pub fn new(input: R, output: W) -> Self
        ensures { (⟦<StdConsole<R, W> as Console>⟧.seen result).faults ≡ 0 }
    {
        StdConsole {
            input,
            output,
            faults: 0,
        }
    }
}

/// The next byte. A read that was interrupted is made again.
fn read_byte<R: Read>(input: &mut R) -> Result<Asked, Failed>
    ensures { IfOk result (λ asked. asked ≢ Asked.Nothing) }
{
    let mut buf = [0u8; 1];
    for _ in 0..u64::MAX {
        match input.read(&mut buf) {
            Ok(0) => return Ok(Asked::End),
            Ok(_) => return Ok(Asked::Byte(buf[0])),
            Err(error) => {
                if error.kind() != ErrorKind::Interrupted {
                    return Err(Failed);
                }
            }
        }
    }
    Err(Failed)
}

impl<R: Read + Send + Drop, W: Write + Send + Drop> Console for StdConsole<R, W> {
    ghost seen = { λ c.
        record { tells_answers = false; answers = []; tells_taken = false; taken = []; faults = c.faults } };

    fn poll(&mut self) -> Result<Asked, Failed>
        ensures waits { IfOk result (λ asked. asked ≢ Asked.Nothing) }
        ensures cause { HasCause self.old.faults self.new.faults result }
    {
        let result = read_byte(&mut self.input);
        if result.is_err() {
            self.faults = self.faults.saturating_add(1);
        }
        result
    }

    fn put(&mut self, byte: u8) -> Result<(), Failed> {
        match self.output.write_all(&[byte]) {
            Ok(()) => Ok(()),
            Err(_) => {
                self.faults = self.faults.saturating_add(1);
                Err(Failed)
            }
        }
    }
}

/// Microseconds since it was made.
#[derive(Drop)]
pub struct RealClock<C: std::rt::Clock + Send + Drop> {
    clock: C,
    start: Option<Instant>,
    last: u64,
}

impl<C: std::rt::Clock + Send + Drop> RealClock<C> {
    pub fn new(clock: C) -> Self {
        let start = Instant::now(&clock).ok();
        RealClock {
            clock,
            start,
            last: 0,
        }
    }
}

impl<C: std::rt::Clock + Send + Drop> Clock for RealClock<C> {
    ghost seen = { λ _. record { tells = false; answers = [] } };

    fn now(&mut self) -> u64 {
        if let Some(start) = self.start {
            if let Ok(passed) = start.elapsed(&self.clock) {
                if let Ok(micros) = u64::try_from(passed.as_micros()) {
                    self.last = micros;
                }
            }
        }
        self.last
    }
}

/// Standard output.
#[derive(Drop)]
pub struct StdSink<W: Write + Drop> {
    output: W,
    faults: u64,
}

impl<W: Write + Drop> StdSink<W> {
    pub fn new(output: W) -> Self
        ensures { (⟦<StdSink<W> as Sink>⟧.seen result).faults ≡ 0 }
    {
        StdSink { output, faults: 0 }
    }
}

impl<W: Write + Drop> Sink for StdSink<W> {
    ghost seen = { λ s. record { tells = false; written = []; faults = s.faults } };

    fn put(&mut self, bytes: &[u8]) -> Result<(), Failed> {
        match self.output.write_all(bytes) {
            Ok(()) => Ok(()),
            Err(_) => {
                self.faults = self.faults.saturating_add(1);
                Err(Failed)
            }
        }
    }
}
