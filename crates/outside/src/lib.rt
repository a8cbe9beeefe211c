//! What the program meets outside: a shelf of named bytes, a console, a clock, a gate and a sink.
#![tactic(auto)]

mod calls;
mod clock;
mod console;
mod file_shelf;
mod folder;
mod gate;
mod heads;
mod mem_shelf;
mod real;
mod shelf;
mod sink;
mod stored;
mod sure_shelf;
#[cfg(test)]
mod tests;
mod tray;

pub use clock::{Clock, MemClock};
pub use console::{Asked, Console, MemConsole, SureConsole};
pub use file_shelf::FileShelf;
pub use gate::{Gate, HoldGate, OpenGate};
pub use mem_shelf::MemShelf;
pub use real::{RealClock, StdConsole, StdSink};
pub use shared_types::NoMemory;
pub use shelf::{FetchError, Shelf, keep};
pub use sink::{MemSink, Sink, SureSink};
pub use sure_shelf::SureShelf;

/// The call failed.
#[derive(Clone, Copy, Debug, PartialEq, Eq)]
pub struct Failed;
