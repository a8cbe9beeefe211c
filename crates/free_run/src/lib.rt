//! Harts that run free, each on a thread of its own where one can be had, with one board between them (docs/threads.md).
#![tactic(auto)]

mod board;
mod events;
mod free;
mod laws;
mod legs;
mod next;
mod pairs;
mod rest;
mod taking;
#[cfg(test)]
mod tests;
mod worker;
mod workers;

pub use board::{RecordBoard, RecordPart};
pub use events::EventCount;
pub use free::record_free;
pub use laws::recordings_are_right;
pub use legs::{Led, hart_number, record_leg};
pub use next::Next;
pub use taking::take_board;
pub use workers::put;
