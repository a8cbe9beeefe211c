//! Recordings by lists of turns, on one thread (docs/recorder.md).
#![tactic(auto)]

mod crewed;
mod list;
#[cfg(test)]
mod rows;
#[cfg(test)]
mod tests;

pub use crewed::{PLACES, Recorder};
pub use list::{has_harts, record_list};
