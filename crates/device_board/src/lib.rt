//! The devices of a board: console, timer and software interrupts (docs/board.md).
#![tactic(auto)]

mod devices;
mod recording;

pub use devices::{ConsoleFailed, Devices, Touched};

#[cfg(test)]
mod tests;
