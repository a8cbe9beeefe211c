//! Replays whose harts run free, each on a thread of its own where one can be had, with one board between them (docs/threads.md).
#![tactic(auto)]

mod board;
mod free;
mod legs;
#[cfg(test)]
mod tests;
mod worker;
mod workers;

pub use board::{ReplayPart, ReplayTurns};
pub use free::replay_free;
pub use legs::{Paced, replay_leg};
