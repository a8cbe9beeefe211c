//! Recordings and replays in rounds, the legs of all harts beside each other on threads (docs/recorder.md,
//! docs/replay.md).
#![tactic(auto)]

mod legs;
#[cfg(test)]
mod replay_tests;
mod replays;
mod rounds;
#[cfg(test)]
mod tests;

pub use replays::replay_rounds;
pub use rounds::record_rounds;
