//! Replay of an orderly log, one item after the other (docs/replay.md).
#![tactic(auto)]

ghost use Rattle.replay_core.specs.Laws.{EndsAreLeast, EndsTellOutcome};

mod cursor;
mod list;
mod notes;
mod outcome;
mod position;
mod replaying;
mod room;
mod stage;
mod suits;
mod telling;
#[cfg(test)]
mod tests;
#[cfg(test)]
mod turn_tests;
mod turns;
mod went;

pub use list::replay_list;
pub use outcome::Outcome;
pub use stage::Stage;
pub use telling::{Told, replay_one, story};
pub use turns::ReplayBoard;
pub use went::{Pace, Went};

/// Where no hart of a stage can go, its state is that behind the least order, and comes to the replay's outcome,
/// whatever order led there. The function has no body: it promises laws.
pub fn ends_tell_outcome()
    ensures least { EndsAreLeast }
    ensures outcome { EndsTellOutcome }
{}
