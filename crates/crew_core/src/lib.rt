//! The recorder's board: turns of harts whose runs are not in it (docs/recorder.md).
#![tactic(auto)]

mod accesses;
mod board;
mod crew;
mod finish;
#[cfg(test)]
mod full_tests;
mod gains;
mod lane;
mod order;
mod room;
mod row_list;
mod rules;
mod seat;
#[cfg(test)]
mod tests;
mod turned;
mod yields;

pub use board::{Board, Journal, OutOfMemory, Recorded, Turns};
pub use order::Order;
