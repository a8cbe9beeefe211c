//! Who holds which page of a board, in which mode: many harts in Read, or one in Write. Only `start` takes
//! memory.
#![tactic(auto)]

mod directory;
mod laws;
mod row;
mod yields;

pub use directory::Directory;
pub use laws::waits_follow;
