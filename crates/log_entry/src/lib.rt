//! What a log holds: the entries of each hart in their order, and how many bytes they take.
#![tactic(auto)]

mod log;
mod sizes;
mod waits;

pub use log::{Entries, Entry, Log, Streams};
pub use rv_words::{Cause, Input, MAX_HARTS, Mode};
pub use shared_types::Listed;
pub use sizes::{entry_size, frame_size, size_in};
pub use waits::{WaitFor, Waits};
