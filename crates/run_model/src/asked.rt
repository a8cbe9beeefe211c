//! What a run asks for.

use rv_words::{Access, Mode};

/// Why a run paused.
#[derive(Clone, Copy, Debug, PartialEq, Eq)]
pub enum Pause {
    /// The count was reached.
    Due,
    /// The next move needs this page, which isn't held so.
    Wants(u32, Mode),
    /// The next move is this device access.
    AtDevice(Access),
}

/// What a hart's next move asks for.
#[derive(Clone, Copy, Debug, PartialEq, Eq)]
pub enum Ahead {
    /// Nothing: the hart can make it.
    Free,
    Wants(u32, Mode),
    AtDevice(Access),
}
