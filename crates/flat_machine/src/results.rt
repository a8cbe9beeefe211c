//! What runs end with, and the moves of a story.

use rv_hart::Hart;
use rv_words::Cause;
use shared_types::Listed;

pub type Harts = Listed<Hart>;

/// One count per hart.
pub type Counts = Listed<u64>;

pub type Memory = Listed<u8>;

pub type Bytes = Listed<u8>;

pub type Steps = Listed<Step>;

/// What a run ends with.
#[derive(Debug, Drop)]
pub struct Final {
    pub cause: Cause,
    /// The word stored to STOP.
    pub stop: Option<u32>,
    pub harts: Harts,
    pub counts: Counts,
    pub memory: Memory,
    /// The bytes sent to the console.
    pub sent: Bytes,
    /// mtime.
    pub time: u64,
}

/// One move of a hart's story.
#[derive(Clone, Copy, Debug, PartialEq, Eq)]
pub struct Step {
    /// The pc before the move.
    pub pc: u32,
    /// The fetched word; None where nothing was fetched.
    pub word: Option<u32>,
    /// The cause of the trap; None where the move retired an instruction.
    pub cause: Option<u32>,
    /// The register from x1 that the move set, and its value.
    pub wrote: Option<(u8, u32)>,
    /// The hart after the move.
    pub after: Hart,
}
