//! Entries, streams and logs.
ghost use Rattle.std.specs.Prelude.{◌≡◌};
ghost use Rattle.log_entry.specs.Parts.{unit_of};

use crate::waits::Waits;
use rv_words::{Cause, Input, Mode, PAGE_BYTES};
use shared_types::Listed;

/// What one hart did at a count of its moves, beside the moves themselves.
#[derive(Debug, Drop)]
pub enum Entry {
    /// The hart took the privilege of a page.
    Gain {
        count: u64,
        page: u32,
        seq: u32,
        mode: Mode,
        waits: Waits,
    },
    /// The hart gave a privilege back, and kept `left` of it.
    Yield {
        count: u64,
        page: u32,
        seq: u32,
        left: Option<Mode>,
    },
    /// The hart took its lines from the devices: bit 0 software, bit 1 timer.
    Poll {
        count: u64,
        ord: u32,
        time: u64,
        bits: u8,
    },
    /// The hart's move was a device access.
    Touch {
        count: u64,
        ord: u32,
        input: Input,
    },
    /// The hart's run ended.
    End {
        count: u64,
    },
}

/// The entries of one hart.
pub type Entries = Listed<Entry>;

/// One stream of entries for each hart.
pub type Streams = Listed<Entries>;

/// The log of a run: of how large a board, by which limit, from which start, what each hart did
/// and why the run ended.
#[derive(Debug, Drop)]
pub struct Log {
    /// The memory, in pages of `PAGE_BYTES` bytes.
    pub pages: u16,
    /// The most moves that a hart makes.
    pub limit: u64,
    /// The digest of the start.
    pub image: [u8; 32],
    pub streams: Streams,
    pub cause: Cause,
}

impl Log {
    /// The number of bytes of a page, as entries number pages.
    pub fn unit(&self) -> u16
        ensures { result ≡ unit_of self.now }
    {
        PAGE_BYTES
    }
}
