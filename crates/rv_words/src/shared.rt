//! The types that every crate shares.

ghost use Rattle.std.specs.Prelude.{◌≡◌};

/// A board has from 1 to this many harts.
pub const MAX_HARTS: u8 = 8;

/// A board has from 1 to this many pages.
pub const MOST_PAGES: u16 = 4096;

/// Bytes of a page, as images and logs count pages.
pub const PAGE_BYTES: u16 = 4096;

/// Moves of a hart from one due Poll to the next.
pub const POLL_DISTANCE: u64 = 4096;

/// A data access of a hart to a device word: a load where nothing is stored.
#[derive(Clone, Copy, Debug, PartialEq, Eq)]
pub struct Access {
    pub at: u32,
    pub store: Option<u32>,
}

/// What a device access took in from outside.
#[derive(Clone, Copy, Debug, PartialEq, Eq)]
pub enum Input {
    Nothing,
    /// A load of RX found no byte.
    Empty,
    /// A load of RX found this byte.
    Byte(u8),
    /// A load of a half of mtime found this time.
    Time(u64),
}

/// How a hart uses a page.
#[derive(Clone, Copy, Debug, PartialEq, Eq)]
pub enum Mode {
    Read,
    Write,
}

impl Mode {
    ghost use Rattle.rv_words.specs.Modes.{conflicts};

    /// Whether two harts can't hold one page in these modes at once.
    pub fn conflicts_with(self, other: Mode) -> bool
        ensures { result ≡ conflicts self other }
    {
        matches!((self, other), (Mode::Write, _) | (_, Mode::Write))
    }
}

/// Why a run ended.
#[derive(Clone, Copy, Debug, PartialEq, Eq)]
pub enum Cause {
    /// A hart stored to STOP.
    Stop,
    /// Every hart made as many moves as the limit allows.
    Limit,
    /// The log would have passed its own limit.
    Full,
    /// The console failed.
    Fault,
    /// The caller ended the run.
    Cut,
}

/// A word of a device. A `u8` is the hart that it belongs to.
#[derive(Clone, Copy, Debug, PartialEq, Eq)]
pub enum DeviceWord {
    Msip(u8),
    CompareLow(u8),
    CompareHigh(u8),
    TimeLow,
    TimeHigh,
    Rx,
    Tx,
    Stop,
}

/// What stands at an address: a page of memory by its number, a device word, or neither.
#[derive(Clone, Copy, Debug, PartialEq, Eq)]
pub enum Place {
    Memory(u32),
    Device,
    Outside,
}
