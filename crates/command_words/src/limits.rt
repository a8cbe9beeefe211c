//! The bounds of numbers on the command line (docs/command-line.md).

/// The most harts of a board.
pub(crate) const MOST_HARTS: u64 = 8;

/// The most pages of a board.
pub(crate) const MOST_PAGES: u64 = 4096;

/// The most moves that a hart makes.
pub(crate) const MOST_MOVES: u64 = 1_000_000_000_000;

/// The most moves of one trace.
pub(crate) const LONGEST_TRACE: u64 = 1_000_000;

/// The least limit of a log, in bytes.
pub(crate) const LEAST_LOG_LIMIT: u64 = 1024;

/// The greatest limit of a log, in bytes.
pub(crate) const LONGEST_LOG: u64 = 536_870_912;

/// The greatest number of a sample.
pub(crate) const LAST_SAMPLE: u64 = 4_294_967_295;
