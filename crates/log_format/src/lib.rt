//! A log as bytes: version 1 of the log file, written and read.
#![tactic(auto)]

ghost use Rattle.log_format.specs.Sizes.{HaveTheirSizes};
ghost use Rattle.log_format.specs.Pieces.{ArePieces};

mod buffer;
mod entries;
mod fault;
mod narrow;
mod numbers;
mod parts;
mod pieces;
mod range;
mod reading;
mod writing;

pub use fault::ReadError;
pub use pieces::LogPieces;
pub use range::in_range;
pub use reading::read_log;
pub use writing::write_log;

/// The bytes of entries and of logs are as many as their sizes say. The function has no body: it
/// promises a law of the grammar.
pub fn sizes_are_those_of_the_bytes()
    ensures { HaveTheirSizes }
{}

/// The pieces of a log, one after the other, are its spelling; each has a byte, and no more than a buffer. The
/// function has no body: it promises a law of the definitions.
pub fn pieces_are_the_bytes()
    ensures { ArePieces }
{}
