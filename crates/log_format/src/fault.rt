//! Why a log could not be read.
ghost use Rattle.std.specs.Prelude.{◌≡◌};
ghost use Rattle.log_format.specs.declared.fault.Stop.TheVariants.{NoMemory};

use std::alloc::{AllocError, AllocFailed};
use thiserror::Error;

/// Why the bytes gave no log.
#[derive(Clone, Copy, Debug, PartialEq, Eq, Error)]
pub enum ReadError {
    /// The first field that isn't there whole, or whose value isn't allowed: the offset of its
    /// first byte, and the rule that it breaks, 1 to 14.
    #[error("the log breaks rule M{rule} at offset {offset}")]
    Malformed { offset: u64, rule: u8 },
    #[error("memory ran out")]
    NoMemory,
}

/// The same, by the number of bytes that are left where the bad field begins.
#[derive(Clone, Copy)]
pub(crate) enum Stop {
    Bad(u64, u8),
    NoMemory,
}

impl From<AllocError> for Stop {
    ghost from_gives = { λ _ e. e ≡ NoMemory };

    fn from(_e: AllocError) -> Stop {
        Stop::NoMemory
    }
}

impl<T: Drop> From<AllocFailed<T>> for Stop {
    ghost from_gives = { λ _ e. e ≡ NoMemory };

    fn from(_e: AllocFailed<T>) -> Stop {
        Stop::NoMemory
    }
}
