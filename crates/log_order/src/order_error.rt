//! Why a log is not taken.
ghost use Rattle.std.specs.Prelude.{◌≡◌};
ghost use Rattle.log_order.specs.declared.order_error.OrderError.TheVariants.{NoMemory};

use std::alloc::AllocError;
use thiserror::Error;

/// Why a log was given up.
#[derive(Clone, Copy, Debug, PartialEq, Eq, Error)]
pub enum OrderError {
    /// The least rule O that the log breaks, 1 to 9, and the least hart and entry that break it.
    #[error("the log breaks rule O{rule} at hart {hart}, entry {entry}")]
    Disorderly { rule: u8, hart: u8, entry: u32 },
    #[error("memory ran out")]
    NoMemory,
}

impl From<AllocError> for OrderError {
    ghost from_gives = { λ _ e. e ≡ NoMemory };

    fn from(_error: AllocError) -> Self {
        OrderError::NoMemory
    }
}
