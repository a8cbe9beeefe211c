//! The acts of the flat machine.

use rv_words::Input;

/// What a hart, by its number, does next.
#[derive(Clone, Copy, Debug, PartialEq, Eq)]
pub enum Act {
    /// A move that is no device access.
    Run(u8),
    /// A move that is a device access, with its input from outside.
    Touch(u8, Input),
    /// mtime becomes a time, and the hart sees the lines of the devices.
    Poll(u8, u64),
    /// The hart's reservation ends.
    Lose(u8),
}
