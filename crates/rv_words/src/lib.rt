//! Words of 32 bits: their arithmetic, what their addresses mean, and the types that every crate shares.
//!
//! The operations are those of the RISC-V Unprivileged manual, chapters "RV32I Base Integer
//! Instruction Set" (section "Integer Computational Instructions") and "M Standard Extension".
#![tactic(auto)]

mod addresses;
mod arithmetic;
mod halves;
mod shared;

pub use addresses::{device_word, in_memory, place};
pub use arithmetic::{
    add, div, divu, mul, mulh, mulhsu, mulhu, rem, remu, sll, slt, sltu, sra, srl, sub,
};
pub use halves::{has_bit, high_half, low_half, with_high_half, with_low_half};
pub use shared::{
    Access, Cause, DeviceWord, Input, MAX_HARTS, MOST_PAGES, Mode, PAGE_BYTES, POLL_DISTANCE, Place,
};

#[cfg(test)]
mod tests;
