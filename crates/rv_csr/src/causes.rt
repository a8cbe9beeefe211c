//! Causes of traps, after the table of mcause in the RISC-V Privileged manual.

/// A jump or branch to a target that isn't a multiple of 4.
pub const MISALIGNED_TARGET: u32 = 0;
/// A fetch outside memory.
pub const FETCH_FAULT: u32 = 1;
/// A word that is no instruction, or a CSR that isn't there or isn't to be written.
pub const ILLEGAL_INSTRUCTION: u32 = 2;
/// EBREAK.
pub const BREAKPOINT: u32 = 3;
/// A load or LR of a misaligned address.
pub const MISALIGNED_LOAD: u32 = 4;
/// A load or LR of an address where the board has nothing for it.
pub const LOAD_FAULT: u32 = 5;
/// A store, SC or AMO of a misaligned address.
pub const MISALIGNED_STORE: u32 = 6;
/// A store, SC or AMO of an address where the board has nothing for it.
pub const STORE_FAULT: u32 = 7;
/// ECALL.
pub const ENVIRONMENT_CALL: u32 = 11;
/// The software interrupt: its bit in mie and mip with bit 31 set.
pub const SOFTWARE_INTERRUPT: u32 = 0x8000_0003;
/// The timer interrupt.
pub const TIMER_INTERRUPT: u32 = 0x8000_0007;

/// The software interrupt's bit in mie and mip.
pub(crate) const SOFTWARE_BIT: u32 = 3;
/// The timer interrupt's bit in mie and mip.
pub(crate) const TIMER_BIT: u32 = 7;
