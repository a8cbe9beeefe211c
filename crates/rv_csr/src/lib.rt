//! The control and status registers of a machine-mode hart: access, interrupts, trap entry, MRET and counters.
#![tactic(auto)]

ghost use Rattle.std.specs.Prelude.{◌≡◌, ◌%◌, ◌<◌, is_some, unwrap_or};
ghost use Rattle.rv_csr.specs.Registers.{csr_read, csr_written, is_read_only, mip, mstatus};
ghost use Rattle.rv_csr.specs.Traps.{csrs_at_start, pending, trap_target, trap_entered, trap_left, is_half, counted, counted_times, with_lines};

pub mod causes;

use crate::causes::{SOFTWARE_BIT, SOFTWARE_INTERRUPT, TIMER_BIT, TIMER_INTERRUPT};
use rv_words::{has_bit, high_half, low_half, with_high_half, with_low_half};
use std::marker::Model;

/// The registers of one hart.
#[derive(Clone, Copy, Debug, PartialEq, Eq)]
pub struct Csrs {
    hart: u8,
    status_mie: bool,
    status_mpie: bool,
    mie: u32,
    mtvec: u32,
    mscratch: u32,
    mepc: u32,
    mcause: u32,
    mtval: u32,
    software_line: bool,
    timer_line: bool,
    mcycle: u64,
    minstret: u64,
}

impl Model for Csrs {
    ghost use Rattle.rv_csr.specs.State as state;
    ghost use Rattle.std.specs.Prelude.{◌≡◌, ◌%◌};

    ghost Value = { state.Csrs };

    ghost view = { λ s. record {
      hart = s.hart;
      status_mie = s.status_mie;
      status_mpie = s.status_mpie;
      mie = s.mie;
      mtvec = s.mtvec;
      mscratch = s.mscratch;
      mepc = s.mepc;
      mcause = s.mcause;
      mtval = s.mtval;
      software_line = s.software_line;
      timer_line = s.timer_line;
      mcycle = s.mcycle;
      minstret = s.minstret;
    } };

    ghost invariant = { λ s. s.mepc % 4 ≡ 0 };

    ghost inverse = { λ s. record {
      hart = s.hart;
      status_mie = s.status_mie;
      status_mpie = s.status_mpie;
      mie = s.mie;
      mtvec = s.mtvec;
      mscratch = s.mscratch;
      mepc = s.mepc;
      mcause = s.mcause;
      mtval = s.mtval;
      software_line = s.software_line;
      timer_line = s.timer_line;
      mcycle = s.mcycle;
      minstret = s.minstret;
    } };
}

impl Csrs {
    /// The reset values of hart `hart`.
    pub fn start(hart: u8) -> Csrs
        ensures { result ≡ csrs_at_start hart }
    {
        Csrs {
            hart,
            status_mie: false,
            status_mpie: false,
            mie: 0,
            mtvec: 0,
            mscratch: 0,
            mepc: 0,
            mcause: 0,
            mtval: 0,
            software_line: false,
            timer_line: false,
            mcycle: 0,
            minstret: 0,
        }
    }

    // MPP, bits 12:11, reads 3; MIE is bit 3 and MPIE bit 7.
    fn mstatus(&self) -> u32
        ensures { result ≡ mstatus self.now }
    {
        0x1800 + u32::from(self.status_mie) * 8 + u32::from(self.status_mpie) * 128
    }

    // The software line is bit 3, the timer line bit 7.
    fn mip(&self) -> u32
        ensures { result ≡ mip self.now }
    {
        u32::from(self.software_line) * 8 + u32::from(self.timer_line) * 128
    }

    /// What the register of a number reads; None exactly where there is no such number.
    pub fn read(&self, number: u16) -> Option<u32>
        ensures { result ≡ csr_read number self.now }
    {
        match number {
            0x300 => Some(self.mstatus()),
            0x301 => Some(0x4000_1101),
            0x304 => Some(self.mie),
            0x305 => Some(self.mtvec),
            0x310 => Some(0),
            0x340 => Some(self.mscratch),
            0x341 => Some(self.mepc),
            0x342 => Some(self.mcause),
            0x343 => Some(self.mtval),
            0x344 => Some(self.mip()),
            0xb00 => Some(low_half(self.mcycle)),
            0xb80 => Some(high_half(self.mcycle)),
            0xb02 => Some(low_half(self.minstret)),
            0xb82 => Some(high_half(self.minstret)),
            0xb03..=0xb1f | 0xb83..=0xb9f | 0x323..=0x33f | 0xf11..=0xf13 => Some(0),
            0xf14 => Some(u32::from(self.hart)),
            _ => None,
        }
    }

    /// Writes the register of a number. False, and nothing changed, exactly where there is no such
    /// register or bits 11:10 of its number are both 1.
    pub fn write(&mut self, number: u16, value: u32) -> bool
        ensures answer { result ≡ is_some (csr_written number value self.old) }
        ensures registers { self.new ≡ unwrap_or (csr_written number value self.old) self.old }
    {
        match number {
            0x300 => {
                self.status_mie = has_bit(value, 3);
                self.status_mpie = has_bit(value, 7);
            }
            0x304 => self.mie = value & 0x888,
            0x305 => self.mtvec = value / 4 * 4 + value % 2,
            0x340 => self.mscratch = value,
            0x341 => self.mepc = value / 4 * 4,
            0x342 => self.mcause = value,
            0x343 => self.mtval = value,
            0xb00 => self.mcycle = with_low_half(self.mcycle, value),
            0xb80 => self.mcycle = with_high_half(self.mcycle, value),
            0xb02 => self.minstret = with_low_half(self.minstret, value),
            0xb82 => self.minstret = with_high_half(self.minstret, value),
            0x301 | 0x310 | 0x344 | 0xb03..=0xb1f | 0xb83..=0xb9f | 0x323..=0x33f => {}
            _ => return false,
        }
        true
    }

    /// Enters an exception or interrupt at the pc `at`, with a cause and a value for mtval, and gives
    /// the new pc. An interrupt's cause has its top bit set.
    pub fn enter_trap(&mut self, cause: u32, at: u32, value: u32) -> u32
        requires { at % 4 ≡ 0 }
        ensures registers { self.new ≡ trap_entered cause at value self.old }
        ensures target { result ≡ trap_target self.old.mtvec cause }
        ensures aligned { result % 4 ≡ 0 }
    {
        self.mepc = at;
        self.mcause = cause;
        self.mtval = value;
        self.status_mpie = self.status_mie;
        self.status_mie = false;
        let base = self.mtvec / 4 * 4;
        if has_bit(cause, 31) && has_bit(self.mtvec, 0) {
            base.wrapping_add(cause % 0x4000_0000 * 4)
        } else {
            base
        }
    }

    /// Leaves a trap, as MRET does, and gives the new pc.
    pub fn leave_trap(&mut self) -> u32
        ensures registers { self.new ≡ trap_left self.old }
        ensures target { result ≡ self.old.mepc }
        ensures aligned { result % 4 ≡ 0 }
    {
        self.status_mie = self.status_mpie;
        self.status_mpie = true;
        self.mepc
    }

    /// The cause of the interrupt that is entered next. The board has no external line.
    pub fn pending(&self) -> Option<u32>
        ensures { result ≡ pending self.now }
    {
        if !self.status_mie {
            None
        } else if self.software_line && has_bit(self.mie, SOFTWARE_BIT) {
            Some(SOFTWARE_INTERRUPT)
        } else if self.timer_line && has_bit(self.mie, TIMER_BIT) {
            Some(TIMER_INTERRUPT)
        } else {
            None
        }
    }

    /// Sets the lines: bit 0 software, bit 1 timer.
    pub fn set_lines(&mut self, lines: u8)
        requires { lines < 4 }
        ensures { self.new ≡ with_lines lines self.old }
    {
        self.software_line = lines & 1 == 1;
        self.timer_line = (lines >> 1) & 1 == 1;
    }

    /// Counts a move: whether it retired an instruction, and the number that it wrote, if any.
    pub fn count_move(&mut self, retired: bool, wrote: Option<u16>)
        ensures { self.new ≡ counted retired wrote self.old }
    {
        if !is_half(wrote, 0xb00, 0xb80) {
            self.mcycle = self.mcycle.wrapping_add(1);
        }
        if retired && !is_half(wrote, 0xb02, 0xb82) {
            self.minstret = self.minstret.wrapping_add(1);
        }
    }

    /// Counts so many moves that each retired and wrote no counter.
    #[tactic(auto, using(crate::proofs::Counts::times_are))]
    pub fn count_moves(&mut self, moves: u64)
        requires { 0 < moves }
        ensures { self.new ≡ counted_times moves self.old }
    {
        self.mcycle = self.mcycle.wrapping_add(moves);
        self.minstret = self.minstret.wrapping_add(moves);
    }
}

/// A number whose bits 11:10 are both 1 may not be written.
pub fn is_read_only(number: u16) -> bool
    ensures { result ≡ is_read_only number }
{
    (number >> 10) & 3 == 3
}

fn is_half(wrote: Option<u16>, low: u16, high: u16) -> bool
    ensures { result ≡ is_half wrote low high }
{
    match wrote {
        Some(number) => number == low || number == high,
        None => false,
    }
}

#[cfg(test)]
mod tests;
