//! One pass over a line, which finds the one line of the grammar that it can be.

ghost use Rattle.std.specs.Prelude.{◌≡◌, fold};
ghost use Rattle.std.specs.Char.{digit_value};
ghost use Rattle.rv_asm.specs.Scan.{start, named, suffixed, pushed, operand, in_phase, step, signed_of, low, upper_line, branch_line, load_line, store_line, imm_line, shift_line, reg_line, csr_line, jump_line, bare_line, plain_line, amo_line, atomic_line, dotted_line, line_in, line_of};
ghost use Rattle.rv_asm.specs.Keys.{order_named};

use crate::names::{
    amo_named, branch_named, csr_named, imm_named, load_named, order_named, reg_named, shift_named,
    store_named, upper_named,
};
use rv_decode::Instr;

/// A line of a program: the text of an instruction, or a word as it is.
#[derive(Clone, Copy)]
pub enum Line {
    Text(Instr),
    Word(u32),
}

/// The part of a line that a pass is in; `Suffix` is what stands behind a dot in the name.
#[derive(Clone, Copy)]
enum Phase {
    Name,
    Suffix,
    Operands,
}

/// What one pass over a line keeps of it: its name up to a dot and what stands behind the dot, each as one number in
/// base 256, and its last four operands. Each operand is read in decimal, the last two in hexadecimal and with their
/// sign too.
#[derive(Clone, Copy)]
pub struct Scan {
    phase: Phase,
    key: u64,
    suffix: u64,
    third: u32,
    second: u32,
    previous: u32,
    previous_hex: u32,
    previous_minus: bool,
    current: u32,
    current_hex: u32,
    current_minus: bool,
}

fn pushed(s: Scan) -> Scan
    ensures { result ≡ pushed s }
{
    Scan {
        phase: s.phase,
        key: s.key,
        suffix: s.suffix,
        third: s.second,
        second: s.previous,
        previous: s.current,
        previous_hex: s.current_hex,
        previous_minus: s.current_minus,
        current: 0,
        current_hex: 0,
        current_minus: false,
    }
}

fn named(s: Scan, b: u8) -> Scan
    ensures { result ≡ named s b }
{
    match b {
        46 => Scan {
            phase: Phase::Suffix,
            ..s
        },
        32 => Scan {
            phase: Phase::Operands,
            ..s
        },
        _ => Scan {
            key: s.key.wrapping_mul(256).wrapping_add(u64::from(b)),
            ..s
        },
    }
}

fn suffixed(s: Scan, b: u8) -> Scan
    ensures { result ≡ suffixed s b }
{
    match b {
        32 => Scan {
            phase: Phase::Operands,
            ..s
        },
        _ => Scan {
            suffix: s.suffix.wrapping_mul(256).wrapping_add(u64::from(b)),
            ..s
        },
    }
}

fn digit(b: u8) -> u32
    ensures { result ≡ digit_value b }
{
    match b {
        48..=57 => u32::from(b) - 48,
        65..=90 => u32::from(b) - 55,
        97..=122 => u32::from(b) - 87,
        _ => 36,
    }
}

fn operand(s: Scan, b: u8) -> Scan
    ensures { result ≡ operand s b }
{
    let d = digit(b);
    if d < 16 {
        return Scan {
            current: s.current.wrapping_mul(10).wrapping_add(d),
            current_hex: s.current_hex.wrapping_mul(16).wrapping_add(d),
            ..s
        };
    }
    match b {
        44 => pushed(s),
        40 => pushed(s),
        45 => Scan {
            current_minus: true,
            ..s
        },
        120 => Scan {
            current: 0,
            current_hex: 0,
            ..s
        },
        _ => s,
    }
}

fn step(s: Scan, b: u8) -> Scan
    ensures { result ≡ step s b }
{
    match s.phase {
        Phase::Name => named(s, b),
        Phase::Suffix => suffixed(s, b),
        Phase::Operands => operand(s, b),
    }
}

pub fn scan_line(line: &[u8]) -> Scan
    ensures { result ≡ fold step start line.now }
{
    let mut s = Scan {
        phase: Phase::Name,
        key: 0,
        suffix: 0,
        third: 0,
        second: 0,
        previous: 0,
        previous_hex: 0,
        previous_minus: false,
        current: 0,
        current_hex: 0,
        current_minus: false,
    };
    for b in line {
        s = step(s, *b);
    }
    s
}

fn low(n: u32) -> u8
    ensures { result ≡ low n }
{
    (n % 0x100) as u8
}

fn signed_of(minus: bool, n: u32) -> i32
    ensures { result ≡ signed_of minus n }
{
    if n < 0x20_0000 {
        if minus { 0 - n as i32 } else { n as i32 }
    } else {
        0
    }
}

fn upper_line(s: Scan) -> Option<Line>
    ensures { result ≡ upper_line s }
{
    match upper_named(s.key) {
        Some(op) => Some(Line::Text(Instr::Upper {
            op,
            rd: low(s.previous),
            imm: s.current_hex % 0x10_0000 * 0x1000,
        })),
        None => None,
    }
}

fn branch_line(s: Scan) -> Option<Line>
    ensures { result ≡ branch_line s }
{
    match branch_named(s.key) {
        Some(op) => Some(Line::Text(Instr::Branch {
            op,
            rs1: low(s.second),
            rs2: low(s.previous),
            offset: signed_of(s.current_minus, s.current),
        })),
        None => None,
    }
}

fn load_line(s: Scan) -> Option<Line>
    ensures { result ≡ load_line s }
{
    match load_named(s.key) {
        Some(op) => Some(Line::Text(Instr::Load {
            op,
            rd: low(s.second),
            rs1: low(s.current),
            offset: signed_of(s.previous_minus, s.previous),
        })),
        None => None,
    }
}

fn store_line(s: Scan) -> Option<Line>
    ensures { result ≡ store_line s }
{
    match store_named(s.key) {
        Some(op) => Some(Line::Text(Instr::Store {
            op,
            rs1: low(s.current),
            rs2: low(s.second),
            offset: signed_of(s.previous_minus, s.previous),
        })),
        None => None,
    }
}

fn imm_line(s: Scan) -> Option<Line>
    ensures { result ≡ imm_line s }
{
    match imm_named(s.key) {
        Some(op) => Some(Line::Text(Instr::Imm {
            op,
            rd: low(s.second),
            rs1: low(s.previous),
            imm: signed_of(s.current_minus, s.current),
        })),
        None => None,
    }
}

fn shift_line(s: Scan) -> Option<Line>
    ensures { result ≡ shift_line s }
{
    match shift_named(s.key) {
        Some(op) => Some(Line::Text(Instr::Shift {
            op,
            rd: low(s.second),
            rs1: low(s.previous),
            amount: low(s.current),
        })),
        None => None,
    }
}

fn reg_line(s: Scan) -> Option<Line>
    ensures { result ≡ reg_line s }
{
    match reg_named(s.key) {
        Some(op) => Some(Line::Text(Instr::Reg {
            op,
            rd: low(s.second),
            rs1: low(s.previous),
            rs2: low(s.current),
        })),
        None => None,
    }
}

fn csr_line(s: Scan) -> Option<Line>
    ensures { result ≡ csr_line s }
{
    match csr_named(s.key) {
        Some(op) => Some(Line::Text(Instr::Csr {
            op,
            rd: low(s.second),
            rs1: low(s.current),
            number: (s.previous_hex % 0x1_0000) as u16,
        })),
        None => None,
    }
}

fn jump_line(s: Scan) -> Option<Line>
    ensures { result ≡ jump_line s }
{
    match s.key {
        0x6a616c => Some(Line::Text(Instr::Jal {
            rd: low(s.previous),
            offset: signed_of(s.current_minus, s.current),
        })),
        0x6a616c72 => Some(Line::Text(Instr::Jalr {
            rd: low(s.second),
            rs1: low(s.current),
            offset: signed_of(s.previous_minus, s.previous),
        })),
        0x66656e6365 => Some(Line::Text(Instr::Fence {
            word: s.current_hex,
        })),
        _ => None,
    }
}

fn bare_line(key: u64) -> Option<Line>
    ensures { result ≡ bare_line key }
{
    match key {
        0x6563616c6c => Some(Line::Text(Instr::Ecall)),
        0x65627265616b => Some(Line::Text(Instr::Ebreak)),
        0x6d726574 => Some(Line::Text(Instr::Mret)),
        0x776669 => Some(Line::Text(Instr::Wfi)),
        _ => None,
    }
}

fn plain_line(s: Scan) -> Option<Line>
    ensures { result ≡ plain_line s }
{
    upper_line(s)
        .or(branch_line(s))
        .or(load_line(s))
        .or(store_line(s))
        .or(imm_line(s))
        .or(shift_line(s))
        .or(reg_line(s))
        .or(csr_line(s))
        .or(jump_line(s))
}

fn amo_line(s: Scan, order: u8) -> Option<Line>
    ensures { result ≡ amo_line s order }
{
    match amo_named(s.key) {
        Some(op) => Some(Line::Text(Instr::Amo {
            op,
            rd: low(s.third),
            rs1: low(s.current),
            rs2: low(s.second),
            order,
        })),
        None => None,
    }
}

fn atomic_line(s: Scan) -> Option<Line>
    ensures { result ≡ atomic_line s (order_named s.suffix) }
{
    match order_named(s.suffix) {
        None => None,
        Some(order) => match s.key {
            0x6c72 => Some(Line::Text(Instr::LoadReserved {
                rd: low(s.second),
                rs1: low(s.current),
                order,
            })),
            0x7363 => Some(Line::Text(Instr::StoreConditional {
                rd: low(s.third),
                rs1: low(s.current),
                rs2: low(s.second),
                order,
            })),
            _ => amo_line(s, order),
        },
    }
}

fn dotted_line(s: Scan) -> Option<Line>
    ensures { result ≡ dotted_line s }
{
    match s.suffix {
        0x69 => Some(Line::Text(Instr::FenceI {
            word: s.current_hex,
        })),
        0x776f7264 => Some(Line::Word(s.current_hex)),
        _ => atomic_line(s),
    }
}

pub fn line_of(s: Scan) -> Option<Line>
    ensures { result ≡ line_of s }
{
    match s.phase {
        Phase::Name => bare_line(s.key),
        Phase::Suffix => None,
        Phase::Operands => if s.suffix == 0 {
            plain_line(s)
        } else {
            dotted_line(s)
        },
    }
}
