//! The text of an instruction.

ghost use Rattle.std.specs.Prelude.{◌≡◌, ◌<◌, ◌^◌, IfOk, string_bytes};
ghost use Rattle.rv_decode.specs.Fits.{Fits};
ghost use Rattle.rv_asm.specs.Text.{hex_3, hex_4, with_hex, with_number, with_two_and_number, with_three, with_place, with_csr, with_address, with_two_and_address, with_word, text};

use crate::names::{
    amo_name, branch_name, csr_before, csr_name, imm_name, load_name, order_suffix, reg_name,
    shift_name, store_name, upper_name,
};
use rv_decode::Instr;
use shared_types::NoMemory;
use std::alloc::{AllocError, Global};

#[tactic(auto, using(crate::proofs::Digits::hex_digits))]
fn hex_3_text(alloc: Global, n: u16) -> Result<String, AllocError>
    requires { n < 2 ^ 12 }
    ensures { IfOk result (λ s. string_bytes s ≡ hex_3 n) }
{
    let a = n / 0x100;
    let b = n / 0x10 % 16;
    let c = n % 16;
    format!(in alloc; "{a:x}{b:x}{c:x}")
}

#[tactic(auto, using(crate::proofs::Digits::hex_digits))]
fn hex_4_text(alloc: Global, n: u32) -> Result<String, AllocError>
    requires { n < 2 ^ 16 }
    ensures { IfOk result (λ s. string_bytes s ≡ hex_4 n) }
{
    let a = n / 0x1000;
    let b = n / 0x100 % 16;
    let c = n / 0x10 % 16;
    let d = n % 16;
    format!(in alloc; "{a:x}{b:x}{c:x}{d:x}")
}

pub fn with_word(alloc: Global, name: &str, n: u32) -> Result<String, AllocError>
    ensures { IfOk result (λ s. string_bytes s ≡ with_word name.now n) }
{
    let high = hex_4_text(alloc, n / 0x1_0000)?;
    let low = hex_4_text(alloc, n % 0x1_0000)?;
    format!(in alloc; "{name} 0x{high}{low}")
}

fn with_hex(alloc: Global, name: &str, a: u8, n: u32) -> Result<String, AllocError>
    ensures { IfOk result (λ s. string_bytes s ≡ with_hex name.now a n) }
{
    format!(in alloc; "{name} x{a}, 0x{n:x}")
}

fn with_number(alloc: Global, name: &str, a: u8, z: i32) -> Result<String, AllocError>
    ensures { IfOk result (λ s. string_bytes s ≡ with_number name.now a z) }
{
    format!(in alloc; "{name} x{a}, {z}")
}

fn with_two_and_number(
    alloc: Global,
    name: &str,
    a: u8,
    b: u8,
    z: i32,
) -> Result<String, AllocError>
    ensures { IfOk result (λ s. string_bytes s ≡ with_two_and_number name.now a b z) }
{
    format!(in alloc; "{name} x{a}, x{b}, {z}")
}

fn with_three(alloc: Global, name: &str, a: u8, b: u8, c: u8) -> Result<String, AllocError>
    ensures { IfOk result (λ s. string_bytes s ≡ with_three name.now a b c) }
{
    format!(in alloc; "{name} x{a}, x{b}, x{c}")
}

fn with_place(alloc: Global, name: &str, a: u8, z: i32, b: u8) -> Result<String, AllocError>
    ensures { IfOk result (λ s. string_bytes s ≡ with_place name.now a z b) }
{
    format!(in alloc; "{name} x{a}, {z}(x{b})")
}

fn with_csr(
    alloc: Global,
    name: &str,
    a: u8,
    n: u16,
    before: &str,
    b: u8,
) -> Result<String, AllocError>
    requires { n < 2 ^ 12 }
    ensures { IfOk result (λ s. string_bytes s ≡ with_csr name.now a n before.now b) }
{
    let number = hex_3_text(alloc, n)?;
    format!(in alloc; "{name} x{a}, 0x{number}{before}{b}")
}

fn with_address(alloc: Global, name: &str, order: u8, a: u8, b: u8) -> Result<String, AllocError>
    ensures { IfOk result (λ s. string_bytes s ≡ with_address name.now order a b) }
{
    let suffix = order_suffix(order);
    format!(in alloc; "{name}{suffix} x{a}, (x{b})")
}

fn with_two_and_address(
    alloc: Global,
    name: &str,
    order: u8,
    a: u8,
    b: u8,
    c: u8,
) -> Result<String, AllocError>
    ensures { IfOk result (λ s. string_bytes s ≡ with_two_and_address name.now order a b c) }
{
    let suffix = order_suffix(order);
    format!(in alloc; "{name}{suffix} x{a}, x{b}, (x{c})")
}

#[rattlefmt::skip]
pub fn text_of(alloc: Global, i: Instr) -> Result<String, AllocError>
    requires { Fits i }
    ensures { IfOk result (λ s. string_bytes s ≡ text i) }
{
    match i {
        Instr::Upper { op, rd, imm } => with_hex(alloc, upper_name(op), rd, imm >> 12),
        Instr::Jal { rd, offset } => with_number(alloc, "jal", rd, offset),
        Instr::Jalr { rd, rs1, offset } => with_place(alloc, "jalr", rd, offset, rs1),
        Instr::Branch { op, rs1, rs2, offset } => with_two_and_number(alloc, branch_name(op), rs1, rs2, offset),
        Instr::Load { op, rd, rs1, offset } => with_place(alloc, load_name(op), rd, offset, rs1),
        Instr::Store { op, rs1, rs2, offset } => with_place(alloc, store_name(op), rs2, offset, rs1),
        Instr::Imm { op, rd, rs1, imm } => with_two_and_number(alloc, imm_name(op), rd, rs1, imm),
        Instr::Shift { op, rd, rs1, amount } => with_two_and_number(alloc, shift_name(op), rd, rs1, i32::from(amount)),
        Instr::Reg { op, rd, rs1, rs2 } => with_three(alloc, reg_name(op), rd, rs1, rs2),
        Instr::Fence { word } => with_word(alloc, "fence", word),
        Instr::FenceI { word } => with_word(alloc, "fence.i", word),
        Instr::Ecall => String::from_str(alloc, "ecall"),
        Instr::Ebreak => String::from_str(alloc, "ebreak"),
        Instr::Mret => String::from_str(alloc, "mret"),
        Instr::Wfi => String::from_str(alloc, "wfi"),
        Instr::Csr { op, rd, rs1, number } => with_csr(alloc, csr_name(op), rd, number, csr_before(op), rs1),
        Instr::LoadReserved { rd, rs1, order } => with_address(alloc, "lr.w", order, rd, rs1),
        Instr::StoreConditional { rd, rs1, rs2, order } => with_two_and_address(alloc, "sc.w", order, rd, rs2, rs1),
        Instr::Amo { op, rd, rs1, rs2, order } => with_two_and_address(alloc, amo_name(op), order, rd, rs2, rs1),
    }
}

/// The text of an instruction.
pub fn instr_text(alloc: Global, i: Instr) -> Result<String, NoMemory>
    requires { Fits i }
    ensures { IfOk result (λ s. string_bytes s ≡ text i) }
{
    match text_of(alloc, i) {
        Ok(s) => Ok(s),
        Err(_) => Err(NoMemory),
    }
}
