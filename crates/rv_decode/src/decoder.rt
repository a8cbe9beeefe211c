//! From a word to its instruction, by cases on the opcode and then on the fields that its form reads.

ghost use Rattle.std.specs.Prelude.{◌≡◌, bit_and, IfSome, None};
ghost use Rattle.rv_decode.specs.Table.{field, meaning};
ghost use Rattle.rv_decode.specs.Fits.{Fits};
ghost use Rattle.rv_decode.specs.Ops.{imm_op_of, csr_op_of};

use crate::fields::{
    funct3, funct5, funct7, offset_b, offset_i, offset_j, offset_s, opcode, order, rd, rs1, rs2,
    upper_immediate,
};
use crate::operations::{amo_op, branch_op, csr_op, imm_op, load_op, reg_op, shift_op, store_op};
use crate::{Instr, UpperOp};

#[tactic(auto, using(crate::proofs::Groups::loads))]
#[inline(always)]
fn decode_load(word: u32) -> Option<Instr>
    requires { bit_and word 0x7F ≡ 0x03 }
    ensures { result ≡ meaning word }
{
    match load_op(funct3(word)) {
        Some(op) => Some(Instr::Load {
            op,
            rd: rd(word),
            rs1: rs1(word),
            offset: offset_i(word),
        }),
        None => None,
    }
}

#[tactic(auto, using(crate::proofs::Groups::branchs))]
#[inline(always)]
fn decode_branch(word: u32) -> Option<Instr>
    requires { bit_and word 0x7F ≡ 0x63 }
    ensures { result ≡ meaning word }
{
    match branch_op(funct3(word)) {
        Some(op) => Some(Instr::Branch {
            op,
            rs1: rs1(word),
            rs2: rs2(word),
            offset: offset_b(word),
        }),
        None => None,
    }
}

#[tactic(auto, using(crate::proofs::Groups::stores))]
#[inline(always)]
fn decode_store(word: u32) -> Option<Instr>
    requires { bit_and word 0x7F ≡ 0x23 }
    ensures { result ≡ meaning word }
{
    match store_op(funct3(word)) {
        Some(op) => Some(Instr::Store {
            op,
            rs1: rs1(word),
            rs2: rs2(word),
            offset: offset_s(word),
        }),
        None => None,
    }
}

#[tactic(auto, using(crate::proofs::Groups::regs))]
#[inline(always)]
fn decode_reg(word: u32) -> Option<Instr>
    requires { bit_and word 0x7F ≡ 0x33 }
    ensures { result ≡ meaning word }
{
    match reg_op(funct7(word), funct3(word)) {
        Some(op) => Some(Instr::Reg {
            op,
            rd: rd(word),
            rs1: rs1(word),
            rs2: rs2(word),
        }),
        None => None,
    }
}

#[tactic(auto, using(crate::proofs::Groups::shifts))]
#[inline(always)]
fn decode_shift(word: u32) -> Option<Instr>
    requires opcode { bit_and word 0x7F ≡ 0x13 }
    requires funct3 { imm_op_of (field 12 3 word) ≡ None }
    ensures { result ≡ meaning word }
{
    match shift_op(funct7(word), funct3(word)) {
        Some(op) => Some(Instr::Shift {
            op,
            rd: rd(word),
            rs1: rs1(word),
            amount: rs2(word),
        }),
        None => None,
    }
}

#[tactic(auto, using(crate::proofs::Groups::imms))]
#[inline(always)]
fn decode_imm(word: u32) -> Option<Instr>
    requires { bit_and word 0x7F ≡ 0x13 }
    ensures { result ≡ meaning word }
{
    match imm_op(funct3(word)) {
        Some(op) => Some(Instr::Imm {
            op,
            rd: rd(word),
            rs1: rs1(word),
            imm: offset_i(word),
        }),
        None => decode_shift(word),
    }
}

#[tactic(auto, using(crate::proofs::Groups::jalrs))]
#[inline(always)]
fn decode_jalr(word: u32) -> Option<Instr>
    requires { bit_and word 0x7F ≡ 0x67 }
    ensures { result ≡ meaning word }
{
    if funct3(word) == 0 {
        Some(Instr::Jalr {
            rd: rd(word),
            rs1: rs1(word),
            offset: offset_i(word),
        })
    } else {
        None
    }
}

#[tactic(auto, using(crate::proofs::Groups::fences))]
#[inline(always)]
fn decode_fence(word: u32) -> Option<Instr>
    requires { bit_and word 0x7F ≡ 0x0F }
    ensures { result ≡ meaning word }
{
    match funct3(word) {
        0 => Some(Instr::Fence { word }),
        1 => Some(Instr::FenceI { word }),
        _ => None,
    }
}

#[tactic(auto, using(crate::proofs::Groups::environments))]
#[inline(always)]
fn decode_environment(word: u32) -> Option<Instr>
    requires opcode { bit_and word 0x7F ≡ 0x73 }
    requires funct3 { csr_op_of (field 12 3 word) ≡ None }
    ensures { result ≡ meaning word }
{
    match word {
        0x0000_0073 => Some(Instr::Ecall),
        0x0010_0073 => Some(Instr::Ebreak),
        0x3020_0073 => Some(Instr::Mret),
        0x1050_0073 => Some(Instr::Wfi),
        _ => None,
    }
}

#[tactic(auto, using(crate::proofs::Groups::csrs))]
#[inline(always)]
fn decode_system(word: u32) -> Option<Instr>
    requires { bit_and word 0x7F ≡ 0x73 }
    ensures { result ≡ meaning word }
{
    match csr_op(funct3(word)) {
        Some(op) => Some(Instr::Csr {
            op,
            rd: rd(word),
            rs1: rs1(word),
            number: (word >> 20) as u16,
        }),
        None => decode_environment(word),
    }
}

#[tactic(auto, using(crate::proofs::Groups::atomics))]
#[inline(always)]
fn decode_atomic(word: u32) -> Option<Instr>
    requires { bit_and word 0x7F ≡ 0x2F }
    ensures { result ≡ meaning word }
{
    if funct3(word) != 2 {
        return None;
    }
    match funct5(word) {
        2 => if rs2(word) == 0 {
            Some(Instr::LoadReserved {
                rd: rd(word),
                rs1: rs1(word),
                order: order(word),
            })
        } else {
            None
        },
        3 => Some(Instr::StoreConditional {
            rd: rd(word),
            rs1: rs1(word),
            rs2: rs2(word),
            order: order(word),
        }),
        top => match amo_op(top) {
            Some(op) => Some(Instr::Amo {
                op,
                rd: rd(word),
                rs1: rs1(word),
                rs2: rs2(word),
                order: order(word),
            }),
            None => None,
        },
    }
}

#[tactic(auto, using(crate::proofs::Groups::opcodes))]
#[inline(always)]
fn decode_opcode(word: u32) -> Option<Instr>
    ensures { result ≡ meaning word }
{
    match opcode(word) {
        0x37 => Some(Instr::Upper {
            op: UpperOp::Lui,
            rd: rd(word),
            imm: upper_immediate(word),
        }),
        0x17 => Some(Instr::Upper {
            op: UpperOp::Auipc,
            rd: rd(word),
            imm: upper_immediate(word),
        }),
        0x6f => Some(Instr::Jal {
            rd: rd(word),
            offset: offset_j(word),
        }),
        0x67 => decode_jalr(word),
        0x63 => decode_branch(word),
        0x03 => decode_load(word),
        0x23 => decode_store(word),
        0x13 => decode_imm(word),
        0x33 => decode_reg(word),
        0x0f => decode_fence(word),
        0x73 => decode_system(word),
        0x2f => decode_atomic(word),
        _ => None,
    }
}

/// The instruction that a word stands for, by the one row of the table that it matches.
#[tactic(auto, using(crate::proofs::Back::meaning_fits))]
#[inline(always)]
pub fn decode(word: u32) -> Option<Instr>
    ensures row { result ≡ meaning word }
    ensures fits { IfSome result Fits }
{
    decode_opcode(word)
}
