//! The operation that the bits of a word name, where its opcode is known.

ghost use Rattle.std.specs.Prelude.{◌≡◌};
ghost use Rattle.rv_decode.specs.Ops.{load_op_of, reg_op_of, branch_op_of, store_op_of, imm_op_of, shift_op_of, csr_op_of, amo_op_of};

use crate::{AmoOp, BranchOp, CsrOp, ImmOp, LoadOp, RegOp, ShiftOp, StoreOp};

#[inline(always)]
pub fn load_op(funct3: u32) -> Option<LoadOp>
    ensures { result ≡ load_op_of funct3 }
{
    match funct3 {
        0 => Some(LoadOp::Lb),
        1 => Some(LoadOp::Lh),
        2 => Some(LoadOp::Lw),
        4 => Some(LoadOp::Lbu),
        5 => Some(LoadOp::Lhu),
        _ => None,
    }
}

#[inline(always)]
pub fn branch_op(funct3: u32) -> Option<BranchOp>
    ensures { result ≡ branch_op_of funct3 }
{
    match funct3 {
        0 => Some(BranchOp::Beq),
        1 => Some(BranchOp::Bne),
        4 => Some(BranchOp::Blt),
        5 => Some(BranchOp::Bge),
        6 => Some(BranchOp::Bltu),
        7 => Some(BranchOp::Bgeu),
        _ => None,
    }
}

#[inline(always)]
pub fn store_op(funct3: u32) -> Option<StoreOp>
    ensures { result ≡ store_op_of funct3 }
{
    match funct3 {
        0 => Some(StoreOp::Sb),
        1 => Some(StoreOp::Sh),
        2 => Some(StoreOp::Sw),
        _ => None,
    }
}

#[inline(always)]
pub fn imm_op(funct3: u32) -> Option<ImmOp>
    ensures { result ≡ imm_op_of funct3 }
{
    match funct3 {
        0 => Some(ImmOp::Addi),
        2 => Some(ImmOp::Slti),
        3 => Some(ImmOp::Sltiu),
        4 => Some(ImmOp::Xori),
        6 => Some(ImmOp::Ori),
        7 => Some(ImmOp::Andi),
        _ => None,
    }
}

#[inline(always)]
pub fn csr_op(funct3: u32) -> Option<CsrOp>
    ensures { result ≡ csr_op_of funct3 }
{
    match funct3 {
        1 => Some(CsrOp::Csrrw),
        2 => Some(CsrOp::Csrrs),
        3 => Some(CsrOp::Csrrc),
        5 => Some(CsrOp::Csrrwi),
        6 => Some(CsrOp::Csrrsi),
        7 => Some(CsrOp::Csrrci),
        _ => None,
    }
}

#[inline(always)]
pub fn amo_op(funct5: u32) -> Option<AmoOp>
    ensures { result ≡ amo_op_of funct5 }
{
    match funct5 {
        1 => Some(AmoOp::Swap),
        0 => Some(AmoOp::Add),
        4 => Some(AmoOp::Xor),
        12 => Some(AmoOp::And),
        8 => Some(AmoOp::Or),
        16 => Some(AmoOp::Min),
        20 => Some(AmoOp::Max),
        24 => Some(AmoOp::Minu),
        28 => Some(AmoOp::Maxu),
        _ => None,
    }
}

#[inline(always)]
pub fn reg_op(funct7: u32, funct3: u32) -> Option<RegOp>
    ensures { result ≡ reg_op_of funct7 funct3 }
{
    match (funct7, funct3) {
        (0, 0) => Some(RegOp::Add),
        (32, 0) => Some(RegOp::Sub),
        (0, 1) => Some(RegOp::Sll),
        (0, 2) => Some(RegOp::Slt),
        (0, 3) => Some(RegOp::Sltu),
        (0, 4) => Some(RegOp::Xor),
        (0, 5) => Some(RegOp::Srl),
        (32, 5) => Some(RegOp::Sra),
        (0, 6) => Some(RegOp::Or),
        (0, 7) => Some(RegOp::And),
        (1, 0) => Some(RegOp::Mul),
        (1, 1) => Some(RegOp::Mulh),
        (1, 2) => Some(RegOp::Mulhsu),
        (1, 3) => Some(RegOp::Mulhu),
        (1, 4) => Some(RegOp::Div),
        (1, 5) => Some(RegOp::Divu),
        (1, 6) => Some(RegOp::Rem),
        (1, 7) => Some(RegOp::Remu),
        _ => None,
    }
}

#[inline(always)]
pub fn shift_op(funct7: u32, funct3: u32) -> Option<ShiftOp>
    ensures { result ≡ shift_op_of funct7 funct3 }
{
    match (funct7, funct3) {
        (0, 1) => Some(ShiftOp::Slli),
        (0, 5) => Some(ShiftOp::Srli),
        (32, 5) => Some(ShiftOp::Srai),
        _ => None,
    }
}
