//! From an instruction to its word: the bits of its row and its fields.

ghost use Rattle.std.specs.Prelude.{◌≡◌, ◌+◌, ◌*◌, ◌<◌, ◌≤◌, ◌^◌, ◌↔◌, ℕ, IsTrue, Some};
ghost use Rattle.rv_decode.specs.Table.{meaning};
ghost use Rattle.rv_decode.specs.Fits.{Fits, IsSigned, IsEven};
ghost use Rattle.rv_decode.specs.Encoding.{low_bits, upper_bits, branch_bits, load_bits, store_bits, imm_bits, shift_bits, reg_bits, csr_bits, amo_bits, with_imm_s, with_imm_b, with_imm_j, encoded};

use crate::{AmoOp, BranchOp, CsrOp, ImmOp, Instr, LoadOp, RegOp, ShiftOp, StoreOp, UpperOp};

fn upper_bits(op: UpperOp) -> u32
    ensures value { result ≡ upper_bits op }
    ensures small { result ≤ 0x00000037 }
{
    match op {
        UpperOp::Lui => 0x00000037,
        UpperOp::Auipc => 0x00000017,
    }
}

fn branch_bits(op: BranchOp) -> u32
    ensures value { result ≡ branch_bits op }
    ensures small { result ≤ 0x00007063 }
{
    match op {
        BranchOp::Beq => 0x00000063,
        BranchOp::Bne => 0x00001063,
        BranchOp::Blt => 0x00004063,
        BranchOp::Bge => 0x00005063,
        BranchOp::Bltu => 0x00006063,
        BranchOp::Bgeu => 0x00007063,
    }
}

fn load_bits(op: LoadOp) -> u32
    ensures value { result ≡ load_bits op }
    ensures small { result ≤ 0x00005003 }
{
    match op {
        LoadOp::Lb => 0x00000003,
        LoadOp::Lh => 0x00001003,
        LoadOp::Lw => 0x00002003,
        LoadOp::Lbu => 0x00004003,
        LoadOp::Lhu => 0x00005003,
    }
}

fn store_bits(op: StoreOp) -> u32
    ensures value { result ≡ store_bits op }
    ensures small { result ≤ 0x00002023 }
{
    match op {
        StoreOp::Sb => 0x00000023,
        StoreOp::Sh => 0x00001023,
        StoreOp::Sw => 0x00002023,
    }
}

fn imm_bits(op: ImmOp) -> u32
    ensures value { result ≡ imm_bits op }
    ensures small { result ≤ 0x00007013 }
{
    match op {
        ImmOp::Addi => 0x00000013,
        ImmOp::Slti => 0x00002013,
        ImmOp::Sltiu => 0x00003013,
        ImmOp::Xori => 0x00004013,
        ImmOp::Ori => 0x00006013,
        ImmOp::Andi => 0x00007013,
    }
}

fn shift_bits(op: ShiftOp) -> u32
    ensures value { result ≡ shift_bits op }
    ensures small { result ≤ 0x40005013 }
{
    match op {
        ShiftOp::Slli => 0x00001013,
        ShiftOp::Srli => 0x00005013,
        ShiftOp::Srai => 0x40005013,
    }
}

fn reg_bits(op: RegOp) -> u32
    ensures value { result ≡ reg_bits op }
    ensures small { result ≤ 0x40005033 }
{
    match op {
        RegOp::Add => 0x00000033,
        RegOp::Sub => 0x40000033,
        RegOp::Sll => 0x00001033,
        RegOp::Slt => 0x00002033,
        RegOp::Sltu => 0x00003033,
        RegOp::Xor => 0x00004033,
        RegOp::Srl => 0x00005033,
        RegOp::Sra => 0x40005033,
        RegOp::Or => 0x00006033,
        RegOp::And => 0x00007033,
        RegOp::Mul => 0x02000033,
        RegOp::Mulh => 0x02001033,
        RegOp::Mulhsu => 0x02002033,
        RegOp::Mulhu => 0x02003033,
        RegOp::Div => 0x02004033,
        RegOp::Divu => 0x02005033,
        RegOp::Rem => 0x02006033,
        RegOp::Remu => 0x02007033,
    }
}

fn csr_bits(op: CsrOp) -> u32
    ensures value { result ≡ csr_bits op }
    ensures small { result ≤ 0x00007073 }
{
    match op {
        CsrOp::Csrrw => 0x00001073,
        CsrOp::Csrrs => 0x00002073,
        CsrOp::Csrrc => 0x00003073,
        CsrOp::Csrrwi => 0x00005073,
        CsrOp::Csrrsi => 0x00006073,
        CsrOp::Csrrci => 0x00007073,
    }
}

fn amo_bits(op: AmoOp) -> u32
    ensures value { result ≡ amo_bits op }
    ensures small { result ≤ 0xE000202F }
{
    match op {
        AmoOp::Swap => 0x0800202f,
        AmoOp::Add => 0x0000202f,
        AmoOp::Xor => 0x2000202f,
        AmoOp::And => 0x6000202f,
        AmoOp::Or => 0x4000202f,
        AmoOp::Min => 0x8000202f,
        AmoOp::Max => 0xa000202f,
        AmoOp::Minu => 0xc000202f,
        AmoOp::Maxu => 0xe000202f,
    }
}

fn low_12(offset: i32) -> u32
    ensures value { result ≡ low_bits 12 offset }
    ensures small { result < 2 ^ 12 }
{
    offset.cast_unsigned() & 0xfff
}

fn low_13(offset: i32) -> u32
    ensures value { result ≡ low_bits 13 offset }
    ensures small { result < 2 ^ 13 }
{
    offset.cast_unsigned() & 0x1fff
}

fn low_21(offset: i32) -> u32
    ensures value { result ≡ low_bits 21 offset }
    ensures small { result < 2 ^ 21 }
{
    offset.cast_unsigned() & 0x1f_ffff
}

fn spread_s(n: u32) -> u32
    requires { n < 2 ^ 12 }
    ensures { result ≡ with_imm_s n }
{
    ((n & 31) << 7) + ((n >> 5) << 25)
}

fn spread_b(n: u32) -> u32
    requires { n < 2 ^ 13 }
    ensures { result ≡ with_imm_b n }
{
    (((n >> 11) & 1) << 7) + (((n >> 1) & 15) << 8) + (((n >> 5) & 63) << 25) + ((n >> 12) << 31)
}

fn spread_j(n: u32) -> u32
    requires { n < 2 ^ 21 }
    ensures { result ≡ with_imm_j n }
{
    (((n >> 12) & 255) << 12)
        + (((n >> 11) & 1) << 20)
        + (((n >> 1) & 1023) << 21)
        + ((n >> 20) << 31)
}

/// The bits of a row with its registers and what stands above them.
fn with_rd(bits: u32, rd: u8, rs1: u8, above: u32) -> u32
    requires { bits + rd * 2 ^ 7 + rs1 * 2 ^ 15 + above * 2 ^ 20 < 2 ^ 32 }
    ensures { result ≡ bits + rd * 2 ^ 7 + rs1 * 2 ^ 15 + above * 2 ^ 20 }
{
    bits + u32::from(rd) * 0x80 + u32::from(rs1) * 0x8000 + above * 0x10_0000
}

/// The same of a row without a destination, whose immediate is spread.
fn without_rd(bits: u32, rs1: u8, rs2: u8, spread: u32) -> u32
    requires { bits + rs1 * 2 ^ 15 + rs2 * 2 ^ 20 + spread < 2 ^ 32 }
    ensures { result ≡ bits + rs1 * 2 ^ 15 + rs2 * 2 ^ 20 + spread }
{
    bits + u32::from(rs1) * 0x8000 + u32::from(rs2) * 0x10_0000 + spread
}

/// The same of a row with an order.
fn with_order(bits: u32, rd: u8, rs1: u8, rs2: u8, order: u8) -> u32
    requires { bits + rd * 2 ^ 7 + rs1 * 2 ^ 15 + rs2 * 2 ^ 20 + order * 2 ^ 25 < 2 ^ 32 }
    ensures { result ≡ bits + rd * 2 ^ 7 + rs1 * 2 ^ 15 + rs2 * 2 ^ 20 + order * 2 ^ 25 }
{
    bits + u32::from(rd) * 0x80
        + u32::from(rs1) * 0x8000
        + u32::from(rs2) * 0x10_0000
        + u32::from(order) * 0x200_0000
}

#[rattlefmt::skip]
fn word_of(i: Instr) -> u32
    requires { Fits i }
    ensures { result ≡ encoded i }
{
    match i {
        Instr::Upper { op, rd, imm } => upper_bits(op) + u32::from(rd) * 0x80 + imm,
        Instr::Jal { rd, offset } => 0x6f + u32::from(rd) * 0x80 + spread_j(low_21(offset)),
        Instr::Jalr { rd, rs1, offset } => with_rd(0x67, rd, rs1, low_12(offset)),
        Instr::Branch { op, rs1, rs2, offset } => without_rd(branch_bits(op), rs1, rs2, spread_b(low_13(offset))),
        Instr::Load { op, rd, rs1, offset } => with_rd(load_bits(op), rd, rs1, low_12(offset)),
        Instr::Store { op, rs1, rs2, offset } => without_rd(store_bits(op), rs1, rs2, spread_s(low_12(offset))),
        Instr::Imm { op, rd, rs1, imm } => with_rd(imm_bits(op), rd, rs1, low_12(imm)),
        Instr::Shift { op, rd, rs1, amount } => with_rd(shift_bits(op), rd, rs1, u32::from(amount)),
        Instr::Reg { op, rd, rs1, rs2 } => with_rd(reg_bits(op), rd, rs1, u32::from(rs2)),
        Instr::Fence { word } => word,
        Instr::FenceI { word } => word,
        Instr::Ecall => 0x73,
        Instr::Ebreak => 0x10_0073,
        Instr::Mret => 0x3020_0073,
        Instr::Wfi => 0x1050_0073,
        Instr::Csr { op, rd, rs1, number } => with_rd(csr_bits(op), rd, rs1, u32::from(number)),
        Instr::LoadReserved { rd, rs1, order } => with_order(0x1000_202f, rd, rs1, 0, order),
        Instr::StoreConditional { rd, rs1, rs2, order } => with_order(0x1800_202f, rd, rs1, rs2, order),
        Instr::Amo { op, rd, rs1, rs2, order } => with_order(amo_bits(op), rd, rs1, rs2, order),
    }
}

/// The word that means an instruction whose fields are in range. No other word means it.
#[tactic(auto, using(crate::proofs::Forward::words))]
pub fn encode(i: Instr) -> u32
    requires { Fits i }
    ensures means { meaning result ≡ Some i }
    ensures only { (w : ℕ) → w < 2 ^ 32 → meaning w ≡ Some i → w ≡ result }
{
    word_of(i)
}

fn is_12_bits(n: i32) -> bool
    ensures { IsTrue result ↔ IsSigned 11 n }
{
    n >= -0x800 && n < 0x800
}

fn is_13_bits(n: i32) -> bool
    ensures { IsTrue result ↔ (IsSigned 12 n × IsEven n) }
{
    n >= -0x1000 && n < 0x1000 && n.cast_unsigned() % 2 == 0
}

fn is_21_bits(n: i32) -> bool
    ensures { IsTrue result ↔ (IsSigned 20 n × IsEven n) }
{
    n >= -0x10_0000 && n < 0x10_0000 && n.cast_unsigned() % 2 == 0
}

impl Instr {
    /// Whether the fields are in range.
    #[rattlefmt::skip]
    pub fn fits(&self) -> bool
        ensures { IsTrue result ↔ Fits self.now }
    {
        match *self {
            Instr::Upper { op: _, rd, imm } => rd < 32 && imm % 0x1000 == 0,
            Instr::Jal { rd, offset } => rd < 32 && is_21_bits(offset),
            Instr::Jalr { rd, rs1, offset } => rd < 32 && rs1 < 32 && is_12_bits(offset),
            Instr::Branch { op: _, rs1, rs2, offset } => rs1 < 32 && rs2 < 32 && is_13_bits(offset),
            Instr::Load { op: _, rd, rs1, offset } => rd < 32 && rs1 < 32 && is_12_bits(offset),
            Instr::Store { op: _, rs1, rs2, offset } => rs1 < 32 && rs2 < 32 && is_12_bits(offset),
            Instr::Imm { op: _, rd, rs1, imm } => rd < 32 && rs1 < 32 && is_12_bits(imm),
            Instr::Shift { op: _, rd, rs1, amount } => rd < 32 && rs1 < 32 && amount < 32,
            Instr::Reg { op: _, rd, rs1, rs2 } => rd < 32 && rs1 < 32 && rs2 < 32,
            Instr::Fence { word } => word & 0x707f == 0x000f,
            Instr::FenceI { word } => word & 0x707f == 0x100f,
            Instr::Ecall | Instr::Ebreak | Instr::Mret | Instr::Wfi => true,
            Instr::Csr { op: _, rd, rs1, number } => rd < 32 && rs1 < 32 && number < 0x1000,
            Instr::LoadReserved { rd, rs1, order } => rd < 32 && rs1 < 32 && order < 4,
            Instr::StoreConditional { rd, rs1, rs2, order } => rd < 32 && rs1 < 32 && rs2 < 32 && order < 4,
            Instr::Amo { op: _, rd, rs1, rs2, order } => rd < 32 && rs1 < 32 && rs2 < 32 && order < 4,
        }
    }
}
