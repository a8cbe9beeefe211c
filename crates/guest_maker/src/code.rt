//! The code of a guest.
ghost use Rattle.std.specs.Prelude.{◌≡◌, ◌+◌, ◌*◌, ◌<◌, ◌%◌, ◌^◌, pos, ◌++◌, length, vec_len, All, OnOk};
ghost use Rattle.rv_decode.specs.Fits.{Fits};
ghost use Rattle.rv_decode.specs.declared.Instr.TheVariants as AnInstr;
ghost use Rattle.rv_decode.specs.declared.UpperOp.TheVariants.{Lui};
ghost use Rattle.rv_decode.specs.declared.ImmOp.TheVariants.{Addi};
ghost use Rattle.rv_decode.specs.declared.AmoOp.TheVariants.{Add};
ghost use Rattle.guest_maker.specs.Draws.{next as next_of};
ghost use Rattle.guest_maker.specs.Code.{word_bytes, bytes_of, head, block as block_of, base as base_of, drawn_block as drawn, blocks, loop_end, finish, code};

use crate::draws::{draw, next};
use rv_decode::{AmoOp, BranchOp, CsrOp, ImmOp, Instr, LoadOp, RegOp, StoreOp, UpperOp, encode};
use std::alloc::AllocError;

/// How many blocks a guest has.
const BLOCKS: u32 = 64;

#[tactic(auto, using(rv_decode::proofs::Forward::words), unfolding(crate::specs::Code::word_bytes))]
fn put_instr(out: &mut Vec<u8>, i: Instr) -> Result<(), AllocError>
    requires { Fits i }
    ensures bytes { OnOk result (out.new.items ≡ out.old.items ++ word_bytes i) }
    ensures size { OnOk result (vec_len out.new ≡ vec_len out.old + 4) }
{
    out.extend_from_slice(&encode(i).to_le_bytes())
}

fn put_all(out: &mut Vec<u8>, instrs: &[Instr]) -> Result<(), AllocError>
    requires { All Fits instrs.now }
    ensures bytes { OnOk result (out.new.items ≡ out.old.items ++ bytes_of instrs.now) }
    ensures size { OnOk result (vec_len out.new ≡ vec_len out.old + 4 * length instrs.now) }
{
    for i in instrs {
        put_instr(out, *i)?;
    }
    Ok(())
}

fn load(op: LoadOp, rd: u8, w: u8, rs1: u8) -> Instr
    requires registers { (rd < 32) × (rs1 < 32) }
    ensures is { result ≡ AnInstr.Load op rd rs1 (pos w) }
    ensures fits { Fits result }
{
    let offset = i32::from(w);
    Instr::Load {
        op,
        rd,
        rs1,
        offset,
    }
}

fn store(op: StoreOp, rs2: u8, w: u8, rs1: u8) -> Instr
    requires registers { (rs2 < 32) × (rs1 < 32) }
    ensures is { result ≡ AnInstr.Store op rs1 rs2 (pos w) }
    ensures fits { Fits result }
{
    let offset = i32::from(w);
    Instr::Store {
        op,
        rs1,
        rs2,
        offset,
    }
}

fn addi(rd: u8, rs1: u8, n: u8) -> Instr
    requires registers { (rd < 32) × (rs1 < 32) }
    ensures is { result ≡ AnInstr.Imm Addi rd rs1 (pos n) }
    ensures fits { Fits result }
{
    let imm = i32::from(n);
    Instr::Imm {
        op: ImmOp::Addi,
        rd,
        rs1,
        imm,
    }
}

fn reg(op: RegOp, rd: u8, rs1: u8, rs2: u8) -> Instr
    requires registers { (rd < 32) × (rs1 < 32) × (rs2 < 32) }
    ensures is { result ≡ AnInstr.Reg op rd rs1 rs2 }
    ensures fits { Fits result }
{
    Instr::Reg { op, rd, rs1, rs2 }
}

fn amoadd(rd: u8, rs2: u8, rs1: u8) -> Instr
    requires registers { (rd < 32) × (rs1 < 32) × (rs2 < 32) }
    ensures is { result ≡ AnInstr.Amo Add rd rs1 rs2 0 }
    ensures fits { Fits result }
{
    Instr::Amo {
        op: AmoOp::Add,
        rd,
        rs1,
        rs2,
        order: 0,
    }
}

fn reserve(rd: u8, rs1: u8) -> Instr
    requires registers { (rd < 32) × (rs1 < 32) }
    ensures is { result ≡ AnInstr.LoadReserved rd rs1 0 }
    ensures fits { Fits result }
{
    Instr::LoadReserved { rd, rs1, order: 0 }
}

fn conditional(rd: u8, rs2: u8, rs1: u8) -> Instr
    requires registers { (rd < 32) × (rs1 < 32) × (rs2 < 32) }
    ensures is { result ≡ AnInstr.StoreConditional rd rs1 rs2 0 }
    ensures fits { Fits result }
{
    Instr::StoreConditional {
        rd,
        rs1,
        rs2,
        order: 0,
    }
}

fn lui(rd: u8, imm: u32) -> Instr
    requires register { rd < 32 }
    requires upper { imm % 2 ^ 12 ≡ 0 }
    ensures is { result ≡ AnInstr.Upper Lui rd imm }
    ensures fits { Fits result }
{
    Instr::Upper {
        op: UpperOp::Lui,
        rd,
        imm,
    }
}

// Each hart knows its number, the two pages and how often it loops.
#[tactic(auto, unfolding(crate::specs::Code::head))]
fn put_head(out: &mut Vec<u8>) -> Result<(), AllocError>
    ensures bytes { OnOk result (out.new.items ≡ out.old.items ++ bytes_of head) }
    ensures size { OnOk result (vec_len out.new ≡ vec_len out.old + 16) }
{
    let own = Instr::Csr {
        op: CsrOp::Csrrs,
        rd: 5,
        rs1: 0,
        number: 0xf14,
    };
    put_all(
        out,
        &[
            own,
            lui(1, 0x8000_2000),
            lui(6, 0x8000_3000),
            addi(7, 0, 100),
        ],
    )
}

// The three instructions of a kind, with an offset and a base register.
#[tactic(auto, unfolding(crate::specs::Code::block))]
fn block(kind: u32, w: u8, b: u8) -> [Instr; 3]
    requires { b < 32 }
    ensures is { result ≡ block_of kind w b }
    ensures fits { All Fits result }
{
    if kind == 0 {
        [
            load(LoadOp::Lw, 8, w, b),
            addi(8, 8, 1),
            store(StoreOp::Sw, 8, w, b),
        ]
    } else if kind == 1 {
        [addi(9, b, w), amoadd(10, 5, 9), reg(RegOp::Xor, 11, 11, 10)]
    } else if kind == 2 {
        [addi(9, b, w), reserve(12, 9), conditional(13, 5, 9)]
    } else if kind == 3 {
        [
            load(LoadOp::Lw, 14, w, b),
            reg(RegOp::Mul, 11, 11, 14),
            reg(RegOp::Add, 11, 11, 5),
        ]
    } else if kind == 4 {
        [
            addi(15, 5, w),
            reg(RegOp::Divu, 16, 11, 15),
            reg(RegOp::Xor, 11, 11, 16),
        ]
    } else {
        [
            store(StoreOp::Sb, 11, w, b),
            load(LoadOp::Lhu, 17, w, b),
            reg(RegOp::Add, 11, 11, 17),
        ]
    }
}

// One of the two pages.
#[tactic(auto, unfolding(crate::specs::Code::base))]
fn base(n: u32) -> u8
    ensures is { result ≡ base_of n }
    ensures register { result < 32 }
{
    if n.is_multiple_of(2) { 1 } else { 6 }
}

// The block whose draws come next, and the state after them.
#[tactic(auto, unfolding(crate::specs::Code::drawn_block))]
fn drawn_block(s: u32) -> ([Instr; 3], u32)
    ensures is { result.0 ≡ drawn s }
    ensures fits { All Fits result.0 }
    ensures state { result.1 ≡ next_of (next_of (next_of s)) }
{
    let first = next(s);
    let second = next(first);
    let third = next(second);
    let offset = (4 * (draw(second) % 64)) as u8;
    (block(draw(first) % 6, offset, base(draw(third))), third)
}

fn put_blocks(out: &mut Vec<u8>, number: u32, many: u32) -> Result<(), AllocError>
    ensures bytes { OnOk result (out.new.items ≡ out.old.items ++ bytes_of (blocks number many)) }
    ensures size { OnOk result (vec_len out.new ≡ vec_len out.old + 12 * many) }
{
    let mut s = number;
    for n in 0..many {
        let (block, after) = drawn_block(s);
        put_all(out, &block)?;
        s = after;
    }
    Ok(())
}

// The loop's end.
#[tactic(auto, unfolding(crate::specs::Code::loop_end))]
fn put_loop_end(out: &mut Vec<u8>) -> Result<(), AllocError>
    ensures bytes { OnOk result (out.new.items ≡ out.old.items ++ bytes_of loop_end) }
    ensures size { OnOk result (vec_len out.new ≡ vec_len out.old + 12) }
{
    let less = Instr::Imm {
        op: ImmOp::Addi,
        rd: 7,
        rs1: 7,
        imm: -1,
    };
    let done = Instr::Branch {
        op: BranchOp::Beq,
        rs1: 7,
        rs2: 0,
        offset: 8,
    };
    let again = Instr::Jal {
        rd: 0,
        offset: -776,
    };
    put_all(out, &[less, done, again])
}

// Each hart counts itself, and the last one stops the run.
#[tactic(auto, unfolding(crate::specs::Code::finish))]
fn put_finish(out: &mut Vec<u8>, harts: u8) -> Result<(), AllocError>
    ensures bytes { OnOk result (out.new.items ≡ out.old.items ++ bytes_of (finish harts)) }
    ensures size { OnOk result (vec_len out.new ≡ vec_len out.old + 36) }
{
    let not_last = Instr::Branch {
        op: BranchOp::Bne,
        rs1: 20,
        rs2: 21,
        offset: 12,
    };
    let stay = Instr::Jal { rd: 0, offset: 0 };
    put_all(
        out,
        &[lui(18, 0x8000_4000), addi(19, 0, 1), amoadd(20, 19, 18)],
    )?;
    put_all(out, &[addi(20, 20, 1), addi(21, 0, harts), not_last])?;
    put_all(
        out,
        &[lui(22, 0x1000_0000), store(StoreOp::Sw, 11, 8, 22), stay],
    )
}

/// The code of a guest, in bytes.
pub(crate) fn put_code(out: &mut Vec<u8>, number: u32, harts: u8) -> Result<(), AllocError>
    ensures bytes { OnOk result (out.new.items ≡ out.old.items ++ code number harts) }
    ensures size { OnOk result (vec_len out.new ≡ vec_len out.old + 832) }
{
    put_head(out)?;
    put_blocks(out, number, BLOCKS)?;
    put_loop_end(out)?;
    put_finish(out, harts)
}
