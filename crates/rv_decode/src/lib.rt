//! The instructions of RV32I, the M and A extensions, Zicsr and Zifencei, with MRET and WFI: what each word
//! means, and the one word of each instruction.
//!
//! The encodings are those of the RISC-V Unprivileged manual, chapter "RV32/64G Instruction Set Listings"; those
//! of MRET and WFI are in the Privileged manual. A word that stands in no row of the table is illegal.
#![tactic(auto)]

ghost use Rattle.rv_decode.specs.Table.{NoTwoRowsMatch};
ghost use Rattle.rv_decode.specs.Fits.{NoTwoWordsMeanTheSame, WordsMeanWhatFits};

mod decoder;
mod encoder;
mod fields;
mod operations;

pub use decoder::decode;
pub use encoder::encode;

#[derive(Clone, Copy, Debug, PartialEq, Eq)]
pub enum UpperOp {
    Lui,
    Auipc,
}

#[derive(Clone, Copy, Debug, PartialEq, Eq)]
pub enum BranchOp {
    Beq,
    Bne,
    Blt,
    Bge,
    Bltu,
    Bgeu,
}

#[derive(Clone, Copy, Debug, PartialEq, Eq)]
pub enum LoadOp {
    Lb,
    Lh,
    Lw,
    Lbu,
    Lhu,
}

#[derive(Clone, Copy, Debug, PartialEq, Eq)]
pub enum StoreOp {
    Sb,
    Sh,
    Sw,
}

#[derive(Clone, Copy, Debug, PartialEq, Eq)]
pub enum ImmOp {
    Addi,
    Slti,
    Sltiu,
    Xori,
    Ori,
    Andi,
}

#[derive(Clone, Copy, Debug, PartialEq, Eq)]
pub enum ShiftOp {
    Slli,
    Srli,
    Srai,
}

#[derive(Clone, Copy, Debug, PartialEq, Eq)]
pub enum RegOp {
    Add,
    Sub,
    Sll,
    Slt,
    Sltu,
    Xor,
    Srl,
    Sra,
    Or,
    And,
    Mul,
    Mulh,
    Mulhsu,
    Mulhu,
    Div,
    Divu,
    Rem,
    Remu,
}

#[derive(Clone, Copy, Debug, PartialEq, Eq)]
pub enum CsrOp {
    Csrrw,
    Csrrs,
    Csrrc,
    Csrrwi,
    Csrrsi,
    Csrrci,
}

#[derive(Clone, Copy, Debug, PartialEq, Eq)]
pub enum AmoOp {
    Swap,
    Add,
    Xor,
    And,
    Or,
    Min,
    Max,
    Minu,
    Maxu,
}

/// An instruction. Registers are numbers below 32, and `order` is aq * 2 + rl.
#[derive(Clone, Copy, Debug, PartialEq, Eq)]
pub enum Instr {
    Upper {
        op: UpperOp,
        rd: u8,
        imm: u32,
    },
    Jal {
        rd: u8,
        offset: i32,
    },
    Jalr {
        rd: u8,
        rs1: u8,
        offset: i32,
    },
    Branch {
        op: BranchOp,
        rs1: u8,
        rs2: u8,
        offset: i32,
    },
    Load {
        op: LoadOp,
        rd: u8,
        rs1: u8,
        offset: i32,
    },
    Store {
        op: StoreOp,
        rs1: u8,
        rs2: u8,
        offset: i32,
    },
    Imm {
        op: ImmOp,
        rd: u8,
        rs1: u8,
        imm: i32,
    },
    Shift {
        op: ShiftOp,
        rd: u8,
        rs1: u8,
        amount: u8,
    },
    Reg {
        op: RegOp,
        rd: u8,
        rs1: u8,
        rs2: u8,
    },
    Fence {
        word: u32,
    },
    FenceI {
        word: u32,
    },
    Ecall,
    Ebreak,
    Mret,
    Wfi,
    Csr {
        op: CsrOp,
        rd: u8,
        rs1: u8,
        number: u16,
    },
    LoadReserved {
        rd: u8,
        rs1: u8,
        order: u8,
    },
    StoreConditional {
        rd: u8,
        rs1: u8,
        rs2: u8,
        order: u8,
    },
    Amo {
        op: AmoOp,
        rd: u8,
        rs1: u8,
        rs2: u8,
        order: u8,
    },
}

/// Laws of the table: it is unambiguous, and its words and the instructions that fit belong to each other one
/// to one. So `decode` gives back what `encode` was given, and `encode` the word that `decode` was given.
pub fn table_laws()
    ensures rows { NoTwoRowsMatch }
    ensures words { NoTwoWordsMeanTheSame }
    ensures instructions { WordsMeanWhatFits }
{}

#[cfg(test)]
mod tests;
