use crate::{
    AmoOp, BranchOp, CsrOp, ImmOp, Instr, LoadOp, RegOp, ShiftOp, StoreOp, UpperOp, decode, encode,
};

// A word that LLVM's assembler gave, and the instruction of its text: one of each row of the table.
#[rattlefmt::skip]
const ROWS: [(u32, Instr); 68] = [
    (0xffff_f2b7, Instr::Upper { op: UpperOp::Lui, rd: 5, imm: 0xffff_f000 }), // lui x5, 0xfffff
    (0x8000_1f97, Instr::Upper { op: UpperOp::Auipc, rd: 31, imm: 0x8000_1000 }), // auipc x31, 0x80001
    (0x8000_00ef, Instr::Jal { rd: 1, offset: -1048576 }), // jal x1, -1048576
    (0x8003_8367, Instr::Jalr { rd: 6, rs1: 7, offset: -2048 }), // jalr x6, -2048(x7)
    (0x8020_8063, Instr::Branch { op: BranchOp::Beq, rs1: 1, rs2: 2, offset: -4096 }), // beq x1, x2, -4096
    (0x7e41_9fe3, Instr::Branch { op: BranchOp::Bne, rs1: 3, rs2: 4, offset: 4094 }), // bne x3, x4, 4094
    (0x0062_c0e3, Instr::Branch { op: BranchOp::Blt, rs1: 5, rs2: 6, offset: 2048 }), // blt x5, x6, 2048
    (0xfe83_dfe3, Instr::Branch { op: BranchOp::Bge, rs1: 7, rs2: 8, offset: -2 }), // bge x7, x8, -2
    (0x00a4_ef63, Instr::Branch { op: BranchOp::Bltu, rs1: 9, rs2: 10, offset: 30 }), // bltu x9, x10, 30
    (0xfec5_f0e3, Instr::Branch { op: BranchOp::Bgeu, rs1: 11, rs2: 12, offset: -32 }), // bgeu x11, x12, -32
    (0x7ff7_0683, Instr::Load { op: LoadOp::Lb, rd: 13, rs1: 14, offset: 2047 }), // lb x13, 2047(x14)
    (0xfff8_1783, Instr::Load { op: LoadOp::Lh, rd: 15, rs1: 16, offset: -1 }), // lh x15, -1(x16)
    (0x5559_2883, Instr::Load { op: LoadOp::Lw, rd: 17, rs1: 18, offset: 1365 }), // lw x17, 1365(x18)
    (0xaaaa_4983, Instr::Load { op: LoadOp::Lbu, rd: 19, rs1: 20, offset: -1366 }), // lbu x19, -1366(x20)
    (0x000b_5a83, Instr::Load { op: LoadOp::Lhu, rd: 21, rs1: 22, offset: 0 }), // lhu x21, 0(x22)
    (0x817c_0023, Instr::Store { op: StoreOp::Sb, rs1: 24, rs2: 23, offset: -2048 }), // sb x23, -2048(x24)
    (0x7f9d_1fa3, Instr::Store { op: StoreOp::Sh, rs1: 26, rs2: 25, offset: 2047 }), // sh x25, 2047(x26)
    (0x55be_2aa3, Instr::Store { op: StoreOp::Sw, rs1: 28, rs2: 27, offset: 1365 }), // sw x27, 1365(x28)
    (0xffff_0e93, Instr::Imm { op: ImmOp::Addi, rd: 29, rs1: 30, imm: -1 }), // addi x29, x30, -1
    (0x7ff0_2f93, Instr::Imm { op: ImmOp::Slti, rd: 31, rs1: 0, imm: 2047 }), // slti x31, x0, 2047
    (0x800f_b093, Instr::Imm { op: ImmOp::Sltiu, rd: 1, rs1: 31, imm: -2048 }), // sltiu x1, x31, -2048
    (0x555f_4113, Instr::Imm { op: ImmOp::Xori, rd: 2, rs1: 30, imm: 1365 }), // xori x2, x30, 1365
    (0xaaae_e193, Instr::Imm { op: ImmOp::Ori, rd: 3, rs1: 29, imm: -1366 }), // ori x3, x29, -1366
    (0x0ffe_7213, Instr::Imm { op: ImmOp::Andi, rd: 4, rs1: 28, imm: 255 }), // andi x4, x28, 255
    (0x01fd_9293, Instr::Shift { op: ShiftOp::Slli, rd: 5, rs1: 27, amount: 31 }), // slli x5, x27, 31
    (0x001d_5313, Instr::Shift { op: ShiftOp::Srli, rd: 6, rs1: 26, amount: 1 }), // srli x6, x26, 1
    (0x415c_d393, Instr::Shift { op: ShiftOp::Srai, rd: 7, rs1: 25, amount: 21 }), // srai x7, x25, 21
    (0x009c_0433, Instr::Reg { op: RegOp::Add, rd: 8, rs1: 24, rs2: 9 }), // add x8, x24, x9
    (0x40bb_8533, Instr::Reg { op: RegOp::Sub, rd: 10, rs1: 23, rs2: 11 }), // sub x10, x23, x11
    (0x00db_1633, Instr::Reg { op: RegOp::Sll, rd: 12, rs1: 22, rs2: 13 }), // sll x12, x22, x13
    (0x00fa_a733, Instr::Reg { op: RegOp::Slt, rd: 14, rs1: 21, rs2: 15 }), // slt x14, x21, x15
    (0x011a_3833, Instr::Reg { op: RegOp::Sltu, rd: 16, rs1: 20, rs2: 17 }), // sltu x16, x20, x17
    (0x01f9_c933, Instr::Reg { op: RegOp::Xor, rd: 18, rs1: 19, rs2: 31 }), // xor x18, x19, x31
    (0x01ce_df33, Instr::Reg { op: RegOp::Srl, rd: 30, rs1: 29, rs2: 28 }), // srl x30, x29, x28
    (0x419d_5db3, Instr::Reg { op: RegOp::Sra, rd: 27, rs1: 26, rs2: 25 }), // sra x27, x26, x25
    (0x016b_ec33, Instr::Reg { op: RegOp::Or, rd: 24, rs1: 23, rs2: 22 }), // or x24, x23, x22
    (0x013a_7ab3, Instr::Reg { op: RegOp::And, rd: 21, rs1: 20, rs2: 19 }), // and x21, x20, x19
    (0x0308_8933, Instr::Reg { op: RegOp::Mul, rd: 18, rs1: 17, rs2: 16 }), // mul x18, x17, x16
    (0x02d7_17b3, Instr::Reg { op: RegOp::Mulh, rd: 15, rs1: 14, rs2: 13 }), // mulh x15, x14, x13
    (0x02a5_a633, Instr::Reg { op: RegOp::Mulhsu, rd: 12, rs1: 11, rs2: 10 }), // mulhsu x12, x11, x10
    (0x0274_34b3, Instr::Reg { op: RegOp::Mulhu, rd: 9, rs1: 8, rs2: 7 }), // mulhu x9, x8, x7
    (0x0242_c333, Instr::Reg { op: RegOp::Div, rd: 6, rs1: 5, rs2: 4 }), // div x6, x5, x4
    (0x0211_51b3, Instr::Reg { op: RegOp::Divu, rd: 3, rs1: 2, rs2: 1 }), // divu x3, x2, x1
    (0x03df_6fb3, Instr::Reg { op: RegOp::Rem, rd: 31, rs1: 30, rs2: 29 }), // rem x31, x30, x29
    (0x03ad_fe33, Instr::Reg { op: RegOp::Remu, rd: 28, rs1: 27, rs2: 26 }), // remu x28, x27, x26
    (0x0ff0_000f, Instr::Fence { word: 0x0ff0_000f }), // fence iorw, iorw
    (0x0000_100f, Instr::FenceI { word: 0x0000_100f }), // fence.i
    (0x0000_0073, Instr::Ecall), // ecall
    (0x0010_0073, Instr::Ebreak), // ebreak
    (0x3020_0073, Instr::Mret), // mret
    (0x1050_0073, Instr::Wfi), // wfi
    (0x3051_10f3, Instr::Csr { op: CsrOp::Csrrw, rd: 1, rs1: 2, number: 0x305 }), // csrrw x1, 0x305, x2
    (0xf140_22f3, Instr::Csr { op: CsrOp::Csrrs, rd: 5, rs1: 0, number: 0xf14 }), // csrrs x5, 0xf14, x0
    (0x341f_3ff3, Instr::Csr { op: CsrOp::Csrrc, rd: 31, rs1: 30, number: 0x341 }), // csrrc x31, 0x341, x30
    (0x3044_5073, Instr::Csr { op: CsrOp::Csrrwi, rd: 0, rs1: 8, number: 0x304 }), // csrrwi x0, 0x304, 8
    (0x300f_e373, Instr::Csr { op: CsrOp::Csrrsi, rd: 6, rs1: 31, number: 0x300 }), // csrrsi x6, 0x300, 31
    (0xfff0_f3f3, Instr::Csr { op: CsrOp::Csrrci, rd: 7, rs1: 1, number: 0xfff }), // csrrci x7, 0xfff, 1
    (0x1002_21af, Instr::LoadReserved { rd: 3, rs1: 4, order: 0 }), // lr.w x3, (x4)
    (0x1a63_a2af, Instr::StoreConditional { rd: 5, rs1: 7, rs2: 6, order: 1 }), // sc.w.rl x5, x6, (x7)
    (0x0c95_242f, Instr::Amo { op: AmoOp::Swap, rd: 8, rs1: 10, rs2: 9, order: 2 }), // amoswap.w.aq x8, x9, (x10)
    (0x06c6_a5af, Instr::Amo { op: AmoOp::Add, rd: 11, rs1: 13, rs2: 12, order: 3 }), // amoadd.w.aqrl x11, x12, (x13)
    (0x20f8_272f, Instr::Amo { op: AmoOp::Xor, rd: 14, rs1: 16, rs2: 15, order: 0 }), // amoxor.w x14, x15, (x16)
    (0x6129_a8af, Instr::Amo { op: AmoOp::And, rd: 17, rs1: 19, rs2: 18, order: 0 }), // amoand.w x17, x18, (x19)
    (0x415b_2a2f, Instr::Amo { op: AmoOp::Or, rd: 20, rs1: 22, rs2: 21, order: 0 }), // amoor.w x20, x21, (x22)
    (0x818c_abaf, Instr::Amo { op: AmoOp::Min, rd: 23, rs1: 25, rs2: 24, order: 0 }), // amomin.w x23, x24, (x25)
    (0xa1be_2d2f, Instr::Amo { op: AmoOp::Max, rd: 26, rs1: 28, rs2: 27, order: 0 }), // amomax.w x26, x27, (x28)
    (0xc1ef_aeaf, Instr::Amo { op: AmoOp::Minu, rd: 29, rs1: 31, rs2: 30, order: 0 }), // amominu.w x29, x30, (x31)
    (0xe221_a0af, Instr::Amo { op: AmoOp::Maxu, rd: 1, rs1: 3, rs2: 2, order: 1 }), // amomaxu.w.rl x1, x2, (x3)
];

fn rows() -> [(u32, Instr); 68] {
    ROWS
}

#[test]
fn each_row_means_what_an_assembler_says(rt: HostRuntime) {
    for (word, instr) in rows() {
        assert_eq!(rt; decode(word), Some(instr), "{word:08x}");
        assert!(rt; instr.fits());
        assert_eq!(rt; encode(instr), word, "{word:08x}");
    }
}

// Words that no row means.
#[rattlefmt::skip]
const ILLEGAL: [u32; 36] = [
    0, 0xffff_ffff,
    // no opcode of the table, or one of compressed code
    0x0000_0001, 0x0000_0032, 0x0000_0007, 0x0000_001b, 0x0000_003b,
    // jalr, branches, loads and stores with another funct3
    0x0000_1067, 0x0000_2063, 0x0000_3063, 0x0000_3003, 0x0000_6003, 0x0000_7003, 0x0000_3023,
    // shifts by six bits, and slli with the bit of srai
    0x0200_1013, 0x0200_5013, 0x4200_5013, 0x4000_1013,
    // registers with another funct7
    0x4000_1033, 0x4000_7033, 0x4200_0033, 0x0400_0033, 0x8000_0033,
    // fence with another funct3
    0x0000_200f,
    // the environment's words with an operand, and those of other levels and modes
    0x0000_00f3, 0x0000_8073, 0x0020_0073, 0x1020_0073, 0x3020_00f3, 0x1051_0073, 0x0000_4073,
    // lr.w with a second source, operations and widths that there are not
    0x1010_202f, 0x2800_202f, 0xf800_202f, 0x0000_302f, 0x1000_302f,
];

fn illegal() -> [u32; 36] {
    ILLEGAL
}

#[test]
fn words_beside_the_rows_are_illegal(rt: HostRuntime) {
    for word in illegal() {
        assert_eq!(rt; decode(word), None, "{word:08x}");
    }
}

#[test]
fn words_are_kept(rt: HostRuntime) {
    // sc.w, a fence whose ignored fields are set, and fence.i with all of them
    for word in [0x1820_a1af, 0x833f_8f8f, 0xffff_9f8f] {
        let instr = decode(word).expect(&rt, "it is legal");
        assert_eq!(rt; encode(instr), word, "{word:08x}");
    }
}

// Instructions with a field out of range.
#[rattlefmt::skip]
const MISFITS: [Instr; 14] = [
    Instr::Upper { op: UpperOp::Lui, rd: 0, imm: 0x0000_0800 },
    Instr::Upper { op: UpperOp::Lui, rd: 32, imm: 0 },
    Instr::Jal { rd: 0, offset: 0x10_0000 },
    Instr::Jal { rd: 0, offset: -0x10_0002 },
    Instr::Jal { rd: 0, offset: 3 },
    Instr::Jalr { rd: 0, rs1: 0, offset: 2048 },
    Instr::Branch { op: BranchOp::Beq, rs1: 0, rs2: 0, offset: 4096 },
    Instr::Branch { op: BranchOp::Beq, rs1: 0, rs2: 0, offset: -1 },
    Instr::Store { op: StoreOp::Sw, rs1: 0, rs2: 0, offset: -2049 },
    Instr::Shift { op: ShiftOp::Slli, rd: 0, rs1: 0, amount: 32 },
    Instr::Fence { word: 0x0000_100f },
    Instr::FenceI { word: 0x0000_000f },
    Instr::Csr { op: CsrOp::Csrrw, rd: 0, rs1: 0, number: 0x1000 },
    Instr::LoadReserved { rd: 0, rs1: 0, order: 4 },
];

fn misfits() -> [Instr; 14] {
    MISFITS
}

#[test]
fn fields_out_of_range_do_not_fit(rt: HostRuntime) {
    for instr in misfits() {
        assert!(rt; !instr.fits());
    }
}
