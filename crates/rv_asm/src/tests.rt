use crate::{AsmError, assemble, instr_text};
use rv_decode::decode;
use std::alloc::Global;

// The prover sees no rows: functions without clauses give them, and others say what a row comes to.

// One line for each row of the table of instructions. LLVM's assembler gave the words.
const ROWS: [(&'static str, u32); 70] = [
    ("lui x5, 0xfffff\n", 0xffff_f2b7),
    ("auipc x31, 0x80001\n", 0x8000_1f97),
    ("jal x1, -1048576\n", 0x8000_00ef),
    ("jalr x6, -2048(x7)\n", 0x8003_8367),
    ("beq x1, x2, -4096\n", 0x8020_8063),
    ("bne x3, x4, 4094\n", 0x7e41_9fe3),
    ("blt x5, x6, 2048\n", 0x0062_c0e3),
    ("bge x7, x8, -2\n", 0xfe83_dfe3),
    ("bltu x9, x10, 30\n", 0x00a4_ef63),
    ("bgeu x11, x12, -32\n", 0xfec5_f0e3),
    ("lb x13, 2047(x14)\n", 0x7ff7_0683),
    ("lh x15, -1(x16)\n", 0xfff8_1783),
    ("lw x17, 1365(x18)\n", 0x5559_2883),
    ("lbu x19, -1366(x20)\n", 0xaaaa_4983),
    ("lhu x21, 0(x22)\n", 0x000b_5a83),
    ("sb x23, -2048(x24)\n", 0x817c_0023),
    ("sh x25, 2047(x26)\n", 0x7f9d_1fa3),
    ("sw x27, 1365(x28)\n", 0x55be_2aa3),
    ("addi x29, x30, -1\n", 0xffff_0e93),
    ("slti x31, x0, 2047\n", 0x7ff0_2f93),
    ("sltiu x1, x31, -2048\n", 0x800f_b093),
    ("xori x2, x30, 1365\n", 0x555f_4113),
    ("ori x3, x29, -1366\n", 0xaaae_e193),
    ("andi x4, x28, 255\n", 0x0ffe_7213),
    ("slli x5, x27, 31\n", 0x01fd_9293),
    ("srli x6, x26, 1\n", 0x001d_5313),
    ("srai x7, x25, 21\n", 0x415c_d393),
    ("add x8, x24, x9\n", 0x009c_0433),
    ("sub x10, x23, x11\n", 0x40bb_8533),
    ("sll x12, x22, x13\n", 0x00db_1633),
    ("slt x14, x21, x15\n", 0x00fa_a733),
    ("sltu x16, x20, x17\n", 0x011a_3833),
    ("xor x18, x19, x31\n", 0x01f9_c933),
    ("srl x30, x29, x28\n", 0x01ce_df33),
    ("sra x27, x26, x25\n", 0x419d_5db3),
    ("or x24, x23, x22\n", 0x016b_ec33),
    ("and x21, x20, x19\n", 0x013a_7ab3),
    ("mul x18, x17, x16\n", 0x0308_8933),
    ("mulh x15, x14, x13\n", 0x02d7_17b3),
    ("mulhsu x12, x11, x10\n", 0x02a5_a633),
    ("mulhu x9, x8, x7\n", 0x0274_34b3),
    ("div x6, x5, x4\n", 0x0242_c333),
    ("divu x3, x2, x1\n", 0x0211_51b3),
    ("rem x31, x30, x29\n", 0x03df_6fb3),
    ("remu x28, x27, x26\n", 0x03ad_fe33),
    ("fence 0x0ff0000f\n", 0x0ff0_000f),
    ("fence.i 0x0000100f\n", 0x0000_100f),
    ("ecall\n", 0x0000_0073),
    ("ebreak\n", 0x0010_0073),
    ("mret\n", 0x3020_0073),
    ("wfi\n", 0x1050_0073),
    ("csrrw x1, 0x305, x2\n", 0x3051_10f3),
    ("csrrs x5, 0xf14, x0\n", 0xf140_22f3),
    ("csrrc x31, 0x341, x30\n", 0x341f_3ff3),
    ("csrrwi x0, 0x304, 8\n", 0x3044_5073),
    ("csrrsi x6, 0x300, 31\n", 0x300f_e373),
    ("csrrci x7, 0xfff, 1\n", 0xfff0_f3f3),
    ("lr.w x3, (x4)\n", 0x1002_21af),
    ("sc.w.rl x5, x6, (x7)\n", 0x1a63_a2af),
    ("amoswap.w.aq x8, x9, (x10)\n", 0x0c95_242f),
    ("amoadd.w.aqrl x11, x12, (x13)\n", 0x06c6_a5af),
    ("amoxor.w x14, x15, (x16)\n", 0x20f8_272f),
    ("amoand.w x17, x18, (x19)\n", 0x6129_a8af),
    ("amoor.w x20, x21, (x22)\n", 0x415b_2a2f),
    ("amomin.w x23, x24, (x25)\n", 0x818c_abaf),
    ("amomax.w x26, x27, (x28)\n", 0xa1be_2d2f),
    ("amominu.w x29, x30, (x31)\n", 0xc1ef_aeaf),
    ("amomaxu.w.rl x1, x2, (x3)\n", 0xe221_a0af),
    ("lui x0, 0x0\n", 0x0000_0037),
    ("sc.w x3, x2, (x1)\n", 0x1820_a1af),
];

fn rows() -> [(&'static str, u32); 70] {
    ROWS
}

fn is_assembled(alloc: Global, text: &str, words: &[u32]) -> bool {
    match assemble(alloc, text) {
        Ok(assembled) => assembled.as_slice() == words,
        Err(_) => false,
    }
}

fn is_text_of(alloc: Global, text: &str, word: u32) -> bool {
    let Some(instr) = decode(word) else {
        return false;
    };
    match instr_text(alloc, instr) {
        Ok(spelled) => spelled.as_str() == text,
        Err(_) => false,
    }
}

#[test]
fn each_instruction_has_its_text(rt: HostRuntime) {
    for (line, word) in rows() {
        assert!(rt; is_assembled(rt.alloc(), line, &[word]), "{line}");
        assert!(rt; is_text_of(rt.alloc(), line.trim_end(), word), "{word:08x}");
    }
}

fn several_lines() -> &'static str {
    ".word 0x00000000\necall\n.word 0xdeadbeef\n.word 0x00000073\n"
}

#[test]
fn texts_of_several_lines_or_none(rt: HostRuntime) {
    let words = [0, 0x73, 0xdead_beef, 0x73];
    assert!(rt; is_assembled(rt.alloc(), several_lines(), &words));
    assert!(rt; is_assembled(rt.alloc(), "", &[]));
}

// Texts beside the grammar, and the first line that is none.
const NEAR_MISSES: [(&'static str, u64); 61] = [
    ("lui x1 0x10000\n", 0),
    ("ecall\nlui x1 0x10000\n", 1),
    ("ecall\nwfi\nadd x1, x2 x3\n", 2),
    ("addi x1,x2, 3\n", 0),
    ("addi x1,  x2, 3\n", 0),
    (" ecall\n", 0),
    ("ecall \n", 0),
    ("ecall\r\n", 0),
    ("\tecall\n", 0),
    ("addi x1, x2, 01\n", 0),
    ("addi x01, x2, 1\n", 0),
    ("lui x1, 0x010000\n", 0),
    ("addi x1, x2, -0\n", 0),
    ("addi x1, x2, +1\n", 0),
    ("addi x1, x2, 0x1\n", 0),
    ("lui x1, 16\n", 0),
    ("ADD x1, x2, x3\n", 0),
    ("csrrw x1, 0xF14, x2\n", 0),
    (".word 0xDEADBEEF\n", 0),
    ("add X1, x2, x3\n", 0),
    ("beq x1, x2, 3\n", 0),
    ("jal x1, -5\n", 0),
    ("jal x1, 1048576\n", 0),
    ("beq x1, x2, 4096\n", 0),
    ("add x32, x0, x0\n", 0),
    ("add x1, x2, x256\n", 0),
    ("add x4294967297, x2, x3\n", 0),
    ("add ra, x2, x3\n", 0),
    ("addi x1, x2, 2048\n", 0),
    ("addi x1, x2, -2049\n", 0),
    ("slli x1, x1, 32\n", 0),
    ("lui x1, 0x100000\n", 0),
    ("csrrw x1, 0x1305, x2\n", 0),
    ("csrrw x1, 0x14, x2\n", 0),
    ("csrrw x1, 773, x2\n", 0),
    ("csrrw x1, 0x305, 2\n", 0),
    ("csrrwi x1, 0x305, x2\n", 0),
    ("csrrwi x1, 0x305, 32\n", 0),
    ("fence 0x0000100f\n", 0),
    ("fence.i 0x0000000f\n", 0),
    ("fence 0xff0000f\n", 0),
    ("fence\n", 0),
    ("amoadd x1, x2, (x3)\n", 0),
    ("amoadd.aqrl.w x1, x2, (x3)\n", 0),
    ("amoadd.w.rlaq x1, x2, (x3)\n", 0),
    ("add.w x1, x2, x3\n", 0),
    ("lw x1, 4(x2\n", 0),
    ("lw x1, (x2)\n", 0),
    ("lr.w x1, 0(x2)\n", 0),
    ("lr.w x1, x2\n", 0),
    ("lw x1, 4, x2\n", 0),
    (".word 0x1234567\n", 0),
    (".word 0x123456789\n", 0),
    (".word 12345678\n", 0),
    (".word 0x00000073, 0x00000073\n", 0),
    ("nop\n", 0),
    ("\n", 0),
    ("ecall\n\n", 1),
    ("ecall\nwfi", 1),
    ("ecall", 0),
    ("ecall\necall x1\nnop\n", 1),
];

fn near_misses() -> [(&'static str, u64); 61] {
    NEAR_MISSES
}

fn bad_line(alloc: Global, text: &str) -> Option<u64> {
    match assemble(alloc, text) {
        Err(AsmError::BadLine(line)) => Some(line),
        _ => None,
    }
}

#[test]
fn near_misses_are_told_by_their_line(rt: HostRuntime) {
    for (text, line) in near_misses() {
        assert_eq!(rt; bad_line(rt.alloc(), text), Some(line), "{text}");
    }
}
