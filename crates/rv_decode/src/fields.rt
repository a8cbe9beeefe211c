//! The fields of a word.

ghost use Rattle.std.specs.Prelude.{◌≡◌, ◌*◌, ◌<◌, ◌^◌, bit_and};
ghost use Rattle.rv_decode.specs.Table.{field, signed_field, rd_of, rs1_of, rs2_of, order_of, imm_i, imm_s, imm_b, imm_j};

#[inline(always)]
pub fn opcode(word: u32) -> u32
    ensures { result ≡ bit_and word 0x7F }
{
    word & 0x7f
}

#[inline(always)]
pub fn funct3(word: u32) -> u32
    ensures { result ≡ field 12 3 word }
{
    (word >> 12) & 7
}

#[inline(always)]
pub fn funct7(word: u32) -> u32
    ensures { result ≡ field 25 7 word }
{
    word >> 25
}

#[inline(always)]
pub fn funct5(word: u32) -> u32
    ensures { result ≡ field 27 5 word }
{
    word >> 27
}

#[inline(always)]
pub fn rd(word: u32) -> u8
    ensures { result ≡ rd_of word }
{
    ((word >> 7) & 31) as u8
}

#[inline(always)]
pub fn rs1(word: u32) -> u8
    ensures { result ≡ rs1_of word }
{
    ((word >> 15) & 31) as u8
}

#[inline(always)]
pub fn rs2(word: u32) -> u8
    ensures { result ≡ rs2_of word }
{
    ((word >> 20) & 31) as u8
}

#[inline(always)]
pub fn order(word: u32) -> u8
    ensures { result ≡ order_of word }
{
    ((word >> 25) & 3) as u8
}

#[inline(always)]
fn signed_12(n: u32) -> i32
    requires { n < 2 ^ 12 }
    ensures { result ≡ signed_field 12 n }
{
    if n < 0x800 {
        n as i32
    } else {
        n as i32 - 0x1000
    }
}

#[inline(always)]
pub fn offset_i(word: u32) -> i32
    ensures { result ≡ imm_i word }
{
    signed_12(word >> 20)
}

#[inline(always)]
pub fn offset_s(word: u32) -> i32
    ensures { result ≡ imm_s word }
{
    signed_12((word >> 25) << 5 | (word >> 7) & 31)
}

#[inline(always)]
pub fn upper_immediate(word: u32) -> u32
    ensures { result ≡ field 12 20 word * 2 ^ 12 }
{
    (word >> 12) << 12
}

#[inline(always)]
pub fn offset_b(word: u32) -> i32
    ensures { result ≡ imm_b word }
{
    let bits = (word >> 31) * 0x1000
        + ((word >> 7) & 1) * 0x800
        + ((word >> 25) & 63) * 32
        + ((word >> 8) & 15) * 2;
    if bits < 0x1000 {
        bits as i32
    } else {
        bits as i32 - 0x2000
    }
}

#[inline(always)]
pub fn offset_j(word: u32) -> i32
    ensures { result ≡ imm_j word }
{
    let bits = (word >> 31) * 0x100000
        + ((word >> 12) & 255) * 0x1000
        + ((word >> 20) & 1) * 0x800
        + ((word >> 21) & 1023) * 2;
    if bits < 0x100000 {
        bits as i32
    } else {
        bits as i32 - 0x200000
    }
}
