//! What instructions compute of two words.

ghost use Rattle.std.specs.Prelude.{◌≡◌, ◌^◌};
ghost use Rattle.rv_words.specs.Words.{word_of, quotient_down, word_add, word_sub, word_mul, word_mulh, word_mulhsu, word_mulhu, word_div, word_divu, word_rem, word_remu, word_sll, word_srl, word_sra, word_slt, word_sltu};

pub fn add(a: u32, b: u32) -> u32
    ensures { result ≡ word_add a b }
{
    a.wrapping_add(b)
}

pub fn sub(a: u32, b: u32) -> u32
    ensures { result ≡ word_sub a b }
{
    a.wrapping_sub(b)
}

pub fn mul(a: u32, b: u32) -> u32
    ensures { result ≡ word_mul a b }
{
    a.wrapping_mul(b)
}

// The upper half of a signed product.
fn upper_half(product: i64) -> u32
    ensures { result ≡ word_of (quotient_down product (2 ^ 32)) }
{
    ((product >> 32) as i32).cast_unsigned()
}

pub fn mulh(a: u32, b: u32) -> u32
    ensures { result ≡ word_mulh a b }
{
    upper_half(i64::from(a.cast_signed()) * i64::from(b.cast_signed()))
}

/// The first operand is signed, the second isn't.
pub fn mulhsu(a: u32, b: u32) -> u32
    ensures { result ≡ word_mulhsu a b }
{
    upper_half(i64::from(a.cast_signed()) * i64::from(b))
}

pub fn mulhu(a: u32, b: u32) -> u32
    ensures { result ≡ word_mulhu a b }
{
    ((u64::from(a) * u64::from(b)) >> 32) as u32
}

pub fn div(a: u32, b: u32) -> u32
    ensures { result ≡ word_div a b }
{
    if b == 0 {
        u32::MAX
    } else {
        a.cast_signed()
            .wrapping_div(b.cast_signed())
            .cast_unsigned()
    }
}

pub fn divu(a: u32, b: u32) -> u32
    ensures { result ≡ word_divu a b }
{
    if b == 0 { u32::MAX } else { a / b }
}

pub fn rem(a: u32, b: u32) -> u32
    ensures { result ≡ word_rem a b }
{
    if b == 0 {
        a
    } else {
        a.cast_signed()
            .wrapping_rem(b.cast_signed())
            .cast_unsigned()
    }
}

pub fn remu(a: u32, b: u32) -> u32
    ensures { result ≡ word_remu a b }
{
    if b == 0 { a } else { a % b }
}

pub fn sll(a: u32, b: u32) -> u32
    ensures { result ≡ word_sll a b }
{
    a << (b & 31)
}

pub fn srl(a: u32, b: u32) -> u32
    ensures { result ≡ word_srl a b }
{
    a >> (b & 31)
}

pub fn sra(a: u32, b: u32) -> u32
    ensures { result ≡ word_sra a b }
{
    (a.cast_signed() >> (b & 31)).cast_unsigned()
}

pub fn slt(a: u32, b: u32) -> u32
    ensures { result ≡ word_slt a b }
{
    u32::from(a.cast_signed() < b.cast_signed())
}

pub fn sltu(a: u32, b: u32) -> u32
    ensures { result ≡ word_sltu a b }
{
    u32::from(a < b)
}
