//! The bits of a word, and the two words of a number of 64 bits.

ghost use Rattle.std.specs.Prelude.{◌≡◌, ◌<◌};
ghost use Rattle.rv_words.specs.Words.{has_bit, low_half, high_half, with_low_half, with_high_half};

/// Bit `k` of a word.
pub fn has_bit(word: u32, k: u32) -> bool
    requires { k < 32 }
    ensures { result ≡ has_bit word k }
{
    (word >> k) & 1 == 1
}

/// The low word of a number of 64 bits.
pub fn low_half(n: u64) -> u32
    ensures { result ≡ low_half n }
{
    (n & 0xffff_ffff) as u32
}

/// The high word of a number of 64 bits.
pub fn high_half(n: u64) -> u32
    ensures { result ≡ high_half n }
{
    (n >> 32) as u32
}

/// The number with its low word replaced.
pub fn with_low_half(n: u64, value: u32) -> u64
    ensures { result ≡ with_low_half n value }
{
    (n >> 32 << 32) + u64::from(value)
}

/// The number with its high word replaced.
pub fn with_high_half(n: u64, value: u32) -> u64
    ensures { result ≡ with_high_half n value }
{
    (u64::from(value) << 32) + (n & 0xffff_ffff)
}
