//! The numbers of a log, read from the front of the bytes: each with what is left behind it, or
//! with the rule that it breaks.
ghost use Rattle.std.specs.Prelude.{◌≡◌, length};
ghost use Rattle.std.specs.Int.{w8, w16, w32, w64};
ghost use Rattle.log_format.specs.Format.{whole_at, number_at, block_at};
ghost use Rattle.log_format.specs.Answers.{Gives};
ghost use Rattle.log_format.specs.Grammar.{any, exactly, below, at_most, between};

use crate::fault::Stop;

/// The bytes 52 56 54 4C, which a log begins with.
pub(crate) const MAGIC: u32 = 0x4c54_5652;

/// The rule that a field breaks which isn't there whole.
pub(crate) const NOT_WHOLE: u8 = 1;

pub(crate) fn bad(bytes: &[u8], rule: u8) -> Stop
    ensures { result ≡ Stop.Bad (length bytes.now) rule }
{
    Stop::Bad(bytes.len() as u64, rule)
}

fn u8_whole(bytes: &[u8]) -> Result<(u8, &[u8]), Stop>
    ensures { Gives (λ x. (x.0, x.1.now)) result (whole_at w8 bytes.now) }
{
    let [number, rest @ ..] = bytes else {
        return Err(bad(bytes, NOT_WHOLE));
    };
    Ok((*number, rest))
}

fn u16_whole(bytes: &[u8]) -> Result<(u16, &[u8]), Stop>
    ensures { Gives (λ x. (x.0, x.1.now)) result (whole_at w16 bytes.now) }
{
    if bytes.len() < 2 {
        return Err(bad(bytes, NOT_WHOLE));
    }
    let (front, rest) = bytes.split_at(2);
    Ok((u16::from_le_bytes([front[0], front[1]]), rest))
}

fn u32_whole(bytes: &[u8]) -> Result<(u32, &[u8]), Stop>
    ensures { Gives (λ x. (x.0, x.1.now)) result (whole_at w32 bytes.now) }
{
    if bytes.len() < 4 {
        return Err(bad(bytes, NOT_WHOLE));
    }
    let (front, rest) = bytes.split_at(4);
    let number = u32::from_le_bytes([front[0], front[1], front[2], front[3]]);
    Ok((number, rest))
}

fn u64_whole(bytes: &[u8]) -> Result<(u64, &[u8]), Stop>
    ensures { Gives (λ x. (x.0, x.1.now)) result (whole_at w64 bytes.now) }
{
    if bytes.len() < 8 {
        return Err(bad(bytes, NOT_WHOLE));
    }
    let (front, rest) = bytes.split_at(8);
    let number = u64::from_le_bytes([
        front[0], front[1], front[2], front[3], front[4], front[5], front[6], front[7],
    ]);
    Ok((number, rest))
}

pub(crate) fn u8_exactly(bytes: &[u8], rule: u8, value: u8) -> Result<(u8, &[u8]), Stop>
    ensures { Gives (λ x. (x.0, x.1.now)) result (number_at w8 rule (exactly value) bytes.now) }
{
    let (number, rest) = u8_whole(bytes)?;
    if number == value {
        Ok((number, rest))
    } else {
        Err(bad(bytes, rule))
    }
}

pub(crate) fn u8_below(bytes: &[u8], rule: u8, limit: u8) -> Result<(u8, &[u8]), Stop>
    ensures { Gives (λ x. (x.0, x.1.now)) result (number_at w8 rule (below limit) bytes.now) }
{
    let (number, rest) = u8_whole(bytes)?;
    if number < limit {
        Ok((number, rest))
    } else {
        Err(bad(bytes, rule))
    }
}

pub(crate) fn u8_at_most(bytes: &[u8], rule: u8, most: u8) -> Result<(u8, &[u8]), Stop>
    ensures { Gives (λ x. (x.0, x.1.now)) result (number_at w8 rule (at_most most) bytes.now) }
{
    let (number, rest) = u8_whole(bytes)?;
    if number <= most {
        Ok((number, rest))
    } else {
        Err(bad(bytes, rule))
    }
}

pub(crate) fn u8_between(bytes: &[u8], rule: u8, low: u8, high: u8) -> Result<(u8, &[u8]), Stop>
    ensures { Gives (λ x. (x.0, x.1.now)) result (number_at w8 rule (between low high) bytes.now) }
{
    let (number, rest) = u8_whole(bytes)?;
    if low <= number && number <= high {
        Ok((number, rest))
    } else {
        Err(bad(bytes, rule))
    }
}

pub(crate) fn u16_below(bytes: &[u8], rule: u8, limit: u16) -> Result<(u16, &[u8]), Stop>
    ensures { Gives (λ x. (x.0, x.1.now)) result (number_at w16 rule (below limit) bytes.now) }
{
    let (number, rest) = u16_whole(bytes)?;
    if number < limit {
        Ok((number, rest))
    } else {
        Err(bad(bytes, rule))
    }
}

pub(crate) fn u16_between(bytes: &[u8], rule: u8, low: u16, high: u16) -> Result<(u16, &[u8]), Stop>
    ensures { Gives (λ x. (x.0, x.1.now)) result (number_at w16 rule (between low high) bytes.now) }
{
    let (number, rest) = u16_whole(bytes)?;
    if low <= number && number <= high {
        Ok((number, rest))
    } else {
        Err(bad(bytes, rule))
    }
}

pub(crate) fn u32_exactly(bytes: &[u8], rule: u8, value: u32) -> Result<(u32, &[u8]), Stop>
    ensures { Gives (λ x. (x.0, x.1.now)) result (number_at w32 rule (exactly value) bytes.now) }
{
    let (number, rest) = u32_whole(bytes)?;
    if number == value {
        Ok((number, rest))
    } else {
        Err(bad(bytes, rule))
    }
}

pub(crate) fn u64_at_most(bytes: &[u8], rule: u8, most: u64) -> Result<(u64, &[u8]), Stop>
    ensures { Gives (λ x. (x.0, x.1.now)) result (number_at w64 rule (at_most most) bytes.now) }
{
    let (number, rest) = u64_whole(bytes)?;
    if number <= most {
        Ok((number, rest))
    } else {
        Err(bad(bytes, rule))
    }
}

pub(crate) fn u32_at(bytes: &[u8]) -> Result<(u32, &[u8]), Stop>
    ensures { Gives (λ x. (x.0, x.1.now)) result (number_at w32 1 any bytes.now) }
{
    u32_whole(bytes)
}

pub(crate) fn u64_at(bytes: &[u8]) -> Result<(u64, &[u8]), Stop>
    ensures { Gives (λ x. (x.0, x.1.now)) result (number_at w64 1 any bytes.now) }
{
    u64_whole(bytes)
}

pub(crate) fn digest_at(bytes: &[u8]) -> Result<([u8; 32], &[u8]), Stop>
    ensures { Gives (λ x. (x.0, x.1.now)) result (block_at 32 bytes.now) }
{
    if bytes.len() < 32 {
        return Err(bad(bytes, NOT_WHOLE));
    }
    let (front, rest) = bytes.split_at(32);
    let mut digest = [0; 32];
    digest.copy_from_slice(front);
    Ok((digest, rest))
}
