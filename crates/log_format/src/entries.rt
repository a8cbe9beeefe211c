//! The entries of a log, read from the front of the bytes.
ghost use Rattle.std.specs.Prelude.{◌≡◌, ◌≤◌, ◌/◌, IfOk, [], length, map, vec_capacity};
ghost use Rattle.log_entry.specs.Room.{entry_without_room};
ghost use Rattle.log_format.specs.Format.{repeat_at};
ghost use Rattle.log_format.specs.Answers.{Gives};
ghost use Rattle.log_format.specs.Grammar.{mode_format, left_format, input_format, wait_format, waits_format, gain_format, yield_format, poll_format, touch_format, end_format, entry_format, stream_format};

use crate::fault::Stop;
use crate::numbers::{
    NOT_WHOLE, bad, u8_at_most, u8_below, u8_between, u16_below, u32_at, u64_at, u64_at_most,
};
use log_entry::{Entries, Entry, Input, Mode, WaitFor, Waits};
use std::alloc::{AllocError, Global};

/// The fewest bytes of an entry: those of an End.
const SHORTEST_ENTRY: usize = 9;

fn mode_of(bytes: &[u8]) -> Result<(Mode, &[u8]), Stop>
    ensures { Gives (λ x. (x.0, x.1.now)) result (mode_format.read bytes.now) }
{
    let (number, rest) = u8_between(bytes, 9, 1, 2)?;
    Ok((if number == 1 { Mode::Read } else { Mode::Write }, rest))
}

fn left_of(bytes: &[u8]) -> Result<(Option<Mode>, &[u8]), Stop>
    ensures { Gives (λ x. (x.0, x.1.now)) result (left_format.read bytes.now) }
{
    let (number, rest) = u8_at_most(bytes, 9, 1)?;
    Ok((if number == 0 { None } else { Some(Mode::Read) }, rest))
}

#[tactic(auto, unfolding(crate::specs::Grammar::input_format))]
fn input_of(bytes: &[u8]) -> Result<(Input, &[u8]), Stop>
    ensures { Gives (λ x. (x.0, x.1.now)) result (input_format.read bytes.now) }
{
    let (kind, rest) = u8_at_most(bytes, 12, 3)?;
    match kind {
        0 => {
            let (_, rest) = u64_at_most(rest, 12, 0)?;
            Ok((Input::Nothing, rest))
        }
        1 => {
            let (_, rest) = u64_at_most(rest, 12, 0)?;
            Ok((Input::Empty, rest))
        }
        2 => {
            let (byte, rest) = u64_at_most(rest, 12, 255)?;
            Ok((Input::Byte(byte as u8), rest))
        }
        _ => {
            let (time, rest) = u64_at_most(rest, 12, u64::MAX)?;
            Ok((Input::Time(time), rest))
        }
    }
}

#[tactic(auto, unfolding(crate::specs::Grammar::wait_format))]
fn wait_of(bytes: &[u8], harts: u8) -> Result<(WaitFor, &[u8]), Stop>
    ensures { Gives (λ x. (x.0, x.1.now)) result ((wait_format harts).read bytes.now) }
{
    let (hart, rest) = u8_below(bytes, 10, harts)?;
    let (count, rest) = u64_at(rest)?;
    Ok((WaitFor { hart, count }, rest))
}

fn wait_list(
    alloc: Global,
    harts: u8,
    count: u8,
    bytes: &[u8],
) -> Result<(Vec<WaitFor>, &[u8]), Stop>
    ensures { Gives (λ x. (x.0.items, x.1.now)) result (repeat_at (wait_format harts).read count bytes.now) }
{
    let mut waits = Vec::with_capacity(alloc, usize::from(count))?;
    let mut rest = bytes;
    for _ in 0..count {
        let (wait, after) = wait_of(rest, harts)?;
        waits.push(wait)?;
        rest = after;
    }
    Ok((waits, rest))
}

#[tactic(auto, unfolding(crate::specs::Grammar::waits_format))]
fn waits_of(alloc: Global, harts: u8, bytes: &[u8]) -> Result<(Waits, &[u8]), Stop>
    ensures { Gives (λ x. (record { items = x.0.items; room = 0 }, x.1.now)) result
        ((waits_format harts).read bytes.now) }
{
    let (count, rest) = u8_at_most(bytes, 10, 7)?;
    let (waits, rest) = wait_list(alloc, harts, count, rest)?;
    Ok((Waits::of(waits), rest))
}

#[tactic(auto, unfolding(crate::specs::Grammar::gain_format))]
fn gain_of(alloc: Global, harts: u8, units: u16, bytes: &[u8]) -> Result<(Entry, &[u8]), Stop>
    ensures { Gives (λ x. (entry_without_room x.0, x.1.now)) result ((gain_format harts units).read bytes.now) }
{
    let (count, rest) = u64_at(bytes)?;
    let (page, rest) = u16_below(rest, 8, units)?;
    let (seq, rest) = u32_at(rest)?;
    let (mode, rest) = mode_of(rest)?;
    let (waits, rest) = waits_of(alloc, harts, rest)?;
    let page = u32::from(page);
    Ok((
        Entry::Gain {
            count,
            page,
            seq,
            mode,
            waits,
        },
        rest,
    ))
}

#[tactic(auto, unfolding(crate::specs::Grammar::yield_format))]
fn yield_of(units: u16, bytes: &[u8]) -> Result<(Entry, &[u8]), Stop>
    ensures { Gives (λ x. (entry_without_room x.0, x.1.now)) result ((yield_format units).read bytes.now) }
{
    let (count, rest) = u64_at(bytes)?;
    let (page, rest) = u16_below(rest, 8, units)?;
    let (seq, rest) = u32_at(rest)?;
    let (left, rest) = left_of(rest)?;
    let page = u32::from(page);
    Ok((
        Entry::Yield {
            count,
            page,
            seq,
            left,
        },
        rest,
    ))
}

#[tactic(auto, unfolding(crate::specs::Grammar::poll_format))]
fn poll_of(bytes: &[u8]) -> Result<(Entry, &[u8]), Stop>
    ensures { Gives (λ x. (entry_without_room x.0, x.1.now)) result (poll_format.read bytes.now) }
{
    let (count, rest) = u64_at(bytes)?;
    let (ord, rest) = u32_at(rest)?;
    let (time, rest) = u64_at(rest)?;
    let (bits, rest) = u8_at_most(rest, 11, 3)?;
    Ok((
        Entry::Poll {
            count,
            ord,
            time,
            bits,
        },
        rest,
    ))
}

#[tactic(auto, unfolding(crate::specs::Grammar::touch_format))]
fn touch_of(bytes: &[u8]) -> Result<(Entry, &[u8]), Stop>
    ensures { Gives (λ x. (entry_without_room x.0, x.1.now)) result (touch_format.read bytes.now) }
{
    let (count, rest) = u64_at(bytes)?;
    let (ord, rest) = u32_at(rest)?;
    let (input, rest) = input_of(rest)?;
    Ok((Entry::Touch { count, ord, input }, rest))
}

#[tactic(auto, unfolding(crate::specs::Grammar::end_format))]
fn end_of(bytes: &[u8]) -> Result<(Entry, &[u8]), Stop>
    ensures { Gives (λ x. (entry_without_room x.0, x.1.now)) result (end_format.read bytes.now) }
{
    let (count, rest) = u64_at(bytes)?;
    Ok((Entry::End { count }, rest))
}

#[tactic(auto, unfolding(crate::specs::Grammar::entry_format))]
fn entry_of(alloc: Global, harts: u8, units: u16, bytes: &[u8]) -> Result<(Entry, &[u8]), Stop>
    ensures { Gives (λ x. (entry_without_room x.0, x.1.now)) result ((entry_format harts units).read bytes.now) }
{
    match bytes {
        [] => Err(bad(bytes, NOT_WHOLE)),
        [1, rest @ ..] => gain_of(alloc, harts, units, rest),
        [2, rest @ ..] => yield_of(units, rest),
        [3, rest @ ..] => poll_of(rest),
        [4, rest @ ..] => touch_of(rest),
        [5, rest @ ..] => end_of(rest),
        [_, ..] => Err(bad(bytes, 7)),
    }
}

/// Room for so many entries, but for no more than so many bytes can hold.
fn room_for(alloc: Global, count: u32, bytes: usize) -> Result<Vec<Entry>, AllocError>
    ensures empty { IfOk result (λ v. v.items ≡ []) }
    ensures wanted { IfOk result (λ v. vec_capacity v ≤ count) }
    ensures held { IfOk result (λ v. vec_capacity v ≤ bytes / 9) }
{
    Vec::with_capacity(alloc, (count as usize).min(bytes / SHORTEST_ENTRY))
}

fn entry_list(
    alloc: Global,
    harts: u8,
    units: u16,
    count: u32,
    bytes: &[u8],
) -> Result<(Vec<Entry>, &[u8]), Stop>
    ensures { Gives (λ x. (map entry_without_room x.0.items, x.1.now)) result
        (repeat_at (entry_format harts units).read count bytes.now) }
{
    let mut entries = room_for(alloc, count, bytes.len())?;
    let mut rest = bytes;
    for _ in 0..count {
        let (entry, after) = entry_of(alloc, harts, units, rest)?;
        entries.push(entry)?;
        rest = after;
    }
    Ok((entries, rest))
}

pub(crate) fn stream_of(
    alloc: Global,
    harts: u8,
    units: u16,
    bytes: &[u8],
) -> Result<(Entries, &[u8]), Stop>
    ensures { Gives (λ x. (map entry_without_room x.0, x.1.now)) result ((stream_format harts units).read bytes.now) }
{
    let (count, rest) = u32_at(bytes)?;
    let (entries, rest) = entry_list(alloc, harts, units, count, rest)?;
    Ok((Entries::of(entries), rest))
}
