//! A log, read from its bytes.
ghost use Rattle.std.specs.Prelude.{◌≡◌, length, map, IfOk, MatchResult, IsTrue};
ghost use Rattle.log_entry.specs.declared.log.Log.{Log};
ghost use Rattle.log_entry.specs.Room.{stream_without_room, log_without_room};
ghost use Rattle.log_entry.specs.Range.{in_range};
ghost use Rattle.log_format.specs.Format.{repeat_at, whole};
ghost use Rattle.log_format.specs.Answers.{Gives, ReadsAs};
ghost use Rattle.log_format.specs.Grammar.{head_format, cause_format, stream_format, log_format, magic, spelling, reading};

use crate::entries::stream_of;
use crate::fault::{ReadError, Stop};
use crate::numbers::{
    MAGIC, bad, digest_at, u8_between, u8_exactly, u16_between, u32_exactly, u64_at_most,
};
use log_entry::{Cause, Entries, Log, Streams};
use rv_words::MOST_PAGES;
use std::alloc::Global;

/// What stands before the streams.
#[derive(Clone, Copy)]
struct Head {
    harts: u8,
    pages: u16,
    limit: u64,
    image: [u8; 32],
}

#[tactic(auto, unfolding(crate::specs::Grammar::head_format))]
fn head_of(bytes: &[u8]) -> Result<(Head, &[u8]), Stop>
    ensures { Gives (λ x. ((magic, (1, (x.0.harts, (x.0.pages, (x.0.limit, x.0.image))))), x.1.now)) result
        (head_format.read bytes.now) }
{
    let (_, rest) = u32_exactly(bytes, 2, MAGIC)?;
    let (_, rest) = u8_exactly(rest, 3, 1)?;
    let (harts, rest) = u8_between(rest, 4, 1, 8)?;
    let (pages, rest) = u16_between(rest, 5, 1, MOST_PAGES)?;
    let (limit, rest) = u64_at_most(rest, 6, 1_000_000_000_000)?;
    let (image, rest) = digest_at(rest)?;
    let head = Head {
        harts,
        pages,
        limit,
        image,
    };
    Ok((head, rest))
}

fn stream_list(
    alloc: Global,
    harts: u8,
    units: u16,
    bytes: &[u8],
) -> Result<(Vec<Entries>, &[u8]), Stop>
    ensures { Gives (λ x. (map stream_without_room x.0.items, x.1.now)) result
        (repeat_at (stream_format harts units).read harts bytes.now) }
{
    let mut streams = Vec::with_capacity(alloc, usize::from(harts))?;
    let mut rest = bytes;
    for _ in 0..harts {
        let (stream, after) = stream_of(alloc, harts, units, rest)?;
        streams.push(stream)?;
        rest = after;
    }
    Ok((streams, rest))
}

fn cause_of(bytes: &[u8]) -> Result<(Cause, &[u8]), Stop>
    ensures { Gives (λ x. (x.0, x.1.now)) result (cause_format.read bytes.now) }
{
    let (number, rest) = u8_between(bytes, 13, 1, 5)?;
    let cause = match number {
        1 => Cause::Stop,
        2 => Cause::Limit,
        3 => Cause::Full,
        4 => Cause::Fault,
        _ => Cause::Cut,
    };
    Ok((cause, rest))
}

#[tactic(auto, unfolding(crate::specs::Grammar::log_format))]
fn whole_log(alloc: Global, bytes: &[u8]) -> Result<Log, Stop>
    ensures { Gives log_without_room result (whole 14 log_format bytes.now) }
{
    let (head, rest) = head_of(bytes)?;
    let (streams, rest) = stream_list(alloc, head.harts, head.pages, rest)?;
    let (cause, rest) = cause_of(rest)?;
    if !rest.is_empty() {
        return Err(bad(rest, 14));
    }
    let image = head.image;
    Ok(Log {
        pages: head.pages,
        limit: head.limit,
        image,
        streams: Streams::of(streams),
        cause,
    })
}

/// The log that the bytes spell, all of them. The bytes are read once, from the front. By construction, room is
/// reserved for no more entries than the bytes left can hold.
pub fn read_log(alloc: Global, bytes: &[u8]) -> Result<Log, ReadError>
    // What is read is in range, and is spelled so.
    ensures found { IfOk result (λ l. IsTrue (in_range l) × (bytes.now ≡ spelling l)) }
    // What is spelled so is read, unless memory runs out, and nothing else is.
    ensures only { (l : Log) → log_format.Fits (log_without_room l) → bytes.now ≡ spelling l
        → MatchResult result (λ r. log_without_room r ≡ log_without_room l) (λ e. e ≡ ReadError.NoMemory) }
    // The first bad field and its rule.
    ensures answer { ReadsAs result (reading bytes.now) }
{
    match whole_log(alloc, bytes) {
        Ok(log) => Ok(log),
        Err(Stop::NoMemory) => Err(ReadError::NoMemory),
        Err(Stop::Bad(left, rule)) => Err(ReadError::Malformed {
            offset: (bytes.len() as u64).saturating_sub(left),
            rule,
        }),
    }
}
