//! A log as long as one likes.
ghost use Rattle.std.specs.Prelude.{◌≡◌, ◌++◌, ◌∷◌, [], IfOk};
ghost use Rattle.rv_words.specs.Limits.{poll_distance};
ghost use Rattle.log_entry.specs.declared.log.Entry.TheVariants.{Poll, End};

use log_entry::{Cause, Entries, Entry, Log, Mode, Streams, WaitFor, Waits};
use rv_words::POLL_DISTANCE;
use std::alloc::{AllocError, Global};

/// The greatest count of a gain.
const LAST: u64 = POLL_DISTANCE - 1;

fn waits_for(alloc: Global, wait: Option<WaitFor>) -> Result<Waits, AllocError> {
    let mut waits = Waits::of(Vec::with_capacity(alloc, 1)?);
    if let Some(wait) = wait {
        waits.push(wait);
    }
    Ok(waits)
}

/// A hart gains page 0 and yields it.
fn add_turn(
    alloc: Global,
    entries: &mut Vec<Entry>,
    count: u64,
    seq: u32,
    wait: Option<WaitFor>,
) -> Result<(), AllocError> {
    entries.push(Entry::Gain {
        count,
        page: 0,
        seq,
        mode: Mode::Write,
        waits: waits_for(alloc, wait)?,
    })?;
    entries.push(Entry::Yield {
        count,
        page: 0,
        seq: seq.wrapping_add(1),
        left: None,
    })?;
    Ok(())
}

/// The entries of a hart before its first turn.
fn begin(alloc: Global, ord: u32) -> Result<Vec<Entry>, AllocError>
    ensures { IfOk result (λ entries. entries.items ≡ Poll 0 ord 0 0 ∷ []) }
{
    let mut entries = Vec::new(alloc);
    entries.push(Entry::Poll {
        count: 0,
        ord,
        time: 0,
        bits: 0,
    })?;
    Ok(entries)
}

/// The stream of a hart that ends where the next Poll would be due.
fn end(mut entries: Vec<Entry>) -> Result<Entries, AllocError>
    ensures { IfOk result (λ stream. stream ≡ entries.items ++ End poll_distance ∷ []) }
{
    entries.push(Entry::End {
        count: POLL_DISTANCE,
    })?;
    Ok(Entries::of(entries))
}

/// Two harts that take a page from each other, so often.
pub(crate) fn long_log(alloc: Global, rounds: u32) -> Result<Log, AllocError> {
    let mut first = begin(alloc, 0)?;
    let mut second = begin(alloc, 1)?;
    let mut wait = None;
    for round in 0..rounds {
        let count = u64::from(round).min(LAST);
        let seq = round.wrapping_mul(4);
        add_turn(alloc, &mut first, count, seq, wait)?;
        let from_first = Some(WaitFor { hart: 0, count });
        add_turn(alloc, &mut second, count, seq.wrapping_add(2), from_first)?;
        wait = Some(WaitFor { hart: 1, count });
    }
    Ok(Log {
        pages: 1,
        limit: POLL_DISTANCE,
        image: [0; 32],
        streams: Streams::of(vec![in alloc; end(first)?, end(second)?]?),
        cause: Cause::Limit,
    })
}
