use crate::bytes_tests::{shared_page_log, smallest, smallest_log};
use crate::order_tests::{log, poll};
use anyhow::{Result, anyhow, ensure};
use log_entry::{Entries, Entry, Log};
use log_format::{LogPieces, in_range};
use std::alloc::Global;
use std::test::Fail;

// The prover sees no bytes: functions without clauses give them.

/// The pieces of a log, one behind the other, and how many bytes each has.
fn joined(alloc: Global, log: &Log) -> Result<(Vec<u8>, Vec<usize>)> {
    ensure!(in_range(log), "the log is not in range");
    let mut pieces = LogPieces::start(alloc, log).map_err(|_| anyhow!("memory ran out"))?;
    let mut bytes = Vec::new(alloc);
    let mut counts = Vec::new(alloc);
    while let Some(piece) = pieces.next_piece(log) {
        bytes.extend_from_slice(piece)?;
        counts.push(piece.len())?;
    }
    Ok((bytes, counts))
}

/// Whether the pieces of a log have so many bytes.
fn comes_in(alloc: Global, log: &Log, counts: &[usize]) -> Result<bool, Fail> {
    let (_, found) = joined(alloc, log)?;
    Ok(found.as_slice() == counts)
}

/// Whether the pieces of a log come to these bytes.
fn comes_to(alloc: Global, log: &Log, bytes: &[u8]) -> Result<bool, Fail> {
    let (found, _) = joined(alloc, log)?;
    Ok(found.as_slice() == bytes)
}

/// So many Polls, and an End.
fn polls(alloc: Global, number: u32) -> Result<Entries, Fail> {
    let mut entries = Vec::new(alloc);
    for ord in 0..number {
        entries.push(poll(ord))?;
    }
    entries.push(Entry::End { count: 0 })?;
    Ok(Entries::of(entries))
}

fn log_of_polls(alloc: Global) -> Result<Log, Fail> {
    Ok(log(
        1,
        0,
        vec![in alloc; polls(alloc, 4000)?, polls(alloc, 2500)?]?,
    ))
}

// Two numbers of entries, a Yield, three Touches, a Gain with one wait, two Ends and the cause.
fn counts_of_every_kind() -> [usize; 2] {
    [48, 4 + 4 + 16 + 3 * 22 + 26 + 2 * 9 + 1]
}

// Numbers of entries take 4 bytes, Polls 22, Ends 9 and the cause 1, and a piece has at most 65,536: the second stream
// begins in the third piece, and ends in the fourth.
fn counts_of_polls() -> [usize; 4] {
    [
        48,
        4 + 2978 * 22,
        1022 * 22 + 9 + 4 + 1956 * 22,
        544 * 22 + 9 + 1,
    ]
}

#[test]
fn a_small_log_is_its_head_and_one_piece(rt: HostRuntime) -> Result<(), Fail> {
    let alloc = rt.alloc();
    assert!(rt; comes_in(alloc, &smallest_log(alloc)?, &[48, 75])?);
    assert!(rt; comes_to(alloc, &smallest_log(alloc)?, &smallest())?);
    assert!(rt; comes_in(alloc, &shared_page_log(alloc)?, &counts_of_every_kind())?);
    Ok(())
}

#[test]
fn a_longer_log_is_its_head_and_three_pieces(rt: HostRuntime) -> Result<(), Fail> {
    let alloc = rt.alloc();
    assert!(rt; comes_in(alloc, &log_of_polls(alloc)?, &counts_of_polls())?);
    Ok(())
}
