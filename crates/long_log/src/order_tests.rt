use crate::bytes_tests::smallest;
use crate::making::long_log;
use crate::{measure, spell};
use Refusal::{Disorderly, Malformed};
use anyhow::{Result, anyhow};
use log_entry::{Cause, Entries, Entry, Log, Mode, Streams, WaitFor, Waits};
use log_format::{ReadError, read_log};
use log_order::{Leg, OrderError, least_order, put_in_order};
use std::alloc::Global;

pub(crate) fn log(pages: u16, limit: u64, streams: Vec<Entries>) -> Log {
    Log {
        pages,
        limit,
        image: [0; 32],
        streams: Streams::of(streams),
        cause: Cause::Limit,
    }
}

pub(crate) fn poll(ord: u32) -> Entry {
    Entry::Poll {
        count: 0,
        ord,
        time: 5,
        bits: 0,
    }
}

pub(crate) fn gain(alloc: Global, count: u64, page: u32, seq: u32) -> Entry {
    let waits = Waits::of(Vec::new(alloc));
    let mode = Mode::Read;
    Entry::Gain {
        count,
        page,
        seq,
        mode,
        waits,
    }
}

fn gain_after(alloc: Global, seq: u32, hart: u8, count: u64) -> Result<Entry> {
    let waits = Waits::of(vec![in alloc; WaitFor { hart, count }]?);
    Ok(Entry::Gain {
        count: 3,
        page: 1,
        seq,
        mode: Mode::Write,
        waits,
    })
}

fn give_up(count: u64, seq: u32) -> Entry {
    let left = None;
    Entry::Yield {
        count,
        page: 1,
        seq,
        left,
    }
}

/// Why bytes are not taken: the offset and the rule of a bad field, or the broken rule, the hart and
/// the entry.
#[derive(Clone, Copy, Debug, PartialEq, Eq)]
enum Refusal {
    Malformed(u64, u8),
    Disorderly(u8, u8, u32),
}

/// Bytes of the smallest log from one offset up to another, the value that they are set to, and the
/// refusal.
fn damages() -> [(usize, usize, u8, Refusal); 19] {
    [
        (0, 1, 0, Malformed(0, 2)),
        (4, 5, 9, Malformed(4, 3)),
        (5, 6, 0, Malformed(5, 4)),
        (6, 7, 0, Malformed(6, 5)),
        (15, 16, 255, Malformed(8, 6)),
        (48, 49, 3, Malformed(114, 14)),
        (48, 49, 5, Malformed(123, 1)),
        (48, 52, 255, Malformed(123, 1)),
        (52, 53, 6, Malformed(52, 7)),
        (73, 74, 4, Malformed(73, 11)),
        (83, 84, 1, Malformed(83, 8)),
        (89, 90, 3, Malformed(89, 9)),
        (90, 91, 8, Malformed(90, 10)),
        (104, 105, 4, Malformed(104, 12)),
        (105, 106, 1, Malformed(105, 12)),
        (122, 123, 6, Malformed(122, 13)),
        (8, 9, 2, Disorderly(1, 0, 3)),
        (85, 86, 1, Disorderly(5, 0, 1)),
        (100, 101, 2, Disorderly(8, 0, 2)),
    ]
}

/// Two harts that race for a word of page 1.
fn race_log(alloc: Global) -> Result<Log> {
    let first_gain = gain(alloc, 0, 0, 0);
    let first_read = gain(alloc, 1, 1, 0);
    let first_write = gain_after(alloc, 3, 1, 3)?;
    let end = Entry::End { count: 8 };
    let first = Entries::of(vec![in alloc;
        poll(0),
        first_gain,
        first_read,
        first_write,
        give_up(8, 4),
        end,
    ]?);
    let second_gain = gain(alloc, 0, 0, 1);
    let second_read = gain(alloc, 1, 1, 1);
    let second_write = gain_after(alloc, 5, 0, 8)?;
    let end = Entry::End { count: 8 };
    let second = Entries::of(vec![in alloc;
        poll(1),
        second_gain,
        second_read,
        give_up(3, 2),
        second_write,
        end,
    ]?);
    Ok(log(2, 8, vec![in alloc; first, second]?))
}

/// A stream of gains at count 0, each by its page and number.
fn gains(alloc: Global, numbers: &[(u32, u32)]) -> Result<Entries> {
    let mut entries = Vec::new(alloc);
    for (page, seq) in numbers {
        entries.push(gain(alloc, 0, *page, *seq))?;
    }
    entries.push(Entry::End { count: 0 })?;
    Ok(Entries::of(entries))
}

fn judged(alloc: Global, bytes: &[u8]) -> Result<Option<Refusal>> {
    match read_log(alloc, bytes) {
        Ok(log) => match put_in_order(alloc, log) {
            Ok(_) => Ok(None),
            Err(OrderError::Disorderly { rule, hart, entry }) => {
                Ok(Some(Disorderly(rule, hart, entry)))
            }
            Err(e) => Err(e.into()),
        },
        Err(ReadError::Malformed { offset, rule }) => Ok(Some(Malformed(offset, rule))),
        Err(e) => Err(e.into()),
    }
}

fn damaged(alloc: Global, from: usize, to: usize, value: u8) -> Result<Vec<u8>> {
    let mut bytes = smallest().to_vec(alloc)?;
    for at in from..to {
        if let Some(byte) = bytes.get_mut(at) {
            *byte = value;
        }
    }
    Ok(bytes)
}

fn damaged_refusal(alloc: Global, from: usize, to: usize, value: u8) -> Result<Option<Refusal>> {
    judged(alloc, &damaged(alloc, from, to, value)?)
}

/// What is said of two harts that gain these pages by these numbers.
fn gains_judged(
    alloc: Global,
    pages: u16,
    first: &[(u32, u32)],
    second: &[(u32, u32)],
) -> Result<Option<Refusal>> {
    let first = gains(alloc, first)?;
    let second = gains(alloc, second)?;
    let bytes = spell(alloc, &log(pages, 0, vec![in alloc; first, second]?))?;
    judged(alloc, &bytes)
}

/// Whether bytes spell a log of this limit, the least order of which goes so: each entry by its hart and
/// number.
fn is_ordered(alloc: Global, bytes: &[u8], limit: u64, order: &[(u8, u32)]) -> Result<bool> {
    let orderly = put_in_order(alloc, read_log(alloc, bytes)?)?;
    let legs = least_order(alloc, &orderly).map_err(|_| anyhow!("memory ran out"))?;
    let mut told = Vec::new(alloc);
    for (hart, entry) in order {
        told.push(Leg {
            hart: *hart,
            entry: *entry,
        })?;
    }
    Ok(orderly.log().limit == limit && legs.as_slice() == told.as_slice())
}

fn smallest_order() -> [(u8, u32); 3] {
    [(0, 0), (0, 1), (0, 2)]
}

#[test]
fn the_least_order_of_one_hart_is_its_stream(rt: HostRuntime) -> Result<()> {
    assert!(rt; is_ordered(rt.alloc(), &smallest(), 100, &smallest_order())?);
    Ok(())
}

#[rattlefmt::skip]
fn race_order() -> [(u8, u32); 10] {
    [(0, 0), (0, 1), (0, 2), (1, 0), (1, 1), (1, 2), (1, 3), (0, 3), (0, 4), (1, 4)]
}

#[test]
fn the_least_order_of_a_race_waits_for_its_numbers(rt: HostRuntime) -> Result<()> {
    let alloc = rt.alloc();
    let bytes = spell(alloc, &race_log(alloc)?)?;
    assert!(rt; is_ordered(alloc, &bytes, 8, &race_order())?);
    Ok(())
}

#[test]
fn a_damaged_log_is_refused_at_its_first_bad_field_or_by_its_least_broken_rule(
    rt: HostRuntime,
) -> Result<()> {
    for (from, to, value, expected) in damages() {
        assert_eq!(rt;
            damaged_refusal(rt.alloc(), from, to, value)?,
            Some(expected)
        );
    }
    Ok(())
}

#[test]
fn two_harts_cant_have_one_number(rt: HostRuntime) -> Result<()> {
    let said = gains_judged(rt.alloc(), 1, &[(0, 0)], &[(0, 0)])?;
    assert_eq!(rt; said, Some(Disorderly(5, 1, 0)));
    Ok(())
}

#[test]
fn two_harts_cant_wait_for_each_other(rt: HostRuntime) -> Result<()> {
    let said = gains_judged(rt.alloc(), 2, &[(0, 1), (1, 0)], &[(1, 1), (0, 0)])?;
    assert_eq!(rt; said, Some(Disorderly(9, 0, 0)));
    Ok(())
}

// The head, two numbers of entries, two Polls, six Gains of which one has no wait, six Yields, two Ends
// and the cause.
fn size_of_three_rounds() -> usize {
    48 + 2 * 4 + 2 * 22 + 6 * 17 + 5 * 9 + 6 * 16 + 2 * 9 + 1
}

#[test]
fn all_entries_of_a_long_log_are_in_order(rt: HostRuntime) -> Result<()> {
    let log = long_log(rt.alloc(), 3)?;
    assert_eq!(rt;
        measure(rt.alloc(), log)?,
        (size_of_three_rounds(), 2 + 4 * 3)
    );
    Ok(())
}
