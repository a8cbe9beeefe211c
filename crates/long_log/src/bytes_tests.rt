use crate::order_tests::{gain, log, poll};
use crate::spell;
use log_entry::{Cause, Entries, Entry, Input, Log, Mode, Streams, WaitFor, Waits};
use log_format::{ReadError, read_log};
use std::alloc::Global;
use std::test::Fail;

// The prover sees no bytes: functions without clauses give them.

/// The log of one hart that stores 7 to STOP in its third move.
#[rattlefmt::skip]
const SMALLEST: [u8; 123] = [
    0x52, 0x56, 0x54, 0x4c, 1, 1, 1, 0, // magic, version, harts, pages
    100, 0, 0, 0, 0, 0, 0, 0, // limit
    0xe4, 0xd0, 0x10, 0x19, 0x49, 0x99, 0xe7, 0x2f, 0xa6, 0x50, 0x95, 0x5c, 0xac, 0xa4, 0x37, 0xd5,
    0xa7, 0xfe, 0x14, 0xed, 0x0a, 0xd1, 0x12, 0x12, 0xd4, 0x1e, 0xc4, 0xc7, 0x64, 0x32, 0xf8, 0x05,
    4, 0, 0, 0, // entries
    3, 0, 0, 0, 0, 0, 0, 0, 0, 0, 0, 0, 0, 5, 0, 0, 0, 0, 0, 0, 0, 0, // Poll
    1, 0, 0, 0, 0, 0, 0, 0, 0, 0, 0, 0, 0, 0, 0, 1, 0, // Gain
    4, 2, 0, 0, 0, 0, 0, 0, 0, 1, 0, 0, 0, 0, 0, 0, 0, 0, 0, 0, 0, 0, // Touch
    5, 3, 0, 0, 0, 0, 0, 0, 0, // End
    1, // cause
];

pub(crate) fn smallest() -> [u8; 123] {
    SMALLEST
}

/// Where its fields begin.
fn fields() -> [u64; 26] {
    [
        0, 4, 5, 6, 8, 16, 48, 52, 53, 61, 65, 73, 74, 75, 83, 85, 89, 90, 91, 92, 100, 104, 105,
        113, 114, 122,
    ]
}

fn image() -> [u8; 32] {
    [
        0xe4, 0xd0, 0x10, 0x19, 0x49, 0x99, 0xe7, 0x2f, 0xa6, 0x50, 0x95, 0x5c, 0xac, 0xa4, 0x37,
        0xd5, 0xa7, 0xfe, 0x14, 0xed, 0x0a, 0xd1, 0x12, 0x12, 0xd4, 0x1e, 0xc4, 0xc7, 0x64, 0x32,
        0xf8, 0x05,
    ]
}

fn touch(count: u64, ord: u32, input: Input) -> Entry {
    Entry::Touch { count, ord, input }
}

fn end(count: u64) -> Entry {
    Entry::End { count }
}

pub(crate) fn smallest_log(alloc: Global) -> Result<Log, Fail> {
    let first = gain(alloc, 0, 0, 0);
    let stop = touch(2, 1, Input::Nothing);
    let stream = Entries::of(vec![in alloc; poll(0), first, stop, end(3)]?);
    Ok(Log {
        pages: 1,
        limit: 100,
        image: image(),
        streams: Streams::of(vec![in alloc; stream]?),
        cause: Cause::Stop,
    })
}

/// A hart that yields a page, and then has one input of each kind.
fn yields(alloc: Global) -> Result<Entries, Fail> {
    let give_up = Entry::Yield {
        count: 3,
        page: 1,
        seq: 2,
        left: Some(Mode::Read),
    };
    Ok(Entries::of(vec![in alloc;
        give_up,
        touch(8, 0, Input::Byte(0x41)),
        touch(9, 1, Input::Time(7)),
        touch(10, 2, Input::Empty),
        end(11),
    ]?))
}

/// A hart that gains the page which the other yielded.
fn gains(alloc: Global) -> Result<Entries, Fail> {
    let waits = Waits::of(vec![in alloc; WaitFor { hart: 0, count: 3 }]?);
    let gain = Entry::Gain {
        count: 3,
        page: 1,
        seq: 3,
        mode: Mode::Write,
        waits,
    };
    Ok(Entries::of(vec![in alloc; gain, end(8)]?))
}

/// Hart 1 gains a page that hart 0 yielded.
pub(crate) fn shared_page_log(alloc: Global) -> Result<Log, Fail> {
    let yields = yields(alloc)?;
    let mut shared = log(2, 11, vec![in alloc; yields, gains(alloc)?]?);
    shared.cause = Cause::Full;
    Ok(shared)
}

/// Whether bytes are refused so.
fn is_refused(alloc: Global, bytes: &[u8], offset: u64, rule: u8) -> bool {
    match read_log(alloc, bytes) {
        Ok(_) => false,
        Err(error) => error == ReadError::Malformed { offset, rule },
    }
}

/// Whether a log is written as these bytes.
fn is_written(alloc: Global, log: &Log, bytes: &[u8]) -> Result<bool, Fail> {
    Ok(spell(alloc, log)?.as_slice() == bytes)
}

/// The limit of the log that bytes spell, where it is written as these again.
fn limit_of(alloc: Global, bytes: &[u8]) -> Result<Option<u64>, Fail> {
    let log = read_log(alloc, bytes)?;
    if is_written(alloc, &log, bytes)? {
        return Ok(Some(log.limit));
    }
    Ok(None)
}

/// The number of bytes of a log, where the one that they spell is written as these again.
fn length_of(alloc: Global, log: &Log) -> Result<Option<usize>, Fail> {
    let bytes = spell(alloc, log)?;
    if limit_of(alloc, &bytes)?.is_some() {
        return Ok(Some(bytes.len()));
    }
    Ok(None)
}

fn field_of(offset: u64) -> u64 {
    let mut first = 0;
    for field in fields() {
        if field <= offset {
            first = field;
        }
    }
    first
}

/// Whether so many of the first bytes are refused at the field that is cut.
fn is_cut(alloc: Global, size: usize) -> bool {
    match smallest().get(..size) {
        Some(bytes) => is_refused(alloc, bytes, field_of(size as u64), 1),
        None => false,
    }
}

#[test]
fn the_smallest_log_is_written_as_its_bytes_and_read_again(rt: HostRuntime) -> Result<(), Fail> {
    let alloc = rt.alloc();
    assert!(rt; is_written(alloc, &smallest_log(alloc)?, &smallest())?);
    assert_eq!(rt; limit_of(alloc, &smallest())?, Some(100));
    Ok(())
}

#[test]
fn a_cut_log_is_refused_at_the_field_that_is_cut(rt: HostRuntime) {
    for size in 0..123 {
        assert!(rt; is_cut(rt.alloc(), size), "{size}");
    }
}

#[test]
fn a_byte_after_the_cause_is_refused(rt: HostRuntime) -> Result<(), Fail> {
    let mut bytes = smallest().to_vec(rt.alloc())?;
    bytes.push(1)?;
    assert!(rt; is_refused(rt.alloc(), &bytes, 123, 14));
    Ok(())
}

// The head, two numbers of entries, a Yield, three Touches, a Gain with one wait, two Ends and the
// cause.
fn length_of_shared_page_log() -> usize {
    48 + 4 + 4 + 16 + 3 * 22 + 26 + 2 * 9 + 1
}

#[test]
fn every_kind_of_entry_is_written_and_read_again(rt: HostRuntime) -> Result<(), Fail> {
    let log = shared_page_log(rt.alloc())?;
    assert_eq!(rt;
        length_of(rt.alloc(), &log)?,
        Some(length_of_shared_page_log())
    );
    Ok(())
}
