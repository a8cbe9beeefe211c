//! What a recording by a list comes to, as rows tell it.

use crate::{has_harts, record_list};
use crew_core::Recorded;
use elf_image::{Image, read_image};
use flat_machine::Final;
use log_entry::{Entry, Log, Waits};
use log_format::{in_range, write_log};
use outside::{Asked, MemClock, MemConsole};
use rv_words::{Cause, Input, Mode};
use std::alloc::Global;
use std::process::Abort;

/// A board and its list, and what the recording comes to.
#[derive(Clone, Copy)]
pub(crate) struct Row<'a> {
    pub words: &'a [u32],
    /// Words behind zeros, from a place on.
    pub behind: &'a [u32],
    pub from: usize,
    pub pages: u16,
    pub harts: u8,
    pub limit: u64,
    pub log_limit: u64,
    pub answers: &'a [Asked],
    pub fails: &'a [u64],
    pub list: &'a [(u8, u32)],

    pub cause: Cause,
    pub stop: Option<u32>,
    /// The bytes of the log.
    pub size: Option<usize>,
    pub streams: &'a [&'a [[u64; 7]]],
    /// Looked at where it has rows.
    pub journal: &'a [(u8, u32)],
    /// So are these.
    pub turns: &'a [(u8, u32)],
    /// A hart, a register, and its value.
    pub registers: &'a [(u8, u8, u32)],
    /// A hart and its pc.
    pub places: &'a [(u8, u32)],
    /// A hart, a CSR, and its value.
    pub csrs: &'a [(u8, u16, u32)],
    /// Where a byte stands in memory, and the byte.
    pub bytes: &'a [(usize, u8)],
    pub taken: &'a [u8],
}

fn put_words(rt: &impl Abort, bytes: &mut Vec<u8>, words: &[u32]) {
    for word in words {
        bytes
            .extend_from_slice(&word.to_le_bytes())
            .expect(rt, "memory");
    }
}

fn image(rt: &impl Abort, alloc: Global, row: &Row) -> Image {
    assert!(rt; 1 <= row.pages && row.pages <= 4096);
    let mut bytes = Vec::new(alloc);
    put_words(rt, &mut bytes, row.words);
    if !row.behind.is_empty() {
        for _ in row.words.len()..row.from {
            put_words(rt, &mut bytes, &[0]);
        }
        put_words(rt, &mut bytes, row.behind);
    }
    read_image(alloc, &bytes, row.pages).expect(rt, "an image")
}

pub(crate) fn recorded(
    rt: &impl Abort,
    alloc: Global,
    row: &Row,
) -> Recorded<MemConsole, MemClock> {
    let image = image(rt, alloc, row);
    let console = MemConsole::start(alloc, row.answers, Asked::Nothing, 64, row.fails).expect(
        rt, "memory",
    );
    assert!(rt; 1 <= row.harts && row.harts <= 8);
    assert!(rt; row.limit <= 1_000_000_000_000);
    assert!(rt; 1024 <= row.log_limit && row.log_limit <= 536_870_912);
    assert!(rt; has_harts(row.harts, row.list));
    let clock = MemClock::start(5, 0);
    match record_list(
        alloc,
        &image,
        row.harts,
        row.limit,
        row.log_limit,
        console,
        clock,
        row.list,
    ) {
        Ok(recorded) => recorded,
        Err(_) => panic!(rt; "memory"),
    }
}

fn mode_of(mode: Option<Mode>) -> u64 {
    match mode {
        None => 0,
        Some(Mode::Read) => 1,
        Some(Mode::Write) => 2,
    }
}

fn wait_of(waits: &Waits) -> (u64, u64) {
    match waits.items() {
        [] => (0, 0),
        [wait] => (u64::from(wait.hart) + 1, wait.count),
        _ => (u64::MAX, u64::MAX),
    }
}

fn input_of(input: Input) -> (u64, u64) {
    match input {
        Input::Nothing => (0, 0),
        Input::Empty => (1, 0),
        Input::Byte(byte) => (2, u64::from(byte)),
        Input::Time(time) => (3, time),
    }
}

/// What stands of an entry that changes who holds a page: its kind in the log's bytes, its count, its page and number, the
/// mode gained or left, and of a gain's wait the hart's number and one.
fn page_row(
    kind: u64,
    count: u64,
    place: (u32, u32),
    mode: Option<Mode>,
    wait: (u64, u64),
) -> [u64; 7] {
    let (page, seq) = place;
    [
        kind,
        count,
        u64::from(page),
        u64::from(seq),
        mode_of(mode),
        wait.0,
        wait.1,
    ]
}

/// The kind of an entry in the log's bytes, its count, its page and number or its ordinal, and what else it says.
fn told(entry: &Entry) -> [u64; 7] {
    match entry {
        Entry::Gain {
            count,
            page,
            seq,
            mode,
            waits,
        } => page_row(1, *count, (*page, *seq), Some(*mode), wait_of(waits)),
        Entry::Yield {
            count,
            page,
            seq,
            left,
        } => page_row(2, *count, (*page, *seq), *left, (0, 0)),
        Entry::Poll {
            count,
            ord,
            time,
            bits,
        } => [3, *count, u64::from(*ord), *time, u64::from(*bits), 0, 0],
        Entry::Touch { count, ord, input } => {
            let given = input_of(*input);
            [4, *count, u64::from(*ord), given.0, given.1, 0, 0]
        }
        Entry::End { count } => [5, *count, 0, 0, 0, 0, 0],
    }
}

fn has_stream(log: &Log, hart: usize, rows: &[[u64; 7]]) -> bool {
    match log.streams.items().get(hart) {
        Some(stream) => {
            stream.items().len() == rows.len()
                && stream
                    .items()
                    .iter()
                    .zip(rows)
                    .all(|(entry, row)| told(entry) == *row)
        }
        None => false,
    }
}

fn has_streams(log: &Log, streams: &[&[[u64; 7]]]) -> bool {
    for (hart, rows) in streams.iter().enumerate() {
        if !has_stream(log, hart, rows) {
            return false;
        }
    }
    true
}

fn has_size(alloc: Global, log: &Log, size: Option<usize>) -> bool {
    if !in_range(log) {
        return false;
    }
    match write_log(alloc, log) {
        Ok(bytes) => size.is_none_or(|size| bytes.len() == size),
        Err(_) => false,
    }
}

fn has_registers(ended: &Final, row: &Row) -> bool {
    for (hart, register, value) in row.registers {
        match ended.harts.items().get(usize::from(*hart)) {
            Some(hart) if *register < 32 => {
                if hart.reg(*register) != *value {
                    return false;
                }
            }
            _ => return false,
        }
    }
    true
}

fn has_places(ended: &Final, row: &Row) -> bool {
    for (hart, pc) in row.places {
        match ended.harts.items().get(usize::from(*hart)) {
            Some(hart) if hart.pc() == *pc => {}
            _ => return false,
        }
    }
    true
}

fn has_csrs(ended: &Final, row: &Row) -> bool {
    for (hart, number, value) in row.csrs {
        match ended.harts.items().get(usize::from(*hart)) {
            Some(hart) if hart.csr(*number) == Some(*value) => {}
            _ => return false,
        }
    }
    true
}

fn has_bytes(ended: &Final, row: &Row) -> bool {
    for (at, byte) in row.bytes {
        if ended.memory.items().get(*at) != Some(byte) {
            return false;
        }
    }
    true
}

fn has_end(ended: &Final, row: &Row) -> bool {
    has_registers(ended, row)
        && has_places(ended, row)
        && has_csrs(ended, row)
        && has_bytes(ended, row)
}

/// Whether a row's recording comes to what it should.
pub(crate) fn holds(rt: &impl Abort, alloc: Global, row: &Row) -> bool {
    let r = recorded(rt, alloc, row);
    r.log.cause == row.cause
        && r.ended.stop == row.stop
        && has_size(alloc, &r.log, row.size)
        && has_streams(&r.log, row.streams)
        && (row.journal.is_empty() || r.journal.items() == row.journal)
        && (row.turns.is_empty() || r.turns.items() == row.turns)
        && has_end(&r.ended, row)
        && r.console.taken() == row.taken
}

pub(crate) fn plain_row<'a>(
    words: &'a [u32],
    harts: u8,
    limit: u64,
    list: &'a [(u8, u32)],
) -> Row<'a> {
    Row {
        words,
        behind: &[],
        from: 0,
        pages: 1,
        harts,
        limit,
        log_limit: 67_108_864,
        answers: &[],
        fails: &[],
        list,
        cause: Cause::Limit,
        stop: None,
        size: None,
        streams: &[],
        journal: &[],
        turns: &[],
        registers: &[],
        places: &[],
        csrs: &[],
        bytes: &[],
        taken: &[],
    }
}
