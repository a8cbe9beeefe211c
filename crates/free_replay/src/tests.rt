//! Replays with free harts, of logs worked out by hand. Words were encoded by an assembler of RISC-V.

use crate::replay_free;
use elf_image::{Image, read_image};
use flat_machine::Final;
use log_entry::{Cause, Entries, Entry, Log, Mode, Streams, WaitFor, Waits};
use log_format::in_range;
use log_order::put_in_order;
use outside::{Gate, HoldGate, OpenGate};
use replay_core::Outcome;
use rv_words::Input;
use std::alloc::Global;
use std::process::Abort;
use std::sync::Wait;
use std::thread::Threads;

// jal x0, 0
const LOOPS: [u32; 1] = [0x0000_006f];

// lui x1, 0x10000; lw x2, 0(x1)
const LOADS: [u32; 2] = [0x1000_00b7, 0x0000_a103];

// lui x1, 0x10000; addi x2, x0, 65; sw x2, 4(x1) three times
const SENDS: [u32; 5] = [
    0x1000_00b7,
    0x0410_0113,
    0x0020_a223,
    0x0020_a223,
    0x0020_a223,
];

// lui x1, 0x80001; addi x3, x0, 1000; addi x2, x0, 1; amoadd.w x0, x2, (x1); addi x3, x3, -1; bne x3, x0, -8; jal x0, 0
const AMOS: [u32; 7] = [
    0x8000_10b7,
    0x3e80_0193,
    0x0010_0113,
    0x0020_a02f,
    0xfff1_8193,
    0xfe01_9ce3,
    0x0000_006f,
];

fn image(rt: &impl Abort, alloc: Global, words: &[u32]) -> Image {
    let mut bytes = Vec::new(alloc);
    for word in words {
        bytes
            .extend_from_slice(&word.to_le_bytes())
            .expect(rt, "memory");
    }
    read_image(alloc, &bytes, 2).expect(rt, "an image")
}

/// What comes of a log by harts that run free.
fn freely<R: Abort + Threads + Wait + Sync, G: Gate>(
    rt: &R,
    alloc: Global,
    words: &[u32],
    log: Log,
    gate: &G,
) -> Outcome {
    assert!(rt; in_range(&log));
    let orderly = put_in_order(alloc, log).expect(rt, "an orderly log");
    let image = image(rt, alloc, words);
    assert!(rt; orderly.log().pages == image.pages());
    replay_free(rt, alloc, orderly, &image, gate).expect(rt, "memory")
}

fn log_of(streams: Vec<Entries>, limit: u64, cause: Cause) -> Log {
    Log {
        pages: 2,
        limit,
        image: [0; 32],
        streams: Streams::of(streams),
        cause,
    }
}

fn poll(count: u64, ord: u32, bits: u8) -> Entry {
    Entry::Poll {
        count,
        ord,
        time: 5,
        bits,
    }
}

fn gain(alloc: Global, count: u64, page: u32, seq: u32, mode: Mode) -> Entry {
    Entry::Gain {
        count,
        page,
        seq,
        mode,
        waits: Waits::of(Vec::new(alloc)),
    }
}

/// A gain behind hart 0's yield at this count.
fn gain_behind(
    rt: &impl Abort,
    alloc: Global,
    at: (u64, u32, u32),
    mode: Mode,
    yielded: u64,
) -> Entry {
    let wait = WaitFor {
        hart: 0,
        count: yielded,
    };
    let (count, page, seq) = at;
    Entry::Gain {
        count,
        page,
        seq,
        mode,
        waits: Waits::of(vec![in alloc; wait].expect(rt, "memory")),
    }
}

fn touch(count: u64, ord: u32) -> Entry {
    Entry::Touch {
        count,
        ord,
        input: Input::Nothing,
    }
}

fn leave(count: u64, page: u32, seq: u32, left: Option<Mode>) -> Entry {
    Entry::Yield {
        count,
        page,
        seq,
        left,
    }
}

fn end(count: u64) -> Entry {
    Entry::End { count }
}

fn streams_of(
    rt: &impl Abort,
    alloc: Global,
    first: Vec<Entry>,
    second: Vec<Entry>,
) -> Vec<Entries> {
    vec![in alloc; Entries::of(first), Entries::of(second)].expect(rt, "memory")
}

fn counts(outcome: &Outcome) -> &[u64] {
    match outcome {
        Outcome::Done(end) => end.counts.items(),
        Outcome::Diverged { .. } => &[],
    }
}

/// A hart polls, reads page 0 and moves on to its end.
fn reads_on(rt: &impl Abort, alloc: Global, number: u32, count: u64) -> Vec<Entry> {
    let gains = gain(alloc, 0, 0, number, Mode::Read);
    vec![in alloc; poll(0, number, 0), gains, end(count)].expect(rt, "memory")
}

/// Both harts have to be in this leg at once: in the first, which has no moves, or in the second.
fn beside_each_other<R: Abort + Threads + Wait + Sync>(rt: &R, alloc: Global, leg: u64) -> bool {
    let gate = HoldGate::start(leg);
    let first = reads_on(rt, alloc, 0, 4096);
    let second = reads_on(rt, alloc, 1, 4096);
    let log = log_of(streams_of(rt, alloc, first, second), 4096, Cause::Limit);
    let outcome = freely(rt, alloc, &LOOPS, log, &gate);
    counts(&outcome) == [4096, 4096].as_slice() && !gate.ran_out()
}

/// No hart makes a move.
fn of_no_moves<R: Abort + Threads + Wait + Sync>(rt: &R, alloc: Global) -> bool {
    let first = vec![in alloc; end(0)].expect(rt, "memory");
    let second = vec![in alloc; end(0)].expect(rt, "memory");
    let log = log_of(streams_of(rt, alloc, first, second), 0, Cause::Limit);
    counts(&freely(rt, alloc, &LOOPS, log, &OpenGate)) == [0, 0].as_slice()
}

/// The second hart's additions begin when the first has made its own: it waits for the page meanwhile.
fn additions(rt: &impl Abort, alloc: Global) -> Log {
    let first = vec![in alloc;
        poll(0, 0, 0),
        gain(alloc, 0, 0, 0, Mode::Read),
        gain(alloc, 3, 1, 0, Mode::Write),
        leave(3003, 1, 1, None),
        end(4000),
    ];
    let second = vec![in alloc;
        poll(0, 1, 0),
        gain(alloc, 0, 0, 1, Mode::Read),
        gain_behind(rt, alloc, (3, 1, 2), Mode::Write, 3003),
        end(4000),
    ];
    let first = first.expect(rt, "memory");
    let second = second.expect(rt, "memory");
    log_of(streams_of(rt, alloc, first, second), 4000, Cause::Limit)
}

fn come_to_their_sum<R: Abort + Threads + Wait + Sync>(rt: &R, alloc: Global) -> bool {
    match freely(rt, alloc, &AMOS, additions(rt, alloc), &OpenGate) {
        Outcome::Done(end) => {
            end.counts.items() == [4000, 4000].as_slice()
                && end.memory.items().get(4096) == Some(&0xd0)
                && end.memory.items().get(4097) == Some(&7)
        }
        Outcome::Diverged { .. } => false,
    }
}

/// A run that ended when the console failed at its third byte.
fn ends_at_a_fault<R: Abort + Threads + Wait + Sync>(rt: &R, alloc: Global) -> bool {
    let entries = vec![in alloc;
        poll(0, 0, 0),
        gain(alloc, 0, 0, 0, Mode::Read),
        touch(2, 1),
        touch(3, 2),
        end(4),
    ];
    let entries = entries.expect(rt, "memory");
    let streams = vec![in alloc; Entries::of(entries)].expect(rt, "memory");
    let log = log_of(streams, 100, Cause::Fault);
    match freely(rt, alloc, &SENDS, log, &OpenGate) {
        Outcome::Done(end) => {
            end.counts.items() == [4].as_slice() && end.sent.items() == [0x41, 0x41].as_slice()
        }
        Outcome::Diverged { .. } => false,
    }
}

/// A log that was full: 42 Polls, and the end where the next would stand.
fn full_log(rt: &impl Abort, alloc: Global) -> Log {
    let mut entries = vec![in alloc; poll(0, 0, 0)].expect(rt, "memory");
    entries
        .push(gain(alloc, 0, 0, 0, Mode::Read))
        .expect(rt, "memory");
    for number in 1..42u32 {
        entries
            .push(poll(u64::from(number) * 4096, number, 0))
            .expect(rt, "memory");
    }
    entries.push(end(172_032)).expect(rt, "memory");
    let streams = vec![in alloc; Entries::of(entries)].expect(rt, "memory");
    log_of(streams, 1_000_000, Cause::Full)
}

fn is_full<R: Abort + Threads + Wait + Sync>(rt: &R, alloc: Global) -> bool {
    let outcome = freely(rt, alloc, &LOOPS, full_log(rt, alloc), &OpenGate);
    counts(&outcome) == [172_032].as_slice()
}

fn diverges_so(outcome: Outcome, at: (u8, u64, u8)) -> bool {
    match outcome {
        Outcome::Diverged {
            hart,
            count,
            why,
            ..
        } => (hart, count, why) == at,
        Outcome::Done(_) => false,
    }
}

/// A hart that comes to a device access where its log has none, beside one that ends.
fn unlogged_access<R: Abort + Threads + Wait + Sync>(rt: &R, alloc: Global) -> bool {
    let first = reads_on(rt, alloc, 0, 9);
    let second = reads_on(rt, alloc, 1, 1);
    let log = log_of(streams_of(rt, alloc, first, second), 9, Cause::Full);
    diverges_so(freely(rt, alloc, &LOADS, log, &OpenGate), (0, 1, 2))
}

/// A hart that polled a line that is not up, before one that waits for it for ever.
fn other_lines<R: Abort + Threads + Wait + Sync>(rt: &R, alloc: Global) -> bool {
    let gains = gain(alloc, 0, 0, 0, Mode::Read);
    let first = vec![in alloc; poll(0, 0, 1), gains, end(3)].expect(rt, "memory");
    let second = reads_on(rt, alloc, 1, 3);
    let log = log_of(streams_of(rt, alloc, first, second), 100, Cause::Full);
    diverges_so(freely(rt, alloc, &LOOPS, log, &OpenGate), (0, 0, 5))
}

#[test]
fn harts_move_beside_each_other(rt: HostRuntime) {
    assert!(rt; beside_each_other(&rt, rt.alloc(), 0));
    assert!(rt; beside_each_other(&rt, rt.alloc(), 1));
}

#[test]
fn logs_are_done(rt: HostRuntime) {
    assert!(rt; of_no_moves(&rt, rt.alloc()));
    assert!(rt; come_to_their_sum(&rt, rt.alloc()));
    assert!(rt; ends_at_a_fault(&rt, rt.alloc()));
    assert!(rt; is_full(&rt, rt.alloc()));
}

#[test]
fn logs_diverge(rt: HostRuntime) {
    assert!(rt; unlogged_access(&rt, rt.alloc()));
    assert!(rt; other_lines(&rt, rt.alloc()));
}
