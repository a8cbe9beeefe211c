//! Recordings with free harts, of which only what holds in any order is known. Words were encoded by an assembler of
//! RISC-V.

use crate::record_free;
use crew_core::Recorded;
use elf_image::{Image, read_image};
use log_format::in_range;
use log_order::put_in_order;
use outside::{Gate, HoldGate, MemClock, OpenGate, SureConsole};
use recorder::{has_harts, record_list};
use rv_words::Cause;
use std::alloc::Global;
use std::process::Abort;
use std::sync::Wait;
use std::thread::Threads;

const LOG_LIMIT: u64 = 67_108_864;

fn image(rt: &impl Abort, alloc: Global, words: &[u32]) -> Image {
    let mut bytes = Vec::new(alloc);
    for word in words {
        bytes
            .extend_from_slice(&word.to_le_bytes())
            .expect(rt, "memory");
    }
    read_image(alloc, &bytes, 2).expect(rt, "an image")
}

/// A board of two pages with free harts.
fn recorded<R: Abort + Threads + Wait + Sync, G: Gate>(
    rt: &R,
    alloc: Global,
    words: &[u32],
    harts: u8,
    limit: u64,
    gate: &G,
) -> Recorded<SureConsole, MemClock> {
    let image = image(rt, alloc, words);
    assert!(rt; 1 <= harts && harts <= 8);
    assert!(rt; limit <= 1_000_000);
    let console = SureConsole::start();
    let clock = MemClock::start(5, 0);
    match record_free(
        rt, alloc, &image, harts, limit, LOG_LIMIT, console, clock, gate,
    ) {
        Ok(recorded) => recorded,
        Err(_) => panic!(rt; "memory"),
    }
}

/// The log of a recording by its turns on one thread is the same.
fn same_by_its_turns(
    rt: &impl Abort,
    alloc: Global,
    words: &[u32],
    harts: u8,
    limit: u64,
    free: &Recorded<SureConsole, MemClock>,
) -> bool {
    let image = image(rt, alloc, words);
    assert!(rt; 1 <= harts && harts <= 8);
    assert!(rt; limit <= 1_000_000);
    let turns = free.turns.items();
    assert!(rt; has_harts(harts, turns));
    let console = SureConsole::start();
    let clock = MemClock::start(5, 0);
    match record_list(
        alloc, &image, harts, limit, LOG_LIMIT, console, clock, turns,
    ) {
        Ok(list) => {
            list.log.cause == free.log.cause
                && list.journal.items() == free.journal.items()
                && list.ended.memory.items() == free.ended.memory.items()
        }
        Err(_) => panic!(rt; "memory"),
    }
}

fn is_orderly(rt: &impl Abort, alloc: Global, free: Recorded<SureConsole, MemClock>) -> bool {
    assert!(rt; in_range(&free.log));
    put_in_order(alloc, free.log).is_ok()
}

// lui x1, 0x80001; addi x3, x0, 1000; addi x2, x0, 1; amoadd.w x0, x2, (x1); addi x3, x3, -1; bne x3, x0, -8;
// jal x0, 0
const AMOS: [u32; 7] = [
    0x8000_10b7,
    0x3e80_0193,
    0x0010_0113,
    0x0020_a02f,
    0xfff1_8193,
    0xfe01_9ce3,
    0x0000_006f,
];

/// Each hart adds one a thousand times, whatever the order in which they come.
fn sums<R: Abort + Threads + Wait + Sync>(
    rt: &R,
    alloc: Global,
    harts: u8,
    low: u8,
    high: u8,
) -> bool {
    let free = recorded(rt, alloc, &AMOS, harts, 4000, &OpenGate);
    free.log.cause == Cause::Limit
        && free.ended.memory.items().get(4096) == Some(&low)
        && free.ended.memory.items().get(4097) == Some(&high)
        && same_by_its_turns(rt, alloc, &AMOS, harts, 4000, &free)
        && is_orderly(rt, alloc, free)
}

// lui x1, 0x10000; addi x2, x0, 7; sw x2, 8(x1): the store to STOP.
const STOPS: [u32; 3] = [0x1000_00b7, 0x0070_0113, 0x0020_a423];

fn stops<R: Abort + Threads + Wait + Sync>(rt: &R, alloc: Global) -> bool {
    let free = recorded(rt, alloc, &STOPS, 4, 100, &OpenGate);
    free.log.cause == Cause::Stop && free.ended.stop == Some(7) && is_orderly(rt, alloc, free)
}

// jal x0, 0
const LOOPS: [u32; 1] = [0x0000_006f];

/// Leg 0 has no moves. Both harts have to be in leg 1 at once.
fn beside_each_other<R: Abort + Threads + Wait + Sync>(rt: &R, alloc: Global) -> bool {
    let gate = HoldGate::start(1);
    let free = recorded(rt, alloc, &LOOPS, 2, 4096, &gate);
    free.log.cause == Cause::Limit && !gate.ran_out() && is_orderly(rt, alloc, free)
}

#[test]
fn two_harts(rt: HostRuntime) {
    assert!(rt; sums(&rt, rt.alloc(), 2, 0xd0, 0x07));
    assert!(rt; beside_each_other(&rt, rt.alloc()));
}

#[test]
fn more_harts(rt: HostRuntime) {
    assert!(rt; sums(&rt, rt.alloc(), 8, 0x40, 0x1f));
    assert!(rt; sums(&rt, rt.alloc(), 1, 0xe8, 0x03));
    assert!(rt; stops(&rt, rt.alloc()));
}
