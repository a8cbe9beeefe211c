//! Recordings in rounds, worked out by hand. Words were encoded by an assembler of RISC-V.

use crate::record_rounds;
use crew_core::Recorded;
use elf_image::{Image, read_image};
use log_entry::Log;
use log_format::{in_range, write_log};
use outside::{Gate, HoldGate, MemClock, OpenGate, SureConsole};
use rv_words::Cause;
use std::alloc::Global;
use std::process::Abort;
use std::thread::Threads;

pub(crate) fn image(rt: &impl Abort, alloc: Global, words: &[u32], pages: u16) -> Image {
    assert!(rt; 1 <= pages && pages <= 4096);
    let mut bytes = Vec::new(alloc);
    for word in words {
        bytes
            .extend_from_slice(&word.to_le_bytes())
            .expect(rt, "memory");
    }
    read_image(alloc, &bytes, pages).expect(rt, "an image")
}

/// A board in rounds, of two pages.
pub(crate) fn recorded<R: Abort + Threads + Sync, G: Gate>(
    rt: &R,
    alloc: Global,
    words: &[u32],
    harts: u8,
    limit: u64,
    gate: &G,
) -> Recorded<SureConsole, MemClock> {
    let image = image(rt, alloc, words, 2);
    assert!(rt; 1 <= harts && harts <= 8);
    assert!(rt; limit <= 1_000_000);
    let console = SureConsole::start();
    let clock = MemClock::start(5, 0);
    match record_rounds(
        rt, alloc, &image, harts, limit, 67_108_864, console, clock, gate,
    ) {
        Ok(recorded) => recorded,
        Err(_) => panic!(rt; "memory"),
    }
}

pub(crate) fn bytes_of(rt: &impl Abort, alloc: Global, log: &Log) -> Vec<u8> {
    assert!(rt; in_range(log));
    write_log(alloc, log).expect(rt, "memory")
}

// lui x1, 0x80001; addi x3, x0, 1000; addi x2, x0, 1; amoadd.w x0, x2, (x1); addi x3, x3, -1; bne x3, x0, -8;
// jal x0, 0
pub(crate) const AMOS: [u32; 7] = [
    0x8000_10b7,
    0x3e80_0193,
    0x0010_0113,
    0x0020_a02f,
    0xfff1_8193,
    0xfe01_9ce3,
    0x0000_006f,
];

fn atomic_each<R: Abort + Threads + Sync>(rt: &R, alloc: Global) -> bool {
    let r = recorded(rt, alloc, &AMOS, 2, 4000, &OpenGate);
    r.log.cause == Cause::Limit
        && r.ended.memory.items().get(4096) == Some(&0xd0)
        && r.ended.memory.items().get(4097) == Some(&7)
}

// lui x1, 0x80001; lw x2, 0(x1); addi x2, x2, 1; sw x2, 0(x1); jal x0, 0
const ADDS: [u32; 5] = [
    0x8000_10b7,
    0x0000_a103,
    0x0011_0113,
    0x0020_a023,
    0x0000_006f,
];

fn same_bytes<R: Abort + Threads + Sync>(rt: &R, alloc: Global) -> bool {
    let first = recorded(rt, alloc, &ADDS, 2, 8, &OpenGate);
    let second = recorded(rt, alloc, &ADDS, 2, 8, &OpenGate);
    bytes_of(rt, alloc, &first.log) == bytes_of(rt, alloc, &second.log)
}

// lui x1, 0x10000; addi x2, x0, 7; sw x2, 8(x1): the store to STOP.
pub(crate) const STOPS: [u32; 3] = [0x1000_00b7, 0x0070_0113, 0x0020_a423];

// Each hart makes its first two moves beside the others; hart 1 comes first in the next round.
fn stopped_by_hart_1<R: Abort + Threads + Sync>(rt: &R, alloc: Global) -> bool {
    let r = recorded(rt, alloc, &STOPS, 4, 100, &OpenGate);
    r.log.cause == Cause::Stop
        && r.ended.stop == Some(7)
        && r.ended.counts.items() == [2, 3, 2, 2].as_slice()
}

// jal x0, 0
pub(crate) const LOOPS: [u32; 1] = [0x0000_006f];

/// Three legs of 4,096 moves each; both harts have to be in this one at once.
fn beside_each_other<R: Abort + Threads + Sync>(rt: &R, alloc: Global, leg: u64) -> bool {
    let gate = HoldGate::start(leg);
    let r = recorded(rt, alloc, &LOOPS, 2, 3 * 4096, &gate);
    r.log.cause == Cause::Limit && !gate.ran_out()
}

#[test]
fn rounds(rt: HostRuntime) {
    assert!(rt; atomic_each(&rt, rt.alloc()));
    assert!(rt; same_bytes(&rt, rt.alloc()));
    assert!(rt; stopped_by_hart_1(&rt, rt.alloc()));
    assert!(rt; beside_each_other(&rt, rt.alloc(), 0));
    assert!(rt; beside_each_other(&rt, rt.alloc(), 2));
}
