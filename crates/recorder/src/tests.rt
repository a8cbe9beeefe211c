//! Recordings by lists, worked out by hand. Words were encoded by an assembler of RISC-V.

use crate::rows::{Row, holds, plain_row, recorded};
use outside::Asked;
use rv_words::Cause;
use std::alloc::Global;
use std::process::Abort;

const POLL: [u64; 7] = [3, 0, 0, 5, 0, 0, 0];

const NEXT_POLL: [u64; 7] = [3, 0, 1, 5, 0, 0, 0];

const GAIN: [u64; 7] = [1, 0, 0, 0, 1, 0, 0];

const NEXT_GAIN: [u64; 7] = [1, 0, 0, 1, 1, 0, 0];

fn end(count: u64) -> [u64; 7] {
    [5, count, 0, 0, 0, 0, 0]
}

// lui x1, 0x10000; addi x2, x0, 7; sw x2, 8(x1): the store to STOP.
const STOPS: [u32; 3] = [0x1000_00b7, 0x0070_0113, 0x0020_a423];

fn stops(list: &[(u8, u32)]) -> Row {
    plain_row(&STOPS, 1, 100, list)
}

fn smallest(alloc: Global, rt: &impl Abort) -> bool {
    let streams = [POLL, GAIN, [4, 2, 1, 0, 0, 0, 0], end(3)];
    let wanted = Row {
        cause: Cause::Stop,
        stop: Some(7),
        size: Some(123),
        streams: &[&streams],
        journal: &[(0, 2), (0, 3)],
        turns: &[(0, 0), (0, 2)],
        places: &[(0, 0x8000_000c)],
        ..stops(&[(0, 100), (0, 100)])
    };
    holds(rt, alloc, &wanted)
}

fn empty_list(alloc: Global, rt: &impl Abort) -> bool {
    let streams = [end(0)];
    let wanted = Row {
        cause: Cause::Cut,
        streams: &[&streams],
        turns: &[(0, 0)],
        ..stops(&[])
    };
    let r = recorded(rt, alloc, &wanted);
    holds(rt, alloc, &wanted) && r.journal.items().is_empty()
}

fn no_moves(alloc: Global, rt: &impl Abort) -> bool {
    let streams = [end(0)];
    let wanted = Row {
        size: Some(75),
        streams: &[&streams, &streams],
        turns: &[(0, 0), (1, 0)],
        ..plain_row(&STOPS, 2, 0, &[])
    };
    let r = recorded(rt, alloc, &wanted);
    holds(rt, alloc, &wanted) && r.journal.items().is_empty()
}

// jal x0, 0
const LOOPS: [u32; 1] = [0x0000_006f];

fn to_the_first_poll(alloc: Global, rt: &impl Abort) -> bool {
    let streams = [POLL, GAIN, end(4096)];
    let wanted = Row {
        size: Some(101),
        streams: &[&streams],
        turns: &[(0, 0), (0, 4096)],
        places: &[(0, 0x8000_0000)],
        ..plain_row(&LOOPS, 1, 4096, &[(0, 9000), (0, 9000)])
    };
    holds(rt, alloc, &wanted)
}

fn past_the_first_poll(alloc: Global, rt: &impl Abort) -> bool {
    let streams = [POLL, GAIN, [3, 4096, 1, 5, 0, 0, 0], end(4097)];
    let wanted = Row {
        size: Some(123),
        streams: &[&streams],
        turns: &[(0, 0), (0, 4096), (0, 1)],
        ..plain_row(&LOOPS, 1, 4097, &[(0, 9000), (0, 9000), (0, 9000)])
    };
    holds(rt, alloc, &wanted)
}

fn full_log(alloc: Global, rt: &impl Abort) -> bool {
    let wanted = Row {
        log_limit: 1024,
        cause: Cause::Full,
        size: Some(1003),
        ..plain_row(&LOOPS, 1, 1_000_000, &[(0, 9000); 60])
    };
    let r = recorded(rt, alloc, &wanted);
    holds(rt, alloc, &wanted) && r.ended.counts.items() == [172_032].as_slice()
}

// No words: the first move traps, and with mtvec 0 the second one at its fetch.
fn traps(alloc: Global, rt: &impl Abort) -> bool {
    let streams = [POLL, GAIN, end(2)];
    let wanted = Row {
        size: Some(101),
        streams: &[&streams],
        places: &[(0, 0)],
        csrs: &[
            (0, 0x300, 0x1800),
            (0, 0x342, 1),
            (0, 0xb00, 2),
            (0, 0xb02, 0),
        ],
        ..plain_row(&[], 1, 2, &[(0, 100), (0, 100)])
    };
    holds(rt, alloc, &wanted)
}

#[test]
fn one_hart(rt: HostRuntime) {
    assert!(rt; smallest(rt.alloc(), &rt));
    assert!(rt; empty_list(rt.alloc(), &rt));
    assert!(rt; no_moves(rt.alloc(), &rt));
    assert!(rt; to_the_first_poll(rt.alloc(), &rt));
    assert!(rt; past_the_first_poll(rt.alloc(), &rt));
    assert!(rt; full_log(rt.alloc(), &rt));
    assert!(rt; traps(rt.alloc(), &rt));
}

// lui x1, 0x80001; lw x2, 0(x1); addi x2, x2, 1; sw x2, 0(x1); jal x0, 0
const ADDS: [u32; 5] = [
    0x8000_10b7,
    0x0000_a103,
    0x0011_0113,
    0x0020_a023,
    0x0000_006f,
];

fn adds<'a>(list: &'a [(u8, u32)], bytes: &'a [(usize, u8)]) -> Row<'a> {
    Row {
        pages: 2,
        bytes,
        ..plain_row(&ADDS, 2, 8, list)
    }
}

// One hart after the other.
fn one_by_one(alloc: Global, rt: &impl Abort) -> bool {
    let list = [
        (0, 8),
        (0, 8),
        (0, 8),
        (0, 8),
        (1, 8),
        (0, 8),
        (1, 8),
        (0, 8),
        (1, 8),
        (0, 8),
        (1, 8),
        (0, 8),
        (1, 8),
        (0, 8),
        (1, 8),
        (0, 8),
    ];
    let wanted = Row {
        journal: &[
            (0, 2),
            (0, 2),
            (0, 3),
            (0, 5),
            (1, 2),
            (1, 1),
            (0, 1),
            (1, 1),
            (1, 2),
            (0, 1),
            (1, 1),
            (1, 5),
        ],
        turns: &[
            (0, 0),
            (0, 1),
            (0, 2),
            (0, 5),
            (1, 0),
            (1, 1),
            (0, 0),
            (1, 0),
            (1, 2),
            (0, 0),
            (1, 0),
            (1, 5),
            (0, 0),
            (1, 0),
        ],
        ..adds(&list, &[(4096, 2), (4097, 0)])
    };
    holds(rt, alloc, &wanted)
}

// Both read before either writes.
fn in_turns(alloc: Global, rt: &impl Abort) -> bool {
    let list = [
        (0, 8),
        (1, 8),
        (0, 8),
        (1, 8),
        (0, 2),
        (1, 2),
        (0, 8),
        (0, 8),
        (1, 8),
        (1, 8),
    ];
    let first = [
        POLL,
        GAIN,
        [1, 1, 1, 0, 1, 0, 0],
        [1, 3, 1, 3, 2, 2, 3],
        [2, 8, 1, 4, 0, 0, 0],
        end(8),
    ];
    let second = [
        NEXT_POLL,
        NEXT_GAIN,
        [1, 1, 1, 1, 1, 0, 0],
        [2, 3, 1, 2, 0, 0, 0],
        [1, 3, 1, 5, 2, 1, 8],
        end(8),
    ];
    let wanted = Row {
        streams: &[&first, &second],
        journal: &[
            (0, 2),
            (1, 2),
            (0, 2),
            (1, 2),
            (0, 2),
            (1, 3),
            (0, 1),
            (0, 6),
            (1, 1),
            (1, 5),
        ],
        turns: &[
            (0, 0),
            (1, 0),
            (0, 1),
            (1, 1),
            (0, 2),
            (1, 2),
            (0, 0),
            (0, 5),
            (1, 0),
            (1, 5),
            (0, 0),
            (1, 0),
        ],
        ..adds(&list, &[(4096, 1), (4097, 0)])
    };
    holds(rt, alloc, &wanted)
}

fn put_rows(rt: &impl Abort, list: &mut Vec<(u8, u32)>, times: u8, rows: &[(u8, u32)]) {
    for _ in 0..times {
        list.extend_from_slice(rows).expect(rt, "memory");
    }
}

// lui x1, 0x80001; addi x3, x0, 1000; lw x2, 0(x1); addi x2, x2, 1; sw x2, 0(x1); addi x3, x3, -1; bne x3, x0, -16;
// jal x0, 0
const ADDS_OFTEN: [u32; 8] = [
    0x8000_10b7,
    0x3e80_0193,
    0x0000_a103,
    0x0011_0113,
    0x0020_a023,
    0xfff1_8193,
    0xfe01_98e3,
    0x0000_006f,
];

fn thousand_each(alloc: Global, rt: &impl Abort) -> bool {
    let mut list = Vec::new(alloc);
    put_rows(rt, &mut list, 10, &[(0, 6000)]);
    put_rows(rt, &mut list, 10, &[(1, 6000), (0, 6000)]);
    let wanted = Row {
        pages: 2,
        bytes: &[(4096, 0xd0), (4097, 7)],
        ..plain_row(&ADDS_OFTEN, 2, 6000, &list)
    };
    holds(rt, alloc, &wanted)
}

// lui x1, 0x80001; addi x3, x0, 1000; addi x2, x0, 1; amoadd.w x0, x2, (x1); addi x3, x3, -1; bne x3, x0, -8;
// jal x0, 0
const AMOS: [u32; 7] = [
    0x8000_10b7,
    0x3e80_0193,
    0x0010_0113,
    0x0020_a02f,
    0xfff1_8193,
    0xfe01_9ce3,
    0x0000_006f,
];

fn atomic_each(alloc: Global, rt: &impl Abort) -> bool {
    let mut list = Vec::new(alloc);
    put_rows(rt, &mut list, 10, &[(0, 700), (1, 900)]);
    put_rows(rt, &mut list, 10, &[(1, 6000), (0, 6000)]);
    let wanted = Row {
        pages: 2,
        bytes: &[(4096, 0xd0), (4097, 7)],
        ..plain_row(&AMOS, 2, 4000, &list)
    };
    holds(rt, alloc, &wanted)
}

#[test]
fn races(rt: HostRuntime) {
    assert!(rt; one_by_one(rt.alloc(), &rt));
    assert!(rt; in_turns(rt.alloc(), &rt));
    assert!(rt; thousand_each(rt.alloc(), &rt));
    assert!(rt; atomic_each(rt.alloc(), &rt));
}

// csrrs x5, mhartid, x0; lui x1, 0x80001; bne x5, x0, 16; lr.w x2, (x1); sc.w x3, x2, (x1); jal x0, 0;
// lw x4, 0(x1); jal x0, 0
const DOWNGRADES: [u32; 8] = [
    0xf140_22f3,
    0x8000_10b7,
    0x0002_9863,
    0x1000_a12f,
    0x1820_a1af,
    0x0000_006f,
    0x0000_a203,
    0x0000_006f,
];

// A reader ends the reservation of the hart that held the page in write.
fn downgraded(alloc: Global, rt: &impl Abort) -> bool {
    let list = [
        (0, 8),
        (0, 3),
        (1, 8),
        (1, 8),
        (0, 1),
        (1, 8),
        (1, 8),
        (0, 8),
        (0, 8),
    ];
    let first = [
        POLL,
        GAIN,
        [1, 3, 1, 0, 2, 0, 0],
        [2, 4, 1, 1, 1, 0, 0],
        [1, 4, 1, 4, 2, 2, 8],
        end(8),
    ];
    let second = [
        NEXT_POLL,
        NEXT_GAIN,
        [1, 3, 1, 2, 1, 1, 4],
        [2, 8, 1, 3, 0, 0, 0],
        end(8),
    ];
    let wanted = Row {
        pages: 2,
        size: Some(254),
        streams: &[&first, &second],
        journal: &[
            (0, 2),
            (0, 4),
            (1, 2),
            (1, 3),
            (0, 2),
            (1, 1),
            (1, 6),
            (0, 1),
            (0, 4),
        ],
        turns: &[
            (0, 0),
            (0, 3),
            (1, 0),
            (1, 3),
            (0, 1),
            (1, 0),
            (1, 5),
            (0, 0),
            (0, 4),
            (1, 0),
        ],
        registers: &[(0, 3, 1), (1, 4, 0)],
        bytes: &[(4096, 0), (4097, 0)],
        ..plain_row(&DOWNGRADES, 2, 8, &list)
    };
    holds(rt, alloc, &wanted)
}

// Hart 0 stores to hart 1's software interrupt, whose handler at 0x8000010c clears it.
const RAISES: [u32; 12] = [
    0xf140_22f3,
    0x0002_9a63,
    0x0200_00b7,
    0x0010_0113,
    0x0020_a223,
    0x0000_006f,
    0x8000_00b7,
    0x1010_8093,
    0x3050_9073,
    0x3044_5073,
    0x3004_6073,
    0x0000_006f,
];

const CLEARS: [u32; 3] = [0x0200_00b7, 0x0000_a223, 0x3020_0073];

fn interrupted(alloc: Global, rt: &impl Abort) -> bool {
    let list = [
        (0, 9000),
        (1, 9000),
        (0, 9000),
        (1, 9000),
        (1, 9000),
        (1, 9000),
        (0, 9000),
        (0, 9000),
    ];
    let first = [
        POLL,
        GAIN,
        [4, 4, 2, 0, 0, 0, 0],
        [3, 4096, 5, 5, 0, 0, 0],
        end(4102),
    ];
    let second = [
        NEXT_POLL,
        NEXT_GAIN,
        [3, 4096, 3, 5, 1, 0, 0],
        [4, 4098, 4, 0, 0, 0, 0],
        end(4102),
    ];
    let wanted = Row {
        behind: &CLEARS,
        from: 67,
        size: Some(241),
        streams: &[&first, &second],
        journal: &[
            (0, 2),
            (1, 2),
            (0, 5),
            (1, 4097),
            (1, 3),
            (1, 3),
            (0, 4092),
            (0, 6),
        ],
        places: &[(1, 0x8000_002c)],
        csrs: &[
            (1, 0x300, 0x1888),
            (1, 0x341, 0x8000_002c),
            (1, 0x342, 0x8000_0003),
            (1, 0x344, 0),
            (1, 0xb00, 4102),
            (1, 0xb02, 4101),
        ],
        ..plain_row(&RAISES, 2, 4102, &list)
    };
    holds(rt, alloc, &wanted)
}

// Hart 0 stores addi x3, x0, 7 over the jal that hart 1 runs.
const WRITES_CODE: [u32; 9] = [
    0xf140_22f3,
    0x0002_9a63,
    0x8000_00b7,
    0x01c0_a103,
    0x0020_ac23,
    0x0000_006f,
    0x0000_006f,
    0x0070_0193,
    0x0000_006f,
];

fn code_written(alloc: Global, rt: &impl Abort) -> bool {
    let list = [
        (0, 12),
        (1, 12),
        (0, 12),
        (1, 4),
        (0, 12),
        (0, 1),
        (1, 12),
        (1, 12),
        (0, 12),
    ];
    let first = [
        POLL,
        GAIN,
        [1, 4, 0, 3, 2, 2, 4],
        [2, 5, 0, 4, 1, 0, 0],
        end(12),
    ];
    let second = [
        NEXT_POLL,
        NEXT_GAIN,
        [2, 4, 0, 2, 0, 0, 0],
        [1, 4, 0, 5, 1, 1, 5],
        end(12),
    ];
    let wanted = Row {
        streams: &[&first, &second],
        turns: &[
            (0, 0),
            (1, 0),
            (0, 4),
            (1, 4),
            (0, 0),
            (0, 1),
            (1, 0),
            (1, 8),
            (0, 7),
            (1, 0),
        ],
        registers: &[(1, 3, 7)],
        places: &[(1, 0x8000_0020)],
        ..plain_row(&WRITES_CODE, 2, 12, &list)
    };
    holds(rt, alloc, &wanted)
}

#[test]
fn two_harts(rt: HostRuntime) {
    assert!(rt; downgraded(rt.alloc(), &rt));
    assert!(rt; interrupted(rt.alloc(), &rt));
    assert!(rt; code_written(rt.alloc(), &rt));
}

// lui x1, 0x10000; lw x2, 0(x1); lw x3, 0(x1); lw x4, 0(x1); sw x0, 8(x1)
const READS: [u32; 5] = [
    0x1000_00b7,
    0x0000_a103,
    0x0000_a183,
    0x0000_a203,
    0x0000_a423,
];

fn input_read(alloc: Global, rt: &impl Abort) -> bool {
    let streams = [
        POLL,
        GAIN,
        [4, 1, 1, 1, 0, 0, 0],
        [4, 2, 2, 2, 65, 0, 0],
        [4, 3, 3, 1, 0, 0, 0],
        [4, 4, 4, 0, 0, 0, 0],
        end(5),
    ];
    let wanted = Row {
        answers: &[Asked::Nothing, Asked::Byte(65), Asked::End],
        cause: Cause::Stop,
        stop: Some(0),
        streams: &[&streams],
        registers: &[(0, 2, 0xffff_ffff), (0, 3, 65), (0, 4, 0xffff_ffff)],
        ..plain_row(&READS, 1, 100, &[(0, 100); 6])
    };
    holds(rt, alloc, &wanted)
}

// lui x1, 0x10000; addi x2, x0, 65; sw x2, 4(x1), three times
const SENDS: [u32; 5] = [
    0x1000_00b7,
    0x0410_0113,
    0x0020_a223,
    0x0020_a223,
    0x0020_a223,
];

fn console_failed(alloc: Global, rt: &impl Abort) -> bool {
    let streams = [
        POLL,
        GAIN,
        [4, 2, 1, 0, 0, 0, 0],
        [4, 3, 2, 0, 0, 0, 0],
        end(4),
    ];
    let wanted = Row {
        fails: &[2],
        cause: Cause::Fault,
        streams: &[&streams],
        taken: &[65, 65],
        ..plain_row(&SENDS, 1, 100, &[(0, 100); 6])
    };
    holds(rt, alloc, &wanted)
}

#[test]
fn consoles(rt: HostRuntime) {
    assert!(rt; input_read(rt.alloc(), &rt));
    assert!(rt; console_failed(rt.alloc(), &rt));
}
