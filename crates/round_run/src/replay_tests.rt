//! Replays in rounds, worked out by hand or beside the other replays of the same log.

use crate::replay_rounds;
use crate::tests::{AMOS, LOOPS, STOPS, bytes_of, image, recorded};
use elf_image::Image;
use flat_machine::Final;
use log_entry::{Cause, Entries, Entry, Log, Mode, Streams, Waits};
use log_format::{in_range, read_log};
use log_order::{Orderly, put_in_order};
use outside::{Gate, HoldGate, OpenGate};
use replay_core::{Outcome, Stage, Went, replay_one};
use rv_words::Input;
use std::alloc::Global;
use std::process::Abort;
use std::thread::Threads;

fn ordered(rt: &impl Abort, alloc: Global, log: Log) -> Orderly {
    assert!(rt; in_range(&log));
    put_in_order(alloc, log).expect(rt, "an orderly log")
}

fn in_rounds<R: Abort + Threads + Sync, G: Gate>(
    rt: &R,
    alloc: Global,
    words: &[u32],
    log: Log,
    gate: &G,
) -> Outcome {
    let orderly = ordered(rt, alloc, log);
    let image = image(rt, alloc, words, 2);
    assert!(rt; orderly.log().pages == image.pages());
    replay_rounds(rt, alloc, orderly, &image, gate).expect(rt, "memory")
}

fn on_one_thread(rt: &impl Abort, alloc: Global, words: &[u32], log: Log) -> Outcome {
    let orderly = ordered(rt, alloc, log);
    let image = image(rt, alloc, words, 2);
    assert!(rt; orderly.log().pages == image.pages());
    replay_one(alloc, orderly, &image).expect(rt, "memory")
}

/// Begun item by item, then on to its end.
fn by_items(rt: &impl Abort, alloc: Global, words: &[u32], log: Log) -> Outcome {
    let orderly = ordered(rt, alloc, log);
    let image = image(rt, alloc, words, 2);
    assert!(rt; orderly.log().pages == image.pages());
    assert!(rt; orderly.log().streams.items().len() == 2);
    let mut stage = Stage::start(alloc, orderly, &image).expect(rt, "memory");
    assert!(rt; stage.go(1) == Went::Hold);
    assert!(rt; stage.go(0) == Went::Entry);
    assert!(rt; stage.go(1) == Went::Entry);
    stage.finish()
}

fn done(rt: &impl Abort, outcome: Outcome) -> Final {
    match outcome {
        Outcome::Done(end) => end,
        Outcome::Diverged { .. } => panic!(rt; "diverged"),
    }
}

fn same_end(a: &Final, b: &Final) -> bool {
    a.harts.items() == b.harts.items()
        && a.counts.items() == b.counts.items()
        && a.memory.items() == b.memory.items()
        && a.sent.items() == b.sent.items()
        && a.stop == b.stop
        && a.time == b.time
}

/// A log of these bytes.
fn again(rt: &impl Abort, alloc: Global, bytes: &[u8]) -> Log {
    read_log(alloc, bytes).expect(rt, "a log")
}

/// What was recorded in rounds is replayed so, and each replay comes to the recorded end.
fn three_replays_agree<R: Abort + Threads + Sync>(rt: &R, alloc: Global) -> bool {
    let r = recorded(rt, alloc, &AMOS, 2, 4000, &OpenGate);
    let bytes = bytes_of(rt, alloc, &r.log);
    let rounds = in_rounds(rt, alloc, &AMOS, again(rt, alloc, &bytes), &OpenGate);
    let one = on_one_thread(rt, alloc, &AMOS, again(rt, alloc, &bytes));
    let items = by_items(rt, alloc, &AMOS, again(rt, alloc, &bytes));
    let rounds = done(rt, rounds);
    rounds.memory.items().get(4096) == Some(&0xd0)
        && rounds.memory.items().get(4097) == Some(&7)
        && same_end(&rounds, &r.ended)
        && same_end(&rounds, &done(rt, one))
        && same_end(&rounds, &done(rt, items))
}

/// Three legs of 4,096 moves each; both harts have to be in this one at once.
fn beside_each_other<R: Abort + Threads + Sync>(rt: &R, alloc: Global, leg: u64) -> bool {
    let r = recorded(rt, alloc, &LOOPS, 2, 3 * 4096, &OpenGate);
    let gate = HoldGate::start(leg);
    let end = done(rt, in_rounds(rt, alloc, &LOOPS, r.log, &gate));
    same_end(&end, &r.ended) && !gate.ran_out()
}

/// No hart makes a move.
fn of_no_moves<R: Abort + Threads + Sync>(rt: &R, alloc: Global) -> bool {
    let r = recorded(rt, alloc, &LOOPS, 3, 0, &OpenGate);
    let end = done(rt, in_rounds(rt, alloc, &LOOPS, r.log, &OpenGate));
    end.counts.items() == [0, 0, 0].as_slice() && same_end(&end, &r.ended)
}

/// A hart that polls the lines 1 where none is up, reads page 0 and stops.
fn other_lines(rt: &impl Abort, alloc: Global) -> Log {
    let entries = vec![in alloc;
        Entry::Poll {
            count: 0,
            ord: 0,
            time: 5,
            bits: 1
        },
        Entry::Gain {
            count: 0,
            page: 0,
            seq: 0,
            mode: Mode::Read,
            waits: Waits::of(Vec::new(alloc))
        },
        Entry::Touch {
            count: 2,
            ord: 1,
            input: Input::Nothing
        },
        Entry::End { count: 3 },
    ]
    .expect(rt, "memory");
    let streams = vec![in alloc; Entries::of(entries)].expect(rt, "memory");
    Log {
        pages: 2,
        limit: 100,
        image: [0; 32],
        streams: Streams::of(streams),
        cause: Cause::Stop,
    }
}

fn diverges<R: Abort + Threads + Sync>(rt: &R, alloc: Global) -> bool {
    let log = other_lines(rt, alloc);
    match in_rounds(rt, alloc, &STOPS, log, &OpenGate) {
        Outcome::Diverged {
            hart,
            count,
            why,
            ..
        } => hart == 0 && count == 0 && why == 5,
        Outcome::Done(_) => false,
    }
}

#[test]
fn replays(rt: HostRuntime) {
    assert!(rt; three_replays_agree(&rt, rt.alloc()));
    assert!(rt; beside_each_other(&rt, rt.alloc(), 0));
    assert!(rt; beside_each_other(&rt, rt.alloc(), 2));
    assert!(rt; of_no_moves(&rt, rt.alloc()));
    assert!(rt; diverges(&rt, rt.alloc()));
}
