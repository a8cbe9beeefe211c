//! Logs that get full.

use crate::Recorded;
use crate::tests::{begun, finished, image_of, quiet, step};
use log_entry::Cause;
use outside::{MemClock, MemConsole};
use std::alloc::Global;
use std::process::Abort;
use std::test::Fail;

/// A board whose log gets full behind so many turns, of the harts by turns, each of so many moves at most.
struct Filled {
    words: &'static [u32],
    harts: u8,
    limit: u32,
    room: u16,
    turns: u8,
    most: u64,
    counts: &'static [u64],
    // the entries of each hart, with its End
    entries: &'static [usize],
    journal: usize,
    rows: usize,
}

// jal to itself: the 43rd Poll is refused.
const POLLS: Filled = Filled {
    words: &[0x0000_006f],
    harts: 1,
    limit: 1_000_000,
    room: 1024,
    turns: 43,
    most: 4096,
    counts: &[172_032],
    entries: &[44],
    journal: 43,
    rows: 43,
};

// lui x1, 0x80001; sw x2, 0(x1); jal back to it: two harts hand a page over to each other. A Yield is refused.
const YIELDS: Filled = Filled {
    words: &[0x8000_10b7, 0x0020_a023, 0xffdf_f06f],
    harts: 2,
    limit: 200,
    room: 1024,
    turns: 65,
    most: 1,
    counts: &[22, 21],
    entries: &[24, 23],
    journal: 65,
    rows: 65,
};

// With two bytes more it is the Gain behind it.
const GAINS: Filled = Filled {
    words: &[0x8000_10b7, 0x0020_a023, 0xffdf_f06f],
    harts: 2,
    limit: 200,
    room: 1026,
    turns: 66,
    most: 1,
    counts: &[22, 21],
    entries: &[25, 23],
    journal: 65,
    rows: 66,
};

fn is_filled(recorded: &Recorded<MemConsole, MemClock>, case: &Filled) -> bool {
    let entries = recorded
        .log
        .streams
        .items()
        .iter()
        .map(|stream| stream.items().len());
    recorded.log.cause == Cause::Full
        && recorded.ended.counts.items() == case.counts
        && entries.eq(case.entries.iter().copied())
        && recorded.journal.items().len() == case.journal
        && recorded.turns.items().len() == case.rows
}

fn fills(rt: &impl Abort, alloc: Global, case: &Filled) -> Result<bool, Fail> {
    let image = image_of(alloc, case.words, 2)?;
    let mut table = begun(
        alloc,
        &image,
        case.harts,
        case.limit,
        case.room,
        quiet(alloc, &[])?,
    )?;
    for turn in 0..case.turns {
        if table.board.over() {
            return Ok(false);
        }
        let _ = step(rt, alloc, &mut table, turn % case.harts.max(1), case.most);
    }
    let over = table.board.over();
    Ok(over && finished(table).is_some_and(|recorded| is_filled(&recorded, case)))
}

#[test]
fn a_log_is_full_at_a_poll_a_yield_or_a_gain(rt: HostRuntime) -> Result<(), Fail> {
    assert!(rt; fills(&rt, rt.alloc(), &POLLS)?);
    assert!(rt; fills(&rt, rt.alloc(), &YIELDS)?);
    assert!(rt; fills(&rt, rt.alloc(), &GAINS)?);
    Ok(())
}
