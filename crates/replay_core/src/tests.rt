//! Rows worked out by hand: logs whose replays were computed from the definitions.

ghost use Rattle.std.specs.Prelude.{◌≡◌, IsTrue};
ghost use Rattle.replay_core.specs.Lists.{AreHarts};

use crate::{Outcome, Stage, Told, Went, replay_list, replay_one, story};
use elf_image::{Image, read_image};
use flat_machine::{Final, Step};
use log_entry::{Cause, Entries, Entry, Log, Mode, Streams, WaitFor, Waits};
use log_format::in_range;
use log_order::{Orderly, put_in_order};
use rv_words::Input;
use std::alloc::Global;
use std::test::Fail;

/// An entry of a log; a gain in the second form waits for a yield by a hart at a count.
#[derive(Clone, Copy)]
enum Row {
    Poll(u32, u8),
    Gain(u64, u32, u32, Mode),
    GainAfter(u64, u32, Mode, u8, u64),
    Yield(u64, u32, Option<Mode>),
    Touch(u64, u32),
    End(u64),
}

/// A guest and the log of a run of it.
#[derive(Clone, Copy)]
pub(crate) struct Case {
    words: &'static [u32],
    pages: u16,
    limit: u64,
    cause: Cause,
    streams: &'static [&'static [Row]],
}

/// LUI x1; ADDI x2 = 7; SW to STOP.
static STOPS: [u32; 3] = [0x1000_00b7, 0x0070_0113, 0x0020_a423];

static SMALLEST: [&[Row]; 1] = [&[
    Row::Poll(0, 0),
    Row::Gain(0, 0, 0, Mode::Read),
    Row::Touch(2, 1),
    Row::End(3),
]];

static OTHER_LINES: [&[Row]; 1] = [&[
    Row::Poll(0, 1),
    Row::Gain(0, 0, 0, Mode::Read),
    Row::Touch(2, 1),
    Row::End(3),
]];

/// The log of the smallest guest, with this cause.
fn smallest(cause: Cause) -> Case {
    Case {
        words: &STOPS,
        pages: 1,
        limit: 100,
        cause,
        streams: &SMALLEST,
    }
}

/// The same with a line that its Poll didn't give.
pub(crate) fn other_lines() -> Case {
    Case {
        words: &STOPS,
        pages: 1,
        limit: 100,
        cause: Cause::Stop,
        streams: &OTHER_LINES,
    }
}

/// The log of the smallest guest over another guest.
pub(crate) fn other_guest() -> Case {
    Case {
        words: &RACES,
        pages: 1,
        limit: 100,
        cause: Cause::Stop,
        streams: &SMALLEST,
    }
}

/// LUI x1; ADDI x2 = 0x41; three stores to TX.
static SENDS: [u32; 5] = [
    0x1000_00b7,
    0x0410_0113,
    0x0020_a223,
    0x0020_a223,
    0x0020_a223,
];

static FAULTY: [&[Row]; 1] = [&[
    Row::Poll(0, 0),
    Row::Gain(0, 0, 0, Mode::Read),
    Row::Touch(2, 1),
    Row::Touch(3, 2),
    Row::End(4),
]];

/// The third byte was not taken.
pub(crate) fn faulty() -> Case {
    Case {
        words: &SENDS,
        pages: 1,
        limit: 100,
        cause: Cause::Fault,
        streams: &FAULTY,
    }
}

static TRAPS: [&[Row]; 1] = [&[Row::Poll(0, 0), Row::Gain(0, 0, 0, Mode::Read), Row::End(2)]];

/// An empty guest: its first word is no instruction, and its second move fetches at 0.
fn traps() -> Case {
    Case {
        words: &[],
        pages: 1,
        limit: 2,
        cause: Cause::Limit,
        streams: &TRAPS,
    }
}

/// Each hart adds 1 to the word at 0x80001000 by LW, ADDI, SW.
static RACES: [u32; 5] = [
    0x8000_10b7,
    0x0000_a103,
    0x0011_0113,
    0x0020_a023,
    0x0000_006f,
];

static LOST_ADDITION: [&[Row]; 2] = [
    &[
        Row::Poll(0, 0),
        Row::Gain(0, 0, 0, Mode::Read),
        Row::Gain(1, 1, 0, Mode::Read),
        Row::GainAfter(3, 3, Mode::Write, 1, 3),
        Row::Yield(8, 4, None),
        Row::End(8),
    ],
    &[
        Row::Poll(1, 0),
        Row::Gain(0, 0, 1, Mode::Read),
        Row::Gain(1, 1, 1, Mode::Read),
        Row::Yield(3, 2, None),
        Row::GainAfter(3, 5, Mode::Write, 0, 8),
        Row::End(8),
    ],
];

static BOTH_ADDITIONS: [&[Row]; 2] = [
    &[
        Row::Poll(0, 0),
        Row::Gain(0, 0, 0, Mode::Read),
        Row::Gain(1, 1, 0, Mode::Read),
        Row::Gain(3, 1, 1, Mode::Write),
        Row::Yield(8, 2, None),
        Row::End(8),
    ],
    &[
        Row::Poll(1, 0),
        Row::Gain(0, 0, 1, Mode::Read),
        Row::GainAfter(1, 3, Mode::Read, 0, 8),
        Row::Gain(3, 1, 4, Mode::Write),
        Row::End(8),
    ],
];

fn race(streams: &'static [&'static [Row]]) -> Case {
    Case {
        words: &RACES,
        pages: 2,
        limit: 8,
        cause: Cause::Limit,
        streams,
    }
}

/// Both harts load before either stores.
pub(crate) fn lost_addition() -> Case {
    race(&LOST_ADDITION)
}

/// Hart 0 has stored before hart 1 loads.
fn both_additions() -> Case {
    race(&BOTH_ADDITIONS)
}

/// Hart 0 reserves the word at 0x80001000 and then stores 1 to it if it still may; hart 1 loads it.
static RESERVES: [u32; 8] = [
    0xf140_22f3,
    0x8000_10b7,
    0x0002_9863,
    0x1000_a12f,
    0x1820_a1af,
    0x0000_006f,
    0x0000_a203,
    0x0000_006f,
];

static DOWNGRADE: [&[Row]; 2] = [
    &[
        Row::Poll(0, 0),
        Row::Gain(0, 0, 0, Mode::Read),
        Row::Gain(3, 1, 0, Mode::Write),
        Row::Yield(4, 1, Some(Mode::Read)),
        Row::GainAfter(4, 4, Mode::Write, 1, 8),
        Row::End(8),
    ],
    &[
        Row::Poll(1, 0),
        Row::Gain(0, 0, 1, Mode::Read),
        Row::GainAfter(3, 2, Mode::Read, 0, 4),
        Row::Yield(8, 3, None),
        Row::End(8),
    ],
];

/// Hart 0 keeps only Read of the page of its reservation.
pub(crate) fn downgrade() -> Case {
    Case {
        words: &RESERVES,
        pages: 2,
        limit: 8,
        cause: Cause::Limit,
        streams: &DOWNGRADE,
    }
}

fn gain(count: u64, page: u32, seq: u32, mode: Mode, waits: Vec<WaitFor>) -> Result<Entry, Fail> {
    if waits.len() > 7 {
        return Err(Fail::from("too many waits"));
    }
    Ok(Entry::Gain {
        count,
        page,
        seq,
        mode,
        waits: Waits::of(waits),
    })
}

fn entry(alloc: Global, row: Row) -> Result<Entry, Fail> {
    match row {
        Row::Poll(ord, bits) => Ok(Entry::Poll {
            count: 0,
            ord,
            time: 5,
            bits,
        }),
        Row::Gain(count, page, seq, mode) => gain(count, page, seq, mode, Vec::new(alloc)),
        Row::GainAfter(count, seq, mode, hart, at) => {
            let waits = vec![in alloc; WaitFor { hart, count: at }]?;
            gain(count, 1, seq, mode, waits)
        }
        Row::Yield(count, seq, left) => Ok(Entry::Yield {
            count,
            page: 1,
            seq,
            left,
        }),
        Row::Touch(count, ord) => Ok(Entry::Touch {
            count,
            ord,
            input: Input::Nothing,
        }),
        Row::End(count) => Ok(Entry::End { count }),
    }
}

fn entries(alloc: Global, rows: &[Row]) -> Result<Entries, Fail> {
    let mut stream = Vec::new(alloc);
    for row in rows {
        stream.push(entry(alloc, *row)?)?;
    }
    Ok(Entries::of(stream))
}

fn log_of(alloc: Global, case: &Case) -> Result<Log, Fail> {
    let mut streams = Vec::new(alloc);
    for rows in case.streams {
        streams.push(entries(alloc, rows)?)?;
    }
    Ok(Log {
        pages: case.pages,
        limit: case.limit,
        image: [0; 32],
        streams: Streams::of(streams),
        cause: case.cause,
    })
}

pub(crate) fn image_of(alloc: Global, case: &Case) -> Result<Image, Fail> {
    let mut bytes = Vec::new(alloc);
    for word in case.words {
        bytes.extend_from_slice(&word.to_le_bytes())?;
    }
    Ok(read_image(alloc, &bytes, case.pages.max(1).min(2))?)
}

pub(crate) fn ordered(alloc: Global, case: &Case) -> Result<Orderly, Fail> {
    let log = log_of(alloc, case)?;
    if !in_range(&log) {
        return Err(Fail::from("out of range"));
    }
    Ok(put_in_order(alloc, log)?)
}

/// What the replay of the case comes to.
fn replayed(alloc: Global, case: Case) -> Result<Outcome, Fail> {
    let orderly = ordered(alloc, &case)?;
    let image = image_of(alloc, &case)?;
    if orderly.log().pages != image.pages() {
        return Err(Fail::from("pages"));
    }
    Ok(replay_one(alloc, orderly, &image)?)
}

/// What is told of a hart of the case.
fn told(alloc: Global, case: Case, hart: u8, from: u64, to: u64) -> Result<Told, Fail> {
    let orderly = ordered(alloc, &case)?;
    let image = image_of(alloc, &case)?;
    if orderly.log().pages != image.pages() {
        return Err(Fail::from("pages"));
    }
    Ok(story(alloc, orderly, &image, hart, from, to)?)
}

/// The replay of the case before any item.
fn staged(alloc: Global, case: Case) -> Result<Stage, Fail> {
    let orderly = ordered(alloc, &case)?;
    let image = image_of(alloc, &case)?;
    if orderly.log().pages != image.pages() {
        return Err(Fail::from("pages"));
    }
    Ok(Stage::start(alloc, orderly, &image)?)
}

fn are_harts(log: &Log, list: &[u8]) -> bool
    ensures { IsTrue result → AreHarts log.now list.now }
{
    for hart in list {
        if usize::from(*hart) >= log.streams.items().len() {
            return false;
        }
    }
    true
}

/// What came of the items of a list of harts, and what the replay then comes to.
fn listed(alloc: Global, mut stage: Stage, list: &[u8]) -> Result<(Vec<Went>, Outcome), Fail> {
    if !are_harts(stage.replaying.board.log.log(), list) {
        return Err(Fail::from("no such hart"));
    }
    let answers = replay_list(alloc, &mut stage, list)?;
    Ok((answers, stage.finish()))
}

/// What is looked at of an end: the counts, the bytes sent, the word stored to STOP, and a word of page 1.
#[derive(Clone, Copy)]
pub(crate) struct Seen {
    pub(crate) counts: &'static [u64],
    pub(crate) sent: &'static [u8],
    pub(crate) stop: Option<u32>,
    pub(crate) word: &'static [u8],
}

fn is_end(end: &Final, seen: &Seen) -> bool {
    end.counts.items() == seen.counts
        && end.sent.items() == seen.sent
        && end.stop == seen.stop
        && end.time == 5
        && end.memory.items().get(4096..4100).unwrap_or(&[]) == seen.word
}

pub(crate) fn is_done(outcome: &Outcome, seen: &Seen) -> bool {
    match outcome {
        Outcome::Done(end) => is_end(end, seen),
        _ => false,
    }
}

pub(crate) fn has_diverged(outcome: &Outcome, at: u8, by: u64, rule: u8) -> bool {
    match outcome {
        Outcome::Diverged {
            hart,
            count,
            why,
            ..
        } => *hart == at && *count == by && *why == rule,
        _ => false,
    }
}

fn ends_so(alloc: Global, case: Case, seen: &Seen) -> Result<bool, Fail> {
    Ok(is_done(&replayed(alloc, case)?, seen))
}

fn diverges_so(alloc: Global, case: Case, hart: u8, count: u64, why: u8) -> Result<bool, Fail> {
    Ok(has_diverged(&replayed(alloc, case)?, hart, count, why))
}

/// The race's end, with this word.
pub(crate) fn raced(word: &'static [u8]) -> Seen {
    Seen {
        counts: &[8, 8],
        sent: &[],
        stop: None,
        word,
    }
}

#[test]
fn a_run_of_one_hart_is_done(rt: HostRuntime) -> Result<(), Fail> {
    let alloc = rt.alloc();
    let stopped = Seen {
        counts: &[3],
        sent: &[],
        stop: Some(7),
        word: &[],
    };
    assert!(rt; ends_so(alloc, smallest(Cause::Stop), &stopped)?);
    let sent = Seen {
        counts: &[4],
        sent: &[0x41, 0x41],
        stop: None,
        word: &[],
    };
    assert!(rt; ends_so(alloc, faulty(), &sent)?);
    Ok(())
}

#[test]
fn a_changed_log_diverges_by_the_rule_that_it_breaks(rt: HostRuntime) -> Result<(), Fail> {
    let alloc = rt.alloc();
    assert!(rt; diverges_so(alloc, other_lines(), 0, 0, 5)?);
    assert!(rt; diverges_so(alloc, smallest(Cause::Limit), 0, 3, 7)?);
    assert!(rt; diverges_so(alloc, other_guest(), 0, 2, 3)?);
    Ok(())
}

#[test]
fn harts_that_race_end_as_their_log_says(rt: HostRuntime) -> Result<(), Fail> {
    let alloc = rt.alloc();
    assert!(rt; ends_so(alloc, lost_addition(), &raced(&[1, 0, 0, 0]))?);
    assert!(rt; ends_so(alloc, both_additions(), &raced(&[2, 0, 0, 0]))?);
    assert!(rt; ends_so(alloc, downgrade(), &raced(&[0, 0, 0, 0]))?);
    Ok(())
}

/// The order in which the race was recorded, the order of the least hart that can go, and that of the greatest.
static ORDERS: [[u8; 26]; 3] = [
    [
        0, 0, 1, 1, 0, 0, 1, 1, 0, 0, 1, 1, 1, 0, 0, 0, 0, 0, 0, 0, 1, 1, 1, 1, 1, 1,
    ],
    [
        0, 0, 0, 0, 0, 0, 1, 1, 1, 1, 1, 1, 1, 0, 0, 0, 0, 0, 0, 0, 1, 1, 1, 1, 1, 1,
    ],
    [
        0, 1, 0, 1, 1, 0, 0, 1, 1, 1, 1, 0, 0, 0, 0, 0, 0, 0, 0, 0, 1, 1, 1, 1, 1, 1,
    ],
];

fn orders() -> &'static [[u8; 26]] {
    &ORDERS
}

/// Hart 0 to its end, and then hart 1.
static ONE_BY_ONE: [u8; 25] = [
    0, 0, 0, 0, 0, 0, 0, 0, 0, 0, 0, 0, 0, 1, 1, 1, 1, 1, 1, 1, 1, 1, 1, 1, 1,
];

fn one_by_one() -> &'static [u8] {
    &ONE_BY_ONE
}

/// Each item of the order is made, and the race then ends with this word.
fn is_full(alloc: Global, case: Case, order: &[u8], word: &'static [u8]) -> Result<bool, Fail> {
    let (answers, outcome) = listed(alloc, staged(alloc, case)?, order)?;
    let made = answers
        .iter()
        .all(|went| matches!(went, Went::Moved | Went::Entry));
    Ok(made && is_done(&outcome, &raced(word)))
}

#[test]
fn full_orders_end_in_one_state(rt: HostRuntime) -> Result<(), Fail> {
    let alloc = rt.alloc();
    for order in orders() {
        assert!(rt; is_full(alloc, lost_addition(), order, &[1, 0, 0, 0])?);
    }
    assert!(rt; is_full(alloc, both_additions(), one_by_one(), &[2, 0, 0, 0])?);
    Ok(())
}

#[test]
fn a_hart_that_holds_changes_nothing(rt: HostRuntime) -> Result<(), Fail> {
    let alloc = rt.alloc();
    let (answers, outcome) = listed(alloc, staged(alloc, lost_addition())?, &[1, 0, 1, 1])?;
    let went = [Went::Hold, Went::Entry, Went::Entry, Went::Hold];
    assert_eq!(rt; answers.as_slice(), went.as_slice());
    assert!(rt; is_done(&outcome, &raced(&[1, 0, 0, 0])));
    Ok(())
}

#[test]
fn a_stage_goes_by_its_harts(rt: HostRuntime) -> Result<(), Fail> {
    let alloc = rt.alloc();
    let mut stage = staged(alloc, smallest(Cause::Stop))?;
    if stage.replaying.board.log.log().streams.items().len() == 0 {
        return Err(Fail::from("no hart"));
    }
    assert_eq!(rt; stage.go(0), Went::Entry);
    assert!(rt; matches!(stage.finish(), Outcome::Done(_)));
    Ok(())
}

fn is_step(
    steps: &[Step],
    place: usize,
    pc: u32,
    word: Option<u32>,
    cause: Option<u32>,
    wrote: Option<(u8, u32)>,
) -> bool {
    match steps.get(place) {
        Some(step) => {
            step.pc == pc && step.word == word && step.cause == cause && step.wrote == wrote
        }
        None => false,
    }
}

fn number(alloc: Global, case: Case, hart: u8, from: u64, to: u64) -> Result<usize, Fail> {
    Ok(told(alloc, case, hart, from, to)?.steps.items().len())
}

#[test]
fn the_story_of_a_hart_that_stops(rt: HostRuntime) -> Result<(), Fail> {
    let alloc = rt.alloc();
    let case = smallest(Cause::Stop);
    let told = told(alloc, case, 0, 0, 9)?;
    let steps = told.steps.items();
    assert!(rt; steps.len() == 3 && matches!(told.outcome, Outcome::Done(_)));
    let (first, second) = (Some((1, 0x1000_0000)), Some((2, 7)));
    assert!(rt; is_step(steps, 0, 0x8000_0000, Some(0x1000_00b7), None, first));
    assert!(rt; is_step(steps, 1, 0x8000_0004, Some(0x0070_0113), None, second));
    assert!(rt; is_step(steps, 2, 0x8000_0008, Some(0x0020_a423), None, None));
    assert_eq!(rt; number(alloc, case, 0, 1, 2)?, 1);
    assert_eq!(rt; number(alloc, case, 0, 2, 2)?, 0);
    assert_eq!(rt; number(alloc, case, 7, 0, 3)?, 0);
    Ok(())
}

#[test]
fn stories_of_traps_and_of_a_store_that_fails(rt: HostRuntime) -> Result<(), Fail> {
    let alloc = rt.alloc();
    let trapped = told(alloc, traps(), 0, 0, 2)?;
    let steps = trapped.steps.items();
    assert!(rt; is_step(steps, 0, 0x8000_0000, Some(0), Some(2), None));
    assert!(rt; is_step(steps, 1, 0, None, Some(1), None));
    let reserved = told(alloc, downgrade(), 0, 4, 5)?;
    let steps = reserved.steps.items();
    assert!(rt; is_step(steps, 0, 0x8000_0010, Some(0x1820_a1af), None, Some((3, 1))));
    Ok(())
}
