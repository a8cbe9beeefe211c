//! Turns by hand. Words were encoded by an assembler of RISC-V; rows were worked out by the rules.

ghost use Rattle.std.specs.Prelude.{◌≡◌, ◌<◌, ◌≤◌, Some};
ghost use Rattle.crew_parts.specs.Boards.{until_by, until_of};
ghost use Rattle.crew_parts.specs.Parts.{IsPart};
ghost use Rattle.crew_core.specs.Orders.{told};
ghost use Rattle.crew_core.specs.Hands.{HasHand};

use crate::{Board, Order, Recorded};
use elf_image::{Image, read_image};
use flat_machine::Final;
use hart_run::HartRun;
use log_entry::{Cause, Entries, Entry, Mode, WaitFor};
use outside::{Asked, MemClock, MemConsole};
use rv_words::Input;
use std::alloc::Global;
use std::marker::Model;
use std::process::Abort;
use std::test::Fail;

pub(crate) fn image_of(alloc: Global, words: &[u32], pages: u16) -> Result<Image, Fail> {
    let mut bytes = Vec::new(alloc);
    for word in words {
        bytes.extend_from_slice(&word.to_le_bytes())?;
    }
    Ok(read_image(alloc, &bytes, pages.max(1).min(2))?)
}

// Up to where a hart may move that was told this at a count.
fn reach(order: Order, count: u64) -> u64
    ensures { result ≡ until_by count (Some (told order)) }
{
    match order {
        Order::Go { until } => until,
        _ => count,
    }
}

// No further than this, and no more than so many moves away.
fn aim(count: u64, until: u64, most: u64) -> u64
    requires { count ≤ until }
    ensures least { count ≤ result }
    ensures most { result ≤ until }
{
    until.min(count.saturating_add(most))
}

// The hart's run moves as it was told, and has its turn. Beside the order it is told up to where it may move now.
fn hand(
    rt: &impl Abort,
    alloc: Global,
    board: &mut Board<MemConsole, MemClock>,
    run: &mut HartRun,
    hart: u8,
    until: u64,
    most: u64,
) -> (Order, u64)
    requires hart { hart < board.old.harts }
    requires part { IsPart board.old hart run.old }
    requires until { until_of board.old hart ≡ until }
    ensures { HasHand board.old board.new hart run.new result.1 }
{
    let _ = board.harts();
    let target = aim(run.count(), until, most);
    let Ok(()) = board.prepare(alloc) else {
        panic!(rt; "memory")
    };
    let _ = board.harts();
    let _ = run.advance(target);
    let order = board.turn(run);
    let _ = board.harts();
    (order, reach(order, run.count()))
}

/// A board with the runs of its harts, and up to where each may move.
#[derive(Drop)]
pub(crate) struct Table {
    pub board: Board<MemConsole, MemClock>,
    runs: Vec<HartRun>,
    untils: Vec<u64>,
}

impl Model for Table {
    ghost use Rattle.crew_parts.specs.Boards as boards;
    ghost use Rattle.crew_core.specs.Hands.{AreHanded};

    ghost Value = { boards.Plain };

    ghost view = { λ t. t.board };

    ghost invariant = { λ t. AreHanded t.board t.runs.items t.untils.items };
}

// A board of one hart or of two, with a log of 1,024 bytes or of so many.
pub(crate) fn begun(
    alloc: Global,
    image: &Image,
    harts: u8,
    limit: u32,
    room: u16,
    console: MemConsole,
) -> Result<Table, Fail> {
    let harts = harts.max(1).min(2);
    let room = u64::from(room).max(1024);
    let clock = MemClock::start(5, 0);
    match Board::start(alloc, image, harts, u64::from(limit), room, console, clock) {
        Ok(made) => {
            let (board, runs) = made;
            let untils = Vec::from_elem(alloc, 0u64, usize::from(harts))?;
            Ok(Table {
                board,
                runs,
                untils,
            })
        }
        Err(_) => Err(Fail::from("memory")),
    }
}

// A hart moves, no more than so often, and has its turn.
pub(crate) fn step(
    rt: &impl Abort,
    alloc: Global,
    table: &mut Table,
    hart: u8,
    most: u64,
) -> Order {
    let harts = table.board.harts();
    assert!(rt; hart < harts);
    let place = usize::from(hart);
    let until = table.untils[place];
    let (order, next) = hand(
        rt,
        alloc,
        &mut table.board,
        &mut table.runs[place],
        hart,
        until,
        most,
    );
    table.untils[place] = next;
    order
}

// Each turn is of a hart, which makes no more than so many moves, and is told this then. At the end the board is over.
fn follow(rt: &impl Abort, alloc: Global, table: &mut Table, turns: &[(u8, u64, Order)]) -> bool {
    for (hart, most, order) in turns {
        if step(rt, alloc, table, *hart, *most) != *order {
            return false;
        }
    }
    table.board.over()
}

pub(crate) fn finished(table: Table) -> Option<Recorded<MemConsole, MemClock>> {
    let Table { board, runs, .. } = table;
    board.finish(runs).ok()
}

/// An entry as rows tell it: its count; its page and number or its ordinal; a mode; the hart and count that a Gain
/// comes behind.
#[derive(Clone, Copy)]
enum Row {
    Poll(u64, u32),
    Gain(u64, u32, u32, Mode),
    GainBehind(u64, u32, u32, Mode, u8, u64),
    Yield(u64, u32, u32, Option<Mode>),
    Touch(u64, u32),
    End(u64),
}

fn is_row(entry: &Entry, row: Row) -> bool {
    match (entry, row) {
        (
            Entry::Poll {
                count,
                ord,
                time,
                bits,
            },
            Row::Poll(at, place),
        ) => *count == at && *ord == place && *time == 5 && *bits == 0,
        (
            Entry::Gain {
                count,
                page,
                seq,
                mode,
                waits,
            },
            Row::Gain(at, of, place, taken),
        ) => *count == at
            && *page == of
            && *seq == place
            && *mode == taken
            && waits.items().is_empty(),
        (
            Entry::Gain {
                count,
                page,
                seq,
                mode,
                waits,
            },
            Row::GainBehind(at, of, place, taken, hart, behind),
        ) => {
            let wait = WaitFor {
                hart,
                count: behind,
            };
            *count == at
                && *page == of
                && *seq == place
                && *mode == taken
                && waits.items() == [wait].as_slice()
        }
        (
            Entry::Yield {
                count,
                page,
                seq,
                left,
            },
            Row::Yield(at, of, place, rest),
        ) => *count == at && *page == of && *seq == place && *left == rest,
        (Entry::Touch { count, ord, input }, Row::Touch(at, place)) => {
            *count == at && *ord == place && *input == Input::Nothing
        }
        (Entry::End { count }, Row::End(at)) => *count == at,
        _ => false,
    }
}

fn are_rows(entries: &[Entry], rows: &[Row]) -> bool {
    if entries.len() != rows.len() {
        return false;
    }
    for (entry, row) in entries.iter().zip(rows) {
        if !is_row(entry, *row) {
            return false;
        }
    }
    true
}

fn are_streams(streams: &[Entries], rows: &[&[Row]]) -> bool {
    if streams.len() != rows.len() {
        return false;
    }
    for (stream, rows) in streams.iter().zip(rows) {
        if !are_rows(stream.items(), rows) {
            return false;
        }
    }
    true
}

/// What a recording comes to: the rows of each hart, the cause, the journal and the turns.
#[derive(Clone, Copy)]
struct Told {
    streams: &'static [&'static [Row]],
    cause: Cause,
    journal: &'static [(u8, u32)],
    turns: &'static [(u8, u32)],
}

fn is_told(recorded: &Recorded<MemConsole, MemClock>, told: &Told) -> bool {
    are_streams(recorded.log.streams.items(), told.streams)
        && recorded.log.cause == told.cause
        && recorded.ended.cause == told.cause
        && recorded.journal.items() == told.journal
        && recorded.turns.items() == told.turns
}

// A console that answers Nothing, and fails in these calls.
pub(crate) fn quiet(alloc: Global, fails: &[u64]) -> Result<MemConsole, Fail> {
    Ok(MemConsole::start(alloc, &[], Asked::Nothing, 100, fails)?)
}

/// A guest on a board, the turns that its harts are given, and what it comes to.
#[derive(Clone, Copy)]
struct Case {
    words: &'static [u32],
    pages: u16,
    harts: u8,
    limit: u8,
    turns: &'static [(u8, u64, Order)],
    told: Told,
}

// The state at the end, where all is as told.
fn ended(
    rt: &impl Abort,
    alloc: Global,
    case: &Case,
    fails: &[u64],
) -> Result<Option<Final>, Fail> {
    let image = image_of(alloc, case.words, case.pages)?;
    let console = quiet(alloc, fails)?;
    let mut table = begun(
        alloc,
        &image,
        case.harts,
        u32::from(case.limit),
        65535,
        console,
    )?;
    let over = follow(rt, alloc, &mut table, case.turns);
    match finished(table) {
        Some(recorded) => {
            if over && is_told(&recorded, &case.told) {
                return Ok(Some(recorded.ended));
            }
            Ok(None)
        }
        None => Ok(None),
    }
}

/// What is looked at of an end: the counts, the word stored to STOP, the word at 0x80001000, and x3 of a hart.
#[derive(Clone, Copy)]
struct Seen {
    counts: &'static [u64],
    stop: Option<u32>,
    word: &'static [u8],
    hart: usize,
    x3: u32,
}

fn x3_of(end: &Final, hart: usize) -> Option<u32> {
    Some(end.harts.items().get(hart)?.reg(3))
}

fn is_seen(end: &Option<Final>, seen: &Seen) -> bool {
    match end {
        Some(end) => {
            end.counts.items() == seen.counts
                && end.stop == seen.stop
                && end.memory.items().get(4096..4100).unwrap_or(&[]) == seen.word
                && x3_of(end, seen.hart) == Some(seen.x3)
        }
        None => false,
    }
}

// lui x1, 0x10000; addi x2, x0, 7; sw x2, 8(x1): the store to STOP.
const STOPS: [u32; 3] = [0x1000_00b7, 0x0070_0113, 0x0020_a423];

const STOP: Case = Case {
    words: &STOPS,
    pages: 1,
    harts: 1,
    limit: 100,
    turns: &[(0, 100, Order::Go { until: 100 }), (0, 100, Order::Rest)],
    told: Told {
        streams: &[&[
            Row::Poll(0, 0),
            Row::Gain(0, 0, 0, Mode::Read),
            Row::Touch(2, 1),
            Row::End(3),
        ]],
        cause: Cause::Stop,
        journal: &[(0, 2), (0, 3)],
        turns: &[(0, 0), (0, 2)],
    },
};

#[test]
fn a_store_to_stop_ends_a_run(rt: HostRuntime) -> Result<(), Fail> {
    let seen = Seen {
        counts: &[3],
        stop: Some(7),
        word: &[],
        hart: 0,
        x3: 0,
    };
    assert!(rt; is_seen(&ended(&rt, rt.alloc(), &STOP, &[])?, &seen));
    Ok(())
}

// lui x1, 0x80001; lw x2, 0(x1); addi x2, x2, 1; sw x2, 0(x1); jal to itself: each hart adds 1 to one word.
const RACES: [u32; 5] = [
    0x8000_10b7,
    0x0000_a103,
    0x0011_0113,
    0x0020_a023,
    0x0000_006f,
];

const RACE: Case = Case {
    words: &RACES,
    pages: 2,
    harts: 2,
    limit: 8,
    turns: &[
        (0, 8, Order::Go { until: 8 }),
        (1, 8, Order::Go { until: 8 }),
        (0, 8, Order::Go { until: 8 }),
        (1, 8, Order::Go { until: 8 }),
        (0, 2, Order::Hold { page: 1, other: 1 }),
        (1, 2, Order::Hold { page: 1, other: 0 }),
        (0, 8, Order::Go { until: 8 }),
        (0, 8, Order::Rest),
        (1, 8, Order::Go { until: 8 }),
        (1, 8, Order::Rest),
    ],
    told: Told {
        streams: &[
            &[
                Row::Poll(0, 0),
                Row::Gain(0, 0, 0, Mode::Read),
                Row::Gain(1, 1, 0, Mode::Read),
                Row::GainBehind(3, 1, 3, Mode::Write, 1, 3),
                Row::Yield(8, 1, 4, None),
                Row::End(8),
            ],
            &[
                Row::Poll(0, 1),
                Row::Gain(0, 0, 1, Mode::Read),
                Row::Gain(1, 1, 1, Mode::Read),
                Row::Yield(3, 1, 2, None),
                Row::GainBehind(3, 1, 5, Mode::Write, 0, 8),
                Row::End(8),
            ],
        ],
        cause: Cause::Limit,
        journal: &[
            (0, 2),
            (1, 2),
            (0, 2),
            (1, 2),
            (0, 2),
            (1, 3),
            (0, 1),
            (0, 6),
            (1, 1),
            (1, 5),
        ],
        turns: &[
            (0, 0),
            (1, 0),
            (0, 1),
            (1, 1),
            (0, 2),
            (1, 2),
            (0, 0),
            (0, 5),
            (1, 0),
            (1, 5),
        ],
    },
};

#[test]
fn harts_that_race_wait_for_each_other(rt: HostRuntime) -> Result<(), Fail> {
    let seen = Seen {
        counts: &[8, 8],
        stop: None,
        word: &[1, 0, 0, 0],
        hart: 0,
        x3: 0,
    };
    assert!(rt; is_seen(&ended(&rt, rt.alloc(), &RACE, &[])?, &seen));
    Ok(())
}

// Hart 0 reserves a word and stores to it if it still may; hart 1 loads the word.
const RESERVES: [u32; 8] = [
    0xf140_22f3,
    0x8000_10b7,
    0x0002_9863,
    0x1000_a12f,
    0x1820_a1af,
    0x0000_006f,
    0x0000_a203,
    0x0000_006f,
];

const DOWN: Case = Case {
    words: &RESERVES,
    pages: 2,
    harts: 2,
    limit: 8,
    turns: &[
        (0, 8, Order::Go { until: 8 }),
        (0, 3, Order::Go { until: 8 }),
        (1, 8, Order::Go { until: 8 }),
        (1, 8, Order::Hold { page: 1, other: 0 }),
        (0, 1, Order::Hold { page: 1, other: 1 }),
        (1, 8, Order::Go { until: 8 }),
        (1, 8, Order::Rest),
        (0, 8, Order::Go { until: 8 }),
        (0, 8, Order::Rest),
    ],
    told: Told {
        streams: &[
            &[
                Row::Poll(0, 0),
                Row::Gain(0, 0, 0, Mode::Read),
                Row::Gain(3, 1, 0, Mode::Write),
                Row::Yield(4, 1, 1, Some(Mode::Read)),
                Row::GainBehind(4, 1, 4, Mode::Write, 1, 8),
                Row::End(8),
            ],
            &[
                Row::Poll(0, 1),
                Row::Gain(0, 0, 1, Mode::Read),
                Row::GainBehind(3, 1, 2, Mode::Read, 0, 4),
                Row::Yield(8, 1, 3, None),
                Row::End(8),
            ],
        ],
        cause: Cause::Limit,
        journal: &[
            (0, 2),
            (0, 4),
            (1, 2),
            (1, 3),
            (0, 2),
            (1, 1),
            (1, 6),
            (0, 1),
            (0, 4),
        ],
        turns: &[
            (0, 0),
            (0, 3),
            (1, 0),
            (1, 3),
            (0, 1),
            (1, 0),
            (1, 5),
            (0, 0),
            (0, 4),
        ],
    },
};

#[test]
fn a_downgrade_ends_a_reservation(rt: HostRuntime) -> Result<(), Fail> {
    let seen = Seen {
        counts: &[8, 8],
        stop: None,
        word: &[0, 0, 0, 0],
        hart: 0,
        x3: 1,
    };
    assert!(rt; is_seen(&ended(&rt, rt.alloc(), &DOWN, &[])?, &seen));
    Ok(())
}

// Hart 0 stores an addition over the jump that hart 1 runs.
const WRITES: [u32; 9] = [
    0xf140_22f3,
    0x0002_9a63,
    0x8000_00b7,
    0x01c0_a103,
    0x0020_ac23,
    0x0000_006f,
    0x0000_006f,
    0x0070_0193,
    0x0000_006f,
];

const REWRITE: Case = Case {
    words: &WRITES,
    pages: 1,
    harts: 2,
    limit: 12,
    turns: &[
        (0, 12, Order::Go { until: 12 }),
        (1, 12, Order::Go { until: 12 }),
        (0, 12, Order::Hold { page: 0, other: 1 }),
        (1, 4, Order::Hold { page: 0, other: 0 }),
        (0, 12, Order::Go { until: 12 }),
        (0, 1, Order::Go { until: 12 }),
        (1, 12, Order::Go { until: 12 }),
        (1, 12, Order::Rest),
        (0, 12, Order::Rest),
    ],
    told: Told {
        streams: &[
            &[
                Row::Poll(0, 0),
                Row::Gain(0, 0, 0, Mode::Read),
                Row::GainBehind(4, 0, 3, Mode::Write, 1, 4),
                Row::Yield(5, 0, 4, Some(Mode::Read)),
                Row::End(12),
            ],
            &[
                Row::Poll(0, 1),
                Row::Gain(0, 0, 1, Mode::Read),
                Row::Yield(4, 0, 2, None),
                Row::GainBehind(4, 0, 5, Mode::Read, 0, 5),
                Row::End(12),
            ],
        ],
        cause: Cause::Limit,
        journal: &[
            (0, 2),
            (1, 2),
            (0, 4),
            (1, 5),
            (0, 1),
            (0, 2),
            (1, 1),
            (1, 8),
            (0, 7),
        ],
        turns: &[
            (0, 0),
            (1, 0),
            (0, 4),
            (1, 4),
            (0, 0),
            (0, 1),
            (1, 0),
            (1, 8),
            (0, 7),
        ],
    },
};

#[test]
fn code_that_is_written_is_fetched_anew(rt: HostRuntime) -> Result<(), Fail> {
    let seen = Seen {
        counts: &[12, 12],
        stop: None,
        word: &[],
        hart: 1,
        x3: 7,
    };
    assert!(rt; is_seen(&ended(&rt, rt.alloc(), &REWRITE, &[])?, &seen));
    Ok(())
}

// lui x1, 0x10000; sw x2, 4(x1): a store to TX.
const SENDS: [u32; 2] = [0x1000_00b7, 0x0020_a223];

const FAULT: Case = Case {
    words: &SENDS,
    pages: 1,
    harts: 1,
    limit: 100,
    turns: &[(0, 0, Order::Go { until: 100 }), (0, 100, Order::Rest)],
    told: Told {
        streams: &[&[Row::Poll(0, 0), Row::Gain(0, 0, 0, Mode::Read), Row::End(1)]],
        cause: Cause::Fault,
        journal: &[(0, 2), (0, 1)],
        turns: &[(0, 0), (0, 1)],
    },
};

#[test]
fn a_console_that_fails_closes_the_board(rt: HostRuntime) -> Result<(), Fail> {
    let seen = Seen {
        counts: &[1],
        stop: None,
        word: &[],
        hart: 0,
        x3: 0,
    };
    assert!(rt; is_seen(&ended(&rt, rt.alloc(), &FAULT, &[0])?, &seen));
    Ok(())
}

// lui x1, 0x10000; sw x2, 4(x1) to TX; jal back to it.
const SENDS_ON: [u32; 3] = [0x1000_00b7, 0x0020_a223, 0xffdf_f06f];

#[test]
fn a_full_log_closes_the_board(rt: HostRuntime) -> Result<(), Fail> {
    let alloc = rt.alloc();
    let image = image_of(alloc, &SENDS_ON, 1)?;
    let mut table = begun(alloc, &image, 1, 200, 0, quiet(alloc, &[])?)?;
    for _ in 0..42 {
        assert!(rt; step(&rt, alloc, &mut table, 0, 200) == Order::Go { until: 200 });
        assert!(rt; !table.board.over());
    }
    assert!(rt; follow(&rt, alloc, &mut table, &[(0, 200, Order::Rest)]));
    let recorded = finished(table);
    assert!(rt; recorded.is_some_and(|recorded| is_full(&recorded)));
    Ok(())
}

// 41 bytes were sent: with the entry of one more and an End the log would take 1,025 bytes.
fn is_full(recorded: &Recorded<MemConsole, MemClock>) -> bool {
    recorded.log.cause == Cause::Full
        && recorded.ended.counts.items() == [83].as_slice()
        && recorded.ended.sent.items().len() == 41
        && recorded.journal.items().len() == 43
}

fn cut(table: &mut Table) {
    table.board.cut();
}

fn abandon(table: &mut Table) {
    table.board.abandon();
}

#[test]
fn a_board_is_cut_or_abandoned(rt: HostRuntime) -> Result<(), Fail> {
    let alloc = rt.alloc();
    let image = image_of(alloc, &STOPS, 1)?;
    let mut table = begun(alloc, &image, 1, 100, 0, quiet(alloc, &[])?)?;
    assert!(rt; !table.board.over());
    cut(&mut table);
    assert!(rt; follow(&rt, alloc, &mut table, &[(0, 0, Order::Rest)]));
    let recorded = finished(table);
    assert!(rt; recorded.is_some_and(|recorded| is_told(&recorded, &CUT)));
    let mut further = begun(alloc, &image, 1, 100, 0, quiet(alloc, &[])?)?;
    abandon(&mut further);
    assert!(rt; further.board.over());
    assert!(rt; finished(further).is_none());
    Ok(())
}

const CUT: Told = Told {
    streams: &[&[Row::End(0)]],
    cause: Cause::Cut,
    journal: &[],
    turns: &[(0, 0)],
};
