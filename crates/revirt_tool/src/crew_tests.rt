//! Recordings of several harts by the top call, over devices in memory.

use crate::replay_tests::is_replayed;
use crate::tests::{
    Row, bytes_of, comes_true, has_lines, has_word, plain_row, race_guest, round, sends, serve,
    smallest,
};
use std::alloc::Global;
use std::sync::Wait;
use std::test::Fail;
use std::thread::Threads;

/// Each of two harts adds 1 to the word behind the first page 1,000 times, by AMOADD.W, and then runs in a circle.
pub(crate) fn sum_guest() -> &'static [u32] {
    &[
        0x8000_10b7,
        0x3e80_0193,
        0x0010_0113,
        0x0020_a02f,
        0xfff1_8193,
        0xfe01_9ce3,
        0x0000_006f,
    ]
}

/// Runs of several harts: one of no moves; a race, in which hart 1 is the first to gain the word's page, since round 1
/// begins with it; one that hart 1 stops for the same reason; and one in which the third store to TX fails, which is
/// hart 3's.
fn crews() -> [Row; 4] {
    let mut none = plain_row(
        "record g l --harts 2 --pages 1 --limit 0",
        round(),
        0,
        "cause limit\nhart 0 count 0 pc 80000000\nhart 1 count 0 pc 80000000",
    );
    none.length = 75;
    none.entries = "e0 e0";
    let mut race = plain_row(
        "record g l --harts 2 --pages 2 --limit 8 --rounds",
        race_guest(),
        0,
        "cause limit\nhart 0 count 8 pc 80000010\nhart 1 count 8 pc 80000010",
    );
    race.length = 271;
    race.entries = "p0:0.5.0 g0:0.0r g1:1.1r g3:1.3w y8 e8 p0:1.5.0 g0:0.1r g1:1.0r y3 g3:1.5w e8";
    let mut stop = plain_row(
        "record g l --harts 4 --pages 1 --limit 100 --rounds",
        smallest(),
        0,
        "cause stop 7\nhart 0 count 2 pc 80000008\nhart 1 count 3 pc 8000000c\nhart 2 count 2 pc 80000008\nhart 3 count 2 pc 80000008",
    );
    stop.length = 279;
    stop.entries =
        "p0:0.5.0 g0:0.0r e2 p0:1.5.0 g0:0.1r t2:4.n e3 p0:2.5.0 g0:0.2r e2 p0:3.5.0 g0:0.3r e2";
    let mut fault = plain_row(
        "record g l --harts 4 --pages 1 --limit 100 --rounds",
        sends(),
        5,
        "cause fault\nhart 0 count 2 pc 80000008\nhart 1 count 3 pc 8000000c\nhart 2 count 3 pc 8000000c\nhart 3 count 2 pc 80000008",
    );
    fault.console_fails = &[2];
    fault.length = 301;
    fault.entries =
        "p0:0.5.0 g0:0.0r e2 p0:1.5.0 g0:0.1r t2:4.n e3 p0:2.5.0 g0:0.2r t2:5.n e3 p0:3.5.0 g0:0.3r e2";
    [none, race, stop, fault]
}

#[test]
fn runs_of_several_harts_are_replayed(rt: HostRuntime) -> Result<(), Fail> {
    for row in crews() {
        assert!(rt; is_replayed(&rt, rt.alloc(), &row)?);
    }
    Ok(())
}

#[test]
fn several_harts_are_recorded(rt: HostRuntime) -> Result<(), Fail> {
    for row in crews() {
        assert!(rt; comes_true(&rt, rt.alloc(), &row)?);
    }
    Ok(())
}

/// Each of two harts adds 1 to the word behind the first page 1,000 times, by a load, an addition and a store, and then
/// runs in a circle.
fn racing_sum_guest() -> &'static [u32] {
    &[
        0x8000_10b7,
        0x3e80_0193,
        0x0000_a103,
        0x0011_0113,
        0x0020_a023,
        0xfff1_8193,
        0xfe01_98e3,
        0x0000_006f,
    ]
}

/// Whether so many bytes are held.
fn is_long(held: Option<&[u8]>, length: usize) -> bool {
    match held {
        Some(bytes) => bytes.len() == length,
        None => false,
    }
}

/// Whether a run to the limit leaves this word, and a log of this length.
fn leaves<T: Threads + Wait + Sync>(
    rt: &T,
    alloc: Global,
    row: &Row,
    word: &[u8],
) -> Result<bool, Fail> {
    let file = bytes_of(alloc, row.guest)?;
    let ran = serve(rt, alloc, row, file.as_slice())?;
    let kept = is_long(ran.shelf.held("l"), row.length) && has_word(ran.shelf.held("d"), word);
    Ok(kept && ran.status == row.status && has_lines(ran.report.written(), row.lines))
}

/// In rounds atomic additions of two harts add up to 2,000, and racing ones come to 1,000.
#[test]
fn additions_of_two_harts_come_to_their_sum(rt: HostRuntime) -> Result<(), Fail> {
    let words = "record g l --harts 2 --pages 2 --limit 4000 --dump d --rounds";
    let mut atomic = plain_row(words, sum_guest(), 0, "cause limit");
    atomic.length = 212;
    assert!(rt; leaves(&rt, rt.alloc(), &atomic, &[0xd0, 0x07, 0, 0])?);
    let words = "record g l --harts 2 --pages 2 --limit 6000 --dump d --rounds";
    let mut racing = plain_row(words, racing_sum_guest(), 0, "cause limit");
    racing.length = 441;
    assert!(rt; leaves(&rt, rt.alloc(), &racing, &[0xe8, 0x03, 0, 0])?);
    assert!(rt; is_replayed(&rt, rt.alloc(), &racing)?);
    Ok(())
}

/// Whether a run is recorded, and a second time with the same log.
fn keeps_the_same<T: Threads + Wait + Sync>(
    rt: &T,
    alloc: Global,
    row: &Row,
) -> Result<bool, Fail> {
    let file = bytes_of(alloc, row.guest)?;
    let first = serve(rt, alloc, row, file.as_slice())?;
    let second = serve(rt, alloc, row, file.as_slice())?;
    Ok(first.shelf.held("l").is_some() && first.shelf.held("l") == second.shelf.held("l"))
}

#[test]
fn one_run_recorded_twice_has_one_log(rt: HostRuntime) -> Result<(), Fail> {
    let words = "record g l --harts 2 --pages 2 --limit 8 --rounds";
    let rounds = plain_row(words, race_guest(), 0, "");
    assert!(rt; keeps_the_same(&rt, rt.alloc(), &rounds)?);
    Ok(())
}

/// With room for 1,024 bytes four harts make four Gains and 38 Polls: at nine counts each, and two of them at 36,864.
#[test]
fn a_log_that_four_harts_fill_ends_their_run(rt: HostRuntime) -> Result<(), Fail> {
    let alloc = rt.alloc();
    let words = "record g l --harts 4 --pages 1 --limit 1000000 --log-limit 1024 --rounds";
    let row = plain_row(words, round(), 0, "");
    let file = bytes_of(alloc, round())?;
    let ran = serve(&rt, alloc, &row, file.as_slice())?;
    let lines = "cause full\nhart 0 count 36864 pc 80000000\nhart 3 count 36864 pc 80000000";
    assert!(rt; has_lines(ran.report.written(), lines));
    assert!(rt; is_long(ran.shelf.held("l"), 1005));
    Ok(())
}
