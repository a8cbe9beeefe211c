//! Turns of rows worked out by hand: what each hart is told behind its turn, computed from the definitions.

ghost use Rattle.std.specs.Prelude.{◌≡◌, ◌<◌, length};
ghost use Rattle.replay_parts.specs.Boards.{state_of};
ghost use Rattle.replay_parts.specs.Parts.{IsPart, until_in};
ghost use Rattle.replay_core.specs.Turns.{AreParts};

use crate::tests::{
    Case, Seen, downgrade, faulty, has_diverged, image_of, is_done, lost_addition, ordered,
    other_guest, other_lines, raced,
};
use crate::{Outcome, Pace, ReplayBoard};
use hart_run::HartRun;
use std::alloc::Global;
use std::test::Fail;

/// The count up to which a hart whose run is its part may move.
fn until_of(board: &ReplayBoard, run: &HartRun, hart: u8) -> u64
    requires { IsPart board.now hart run.now }
    ensures { result ≡ until_in board.now.log (state_of board.now) hart }
{
    board.board.until(run.count(), hart)
}

/// A hart moves as far as it may, and has its turn.
fn turn_of(board: &mut ReplayBoard, runs: &mut Vec<HartRun>, hart: u8) -> Pace
    requires parts { AreParts board.old runs.old.items }
    requires hart { hart < length runs.old.items }
    ensures { AreParts board.new runs.new.items }
{
    let _ = board.harts();
    let run = &mut runs[usize::from(hart)];
    let until = until_of(board, run, hart);
    let _ = run.advance(until);
    board.turn(run)
}

/// Whether the harts are told so, one turn after the other.
fn are_told(board: &mut ReplayBoard, runs: &mut Vec<HartRun>, turns: &[(u8, Pace)]) -> bool
    requires { AreParts board.old runs.old.items }
    ensures { AreParts board.new runs.new.items }
{
    for (hart, pace) in turns {
        if usize::from(*hart) >= runs.len() || turn_of(board, runs, *hart) != *pace {
            return false;
        }
    }
    true
}

/// Whether each hart stands at this place of its stream and this count.
fn are_at(board: &ReplayBoard, places: &[(usize, u64)]) -> bool {
    for hart in 0..board.harts() {
        let at = (board.place(hart), board.count(hart));
        if places.get(usize::from(hart)) != Some(&at) {
            return false;
        }
    }
    true
}

/// What the replay of the case comes to once its harts had these turns and were told so, and stand there.
fn ended(
    alloc: Global,
    case: Case,
    turns: &[(u8, Pace)],
    places: &[(usize, u64)],
) -> Result<Outcome, Fail> {
    let orderly = ordered(alloc, &case)?;
    let image = image_of(alloc, &case)?;
    if orderly.log().pages != image.pages() {
        return Err(Fail::from("pages"));
    }
    let (mut board, mut runs) = ReplayBoard::start(alloc, orderly, &image)?;
    if !are_told(&mut board, &mut runs, turns) {
        return Err(Fail::from("told otherwise"));
    }
    if !are_at(&board, places) {
        return Err(Fail::from("stands elsewhere"));
    }
    Ok(board.stage(runs).finish())
}

/// Both harts load before either stores.
static RACE: [(u8, Pace); 10] = [
    (0, Pace::Go { until: 1 }),
    (1, Pace::Go { until: 1 }),
    (0, Pace::Go { until: 3 }),
    (1, Pace::Go { until: 3 }),
    (0, Pace::Hold),
    (1, Pace::Hold),
    (0, Pace::Go { until: 8 }),
    (0, Pace::Ended),
    (1, Pace::Go { until: 8 }),
    (1, Pace::Ended),
];

#[test]
fn harts_that_race_wait_for_each_other(rt: HostRuntime) -> Result<(), Fail> {
    let end = ended(rt.alloc(), lost_addition(), &RACE, &[(5, 8), (5, 8)])?;
    assert!(rt; is_done(&end, &raced(&[1, 0, 0, 0])));
    Ok(())
}

/// Hart 0 keeps Read of its reservation's page, and is told to wait for hart 1.
static DOWNGRADE: [(u8, Pace); 9] = [
    (0, Pace::Go { until: 3 }),
    (1, Pace::Go { until: 3 }),
    (0, Pace::Go { until: 4 }),
    (1, Pace::Hold),
    (0, Pace::Hold),
    (1, Pace::Go { until: 8 }),
    (1, Pace::Ended),
    (0, Pace::Go { until: 8 }),
    (0, Pace::Ended),
];

#[test]
fn a_downgrade_ends_a_reservation(rt: HostRuntime) -> Result<(), Fail> {
    let end = ended(rt.alloc(), downgrade(), &DOWNGRADE, &[(5, 8), (4, 8)])?;
    assert!(rt; is_done(&end, &raced(&[0, 0, 0, 0])));
    Ok(())
}

/// One turn makes both stores to the console: the second is due at the count behind the first.
static STORES: [(u8, Pace); 2] = [(0, Pace::Go { until: 2 }), (0, Pace::Ended)];

#[test]
fn a_turn_makes_all_that_is_due(rt: HostRuntime) -> Result<(), Fail> {
    let end = ended(rt.alloc(), faulty(), &STORES, &[(4, 4)])?;
    let sent = Seen {
        counts: &[4],
        sent: &[0x41, 0x41],
        stop: None,
        word: &[],
    };
    assert!(rt; is_done(&end, &sent));
    Ok(())
}

static OTHER_LINES: [(u8, Pace); 1] = [(0, Pace::Diverged(5))];

static OTHER_GUEST: [(u8, Pace); 2] = [(0, Pace::Go { until: 2 }), (0, Pace::Diverged(3))];

/// A hart whose guard isn't met, twice: nothing is changed.
static HOLDS: [(u8, Pace); 3] = [(1, Pace::Hold), (1, Pace::Hold), (0, Pace::Go { until: 1 })];

#[test]
fn a_hart_is_told_why_it_stays(rt: HostRuntime) -> Result<(), Fail> {
    let alloc = rt.alloc();
    let end = ended(alloc, other_lines(), &OTHER_LINES, &[(0, 0)])?;
    assert!(rt; has_diverged(&end, 0, 0, 5));
    let end = ended(alloc, other_guest(), &OTHER_GUEST, &[(2, 2)])?;
    assert!(rt; has_diverged(&end, 0, 2, 3));
    let end = ended(alloc, lost_addition(), &HOLDS, &[(2, 0), (0, 0)])?;
    assert!(rt; is_done(&end, &raced(&[1, 0, 0, 0])));
    Ok(())
}
