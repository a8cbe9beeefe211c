//! A replay's board as the one board of a table.

ghost use Rattle.std.specs.Prelude.{◌≡◌, ◌<◌, ◌≤◌, ℕ, true, IsTrue, length, slice_index};
ghost use Rattle.free_replay.specs.Parts.{parts_of};
ghost use Rattle.free_replay.specs.ReplayTurns.{StayMarked, IsMarkedAs, ends_by, goes_by, is_still};

use board_backing::number_of;
use hart_run::HartRun;
use replay_core::{Pace, ReplayBoard};
use rv_words::MAX_HARTS;
use std::marker::Model;
use turn_table::Parted;

/// The most harts of a board.
const PLACES: usize = MAX_HARTS as usize;

/// What a replay's board has of a hart. No value of it is made.
pub struct ReplayPart {
    nothing: (),
}

impl Model for ReplayPart {
    ghost use Rattle.replay_parts.specs.Parts as parts;
    ghost use Rattle.free_replay.specs.Parts.{blank_part};

    ghost Value = { parts.Part };

    ghost view = { λ p. blank_part };
}

/// A replay's board that turns alone change, and which harts had nothing to do at their latest turn.
#[derive(Drop)]
pub struct ReplayTurns {
    board: ReplayBoard,
    /// Whether a hart could not go on at its latest turn, and has ended or no turn since has changed anything.
    still: [bool; PLACES],
    /// Whether a hart has ended.
    ended: [bool; PLACES],
}

impl Model for ReplayTurns {
    ghost use Rattle.replay_parts.specs.Boards as boards;

    ghost Value = { boards.Plain };

    ghost use Rattle.free_replay.specs.ReplayTurns.{AreStill, HaveEnded};

    ghost view = { λ b. b.board };

    ghost invariant = { λ b. AreStill b.board b.still × HaveEnded b.board b.ended };
}

impl Parted for ReplayTurns {
    type Part = ReplayPart;

    ghost parts = { λ b. parts_of b };

    fn harts(&self) -> u8 {
        self.board.harts()
    }
}

/// What a hart's turns have committed: its place and its count.
fn committed(board: &ReplayBoard, hart: u8) -> (usize, u64)
    requires { hart < length board.now.log.streams }
    ensures place { result.0 ≡ slice_index board.now.places hart }
    ensures count { result.1 ≡ slice_index board.now.counts hart }
{
    (board.place(hart), board.count(hart))
}

/// Whether a pace tells its hart to go on.
fn goes_by(pace: Pace) -> bool
    ensures { result ≡ goes_by pace }
{
    matches!(pace, Pace::Go { .. })
}

/// Whether a pace tells that its hart has ended.
fn ends_by(pace: Pace) -> bool
    ensures { result ≡ ends_by pace }
{
    matches!(pace, Pace::Ended)
}

/// The marks that stay: all, where the board is the same, and else those of harts that have ended.
fn kept(still: [bool; PLACES], ended: [bool; PLACES], same: bool) -> [bool; PLACES]
    ensures { StayMarked same ended still result }
{
    if same { still } else { ended }
}

/// The marks with another one for this hart.
fn marked(marks: [bool; PLACES], hart: u8, mark: bool) -> [bool; PLACES]
    requires { hart < MAX_HARTS }
    ensures { IsMarkedAs hart mark marks result }
{
    let mut marks = marks;
    marks[usize::from(hart)] = mark;
    marks
}

/// Whether each of the first harts, so many, is marked.
fn are_still(still: &[bool; PLACES], harts: u8) -> bool
    requires { harts ≤ MAX_HARTS }
    ensures { IsTrue result → (h : ℕ) → h < harts → is_still still.now h ≡ true }
{
    for hart in 0..harts {
        if !still[usize::from(hart)] {
            return false;
        }
    }
    true
}

impl ReplayTurns {
    ghost use Rattle.std.specs.Prelude.{ℕ, ◌≡◌, ◌<◌, length, IsTrue, false};
    ghost use Rattle.flat_machine.specs.State.{FlatState};
    ghost use Rattle.replay_model.specs.State.{Replay};
    ghost use Rattle.run_model.specs.Run.{number_of};
    ghost use Rattle.replay_parts.specs.Boards.{state_of};
    ghost use Rattle.replay_parts.specs.Laws.{Reaches};
    ghost use Rattle.replay_core.specs.Items.{IsStuck};
    ghost use Rattle.replay_core.specs.Turns.{HasTurn, IsPartMoved, told};

    /// A board, of which no hart has been told yet that it can't go on.
    pub fn of(board: ReplayBoard) -> ReplayTurns
        ensures { result ≡ board }
    {
        ReplayTurns {
            board,
            still: [false; PLACES],
            ended: [false; PLACES],
        }
    }

    /// The board, as its turns left it.
    pub fn board(self) -> ReplayBoard
        ensures { result ≡ self }
    {
        let ReplayTurns { board, .. } = self;
        board
    }

    /// True only where no hart can go on. By construction, and no clause: it is true once each hart has ended, or had a
    /// turn since anything changed, at which it could not go on.
    pub fn over(&self) -> bool
        ensures over { IsTrue result → IsStuck self.now.log (state_of self.now) }
        ensures reached { (s : Replay FlatState) × Reaches self.now s }
    {
        let harts = self.board.harts();
        are_still(&self.still, harts)
    }

    /// A turn of the run's hart: what it is told, and whether anything changed.
    pub(crate) fn turn(&mut self, run: &mut HartRun) -> (Pace, bool)
        requires moved { IsPartMoved self.old run.old }
        requires inside { number_of run.old < length self.old.log.streams }
        ensures turned { HasTurn self.old self.new run.old run.new (told result.0) }
        ensures number { number_of run.new ≡ number_of run.old }
        ensures changed { result.1 ≡ false → self.new ≡ self.old }
    {
        let _ = self.board.harts();
        let hart = number_of(run);
        let before = committed(&self.board, hart);
        let pace = self.board.turn(run);
        let same = committed(&self.board, hart) == before;
        let still = kept(self.still, self.ended, same);
        self.still = marked(still, hart, !goes_by(pace));
        self.ended = marked(self.ended, hart, ends_by(pace));
        (pace, !same)
    }
}
