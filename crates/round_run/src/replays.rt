//! Replays in rounds: turns until none changes anything, and the legs of all harts at once.

ghost use Rattle.std.specs.Prelude.{ℕ, ◌≡◌, ◌<◌, IfOk, OnOk, is_some, length, slice_index_or, None, Some};
ghost use Rattle.std.specs.List.{list_any};
ghost use Rattle.replay_core.specs.Ends.{IsOutcomeOf};
ghost use Rattle.round_run.specs.Replays.{AreAllParts, AreLed, HadTurn, HadTurns, MayAllMove, MayReplay, ReplayEnds, Settles};
ghost use Rattle.round_run.specs.Replays.{SomeHasMoved, until_paced};

use crate::legs::{Hands, end_all, helpers, legs, next_legs};
use elf_image::Image;
use hart_run::HartRun;
use log_order::Orderly;
use outside::Gate;
use recorder::PLACES;
use replay_core::{Outcome, Pace, ReplayBoard};
use shared_types::NoMemory;
use side_work::beside;
use std::alloc::Global;
use std::thread::Threads;

/// Up to which count a hart may move whose pace this is.
fn until_of(pace: Pace) -> Option<u64>
    ensures { result ≡ until_paced pace }
{
    match pace {
        Pace::Go { until } => Some(until),
        _ => None,
    }
}

/// Whether any hart may move.
fn may_any_move(untils: &[Option<u64>]) -> bool
    ensures { result ≡ list_any (λ u. is_some u) untils.now }
{
    untils.iter().any(|until| until.is_some())
}

/// A replay in rounds under way.
#[derive(Drop)]
struct Replay {
    board: ReplayBoard,
    runs: Vec<HartRun>,
    /// Up to which count each hart may move, by its latest turn.
    untils: [Option<u64>; PLACES],
    /// How many legs each hart has made.
    legs: [u64; PLACES],
}

impl Replay {
    /// A turn of a hart. Whether it changed anything.
    fn turn(&mut self, hart: u8) -> bool
        requires hart { hart < length self.old.board.log.streams }
        requires led { AreLed hart self.old.board self.old.runs.items }
        requires places { length self.old.untils ≡ PLACES }
        ensures { HadTurn hart self.old.board self.new.board self.old.runs.items self.new.runs.items
            self.old.untils self.new.untils result }
    {
        let _ = self.board.harts();
        let place = usize::from(hart);
        let before = (self.board.place(hart), self.board.count(hart));
        let pace = self.board.turn(&mut self.runs[place]);
        self.untils[place] = until_of(pace);
        (self.board.place(hart), self.board.count(hart)) != before
    }

    /// A turn of each hart. Whether any changed anything.
    fn sweep(&mut self) -> bool
        requires led { AreLed 0 self.old.board self.old.runs.items }
        requires places { length self.old.untils ≡ PLACES }
        ensures { HadTurns (length self.old.board.log.streams) self.old.board self.new.board
            self.old.runs.items self.new.runs.items self.new.untils result }
    {
        let mut changed = false;
        for hart in 0..self.board.harts() {
            if self.turn(hart) {
                changed = true;
            }
        }
        changed
    }

    /// Turns of all harts until none changes anything.
    fn settle(&mut self)
        requires led { AreLed 0 self.old.board self.old.runs.items }
        requires places { length self.old.untils ≡ PLACES }
        ensures { Settles self.old.board self.new.board self.old.runs.items self.new.runs.items self.new.untils }
    {
        'sweeps: while self.sweep() {}
    }

    /// Each hart that may move makes its leg, all at once.
    fn go_on<G: Gate>(&mut self, gate: &G, hands: &mut Hands) -> Result<(), NoMemory>
        requires parts { AreAllParts self.old.board self.old.runs.items }
        requires told { MayAllMove self.old.board self.old.untils }
        ensures board { self.new.board ≡ self.old.board }
        ensures untils { self.new.untils ≡ self.old.untils }
        ensures led { OnOk result (AreLed 0 self.new.board self.new.runs.items) }
        ensures moved { OnOk result ((h until : ℕ) → h < length self.old.runs.items
            → slice_index_or self.old.untils h None ≡ Some until → SomeHasMoved self.new.board self.new.runs.items) }
    {
        let _ = self.board.harts();
        legs(&mut self.runs, hands, &self.untils, gate, &self.legs)?;
        next_legs(&self.untils, &mut self.legs);
        Ok(())
    }

    /// Rounds, until no hart can go on.
    fn rounds<G: Gate>(&mut self, gate: &G, hands: &mut Hands) -> Result<(), NoMemory>
        requires { MayReplay self.old.board self.old.runs.items self.old.untils }
        ensures { OnOk result (ReplayEnds self.old.board self.new.board self.new.runs.items) }
    {
        let _ = self.board.harts();
        self.settle();
        'rounds: while may_any_move(&self.untils[..self.runs.len()]) {
            self.go_on(gate, hands)?;
            self.settle();
        }
        Ok(())
    }
}

/// Rounds until no hart can go on, and the end of the workers.
fn finished<G: Gate>(mut replay: Replay, gate: &G, mut hands: Hands) -> Result<Replay, NoMemory>
    requires { MayReplay replay.board replay.runs.items replay.untils }
    ensures { IfOk result (λ r. ReplayEnds replay.board r.board r.runs.items) }
{
    let made = replay.rounds(gate, &mut hands);
    end_all(hands);
    made?;
    Ok(replay)
}

/// The outcome of the replay of a log over an image, in rounds. In a round the harts have turns, in their order, until
/// none changes anything; then all that may move do so, beside each other on threads where they can be had, each
/// between two passes of the gate. It takes its memory before the first round.
pub fn replay_rounds<T: Threads + Sync, G: Gate>(
    rt: &T,
    alloc: Global,
    orderly: Orderly,
    image: &Image,
    gate: &G,
) -> Result<Outcome, NoMemory>
    requires { orderly.pages ≡ image.now.pages }
    ensures { IfOk result (IsOutcomeOf orderly image.now) }
{
    let _ = image.pages();
    let (board, runs) = ReplayBoard::start(alloc, orderly, image)?;
    let (hands, workers) = helpers(alloc, board.harts());
    let replay = Replay {
        board,
        runs,
        untils: [None; PLACES],
        legs: [0; PLACES],
    };
    let made = beside(
        rt,
        workers,
        gate,
        move || -> Result<Replay, NoMemory>
            requires { MayReplay replay.board replay.runs.items replay.untils }
            ensures { IfOk result (λ r. ReplayEnds replay.board r.board r.runs.items) }
        { finished(replay, gate, hands) },
    );
    let ended = made?;
    let Replay { board, runs, .. } = ended;
    Ok(board.stage(runs).finish())
}
