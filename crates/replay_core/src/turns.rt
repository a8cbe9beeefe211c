//! A replay's board, to which the harts come for their turns.

ghost use Rattle.std.specs.Prelude.{◌≡◌, ◌≤◌, ◌<◌, length, slice_index, IfOk};
ghost use Rattle.flat_machine.specs.State.{FlatState};
ghost use Rattle.replay_model.specs.State.{Replay};
ghost use Rattle.run_model.specs.Run.{number_of};
ghost use Rattle.replay_parts.specs.Boards.{first_board, state_of};
ghost use Rattle.replay_parts.specs.Laws.{Reaches};
ghost use Rattle.replay_core.specs.Standing.{IsAt};
ghost use Rattle.replay_core.specs.Turns.{AreParts, HasTurn, IsPartMoved, pace_of, told};

use crate::position::{Position, harts_of};
use crate::replaying::Replaying;
use crate::stage::Stage;
use crate::went::{Pace, Went};
use board_backing::{Ends, number_of};
use elf_image::Image;
use hart_run::HartRun;
use log_order::Orderly;
use rv_words::MAX_HARTS;
use shared_types::NoMemory;
use std::alloc::Global;
use std::marker::Model;
use std::snapshot::Snapshot;

/// A replay's board apart from the runs of its harts, with the count that each hart's turns have committed.
#[derive(Drop)]
pub struct ReplayBoard {
    pub(crate) board: Position,
    counts: Vec<u64>,
    ends: Ends,
    image: Snapshot<Image>,
}

impl Model for ReplayBoard {
    ghost use Rattle.replay_parts.specs.Boards as boards;
    ghost use Rattle.replay_core.specs.Turns.{IsSeenAs, plain_of};

    ghost Value = { boards.Plain };

    ghost view = { λ b. plain_of b.board b.image.value b.counts.items };

    ghost invariant = { λ b. IsSeenAs b.board b.ends (plain_of b.board b.image.value b.counts.items) };
}

/// The pace of a hart by what comes of its next item.
fn pace_of(went: Went, until: u64) -> Pace
    ensures { result ≡ pace_of until went }
{
    match went {
        Went::Moved | Went::Entry => Pace::Go { until },
        Went::Hold => Pace::Hold,
        Went::Diverged(rule) => Pace::Diverged(rule),
        Went::Ended => Pace::Ended,
    }
}

impl ReplayBoard {
    /// The board of the replay of an orderly log over an image before any turn, and a run for each hart. It takes all
    /// memory that the replay needs.
    pub fn start(
        alloc: Global,
        orderly: Orderly,
        image: &Image,
    ) -> Result<(ReplayBoard, Vec<HartRun>), NoMemory>
        requires { orderly.pages ≡ image.now.pages }
        ensures board { IfOk result (λ r. r.0 ≡ first_board orderly image.now) }
        ensures runs { IfOk result (λ r. AreParts r.0 r.1.items) }
    {
        let Replaying { board, runs, ends } = Replaying::start(alloc, orderly, image)?;
        let Ok(counts) = Vec::from_elem(alloc, 0u64, runs.len()) else {
            return Err(NoMemory);
        };
        let board = ReplayBoard {
            board,
            counts,
            ends,
            image: Snapshot::of(image),
        };
        Ok((board, runs))
    }

    /// The number of harts.
    pub fn harts(&self) -> u8
        ensures number { result ≡ length self.now.log.streams }
        ensures few { result ≤ MAX_HARTS }
        ensures reached { (s : Replay FlatState) × Reaches self.now s }
    {
        harts_of(self.board.log.log())
    }

    /// The place of a hart in its stream.
    pub fn place(&self, hart: u8) -> usize
        requires { hart < length self.now.log.streams }
        ensures { result ≡ slice_index self.now.places hart }
    {
        self.board.cursor.place(usize::from(hart))
    }

    /// The count that a hart's turns have committed.
    pub fn count(&self, hart: u8) -> u64
        requires { hart < length self.now.log.streams }
        ensures { result ≡ slice_index self.now.counts hart }
    {
        self.counts[usize::from(hart)]
    }

    /// A turn of the run's hart: the moves that it made since its last turn are committed, and its entries at its
    /// count are made, while it can. It takes no memory.
    pub fn turn(&mut self, run: &mut HartRun) -> Pace
        requires { IsPartMoved self.old run.old }
        ensures turned { HasTurn self.old self.new run.old run.new (told result) }
        ensures number { number_of run.new ≡ number_of run.old }
    {
        let board = &mut self.board;
        let hart = number_of(run);
        let went = board.make_all(run, hart);
        let count = run.count();
        self.counts[usize::from(hart)] = count;
        pace_of(went, self.board.until(count, hart))
    }

    /// The stage of the board and its harts' runs, in their order. It takes no memory.
    pub fn stage(self, runs: Vec<HartRun>) -> Stage
        requires { AreParts self runs.items }
        ensures at { IsAt self.image result (state_of self) }
        ensures log { result.board.log ≡ self.log }
    {
        let ReplayBoard { board, ends, .. } = self;
        Stage {
            replaying: Replaying { board, runs, ends },
        }
    }
}
