//! A recorder's board as the one board of a table.

ghost use Rattle.std.specs.Prelude.{◌≡◌};
ghost use Rattle.free_run.specs.Parts.{parts_of};

use crew_core::{Board, Order};
use hart_run::HartRun;
use outside::{Clock, Console};
use shared_types::NoMemory;
use std::alloc::Global;
use std::marker::Model;
use turn_table::Parted;

/// What a recorder's board has of a hart. No value of it is made.
pub struct RecordPart {
    nothing: (),
}

impl Model for RecordPart {
    ghost use Rattle.crew_parts.specs.Parts as parts;
    ghost use Rattle.free_run.specs.Parts.{blank_part};

    ghost Value = { parts.Part };

    ghost view = { λ p. blank_part };
}

/// A recorder's board that is changed by turns alone: it is never cut, and no hart is favoured but by turns.
#[derive(Drop)]
pub struct RecordBoard<C: Console, K: Clock> {
    harts: u8,
    board: Board<C, K>,
}

impl<C: Console, K: Clock> Model for RecordBoard<C, K> {
    ghost use Rattle.std.specs.Prelude.{◌≡◌};
    ghost use Rattle.crew_parts.specs.Boards as boards;
    ghost use Rattle.free_run.specs.RecordBoards.{IsByTurns};

    ghost Value = { boards.Plain };

    ghost view = { λ b. b.board };

    ghost invariant = { λ b. (b.harts ≡ b.board.harts) × IsByTurns b.board };
}

impl<C: Console, K: Clock> Parted for RecordBoard<C, K> {
    type Part = RecordPart;

    ghost parts = { λ b. parts_of b };

    fn harts(&self) -> u8 {
        self.harts
    }
}

impl<C: Console, K: Clock> RecordBoard<C, K> {
    ghost use Rattle.std.specs.Prelude.{ℕ, ◌≡◌, length, OnErr, IfOk};
    ghost use Rattle.run_model.specs.Run.{Run};
    ghost use Rattle.crew_parts.specs.Boards.{IsBoardOf, is_over_in};
    ghost use Rattle.crew_parts.specs.Parts.{number_of, IsPartMoved};
    ghost use Rattle.crew_parts.specs.Turns.{HasTurn};
    ghost use Rattle.crew_core.specs.Orders.{told};
    ghost use Rattle.free_run.specs.RecordBoards.{IsByTurns, abandoned_in, start_of};

    /// A board as it is before any turn.
    pub fn of(board: Board<C, K>) -> RecordBoard<C, K>
        requires { board ≡ start_of board }
        ensures { result ≡ board }
    {
        let harts = board.harts();
        RecordBoard { harts, board }
    }

    /// The board, as its turns left it.
    pub fn board(self) -> Board<C, K>
        ensures same { result ≡ self }
        ensures turns { IsByTurns self }
    {
        let RecordBoard { board, .. } = self;
        board
    }

    /// Whether the board is closed, or each hart is at the limit.
    pub fn over(&self) -> bool
        ensures over { result ≡ is_over_in self.now }
        ensures holds { IsBoardOf self.now }
    {
        self.board.over()
    }

    /// How many turns are in the list of turns. A turn that isn't in it changed nothing.
    pub(crate) fn rows(&self) -> usize
        ensures { result ≡ length self.now.turns }
    {
        self.board.rows()
    }

    /// A turn of the run's hart, or none for want of memory: then the board is abandoned.
    pub(crate) fn turn(&mut self, alloc: Global, run: &mut HartRun) -> Result<Order, NoMemory>
        requires { IsPartMoved self.old run.old }
        ensures turn { IfOk result (λ o. HasTurn self.old self.new (number_of run.old) run.old run.new (told o)) }
        ensures refused { OnErr result (self.new ≡ abandoned_in self.old) }
        ensures run { OnErr result (run.new ≡ run.old) }
    {
        let _ = self.board.harts();
        match self.board.prepare(alloc) {
            Ok(()) => {
                let order = self.board.turn(run);
                let _ = self.board.harts();
                Ok(order)
            }
            Err(NoMemory) => {
                self.board.abandon();
                Err(NoMemory)
            }
        }
    }
}
