//! A board with the runs of its harts, and what each was told last.

ghost use Rattle.std.specs.Prelude.{ℕ, ◌≡◌, ◌<◌, ◌≤◌, IfOk, IfErr, OnOk};
ghost use Rattle.rv_words.specs.Limits.{most_moves, longest_log};
ghost use Rattle.crew_parts.specs.Boards.{world, plain_at_start, EndsAs};
ghost use Rattle.crew_parts.specs.Parts.{number_of, until_by, IsPartMoved};
ghost use Rattle.crew_parts.specs.Turns.{HasTurn};
ghost use Rattle.crew_core.specs.Orders.{told, told_of};
ghost use Rattle.recorder.specs.Manned.{Advances, HasGiven, IsManned, HasTurnOf, still, row_moves};

use crew_core::{Board, Order, OutOfMemory, Recorded};
use elf_image::Image;
use hart_run::HartRun;
use outside::{Clock, Console};
use rv_words::MAX_HARTS;
use shared_types::NoMemory;
use std::alloc::Global;

/// How many harts a board may have.
pub const PLACES: usize = 8;

/// The run goes on as far as its hart was told, by so many moves at most.
fn advance(run: &mut HartRun, order: Option<Order>, most: u64)
    requires { run.old.count ≤ until_by run.old.count (told_of order) }
    ensures { Advances run.old run.new (told_of order) most }
{
    if let Some(Order::Go { until }) = order {
        let count = run.count();
        let _ = run.advance(count + most.min(until - count));
    }
}

/// A turn of the run's hart, with the moves that it has made.
fn take_turn<C: Console, K: Clock>(
    alloc: Global,
    board: &mut Board<C, K>,
    run: &mut HartRun,
) -> Result<Order, NoMemory>
    requires { IsPartMoved board.old run.old }
    ensures turn { IfOk result (λ o. HasTurn board.old board.new (number_of run.old) run.old run.new (told o)) }
    ensures given { HasGiven board.old.now board.new.now }
{
    board.prepare(alloc)?;
    Ok(board.turn(run))
}

/// A recording under way. The runs and what harts were told last stand in the order of the harts.
#[derive(Drop)]
pub struct Recorder<C: Console, K: Clock> {
    pub board: Board<C, K>,
    pub runs: Vec<HartRun>,
    pub orders: [Option<Order>; PLACES],
}

impl<C: Console, K: Clock> Recorder<C, K> {
    /// A recording before any turn.
    pub fn start(
        alloc: Global,
        image: &Image,
        harts: u8,
        limit: u64,
        log_limit: u64,
        console: C,
        clock: K,
    ) -> Result<Recorder<C, K>, OutOfMemory<C, K>>
        requires least { 1 ≤ harts }
        requires most { harts ≤ MAX_HARTS }
        requires limit { limit ≤ most_moves }
        requires log_least { 1024 ≤ log_limit }
        requires log_most { log_limit ≤ longest_log }
        ensures board { IfOk result
            (λ r. r.board ≡ plain_at_start image.now harts limit log_limit (world (C.seen console) (K.seen clock))) }
        ensures manned { IfOk result (λ r. IsManned r.board r.runs.items r.orders still) }
        ensures console { IfErr result (λ e. e.console ≡ console) }
        ensures clock { IfErr result (λ e. e.clock ≡ clock) }
    {
        match Board::start(alloc, image, harts, limit, log_limit, console, clock) {
            Ok(begun) => {
                let (board, runs) = begun;
                Ok(Recorder {
                    board,
                    runs,
                    orders: [None; PLACES],
                })
            }
            Err(refused) => Err(refused),
        }
    }

    /// The run of a hart goes on as far as the hart was told, by so many moves at most.
    pub fn advance(&mut self, hart: u8, most: u32)
        requires hart { hart < self.old.board.harts }
        requires manned { IsManned self.old.board self.old.runs.items self.old.orders still }
        ensures board { self.new.board ≡ self.old.board }
        ensures manned { IsManned self.new.board self.new.runs.items self.new.orders
            (row_moves self.old.board hart most) }
    {
        let _ = self.board.harts();
        let place = usize::from(hart);
        advance(&mut self.runs[place], self.orders[place], u64::from(most));
    }

    /// A turn of a hart, with the moves that its run has made.
    pub fn turn(&mut self, alloc: Global, hart: u8) -> Result<(), NoMemory>
        requires hart { hart < self.old.board.harts }
        requires manned { (moves : ℕ → ℕ) × IsManned self.old.board self.old.runs.items self.old.orders moves }
        ensures given { HasGiven self.old.board.now self.new.board.now }
        ensures turn { OnOk result ((moves : ℕ → ℕ)
            → IsManned self.old.board self.old.runs.items self.old.orders moves
            → HasTurnOf self.old.board self.new.board hart moves self.new.runs.items self.new.orders) }
    {
        let _ = self.board.harts();
        let place = usize::from(hart);
        let order = take_turn(alloc, &mut self.board, &mut self.runs[place])?;
        self.orders[place] = Some(order);
        let _ = self.board.harts();
        Ok(())
    }

    /// What the recording comes to. It takes no memory.
    pub fn finish(self) -> Result<Recorded<C, K>, OutOfMemory<C, K>>
        requires { IsManned self.board self.runs.items self.orders still }
        ensures ended { IfOk result (λ r. EndsAs self.board r.log r.ended r.journal r.turns) }
        ensures world { IfOk result (λ r. world (C.seen r.console) (K.seen r.clock) ≡ self.board.now) }
        ensures refused { IfErr result (λ e. world (C.seen e.console) (K.seen e.clock) ≡ self.board.now) }
    {
        let Recorder { board, runs, .. } = self;
        board.finish(runs)
    }

    /// Console and clock, where memory ran out.
    pub fn abandon(self) -> OutOfMemory<C, K>
        ensures { world (C.seen result.console) (K.seen result.clock) ≡ self.board.now }
    {
        let Recorder {
            mut board,
            runs,
            ..
        } = self;
        board.abandon();
        match board.finish(runs) {
            Ok(_) => unreachable!(),
            Err(refused) => refused,
        }
    }
}
