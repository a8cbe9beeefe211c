//! Recordings with free harts (docs/threads.md).

ghost use Rattle.std.specs.Prelude.{◌≡◌, ◌≤◌, [], List, false, IfSome, MatchResult, vec_len, vec_capacity};
ghost use Rattle.std.specs.List.{AllZip};
ghost use Rattle.rv_words.specs.Limits.{most_moves, longest_log};
ghost use Rattle.run_model.specs.Run.{Run};
ghost use Rattle.turn_table.specs.Passes.{part_of};
ghost use Rattle.crew_parts.specs.Boards.{world, plain_at_start};
ghost use Rattle.crew_parts.specs.Parts.{AreParts};
ghost use Rattle.recorder.specs.Manned.{HasGiven};
ghost use Rattle.free_run.specs.Parts.{IsOnRecord};
ghost use Rattle.free_run.specs.Recordings.{HaveRun, RecordsFreely};
ghost use Rattle.free_run.specs.Workers.{IsBack, IsReady, first_job};

use crate::board::RecordBoard;
use crate::events::EventCount;
use crate::pairs::{pair, unpair};
use crate::rest::turn_until_over;
use crate::workers::{Worker, run_list};
use crew_core::{Board, OutOfMemory, Recorded};
use elf_image::Image;
use hart_run::HartRun;
use outside::{Clock, Console, Gate};
use rv_words::MAX_HARTS;
use std::alloc::Global;
use std::sync::Wait;
use std::thread::Threads;
use turn_table::{NoRoom, Parted, Pass, TurnTable};

/// Room for the workers of all harts, and for those that this thread runs.
#[derive(Drop)]
struct Rooms<C: Console, K: Clock> {
    workers: Vec<Worker<C, K>>,
    mine: Vec<Worker<C, K>>,
}

fn rooms_for<C: Console, K: Clock>(alloc: Global, harts: u8) -> Option<Rooms<C, K>>
    ensures empty { IfSome result (λ r. (r.workers.items ≡ []) × (r.mine.items ≡ [])) }
    ensures none { IfSome result (λ r. (vec_len r.workers ≡ 0) × (vec_len r.mine ≡ 0)) }
    ensures room { IfSome result (λ r. (harts ≤ vec_capacity r.workers) × (harts ≤ vec_capacity r.mine)) }
{
    let Ok(workers) = Vec::with_capacity(alloc, usize::from(harts)) else {
        return None;
    };
    let Ok(mine) = Vec::with_capacity(alloc, usize::from(harts)) else {
        return None;
    };
    Some(Rooms { workers, mine })
}

/// Legs and turns of all harts, until there is no more to do. True where memory was refused for a turn.
fn run_all<T: Threads + Wait + Sync, C: Console, K: Clock, G: Gate>(
    rt: &T,
    alloc: Global,
    table: &TurnTable<RecordBoard<C, K>>,
    gate: &G,
    passes: &mut Vec<Pass<RecordBoard<C, K>>>,
    runs: &mut Vec<HartRun>,
    rooms: Rooms<C, K>,
) -> bool
    requires ready { AllZip (λ p r. IsReady table.now p (first_job r)) passes.old.items runs.old.items }
    requires count { vec_len passes.old ≡ vec_len runs.old }
    requires empty { (rooms.workers.items ≡ []) × (rooms.mine.items ≡ []) }
    requires none { (vec_len rooms.workers ≡ 0) × (vec_len rooms.mine ≡ 0) }
    requires room { (vec_len runs.old ≤ vec_capacity rooms.workers) × (vec_len runs.old ≤ vec_capacity rooms.mine) }
    ensures led { AllZip (IsBack table.now) passes.old.items passes.new.items }
    ensures count { (vec_len passes.new ≡ vec_len passes.old) × (vec_len runs.new ≡ vec_len runs.old) }
    ensures runs { result ≡ false
        → AllZip (λ p r. IsOnRecord (part_of p) r) passes.new.items runs.new.items }
{
    let Rooms { workers, mine } = rooms;
    let workers = pair(passes, runs, workers);
    let events = EventCount::new();
    let (workers, _mine) = run_list(rt, alloc, table, gate, &events, workers, mine);
    unpair(workers, passes, runs)
}

/// The board, closed for want of memory.
fn abandoned<C: Console, K: Clock>(board: RecordBoard<C, K>) -> Board<C, K>
    ensures { (runs : List Run) → HaveRun board result runs }
{
    let mut board = board.board();
    board.abandon();
    board
}

/// Behind the legs and turns of the workers, what is left of the run, unless memory was refused to one of them.
fn end_run<R: Wait, C: Console, K: Clock>(
    wait: &R,
    alloc: Global,
    mut board: RecordBoard<C, K>,
    mut runs: Vec<HartRun>,
    refused: bool,
) -> (Board<C, K>, Vec<HartRun>)
    requires { refused ≡ false → AreParts board runs.items }
    ensures { HaveRun board result.0 result.1.items }
{
    if refused {
        return (abandoned(board), runs);
    }
    turn_until_over(wait, alloc, &mut board, runs.as_mut_slice());
    (board.board(), runs)
}

/// Legs and turns of all harts, each on a thread of its own where one can be had, until the board is over.
fn run_free<T: Threads + Wait + Sync, C: Console, K: Clock, G: Gate>(
    rt: &T,
    alloc: Global,
    gate: &G,
    board: RecordBoard<C, K>,
    mut runs: Vec<HartRun>,
) -> (Board<C, K>, Vec<HartRun>)
    requires { AreParts board runs.items }
    ensures { HaveRun board result.0 result.1.items }
{
    let _ = board.over();
    let harts = board.harts();
    let Some(rooms) = rooms_for::<C, K>(alloc, harts) else {
        return (abandoned(board), runs);
    };
    match TurnTable::open(alloc, harts, board) {
        Ok((table, passes)) => {
            let mut passes = passes;
            let refused = run_all(rt, alloc, &table, gate, &mut passes, &mut runs, rooms);
            let board = table.close(passes);
            let _ = board.over();
            end_run(rt, alloc, board, runs, refused)
        }
        Err(NoRoom { board }) => (abandoned(board), runs),
    }
}

/// Records a board with free harts: each moves on its own run, on a thread of its own where one can be had, between two
/// passes of the gate, and comes to the board for its turns when the board is free. What is recorded
/// ends where the board is over; that the call returns is no clause. Where memory ran out, console and clock come back with what they gave.
pub fn record_free<T: Threads + Wait + Sync, C: Console, K: Clock, G: Gate>(
    rt: &T,
    alloc: Global,
    image: &Image,
    harts: u8,
    limit: u64,
    log_limit: u64,
    console: C,
    clock: K,
    gate: &G,
) -> Result<Recorded<C, K>, OutOfMemory<C, K>>
    requires least { 1 ≤ harts }
    requires most { harts ≤ MAX_HARTS }
    requires limit { limit ≤ most_moves }
    requires log_least { 1024 ≤ log_limit }
    requires log_most { log_limit ≤ longest_log }
    ensures { MatchResult result
        (λ r. RecordsFreely
        (plain_at_start image.now harts limit log_limit (world (C.seen console) (K.seen clock)))
        (world (C.seen r.console) (K.seen r.clock)) r.log r.ended r.journal r.turns)
        (λ e. HasGiven (world (C.seen console) (K.seen clock)) (world (C.seen e.console) (K.seen e.clock))) }
{
    let _ = image.pages();
    match Board::start(alloc, image, harts, limit, log_limit, console, clock) {
        Ok(begun) => {
            let (board, runs) = begun;
            let (board, runs) = run_free(rt, alloc, gate, RecordBoard::of(board), runs);
            let _ = board.harts();
            board.finish(runs)
        }
        Err(refused) => Err(refused),
    }
}
