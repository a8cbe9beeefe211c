//! Replays with free harts.

ghost use Rattle.std.specs.Prelude.{◌≡◌, IfOk};
ghost use Rattle.replay_core.specs.Ends.{IsOutcomeOf};

use crate::board::ReplayTurns;
use crate::workers::run_list;
use elf_image::Image;
use free_run::EventCount;
use log_order::Orderly;
use outside::Gate;
use replay_core::{Outcome, ReplayBoard};
use shared_types::NoMemory;
use std::alloc::Global;
use std::sync::Wait;
use std::thread::Threads;
use turn_table::TurnTable;

/// The outcome of the replay of a log over an image by harts that run free: each moves on a thread of its own, where
/// one can be had, and comes to the board for its turns. It takes its memory before the first leg.
pub fn replay_free<T: Threads + Wait + Sync, G: Gate>(
    rt: &T,
    alloc: Global,
    orderly: Orderly,
    image: &Image,
    gate: &G,
) -> Result<Outcome, NoMemory>
    requires { orderly.pages ≡ image.now.pages }
    ensures { IfOk result (IsOutcomeOf orderly image.now) }
{
    let _ = image.pages();
    let _ = orderly.log();
    let (board, runs) = ReplayBoard::start(alloc, orderly, image)?;
    let harts = board.harts();
    let Ok(mine) = Vec::with_capacity(alloc, usize::from(harts)) else {
        return Err(NoMemory);
    };
    match TurnTable::open(alloc, harts, ReplayTurns::of(board)) {
        Ok((table, passes)) => {
            let events = EventCount::new();
            let (passes, runs, _mine) = run_list(rt, &table, gate, &events, passes, runs, mine);
            let closed = table.close(passes).board();
            let _ = closed.harts();
            Ok(closed.stage(runs).finish())
        }
        Err(_refused) => Err(NoMemory),
    }
}
