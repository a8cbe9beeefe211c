//! One hart's worker: legs and turns until there is no more to do.

ghost use Rattle.std.specs.Prelude.{◌≡◌};
ghost use Rattle.free_replay.specs.Nexts.{next_by};
ghost use Rattle.free_replay.specs.Workers.{IsReadyWorker, HasWorked, until_told};

use crate::board::ReplayTurns;
use crate::legs::{Paced, leg_and_turn};
use free_run::{EventCount, Next};
use hart_run::HartRun;
use outside::Gate;
use replay_core::Pace;
use std::sync::Wait;
use turn_table::{Pass, TurnTable};

/// A hart's pass and its run, and what its worker knows of it between its turns.
#[derive(Drop)]
pub(crate) struct Worker {
    pub(crate) pass: Pass<ReplayTurns>,
    pub(crate) run: HartRun,
    /// Up to which count the run may move before its next turn.
    pub(crate) until: u64,
    /// How many legs it has made.
    pub(crate) legs: u64,
}

/// Up to which count a run at this count may move that was told this.
fn until_of(pace: Pace, count: u64) -> u64
    ensures { result ≡ until_told pace count }
{
    match pace {
        Pace::Go { until } => until,
        _ => count,
    }
}

/// What a worker does that was told this at its turn. One whose hart diverged stays, so that the board can tell that no
/// hart can go on.
fn next_of(pace: Pace, over: bool) -> Next
    ensures { result ≡ next_by pace over }
{
    match pace {
        _ if over => Next::Ends,
        Pace::Go { .. } => Next::Moves,
        Pace::Hold | Pace::Diverged(_) => Next::Waits,
        Pace::Ended => Next::Ends,
    }
}

/// One leg and one turn. What it changed is an event, and that no hart can go on.
pub(crate) fn step<R: Wait, G: Gate>(
    wait: &R,
    table: &TurnTable<ReplayTurns>,
    gate: &G,
    events: &EventCount,
    worker: &mut Worker,
) -> Next
    requires { IsReadyWorker table.now worker.old }
    ensures { HasWorked table.now worker.old worker.new }
{
    let (until, leg) = (worker.until, worker.legs);
    let (Paced { pace, over }, changed) = leg_and_turn(
        wait,
        table,
        &mut worker.pass,
        &mut worker.run,
        until,
        gate,
        leg,
    );
    worker.until = until_of(pace, worker.run.count());
    worker.legs = leg.saturating_add(1);
    if changed || over {
        events.advance();
    }
    next_of(pace, over)
}

/// Legs and turns until there is no more to do. The events are read before each leg, so none is missed that is behind
/// its turn.
pub(crate) fn work<R: Wait, G: Gate>(
    wait: &R,
    table: &TurnTable<ReplayTurns>,
    gate: &G,
    events: &EventCount,
    worker: Worker,
) -> Worker
    requires { IsReadyWorker table.now worker }
    ensures { HasWorked table.now worker result }
{
    let mut at_work = worker;
    for _ in wait.forever() {
        let read = events.read();
        match step(wait, table, gate, events, &mut at_work) {
            Next::Moves => {}
            Next::Waits => events.wait_beyond(wait, read),
            Next::Ends => return at_work,
        }
    }
    unreachable!()
}
