//! One hart's worker: legs and turns until there is no more to do.

ghost use Rattle.std.specs.Prelude.{◌≡◌, Some};
ghost use Rattle.crew_core.specs.Orders.{told};
ghost use Rattle.crew_parts.specs.Parts.{until_by};
ghost use Rattle.free_run.specs.Nexts.{next_by};
ghost use Rattle.free_run.specs.Workers.{HasWorked, IsReady};

use crate::board::RecordBoard;
use crate::events::EventCount;
use crate::legs::{Led, leg_and_turn};
use crate::next::Next;
use crew_core::Order;
use hart_run::HartRun;
use outside::{Clock, Console, Gate};
use shared_types::NoMemory;
use std::alloc::Global;
use std::sync::Wait;
use turn_table::{Pass, TurnTable};

/// A hart's run, and what its worker knows of it between its turns.
#[derive(Drop)]
pub(crate) struct Job {
    pub(crate) run: HartRun,
    /// Up to which count the run may move before its next turn.
    pub(crate) until: u64,
    /// How many legs it has made.
    pub(crate) legs: u64,
    /// Whether memory was refused for a turn. Then the run is ahead of the board.
    pub(crate) refused: bool,
}

/// Up to which count a run at this count may move that was told this.
fn until_of(order: Order, count: u64) -> u64
    ensures { result ≡ until_by count (Some (told order)) }
{
    match order {
        Order::Go { until } => until,
        _ => count,
    }
}

/// What a worker does that was told this at its turn. One whose hart is at the limit stays until the board is over, so
/// that it gives its pages up where others want them.
fn next_of(order: Order, over: bool) -> Next
    ensures { result ≡ next_by order over }
{
    match order {
        Order::Go { .. } => Next::Moves,
        Order::Rest if over => Next::Ends,
        Order::Hold { .. } | Order::Rest => Next::Waits,
    }
}

/// One leg and one turn. What it changed is an event, and that the board is over or memory was refused.
pub(crate) fn step<R: Wait, C: Console, K: Clock, G: Gate>(
    wait: &R,
    alloc: Global,
    table: &TurnTable<RecordBoard<C, K>>,
    gate: &G,
    events: &EventCount,
    pass: &mut Pass<RecordBoard<C, K>>,
    job: &mut Job,
) -> Next
    requires { IsReady table.now pass.old job.old }
    ensures { HasWorked table.now pass.old pass.new job.new }
{
    let refused = job.refused;
    if refused {
        return Next::Ends;
    }
    let (until, leg) = (job.until, job.legs);
    match leg_and_turn(wait, alloc, table, pass, &mut job.run, until, gate, leg) {
        Ok((Led { order, over }, changed)) => {
            if changed || over {
                events.advance();
            }
            job.until = until_of(order, job.run.count());
            job.legs = leg.saturating_add(1);
            next_of(order, over)
        }
        Err(NoMemory) => {
            events.advance();
            job.refused = true;
            Next::Ends
        }
    }
}

/// Legs and turns until there is no more to do. The events are read before each leg, and not behind the turn: so none
/// is missed that is behind it, and a hart whose turn changed anything has another one before it waits.
pub(crate) fn work<R: Wait, C: Console, K: Clock, G: Gate>(
    wait: &R,
    alloc: Global,
    table: &TurnTable<RecordBoard<C, K>>,
    gate: &G,
    events: &EventCount,
    pass: &mut Pass<RecordBoard<C, K>>,
    job: &mut Job,
)
    requires { IsReady table.now pass.old job.old }
    ensures { HasWorked table.now pass.old pass.new job.new }
{
    for _ in wait.forever() {
        let read = events.read();
        match step(wait, alloc, table, gate, events, pass, job) {
            Next::Moves => {}
            Next::Waits => events.wait_beyond(wait, read),
            Next::Ends => return,
        }
    }
    unreachable!()
}
