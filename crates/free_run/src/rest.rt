//! Turns and legs of all harts on one thread.

ghost use Rattle.std.specs.Prelude.{◌≡◌, ◌≤◌, true, false, OnOk, OnErr};
ghost use Rattle.crew_parts.specs.Boards.{is_over_in};
ghost use Rattle.crew_parts.specs.Parts.{AreParts, IsPart, number_of, until_of};
ghost use Rattle.crew_parts.specs.Turns.{SameTerms};
ghost use Rattle.free_run.specs.Recordings.{GoesOn};

use crate::board::RecordBoard;
use crew_core::Order;
use hart_run::HartRun;
use outside::{Clock, Console};
use shared_types::NoMemory;
use std::alloc::Global;
use std::sync::Wait;

/// A hart's leg, up to a count, and a turn with it.
fn leg<C: Console, K: Clock>(
    alloc: Global,
    board: &mut RecordBoard<C, K>,
    run: &mut HartRun,
    until: u64,
) -> Result<(), NoMemory>
    requires part { IsPart board.old (number_of run.old) run.old }
    requires least { run.old.count ≤ until }
    requires most { until ≤ until_of board.old (number_of run.old) }
    ensures terms { SameTerms board.old board.new }
    ensures goes { OnOk result (GoesOn board.old board.new (number_of run.old) run.new) }
    ensures refused { OnErr result (board.new.abandoned ≡ true) }
{
    let _ = board.over();
    let _ = run.advance(until);
    board.turn(alloc, run)?;
    Ok(())
}

/// A turn of a hart, and where it is told to go on, its leg and a turn with that.
fn turns<C: Console, K: Clock>(
    alloc: Global,
    board: &mut RecordBoard<C, K>,
    run: &mut HartRun,
) -> Result<(), NoMemory>
    requires { IsPart board.old (number_of run.old) run.old }
    ensures terms { SameTerms board.old board.new }
    ensures goes { OnOk result (GoesOn board.old board.new (number_of run.old) run.new) }
    ensures refused { OnErr result (board.new.abandoned ≡ true) }
{
    let _ = board.over();
    let order = board.turn(alloc, run)?;
    let Order::Go { until } = order else {
        return Ok(());
    };
    let _ = board.over();
    leg(alloc, board, run, until)
}

/// Turns and a leg of each hart.
fn turns_of_all<C: Console, K: Clock>(
    alloc: Global,
    board: &mut RecordBoard<C, K>,
    runs: &mut [HartRun],
) -> Result<(), NoMemory>
    requires { AreParts board.old runs.old }
    ensures terms { SameTerms board.old board.new }
    ensures parts { OnOk result (AreParts board.new runs.new) }
    ensures refused { OnErr result (board.new.abandoned ≡ true) }
{
    for i in 0..runs.len() {
        let _ = board.over();
        turns(alloc, board, &mut runs[i])?;
    }
    Ok(())
}

/// Turns and legs of all harts, until the board is over. Where their workers ended as they should, it is.
pub(crate) fn turn_until_over<R: Wait, C: Console, K: Clock>(
    wait: &R,
    alloc: Global,
    board: &mut RecordBoard<C, K>,
    runs: &mut [HartRun],
)
    requires { AreParts board.old runs.old }
    ensures terms { SameTerms board.old board.new }
    ensures ended { board.new.abandoned ≡ false
        → AreParts board.new runs.new × (is_over_in board.new ≡ true) }
{
    for _ in wait.forever() {
        if board.over() {
            return;
        }
        let Ok(()) = turns_of_all(alloc, board, runs) else {
            return;
        };
    }
    unreachable!()
}
