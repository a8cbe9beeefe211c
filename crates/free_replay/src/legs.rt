//! A leg of one hart on its own run, and then its turn at the board.

ghost use Rattle.std.specs.Prelude.{IsTrue};
ghost use Rattle.turn_table.specs.Passes.{part_of};
ghost use Rattle.free_replay.specs.Parts.{MayMoveTo};
ghost use Rattle.free_replay.specs.ReplayLegs.{GaveStuck, HasLed, IsReady};

use crate::board::ReplayTurns;
use free_run::{hart_number, take_board};
use hart_run::HartRun;
use outside::Gate;
use replay_core::Pace;
use std::sync::Wait;
use turn_table::{Pass, TurnTable};

/// What the board told a hart at its turn. Where `over` is true no hart can go on behind it; where it is false nothing is
/// said.
#[derive(Drop)]
pub struct Paced {
    pub pace: Pace,
    pub over: bool,
}

/// A leg and a turn, and whether the turn changed anything.
pub(crate) fn leg_and_turn<R: Wait, G: Gate>(
    wait: &R,
    table: &TurnTable<ReplayTurns>,
    pass: &mut Pass<ReplayTurns>,
    run: &mut HartRun,
    until: u64,
    gate: &G,
    leg: u64,
) -> (Paced, bool)
    requires ready { IsReady table.now pass.old run.old }
    requires until { MayMoveTo (part_of pass.old) run.old until }
    ensures led { HasLed table.now pass.old pass.new run.old run.new until result.0.pace }
    ensures over { IsTrue result.0.over → GaveStuck pass.old pass.new }
{
    let hart = hart_number(run);
    gate.pass(hart, leg, false);
    let _ = run.advance(until);
    gate.pass(hart, leg, true);
    let mut board = take_board(wait, table, pass);
    let _ = board.over();
    let (pace, changed) = board.turn(run);
    let over = board.over();
    table.give(pass, board);
    (Paced { pace, over }, changed)
}

/// Passes the gate, makes the hart's moves up to a count on its run, passes the gate again, and has a turn with them
/// when the board comes by. It takes no memory.
pub fn replay_leg<R: Wait, G: Gate>(
    wait: &R,
    table: &TurnTable<ReplayTurns>,
    pass: &mut Pass<ReplayTurns>,
    run: &mut HartRun,
    until: u64,
    gate: &G,
    leg: u64,
) -> Paced
    requires ready { IsReady table.now pass.old run.old }
    requires until { MayMoveTo (part_of pass.old) run.old until }
    ensures led { HasLed table.now pass.old pass.new run.old run.new until result.pace }
    ensures over { IsTrue result.over → GaveStuck pass.old pass.new }
{
    let (paced, _) = leg_and_turn(wait, table, pass, run, until, gate, leg);
    paced
}
