//! A leg of one hart on its own run, and then its turn at the board.

ghost use Rattle.std.specs.Prelude.{◌≡◌, ◌<◌, IfOk, OnErr};
ghost use Rattle.turn_table.specs.Passes.{IsPassOf, IsIdle, part_of};
ghost use Rattle.crew_parts.specs.Parts.{number_of};
ghost use Rattle.free_run.specs.Parts.{IsOnRecord, MayMoveTo};
ghost use Rattle.free_run.specs.RecordLegs.{HasLed, TellsChange, WasRefused};

use crate::board::RecordBoard;
use crate::taking::take_board;
use crew_core::Order;
use hart_run::HartRun;
use outside::{Clock, Console, Gate};
use shared_types::NoMemory;
use std::alloc::Global;
use std::sync::Wait;
use turn_table::{Pass, TurnTable};

/// The number of the CSR that holds a hart's number (privileged specification, "Machine-Level CSRs").
const MHARTID: u16 = 0xf14;

/// What the board told a hart at its turn, and whether the board was over behind it.
#[derive(Drop)]
pub struct Led {
    pub order: Order,
    pub over: bool,
}

/// The number of a run's hart, for the gate.
pub fn hart_number(run: &HartRun) -> u8
    ensures { number_of run.now < 256 → result ≡ number_of run.now }
{
    let number = run.hart().csr(MHARTID).unwrap_or(0);
    u8::try_from(number).unwrap_or(0)
}

/// A leg and a turn, and whether the turn changed anything.
pub(crate) fn leg_and_turn<R: Wait, C: Console, K: Clock, G: Gate>(
    wait: &R,
    alloc: Global,
    table: &TurnTable<RecordBoard<C, K>>,
    pass: &mut Pass<RecordBoard<C, K>>,
    run: &mut HartRun,
    until: u64,
    gate: &G,
    leg: u64,
) -> Result<(Led, bool), NoMemory>
    requires table { IsPassOf table.now pass.old }
    requires idle { IsIdle pass.old }
    requires part { IsOnRecord (part_of pass.old) run.old }
    requires until { MayMoveTo (part_of pass.old) run.old until }
    ensures led { IfOk result (λ r. HasLed table.now pass.old pass.new run.old run.new until r.0) }
    ensures changed { IfOk result (λ r. TellsChange pass.old pass.new r.1) }
    ensures refused { OnErr result (WasRefused table.now pass.old pass.new run.old run.new until) }
{
    let hart = hart_number(run);
    gate.pass(hart, leg, false);
    let _ = run.advance(until);
    gate.pass(hart, leg, true);
    let mut board = take_board(wait, table, pass);
    let _ = board.over();
    let rows = board.rows();
    match board.turn(alloc, run) {
        Ok(order) => {
            let over = board.over();
            let changed = board.rows() != rows;
            table.give(pass, board);
            Ok((Led { order, over }, changed))
        }
        Err(NoMemory) => {
            table.give(pass, board);
            Err(NoMemory)
        }
    }
}

/// Passes the gate, makes the hart's moves up to a count on its run, passes the gate again, and has a turn with them
/// when the board comes by. For want of memory the board is abandoned and given back without a turn.
pub fn record_leg<R: Wait, C: Console, K: Clock, G: Gate>(
    wait: &R,
    alloc: Global,
    table: &TurnTable<RecordBoard<C, K>>,
    pass: &mut Pass<RecordBoard<C, K>>,
    run: &mut HartRun,
    until: u64,
    gate: &G,
    leg: u64,
) -> Result<Led, NoMemory>
    requires table { IsPassOf table.now pass.old }
    requires idle { IsIdle pass.old }
    requires part { IsOnRecord (part_of pass.old) run.old }
    requires until { MayMoveTo (part_of pass.old) run.old until }
    ensures led { IfOk result (HasLed table.now pass.old pass.new run.old run.new until) }
    ensures refused { OnErr result (WasRefused table.now pass.old pass.new run.old run.new until) }
{
    let (led, _) = leg_and_turn(wait, alloc, table, pass, run, until, gate, leg)?;
    Ok(led)
}
