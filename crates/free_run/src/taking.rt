//! Taking the board from the table.

ghost use Rattle.std.specs.Prelude.{◌≡◌, length, slice_get};
ghost use Rattle.turn_table.specs.Passes.{IsPassOf, IsIdle, IsSame, HoldsBoard, harts_of, hart_of, part_of};

use std::hint::spin_loop;
use std::sync::Wait;
use turn_table::{Parted, Pass, TurnTable};

/// How often a hart looks for the board before it sleeps until the board is given back.
const BOARD_LOOKS: u32 = 32;

/// How long it waits between two looks.
const SPINS: u32 = 16;

/// Waits for a moment.
fn pause() {
    for _ in 0..SPINS {
        spin_loop();
    }
}

/// Waits for the board. It is looked for some times before the thread sleeps: a turn takes less time than a sleep.
pub fn take_board<R: Wait, B: Parted>(wait: &R, table: &TurnTable<B>, pass: &mut Pass<B>) -> B
    requires table { IsPassOf table.now pass.old }
    requires idle { IsIdle pass.old }
    ensures table { IsPassOf table.now pass.new }
    ensures same { IsSame pass.old pass.new }
    ensures count { length (B.parts result) ≡ harts_of table.now }
    ensures part { slice_get (B.parts result) (hart_of pass.old) ≡ part_of pass.old }
    ensures holds { HoldsBoard B.parts result pass.new }
{
    for _ in 0..BOARD_LOOKS {
        if let Some(board) = table.try_take(pass) {
            return board;
        }
        pause();
    }
    table.take(wait, pass)
}
