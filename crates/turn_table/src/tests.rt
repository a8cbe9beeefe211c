ghost use Rattle.std.specs.Prelude.{◌≡◌, ◌<◌, ◌≤◌, ◌+◌, ◌∷◌, [], vec_len, vec_capacity};
ghost use Rattle.std.specs.Thread.{IsSync};
ghost use Rattle.turn_table.specs.Passes.{IsPassOf, IsIdle, harts_of, hart_of};
ghost use Rattle.turn_table.specs.TestPasses.{AreBoth, AreFrom};

use crate::{NoRoom, Parted, Pass, TurnTable};
use std::process::Abort;
use std::sync::Wait;
use std::test::Fail;
use std::thread::{Threads, join};

#[derive(Drop)]
struct Four {
    first: u64,
    second: u64,
    third: u64,
    fourth: u64,
}

impl Parted for Four {
    type Part = u64;

    ghost parts = { λ b. b.first ∷ b.second ∷ b.third ∷ b.fourth ∷ [] };

    fn harts(&self) -> u8 {
        4
    }
}

impl Four {
    fn has(&self, numbers: [u64; 4]) -> bool {
        let [first, second, third, fourth] = numbers;
        self.first == first && self.second == second && self.third == third && self.fourth == fourth
    }
}

/// Hart 0 changes its number from 1 to 5; hart 1 sees it, and hart 0 finds no board meanwhile.
fn one_after_the_other<R: Wait + Abort>(
    rt: &R,
    table: &TurnTable<Four>,
    first: &mut Pass<Four>,
    second: &mut Pass<Four>,
)
    requires table { (harts_of table.now ≡ 4) × IsPassOf table.now first.old × IsPassOf table.now second.old }
    requires idle { IsIdle first.old × IsIdle second.old }
    requires harts { (hart_of first.old ≡ 0) × (hart_of second.old ≡ 1) }
    ensures table { IsPassOf table.now first.new × IsPassOf table.now second.new }
    ensures idle { IsIdle first.new × IsIdle second.new }
    ensures harts { (hart_of first.new ≡ 0) × (hart_of second.new ≡ 1) }
{
    let mut board = table.take(rt, first);
    assert!(rt; board.has([1, 2, 3, 4]));
    board.first = 5;
    table.give(first, board);
    let seen = table.take(rt, second);
    assert!(rt; seen.has([5, 2, 3, 4]));
    assert!(rt; table.try_take(first).is_none());
    table.give(second, seen);
}

/// Turns of a pass, each of which adds one to its hart's number.
fn count<R: Wait>(
    rt: &R,
    table: &TurnTable<Four>,
    mut pass: Pass<Four>,
    hart: u8,
    turns: u64,
) -> Pass<Four>
    requires table { (harts_of table.now ≡ 4) × IsPassOf table.now pass × IsIdle pass }
    requires hart { (hart_of pass ≡ hart) × (hart < 4) }
    ensures table { IsPassOf table.now result × IsIdle result }
    ensures hart { hart_of result ≡ hart }
{
    for _ in 0..turns {
        let mut board = table.take(rt, &mut pass);
        match hart {
            0 => board.first = board.first.wrapping_add(1),
            1 => board.second = board.second.wrapping_add(1),
            2 => board.third = board.third.wrapping_add(1),
            _ => board.fourth = board.fourth.wrapping_add(1),
        }
        table.give(&mut pass, board);
    }
    pass
}

/// The passes of a hart and of the next one.
type Both = (Pass<Four>, Pass<Four>);

/// The last two of the passes.
fn last_two(table: &TurnTable<Four>, passes: &mut Vec<Pass<Four>>) -> Both
    requires each { AreFrom table.now 0 passes.old.items }
    requires two { 2 ≤ vec_len passes.old }
    ensures each { AreFrom table.now 0 passes.new.items }
    ensures both { AreBoth table.now (vec_len passes.new) result }
    ensures count { vec_len passes.new + 2 ≡ vec_len passes.old }
    ensures room { vec_capacity passes.old ≤ vec_capacity passes.new }
{
    let (Some(second), Some(first)) = (passes.pop(), passes.pop()) else {
        unreachable!()
    };
    (first, second)
}

/// Puts two passes behind those of the harts before.
fn put_back(table: &TurnTable<Four>, passes: &mut Vec<Pass<Four>>, both: Both)
    requires each { AreFrom table.now 0 passes.old.items }
    requires both { AreBoth table.now (vec_len passes.old) both }
    requires room { vec_len passes.old + 2 ≤ vec_capacity passes.old }
    ensures each { AreFrom table.now 0 passes.new.items }
    ensures count { vec_len passes.new ≡ vec_len passes.old + 2 }
    ensures room { vec_capacity passes.old ≤ vec_capacity passes.new }
{
    let (first, second) = both;
    let (Ok(()), Ok(())) = (passes.push(first), passes.push(second)) else {
        unreachable!()
    };
}

/// Two threads, each with the pass of a hart, which has a thousand turns more than its number.
fn side_by_side<R: Threads + Wait + Sync>(
    rt: &R,
    table: &TurnTable<Four>,
    passes: Both,
    hart: u8,
) -> Both
    requires passes { AreBoth table.now hart passes }
    requires harts { (harts_of table.now ≡ 4) × (hart < 3) }
    ensures passes { AreBoth table.now hart result }
{
    let (first, second) = passes;
    join(
        rt,
        move || -> Pass<Four>
            requires sync { IsSync R.row }
            requires table { (harts_of table.now ≡ 4) × IsPassOf table.now first × IsIdle first }
            requires hart { (hart_of first ≡ hart) × (hart < 3) }
            ensures table { IsPassOf table.entry.now result × IsIdle result }
            ensures hart { hart_of result ≡ hart }
        { count(rt, table, first, hart, 1000 + hart as u64) },
        move || -> Pass<Four>
            requires sync { IsSync R.row }
            requires table { (harts_of table.now ≡ 4) × IsPassOf table.now second × IsIdle second }
            requires hart { (hart_of second ≡ hart + 1) × (hart < 3) }
            ensures table { IsPassOf table.entry.now result × IsIdle result }
            ensures hart { hart_of result ≡ hart + 1 }
        { count(rt, table, second, hart + 1, 1001 + hart as u64) },
    )
}

/// Four threads, two within each of two.
fn four_at_once<R: Threads + Wait + Sync>(
    rt: &R,
    table: &TurnTable<Four>,
    low: Both,
    high: Both,
) -> (Both, Both)
    requires low { AreBoth table.now 0 low }
    requires high { AreBoth table.now 2 high }
    requires harts { harts_of table.now ≡ 4 }
    ensures low { AreBoth table.now 0 result.0 }
    ensures high { AreBoth table.now 2 result.1 }
{
    join(
        rt,
        move || -> Both
            requires sync { IsSync R.row }
            requires table { (harts_of table.now ≡ 4) × AreBoth table.now 0 low }
            ensures table { AreBoth table.entry.now 0 result }
        { side_by_side(rt, table, low, 0) },
        move || -> Both
            requires sync { IsSync R.row }
            requires table { (harts_of table.now ≡ 4) × AreBoth table.now 2 high }
            ensures table { AreBoth table.entry.now 2 result }
        { side_by_side(rt, table, high, 2) },
    )
}

#[test]
fn a_board_goes_from_hand_to_hand(rt: HostRuntime) -> Result<(), Fail> {
    let board = Four {
        first: 1,
        second: 2,
        third: 3,
        fourth: 4,
    };
    let (table, mut passes) = match TurnTable::open(rt.alloc(), board.harts(), board) {
        Ok(opened) => opened,
        Err(NoRoom { board }) => {
            assert!(rt; board.has([1, 2, 3, 4]));
            return Err("no memory".into());
        }
    };
    let high = last_two(&table, &mut passes);
    let mut low = last_two(&table, &mut passes);
    one_after_the_other(&rt, &table, &mut low.0, &mut low.1);
    let (low, high) = four_at_once(&rt, &table, low, high);
    put_back(&table, &mut passes, low);
    put_back(&table, &mut passes, high);
    let board = table.close(passes);
    assert!(rt; board.has([1005, 1003, 1005, 1007]));
    Ok(())
}
