//! A recording by a list of turns.

ghost use Rattle.std.specs.Prelude.{◌≡◌, ◌↔◌, ◌<◌, ◌≤◌, nat_lt, map, IsTrue, MatchResult, OnOk};
ghost use Rattle.std.specs.List.{list_all};
ghost use Rattle.rv_words.specs.Limits.{most_moves, longest_log};
ghost use Rattle.orders_law.specs.Orders.{below};
ghost use Rattle.turn_model.specs.Laws.{OfHarts};
ghost use Rattle.crew_parts.specs.Boards.{world, plain_at_start};
ghost use Rattle.recorded_turns.specs.Recordings.{RecordsByList};
ghost use Rattle.recorder.specs.Manned.{HasGiven, IsManned, still};
ghost use Rattle.recorder.specs.Listed.{HasRow, TakesRows, TakesList};

use crate::crewed::Recorder;
use crew_core::{OutOfMemory, Recorded};
use elf_image::Image;
use outside::{Clock, Console};
use rv_words::MAX_HARTS;
use shared_types::NoMemory;
use std::alloc::Global;

impl<C: Console, K: Clock> Recorder<C, K> {
    /// A turn of a hart, with so many moves of its leg at most.
    fn row(&mut self, alloc: Global, hart: u8, most: u32) -> Result<(), NoMemory>
        requires hart { hart < self.old.board.harts }
        requires manned { IsManned self.old.board self.old.runs.items self.old.orders still }
        ensures given { HasGiven self.old.board.now self.new.board.now }
        ensures taken { OnOk result
            (HasRow self.old.board self.new.board hart most self.new.runs.items self.new.orders) }
    {
        self.advance(hart, most);
        self.turn(alloc, hart)?;
        Ok(())
    }

    /// The turns of a list.
    fn rows(&mut self, alloc: Global, list: &[(u8, u32)]) -> Result<(), NoMemory>
        requires list { OfHarts self.old.board.harts list.now }
        requires manned { IsManned self.old.board self.old.runs.items self.old.orders still }
        ensures given { HasGiven self.old.board.now self.new.board.now }
        ensures taken { OnOk result
            (TakesRows list.now self.old.board self.new.board self.new.runs.items self.new.orders) }
    {
        for &(hart, most) in list {
            self.row(alloc, hart, most)?;
        }
        Ok(())
    }

    /// A turn without moves of each hart.
    fn rests(&mut self, alloc: Global) -> Result<(), NoMemory>
        requires { IsManned self.old.board self.old.runs.items self.old.orders still }
        ensures given { HasGiven self.old.board.now self.new.board.now }
        ensures taken { OnOk result (TakesRows (map (λ h. (h, 0)) (below self.old.board.harts))
            self.old.board self.new.board self.new.runs.items self.new.orders) }
    {
        let harts = self.board.harts();
        for hart in 0..harts {
            self.row(alloc, hart, 0)?;
        }
        Ok(())
    }

    /// The turns of a list; then the board is cut, unless it is over, and each hart has a turn without moves.
    fn list(&mut self, alloc: Global, list: &[(u8, u32)]) -> Result<(), NoMemory>
        requires list { OfHarts self.old.board.harts list.now }
        requires manned { IsManned self.old.board self.old.runs.items self.old.orders still }
        ensures given { HasGiven self.old.board.now self.new.board.now }
        ensures taken { OnOk result
            (TakesList list.now self.old.board self.new.board self.new.runs.items self.new.orders) }
    {
        self.rows(alloc, list)?;
        let _ = self.board.harts();
        self.board.cut();
        self.rests(alloc)?;
        Ok(())
    }
}

/// Whether each row is of a hart below this number.
fn all_below(harts: u8, list: &[(u8, u32)]) -> bool
    ensures { result ≡ list_all (λ row. nat_lt row.0 harts) list.now }
{
    list.iter().all(|row| row.0 < harts)
}

/// Whether the rows of a list are of harts that a board with so many has.
pub fn has_harts(harts: u8, list: &[(u8, u32)]) -> bool
    ensures { IsTrue result ↔ OfHarts harts list.now }
{
    all_below(harts, list)
}

/// Records a board by a list of turns: for each hart and number in the list a turn of the hart, with so many moves of
/// its leg at most. Behind the list the board is cut, unless it is over, and each hart has a turn without moves. Where
/// memory ran out, console and clock come back with what they gave.
pub fn record_list<C: Console, K: Clock>(
    alloc: Global,
    image: &Image,
    harts: u8,
    limit: u64,
    log_limit: u64,
    console: C,
    clock: K,
    list: &[(u8, u32)],
) -> Result<Recorded<C, K>, OutOfMemory<C, K>>
    requires least { 1 ≤ harts }
    requires most { harts ≤ MAX_HARTS }
    requires limit { limit ≤ most_moves }
    requires log_least { 1024 ≤ log_limit }
    requires log_most { log_limit ≤ longest_log }
    requires list { OfHarts harts list.now }
    ensures { MatchResult result
        (λ r. RecordsByList list.now
        (plain_at_start image.now harts limit log_limit (world (C.seen console) (K.seen clock)))
        (world (C.seen r.console) (K.seen r.clock)) r.log r.ended r.journal r.turns)
        (λ e. HasGiven (world (C.seen console) (K.seen clock)) (world (C.seen e.console) (K.seen e.clock))) }
{
    let _ = image.pages();
    let mut recording = Recorder::start(alloc, image, harts, limit, log_limit, console, clock)?;
    match recording.list(alloc, list) {
        Ok(()) => recording.finish(),
        Err(NoMemory) => Err(recording.abandon()),
    }
}
