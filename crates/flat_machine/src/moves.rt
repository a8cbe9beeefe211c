//! One move of a hart on the memory, and what it takes from the others.

ghost use Rattle.std.specs.Prelude.{◌≡◌, ◌*◌, ◌+◌, length, map};
ghost use Rattle.rv_words.specs.Limits.{page_bytes};
ghost use Rattle.rv_hart.specs.Places.{SameBoard};
ghost use Rattle.flat_machine.specs.Moves.{next_move, writes_in, lost_by};
ghost use Rattle.flat_machine.specs.HartMoves.{HartMoved, FindsAccess};

use crate::ram::Ram;
use rv_hart::{Fetch, Hart, Need, Wrote};
use rv_words::Access;

fn writes_in(at: u32, reserved: Option<u32>) -> bool
    ensures { result ≡ writes_in at reserved }
{
    match reserved {
        Some(word) => at / 4 == word / 4,
        None => false,
    }
}

fn lose(hart: &mut Hart, wrote: Wrote)
    ensures { hart.new ≡ lost_by wrote hart.old }
{
    if let Wrote::Bytes { at, .. } = wrote {
        if writes_in(at, hart.reserved()) {
            hart.lose();
        }
    }
}

fn all_lose(harts: &mut [Hart], wrote: Wrote)
    ensures { harts.new ≡ map (lost_by wrote) harts.old }
{
    for hart in harts.iter_mut() {
        lose(hart, wrote);
    }
}

/// What a move wrote may end each hart's reservation.
pub fn each_loses(harts: &mut Vec<Hart>, wrote: Wrote)
    ensures { harts.new.items ≡ map (lost_by wrote) harts.old.items }
{
    all_lose(harts, wrote);
}

/// Makes the next move of a hart, where it is no device access, and tells what it wrote.
pub fn hart_move(hart: &mut Hart, memory: &mut Ram, pages: u16) -> Option<Wrote>
    requires board { hart.old.pages ≡ pages }
    requires size { length memory.old ≡ page_bytes * pages }
    ensures made { HartMoved hart.old memory.old (next_move hart.old memory.old) hart.new memory.new result }
    ensures board { SameBoard hart.old hart.new }
    ensures size { length memory.new ≡ length memory.old }
{
    match hart.fetch_need() {
        Fetch::At(pc) => {
            let word = memory.word_round(pc, pages);
            let loaded = match hart.data_need(word) {
                Need::Load(at) | Need::Exclusive(at) => memory.word_round(at, pages),
                Need::Store(_) | Need::Nothing => 0,
                Need::Device(_) => return None,
            };
            let wrote = hart.finish(word, loaded);
            memory.store(wrote, pages);
            Some(wrote)
        }
        Fetch::Interrupt | Fetch::Fault => {
            hart.enter();
            Some(Wrote::Nothing)
        }
    }
}

/// The word that the next move of a hart fetches and its device access, where it is one.
pub fn hart_access(hart: &Hart, memory: &Ram, pages: u16) -> Option<(u32, Access)>
    requires board { hart.now.pages ≡ pages }
    requires size { length memory.now ≡ page_bytes * pages }
    ensures { FindsAccess hart.now memory.now result }
{
    match hart.fetch_need() {
        Fetch::At(pc) => {
            let word = memory.word_round(pc, pages);
            match hart.data_need(word) {
                Need::Device(access) => Some((word, access)),
                _ => None,
            }
        }
        Fetch::Interrupt | Fetch::Fault => None,
    }
}
