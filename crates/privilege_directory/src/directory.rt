//! The directory: holders, next numbers, Yields and wants.

ghost use Rattle.std.specs.Prelude.{◌≡◌, ◌+◌, ◌-◌, ◌<◌, ◌≤◌, ◌^◌, [], length, nat_lt, slice_get, slice_index, slice_set, unwrap_or, None, Some, IsTrue, IfOk, replicate};
ghost use Rattle.log_entry.specs.Parts.{strength};
ghost use Rattle.order_rules.specs.Holders.{held, row, IsCrew};
ghost use Rattle.privilege_directory.specs.Directory.{directory_at_start, clash_of, may_gain, by_others, yields_of, gained, yielded};

use crate::row::{Row, is_less};
use crate::yields::Yields;
use log_entry::{WaitFor, Waits};
use rv_words::{MAX_HARTS, Mode};
use shared_types::NoMemory;
use std::alloc::Global;
use std::marker::Model;

/// Who holds each page in which mode, and what the harts want.
#[derive(Drop)]
pub struct Directory {
    holders: Vec<Row>,
    numbers: Vec<u64>,
    yields: Vec<Yields>,
    wants: Vec<Option<(u32, Mode)>>,
}

impl Model for Directory {
    ghost use Rattle.privilege_directory.specs.Directory as directory;
    ghost use Rattle.privilege_directory.specs.Directory.{IsDirectory};

    ghost Value = { directory.Directory };

    ghost view = { λ d. record {
      holders = d.holders.items;
      numbers = d.numbers.items;
      yields = d.yields.items;
      wants = d.wants.items;
    } };

    ghost invariant = { λ d. IsDirectory (record {
      holders = d.holders.items;
      numbers = d.numbers.items;
      yields = d.yields.items;
      wants = d.wants.items;
    }) };
}

impl Directory {
    /// Nobody holds anything, and nobody asks.
    pub fn start(alloc: Global, harts: u8, pages: u16) -> Result<Directory, NoMemory>
        requires { harts ≤ MAX_HARTS }
        ensures { IfOk result (λ d. d ≡ directory_at_start harts pages) }
    {
        let pages = usize::from(pages);
        let holders = rows(alloc, harts, pages)?;
        let yields = no_yields(alloc, pages)?;
        let Ok(numbers) = Vec::from_elem(alloc, 0u64, pages) else {
            return Err(NoMemory);
        };
        let Ok(wants) = Vec::from_elem(alloc, None, usize::from(harts)) else {
            return Err(NoMemory);
        };
        Ok(Directory {
            holders,
            numbers,
            yields,
            wants,
        })
    }

    fn row(&self, page: u32) -> &Row
        requires { page < length self.now.holders }
        ensures row { result.now ≡ row self.now.holders page }
        ensures size { length result.now ≡ length self.now.wants }
        ensures harts { length self.now.wants ≤ MAX_HARTS }
        ensures crew { IsCrew self.now.holders }
    {
        &self.holders[page as usize]
    }

    /// In which mode the hart holds the page.
    pub fn holds(&self, hart: u8, page: u32) -> Option<Mode>
        requires hart { hart < length self.now.wants }
        requires page { page < length self.now.holders }
        ensures mode { result ≡ held self.now.holders page hart }
        ensures crew { IsCrew self.now.holders }
    {
        self.row(page).hold(hart)
    }

    /// The least other hart that holds the page in conflict with the mode.
    pub fn clash(&self, hart: u8, page: u32, mode: Mode) -> Option<u8>
        requires hart { hart < length self.now.wants }
        requires page { page < length self.now.holders }
        ensures { result ≡ clash_of self.now hart page mode }
    {
        self.row(page).clash(hart, mode)
    }

    /// Whether the mode is more than what the hart holds of the page, and no other hart stands against it.
    pub fn can_gain(&self, hart: u8, page: u32, mode: Mode) -> bool
        requires hart { hart < length self.now.wants }
        requires page { page < length self.now.holders }
        ensures { result ≡ may_gain self.now hart page mode }
    {
        self.clash(hart, page, mode).is_none() && is_less(self.holds(hart, page), mode)
    }

    /// How many Yields a Gain of the page by the hart would have to wait for.
    pub fn waiting(&self, hart: u8, page: u32) -> u64
        requires hart { hart < length self.now.wants }
        requires page { page < length self.now.holders }
        ensures number { result ≡ length (by_others hart (yields_of self.now page)) }
        ensures few { result ≤ MAX_HARTS - 1 }
    {
        self.yields[page as usize].others(hart)
    }

    /// The hart holds the page in this mode from now on. It gives the number of this Gain, and fills
    /// `waits` with the Yields that it comes behind.
    pub fn gain(&mut self, hart: u8, page: u32, mode: Mode, waits: &mut Waits) -> u32
        requires hart { hart < length self.old.wants }
        requires page { page < length self.old.holders }
        requires allowed { IsTrue (may_gain self.old hart page mode) }
        requires empty { waits.old.items ≡ [] }
        requires room { MAX_HARTS - 1 ≤ waits.old.room }
        requires number { slice_index self.old.numbers page < 2 ^ 32 }
        ensures number { result ≡ slice_index self.old.numbers page }
        ensures directory { self.new ≡ gained self.old hart page mode }
        ensures waits { waits.new.items ≡ by_others hart (yields_of self.old page) }
        ensures room { waits.new.room ≡ waits.old.room }
        ensures crew { IsCrew self.new.holders }
    {
        let at = page as usize;
        self.yields[at].tell_others(hart, waits);
        self.yields[at].clear();
        self.holders[at].set(hart, Some(mode));
        let number = self.numbers[at];
        self.numbers[at] = number + 1;
        number as u32
    }

    /// The hart keeps only what is left of the page. It gives the number of this Yield.
    pub fn yield_to(&mut self, hart: u8, page: u32, count: u64, left: Option<Mode>) -> u32
        requires hart { hart < length self.old.wants }
        requires page { page < length self.old.holders }
        requires less { strength left < strength (held self.old.holders page hart) }
        requires number { slice_index self.old.numbers page < 2 ^ 32 }
        ensures number { result ≡ slice_index self.old.numbers page }
        ensures directory { self.new ≡ yielded self.old hart page count left }
        ensures crew { IsCrew self.new.holders }
    {
        let at = page as usize;
        self.yields[at].push(WaitFor { hart, count });
        self.holders[at].set(hart, left);
        let number = self.numbers[at];
        self.numbers[at] = number + 1;
        number as u32
    }

    /// Stores what the hart wants, or that it wants nothing.
    pub fn ask(&mut self, hart: u8, want: Option<(u32, Mode)>)
        requires { hart < length self.old.wants }
        ensures { self.new ≡ record self.old { wants = slice_set self.old.wants hart want } }
    {
        self.wants[hart as usize] = want;
    }

    /// What the hart last asked for.
    pub fn asked(&self, hart: u8) -> Option<(u32, Mode)>
        requires { hart < length self.now.wants }
        ensures { result ≡ unwrap_or (slice_get self.now.wants hart) None }
    {
        self.wants[hart as usize]
    }
}

fn rows(alloc: Global, harts: u8, pages: usize) -> Result<Vec<Row>, NoMemory>
    ensures { IfOk result (λ v. v.items ≡ replicate pages (replicate harts None)) }
{
    let Ok(mut rows) = Vec::with_capacity(alloc, pages) else {
        return Err(NoMemory);
    };
    for _ in 0..pages {
        let row = Row::nobody(alloc, harts)?;
        let Ok(()) = rows.push(row) else {
            return Err(NoMemory);
        };
    }
    Ok(rows)
}

fn no_yields(alloc: Global, pages: usize) -> Result<Vec<Yields>, NoMemory>
    ensures { IfOk result (λ v. v.items ≡ replicate pages []) }
{
    let Ok(mut yields) = Vec::with_capacity(alloc, pages) else {
        return Err(NoMemory);
    };
    for _ in 0..pages {
        let Ok(()) = yields.push(Yields::none()) else {
            return Err(NoMemory);
        };
    }
    Ok(yields)
}
