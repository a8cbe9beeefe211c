//! The rules of pages: each page's entries, taken by their numbers.
ghost use Rattle.std.specs.Prelude.{◌≡◌, ◌+◌, ◌<◌, ℕ, Some, None, find, length, option_map, slice_set, IfOk};
ghost use Rattle.log_entry.specs.declared.log.Entry.{Entry as AnEntry};
ghost use Rattle.order_rules.specs.Places.{entry_at};
ghost use Rattle.order_rules.specs.Orderly.{Keeps, spots, o5, o6, o7};
ghost use Rattle.log_order.specs.declared.series.Series.TheVariants.{Pages};
ghost use Rattle.log_entry.specs.Parts.{holds_then};
ghost use Rattle.order_rules.specs.Rules.{yields_after};
ghost use Rattle.log_order.specs.Holding.{holds_wrongly, waits_wrongly};
ghost use Rattle.log_order.specs.Least.{least_with, IsNumberedBelow, IsLeastSoFar};
ghost use Rattle.log_order.specs.Rows.{spot_of, AreFilled};

use crate::holding::Holding;
use crate::least::lesser;
use crate::orderly::Leg;
use crate::row::Row;
use log_entry::{Entry, Log};
use std::alloc::{AllocError, Global};

/// The least entries that break O6 and O7. Where one breaks O6, which comes first, no more is said of O7.
#[derive(Clone, Copy, Debug, PartialEq, Eq)]
pub(crate) struct Breaks {
    pub(crate) holds: Option<Leg>,
    pub(crate) waits: Option<Leg>,
}

/// The entry that stands there.
pub(crate) fn entry_of(l: &Log, leg: Leg) -> &Entry
    requires { (e : AnEntry) × (entry_at l.now leg.hart leg.entry ≡ Some e) }
    ensures { entry_at l.now leg.hart leg.entry ≡ Some result.now }
{
    &l.streams.items()[leg.hart as usize].items()[leg.entry as usize]
}

/// Judges an entry of a page by what is held before it, and takes it. Once an entry breaks O6, waits are not looked at.
fn judge_entry(
    e: &Entry,
    leg: Leg,
    holding: &mut Holding,
    least: Breaks,
) -> Result<Breaks, AllocError>
    requires { leg.hart < length holding.old.holds }
    ensures holds { IfOk result (λ r. r.holds
        ≡ least_with (holds_wrongly holding.old.holds leg.hart e.now) least.holds leg) }
    ensures waits { IfOk result (λ r. r.holds ≡ None
        → r.waits ≡ least_with (waits_wrongly holding.old.yields leg.hart e.now) least.waits leg) }
    ensures held { IfOk result (λ _. holding.new.holds ≡ slice_set holding.old.holds leg.hart (holds_then e.now)) }
    ensures yields { IfOk result (λ r. r.holds ≡ None
        → holding.new.yields ≡ yields_after leg.hart e.now holding.old.yields) }
{
    let holds = lesser(least.holds, leg, holding.holds_wrongly(leg.hart, e));
    if holds.is_some() {
        holding.take_hold(leg.hart, e);
        let waits = least.waits;
        return Ok(Breaks { holds, waits });
    }
    let waits = lesser(least.waits, leg, holding.waits_wrongly(leg.hart, e));
    holding.take(leg.hart, e)?;
    Ok(Breaks { holds, waits })
}

/// Judges the entries of a page.
fn judge_page(
    alloc: Global,
    l: &Log,
    rows: &[Row],
    page: usize,
    least: Breaks,
) -> Result<Breaks, AllocError>
    requires page { page < length rows.now }
    requires filled { AreFilled Pages l.now (length l.now.streams) 0 rows.now }
    requires numbered { Keeps l.now o5 }
    requires holds { IsLeastSoFar l.now (o6 l.now) (IsNumberedBelow Pages l.now page 0) least.holds }
    requires waits { least.holds ≡ None
        → IsLeastSoFar l.now (o7 l.now) (IsNumberedBelow Pages l.now page 0) least.waits }
    ensures holds { IfOk result (λ r.
        IsLeastSoFar l.now (o6 l.now) (IsNumberedBelow Pages l.now (page + 1) 0) r.holds) }
    ensures waits { IfOk result (λ r. r.holds ≡ None
        → IsLeastSoFar l.now (o7 l.now) (IsNumberedBelow Pages l.now (page + 1) 0) r.waits) }
{
    let row = &rows[page];
    let mut holding = Holding::start(alloc, l.streams.items().len())?;
    let mut least = least;
    for number in 0..row.size() {
        match row.at(number) {
            None => holding.skip(),
            Some(leg) => least = judge_entry(entry_of(l, leg), leg, &mut holding, least)?,
        }
    }
    Ok(least)
}

/// The least entry of a log that breaks O6, where O5 is kept, and where none does, the least that breaks O7.
pub(crate) fn judge_pages(alloc: Global, l: &Log, rows: &[Row]) -> Result<Breaks, AllocError>
    requires filled { AreFilled Pages l.now (length l.now.streams) 0 rows.now }
    requires numbered { Keeps l.now o5 }
    ensures holds { IfOk result (λ r. find (o6 l.now) (spots l.now) ≡ option_map spot_of r.holds) }
    ensures waits { IfOk result (λ r. r.holds ≡ None → find (o7 l.now) (spots l.now) ≡ option_map spot_of r.waits) }
{
    let mut least = Breaks {
        holds: None,
        waits: None,
    };
    for page in 0..rows.len() {
        least = judge_page(alloc, l, rows, page, least)?;
    }
    Ok(least)
}
