//! The least order of a log's entries.
ghost use Rattle.std.specs.Prelude.{◌≡◌, ◌++◌, ◌∷◌, [], Some, IfOk, if◌then◌else◌};
ghost use Rattle.log_entry.specs.declared.log.Entry.{Entry as AnEntry};
ghost use Rattle.log_entry.specs.Parts.{is_end as is_end_entry, is_some_and};
ghost use Rattle.order_rules.specs.Orderly.{LeastOrderLeaves};
ghost use Rattle.order_rules.specs.Places.{entry_at};
ghost use Rattle.log_order.specs.Bounds.{IsSmall};
ghost use Rattle.log_order.specs.Legs.{AreLeastLegs};

use crate::cursor::Cursor;
use crate::orderly::Leg;
use crate::pages::entry_of;
use log_entry::{Entry, Log};
use std::alloc::{AllocError, Global};

/// The least hart that the least order leaves an entry of, and the place of that entry.
pub(crate) fn least_left(alloc: Global, l: &Log) -> Result<Option<(usize, usize)>, AllocError>
    requires { IsSmall l.now }
    ensures { IfOk result (λ p. LeastOrderLeaves l.now p) }
{
    let mut cursor = Cursor::start(alloc, l)?;
    while cursor.step(l).is_some() {}
    Ok(cursor.least_left(l))
}

fn is_end(l: &Log, leg: Leg) -> bool
    requires { (e : AnEntry) × (entry_at l.now leg.hart leg.entry ≡ Some e) }
    ensures { result ≡ is_some_and (entry_at l.now leg.hart leg.entry) is_end_entry }
{
    matches!(entry_of(l, leg), Entry::End { .. })
}

/// Adds an entry to the legs, unless it is an End.
fn add(l: &Log, leg: Leg, legs: &mut Vec<Leg>) -> Result<(), AllocError>
    requires { (e : AnEntry) × (entry_at l.now leg.hart leg.entry ≡ Some e) }
    ensures { IfOk result (λ _. legs.new.items ≡ if is_some_and (entry_at l.now leg.hart leg.entry) is_end_entry
        then legs.old.items else legs.old.items ++ leg ∷ []) }
{
    if !is_end(l, leg) {
        legs.push(leg)?;
    }
    Ok(())
}

/// The entries that the least order takes, without the Ends.
pub(crate) fn least_legs(alloc: Global, l: &Log) -> Result<Vec<Leg>, AllocError>
    requires { IsSmall l.now }
    ensures { IfOk result (λ legs. AreLeastLegs l.now legs.items) }
{
    let mut cursor = Cursor::start(alloc, l)?;
    let mut legs = Vec::new(alloc);
    while let Some(leg) = cursor.step(l) {
        add(l, leg, &mut legs)?;
    }
    Ok(legs)
}
