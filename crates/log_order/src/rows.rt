//! Each entry in the slot of its number.
ghost use Rattle.std.specs.Prelude.{◌≡◌, ◌+◌, ◌*◌, ◌<◌, ◌≤◌, ◌^◌, ℕ, Some, None, length, map, replicate, find, IsTrue, IfOk, IfNone};
ghost use Rattle.order_rules.specs.Places.{stream};
ghost use Rattle.order_rules.specs.Orderly.{spots};
ghost use Rattle.log_order.specs.Bounds.{IsSmall};
ghost use Rattle.log_order.specs.InStream.{IsFirst};
ghost use Rattle.log_order.specs.Rows.{key_of, width_of, is_free, with_leg, misplaced, AreFilled};

use crate::counts::count_log;
use crate::orderly::Leg;
use crate::row::Row;
use crate::series::{Series, key};
use log_entry::{Entry, Log};
use std::alloc::{AllocError, Global};

fn empty_rows(alloc: Global, sizes: &[usize]) -> Result<Vec<Row>, AllocError>
    ensures { IfOk result (λ rows. rows.items ≡ map (λ size. replicate size None) sizes.now) }
{
    let mut rows = Vec::new(alloc);
    for size in sizes {
        rows.push(Row::empty(alloc, *size)?)?;
    }
    Ok(rows)
}

fn put_entry(series: Series, e: &Entry, leg: Leg, rows: &mut [Row]) -> bool
    requires row { (n : ℕ × ℕ) → key_of series e.now ≡ Some n → n.0 < length rows.old }
    ensures answer { result ≡ is_free rows.old (key_of series e.now) }
    ensures rows { IsTrue result → rows.new ≡ with_leg rows.old (key_of series e.now) leg }
{
    match key(series, e) {
        None => true,
        Some((row, number)) => rows[row].put(number as usize, leg),
    }
}

/// Puts a stream's entries into their slots, up to the first that has no free one.
fn fill_stream(series: Series, l: &Log, h: usize, rows: &mut [Row]) -> Option<usize>
    requires hart { h < length l.now.streams }
    requires small { IsSmall l.now }
    requires filled { AreFilled series l.now h 0 rows.old }
    ensures first { IsFirst (λ j. misplaced series l.now (h, j)) (length (stream l.now h) + 1) result }
    ensures filled { IfNone result (AreFilled series l.now (h + 1) 0 rows.new) }
{
    let s = l.streams.items()[h].items();
    for i in 0..s.len() {
        let leg = Leg {
            hart: h as u8,
            entry: i as u32,
        };
        if !put_entry(series, &s[i], leg, rows) {
            return Some(i);
        }
    }
    None
}

/// Puts all entries into their slots, up to the first that has no free one.
fn fill_log(series: Series, l: &Log, rows: &mut [Row]) -> Option<(usize, usize)>
    requires small { IsSmall l.now }
    requires filled { AreFilled series l.now 0 0 rows.old }
    ensures found { result ≡ find (misplaced series l.now) (spots l.now) }
    ensures filled { IfNone result (AreFilled series l.now (length l.now.streams) 0 rows.new) }
{
    for h in 0..l.streams.items().len() {
        if let Some(i) = fill_stream(series, l, h, rows) {
            return Some((h, i));
        }
    }
    None
}

/// Where each entry of the series stands, and the first that has no place.
pub(crate) fn rows_of(
    alloc: Global,
    series: Series,
    l: &Log,
) -> Result<(Vec<Row>, Option<(usize, usize)>), AllocError>
    requires { IsSmall l.now }
    ensures found { IfOk result (λ r. r.1 ≡ find (misplaced series l.now) (spots l.now)) }
    ensures filled { IfOk result (λ r. r.1 ≡ None → AreFilled series l.now (length l.now.streams) 0 r.0.items) }
{
    let mut sizes = vec![in alloc; 0; series.width(l)]?;
    count_log(series, l, sizes.as_mut_slice());
    let mut rows = empty_rows(alloc, sizes.as_slice())?;
    let found = fill_log(series, l, rows.as_mut_slice());
    Ok((rows, found))
}
