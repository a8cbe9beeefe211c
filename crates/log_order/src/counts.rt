//! How many entries each row has.
ghost use Rattle.std.specs.Prelude.{◌≡◌, ◌+◌, ◌*◌, ◌<◌, ◌≤◌, ◌^◌, ℕ, List, Some, cond, length, count_by, slice_get, slice_index};
ghost use Rattle.log_entry.specs.declared.log.Entry.{Entry as AnEntry};
ghost use Rattle.order_rules.specs.Places.{entry_at, stream};
ghost use Rattle.log_order.specs.Rows.{is_in_row, key_of, size_of_row, width_of, RowsBelow};

use crate::series::{Series, key};
use log_entry::{Entry, Log};

fn count_entry(series: Series, e: &Entry, counts: &mut [usize])
    requires row { (n : ℕ × ℕ) → key_of series e.now ≡ Some n → n.0 < length counts.old }
    requires room { (g : ℕ) → slice_index counts.old g < 2 ^ 60 }
    ensures length { length counts.new ≡ length counts.old }
    ensures counts { (g : ℕ) → slice_index counts.new g
        ≡ slice_index counts.old g + cond (is_in_row series g e.now) 1 0 }
{
    if let Some((row, _)) = key(series, e) {
        counts[row] += 1;
    }
}

fn count_stream(series: Series, s: &[Entry], counts: &mut [usize])
    requires rows { (i : ℕ) (e : AnEntry) (n : ℕ × ℕ) → slice_get s.now i ≡ Some e
        → key_of series e ≡ Some n → n.0 < length counts.old }
    requires room { (g : ℕ) → slice_index counts.old g < 2 ^ 40 }
    requires short { length s.now < 2 ^ 32 }
    ensures length { length counts.new ≡ length counts.old }
    ensures counts { (g : ℕ) → slice_index counts.new g
        ≡ slice_index counts.old g + count_by (is_in_row series g) s.now }
{
    for i in 0..s.len() {
        count_entry(series, &s[i], counts);
    }
}

/// Counts the entries of each row.
pub(crate) fn count_log(series: Series, l: &Log, counts: &mut [usize])
    requires rows { RowsBelow series l.now (length counts.old) }
    requires empty { (g : ℕ) → slice_index counts.old g ≡ 0 }
    requires harts { length l.now.streams ≤ 8 }
    requires short { (h : ℕ) → length (stream l.now h) < 2 ^ 32 }
    ensures length { length counts.new ≡ length counts.old }
    ensures counts { (g : ℕ) → slice_index counts.new g ≡ size_of_row series l.now g }
{
    let streams = l.streams.items();
    for h in 0..streams.len() {
        count_stream(series, streams[h].items(), counts);
    }
}
