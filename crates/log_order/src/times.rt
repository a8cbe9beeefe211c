//! The times of polls and of time inputs along the ordinals.
ghost use Rattle.std.specs.Prelude.{◌≡◌, None, find, length, nat_lt, option_map, unwrap_or};
ghost use Rattle.log_entry.specs.Parts.{is_some_and, time_of as time_in};
ghost use Rattle.order_rules.specs.Orderly.{spots, o8};
ghost use Rattle.log_order.specs.declared.series.Series.TheVariants.{Ordinals};
ghost use Rattle.log_order.specs.Rows.{misplaced, spot_of, AreFilled};

use crate::least::lesser;
use crate::orderly::Leg;
use crate::pages::entry_of;
use crate::row::Row;
use log_entry::{Entry, Input, Log};

fn time_of(e: &Entry) -> Option<u64>
    ensures { result ≡ time_in e.now }
{
    match e {
        Entry::Poll { time, .. } => Some(*time),
        Entry::Touch {
            input: Input::Time(time),
            ..
        } => Some(*time),
        _ => None,
    }
}

fn falls(time: Option<u64>, last: u64) -> bool
    ensures { result ≡ is_some_and time (λ now. nat_lt now last) }
{
    match time {
        Some(now) => now < last,
        None => false,
    }
}

/// The least entry whose time is below the one before it, where all ordinals are right.
pub(crate) fn judge_times(l: &Log, rows: &[Row]) -> Option<Leg>
    requires filled { AreFilled Ordinals l.now (length l.now.streams) 0 rows.now }
    requires numbered { find (misplaced Ordinals l.now) (spots l.now) ≡ None }
    ensures { find (o8 l.now) (spots l.now) ≡ option_map spot_of result }
{
    let row = &rows[0];
    let mut least = None;
    let mut last = 0;
    for number in 0..row.size() {
        if let Some(leg) = row.at(number) {
            let time = time_of(entry_of(l, leg));
            least = lesser(least, leg, falls(time, last));
            last = time.unwrap_or(last);
        }
    }
    least
}
