//! The first spot of a log that breaks a rule of single streams.
ghost use Rattle.std.specs.Prelude.{◌≡◌, ◌^◌, ◌<◌, find};
ghost use Rattle.order_rules.specs.Orderly.{spots, Keeps, o1, o2, o3};

use crate::streams::{first_o1, first_o2, first_o3};
use log_entry::Log;

/// The least hart and place that break O1.
pub(crate) fn least_o1(l: &Log) -> Option<(usize, usize)>
    ensures { result ≡ find (o1 l.now) (spots l.now) }
{
    let streams = l.streams.items();
    for h in 0..streams.len() {
        if let Some(i) = first_o1(l.limit, streams[h].items()) {
            return Some((h, i));
        }
    }
    None
}

/// The least hart and place that break O2, where O1 is kept.
pub(crate) fn least_o2(l: &Log) -> Option<(usize, usize)>
    requires { Keeps l.now o1 }
    ensures { result ≡ find (o2 l.now) (spots l.now) }
{
    let streams = l.streams.items();
    for h in 0..streams.len() {
        if let Some(i) = first_o2(streams[h].items()) {
            return Some((h, i));
        }
    }
    None
}

/// The least hart and place that break O3, where O1 is kept.
pub(crate) fn least_o3(l: &Log) -> Option<(usize, usize)>
    requires order { Keeps l.now o1 }
    requires bound { l.now.limit < 2 ^ 62 }
    ensures { result ≡ find (o3 l.now) (spots l.now) }
{
    let streams = l.streams.items();
    for h in 0..streams.len() {
        if let Some(i) = first_o3(l.limit, streams[h].items()) {
            return Some((h, i));
        }
    }
    None
}
