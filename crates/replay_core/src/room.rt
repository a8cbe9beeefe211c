//! How many console bytes a log can send.

ghost use Rattle.std.specs.Prelude.{◌≡◌, ◌≤◌, ◌<◌, IfSome};
ghost use Rattle.log_entry.specs.Parts.{ordinal_of};
ghost use Rattle.replay_core.specs.Standing.{OrdinalsBelow, StreamBelow};

use log_entry::{Entry, Log};

fn ordinal(e: &Entry) -> Option<u32>
    ensures { result ≡ ordinal_of e.now }
{
    match e {
        Entry::Poll { ord, .. } | Entry::Touch { ord, .. } => Some(*ord),
        _ => None,
    }
}

/// The least number above `least` and the ordinal of the entry, if it has one.
fn above(least: u64, e: &Entry) -> u64
    ensures least { least ≤ result }
    ensures above { IfSome (ordinal_of e.now) (λ k. k < result) }
{
    match ordinal(e) {
        Some(ord) => least.max(u64::from(ord) + 1),
        None => least,
    }
}

/// A number above the ordinals of a stream, and at least `least`.
fn above_stream(least: u64, s: &[Entry]) -> u64
    ensures least { least ≤ result }
    ensures above { StreamBelow s.now result }
{
    let mut most = least;
    for e in s {
        most = above(most, e);
    }
    most
}

/// A number above each ordinal of the log: each console byte is sent by an entry with one of its own.
pub(crate) fn room_of(l: &Log) -> u64
    ensures { OrdinalsBelow l.now result }
{
    let mut most = 0;
    for s in l.streams.items() {
        most = above_stream(most, s.items());
    }
    most
}
