//! Which logs have bytes.
ghost use Rattle.std.specs.Prelude.{◌≡◌, ◌&&◌, nat_lt, nat_le, length};
ghost use Rattle.std.specs.List.{list_all};
ghost use Rattle.rv_words.specs.Limits.{most_pages, most_moves};
ghost use Rattle.log_entry.specs.Range.{is_wait, is_left, in_range, is_stream, is_entry};

use log_entry::{Entries, Entry, Log, Mode, WaitFor, Waits};
use rv_words::MOST_PAGES;

fn all_waits(harts: usize, waits: &[WaitFor]) -> bool
    ensures { result ≡ list_all (is_wait harts) waits.now }
{
    waits.iter().all(|wait| (wait.hart as usize) < harts)
}

fn are_waits(harts: usize, waits: &Waits) -> bool
    ensures { result ≡ (nat_le (length waits.now.items) 7 && list_all (is_wait harts) waits.now.items) }
{
    waits.items().len() <= 7 && all_waits(harts, waits.items())
}

fn is_gain(harts: usize, units: u16, page: u32, waits: &Waits) -> bool
    ensures { result ≡ (nat_lt page units
        && nat_le (length waits.now.items) 7 && list_all (is_wait harts) waits.now.items) }
{
    page < units as u32 && are_waits(harts, waits)
}

fn is_left(left: Option<Mode>) -> bool
    ensures { result ≡ is_left left }
{
    match left {
        None | Some(Mode::Read) => true,
        Some(Mode::Write) => false,
    }
}

fn is_entry(harts: usize, units: u16, entry: &Entry) -> bool
    ensures { result ≡ is_entry harts units entry.now }
{
    match entry {
        Entry::Gain { page, waits, .. } => is_gain(harts, units, *page, waits),
        Entry::Yield { page, left, .. } => *page < units as u32 && is_left(*left),
        Entry::Poll { bits, .. } => *bits < 4,
        Entry::Touch { .. } | Entry::End { .. } => true,
    }
}

fn all_entries(harts: usize, units: u16, entries: &[Entry]) -> bool
    ensures { result ≡ list_all (is_entry harts units) entries.now }
{
    entries.iter().all(|entry| is_entry(harts, units, entry))
}

fn is_stream(harts: usize, units: u16, stream: &Entries) -> bool
    ensures { result ≡ is_stream harts units stream.now }
{
    let entries = stream.items();
    entries.len() < 0x1_0000_0000 && all_entries(harts, units, entries)
}

fn all_streams(harts: usize, units: u16, streams: &[Entries]) -> bool
    ensures { result ≡ list_all (is_stream harts units) streams.now }
{
    streams.iter().all(|stream| is_stream(harts, units, stream))
}

fn is_board(harts: usize, pages: u16, limit: u64) -> bool
    ensures { result ≡ (nat_le 1 harts && nat_le harts 8
        && nat_le 1 pages && nat_le pages most_pages && nat_le limit most_moves) }
{
    1 <= harts && harts <= 8 && 1 <= pages && pages <= MOST_PAGES && limit <= 1_000_000_000_000
}

/// Whether the values of the log are those that the bytes of a log can have.
pub fn in_range(l: &Log) -> bool
    ensures { result ≡ in_range l.now }
{
    let streams = l.streams.items();
    is_board(streams.len(), l.pages, l.limit) && all_streams(streams.len(), l.pages, streams)
}
