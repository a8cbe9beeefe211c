//! How many bytes entries take.
ghost use Rattle.std.specs.Prelude.{◌≡◌};
ghost use Rattle.log_entry.specs.Size.{size_of, size_in, frame_size};

use crate::log::Entry;

/// The number of bytes of an entry in a log of version 1.
pub fn entry_size(e: &Entry) -> u64
    ensures { result ≡ size_of e.now }
{
    match e {
        Entry::Gain { waits, .. } => 17 + 9 * waits.items().len() as u64,
        Entry::Yield { .. } => 16,
        Entry::Poll { .. } | Entry::Touch { .. } => 22,
        Entry::End { .. } => 9,
    }
}

/// The number of bytes of an entry in the log of a board with such pages and so many harts.
pub fn size_in(_unit: u16, _harts: u8, e: &Entry) -> u64
    ensures { result ≡ size_in _unit _harts e.now }
{
    entry_size(e)
}

/// The number of bytes of a log whose streams are Ends alone.
pub fn frame_size(_unit: u16, harts: u8) -> u64
    ensures { result ≡ frame_size _unit harts }
{
    49 + 13 * u64::from(harts)
}
