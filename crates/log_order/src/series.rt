//! What an entry is numbered by.
ghost use Rattle.std.specs.Prelude.{◌≡◌};
ghost use Rattle.log_order.specs.Rows.{key_of, width_of};
ghost use Rattle.log_order.specs.declared.series.Series.TheVariants.{Pages, Ordinals};

use log_entry::{Entry, Log};

/// The numbers of entries: those of pages, and the ordinals.
#[derive(Clone, Copy, Debug, PartialEq, Eq)]
pub(crate) enum Series {
    Pages,
    Ordinals,
}

impl Series {
    /// How many rows a log has.
    pub(crate) fn width(self, l: &Log) -> usize
        ensures { result ≡ width_of self l.now }
    {
        match self {
            Series::Pages => l.pages as usize,
            Series::Ordinals => 1,
        }
    }
}

/// The row of an entry, and its number there.
pub(crate) fn key(series: Series, e: &Entry) -> Option<(usize, u32)>
    ensures { result ≡ key_of series e.now }
{
    match series {
        Series::Pages => page_number(e),
        Series::Ordinals => ordinal(e),
    }
}

fn page_number(e: &Entry) -> Option<(usize, u32)>
    ensures { result ≡ key_of Pages e.now }
{
    match e {
        Entry::Gain { page, seq, .. } | Entry::Yield { page, seq, .. } => {
            Some((*page as usize, *seq))
        }
        _ => None,
    }
}

fn ordinal(e: &Entry) -> Option<(usize, u32)>
    ensures { result ≡ key_of Ordinals e.now }
{
    match e {
        Entry::Poll { ord, .. } | Entry::Touch { ord, .. } => Some((0, *ord)),
        _ => None,
    }
}
