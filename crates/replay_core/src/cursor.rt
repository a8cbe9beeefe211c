//! How far a log has been taken.
ghost use Rattle.std.specs.Prelude.{◌≡◌, ◌+◌, ◌<◌, ◌^◌, true, Some, None, length, slice_get, slice_index, IfOk};
ghost use Rattle.std.specs.Prelude.{IfSome, MatchOption};
ghost use Rattle.order_rules.specs.Places.{is_number};
ghost use Rattle.order_rules.specs.Cursor.{start as start_of, first_left as first_left_of, guard_is_met as guard_of};
ghost use Rattle.order_rules.specs.Cursor.{counted as counted_of, take_one};

use log_entry::{Entry, Log};
use shared_types::NoMemory;
use std::alloc::Global;
use std::marker::Model;

/// The place in each stream, the next number of each page, and the next ordinal.
#[derive(Drop)]
pub(crate) struct Cursor {
    places: Vec<usize>,
    numbers: Vec<u64>,
    ordinal: u64,
}

impl Model for Cursor {
    ghost use Rattle.order_rules.specs.Cursor.{Cursor as CursorView};

    ghost Value = { CursorView };

    ghost view = { λ c. record { places = c.places.items; numbers = c.numbers.items; ordinal = c.ordinal } };
}

impl Cursor {
    /// Nothing is taken.
    pub(crate) fn start(alloc: Global, l: &Log) -> Result<Cursor, NoMemory>
        ensures { IfOk result (λ c. c ≡ start_of l.now) }
    {
        let Ok(places) = Vec::from_elem(alloc, 0usize, l.streams.items().len()) else {
            return Err(NoMemory);
        };
        let Ok(numbers) = Vec::from_elem(alloc, 0u64, usize::from(l.pages)) else {
            return Err(NoMemory);
        };
        Ok(Cursor {
            places,
            numbers,
            ordinal: 0,
        })
    }

    /// A hart's place in its stream.
    pub(crate) fn place(&self, hart: usize) -> usize
        requires { hart < length self.now.places }
        ensures { result ≡ slice_index self.now.places hart }
    {
        self.places[hart]
    }

    fn is_next(&self, page: u32, seq: u32) -> bool
        ensures { result ≡ is_number seq (slice_get self.now.numbers page) }
    {
        let page = page as usize;
        page < self.numbers.len() && self.numbers[page] == seq as u64
    }

    pub(crate) fn guard_is_met(&self, e: &Entry) -> bool
        ensures { result ≡ guard_of self.now e.now }
    {
        match e {
            Entry::Gain { page, seq, .. } | Entry::Yield { page, seq, .. } => {
                self.is_next(*page, *seq)
            }
            Entry::Poll { ord, .. } | Entry::Touch { ord, .. } => *ord as u64 == self.ordinal,
            Entry::End { .. } => true,
        }
    }

    /// The first entry of a hart that isn't taken.
    pub(crate) fn first_left<'a>(&self, l: &'a Log, hart: usize) -> Option<&'a Entry>
        requires { hart < length self.now.places }
        ensures entry { MatchOption result (first_left_of l.now self.now hart ≡ None)
            (λ e. first_left_of l.now self.now hart ≡ Some e.now) }
        ensures room { IfSome result (λ _. slice_index self.now.places hart + 1 < 2 ^ 64) }
    {
        let streams = l.streams.items();
        if hart < streams.len() {
            let s = streams[hart].items();
            let place = self.places[hart];
            if place < s.len() {
                return Some(&s[place]);
            }
        }
        None
    }

    /// Counts an entry whose guard is met.
    fn count(&mut self, e: &Entry)
        requires { guard_of self.old e.now ≡ true }
        ensures { self.new ≡ counted_of self.old e.now }
    {
        match e {
            Entry::Gain { page, seq, .. } | Entry::Yield { page, seq, .. } => {
                self.numbers[*page as usize] = *seq as u64 + 1;
            }
            Entry::Poll { ord, .. } | Entry::Touch { ord, .. } => self.ordinal = *ord as u64 + 1,
            Entry::End { .. } => {}
        }
    }

    /// A hart takes its first entry left, where it can.
    pub(crate) fn take(&mut self, l: &Log, hart: usize) -> Option<usize>
        requires { hart < length self.old.places }
        ensures { MatchOption result ((take_one l.now hart self.old ≡ None) × (self.new ≡ self.old))
            (λ place. take_one l.now hart self.old ≡ Some (self.new, place)) }
    {
        let e = self.first_left(l, hart)?;
        if !self.guard_is_met(e) {
            return None;
        }
        let place = self.places[hart];
        self.count(e);
        self.places[hart] = place + 1;
        Some(place)
    }
}
