//! The pieces of a log, one after the other.

ghost use Rattle.std.specs.Prelude.{◌≡◌, ◌≤◌, ◌<◌, ◌∷◌, [], IfOk, Ok, IsTrue, MatchBool, nat_lt, length};
ghost use Rattle.std.specs.List.{concat};
ghost use Rattle.std.specs.Borrow.{sem};
ghost use Rattle.std.specs.Io.BufRead.{Rests};
ghost use Rattle.log_entry.specs.Parts.{unit_of};
ghost use Rattle.log_entry.specs.Range.{in_range};
ghost use Rattle.log_entry.specs.Room.{log_without_room};
ghost use Rattle.log_entry.specs.Size.{size_of_log};
ghost use Rattle.log_format.specs.Grammar.{spelling, reading};
ghost use Rattle.log_format.specs.contracts.pieces.LogPieces.{the_row};
ghost use Rattle.log_format.specs.Pieces.{pieces_of, Adds, packed, piece_bytes};
ghost use Rattle.log_format.specs.Given.{IsAt, Gives, parts_at, place_after, pieces_left};

use crate::buffer::Buffer;
use crate::narrow::log_is_narrow;
use log_entry::{Log, MAX_HARTS};
use shared_types::NoMemory;
use std::alloc::Global;

/// Where the next part of a log stands: in which stream, and which of its parts; behind the streams, the cause.
#[derive(Clone, Copy)]
struct Place {
    hart: usize,
    next: usize,
}

/// A log's bytes, piece by piece. The log isn't copied: each call is given it again.
#[derive(Drop)]
pub struct LogPieces {
    begun: bool,
    place: Place,
    buffer: Buffer,
}

/// The place of the next part, in a stream of so many entries.
fn after(place: Place, count: usize) -> Place
    requires hart { place.hart < MAX_HARTS }
    requires next { place.next ≤ count }
    ensures { result ≡ place_after (nat_lt place.next count) place }
{
    if place.next < count {
        Place {
            hart: place.hart,
            next: place.next + 1,
        }
    } else {
        Place {
            hart: place.hart + 1,
            next: 0,
        }
    }
}

impl LogPieces {
    /// Before the first piece of a log. All memory is taken here.
    pub fn start(alloc: Global, l: &Log) -> Result<LogPieces, NoMemory>
        requires { IsTrue (in_range l.now) }
        ensures at { IfOk result (λ p. IsAt p l.now) }
        ensures pieces { IfOk result (λ p. pieces_left p l.now ≡ pieces_of l.now) }
        ensures bytes { IfOk result (λ p. concat (pieces_left p l.now) ≡ spelling l.now) }
        ensures size { IfOk result (λ p. length (spelling l.now) ≡ size_of_log (unit_of l.now) l.now.streams) }
        ensures again { IfOk result (λ p. reading (spelling l.now) ≡ Ok (log_without_room l.now)) }
    {
        log_is_narrow(l);
        let buffer = Buffer::start(alloc)?;
        Ok(LogPieces {
            begun: false,
            place: Place { hart: 0, next: 0 },
            buffer,
        })
    }

    /// Puts the next part of this log into the buffer, where one is left and it fits.
    fn add(&mut self, l: &Log) -> bool
        requires { IsAt self.old l.now }
        ensures at { IsAt self.new l.now }
        ensures begun { self.new.begun ≡ self.old.begun }
        ensures adds { Adds self.old.buffer (parts_at self.old.place l.now) result
            self.new.buffer (parts_at self.new.place l.now) }
    {
        if self.place.hart < l.streams.items().len() {
            self.add_of_stream(l)
        } else {
            self.add_behind(l)
        }
    }

    /// The same, at a stream.
    fn add_of_stream(&mut self, l: &Log) -> bool
        requires at { IsAt self.old l.now }
        requires hart { self.old.place.hart < length l.now.streams }
        ensures at { IsAt self.new l.now }
        ensures begun { self.new.begun ≡ self.old.begun }
        ensures adds { Adds self.old.buffer (parts_at self.old.place l.now) result
            self.new.buffer (parts_at self.new.place l.now) }
    {
        let stream = &l.streams.items()[self.place.hart];
        if !self.buffer.add_part(stream, self.place.next) {
            return false;
        }
        self.place = after(self.place, stream.items().len());
        true
    }

    /// The same, behind the streams.
    fn add_behind(&mut self, l: &Log) -> bool
        requires at { IsAt self.old l.now }
        requires hart { length l.now.streams ≤ self.old.place.hart }
        ensures at { IsAt self.new l.now }
        ensures begun { self.new.begun ≡ self.old.begun }
        ensures adds { Adds self.old.buffer (parts_at self.old.place l.now) result
            self.new.buffer (parts_at self.new.place l.now) }
    {
        if self.place.next != 0 {
            return false;
        }
        if !self.buffer.add_cause(l.cause) {
            return false;
        }
        self.place.next = 1;
        true
    }

    /// Puts parts into the buffer, as long as one is left that fits. True where there was one.
    fn pack(&mut self, l: &Log) -> bool
        requires at { IsAt self.old l.now }
        requires empty { self.old.buffer ≡ [] }
        ensures at { IsAt self.new l.now }
        ensures begun { self.new.begun ≡ self.old.begun }
        ensures piece { MatchBool result
            (packed piece_bytes (parts_at self.old.place l.now)
            ≡ self.new.buffer ∷ packed piece_bytes (parts_at self.new.place l.now))
            ((packed piece_bytes (parts_at self.old.place l.now) ≡ [])
            × (packed piece_bytes (parts_at self.new.place l.now) ≡ [])) }
    {
        if !self.add(l) {
            return false;
        }
        while self.add(l) {}
        true
    }

    /// Makes the next piece, where one is left.
    fn advance(&mut self, l: &Log) -> bool
        requires { IsAt self.old l.now }
        ensures at { IsAt self.new l.now }
        ensures piece { MatchBool result
            (pieces_left self.old l.now ≡ self.new.buffer ∷ pieces_left self.new l.now)
            ((pieces_left self.old l.now ≡ []) × (pieces_left self.new l.now ≡ [])) }
    {
        self.buffer.clear();
        if self.begun {
            return self.pack(l);
        }
        self.begun = true;
        self.buffer.put_head(l);
        true
    }

    /// The next piece of this log, or None exactly where all were given. It takes no memory.
    pub fn next_piece(&mut self, l: &Log) -> Option<&[u8]>
        requires { IsAt self.old l.now }
        ensures* piece { sem 𝓛 (Rests the_row self.entry (λ new. Gives self.old l.now result new)) }
    {
        if self.advance(l) {
            Some(self.buffer.bytes())
        } else {
            None
        }
    }
}
