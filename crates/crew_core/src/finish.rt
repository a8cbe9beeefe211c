//! What a board comes to: its log, with an End for each hart, and its state.

ghost use Rattle.std.specs.Prelude.{◌≡◌, ◌≤◌, ◌++◌, ◌∷◌, [], map, length, vec_capacity};
ghost use Rattle.log_entry.specs.declared.log.Entry.TheVariants.{End};
ghost use Rattle.log_entry.specs.Room.{stream_without_room};
ghost use Rattle.crew_core.specs.Finish.{ended_stream, HasSomeRuns, Finishes};

use crate::crew::Crew;
use crate::lane::Lane;
use crate::seat::{Seat, Seats};
use board_backing::Ends;
use flat_machine::Final;
use hart_run::HartRun;
use log_entry::{Entries, Entry, Log, Streams};
use rv_words::Cause;

/// The log of a board and the state at its end.
#[derive(Drop)]
pub(crate) struct Finished {
    pub(crate) log: Log,
    pub(crate) ended: Final,
}

impl Lane {
    /// The entries, with an End at this count. It takes no memory.
    pub(crate) fn end(mut self, count: u64) -> Entries
        ensures { stream_without_room result ≡ self.entries ++ End count ∷ [] }
    {
        self.entries.push_reserved(Entry::End { count });
        let Lane { entries } = self;
        Entries::of(entries)
    }
}

impl Seat {
    /// The hart's entries, with an End at its count. It takes no memory.
    fn end(self) -> Entries
        ensures { stream_without_room result ≡ ended_stream self }
    {
        let Seat { lane, count, .. } = self;
        lane.end(count)
    }
}

/// The streams of seats, in their order.
fn ended(seats: Vec<Seat>, mut streams: Vec<Entries>) -> Vec<Entries>
    requires empty { streams.items ≡ [] }
    requires room { length seats.items ≤ vec_capacity streams }
    ensures { map stream_without_room result.items ≡ map ended_stream seats.items }
{
    for seat in seats {
        streams.push_reserved(seat.end());
    }
    streams
}

impl Seats {
    /// The streams of the harts, each with an End at its hart's count. It takes no memory: `streams` is empty, with
    /// room for them.
    pub(crate) fn end(self, streams: Vec<Entries>) -> Streams
        requires empty { streams.items ≡ [] }
        requires room { length self ≤ vec_capacity streams }
        ensures { map stream_without_room result ≡ map ended_stream self }
    {
        let Seats { seats } = self;
        Streams::of(ended(seats, streams))
    }
}

impl Crew {
    /// What the board comes to, `runs` being those of the harts in their order. It takes no memory.
    pub(crate) fn finish(self, runs: &[HartRun]) -> Finished
        requires { HasSomeRuns self runs.now }
        ensures { Finishes self runs.now result }
    {
        let Crew {
            pages,
            image,
            limit,
            backing,
            seats,
            closed,
            ends,
            streams,
            ..
        } = self;
        let cause = closed.unwrap_or(Cause::Limit);
        Finished {
            ended: ends.gather(runs, backing, cause),
            log: Log {
                pages,
                limit,
                image,
                streams: seats.end(streams),
                cause,
            },
        }
    }
}
