//! The top call: what the words ask for, over the objects that are handed in.

ghost use Rattle.std.specs.Prelude.{◌≡◌, ℕ, List, true, false};
ghost use Rattle.command_words.specs.Texts.{texts};
ghost use Rattle.command_words.specs.Grammar.{asks_free_run};
ghost use Rattle.revirt_tool.specs.Tasks.{Fetches, AsksNoRun};
ghost use Rattle.revirt_tool.specs.Closing.{Closes};
ghost use Rattle.revirt_tool.specs.Serving.{EndsAs, around, Serves};
ghost use Rattle.crew_parts.specs.Boards.{world};
ghost use Rattle.revirt_tool.specs.Complete.{RecordingsAreDone, SameAreKept, ListingsAreDone, KeptAreLogs, ReplaysAreDone, KeptAreReplayed, TracesAreDone, SamplesAreDone};

use crate::command::{Command, command_of};
use crate::ending::{Ended, Ending, close, without_run};
use crate::inspecting::inspect;
use crate::recording::{record, record_freely};
use crate::replaying::{replay, replay_freely};
use crate::sampling::sample;
use crate::tracing::trace;
use command_words::{Usage, free_words};
use outside::{Clock, Console, Gate, Shelf, Sink};
use std::alloc::Global;
use std::sync::Wait;
use std::thread::Threads;

/// The exit status of a command, and what was handed in.
#[derive(Drop)]
pub struct Finish<C: Console, K: Clock> {
    pub status: u8,
    pub console: C,
    pub clock: K,
}

/// Does what the words ask for, which is no free run.
fn serve<T: Threads + Sync, S: Shelf, C: Console, K: Clock, G: Gate>(
    rt: &T,
    alloc: Global,
    words: &[String],
    shelf: &mut S,
    console: C,
    clock: K,
    gate: &G,
) -> Ended<C, K>
    requires still { asks_free_run (texts words.now) ≡ false }
    requires writing { (S.seen shelf.old).writing ≡ false }
    requires has { (name : List ℕ) → Fetches (texts words.now) name → S.has shelf.old name }
    ensures writing { (S.seen shelf.new).writing ≡ false }
    ensures ends { EndsAs (texts words.now) (S.seen shelf.old) (S.seen shelf.new)
        (world (C.seen console) (K.seen clock)) (world (C.seen result.console) (K.seen result.clock))
        result.ending }
    ensures as_handed_in { AsksNoRun (texts words.now) → (result.console ≡ console) × (result.clock ≡ clock) }
{
    match command_of(words) {
        Err(Usage { place }) => without_run(Ending::Usage { place }, console, clock),
        Ok(Command::Record(request)) => record(rt, alloc, &request, shelf, console, clock, gate),
        Ok(Command::Replay(request)) => replay(rt, alloc, &request, shelf, console, clock, gate),
        Ok(Command::Trace(request)) => trace(alloc, &request, shelf, console, clock),
        Ok(Command::Inspect(log)) => inspect(alloc, log, shelf, console, clock),
        Ok(Command::Sample(number)) => sample(rt, alloc, number, console, clock, gate),
    }
}

/// Does what the words ask for, which is a free run.
fn serve_freely<T: Threads + Wait + Sync, S: Shelf, C: Console, K: Clock, G: Gate>(
    rt: &T,
    alloc: Global,
    words: &[String],
    shelf: &mut S,
    console: C,
    clock: K,
    gate: &G,
) -> Ended<C, K>
    requires free { asks_free_run (texts words.now) ≡ true }
    requires writing { (S.seen shelf.old).writing ≡ false }
    requires has { (name : List ℕ) → Fetches (texts words.now) name → S.has shelf.old name }
    ensures writing { (S.seen shelf.new).writing ≡ false }
    ensures ends { EndsAs (texts words.now) (S.seen shelf.old) (S.seen shelf.new)
        (world (C.seen console) (K.seen clock)) (world (C.seen result.console) (K.seen result.clock))
        result.ending }
    ensures as_handed_in { AsksNoRun (texts words.now) → (result.console ≡ console) × (result.clock ≡ clock) }
{
    match command_of(words) {
        Ok(Command::Record(request)) => {
            record_freely(rt, alloc, &request, shelf, console, clock, gate)
        }
        Ok(Command::Replay(request)) => {
            replay_freely(rt, alloc, &request, shelf, console, clock, gate)
        }
        _ => unreachable!(),
    }
}

/// Prints what a command came to.
fn print_ending<C: Console, K: Clock, R: Sink>(
    alloc: Global,
    ended: Ended<C, K>,
    report: &mut R,
) -> Finish<C, K>
    ensures closes { Closes ended.ending (R.seen report.old) (R.seen report.new) result.status }
    ensures console { result.console ≡ ended.console }
    ensures clock { result.clock ≡ ended.clock }
{
    let Ended {
        ending,
        console,
        clock,
    } = ended;
    Finish {
        status: close(alloc, ending, report),
        console,
        clock,
    }
}

/// Serves every command but free runs, and returns.
pub fn revirt_still<T: Threads + Sync, S: Shelf, C: Console, K: Clock, G: Gate, R: Sink>(
    rt: &T,
    alloc: Global,
    words: &[String],
    shelf: &mut S,
    console: C,
    clock: K,
    gate: &G,
    report: &mut R,
) -> Finish<C, K>
    requires still { asks_free_run (texts words.now) ≡ false }
    requires writing { (S.seen shelf.old).writing ≡ false }
    requires has { (name : List ℕ) → Fetches (texts words.now) name → S.has shelf.old name }
    ensures writing { (S.seen shelf.new).writing ≡ false }
    ensures serves { Serves (texts words.now)
        (around (S.seen shelf.old) (C.seen console) (K.seen clock) (R.seen report.old))
        (around (S.seen shelf.new) (C.seen result.console) (K.seen result.clock) (R.seen report.new))
        result.status }
    ensures as_handed_in { AsksNoRun (texts words.now) → (result.console ≡ console) × (result.clock ≡ clock) }
{
    let ended = serve(rt, alloc, words, shelf, console, clock, gate);
    print_ending(alloc, ended, report)
}

/// Serves what the words ask for. A free run may wait for ever; all else is served as by `revirt_still`.
pub fn revirt<T: Threads + Wait + Sync, S: Shelf, C: Console, K: Clock, G: Gate, R: Sink>(
    rt: &T,
    alloc: Global,
    words: &[String],
    shelf: &mut S,
    console: C,
    clock: K,
    gate: &G,
    report: &mut R,
) -> Finish<C, K>
    requires writing { (S.seen shelf.old).writing ≡ false }
    requires has { (name : List ℕ) → Fetches (texts words.now) name → S.has shelf.old name }
    ensures writing { (S.seen shelf.new).writing ≡ false }
    ensures serves { Serves (texts words.now)
        (around (S.seen shelf.old) (C.seen console) (K.seen clock) (R.seen report.old))
        (around (S.seen shelf.new) (C.seen result.console) (K.seen result.clock) (R.seen report.new))
        result.status }
    ensures as_handed_in { AsksNoRun (texts words.now) → (result.console ≡ console) × (result.clock ≡ clock) }
{
    if !free_words(words) {
        return revirt_still(rt, alloc, words, shelf, console, clock, gate, report);
    }
    let ended = serve_freely(rt, alloc, words, shelf, console, clock, gate);
    print_ending(alloc, ended, report)
}

/// A recording of an image that is told and accepted, in which nothing fails, is done, or memory ran out.
pub fn recordings_are_done()
    ensures { RecordingsAreDone }
{}

/// Two recordings of one image by the same words, for which console and clock gave the same, and with free harts the
/// turns were the same, keep the same bytes and print the same report.
pub fn recordings_are_one()
    ensures { SameAreKept }
{}

/// The listing of a log that is told is printed where nothing fails, with status 0 where the log is orderly and else 7, or
/// memory ran out; a log that a recording kept is such a log, and orderly.
pub fn listings_are_done()
    ensures done { ListingsAreDone }
    ensures kept { KeptAreLogs }
{}

/// A replay of a log over the image that it names, which are told and come to an end, is done with the report of that
/// end where nothing fails and the shelf still tells afterwards, or memory ran out; such are a log that a recording kept
/// and its image, with the report that the recording printed.
pub fn replays_are_done()
    ensures done { ReplaysAreDone }
    ensures kept { KeptAreReplayed }
{}

/// A trace of such a log over such an image is printed, the hart's moves in that replay, where nothing fails, or memory
/// ran out.
pub fn traces_are_done()
    ensures { TracesAreDone }
{}

/// A sample's summary is printed where the sink doesn't fail, or memory ran out.
pub fn samples_are_done()
    ensures { SamplesAreDone }
{}
