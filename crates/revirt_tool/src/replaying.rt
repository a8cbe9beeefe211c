//! The command that replays a log.

ghost use Rattle.std.specs.Prelude.{◌≡◌, IsTrue, IfOk, false};
ghost use Rattle.elf_image.specs.Image.{IsWhole};
ghost use Rattle.log_entry.specs.Range.{in_range};
ghost use Rattle.outside.specs.Seen.{ToldBefore};
ghost use Rattle.replay_core.specs.Ends.{IsOutcomeOf};
ghost use Rattle.revirt_tool.specs.Tasks.{replay_by};
ghost use Rattle.revirt_tool.specs.Replays.{StartAs, OrderAs, OutcomeAs, IsReportable, KeepsReplayAs, KeepsOutcomeAs};
ghost use Rattle.revirt_tool.specs.Replays.{FilesAs, ReplaysAs, told_of};

use crate::ending::{Ended, Ending, File, without_run};
use crate::fetching::{file_for, log_for};
use crate::recording::keep_dump;
use command_words::Way;
use elf_image::{Image, ImageError, read_image};
use flat_machine::Final;
use free_replay::replay_free;
use log_entry::Log;
use log_order::{OrderError, Orderly, put_in_order};
use outside::{Clock, Console, Gate, NoMemory, Shelf};
use replay_core::{Outcome, replay_one};
use report_view::report_text;
use round_run::replay_rounds;
use std::alloc::Global;
use std::sync::Wait;
use std::thread::Threads;

/// What a replay is asked for: its files, and the way.
#[derive(Clone, Copy, Drop)]
pub(crate) struct ReplayRequest<'a> {
    pub image: &'a str,
    pub log: &'a str,
    pub dump: Option<&'a str>,
    pub way: Way,
}

/// The image that a log was recorded from.
pub(crate) fn start_for<S: Shelf>(
    alloc: Global,
    name: &str,
    log: &Log,
    shelf: &mut S,
) -> Result<Image, Ending>
    requires has { S.has shelf.old name.now }
    requires range { IsTrue (in_range log.now) }
    ensures writing { (S.seen shelf.new).writing ≡ (S.seen shelf.old).writing }
    ensures tells { ToldBefore (S.seen shelf.old).tells (S.seen shelf.new).tells }
    ensures start { StartAs name.now log.now (S.seen shelf.old) (S.seen shelf.new) result }
{
    let file = file_for(alloc, File::Image, name, shelf)?;
    let image = match read_image(alloc, file.as_slice(), log.pages) {
        Ok(image) => image,
        Err(ImageError::Refused(rule)) => return Err(Ending::ImageRefused { rule }),
        Err(ImageError::NoMemory) => return Err(Ending::NoMemory),
    };
    let digest = image.digest();
    if digest == log.image {
        Ok(image)
    } else {
        Err(Ending::OtherImage {
            log: log.image,
            image: digest,
        })
    }
}

/// The log, where it is orderly.
pub(crate) fn in_order(alloc: Global, log: Log) -> Result<Orderly, Ending>
    requires { IsTrue (in_range log) }
    ensures { OrderAs log result }
{
    match put_in_order(alloc, log) {
        Ok(orderly) => Ok(orderly),
        Err(OrderError::Disorderly { rule, hart, entry }) => {
            Err(Ending::Disorderly { rule, hart, entry })
        }
        Err(OrderError::NoMemory) => Err(Ending::NoMemory),
    }
}

/// What a replay comes to that isn't free.
fn played<T: Threads + Sync, G: Gate>(
    rt: &T,
    alloc: Global,
    orderly: Orderly,
    image: &Image,
    way: Way,
    gate: &G,
) -> Result<Outcome, NoMemory>
    requires { orderly.pages ≡ image.now.pages }
    ensures { IfOk result (IsOutcomeOf orderly image.now) }
{
    match way {
        Way::One => replay_one(alloc, orderly, image),
        Way::Plain | Way::Rounds => replay_rounds(rt, alloc, orderly, image, gate),
    }
}

/// Where a replay ended that came to this.
fn told_of(outcome: Outcome) -> Result<Final, Ending>
    ensures { result ≡ told_of outcome }
{
    match outcome {
        Outcome::Done(end) => Ok(end),
        Outcome::Diverged {
            hart,
            count,
            why,
            state: _,
        } => Err(Ending::Diverged {
            hart,
            count,
            rule: why,
        }),
    }
}

/// Where the replay of a log ends.
pub(crate) fn outcome_of<T: Threads + Sync, G: Gate>(
    rt: &T,
    alloc: Global,
    log: Log,
    image: &Image,
    way: Way,
    gate: &G,
) -> Result<Final, Ending>
    requires range { IsTrue (in_range log) }
    requires whole { IsWhole image.now }
    requires pages { log.pages ≡ image.now.pages }
    ensures { OutcomeAs log image.now result }
{
    let orderly = in_order(alloc, log)?;
    match played(rt, alloc, orderly, image, way, gate) {
        Ok(outcome) => told_of(outcome),
        Err(_) => Err(Ending::NoMemory),
    }
}

/// Where the replay of a log ends, with free harts.
fn free_outcome_of<T: Threads + Wait + Sync, G: Gate>(
    rt: &T,
    alloc: Global,
    log: Log,
    image: &Image,
    gate: &G,
) -> Result<Final, Ending>
    requires range { IsTrue (in_range log) }
    requires whole { IsWhole image.now }
    requires pages { log.pages ≡ image.now.pages }
    ensures { OutcomeAs log image.now result }
{
    let orderly = in_order(alloc, log)?;
    match replay_free(rt, alloc, orderly, image, gate) {
        Ok(outcome) => told_of(outcome),
        Err(_) => Err(Ending::NoMemory),
    }
}

/// Keeps the dump, where one is asked for.
fn keep_end<S: Shelf>(alloc: Global, request: &ReplayRequest, end: &Final, shelf: &mut S) -> Ending
    requires writing { (S.seen shelf.old).writing ≡ false }
    requires end { IsReportable end.now }
    ensures writing { (S.seen shelf.new).writing ≡ false }
    ensures tells { ToldBefore (S.seen shelf.old).tells (S.seen shelf.new).tells }
    ensures keeps { KeepsReplayAs (replay_by request.now) end.now (S.seen shelf.old) (S.seen shelf.new) result }
{
    let Ok(report) = report_text(alloc, end) else {
        return Ending::NoMemory;
    };
    if let Some(name) = request.dump {
        if keep_dump(shelf, name, end).is_err() {
            return Ending::ShelfFault;
        }
    }
    Ending::Kept {
        report,
        fault: false,
    }
}

/// Keeps what a replay came to.
fn keep_outcome<S: Shelf>(
    alloc: Global,
    request: &ReplayRequest,
    outcome: Result<Final, Ending>,
    shelf: &mut S,
) -> Ending
    requires writing { (S.seen shelf.old).writing ≡ false }
    requires end { IfOk outcome IsReportable }
    ensures writing { (S.seen shelf.new).writing ≡ false }
    ensures tells { ToldBefore (S.seen shelf.old).tells (S.seen shelf.new).tells }
    ensures keeps { KeepsOutcomeAs (replay_by request.now) outcome (S.seen shelf.old) (S.seen shelf.new) result }
{
    match outcome {
        Ok(end) => keep_end(alloc, request, &end, shelf),
        Err(ending) => ending,
    }
}

/// The log and the image that a replay is asked for.
fn files_for<S: Shelf>(
    alloc: Global,
    request: &ReplayRequest,
    shelf: &mut S,
) -> Result<(Log, Image), Ending>
    requires log { S.has shelf.old request.now.log.now }
    requires image { S.has shelf.old request.now.image.now }
    ensures writing { (S.seen shelf.new).writing ≡ (S.seen shelf.old).writing }
    ensures tells { ToldBefore (S.seen shelf.old).tells (S.seen shelf.new).tells }
    ensures files { FilesAs (replay_by request.now) (S.seen shelf.old) (S.seen shelf.new) result }
{
    let log = log_for(alloc, request.log, shelf)?;
    let image = start_for(alloc, request.image, &log, shelf)?;
    Ok((log, image))
}

fn replayed<T: Threads + Sync, S: Shelf, G: Gate>(
    rt: &T,
    alloc: Global,
    request: &ReplayRequest,
    shelf: &mut S,
    gate: &G,
) -> Ending
    requires writing { (S.seen shelf.old).writing ≡ false }
    requires log { S.has shelf.old request.now.log.now }
    requires image { S.has shelf.old request.now.image.now }
    ensures writing { (S.seen shelf.new).writing ≡ false }
    ensures replays { ReplaysAs (replay_by request.now) (S.seen shelf.old) (S.seen shelf.new) result }
{
    match files_for(alloc, request, shelf) {
        Ok((log, image)) => {
            let outcome = outcome_of(rt, alloc, log, &image, request.way, gate);
            keep_outcome(alloc, request, outcome, shelf)
        }
        Err(ending) => ending,
    }
}

/// Replays the log that is asked for.
pub(crate) fn replay<T: Threads + Sync, S: Shelf, C: Console, K: Clock, G: Gate>(
    rt: &T,
    alloc: Global,
    request: &ReplayRequest,
    shelf: &mut S,
    console: C,
    clock: K,
    gate: &G,
) -> Ended<C, K>
    requires writing { (S.seen shelf.old).writing ≡ false }
    requires log { S.has shelf.old request.now.log.now }
    requires image { S.has shelf.old request.now.image.now }
    ensures writing { (S.seen shelf.new).writing ≡ false }
    ensures replays { ReplaysAs (replay_by request.now) (S.seen shelf.old) (S.seen shelf.new) result.ending }
    ensures console { result.console ≡ console }
    ensures clock { result.clock ≡ clock }
{
    without_run(replayed(rt, alloc, request, shelf, gate), console, clock)
}

fn freely_replayed<T: Threads + Wait + Sync, S: Shelf, G: Gate>(
    rt: &T,
    alloc: Global,
    request: &ReplayRequest,
    shelf: &mut S,
    gate: &G,
) -> Ending
    requires writing { (S.seen shelf.old).writing ≡ false }
    requires log { S.has shelf.old request.now.log.now }
    requires image { S.has shelf.old request.now.image.now }
    ensures writing { (S.seen shelf.new).writing ≡ false }
    ensures replays { ReplaysAs (replay_by request.now) (S.seen shelf.old) (S.seen shelf.new) result }
{
    match files_for(alloc, request, shelf) {
        Ok((log, image)) => {
            let outcome = free_outcome_of(rt, alloc, log, &image, gate);
            keep_outcome(alloc, request, outcome, shelf)
        }
        Err(ending) => ending,
    }
}

/// Replays the log that is asked for, with free harts.
pub(crate) fn replay_freely<T: Threads + Wait + Sync, S: Shelf, C: Console, K: Clock, G: Gate>(
    rt: &T,
    alloc: Global,
    request: &ReplayRequest,
    shelf: &mut S,
    console: C,
    clock: K,
    gate: &G,
) -> Ended<C, K>
    requires writing { (S.seen shelf.old).writing ≡ false }
    requires log { S.has shelf.old request.now.log.now }
    requires image { S.has shelf.old request.now.image.now }
    ensures writing { (S.seen shelf.new).writing ≡ false }
    ensures replays { ReplaysAs (replay_by request.now) (S.seen shelf.old) (S.seen shelf.new) result.ending }
    ensures console { result.console ≡ console }
    ensures clock { result.clock ≡ clock }
{
    without_run(
        freely_replayed(rt, alloc, request, shelf, gate),
        console,
        clock,
    )
}
