//! The command that records a run.

ghost use Rattle.std.specs.Prelude.{◌≡◌, ◌≢◌, ◌≤◌, ◌++◌, IsTrue, IsSome, Some, true, false, length, IfSome, OnOk};
ghost use Rattle.std.specs.List.{concat};
ghost use Rattle.rv_words.specs.declared.shared.Cause.TheVariants as causes;
ghost use Rattle.rv_words.specs.Limits.{most_pages};
ghost use Rattle.log_entry.specs.Range.{in_range};
ghost use Rattle.log_format.specs.Grammar.{spelling};
ghost use Rattle.log_format.specs.Given.{IsAt, pieces_left};
ghost use Rattle.outside.specs.Causes.{HasCause};
ghost use Rattle.outside.specs.Seen.{ToldBefore, Holds, OthersHold};
ghost use Rattle.crew_parts.specs.Boards.{world};
ghost use Rattle.revirt_tool.specs.Tasks.{wish_by, IsAllowedRecording};
ghost use Rattle.revirt_tool.specs.Replays.{IsReportable};
ghost use Rattle.revirt_tool.specs.Serving.{ImageAs, KeepsAs, RecordsAs};

use crate::ending::{Ended, Ending, File, without_run};
use crate::fetching::file_for;
use crew_core::{OutOfMemory, Recorded};
use elf_image::{Image, ImageError, read_image};
use flat_machine::Final;
use free_run::record_free;
use log_entry::{Cause, Log};
use log_format::LogPieces;
use outside::{Clock, Console, Failed, Gate, Shelf, keep};
use report_view::report_text;
use round_run::record_rounds;
use std::alloc::Global;
use std::sync::Wait;
use std::thread::Threads;

/// What a recording is asked for: its files, the board's harts and pages, and the limits of moves and of log bytes.
#[derive(Clone, Copy, Drop)]
pub(crate) struct Request<'a> {
    pub image: &'a str,
    pub log: &'a str,
    pub dump: Option<&'a str>,
    pub harts: u8,
    pub pages: u16,
    pub limit: u64,
    pub log_limit: u64,
    /// Each hart runs on a thread of its own, and not in rounds.
    pub free: bool,
}

/// Keeps the dump: the memory, and then the bytes sent to the console.
pub(crate) fn keep_dump<S: Shelf>(shelf: &mut S, name: &str, ended: &Final) -> Result<(), Failed>
    requires writing { (S.seen shelf.old).writing ≡ false }
    ensures writing { (S.seen shelf.new).writing ≡ false }
    ensures tells { ToldBefore (S.seen shelf.old).tells (S.seen shelf.new).tells }
    ensures kept { OnOk result (Holds (S.seen shelf.new) name.now (ended.now.memory ++ ended.now.sent)) }
    ensures others { OthersHold name.now (S.seen shelf.old) (S.seen shelf.new) }
    ensures cause { HasCause (S.seen shelf.old).faults (S.seen shelf.new).faults result }
{
    keep(shelf, name, &[ended.memory.items(), ended.sent.items()])
}

/// Keeps the log: its pieces, one behind the other, of which none has been given.
fn keep_log<S: Shelf>(
    shelf: &mut S,
    name: &str,
    mut pieces: LogPieces,
    log: &Log,
) -> Result<(), Failed>
    requires writing { (S.seen shelf.old).writing ≡ false }
    requires at { IsAt pieces log.now }
    requires whole { concat (pieces_left pieces log.now) ≡ spelling log.now }
    ensures writing { (S.seen shelf.new).writing ≡ false }
    ensures tells { ToldBefore (S.seen shelf.old).tells (S.seen shelf.new).tells }
    ensures kept { OnOk result (Holds (S.seen shelf.new) name.now (spelling log.now)) }
    ensures others { OthersHold name.now (S.seen shelf.old) (S.seen shelf.new) }
    ensures cause { HasCause (S.seen shelf.old).faults (S.seen shelf.new).faults result }
{
    shelf.begin(name)?;
    while let Some(piece) = pieces.next_piece(log) {
        shelf.append(piece)?;
    }
    shelf.finish()
}

/// Keeps the log and, where one is asked for, the dump.
fn keep_run<S: Shelf>(
    alloc: Global,
    shelf: &mut S,
    request: &Request,
    log: &Log,
    ended: &Final,
) -> Ending
    requires writing { (S.seen shelf.old).writing ≡ false }
    requires range { IsTrue (in_range log.now) }
    requires counts { length ended.now.harts ≡ length ended.now.counts }
    requires stop { ended.now.cause ≡ causes.Stop → IsSome ended.now.stop }
    requires names { IfSome request.now.dump (λ d. d.now ≢ request.now.log.now) }
    ensures writing { (S.seen shelf.new).writing ≡ false }
    ensures tells { ToldBefore (S.seen shelf.old).tells (S.seen shelf.new).tells }
    ensures keeps { KeepsAs (wish_by request.now) log.now ended.now (S.seen shelf.old) (S.seen shelf.new) result }
{
    let Ok(pieces) = LogPieces::start(alloc, log) else {
        return Ending::NoMemory;
    };
    let Ok(report) = report_text(alloc, ended) else {
        return Ending::NoMemory;
    };
    if keep_log(shelf, request.log, pieces, log).is_err() {
        return Ending::ShelfFault;
    }
    if let Some(name) = request.dump {
        if keep_dump(shelf, name, ended).is_err() {
            return Ending::ShelfFault;
        }
    }
    Ending::Kept {
        report,
        fault: ended.cause == Cause::Fault,
    }
}

/// The image that is asked for.
fn image_for<S: Shelf>(alloc: Global, request: &Request, shelf: &mut S) -> Result<Image, Ending>
    requires has { S.has shelf.old request.now.image.now }
    requires least { 1 ≤ request.now.pages }
    requires most { request.now.pages ≤ most_pages }
    ensures writing { (S.seen shelf.new).writing ≡ (S.seen shelf.old).writing }
    ensures tells { ToldBefore (S.seen shelf.old).tells (S.seen shelf.new).tells }
    ensures image { ImageAs (wish_by request.now) (S.seen shelf.old) (S.seen shelf.new) result }
{
    let file = file_for(alloc, File::Image, request.image, shelf)?;
    match read_image(alloc, file.as_slice(), request.pages) {
        Ok(image) => Ok(image),
        Err(ImageError::Refused(rule)) => Err(Ending::ImageRefused { rule }),
        Err(ImageError::NoMemory) => Err(Ending::NoMemory),
    }
}

/// Keeps what was recorded.
fn keep_recorded<S: Shelf, C: Console, K: Clock>(
    alloc: Global,
    shelf: &mut S,
    request: &Request,
    recorded: Recorded<C, K>,
) -> Ended<C, K>
    requires writing { (S.seen shelf.old).writing ≡ false }
    requires range { IsTrue (in_range recorded.log) }
    requires end { IsReportable recorded.ended }
    requires names { IfSome request.now.dump (λ d. d.now ≢ request.now.log.now) }
    ensures writing { (S.seen shelf.new).writing ≡ false }
    ensures tells { ToldBefore (S.seen shelf.old).tells (S.seen shelf.new).tells }
    ensures keeps { KeepsAs (wish_by request.now) recorded.log recorded.ended
        (S.seen shelf.old) (S.seen shelf.new) result.ending }
    ensures console { result.console ≡ recorded.console }
    ensures clock { result.clock ≡ recorded.clock }
{
    let Recorded {
        log,
        ended,
        journal: _,
        turns: _,
        console,
        clock,
    } = recorded;
    Ended {
        ending: keep_run(alloc, shelf, request, &log, &ended),
        console,
        clock,
    }
}

/// Ends a recording for want of memory.
fn unrecorded<C: Console, K: Clock>(refused: OutOfMemory<C, K>) -> Ended<C, K>
    ensures ending { result.ending ≡ Ending.NoMemory }
    ensures console { result.console ≡ refused.console }
    ensures clock { result.clock ≡ refused.clock }
{
    let OutOfMemory { console, clock } = refused;
    Ended {
        ending: Ending::NoMemory,
        console,
        clock,
    }
}

/// Records the run that is asked for, in rounds.
pub(crate) fn record<T: Threads + Sync, S: Shelf, C: Console, K: Clock, G: Gate>(
    rt: &T,
    alloc: Global,
    request: &Request,
    shelf: &mut S,
    console: C,
    clock: K,
    gate: &G,
) -> Ended<C, K>
    requires writing { (S.seen shelf.old).writing ≡ false }
    requires has { S.has shelf.old request.now.image.now }
    requires allowed { IsAllowedRecording request.now }
    requires rounds { request.now.free ≡ false }
    ensures writing { (S.seen shelf.new).writing ≡ false }
    ensures tells { ToldBefore (S.seen shelf.old).tells (S.seen shelf.new).tells }
    ensures records { RecordsAs (wish_by request.now) (S.seen shelf.old) (S.seen shelf.new)
        (world (C.seen console) (K.seen clock)) (world (C.seen result.console) (K.seen result.clock))
        result.ending }
{
    let image = match image_for(alloc, request, shelf) {
        Ok(image) => image,
        Err(ending) => return without_run(ending, console, clock),
    };
    match record_rounds(
        rt,
        alloc,
        &image,
        request.harts,
        request.limit,
        request.log_limit,
        console,
        clock,
        gate,
    ) {
        Err(refused) => unrecorded(refused),
        Ok(recorded) => keep_recorded(alloc, shelf, request, recorded),
    }
}

/// Records the run that is asked for, with free harts.
pub(crate) fn record_freely<T: Threads + Wait + Sync, S: Shelf, C: Console, K: Clock, G: Gate>(
    rt: &T,
    alloc: Global,
    request: &Request,
    shelf: &mut S,
    console: C,
    clock: K,
    gate: &G,
) -> Ended<C, K>
    requires writing { (S.seen shelf.old).writing ≡ false }
    requires has { S.has shelf.old request.now.image.now }
    requires allowed { IsAllowedRecording request.now }
    requires free { request.now.free ≡ true }
    ensures writing { (S.seen shelf.new).writing ≡ false }
    ensures tells { ToldBefore (S.seen shelf.old).tells (S.seen shelf.new).tells }
    ensures records { RecordsAs (wish_by request.now) (S.seen shelf.old) (S.seen shelf.new)
        (world (C.seen console) (K.seen clock)) (world (C.seen result.console) (K.seen result.clock))
        result.ending }
{
    let image = match image_for(alloc, request, shelf) {
        Ok(image) => image,
        Err(ending) => return without_run(ending, console, clock),
    };
    match record_free(
        rt,
        alloc,
        &image,
        request.harts,
        request.limit,
        request.log_limit,
        console,
        clock,
        gate,
    ) {
        Err(refused) => unrecorded(refused),
        Ok(recorded) => keep_recorded(alloc, shelf, request, recorded),
    }
}
