//! The command that tells the moves of a hart.

ghost use Rattle.std.specs.Prelude.{◌≡◌, ◌≤◌, IsTrue, false};
ghost use Rattle.rv_words.specs.Limits.{most_moves};
ghost use Rattle.elf_image.specs.Image.{IsWhole};
ghost use Rattle.log_entry.specs.Range.{in_range};
ghost use Rattle.revirt_tool.specs.Tasks.{trace_by};
ghost use Rattle.revirt_tool.specs.Traces.{TellsAs, TracesAs};

use crate::ending::{Ended, Ending, without_run};
use crate::fetching::log_for;
use crate::replaying::{in_order, start_for};
use elf_image::Image;
use log_entry::Log;
use outside::{Clock, Console, Shelf};
use replay_core::{Outcome, Told, story};
use report_view::trace_text;
use std::alloc::Global;

/// What a trace is asked for: its files, the hart, and the counts from which and below which its moves are told.
#[derive(Clone, Copy, Drop)]
pub(crate) struct TraceRequest<'a> {
    pub image: &'a str,
    pub log: &'a str,
    pub hart: u8,
    pub from: u64,
    pub to: u64,
}

/// The trace of a log over an image.
fn moves_told(
    alloc: Global,
    request: &TraceRequest,
    log: Log,
    image: &Image,
) -> Result<Vec<u8>, Ending>
    requires range { IsTrue (in_range log) }
    requires whole { IsWhole image.now }
    requires pages { log.pages ≡ image.now.pages }
    requires from { request.now.from ≤ request.now.to }
    requires to { request.now.to ≤ most_moves }
    ensures { TellsAs (λ v. v.items) (trace_by request.now) log image.now result }
{
    let orderly = in_order(alloc, log)?;
    let Told { steps, outcome } = match story(
        alloc,
        orderly,
        image,
        request.hart,
        request.from,
        request.to,
    ) {
        Ok(told) => told,
        Err(_) => return Err(Ending::NoMemory),
    };
    match outcome {
        Outcome::Done(_) => match trace_text(alloc, request.from, &steps) {
            Ok(text) => Ok(text),
            Err(_) => Err(Ending::NoMemory),
        },
        Outcome::Diverged {
            hart,
            count,
            why,
            state: _,
        } => Err(Ending::Diverged {
            hart,
            count,
            rule: why,
        }),
    }
}

fn traced<S: Shelf>(alloc: Global, request: &TraceRequest, shelf: &mut S) -> Ending
    requires log { S.has shelf.old request.now.log.now }
    requires image { S.has shelf.old request.now.image.now }
    requires from { request.now.from ≤ request.now.to }
    requires to { request.now.to ≤ most_moves }
    ensures writing { (S.seen shelf.new).writing ≡ (S.seen shelf.old).writing }
    ensures traces { TracesAs (trace_by request.now) (S.seen shelf.old) (S.seen shelf.new) result }
{
    let log = match log_for(alloc, request.log, shelf) {
        Ok(log) => log,
        Err(ending) => return ending,
    };
    let image = match start_for(alloc, request.image, &log, shelf) {
        Ok(image) => image,
        Err(ending) => return ending,
    };
    match moves_told(alloc, request, log, &image) {
        Ok(report) => Ending::Kept {
            report,
            fault: false,
        },
        Err(ending) => ending,
    }
}

/// Tells the moves of a hart that are asked for.
pub(crate) fn trace<S: Shelf, C: Console, K: Clock>(
    alloc: Global,
    request: &TraceRequest,
    shelf: &mut S,
    console: C,
    clock: K,
) -> Ended<C, K>
    requires log { S.has shelf.old request.now.log.now }
    requires image { S.has shelf.old request.now.image.now }
    requires from { request.now.from ≤ request.now.to }
    requires to { request.now.to ≤ most_moves }
    ensures writing { (S.seen shelf.new).writing ≡ (S.seen shelf.old).writing }
    ensures traces { TracesAs (trace_by request.now) (S.seen shelf.old) (S.seen shelf.new) result.ending }
    ensures console { result.console ≡ console }
    ensures clock { result.clock ≡ clock }
{
    without_run(traced(alloc, request, shelf), console, clock)
}
