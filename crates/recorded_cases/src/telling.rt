//! What a case comes to.

ghost use Rattle.std.specs.Prelude.{◌≤◌, IfOk};
ghost use Rattle.rv_words.specs.Limits.{most_moves, longest_log};

use crate::case::Case;
use anyhow::{Result, anyhow, bail, ensure};
use crew_core::Recorded;
use elf_image::{Image, read_image};
use flat_machine::Final;
use log_entry::Log;
use log_format::{in_range, write_log};
use outside::{Asked, MemClock, MemConsole, OpenGate};
use recorder::{has_harts, record_list};
use report_view::report_text;
use round_run::record_rounds;
use rv_words::{Cause, MAX_HARTS};
use std::alloc::Global;
use std::fmt::{Display, Write};
use std::thread::Threads;

/// The bytes that a console takes at most.
const ROOM: u64 = 1 << 20;

/// The bytes of the log, and the text.
#[derive(Drop)]
pub struct Told {
    pub log: Vec<u8>,
    pub text: String,
}

/// The console gives these bytes, one a poll, and then ends.
fn console_of(alloc: Global, bytes: &[u8]) -> Result<MemConsole> {
    let mut answers = Vec::new(alloc);
    for byte in bytes {
        answers.push(Asked::Byte(*byte))?;
    }
    MemConsole::start(alloc, &answers, Asked::End, ROOM, &[]).map_err(|_| anyhow!("memory ran out"))
}

/// Bytes as the characters with these numbers.
fn put_bytes(out: &mut String, bytes: &[u8]) -> Result<()> {
    for byte in bytes {
        out.push(char::from(*byte))?;
    }
    Ok(())
}

/// Rows as `NAME (HART, NUMBER), ..`, with a blank behind the name where there are none, too.
fn put_rows<N: Copy + Display>(out: &mut String, name: &str, rows: &[(u8, N)]) -> Result<()> {
    out.push_str(name)?;
    out.push_str(" ")?;
    let mut between = "";
    for (hart, number) in rows {
        write!(out, "{between}({hart}, {number})")?;
        between = ", ";
    }
    out.push_str("\n")?;
    Ok(())
}

/// The report of what a run ended with.
fn put_report(alloc: Global, out: &mut String, ended: &Final) -> Result<()> {
    ensure!(
        ended.harts.items().len() == ended.counts.items().len(),
        "a hart has no count"
    );
    ensure!(
        ended.cause != Cause::Stop || ended.stop.is_some(),
        "a stop has no word"
    );
    let report = report_text(alloc, ended).map_err(|_| anyhow!("memory ran out"))?;
    put_bytes(out, &report)
}

/// The bytes of the log.
fn spell(alloc: Global, log: &Log) -> Result<Vec<u8>> {
    ensure!(in_range(log), "the log is not in range");
    write_log(alloc, log).map_err(|_| anyhow!("memory ran out"))
}

type Came = Recorded<MemConsole, MemClock>;

/// By a list: the log, the journal, the turns and the report.
fn listed(alloc: Global, came: &Came) -> Result<Told> {
    let mut text = String::new(alloc);
    put_rows(&mut text, "journal", came.journal.items())?;
    put_rows(&mut text, "turns", came.turns.items())?;
    put_report(alloc, &mut text, &came.ended)?;
    Ok(Told {
        log: spell(alloc, &came.log)?,
        text,
    })
}

/// In rounds: the log, and the bytes sent with the report behind them.
fn in_rounds(alloc: Global, came: &Came) -> Result<Told> {
    let mut text = String::new(alloc);
    put_bytes(&mut text, came.console.taken())?;
    put_report(alloc, &mut text, &came.ended)?;
    Ok(Told {
        log: spell(alloc, &came.log)?,
        text,
    })
}

/// The image of a case, whose numbers are within the limits of boards.
fn image_of(alloc: Global, case: &Case) -> Result<Image>
    ensures least { IfOk result (λ image. 1 ≤ case.now.harts) }
    ensures most { IfOk result (λ image. case.now.harts ≤ MAX_HARTS) }
    ensures limit { IfOk result (λ image. case.now.limit ≤ most_moves) }
    ensures log_least { IfOk result (λ image. 1024 ≤ case.now.log_limit) }
    ensures log_most { IfOk result (λ image. case.now.log_limit ≤ longest_log) }
{
    ensure!(
        1 <= case.harts && case.harts <= MAX_HARTS,
        "too few harts, or too many"
    );
    ensure!(
        1 <= case.pages && case.pages <= 4096,
        "too few pages, or too many"
    );
    ensure!(case.limit <= 1_000_000_000_000, "too many moves");
    ensure!(
        1024 <= case.log_limit && case.log_limit <= 536_870_912,
        "too few bytes of the log, or too many",
    );
    read_image(alloc, &case.image, case.pages).map_err(|_| anyhow!("the image is refused"))
}

/// What a case with rows comes to.
fn tell_list(alloc: Global, case: &Case, rows: &[(u8, u32)]) -> Result<Told> {
    ensure!(has_harts(case.harts, rows), "a row is of no hart");
    let image = image_of(alloc, case)?;
    let console = console_of(alloc, &case.console)?;
    let clock = MemClock::start(case.first_time, case.time_step);
    match record_list(
        alloc,
        &image,
        case.harts,
        case.limit,
        case.log_limit,
        console,
        clock,
        rows,
    ) {
        Ok(came) => listed(alloc, &came),
        Err(_) => bail!("memory ran out"),
    }
}

/// What a case in rounds comes to.
fn tell_rounds<T: Threads + Sync>(rt: &T, alloc: Global, case: &Case) -> Result<Told> {
    let image = image_of(alloc, case)?;
    let console = console_of(alloc, &case.console)?;
    let clock = MemClock::start(case.first_time, case.time_step);
    match record_rounds(
        rt,
        alloc,
        &image,
        case.harts,
        case.limit,
        case.log_limit,
        console,
        clock,
        &OpenGate,
    ) {
        Ok(came) => in_rounds(alloc, &came),
        Err(_) => bail!("memory ran out"),
    }
}

/// What a case comes to.
pub fn tell<T: Threads + Sync>(rt: &T, alloc: Global, case: &Case) -> Result<Told> {
    match &case.rows {
        Some(rows) => tell_list(alloc, case, rows),
        None => tell_rounds(rt, alloc, case),
    }
}
