//! How a command ends: its status, and the text that it prints.

ghost use Rattle.std.specs.Prelude.{◌≡◌, IfOk, string_bytes};
ghost use Rattle.revirt_tool.specs.Lines.{too_long_line, disorderly_line, other_line};
ghost use Rattle.revirt_tool.specs.Closing.{PrintsOrFails, PrintsLine, Closes};

use outside::{Clock, Console, Sink};
use std::alloc::{AllocError, Global};

/// A file that a command fetches.
#[derive(Clone, Copy, Debug, PartialEq, Eq)]
pub enum File {
    Image,
    Log,
}

/// How a command ends, before its text is printed.
#[derive(Drop)]
pub enum Ending {
    /// The word at this place can't stand there, or is missing.
    Usage { place: u64 },
    /// This file is longer than it may be.
    TooLong { file: File },
    /// The least rule that the image breaks.
    ImageRefused { rule: u8 },
    /// The first bad field of the log, by its offset, and the rule that it breaks.
    Malformed { offset: u64, rule: u8 },
    /// The start digests that the log names and that the image has.
    OtherImage { log: [u8; 32], image: [u8; 32] },
    /// The least rule that the log breaks, and the least hart and entry that break it.
    Disorderly { rule: u8, hart: u8, entry: u32 },
    /// The least hart that diverged in a replay, its count, and the rule.
    Diverged { hart: u8, count: u64, rule: u8 },
    NoMemory,
    ShelfFault,
    /// The report of a run or of a replay, the trace of one, or the summary of a sample, and whether the console failed
    /// in the run.
    Kept { report: Vec<u8>, fault: bool },
    /// The listing of a log, and whether the log is orderly.
    Listed { listing: Vec<u8>, orderly: bool },
}

/// How a command ended, with the console and the clock that were handed in.
pub(crate) struct Ended<C: Console, K: Clock> {
    pub ending: Ending,
    pub console: C,
    pub clock: K,
}

/// An ending without a run: the console and the clock go back as they came.
pub(crate) fn without_run<C: Console, K: Clock>(ending: Ending, console: C, clock: K) -> Ended<C, K>
    ensures { result ≡ record { ending = ending; console = console; clock = clock } }
{
    Ended {
        ending,
        console,
        clock,
    }
}

/// Prints a text, and gives the status where it is printed, or the other one. For an empty text the sink isn't asked.
fn print<R: Sink>(text: &[u8], printed: u8, failed: u8, report: &mut R) -> u8
    ensures { PrintsOrFails text.now printed failed (R.seen report.old) (R.seen report.new) result }
{
    if text.is_empty() {
        return printed;
    }
    match report.put(text) {
        Ok(()) => printed,
        Err(_) => failed,
    }
}

/// The line of a log that breaks an order rule.
pub(crate) fn disorderly_line(
    alloc: Global,
    rule: u8,
    hart: u8,
    entry: u32,
) -> Result<String, AllocError>
    ensures { IfOk result (λ s. string_bytes s ≡ disorderly_line rule hart entry) }
{
    format!(in alloc; "disorderly: rule O{rule} hart {hart} entry {entry}\n")
}

/// The line of a log that names another image's start.
fn other_line(alloc: Global, log: &[u8], image: &[u8]) -> Result<String, AllocError>
    ensures { IfOk result (λ s. string_bytes s ≡ other_line log.now image.now) }
{
    let mut line = String::from_str(alloc, "other image: ")?;
    line.push_str(hex::encode(alloc, log)?.as_str())?;
    line.push_str(" ")?;
    line.push_str(hex::encode(alloc, image)?.as_str())?;
    line.push_str("\n")?;
    Ok(line)
}

fn too_long(file: File) -> &'static [u8]
    ensures { result.now ≡ too_long_line file }
{
    match file {
        File::Image => b"too long: image\n",
        File::Log => b"too long: log\n",
    }
}

/// Prints a line, and gives its status; where there was no memory for the line, says so.
fn print_line<R: Sink>(line: Result<String, AllocError>, status: u8, report: &mut R) -> u8
    ensures { PrintsLine (λ s. string_bytes s) line status (R.seen report.old) (R.seen report.new) result }
{
    match line {
        Ok(line) => print(line.as_bytes(), status, status, report),
        Err(_) => print(b"no memory\n", 3, 3, report),
    }
}

/// Prints the text of an ending, and gives its status.
pub(crate) fn close<R: Sink>(alloc: Global, ending: Ending, report: &mut R) -> u8
    ensures { Closes ending (R.seen report.old) (R.seen report.new) result }
{
    match ending {
        Ending::Usage { place } => {
            print_line(format!(in alloc; "usage: word {place}\n"), 1, report)
        }
        Ending::TooLong { file } => print(too_long(file), 9, 9, report),
        Ending::ImageRefused { rule } => {
            print_line(format!(in alloc; "image refused: I{rule}\n"), 2, report)
        }
        Ending::Malformed { offset, rule } => {
            let line = format!(in alloc; "malformed: offset {offset} rule M{rule}\n");
            print_line(line, 6, report)
        }
        Ending::OtherImage { log, image } => {
            print_line(other_line(alloc, &log, &image), 10, report)
        }
        Ending::Disorderly { rule, hart, entry } => {
            print_line(disorderly_line(alloc, rule, hart, entry), 7, report)
        }
        Ending::Diverged { hart, count, rule } => {
            let line = format!(in alloc; "diverged: hart {hart} count {count} rule V{rule}\n");
            print_line(line, 8, report)
        }
        Ending::NoMemory => print(b"no memory\n", 3, 3, report),
        Ending::ShelfFault => print(b"shelf fault\n", 4, 4, report),
        Ending::Kept {
            report: text,
            fault,
        } => {
            let (printed, failed) = if fault { (5, 5) } else { (0, 11) };
            print(text.as_slice(), printed, failed, report)
        }
        Ending::Listed { listing, orderly } => {
            let (printed, failed) = if orderly { (0, 11) } else { (7, 7) };
            print(listing.as_slice(), printed, failed, report)
        }
    }
}
