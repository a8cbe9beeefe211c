//! The entries of a log, hart by hart.
ghost use Rattle.std.specs.Prelude.{◌≡◌, ◌++◌, flat_map, string_bytes, IfOk, OnOk};
ghost use Rattle.log_inspect.specs.Listing.{cause_name, mode_name, left_name, input_text, yield_text, wait_text, place_text, gain_text, left_text, poll_text, touch_text, end_text, entry_text, entry_line, entry_lines, hart_line, hart_lines, lines_of_harts, board_text, head_line, image_line, listing};

use log_entry::{Entries, Entry, Log, WaitFor};
use rv_words::{Cause, Input, Mode};
use shared_types::NoMemory;
use std::alloc::{AllocError, Global};
use std::fmt::Write;

#[tactic(auto, unfolding(crate::specs::Listing::cause_name))]
fn cause_name(cause: Cause) -> &'static str
    ensures { result.now ≡ cause_name cause }
{
    match cause {
        Cause::Stop => "stop",
        Cause::Limit => "limit",
        Cause::Full => "full",
        Cause::Fault => "fault",
        Cause::Cut => "cut",
    }
}

#[tactic(auto, unfolding(crate::specs::Listing::mode_name))]
fn mode_name(mode: Mode) -> &'static str
    ensures { result.now ≡ mode_name mode }
{
    match mode {
        Mode::Read => "read",
        Mode::Write => "write",
    }
}

#[tactic(auto, unfolding(crate::specs::Listing::left_name))]
fn left_name(left: Option<Mode>) -> &'static str
    ensures { result.now ≡ left_name left }
{
    match left {
        None => "none",
        Some(mode) => mode_name(mode),
    }
}

#[tactic(auto, unfolding(crate::specs::Listing::input_text))]
fn put_input(out: &mut String, input: Input) -> Result<(), AllocError>
    ensures { OnOk result (string_bytes out.new ≡ string_bytes out.old ++ input_text input) }
{
    match input {
        Input::Nothing => out.push_str("nothing"),
        Input::Empty => out.push_str("empty"),
        Input::Byte(n) => write!(out, "byte {n}"),
        Input::Time(t) => write!(out, "time {t}"),
    }
}

/// A yield by its hart and its count.
#[tactic(auto, unfolding(crate::specs::Listing::yield_text))]
pub(crate) fn put_yield(out: &mut String, wait: &WaitFor) -> Result<(), AllocError>
    ensures { OnOk result (string_bytes out.new ≡ string_bytes out.old ++ yield_text wait.now) }
{
    let hart = wait.hart;
    let count = wait.count;
    write!(out, "{hart}@{count}")
}

#[tactic(auto, unfolding(crate::specs::Listing::wait_text))]
fn put_wait(out: &mut String, wait: &WaitFor) -> Result<(), AllocError>
    ensures { OnOk result (string_bytes out.new ≡ string_bytes out.old ++ wait_text wait.now) }
{
    out.push_str(" wait ")?;
    put_yield(out, wait)
}

fn put_waits(out: &mut String, waits: &[WaitFor]) -> Result<(), AllocError>
    ensures { OnOk result (string_bytes out.new ≡ string_bytes out.old ++ flat_map (λ w. wait_text w) waits.now) }
{
    for wait in waits {
        put_wait(out, wait)?;
    }
    Ok(())
}

/// What a Gain and a Yield begin with.
#[tactic(auto, unfolding(crate::specs::Listing::place_text))]
fn put_place(out: &mut String, count: u64, page: u32, seq: u32) -> Result<(), AllocError>
    ensures { OnOk result (string_bytes out.new ≡ string_bytes out.old ++ place_text count page seq) }
{
    write!(out, " count {count} page {page} seq {seq} ")
}

#[tactic(auto, unfolding(crate::specs::Listing::gain_text))]
fn put_gain(
    out: &mut String,
    count: u64,
    page: u32,
    seq: u32,
    mode: Mode,
    waits: &[WaitFor],
) -> Result<(), AllocError>
    ensures { OnOk result (string_bytes out.new ≡ string_bytes out.old ++ gain_text count page seq mode waits.now) }
{
    out.push_str("gain")?;
    put_place(out, count, page, seq)?;
    out.push_str(mode_name(mode))?;
    put_waits(out, waits)
}

#[tactic(auto, unfolding(crate::specs::Listing::left_text))]
fn put_left(
    out: &mut String,
    count: u64,
    page: u32,
    seq: u32,
    left: Option<Mode>,
) -> Result<(), AllocError>
    ensures { OnOk result (string_bytes out.new ≡ string_bytes out.old ++ left_text count page seq left) }
{
    out.push_str("yield")?;
    put_place(out, count, page, seq)?;
    out.push_str(left_name(left))
}

#[tactic(auto, unfolding(crate::specs::Listing::poll_text))]
fn put_poll(out: &mut String, count: u64, ord: u32, time: u64, bits: u8) -> Result<(), AllocError>
    ensures { OnOk result (string_bytes out.new ≡ string_bytes out.old ++ poll_text count ord time bits) }
{
    write!(out, "poll count {count} ord {ord} time {time} bits {bits}")
}

#[tactic(auto, unfolding(crate::specs::Listing::touch_text))]
fn put_touch(out: &mut String, count: u64, ord: u32, input: Input) -> Result<(), AllocError>
    ensures { OnOk result (string_bytes out.new ≡ string_bytes out.old ++ touch_text count ord input) }
{
    write!(out, "touch count {count} ord {ord} ")?;
    put_input(out, input)
}

#[tactic(auto, unfolding(crate::specs::Listing::end_text))]
fn put_end(out: &mut String, count: u64) -> Result<(), AllocError>
    ensures { OnOk result (string_bytes out.new ≡ string_bytes out.old ++ end_text count) }
{
    write!(out, "end count {count}")
}

#[tactic(auto, unfolding(crate::specs::Listing::entry_text))]
fn put_entry(out: &mut String, entry: &Entry) -> Result<(), AllocError>
    ensures { OnOk result (string_bytes out.new ≡ string_bytes out.old ++ entry_text entry.now) }
{
    match entry {
        Entry::Gain {
            count,
            page,
            seq,
            mode,
            waits,
        } => put_gain(out, *count, *page, *seq, *mode, waits.items()),
        Entry::Yield {
            count,
            page,
            seq,
            left,
        } => put_left(out, *count, *page, *seq, *left),
        Entry::Poll {
            count,
            ord,
            time,
            bits,
        } => put_poll(out, *count, *ord, *time, *bits),
        Entry::Touch { count, ord, input } => put_touch(out, *count, *ord, *input),
        Entry::End { count } => put_end(out, *count),
    }
}

#[tactic(auto, unfolding(crate::specs::Listing::entry_line))]
fn put_entry_line(out: &mut String, number: usize, entry: &Entry) -> Result<(), AllocError>
    ensures { OnOk result (string_bytes out.new ≡ string_bytes out.old ++ entry_line number entry.now) }
{
    write!(out, "{number} ")?;
    put_entry(out, entry)?;
    out.push_str("\n")
}

fn put_entries(out: &mut String, entries: &[Entry]) -> Result<(), AllocError>
    ensures { OnOk result (string_bytes out.new ≡ string_bytes out.old ++ entry_lines entries.now) }
{
    for (number, entry) in entries.iter().enumerate() {
        put_entry_line(out, number, entry)?;
    }
    Ok(())
}

#[tactic(auto, unfolding(crate::specs::Listing::hart_line))]
fn put_hart_line(out: &mut String, number: usize, entries: usize) -> Result<(), AllocError>
    ensures { OnOk result (string_bytes out.new ≡ string_bytes out.old ++ hart_line number entries) }
{
    writeln!(out, "hart {number} entries {entries}")
}

#[tactic(auto, unfolding(crate::specs::Listing::hart_lines))]
fn put_hart(out: &mut String, number: usize, stream: &Entries) -> Result<(), AllocError>
    ensures { OnOk result (string_bytes out.new ≡ string_bytes out.old ++ hart_lines number stream.now) }
{
    put_hart_line(out, number, stream.items().len())?;
    put_entries(out, stream.items())
}

fn put_harts(out: &mut String, streams: &[Entries]) -> Result<(), AllocError>
    ensures { OnOk result (string_bytes out.new ≡ string_bytes out.old ++ lines_of_harts streams.now) }
{
    for (number, stream) in streams.iter().enumerate() {
        put_hart(out, number, stream)?;
    }
    Ok(())
}

#[tactic(auto, unfolding(crate::specs::Listing::board_text))]
fn put_board(out: &mut String, harts: usize, pages: u16, limit: u64) -> Result<(), AllocError>
    ensures { OnOk result (string_bytes out.new ≡ string_bytes out.old ++ board_text harts pages limit) }
{
    write!(out, "log 1 harts {harts} pages {pages} limit {limit}")
}

#[tactic(auto, unfolding(crate::specs::Listing::head_line))]
fn put_head(
    out: &mut String,
    harts: usize,
    pages: u16,
    limit: u64,
    cause: Cause,
) -> Result<(), AllocError>
    ensures { OnOk result (string_bytes out.new ≡ string_bytes out.old ++ head_line harts pages limit cause) }
{
    put_board(out, harts, pages, limit)?;
    out.push_str(" cause ")?;
    out.push_str(cause_name(cause))?;
    out.push_str("\n")
}

#[tactic(auto, unfolding(crate::specs::Listing::image_line))]
fn put_image(alloc: Global, out: &mut String, digest: &[u8]) -> Result<(), AllocError>
    ensures { OnOk result (string_bytes out.new ≡ string_bytes out.old ++ image_line digest.now) }
{
    let digits = hex::encode(alloc, digest)?;
    out.push_str("image ")?;
    out.push_str(digits.as_str())?;
    out.push_str("\n")
}

fn put_listing(alloc: Global, out: &mut String, l: &Log) -> Result<(), AllocError>
    ensures { OnOk result (string_bytes out.new ≡ string_bytes out.old ++ listing l.now) }
{
    let streams = l.streams.items();
    put_head(out, streams.len(), l.pages, l.limit, l.cause)?;
    put_image(alloc, out, &l.image)?;
    put_harts(out, streams)
}

/// What a log says: its head, and each hart's entries in their order.
pub fn list_log(alloc: Global, l: &Log) -> Result<Vec<u8>, NoMemory>
    ensures { IfOk result (λ v. v.items ≡ listing l.now) }
{
    let mut out = String::new(alloc);
    match put_listing(alloc, &mut out, l) {
        Ok(()) => Ok(out.into_bytes()),
        Err(_) => Err(NoMemory),
    }
}
