//! Which yields each Gain waits for.
ghost use Rattle.std.specs.Prelude.{◌≡◌, ◌<◌, ◌^◌, ◌++◌, [], length, string_bytes, IsTrue, IfOk, OnOk};
ghost use Rattle.std.specs.List.{cons_option};
ghost use Rattle.log_entry.specs.Range.{in_range};
ghost use Rattle.log_inspect.specs.ByNumber.{by_number};
ghost use Rattle.log_inspect.specs.Table.{hand_over, hand_overs_of, hand_overs_in, hand_overs, in_order, waits_in, waits_of, next_yield, yields_text, table_head, table_line, lines_of, hand_over_lines};

use crate::listing::put_yield;
use log_entry::{Entries, Entry, Log, WaitFor};
use shared_types::NoMemory;
use std::alloc::{AllocError, Global};
use std::fmt::Write;

/// A Gain with waits, by its page, its number there, its hart and its place in that hart's stream.
#[derive(Clone, Copy, Debug, PartialEq, Eq)]
pub(crate) struct HandOver {
    page: u32,
    seq: u32,
    hart: u8,
    entry: usize,
}

fn hand_over(hart: u8, place: usize, e: &Entry) -> Option<HandOver>
    ensures { result ≡ hand_over hart place e.now }
{
    match e {
        Entry::Gain {
            page,
            seq,
            waits,
            ..
        } if !waits.items().is_empty() => Some(HandOver {
            page: *page,
            seq: *seq,
            hart,
            entry: place,
        }),
        _ => None,
    }
}

fn add_entry(gains: &mut Vec<HandOver>, hart: u8, place: usize, e: &Entry) -> Result<(), AllocError>
    ensures { OnOk result (gains.new.items ≡ gains.old.items ++ cons_option (hand_over hart place e.now) []) }
{
    if let Some(gain) = hand_over(hart, place, e) {
        gains.push(gain)?;
    }
    Ok(())
}

fn add_entries(gains: &mut Vec<HandOver>, hart: u8, s: &[Entry]) -> Result<(), AllocError>
    ensures { OnOk result (gains.new.items ≡ gains.old.items ++ hand_overs_of hart s.now) }
{
    for (place, e) in s.iter().enumerate() {
        add_entry(gains, hart, place, e)?;
    }
    Ok(())
}

fn add_stream(gains: &mut Vec<HandOver>, hart: u8, stream: &Entries) -> Result<(), AllocError>
    ensures { OnOk result (gains.new.items ≡ gains.old.items ++ hand_overs_of hart stream.now) }
{
    add_entries(gains, hart, stream.items())
}

fn add_streams(gains: &mut Vec<HandOver>, streams: &[Entries]) -> Result<(), AllocError>
    requires { length streams.now < 2 ^ 8 }
    ensures { OnOk result (gains.new.items ≡ gains.old.items ++ hand_overs_in streams.now) }
{
    for (hart, stream) in streams.iter().enumerate() {
        add_stream(gains, hart as u8, stream)?;
    }
    Ok(())
}

fn sort_by_seq(gains: &mut Vec<HandOver>) -> Result<(), AllocError>
    ensures { OnOk result (gains.new.items ≡ by_number (λ x. x.seq) gains.old.items) }
{
    gains.sort_by_key(|x| x.seq)?;
    Ok(())
}

fn sort_by_page(gains: &mut Vec<HandOver>) -> Result<(), AllocError>
    ensures { OnOk result (gains.new.items ≡ by_number (λ x. x.page) gains.old.items) }
{
    gains.sort_by_key(|x| x.page)?;
    Ok(())
}

/// The Gains with waits, by page, number, hart and entry: both sorts are stable.
fn sorted_gains(alloc: Global, l: &Log) -> Result<Vec<HandOver>, AllocError>
    requires { length l.now.streams < 2 ^ 8 }
    ensures { IfOk result (λ v. v.items ≡ in_order (hand_overs l.now)) }
{
    let mut gains = Vec::new(alloc);
    add_streams(&mut gains, l.streams.items())?;
    sort_by_seq(&mut gains)?;
    sort_by_page(&mut gains)?;
    Ok(gains)
}

fn waits_in(e: &Entry) -> &[WaitFor]
    ensures { result.now ≡ waits_in e.now }
{
    match e {
        Entry::Gain { waits, .. } => waits.items(),
        _ => &[],
    }
}

#[tactic(auto, unfolding(crate::specs::Table::next_yield))]
fn put_next(out: &mut String, wait: &WaitFor) -> Result<(), AllocError>
    ensures { OnOk result (string_bytes out.new ≡ string_bytes out.old ++ next_yield wait.now) }
{
    out.push_str(" ")?;
    put_yield(out, wait)
}

fn put_yields(out: &mut String, waits: &[WaitFor]) -> Result<(), AllocError>
    ensures { OnOk result (string_bytes out.new ≡ string_bytes out.old ++ yields_text waits.now) }
{
    for i in 0..waits.len() {
        put_next(out, &waits[i])?;
    }
    Ok(())
}

#[tactic(auto, unfolding(crate::specs::Table::table_head))]
fn put_table_head(out: &mut String, x: HandOver) -> Result<(), AllocError>
    ensures { OnOk result (string_bytes out.new ≡ string_bytes out.old ++ table_head x) }
{
    let page = x.page;
    let seq = x.seq;
    let hart = x.hart;
    write!(out, "page {page} seq {seq} hart {hart} from")
}

fn put_waits_of(out: &mut String, l: &Log, x: HandOver) -> Result<(), AllocError>
    ensures { OnOk result (string_bytes out.new ≡ string_bytes out.old ++ yields_text (waits_of l.now x)) }
{
    match l.streams.items().get(usize::from(x.hart)) {
        None => Ok(()),
        Some(s) => match s.items().get(x.entry) {
            None => Ok(()),
            Some(e) => put_yields(out, waits_in(e)),
        },
    }
}

#[tactic(auto, unfolding(crate::specs::Table::table_line))]
fn put_table_line(out: &mut String, l: &Log, x: HandOver) -> Result<(), AllocError>
    ensures { OnOk result (string_bytes out.new ≡ string_bytes out.old ++ table_line l.now x) }
{
    put_table_head(out, x)?;
    put_waits_of(out, l, x)?;
    out.push_str("\n")
}

fn put_lines(out: &mut String, l: &Log, gains: &[HandOver]) -> Result<(), AllocError>
    ensures { OnOk result (string_bytes out.new ≡ string_bytes out.old ++ lines_of l.now gains.now) }
{
    for x in gains {
        put_table_line(out, l, *x)?;
    }
    Ok(())
}

fn table_of(alloc: Global, l: &Log) -> Result<String, AllocError>
    requires { length l.now.streams < 2 ^ 8 }
    ensures { IfOk result (λ s. string_bytes s ≡ hand_over_lines l.now) }
{
    let gains = sorted_gains(alloc, l)?;
    let mut out = String::new(alloc);
    put_lines(&mut out, l, gains.as_slice())?;
    Ok(out)
}

/// Which yields each Gain waits for, by page, number, hart and entry.
#[tactic(auto, using(crate::proofs::Pages::few_harts))]
pub fn hand_over_table(alloc: Global, l: &Log) -> Result<Vec<u8>, NoMemory>
    requires { IsTrue (in_range l.now) }
    ensures { IfOk result (λ v. v.items ≡ hand_over_lines l.now) }
{
    match table_of(alloc, l) {
        Ok(out) => Ok(out.into_bytes()),
        Err(_) => Err(NoMemory),
    }
}
