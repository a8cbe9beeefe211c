//! How many entries each page has.
ghost use Rattle.std.specs.Prelude.{◌≡◌, ◌+◌, ◌<◌, ◌≤◌, ◌^◌, ◌++◌, ℕ, Some, cond, length, count_by, slice_get, slice_index, string_bytes, IsTrue, IfOk, OnOk};
ghost use Rattle.log_entry.specs.declared.log.Entry.{Entry as AnEntry};
ghost use Rattle.log_entry.specs.Parts.{units_of};
ghost use Rattle.log_entry.specs.Range.{in_range};
ghost use Rattle.log_order.specs.Bounds.{IsSmall};
ghost use Rattle.order_rules.specs.Places.{stream};
ghost use Rattle.log_inspect.specs.declared.totals.Kind.TheVariants as TheKind;
ghost use Rattle.log_inspect.specs.Totals.{page_of, gained, yielded, is_of, total, total_line, totals, PagesBelow};

use log_entry::{Entry, Log};
use shared_types::NoMemory;
use std::alloc::{AllocError, Global};
use std::fmt::Write;

/// What is counted.
#[derive(Clone, Copy, Debug, PartialEq, Eq)]
pub(crate) enum Kind {
    Gains,
    Yields,
}

fn gained(e: &Entry) -> Option<usize>
    ensures { result ≡ gained e.now }
{
    match e {
        Entry::Gain { page, .. } => Some(*page as usize),
        _ => None,
    }
}

fn yielded(e: &Entry) -> Option<usize>
    ensures { result ≡ yielded e.now }
{
    match e {
        Entry::Yield { page, .. } => Some(*page as usize),
        _ => None,
    }
}

/// The page that an entry of the kind is of.
fn page_of(kind: Kind, e: &Entry) -> Option<usize>
    ensures { result ≡ page_of kind e.now }
{
    match kind {
        Kind::Gains => gained(e),
        Kind::Yields => yielded(e),
    }
}

fn count_entry(kind: Kind, e: &Entry, counts: &mut [usize])
    requires page { (p : ℕ) → page_of kind e.now ≡ Some p → p < length counts.old }
    requires room { (g : ℕ) → slice_index counts.old g < 2 ^ 60 }
    ensures length { length counts.new ≡ length counts.old }
    ensures counts { (g : ℕ) → slice_index counts.new g ≡ slice_index counts.old g + cond (is_of kind g e.now) 1 0 }
{
    if let Some(page) = page_of(kind, e) {
        counts[page] += 1;
    }
}

fn count_stream(kind: Kind, s: &[Entry], counts: &mut [usize])
    requires pages { (i : ℕ) (e : AnEntry) (p : ℕ) → slice_get s.now i ≡ Some e → page_of kind e ≡ Some p
        → p < length counts.old }
    requires room { (g : ℕ) → slice_index counts.old g < 2 ^ 40 }
    requires short { length s.now < 2 ^ 32 }
    ensures length { length counts.new ≡ length counts.old }
    ensures counts { (g : ℕ) → slice_index counts.new g ≡ slice_index counts.old g + count_by (is_of kind g) s.now }
{
    for i in 0..s.len() {
        count_entry(kind, &s[i], counts);
    }
}

/// Counts the entries of each page.
fn count_log(kind: Kind, l: &Log, counts: &mut [usize])
    requires pages { PagesBelow kind l.now (length counts.old) }
    requires empty { (g : ℕ) → slice_index counts.old g ≡ 0 }
    requires harts { length l.now.streams ≤ 8 }
    requires short { (h : ℕ) → length (stream l.now h) < 2 ^ 32 }
    ensures length { length counts.new ≡ length counts.old }
    ensures counts { (g : ℕ) → slice_index counts.new g ≡ total kind l.now g }
{
    let streams = l.streams.items();
    for h in 0..streams.len() {
        count_stream(kind, streams[h].items(), counts);
    }
}

#[tactic(auto, using(crate::proofs::Pages::pages_below))]
fn totals_of(alloc: Global, kind: Kind, l: &Log) -> Result<Vec<usize>, AllocError>
    requires { IsSmall l.now }
    ensures length { IfOk result (λ v. length v.items ≡ units_of l.now) }
    ensures counts { IfOk result (λ v. (g : ℕ) → slice_index v.items g ≡ total kind l.now g) }
{
    let mut counts = vec![in alloc; 0; l.pages as usize]?;
    count_log(kind, l, counts.as_mut_slice());
    Ok(counts)
}

#[tactic(auto, unfolding(crate::specs::Totals::total_line))]
fn put_page(out: &mut String, page: usize, gains: usize, yields: usize) -> Result<(), AllocError>
    ensures { OnOk result (string_bytes out.new ≡ string_bytes out.old ++ total_line page gains yields) }
{
    if gains == 0 && yields == 0 {
        return Ok(());
    }
    writeln!(out, "page {page} gains {gains} yields {yields}")
}

fn put_pages(out: &mut String, l: &Log, gains: &[usize], yields: &[usize]) -> Result<(), AllocError>
    requires gains { (length gains.now ≡ units_of l.now)
        × ((g : ℕ) → slice_index gains.now g ≡ total TheKind.Gains l.now g) }
    requires yields { (length yields.now ≡ units_of l.now)
        × ((g : ℕ) → slice_index yields.now g ≡ total TheKind.Yields l.now g) }
    ensures { OnOk result (string_bytes out.new ≡ string_bytes out.old ++ totals l.now) }
{
    for page in 0..l.pages as usize {
        put_page(out, page, gains[page], yields[page])?;
    }
    Ok(())
}

fn put_totals(alloc: Global, out: &mut String, l: &Log) -> Result<(), AllocError>
    requires { IsSmall l.now }
    ensures { OnOk result (string_bytes out.new ≡ string_bytes out.old ++ totals l.now) }
{
    let gains = totals_of(alloc, Kind::Gains, l)?;
    let yields = totals_of(alloc, Kind::Yields, l)?;
    put_pages(out, l, gains.as_slice(), yields.as_slice())
}

/// How many Gains and Yields each page has that has any.
#[tactic(auto, using(log_order::proofs::Refusals::small))]
pub fn page_totals(alloc: Global, l: &Log) -> Result<Vec<u8>, NoMemory>
    requires { IsTrue (in_range l.now) }
    ensures { IfOk result (λ v. v.items ≡ totals l.now) }
{
    let mut out = String::new(alloc);
    match put_totals(alloc, &mut out, l) {
        Ok(()) => Ok(out.into_bytes()),
        Err(_) => Err(NoMemory),
    }
}
