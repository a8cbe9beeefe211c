//! The summary of a sample.

ghost use Rattle.std.specs.Prelude.{◌≡◌, ◌++◌, IsSome, IfOk, OnOk, string_bytes};
ghost use Rattle.rv_words.specs.declared.shared.Cause.TheVariants.{Stop};
ghost use Rattle.report_view.specs.Summary.{sample_line, spaced_count, spaced_counts, counts_line, log_line, digest_line, summary};

use crate::report::{put_cause, put_digest};
use flat_machine::Final;
use shared_types::NoMemory;
use std::alloc::{AllocError, Global};
use std::fmt::Write;

/// What a sample comes to: its number, what its recording ended with, the size of its log in bytes, and the reports of
/// the recording, of the replay on one thread and of the replay in rounds.
#[derive(Clone, Copy, Drop)]
pub struct Summary<'a> {
    pub number: u32,
    pub ended: &'a Final,
    pub log: usize,
    pub recorded: &'a [u8],
    pub one: &'a [u8],
    pub rounds: &'a [u8],
}

#[tactic(auto, unfolding(crate::specs::Summary::spaced_count))]
fn put_spaced_count(out: &mut String, count: u64) -> Result<(), AllocError>
    ensures { OnOk result (string_bytes out.new ≡ string_bytes out.old ++ spaced_count count) }
{
    write!(out, " {count}")
}

fn put_spaced_counts(out: &mut String, counts: &[u64]) -> Result<(), AllocError>
    ensures { OnOk result (string_bytes out.new ≡ string_bytes out.old ++ spaced_counts counts.now) }
{
    for count in counts {
        put_spaced_count(out, *count)?;
    }
    Ok(())
}

fn put_counts(out: &mut String, counts: &[u64]) -> Result<(), AllocError>
    ensures { OnOk result (string_bytes out.new ≡ string_bytes out.old ++ counts_line counts.now) }
{
    out.push_str("counts")?;
    put_spaced_counts(out, counts)?;
    out.push_str("\n")
}

fn put_sample(out: &mut String, number: u32) -> Result<(), AllocError>
    ensures { OnOk result (string_bytes out.new ≡ string_bytes out.old ++ sample_line number) }
{
    writeln!(out, "sample {number}")
}

fn put_log(out: &mut String, size: usize) -> Result<(), AllocError>
    ensures { OnOk result (string_bytes out.new ≡ string_bytes out.old ++ log_line size) }
{
    writeln!(out, "log {size}")
}

fn put_digest_line(
    alloc: Global,
    out: &mut String,
    name: &str,
    report: &[u8],
) -> Result<(), AllocError>
    ensures { OnOk result (string_bytes out.new ≡ string_bytes out.old ++ digest_line name.now report.now) }
{
    out.push_str(name)?;
    put_digest(alloc, out, report)?;
    out.push_str("\n")
}

fn put_summary(alloc: Global, out: &mut String, of: &Summary) -> Result<(), AllocError>
    requires { of.now.ended.now.cause ≡ Stop → IsSome of.now.ended.now.stop }
    ensures { OnOk result (string_bytes out.new ≡ string_bytes out.old
        ++ summary of.now.number of.now.ended.now of.now.log of.now.recorded.now of.now.one.now of.now.rounds.now) }
{
    put_sample(out, of.number)?;
    put_cause(out, of.ended.cause, of.ended.stop)?;
    put_counts(out, of.ended.counts.items())?;
    put_log(out, of.log)?;
    put_digest_line(alloc, out, "record ", of.recorded)?;
    put_digest_line(alloc, out, "one ", of.one)?;
    put_digest_line(alloc, out, "rounds ", of.rounds)
}

/// The summary of a sample.
pub fn summary_text(alloc: Global, of: &Summary) -> Result<Vec<u8>, NoMemory>
    // A run that was stopped tells by which word.
    requires { of.now.ended.now.cause ≡ Stop → IsSome of.now.ended.now.stop }
    ensures { IfOk result (λ v. v.items
        ≡ summary of.now.number of.now.ended.now of.now.log of.now.recorded.now of.now.one.now of.now.rounds.now) }
{
    let mut out = String::new(alloc);
    match put_summary(alloc, &mut out, of) {
        Ok(()) => Ok(out.into_bytes()),
        Err(_) => Err(NoMemory),
    }
}
