//! The report of what a run ended with.

ghost use Rattle.std.specs.Prelude.{◌≡◌, ◌≤◌, ◌+◌, ◌++◌, length, IsSome, IfOk, OnOk, string_bytes};
ghost use Rattle.std.specs.List.{range_with_len};
ghost use Rattle.hex.specs.Hex.{encode_lower};
ghost use Rattle.rv_words.specs.declared.shared.Cause.TheVariants.{Stop};
ghost use Rattle.report_view.specs.Report.{word, spaced, digest, cause_line, hart_line, spaced_registers, register_line, register_lines, csr_line, csr, spaced_csrs, counter_line, hart_lines, lines_of_harts, time_line, console_line, memory_line, report};

use flat_machine::Final;
use rv_hart::Hart;
use rv_words::Cause;
use sha2::{Digest, Sha256};
use shared_types::NoMemory;
use std::alloc::{AllocError, Global};
use std::fmt::Write;

/// The CSRs of a report's line: mstatus, mie, mtvec, mscratch, mepc, mcause, mtval and mip.
const CSRS: [u16; 8] = [0x300, 0x304, 0x305, 0x340, 0x341, 0x342, 0x343, 0x344];

fn put_hex(alloc: Global, out: &mut String, bytes: &[u8]) -> Result<(), AllocError>
    ensures { OnOk result (string_bytes out.new ≡ string_bytes out.old ++ encode_lower bytes.now) }
{
    let digits = hex::encode(alloc, bytes)?;
    out.push_str(digits.as_str())
}

#[tactic(auto, unfolding(crate::specs::Report::word))]
pub(crate) fn put_word(alloc: Global, out: &mut String, n: u32) -> Result<(), AllocError>
    ensures { OnOk result (string_bytes out.new ≡ string_bytes out.old ++ word n) }
{
    put_hex(alloc, out, &n.to_be_bytes())
}

#[tactic(auto, unfolding(crate::specs::Report::spaced))]
fn put_spaced(alloc: Global, out: &mut String, n: u32) -> Result<(), AllocError>
    ensures { OnOk result (string_bytes out.new ≡ string_bytes out.old ++ spaced n) }
{
    out.push_str(" ")?;
    put_word(alloc, out, n)
}

#[tactic(auto, unfolding(crate::specs::Report::digest))]
pub(crate) fn put_digest(alloc: Global, out: &mut String, bytes: &[u8]) -> Result<(), AllocError>
    ensures { OnOk result (string_bytes out.new ≡ string_bytes out.old ++ digest bytes.now) }
{
    let digest = Sha256::digest(bytes);
    put_hex(alloc, out, &digest)
}

#[tactic(auto, unfolding(crate::specs::Report::cause_line))]
pub(crate) fn put_cause(out: &mut String, cause: Cause, stop: Option<u32>) -> Result<(), AllocError>
    requires { cause ≡ Stop → IsSome stop }
    ensures { OnOk result (string_bytes out.new ≡ string_bytes out.old ++ cause_line cause stop) }
{
    match cause {
        Cause::Stop => {
            let code = stop.unwrap_or(0);
            writeln!(out, "cause stop {code}")
        }
        Cause::Limit => out.push_str("cause limit\n"),
        Cause::Full => out.push_str("cause full\n"),
        Cause::Fault => out.push_str("cause fault\n"),
        Cause::Cut => out.push_str("cause cut\n"),
    }
}

#[tactic(auto, unfolding(crate::specs::Report::hart_line))]
fn put_hart_line(
    alloc: Global,
    out: &mut String,
    number: usize,
    count: u64,
    hart: &Hart,
) -> Result<(), AllocError>
    ensures { OnOk result (string_bytes out.new ≡ string_bytes out.old ++ hart_line number count hart.now) }
{
    write!(out, "hart {number} count {count} pc ")?;
    put_word(alloc, out, hart.pc())?;
    out.push_str("\n")
}

#[tactic(auto, unfolding(crate::specs::Report::spaced_registers))]
fn put_spaced_registers(
    alloc: Global,
    out: &mut String,
    hart: &Hart,
    first: u8,
    many: u8,
) -> Result<(), AllocError>
    requires { first + many ≤ 32 }
    ensures { OnOk result
        (string_bytes out.new ≡ string_bytes out.old ++ spaced_registers hart.now (range_with_len first many)) }
{
    for n in first..first + many {
        put_spaced(alloc, out, hart.reg(n))?;
    }
    Ok(())
}

#[tactic(auto, unfolding(crate::specs::Report::register_line))]
fn put_registers(alloc: Global, out: &mut String, hart: &Hart, first: u8) -> Result<(), AllocError>
    requires { first + 8 ≤ 32 }
    ensures { OnOk result (string_bytes out.new ≡ string_bytes out.old ++ register_line hart.now first) }
{
    write!(out, "x{first}")?;
    put_spaced_registers(alloc, out, hart, first, 8)?;
    out.push_str("\n")
}

fn put_all_registers(alloc: Global, out: &mut String, hart: &Hart) -> Result<(), AllocError>
    ensures { OnOk result (string_bytes out.new ≡ string_bytes out.old ++ register_lines hart.now) }
{
    put_registers(alloc, out, hart, 0)?;
    put_registers(alloc, out, hart, 8)?;
    put_registers(alloc, out, hart, 16)?;
    put_registers(alloc, out, hart, 24)
}

// What a register of the hart reads.
#[tactic(auto, unfolding(crate::specs::Report::csr))]
fn csr(hart: &Hart, number: u16) -> u32
    ensures { result ≡ csr hart.now number }
{
    hart.csr(number).unwrap_or(0)
}

fn put_spaced_csrs(
    alloc: Global,
    out: &mut String,
    hart: &Hart,
    numbers: &[u16],
) -> Result<(), AllocError>
    ensures { OnOk result (string_bytes out.new ≡ string_bytes out.old ++ spaced_csrs hart.now numbers.now) }
{
    for number in numbers {
        put_spaced(alloc, out, csr(hart, *number))?;
    }
    Ok(())
}

#[tactic(auto, unfolding(crate::specs::Report::csr_line))]
fn put_csrs(alloc: Global, out: &mut String, hart: &Hart) -> Result<(), AllocError>
    ensures { OnOk result (string_bytes out.new ≡ string_bytes out.old ++ csr_line hart.now) }
{
    out.push_str("csr")?;
    put_spaced_csrs(alloc, out, hart, &CSRS)?;
    out.push_str("\n")
}

#[tactic(auto, unfolding(crate::specs::Report::counter_line))]
fn put_counters(alloc: Global, out: &mut String, hart: &Hart) -> Result<(), AllocError>
    ensures { OnOk result (string_bytes out.new ≡ string_bytes out.old ++ counter_line hart.now) }
{
    out.push_str("counters ")?;
    put_word(alloc, out, csr(hart, 0xb80))?;
    put_word(alloc, out, csr(hart, 0xb00))?;
    out.push_str(" ")?;
    put_word(alloc, out, csr(hart, 0xb82))?;
    put_word(alloc, out, csr(hart, 0xb02))?;
    out.push_str("\n")
}

#[tactic(auto, unfolding(crate::specs::Report::hart_lines))]
fn put_hart(
    alloc: Global,
    out: &mut String,
    number: usize,
    count: u64,
    hart: &Hart,
) -> Result<(), AllocError>
    ensures { OnOk result (string_bytes out.new ≡ string_bytes out.old ++ hart_lines number count hart.now) }
{
    put_hart_line(alloc, out, number, count, hart)?;
    put_all_registers(alloc, out, hart)?;
    put_csrs(alloc, out, hart)?;
    put_counters(alloc, out, hart)
}

fn put_harts(
    alloc: Global,
    out: &mut String,
    harts: &[Hart],
    counts: &[u64],
) -> Result<(), AllocError>
    requires { length harts.now ≡ length counts.now }
    ensures { OnOk result (string_bytes out.new ≡ string_bytes out.old ++ lines_of_harts harts.now counts.now) }
{
    for (number, (hart, count)) in harts.iter().zip(counts).enumerate() {
        put_hart(alloc, out, number, *count, hart)?;
    }
    Ok(())
}

fn put_console(alloc: Global, out: &mut String, sent: &[u8]) -> Result<(), AllocError>
    ensures { OnOk result (string_bytes out.new ≡ string_bytes out.old ++ console_line sent.now) }
{
    let number = sent.len();
    write!(out, "console {number} ")?;
    put_digest(alloc, out, sent)?;
    out.push_str("\n")
}

fn put_memory(alloc: Global, out: &mut String, memory: &[u8]) -> Result<(), AllocError>
    ensures { OnOk result (string_bytes out.new ≡ string_bytes out.old ++ memory_line memory.now) }
{
    out.push_str("memory ")?;
    put_digest(alloc, out, memory)?;
    out.push_str("\n")
}

fn put_time(out: &mut String, time: u64) -> Result<(), AllocError>
    ensures { OnOk result (string_bytes out.new ≡ string_bytes out.old ++ time_line time) }
{
    writeln!(out, "time {time}")
}

fn put_report(alloc: Global, out: &mut String, f: &Final) -> Result<(), AllocError>
    requires counts { length f.now.harts ≡ length f.now.counts }
    requires stop { f.now.cause ≡ Stop → IsSome f.now.stop }
    ensures { OnOk result (string_bytes out.new ≡ string_bytes out.old ++ report f.now) }
{
    put_cause(out, f.cause, f.stop)?;
    put_harts(alloc, out, f.harts.items(), f.counts.items())?;
    put_time(out, f.time)?;
    put_console(alloc, out, f.sent.items())?;
    put_memory(alloc, out, f.memory.items())
}

/// The report of what a run ended with.
pub fn report_text(alloc: Global, f: &Final) -> Result<Vec<u8>, NoMemory>
    // There is one count per hart.
    requires counts { length f.now.harts ≡ length f.now.counts }
    // A run that was stopped tells by which word.
    requires stop { f.now.cause ≡ Stop → IsSome f.now.stop }
    ensures { IfOk result (λ v. v.items ≡ report f.now) }
{
    let mut out = String::new(alloc);
    match put_report(alloc, &mut out, f) {
        Ok(()) => Ok(out.into_bytes()),
        Err(_) => Err(NoMemory),
    }
}
