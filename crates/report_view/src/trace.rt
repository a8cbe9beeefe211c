//! The lines of a trace.

ghost use Rattle.std.specs.Prelude.{◌≡◌, ◌+◌, ◌<◌, ◌^◌, ◌++◌, is_some, length, string_bytes, IfOk, IsTrue, OnOk};
ghost use Rattle.std.specs.List.{list_all};
ghost use Rattle.rv_decode.specs.Fits.{Fits};
ghost use Rattle.rv_asm.specs.Text.{text};
ghost use Rattle.report_view.specs.Trace.{instruction_of, is_told, fetched_text, trap_text, instruction_text, move_text, set_text, place_text, step_line, trace};

use crate::report::put_word;
use flat_machine::{Step, Steps};
use rv_asm::instr_text;
use rv_decode::{Instr, decode};
use shared_types::NoMemory;
use std::alloc::{AllocError, Global};
use std::fmt::Write;

fn is_instruction(word: Option<u32>) -> bool
    ensures { result ≡ is_some (instruction_of word) }
{
    match word {
        None => false,
        Some(word) => decode(word).is_some(),
    }
}

fn is_told(step: &Step) -> bool
    ensures { result ≡ is_told step.now }
{
    step.cause.is_some() || is_instruction(step.word)
}

/// Whether each move trapped, or has a word that is an instruction.
pub fn can_be_told(steps: &Steps) -> bool
    ensures { result ≡ list_all is_told steps.now }
{
    steps.items().iter().all(|step| is_told(step))
}

#[tactic(auto, unfolding(crate::specs::Trace::fetched_text))]
fn put_fetched(alloc: Global, out: &mut String, word: Option<u32>) -> Result<(), AllocError>
    ensures { OnOk result (string_bytes out.new ≡ string_bytes out.old ++ fetched_text word) }
{
    match word {
        None => out.push_str("--------"),
        Some(word) => put_word(alloc, out, word),
    }
}

#[tactic(auto, unfolding(crate::specs::Trace::trap_text))]
fn put_trap(out: &mut String, cause: u32) -> Result<(), AllocError>
    ensures { OnOk result (string_bytes out.new ≡ string_bytes out.old ++ trap_text cause) }
{
    if cause < 0x8000_0000 {
        write!(out, "trap {cause}")
    } else {
        let number = cause % 0x8000_0000;
        write!(out, "interrupt {number}")
    }
}

fn put_instr(alloc: Global, out: &mut String, i: Instr) -> Result<(), AllocError>
    requires { Fits i }
    ensures { OnOk result (string_bytes out.new ≡ string_bytes out.old ++ text i) }
{
    match instr_text(alloc, i) {
        Ok(text) => out.push_str(text.as_str()),
        Err(NoMemory) => Err(AllocError),
    }
}

#[tactic(auto, unfolding(crate::specs::Trace::instruction_text))]
fn put_instruction(alloc: Global, out: &mut String, word: Option<u32>) -> Result<(), AllocError>
    ensures { OnOk result (string_bytes out.new ≡ string_bytes out.old ++ instruction_text word) }
{
    let Some(word) = word else {
        return Ok(());
    };
    match decode(word) {
        None => Ok(()),
        Some(i) => put_instr(alloc, out, i),
    }
}

#[tactic(auto, unfolding(crate::specs::Trace::move_text))]
fn put_move(
    alloc: Global,
    out: &mut String,
    cause: Option<u32>,
    word: Option<u32>,
) -> Result<(), AllocError>
    ensures { OnOk result (string_bytes out.new ≡ string_bytes out.old ++ move_text cause word) }
{
    match cause {
        None => put_instruction(alloc, out, word),
        Some(cause) => put_trap(out, cause),
    }
}

#[tactic(auto, unfolding(crate::specs::Trace::set_text))]
fn put_set(alloc: Global, out: &mut String, wrote: Option<(u8, u32)>) -> Result<(), AllocError>
    ensures { OnOk result (string_bytes out.new ≡ string_bytes out.old ++ set_text wrote) }
{
    match wrote {
        None => Ok(()),
        Some((register, value)) => {
            write!(out, " x{register}=")?;
            put_word(alloc, out, value)
        }
    }
}

#[tactic(auto, unfolding(crate::specs::Trace::place_text))]
fn put_place(
    alloc: Global,
    out: &mut String,
    count: u64,
    pc: u32,
    word: Option<u32>,
) -> Result<(), AllocError>
    ensures { OnOk result (string_bytes out.new ≡ string_bytes out.old ++ place_text count pc word) }
{
    write!(out, "{count} ")?;
    put_word(alloc, out, pc)?;
    out.push_str(" ")?;
    put_fetched(alloc, out, word)?;
    out.push_str(" ")
}

#[tactic(auto, unfolding(crate::specs::Trace::step_line))]
fn put_step(alloc: Global, out: &mut String, count: u64, step: &Step) -> Result<(), AllocError>
    ensures { OnOk result (string_bytes out.new ≡ string_bytes out.old ++ step_line count step.now) }
{
    put_place(alloc, out, count, step.pc, step.word)?;
    put_move(alloc, out, step.cause, step.word)?;
    put_set(alloc, out, step.wrote)?;
    out.push_str("\n")
}

fn put_steps(alloc: Global, out: &mut String, from: u64, steps: &[Step]) -> Result<(), AllocError>
    requires { from + length steps.now < 2 ^ 64 }
    ensures { OnOk result (string_bytes out.new ≡ string_bytes out.old ++ trace from steps.now) }
{
    for (number, step) in steps.iter().enumerate() {
        put_step(alloc, out, from + number as u64, step)?;
    }
    Ok(())
}

/// The moves of a hart, a line each: the first is that behind `from` moves.
pub fn trace_text(alloc: Global, from: u64, steps: &Steps) -> Result<Vec<u8>, NoMemory>
    // Tested by `can_be_told`.
    requires words { IsTrue (list_all is_told steps.now) }
    requires counts { from + length steps.now < 2 ^ 64 }
    ensures { IfOk result (λ v. v.items ≡ trace from steps.now) }
{
    let mut out = String::new(alloc);
    match put_steps(alloc, &mut out, from, steps.items()) {
        Ok(()) => Ok(out.into_bytes()),
        Err(_) => Err(NoMemory),
    }
}
