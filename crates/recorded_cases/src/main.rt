//! Records the cases that standard input has, over a console and a clock in memory, and tells which of them come to
//! another log or text than they say (bench/README.md has the form of a case).
#![tactic(auto)]

ghost use Rattle.std.specs.Prelude.{◌≡◌, ◌↔◌, IsTrue, string_bytes};

mod case;
mod telling;

use anyhow::Result;
use case::Case;
use std::alloc::Global;
use std::io;
use std::rt::Runtime;
use std::thread::Threads;
use telling::{Told, tell};

/// How many cases came to what they say, and how many didn't.
#[derive(Drop)]
struct Tally {
    agree: u64,
    differ: u64,
}

/// Whether the log is the one that is wanted.
fn has_log(came: &Told, case: &Case) -> bool
    ensures { IsTrue result ↔ (came.now.log.items ≡ case.now.log.items) }
{
    came.log.as_slice() == case.log.as_slice()
}

/// Whether the text is the one that is wanted.
fn has_text(came: &Told, case: &Case) -> bool
    ensures { IsTrue result ↔ (string_bytes came.now.text ≡ string_bytes case.now.text) }
{
    came.text.as_str() == case.text.as_str()
}

/// Runs a case, and prints a line where it differs.
fn judge<R: Runtime<A = Global> + Threads + Sync>(
    rt: &R,
    case: &Case,
    tally: &mut Tally,
) -> Result<()> {
    let came = tell(rt, rt.alloc(), case)?;
    let name = case.name.as_str();
    if !has_log(&came, case) {
        tally.differ = tally.differ.saturating_add(1);
        println!(rt; "case {name}: another log")?;
    } else if !has_text(&came, case) {
        tally.differ = tally.differ.saturating_add(1);
        println!(rt; "case {name}: another text")?;
    } else {
        tally.agree = tally.agree.saturating_add(1);
    }
    Ok(())
}

fn run<R: Runtime<A = Global> + Threads + Sync>(rt: &R, text: &str) -> Result<()> {
    let alloc = rt.alloc();
    let mut tally = Tally {
        agree: 0,
        differ: 0,
    };
    let mut case: Option<Case> = None;
    for line in text.lines() {
        if let Some(name) = line.strip_prefix("case ") {
            if let Some(done) = &case {
                judge(rt, done, &mut tally)?;
            }
            case = Some(Case::named(alloc, name)?);
        } else if let Some(case) = &mut case {
            case.read_line(alloc, line)?;
        }
    }
    if let Some(done) = &case {
        judge(rt, done, &mut tally)?;
    }
    let Tally { agree, differ } = tally;
    println!(rt; "{agree} agree, {differ} differ")?;
    Ok(())
}

fn main(rt: HostRuntime) -> Result<()> {
    let text = io::read_to_string(rt.alloc(), rt.reader())?;
    run(&rt, text.as_str())
}
