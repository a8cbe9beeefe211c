//! Makes a log of so many rounds, writes it, reads it again, puts it in order and takes its least
//! order. The number of rounds is the word on the command line; a round has four entries. The tests of the crates of
//! logs and of the directory stand here, so that each of these is proved once.
#![tactic(auto)]

mod making;

ghost use Rattle.std.specs.Prelude.{◌≡◌, IfOk};
ghost use Rattle.log_format.specs.Grammar.{spelling};

use anyhow::{Context, Result, anyhow, ensure};
use log_entry::Log;
use log_format::{in_range, read_log, write_log};
use log_order::{least_order, put_in_order};
use making::long_log;
use std::alloc::Global;
use std::env;
use std::rt::Runtime;

/// The bytes of a log.
fn spell(alloc: Global, log: &Log) -> Result<Vec<u8>>
    ensures { IfOk result (λ bytes. bytes.items ≡ spelling log.now) }
{
    ensure!(in_range(log), "the log is not in range");
    write_log(alloc, log).map_err(|_| anyhow!("memory ran out"))
}

/// The number of bytes of a log, and how many entries its least order has.
fn measure(alloc: Global, log: Log) -> Result<(usize, usize)> {
    let bytes = spell(alloc, &log)?;
    let orderly = put_in_order(alloc, read_log(alloc, &bytes)?)?;
    let legs = least_order(alloc, &orderly).map_err(|_| anyhow!("memory ran out"))?;
    Ok((bytes.len(), legs.len()))
}

fn run(rt: &impl Runtime<A = Global>) -> Result<()> {
    let word = env::args(rt)?.nth(1).context("give a number of rounds")?;
    let rounds = word.parse::<u32>().context("give a number of rounds")?;
    let log = long_log(rt.alloc(), rounds)?;
    let (bytes, legs) = measure(rt.alloc(), log)?;
    println!(rt; "{bytes} bytes, {legs} entries in order")?;
    Ok(())
}

fn main(rt: HostRuntime) -> Result<()> {
    run(&rt)
}

#[cfg(test)]
mod bytes_tests;
#[cfg(test)]
mod directory_tests;
#[cfg(test)]
mod entry_tests;
#[cfg(test)]
mod order_tests;
#[cfg(test)]
mod pieces_tests;
