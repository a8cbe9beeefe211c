//! Records runs of a RISC-V board, and replays them, and tells what their logs say (docs/command-line.md).
#![tactic(auto)]

mod command;
#[cfg(test)]
mod crew_tests;
mod ending;
mod fetching;
mod inspecting;
#[cfg(test)]
mod listing_tests;
mod recording;
#[cfg(test)]
mod replay_tests;
mod replaying;
#[cfg(test)]
mod sample_tests;
mod sampling;
#[cfg(test)]
mod tests;
mod top;
#[cfg(test)]
mod trace_tests;
mod tracing;
#[cfg(test)]
mod way_tests;

use outside::{FileShelf, OpenGate, RealClock, Sink, StdConsole, StdSink};
use std::env;
use std::io::ErrorKind;
use std::process::ExitCode;
pub use top::{
    Finish, listings_are_done, recordings_are_done, recordings_are_one, replays_are_done, revirt,
    revirt_still, samples_are_done, traces_are_done,
};

/// Prints a line before there are objects for the top call, and gives its status.
fn refuse(rt: HostRuntime, line: &[u8], status: u8) -> ExitCode {
    let mut report = StdSink::new(rt.stdout());
    let _ = report.put(line);
    ExitCode::from(status)
}

fn main(rt: HostRuntime) -> ExitCode {
    let alloc = rt.alloc();
    let mut words = Vec::new(alloc);
    let args = match env::args(&rt) {
        Ok(args) => args,
        Err(error) if error.kind() == ErrorKind::OutOfMemory => {
            return refuse(rt, b"no memory\n", 3);
        }
        Err(_) => return refuse(rt, b"usage: word 0\n", 1),
    };
    for word in args.skip(1) {
        if words.push(word).is_err() {
            return refuse(rt, b"no memory\n", 3);
        }
    }
    let mut shelf = FileShelf::new(rt);
    let mut report = StdSink::new(rt.stdout());
    let console = StdConsole::new(rt.stdin(), rt.stdout());
    let clock = RealClock::new(rt);
    let Finish {
        status,
        console: _,
        clock: _,
    } = revirt(
        &rt,
        alloc,
        &words,
        &mut shelf,
        console,
        clock,
        &OpenGate,
        &mut report,
    );
    ExitCode::from(status)
}
