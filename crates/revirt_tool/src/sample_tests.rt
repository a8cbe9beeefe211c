//! Samples by the top call.

use crate::tests::{Told, surroundings_with, tell};
use crate::way_tests::CountGate;
use outside::{Asked, Gate, MemConsole, OpenGate};
use std::alloc::Global;
use std::sync::Wait;
use std::test::Fail;
use std::thread::Threads;

/// A sample over a shelf and a console that fail at their first calls.
fn sample<T: Threads + Wait + Sync, G: Gate>(
    rt: &T,
    alloc: Global,
    sink_fails: &[u64],
    gate: &G,
) -> Result<Told, Fail> {
    let mut devices = surroundings_with(alloc, &[], None, &[0, 1, 2, 3], sink_fails)?;
    devices.console = MemConsole::start(alloc, &[], Asked::End, 100, &[0, 1, 2, 3])?;
    tell(rt, alloc, "sample 7", devices, gate)
}

/// Whether each line begins as the sample's lines do, in their order, and there are no others.
fn begin_so(text: &str) -> bool {
    let mut wanted = [
        "sample 7",
        "cause stop ",
        "counts ",
        "log ",
        "record ",
        "one ",
        "rounds ",
    ]
    .iter();
    for line in text.lines() {
        match wanted.next() {
            Some(start) if line.starts_with(*start) => {}
            _ => return false,
        }
    }
    wanted.next().is_none()
}

/// What stands behind the name of a line.
fn value<'a>(text: &'a str, name: &str) -> Option<&'a str> {
    text.lines().find_map(|line| line.strip_prefix(name))
}

#[test]
fn a_sample_is_recorded_and_replayed_alike(rt: HostRuntime) -> Result<(), Fail> {
    let gate = CountGate::start();
    let told = sample(&rt, rt.alloc(), &[], &gate)?;
    assert_eq!(rt; told.status, 0);
    // The recording, and one of the replays.
    assert_eq!(rt; gate.passes(), 22);
    let Ok(text) = std::str::from_utf8(told.report.written()) else {
        panic!(rt; "a text");
    };
    assert!(rt; begin_so(text));
    assert!(rt; value(text, "record ").is_some());
    assert_eq!(rt; value(text, "one "), value(text, "record "));
    assert_eq!(rt; value(text, "rounds "), value(text, "record "));
    Ok(())
}

#[test]
fn a_sample_shows_the_same_at_each_run(rt: HostRuntime) -> Result<(), Fail> {
    let alloc = rt.alloc();
    let first = sample(&rt, alloc, &[], &OpenGate)?;
    let second = sample(&rt, alloc, &[], &OpenGate)?;
    assert!(rt; first.report.written() == second.report.written());
    Ok(())
}

#[test]
fn a_sample_that_cannot_be_printed_is_told(rt: HostRuntime) -> Result<(), Fail> {
    let told = sample(&rt, rt.alloc(), &[0], &OpenGate)?;
    assert_eq!(rt; told.status, 11);
    Ok(())
}
