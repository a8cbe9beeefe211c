//! Traces by the top call.

use crate::replay_tests::changed_poll;
use crate::tests::{
    Row, bytes_of, devices, input_row, limits, serve, smallest, smallest_log, surroundings_with,
    tell,
};
use outside::OpenGate;
use std::alloc::Global;
use std::sync::Wait;
use std::test::Fail;
use std::thread::Threads;

/// Whether the words over a guest and a log come to this status and text.
fn comes_to<T: Threads + Wait + Sync>(
    rt: &T,
    alloc: Global,
    line: &str,
    guest: &[u32],
    log: &[u8],
    sink_fails: &[u64],
    status: u8,
    text: &str,
) -> Result<bool, Fail> {
    let file = bytes_of(alloc, guest)?;
    let devices = surroundings_with(alloc, file.as_slice(), Some(log), &[], sink_fails)?;
    let told = tell(rt, alloc, line, devices, &OpenGate)?;
    Ok(told.status == status && told.report.written() == text.as_bytes())
}

fn smallest_trace() -> &'static str {
    "0 80000000 100000b7 lui x1, 0x10000 x1=10000000
1 80000004 00700113 addi x2, x0, 7 x2=00000007
2 80000008 0020a423 sw x2, 8(x1)
"
}

fn second_move() -> &'static str {
    "1 80000004 00700113 addi x2, x0, 7 x2=00000007\n"
}

/// Words, the status, and the text of a trace of the smallest log.
fn smallest_rows() -> [(&'static str, u8, &'static str); 6] {
    [
        ("trace g l 0 0 3", 0, smallest_trace()),
        ("trace g l 0 0 9", 0, smallest_trace()),
        ("trace g l 0 1 2", 0, second_move()),
        ("trace g l 0 1 1", 0, ""),
        ("trace g l 0 3 9", 0, ""),
        ("trace g l 7 0 3", 0, ""),
    ]
}

#[test]
fn the_moves_of_a_hart_are_told(rt: HostRuntime) -> Result<(), Fail> {
    let alloc = rt.alloc();
    for (line, status, text) in smallest_rows() {
        let log = smallest_log();
        assert!(rt; comes_to(&rt, alloc, line, smallest(), &log, &[], status, text)?);
    }
    Ok(())
}

#[test]
fn a_trace_that_is_not_told_is_refused(rt: HostRuntime) -> Result<(), Fail> {
    let alloc = rt.alloc();
    let line = "trace g l 0 0 3";
    let diverged = "diverged: hart 0 count 0 rule V5\n";
    assert!(rt;
        comes_to(
            &rt,
            alloc,
            line,
            smallest(),
            &changed_poll(),
            &[],
            8,
            diverged
        )?
    );
    assert!(rt; comes_to(&rt, alloc, line, smallest(), &smallest_log(), &[0], 11, "")?);
    // an empty text isn't printed
    let none = "trace g l 0 3 3";
    assert!(rt; comes_to(&rt, alloc, none, smallest(), &smallest_log(), &[0], 0, "")?);
    Ok(())
}

/// Whether the run that a row records is traced so.
fn is_traced<T: Threads + Wait + Sync>(
    rt: &T,
    alloc: Global,
    row: &Row,
    text: &str,
) -> Result<bool, Fail> {
    let file = bytes_of(alloc, row.guest)?;
    let ran = serve(rt, alloc, row, file.as_slice())?;
    let Some(log) = ran.shelf.held("l") else {
        return Ok(false);
    };
    comes_to(rt, alloc, "trace g l 0 0 9", row.guest, log, &[], 0, text)
}

fn traps_trace() -> &'static str {
    "0 80000000 00000000 trap 2
1 00000000 -------- trap 1
"
}

fn pages_trace() -> &'static str {
    "0 80000000 800010b7 lui x1, 0x80001 x1=80001000
1 80000004 1000a12f lr.w x2, (x1) x2=00000000
2 80000008 00408213 addi x4, x1, 4 x4=80001004
3 8000000c 181221af sc.w x3, x1, (x4) x3=00000001
4 80000010 1810a2af sc.w x5, x1, (x1) x5=00000001
"
}

fn timer_trace() -> &'static str {
    "0 80000000 08000093 addi x1, x0, 128 x1=00000080
1 80000004 30409073 csrrw x0, 0x304, x1
2 80000008 30046073 csrrsi x0, 0x300, 8
3 8000000c -------- interrupt 7
"
}

fn input_trace() -> &'static str {
    "0 80000000 100000b7 lui x1, 0x10000 x1=10000000
1 80000004 0000a103 lw x2, 0(x1) x2=ffffffff
2 80000008 0000a183 lw x3, 0(x1) x3=00000041
3 8000000c 0000a203 lw x4, 0(x1) x4=ffffffff
4 80000010 0000a423 sw x0, 8(x1)
"
}

#[test]
fn traps_devices_and_reservations_are_told(rt: HostRuntime) -> Result<(), Fail> {
    let alloc = rt.alloc();
    let [_, _, _, traps] = limits();
    assert!(rt; is_traced(&rt, alloc, &traps, traps_trace())?);
    let [pages, timer, _, _] = devices();
    assert!(rt; is_traced(&rt, alloc, &pages, pages_trace())?);
    assert!(rt; is_traced(&rt, alloc, &timer, timer_trace())?);
    assert!(rt; is_traced(&rt, alloc, &input_row(), input_trace())?);
    Ok(())
}
