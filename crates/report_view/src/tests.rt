//! Reports of ends and traces of steps made by hand, whole.

ghost use Rattle.std.specs.Prelude.{◌≡◌, ◌<◌, ◌^◌, length, vec_len, IsSome, IfOk};

use crate::{Summary, can_be_told, report_text, summary_text, trace_text};
use flat_machine::{Bytes, Counts, Final, Harts, Memory, Step, Steps};
use rv_hart::Hart;
use rv_words::Cause;
use std::alloc::Global;
use std::test::Fail;

// lui x1, 0x10000; addi x2, x0, 7; sw x2, 8(x1), which stores to STOP.
const STOPPING: [u32; 3] = [0x1000_00b7, 0x0070_0113, 0x0020_a423];

fn stopping() -> [u32; 3] {
    STOPPING
}

// The prover sees no texts: functions without clauses give them.

// The digests are those of sha256sum.
const STOPPED: &str = "cause stop 7
hart 0 count 3 pc 8000000c
x0 00000000 10000000 00000007 00000000 00000000 00000000 00000000 00000000
x8 00000000 00000000 00000000 00000000 00000000 00000000 00000000 00000000
x16 00000000 00000000 00000000 00000000 00000000 00000000 00000000 00000000
x24 00000000 00000000 00000000 00000000 00000000 00000000 00000000 00000000
csr 00001800 00000000 00000000 00000000 00000000 00000000 00000000 00000000
counters 0000000000000003 0000000000000003
time 5
console 0 e3b0c44298fc1c149afbf4c8996fb92427ae41e4649b934ca495991b7852b855
memory 6ca3a82c26311c7eb9f88a0d9f99ed3faf6f8270f5d354205603240cb02f7c16
";

fn stopped() -> &'static str {
    STOPPED
}

// One page: these words, then zeros.
fn memory_of(alloc: Global, words: &[u32]) -> Result<Memory, Fail> {
    let mut bytes = Vec::new(alloc);
    for word in words {
        bytes.extend_from_slice(&word.to_le_bytes())?;
    }
    bytes.resize(4096, 0)?;
    Ok(Memory::of(bytes))
}

#[test]
fn the_report_of_a_hart_that_stops(rt: HostRuntime) -> Result<(), Fail> {
    let alloc = rt.alloc();
    let mut hart = Hart::start(0, 1, 1, 0x8000_0000);
    for word in stopping() {
        let _ = hart.finish(word, 0);
    }
    let end = Final {
        cause: Cause::Stop,
        stop: Some(7),
        harts: Harts::of(vec![in alloc; hart]?),
        counts: Counts::of(vec![in alloc; 3u64]?),
        memory: memory_of(alloc, &stopping())?,
        sent: Bytes::of(Vec::new(alloc)),
        time: 5,
    };
    assert_eq!(rt;
        report_text(alloc, &end).expect(&rt, "memory").as_slice(),
        stopped().as_bytes()
    );
    Ok(())
}

const TRAPPED: &str = "cause cut
hart 0 count 0 pc 80000ffc
x0 00000000 00000000 00000000 00000000 00000000 00000000 00000000 00000000
x8 00000000 00000000 00000000 00000000 00000000 00000000 00000000 00000000
x16 00000000 00000000 00000000 00000000 00000000 00000000 00000000 00000000
x24 00000000 00000000 00000000 00000000 00000000 00000000 00000000 00000000
csr 00001800 00000000 00000000 00000000 00000000 00000000 00000000 00000088
counters 0000000000000000 0000000000000000
hart 1 count 2 pc 00000000
x0 00000000 00000000 00000000 00000000 00000000 00000000 00000000 00000000
x8 00000000 00000000 00000000 00000000 00000000 00000000 00000000 00000000
x16 00000000 00000000 00000000 00000000 00000000 00000000 00000000 00000000
x24 00000000 00000000 00000000 00000000 00000000 00000000 00000000 00000000
csr 00001800 00000000 00000000 00000000 00000000 00000001 00000000 00000000
counters 0000000000000002 0000000000000000
time 18446744073709551615
console 2 58bb119c35513a451d24dc20ef0e9031ec85b35bfc919d263e7e5d9868909cb5
memory ad7facb2586fc6e966c004d7d1d16b024f5805ff7cb47c7a85dabd8b48892ca7
";

fn trapped() -> &'static str {
    TRAPPED
}

// Hart 0 has both lines up. Hart 1 traps at a word that is no instruction, and then, with mtvec 0, at its fetch.
#[test]
fn the_report_of_two_harts(rt: HostRuntime) -> Result<(), Fail> {
    let alloc = rt.alloc();
    let mut first = Hart::start(0, 2, 1, 0x8000_0ffc);
    first.set_lines(3);
    let mut second = Hart::start(1, 2, 1, 0x8000_0000);
    let _ = second.finish(0, 0);
    second.enter();
    let end = Final {
        cause: Cause::Cut,
        stop: None,
        harts: Harts::of(vec![in alloc; first, second]?),
        counts: Counts::of(vec![in alloc; 0u64, 2]?),
        memory: memory_of(alloc, &[])?,
        sent: Bytes::of(vec![in alloc; 0x41u8, 0x41]?),
        time: u64::MAX,
    };
    assert_eq!(rt;
        report_text(alloc, &end).expect(&rt, "memory").as_slice(),
        trapped().as_bytes()
    );
    Ok(())
}

// An end with neither harts nor memory.
fn empty_end(alloc: Global, cause: Cause) -> Final
    ensures harts { length result.harts ≡ length result.counts }
    ensures stop { IsSome result.stop }
{
    Final {
        cause,
        stop: Some(u32::MAX),
        harts: Harts::of(Vec::new(alloc)),
        counts: Counts::of(Vec::new(alloc)),
        memory: Memory::of(Vec::new(alloc)),
        sent: Bytes::of(Vec::new(alloc)),
        time: 0,
    }
}

const CAUSES: [(Cause, &'static str); 5] = [
    (Cause::Stop, "cause stop 4294967295\ntime 0\n"),
    (Cause::Limit, "cause limit\ntime 0\n"),
    (Cause::Full, "cause full\ntime 0\n"),
    (Cause::Fault, "cause fault\ntime 0\n"),
    (Cause::Cut, "cause cut\ntime 0\n"),
];

fn causes() -> [(Cause, &'static str); 5] {
    CAUSES
}

// Whether the report of an end by this cause begins so.
fn begins_with(alloc: Global, cause: Cause, lines: &str) -> bool {
    match report_text(alloc, &empty_end(alloc, cause)) {
        Ok(text) => text.starts_with(lines.as_bytes()),
        Err(_) => false,
    }
}

#[test]
fn each_cause_has_its_line(rt: HostRuntime) {
    for (cause, lines) in causes() {
        assert!(rt; begins_with(rt.alloc(), cause, lines), "{cause:?}");
    }
}

fn step(pc: u32, word: Option<u32>, cause: Option<u32>, wrote: Option<(u8, u32)>) -> Step {
    Step {
        pc,
        word,
        cause,
        wrote,
        after: Hart::start(0, 1, 1, 0x8000_0000),
    }
}

fn text_of(alloc: Global, from: u32, steps: Vec<Step>) -> Option<Vec<u8>>
    requires { vec_len steps < 2 ^ 32 }
{
    let steps = Steps::of(steps);
    if !can_be_told(&steps) {
        return None;
    }
    trace_text(alloc, u64::from(from), &steps).ok()
}

// Whether the trace of nine steps at most is this text.
fn is_traced(alloc: Global, from: u32, steps: Vec<Step>, text: &str) -> bool {
    if steps.len() > 9 {
        return false;
    }
    match text_of(alloc, from, steps) {
        Some(told) => told.as_slice() == text.as_bytes(),
        None => false,
    }
}

const STOP_TRACE: &str = "0 80000000 100000b7 lui x1, 0x10000 x1=10000000
1 80000004 00700113 addi x2, x0, 7 x2=00000007
2 80000008 0020a423 sw x2, 8(x1)
";

fn stop_trace() -> &'static str {
    STOP_TRACE
}

fn stop_trace_steps(alloc: Global) -> Result<Vec<Step>, Fail> {
    Ok(vec![in alloc;
        step(0x8000_0000, Some(STOPPING[0]), None, Some((1, 0x1000_0000))),
        step(0x8000_0004, Some(STOPPING[1]), None, Some((2, 7))),
        step(0x8000_0008, Some(STOPPING[2]), None, None),
    ]?)
}

#[test]
fn the_trace_of_a_hart_that_stops(rt: HostRuntime) -> Result<(), Fail> {
    let steps = stop_trace_steps(rt.alloc())?;
    assert!(rt; is_traced(rt.alloc(), 0, steps, stop_trace()));
    Ok(())
}

const TRAP_TRACE: &str = "4095 80000000 00000000 trap 2
4096 00000000 -------- trap 1
4097 80000010 -------- interrupt 7
4098 80000010 -------- interrupt 3
4099 80000010 00000073 trap 11
";

fn trap_trace() -> &'static str {
    TRAP_TRACE
}

// A word that is no instruction, a fetch outside memory, the timer's and the software's interrupt, and an ECALL.
fn trap_trace_steps(alloc: Global) -> Result<Vec<Step>, Fail> {
    Ok(vec![in alloc;
        step(0x8000_0000, Some(0), Some(2), None),
        step(0, None, Some(1), None),
        step(0x8000_0010, None, Some(0x8000_0007), None),
        step(0x8000_0010, None, Some(0x8000_0003), None),
        step(0x8000_0010, Some(0x0000_0073), Some(11), None),
    ]?)
}

#[test]
fn the_trace_of_traps_and_interrupts(rt: HostRuntime) -> Result<(), Fail> {
    let steps = trap_trace_steps(rt.alloc())?;
    assert!(rt; is_traced(rt.alloc(), 4095, steps, trap_trace()));
    Ok(())
}

const REGISTER_TRACE: &str = "7 80000014 0054a52f amoadd.w x10, x5, (x9) x10=00000041
8 80000018 1820a1af sc.w x3, x2, (x1) x3=00000001
9 8000001c 305110f3 csrrw x1, 0x305, x2 x1=00000000
10 80000020 0000a103 lw x2, 0(x1) x2=ffffffff
";

fn register_trace() -> &'static str {
    REGISTER_TRACE
}

// An AMO, a failed SC, a write to a CSR, and a load of the console that found no byte.
fn register_trace_steps(alloc: Global) -> Result<Vec<Step>, Fail> {
    Ok(vec![in alloc;
        step(0x8000_0014, Some(0x0054_a52f), None, Some((10, 0x41))),
        step(0x8000_0018, Some(0x1820_a1af), None, Some((3, 1))),
        step(0x8000_001c, Some(0x3051_10f3), None, Some((1, 0))),
        step(0x8000_0020, Some(0x0000_a103), None, Some((2, 0xffff_ffff))),
    ]?)
}

#[test]
fn the_trace_of_registers_set(rt: HostRuntime) -> Result<(), Fail> {
    let steps = register_trace_steps(rt.alloc())?;
    assert!(rt; is_traced(rt.alloc(), 7, steps, register_trace()));
    Ok(())
}

#[test]
fn a_move_without_instruction_or_trap_is_not_told(rt: HostRuntime) -> Result<(), Fail> {
    let alloc = rt.alloc();
    let steps = vec![in alloc; step(0x8000_0000, Some(0), None, None)]?;
    assert!(rt; text_of(alloc, 0, steps).is_none());
    Ok(())
}

// The digests are those of sha256sum, of no bytes, of "a" and of "b".
const SUMMARY: &str = "sample 7
cause stop 5
counts 1 2 3 4
log 123
record e3b0c44298fc1c149afbf4c8996fb92427ae41e4649b934ca495991b7852b855
one ca978112ca1bbdcafac231b39a23dc4da786eff8147c4e72b9807785afee48bb
rounds 3e23e8160039594a33894f6564e1b1348bbd7a0088d42c4acb73eeaed59c009d
";

fn summed_up() -> &'static str {
    SUMMARY
}

#[test]
fn the_summary_of_a_sample(rt: HostRuntime) -> Result<(), Fail> {
    let alloc = rt.alloc();
    let ended = Final {
        cause: Cause::Stop,
        stop: Some(5),
        harts: Harts::of(Vec::new(alloc)),
        counts: Counts::of(vec![in alloc; 1u64, 2, 3, 4]?),
        memory: Memory::of(Vec::new(alloc)),
        sent: Bytes::of(Vec::new(alloc)),
        time: 0,
    };
    let of = Summary {
        number: 7,
        ended: &ended,
        log: 123,
        recorded: b"",
        one: b"a",
        rounds: b"b",
    };
    assert_eq!(rt;
        summary_text(alloc, &of).expect(&rt, "memory").as_slice(),
        summed_up().as_bytes()
    );
    Ok(())
}
