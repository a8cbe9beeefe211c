//! Runs of the top call over devices in memory, and what the tests of the other files share with them.

ghost use Rattle.std.specs.Prelude.{◌≡◌, ◌∷◌, [], None, IfOk, codes};
ghost use Rattle.command_words.specs.Texts.{texts};

use crate::{Finish, revirt};
use log_entry::{Entry, Log};
use log_format::read_log;
use outside::{
    Asked, Gate, MemClock, MemConsole, MemShelf, MemSink, OpenGate, SureConsole, SureShelf,
    SureSink,
};
use rv_words::{Input, Mode};
use std::alloc::Global;
use std::sync::Wait;
use std::test::Fail;
use std::thread::Threads;

/// A command line over the guest `g`, a console with these answers and then End, and a clock that answers
/// the same each time, with the numbers of the calls that fail; and what it comes to: its status, lines that
/// its text has, the length of the log `l`, and the entries of the log.
#[derive(Drop)]
pub(crate) struct Row {
    line: &'static str,
    pub guest: &'static [u32],
    answers: &'static [Asked],
    time: u64,
    shelf_fails: &'static [u64],
    pub console_fails: &'static [u64],
    sink_fails: &'static [u64],
    pub status: u8,
    pub lines: &'static str,
    pub length: usize,
    pub entries: &'static str,
}

pub(crate) fn plain_row(
    line: &'static str,
    guest: &'static [u32],
    status: u8,
    lines: &'static str,
) -> Row {
    Row {
        line,
        guest,
        answers: &[],
        time: 5,
        shelf_fails: &[],
        console_fails: &[],
        sink_fails: &[],
        status,
        lines,
        length: 0,
        entries: "",
    }
}

/// LUI x1; ADDI x2 = 7; SW to STOP.
pub(crate) fn smallest() -> &'static [u32] {
    &[0x1000_00b7, 0x0070_0113, 0x0020_a423]
}

/// JAL to itself.
pub(crate) fn round() -> &'static [u32] {
    &[0x0000_006f]
}

/// LUI x1; ADDI x2 = 0x41; three stores to TX.
pub(crate) fn sends() -> &'static [u32] {
    &[
        0x1000_00b7,
        0x0410_0113,
        0x0020_a223,
        0x0020_a223,
        0x0020_a223,
    ]
}

/// Each of two harts adds 1 to the word behind the first page, and then runs in a circle.
pub(crate) fn race_guest() -> &'static [u32] {
    &[
        0x8000_10b7,
        0x0000_a103,
        0x0011_0113,
        0x0020_a023,
        0x0000_006f,
    ]
}

/// Runs that end at a limit.
pub(crate) fn limits() -> [Row; 4] {
    let mut none = plain_row("record g l --pages 1 --limit 0", round(), 0, "cause limit");
    none.length = 62;
    none.entries = "e0";
    let mut first = plain_row(
        "record g l --pages 1 --limit 4096",
        round(),
        0,
        "cause limit\nhart 0 count 4096 pc 80000000",
    );
    first.length = 101;
    first.entries = "p0:0.5.0 g0:0.0r e4096";
    let mut second = plain_row(
        "record g l --pages 1 --limit 4097",
        round(),
        0,
        "cause limit",
    );
    second.length = 123;
    second.entries = "p0:0.5.0 g0:0.0r p4096:1.5.0 e4097";
    let mut traps = plain_row(
        "record g l --pages 1 --limit 2",
        &[],
        0,
        "hart 0 count 2 pc 00000000\ncsr 00001800 00000000 00000000 00000000 00000000 00000001 00000000 00000000\ncounters 0000000000000002 0000000000000000",
    );
    traps.length = 101;
    traps.entries = "p0:0.5.0 g0:0.0r e2";
    [none, first, second, traps]
}

/// LUI x1; three loads from RX; a store to STOP.
pub(crate) fn input_row() -> Row {
    let mut input = plain_row(
        "record g l --pages 1 --limit 100",
        &[
            0x1000_00b7,
            0x0000_a103,
            0x0000_a183,
            0x0000_a203,
            0x0000_a423,
        ],
        0,
        "cause stop 0\nhart 0 count 5 pc 80000014\nx0 00000000 10000000 ffffffff 00000041 ffffffff 00000000 00000000 00000000",
    );
    input.answers = &[Asked::Nothing, Asked::Byte(0x41)];
    input.length = 189;
    input.entries = "p0:0.5.0 g0:0.0r t1:1.e t2:2.b65 t3:3.e t4:4.n e5";
    input
}

/// Runs whose pages, timer, software interrupt and console are asked for.
pub(crate) fn devices() -> [Row; 4] {
    let mut pages = plain_row(
        "record g l --pages 2 --limit 5",
        &[
            0x8000_10b7,
            0x1000_a12f,
            0x0040_8213,
            0x1812_21af,
            0x1810_a2af,
        ],
        0,
        "cause limit\nhart 0 count 5 pc 80000014\nx0 00000000 80001000 00000000 00000001 80001004 00000001 00000000 00000000\nmemory e2fbbf26961e04111603ae85b5264264606bfa03757f2446f24cd1853c850d52",
    );
    pages.length = 118;
    pages.entries = "p0:0.5.0 g0:0.0r g1:1.0w e5";
    let mut timer = plain_row(
        "record g l --pages 1 --limit 4",
        &[0x0800_0093, 0x3040_9073, 0x3004_6073],
        0,
        "hart 0 count 4 pc 00000000\ncsr 00001880 00000080 00000000 00000000 8000000c 80000007 00000000 00000080\ncounters 0000000000000004 0000000000000003",
    );
    timer.time = u64::MAX;
    timer.length = 101;
    timer.entries = "p0:0.18446744073709551615.2 g0:0.0r e4";
    let mut software = plain_row(
        "record g l --pages 1 --limit 6",
        &[
            0x0200_00b7,
            0x0010_0113,
            0x0020_a023,
            0x3440_21f3,
            0x0000_a023,
            0x3440_2273,
        ],
        0,
        "x0 00000000 02000000 00000001 00000008 00000000 00000000 00000000 00000000",
    );
    software.length = 145;
    software.entries = "p0:0.5.0 g0:0.0r t2:1.n t4:2.n e6";
    [pages, timer, software, input_row()]
}

/// Runs in which the console or the sink fails.
pub(crate) fn failing_ends() -> [Row; 4] {
    let words = "record g l --pages 1 --limit 100 --dump d";
    let mut console = plain_row(words, sends(), 5, "cause fault");
    console.console_fails = &[2];
    console.length = 145;
    console.entries = "p0:0.5.0 g0:0.0r t2:1.n t3:2.n e4";
    let mut unkept = plain_row(words, sends(), 4, "shelf fault");
    unkept.console_fails = &[2];
    unkept.shelf_fails = &[6];
    unkept.length = 145;
    unkept.entries = "p0:0.5.0 g0:0.0r t2:1.n t3:2.n e4";
    let mut unprinted = plain_row(words, sends(), 5, "");
    unprinted.console_fails = &[2];
    unprinted.sink_fails = &[0];
    unprinted.length = 145;
    unprinted.entries = "p0:0.5.0 g0:0.0r t2:1.n t3:2.n e4";
    let mut report = plain_row(words, smallest(), 11, "");
    report.sink_fails = &[0];
    report.length = 123;
    report.entries = "p0:0.5.0 g0:0.0r t2:1.n e3";
    [console, unkept, unprinted, report]
}

/// The smallest run with a dump, where this call of the shelf fails.
fn failing_call(fails: &'static [u64]) -> Row {
    let words = "record g l --pages 1 --limit 100 --dump d";
    let mut row = plain_row(words, smallest(), 4, "shelf fault");
    row.shelf_fails = fails;
    row
}

/// The same once the log is kept.
fn failing_dump(fails: &'static [u64]) -> Row {
    let mut row = failing_call(fails);
    row.length = 123;
    row.entries = "p0:0.5.0 g0:0.0r t2:1.n e3";
    row
}

/// Runs in which the shelf fails. Of its calls, 0 fetches, 1 to 4 keep the log in two pieces, and 5 to 8 the dump: no
/// bytes were sent, and they are appended all the same, as call 7, so that 8 is what finishes the dump.
fn failing_shelves() -> [Row; 10] {
    [
        failing_call(&[0]),
        failing_call(&[1]),
        failing_call(&[2]),
        failing_call(&[3]),
        failing_call(&[4]),
        failing_dump(&[5]),
        failing_dump(&[6]),
        failing_dump(&[7]),
        failing_dump(&[8]),
        plain_row("record h l", smallest(), 4, "shelf fault"),
    ]
}

/// Commands that are refused before anything is begun.
fn refusals() -> [Row; 8] {
    [
        plain_row("", smallest(), 1, "usage: word 0"),
        plain_row("record g", smallest(), 1, "usage: word 2"),
        plain_row("record g g", smallest(), 1, "usage: word 2"),
        plain_row("record g l --harts 9", smallest(), 1, "usage: word 4"),
        plain_row("record g l --limit 05", smallest(), 1, "usage: word 4"),
        plain_row("record g l --dump l", smallest(), 1, "usage: word 4"),
        plain_row("replay g l --one --rounds", smallest(), 1, "usage: word 4"),
        plain_row("trace g l 0 3 2", smallest(), 1, "usage: word 5"),
    ]
}

/// The words as bytes, little-endian, in order.
pub(crate) fn bytes_of(alloc: Global, words: &[u32]) -> Result<Vec<u8>, Fail> {
    let mut bytes = Vec::new(alloc);
    for word in words {
        bytes.extend_from_slice(&word.to_le_bytes())?;
    }
    Ok(bytes)
}

pub(crate) fn words_of(alloc: Global, line: &str) -> Result<Vec<String>, Fail> {
    let mut words = Vec::new(alloc);
    for word in line.split_ascii_whitespace() {
        words.push(String::from_str(alloc, word)?)?;
    }
    Ok(words)
}

/// What a command runs over.
#[derive(Drop)]
pub(crate) struct Surroundings {
    pub shelf: MemShelf,
    pub console: MemConsole,
    clock: MemClock,
    report: MemSink,
}

/// Surroundings that know of nothing but these files, with the numbers of the calls of shelf and sink that fail.
pub(crate) fn surroundings_with(
    alloc: Global,
    guest: &[u8],
    log: Option<&[u8]>,
    shelf_fails: &[u64],
    sink_fails: &[u64],
) -> Result<Surroundings, Fail>
    ensures { IfOk result (λ s. s.shelf.draft ≡ None) }
{
    let mut shelf = MemShelf::start(alloc, 100_000, shelf_fails)?;
    shelf.hold("g", guest);
    if let Some(log) = log {
        shelf.hold("l", log);
    }
    Ok(Surroundings {
        shelf,
        console: MemConsole::start(alloc, &[], Asked::End, 100, &[])?,
        clock: MemClock::start(5, 0),
        report: MemSink::start(alloc, 10_000, sink_fails)?,
    })
}

/// What a command came to.
#[derive(Drop)]
pub(crate) struct Told {
    pub status: u8,
    pub shelf: MemShelf,
    pub report: MemSink,
    console: MemConsole,
}

/// Runs the words of a line.
pub(crate) fn tell<T: Threads + Wait + Sync, G: Gate>(
    rt: &T,
    alloc: Global,
    line: &str,
    devices: Surroundings,
    gate: &G,
) -> Result<Told, Fail>
    requires { devices.shelf.draft ≡ None }
{
    let words = words_of(alloc, line)?;
    let Surroundings {
        mut shelf,
        console,
        clock,
        mut report,
    } = devices;
    let Finish {
        status,
        console,
        ..
    } = revirt(
        rt,
        alloc,
        &words,
        &mut shelf,
        console,
        clock,
        gate,
        &mut report,
    );
    Ok(Told {
        status,
        shelf,
        report,
        console,
    })
}

pub(crate) fn serve<T: Threads + Wait + Sync>(
    rt: &T,
    alloc: Global,
    row: &Row,
    file: &[u8],
) -> Result<Told, Fail> {
    let mut devices = surroundings_with(alloc, file, None, row.shelf_fails, row.sink_fails)?;
    devices.console = MemConsole::start(alloc, row.answers, Asked::End, 100, row.console_fails)?;
    devices.clock = MemClock::start(row.time, 0);
    tell(rt, alloc, row.line, devices, &OpenGate)
}

/// Whether a text has all these lines; where none are given, whether it is empty.
pub(crate) fn has_lines(text: &[u8], lines: &str) -> bool {
    let Ok(text) = std::str::from_utf8(text) else {
        return false;
    };
    if lines.is_empty() {
        return text.is_empty();
    }
    for want in lines.lines() {
        if !text.lines().any(|line| line == want) {
            return false;
        }
    }
    true
}

/// The input of a device access.
fn input_of(alloc: Global, input: Input) -> Result<String, Fail> {
    match input {
        Input::Nothing => Ok(String::from_str(alloc, "n")?),
        Input::Empty => Ok(String::from_str(alloc, "e")?),
        Input::Byte(byte) => Ok(format!(in alloc; "b{byte}")?),
        Input::Time(time) => Ok(format!(in alloc; "t{time}")?),
    }
}

/// An entry by its letter and count, and what it has further.
fn spelled(alloc: Global, entry: &Entry) -> Result<String, Fail> {
    match entry {
        Entry::Gain {
            count,
            page,
            seq,
            mode: Mode::Read,
            ..
        } => Ok(format!(in alloc; "g{count}:{page}.{seq}r")?),
        Entry::Gain {
            count,
            page,
            seq,
            ..
        } => Ok(format!(in alloc; "g{count}:{page}.{seq}w")?),
        Entry::Yield { count, .. } => Ok(format!(in alloc; "y{count}")?),
        Entry::Poll {
            count,
            ord,
            time,
            bits,
        } => Ok(format!(in alloc; "p{count}:{ord}.{time}.{bits}")?),
        Entry::Touch { count, ord, input } => {
            let input = input_of(alloc, *input)?;
            Ok(format!(in alloc; "t{count}:{ord}.{input}")?)
        }
        Entry::End { count } => Ok(format!(in alloc; "e{count}")?),
    }
}

/// The entries of a log, parted by blanks.
fn entries_of(alloc: Global, log: &Log) -> Result<String, Fail> {
    let mut text = String::new(alloc);
    for stream in log.streams.items() {
        for entry in stream.items() {
            if !text.is_empty() {
                text.push_str(" ")?;
            }
            text.push_str(spelled(alloc, entry)?.as_str())?;
        }
    }
    Ok(text)
}

/// Whether what is held is a log of this length with these entries; a length of 0 stands for no log.
fn is_log(alloc: Global, held: Option<&[u8]>, length: usize, entries: &str) -> Result<bool, Fail> {
    match held {
        None => Ok(length == 0),
        Some(bytes) => {
            let log = read_log(alloc, bytes)?;
            let text = entries_of(alloc, &log)?;
            Ok(bytes.len() == length && text.as_str() == entries)
        }
    }
}

pub(crate) fn comes_true<T: Threads + Wait + Sync>(
    rt: &T,
    alloc: Global,
    row: &Row,
) -> Result<bool, Fail> {
    let file = bytes_of(alloc, row.guest)?;
    let ran = serve(rt, alloc, row, file.as_slice())?;
    let kept = is_log(alloc, ran.shelf.held("l"), row.length, row.entries)?;
    Ok(kept && ran.status == row.status && has_lines(ran.report.written(), row.lines))
}

#[test]
fn limits_end_runs(rt: HostRuntime) -> Result<(), Fail> {
    for row in limits() {
        assert!(rt; comes_true(&rt, rt.alloc(), &row)?);
    }
    Ok(())
}

#[test]
fn pages_and_devices_are_recorded(rt: HostRuntime) -> Result<(), Fail> {
    for row in devices() {
        assert!(rt; comes_true(&rt, rt.alloc(), &row)?);
    }
    Ok(())
}

#[test]
fn each_failing_call_is_told(rt: HostRuntime) -> Result<(), Fail> {
    for row in failing_ends() {
        assert!(rt; comes_true(&rt, rt.alloc(), &row)?);
    }
    Ok(())
}

#[test]
fn each_failing_call_of_the_shelf_is_told(rt: HostRuntime) -> Result<(), Fail> {
    for row in failing_shelves() {
        assert!(rt; comes_true(&rt, rt.alloc(), &row)?);
    }
    Ok(())
}

#[test]
fn refused_commands_begin_nothing(rt: HostRuntime) -> Result<(), Fail> {
    for row in refusals() {
        assert!(rt; comes_true(&rt, rt.alloc(), &row)?);
    }
    Ok(())
}

/// The log of the smallest guest, with limit 100.
pub(crate) fn smallest_log() -> [u8; 123] {
    [
        0x52, 0x56, 0x54, 0x4c, 1, 1, 1, 0, // magic, version, harts, pages
        100, 0, 0, 0, 0, 0, 0, 0, // limit
        0xe4, 0xd0, 0x10, 0x19, 0x49, 0x99, 0xe7, 0x2f, 0xa6, 0x50, 0x95, 0x5c, 0xac, 0xa4, 0x37,
        0xd5, 0xa7, 0xfe, 0x14, 0xed, 0x0a, 0xd1, 0x12, 0x12, 0xd4, 0x1e, 0xc4, 0xc7, 0x64, 0x32,
        0xf8, 0x05, // start digest
        4, 0, 0, 0, // entries
        3, 0, 0, 0, 0, 0, 0, 0, 0, 0, 0, 0, 0, 5, 0, 0, 0, 0, 0, 0, 0, 0, // Poll
        1, 0, 0, 0, 0, 0, 0, 0, 0, 0, 0, 0, 0, 0, 0, 1, 0, // Gain
        4, 2, 0, 0, 0, 0, 0, 0, 0, 1, 0, 0, 0, 0, 0, 0, 0, 0, 0, 0, 0, 0, // Touch
        5, 3, 0, 0, 0, 0, 0, 0, 0, // End
        1, // cause
    ]
}

pub(crate) fn smallest_report() -> &'static str {
    "cause stop 7
hart 0 count 3 pc 8000000c
x0 00000000 10000000 00000007 00000000 00000000 00000000 00000000 00000000
x8 00000000 00000000 00000000 00000000 00000000 00000000 00000000 00000000
x16 00000000 00000000 00000000 00000000 00000000 00000000 00000000 00000000
x24 00000000 00000000 00000000 00000000 00000000 00000000 00000000 00000000
csr 00001800 00000000 00000000 00000000 00000000 00000000 00000000 00000000
counters 0000000000000003 0000000000000003
time 5
console 0 e3b0c44298fc1c149afbf4c8996fb92427ae41e4649b934ca495991b7852b855
memory 6ca3a82c26311c7eb9f88a0d9f99ed3faf6f8270f5d354205603240cb02f7c16
"
}

fn is_kept_whole(ran: &Told) -> bool {
    let log = smallest_log();
    ran.shelf.held("l") == Some(log.as_slice())
        && ran.report.written() == smallest_report().as_bytes()
}

/// Whether these bytes, where they are there, are zeros.
fn are_zeros(bytes: Option<&[u8]>) -> bool {
    match bytes {
        Some(bytes) => bytes.iter().all(|byte| *byte == 0),
        None => false,
    }
}

/// Whether a dump of one page is the guest, zeros up to the page's end, and then what was sent.
fn is_dump(dump: Option<&[u8]>, guest: &[u8], sent: &[u8]) -> bool {
    match dump {
        Some(bytes) => {
            bytes.len() >= 4096
                && bytes.len() - 4096 == sent.len()
                && bytes.starts_with(guest)
                && are_zeros(bytes.get(guest.len()..4096))
                && bytes.ends_with(sent)
        }
        None => false,
    }
}

#[test]
fn the_smallest_run_is_kept_and_reported(rt: HostRuntime) -> Result<(), Fail> {
    let alloc = rt.alloc();
    let row = plain_row(
        "record g l --pages 1 --limit 100 --dump d",
        smallest(),
        0,
        "",
    );
    let file = bytes_of(alloc, smallest())?;
    let ran = serve(&rt, alloc, &row, file.as_slice())?;
    assert_eq!(rt; ran.status, 0);
    assert!(rt; is_kept_whole(&ran));
    assert!(rt; is_dump(ran.shelf.held("d"), file.as_slice(), &[]));
    Ok(())
}

#[test]
fn a_console_that_fails_has_taken_what_the_dump_says(rt: HostRuntime) -> Result<(), Fail> {
    let alloc = rt.alloc();
    let mut row = plain_row("record g l --pages 1 --limit 100 --dump d", sends(), 5, "");
    row.console_fails = &[2];
    let file = bytes_of(alloc, sends())?;
    let ran = serve(&rt, alloc, &row, file.as_slice())?;
    assert_eq!(rt; ran.console.taken(), b"AA".as_slice());
    assert!(rt; is_dump(ran.shelf.held("d"), file.as_slice(), b"AA"));
    Ok(())
}

/// Whether the second page of a dump begins with this word.
pub(crate) fn has_word(dump: Option<&[u8]>, word: &[u8]) -> bool {
    match dump {
        Some(bytes) => bytes.get(4096..4100) == Some(word),
        None => false,
    }
}

/// The start digest of JAL to itself on a board of one page.
fn round_digest() -> [u8; 32] {
    [
        0x17, 0xa9, 0x7c, 0x41, 0x31, 0x48, 0x03, 0xbe, 0x89, 0x61, 0x5f, 0x43, 0x2b, 0xeb, 0x27,
        0x78, 0x11, 0xb2, 0x1c, 0x76, 0xf3, 0xca, 0x01, 0x92, 0x11, 0x0b, 0x83, 0x3f, 0xd9, 0xfe,
        0x91, 0x92,
    ]
}

/// Whether the head of a log has this start digest.
fn has_digest(log: Option<&[u8]>, digest: &[u8]) -> bool {
    match log {
        Some(bytes) => bytes.get(16..48) == Some(digest),
        None => false,
    }
}

#[test]
fn a_log_names_the_start_of_its_run(rt: HostRuntime) -> Result<(), Fail> {
    let alloc = rt.alloc();
    let row = plain_row("record g l --pages 1 --limit 0", round(), 0, "");
    let file = bytes_of(alloc, round())?;
    let ran = serve(&rt, alloc, &row, file.as_slice())?;
    assert!(rt; has_digest(ran.shelf.held("l"), &round_digest()));
    Ok(())
}

/// The smallest guest as a linker writes it: attributes, code of two words, a word of data with twelve zeros
/// behind it, and the stack's flags.
fn linked() -> &'static [u8] {
    &[
        // the header
        0x7f, 0x45, 0x4c, 0x46, 0x01, 0x01, 0x01, 0x00, 0x00, 0x00, 0x00, 0x00, 0x00, 0x00, 0x00,
        0x00, 0x02, 0x00, 0xf3, 0x00, 0x01, 0x00, 0x00, 0x00, 0x00, 0x00, 0x00, 0x80, 0x34, 0x00,
        0x00, 0x00, 0x00, 0x00, 0x00, 0x00, 0x00, 0x00, 0x00, 0x00, 0x34, 0x00, 0x20, 0x00, 0x04,
        0x00, 0x00, 0x00, 0x00, 0x00, 0x00, 0x00, // RISC-V attributes
        0x03, 0x00, 0x00, 0x70, 0xb4, 0x00, 0x00, 0x00, 0x00, 0x00, 0x00, 0x00, 0x00, 0x00, 0x00,
        0x00, 0x00, 0x00, 0x00, 0x00, 0x00, 0x00, 0x00, 0x00, 0x04, 0x00, 0x00, 0x00, 0x01, 0x00,
        0x00, 0x00, // PT_LOAD, eight bytes at 0x80000000
        0x01, 0x00, 0x00, 0x00, 0xb4, 0x00, 0x00, 0x00, 0x00, 0x00, 0x00, 0x80, 0x00, 0x00, 0x00,
        0x80, 0x08, 0x00, 0x00, 0x00, 0x08, 0x00, 0x00, 0x00, 0x05, 0x00, 0x00, 0x00, 0x04, 0x00,
        0x00, 0x00, // PT_LOAD, four bytes and twelve zeros at 0x80000008
        0x01, 0x00, 0x00, 0x00, 0xbc, 0x00, 0x00, 0x00, 0x08, 0x00, 0x00, 0x80, 0x08, 0x00, 0x00,
        0x80, 0x04, 0x00, 0x00, 0x00, 0x10, 0x00, 0x00, 0x00, 0x06, 0x00, 0x00, 0x00, 0x04, 0x00,
        0x00, 0x00, // the stack
        0x51, 0xe5, 0x74, 0x64, 0x00, 0x00, 0x00, 0x00, 0x00, 0x00, 0x00, 0x00, 0x00, 0x00, 0x00,
        0x00, 0x00, 0x00, 0x00, 0x00, 0x00, 0x00, 0x00, 0x00, 0x06, 0x00, 0x00, 0x00, 0x10, 0x00,
        0x00, 0x00, // the bytes of the segments
        0xb7, 0x00, 0x00, 0x10, 0x13, 0x01, 0x70, 0x00, 0x23, 0xa4, 0x20, 0x00,
    ]
}

#[test]
fn a_linked_guest_runs_as_its_memory_does(rt: HostRuntime) -> Result<(), Fail> {
    let alloc = rt.alloc();
    let row = plain_row("record g l --pages 1 --limit 100", &[], 0, "");
    let ran = serve(&rt, alloc, &row, linked())?;
    assert_eq!(rt; ran.status, 0);
    assert!(rt; is_kept_whole(&ran));
    Ok(())
}

/// The status and the text for a file.
fn refuses<T: Threads + Wait + Sync>(
    rt: &T,
    alloc: Global,
    file: &[u8],
    line: &str,
) -> Result<bool, Fail> {
    let row = plain_row("record g l --pages 1 --dump d", &[], 2, "");
    let ran = serve(rt, alloc, &row, file)?;
    let begun = ran.shelf.held("l").is_some() || ran.shelf.held("d").is_some();
    Ok(!begun && ran.status == 2 && has_lines(ran.report.written(), line))
}

/// The first bytes of a file, and none where it has fewer.
pub(crate) fn first_of(file: &[u8], many: usize) -> &[u8] {
    match file.get(..many) {
        Some(bytes) => bytes,
        None => &[],
    }
}

#[test]
fn a_file_that_breaks_a_rule_is_refused(rt: HostRuntime) -> Result<(), Fail> {
    let alloc = rt.alloc();
    let large = vec![in alloc; 0u8; 4097]?;
    assert!(rt; refuses(&rt, alloc, large.as_slice(), "image refused: I2")?);
    assert!(rt; refuses(&rt, alloc, first_of(linked(), 40), "image refused: I1")?);
    let mut compressed = Vec::from_slice(alloc, linked())?;
    if let Some(flags) = compressed.get_mut(36) {
        *flags = 1;
    }
    assert!(rt; refuses(&rt, alloc, compressed.as_slice(), "image refused: I8")?);
    Ok(())
}

/// Whether a log has 42 Polls and this End.
fn is_full(alloc: Global, held: Option<&[u8]>, end: &str) -> Result<bool, Fail> {
    match held {
        Some(bytes) => {
            let log = read_log(alloc, bytes)?;
            let text = entries_of(alloc, &log)?;
            let polls = text
                .as_str()
                .split(' ')
                .filter(|entry| entry.starts_with("p"))
                .count();
            Ok(polls == 42 && bytes.len() == 1003 && text.as_str().ends_with(end))
        }
        None => Ok(false),
    }
}

/// A run whose log has room for 42 Polls.
pub(crate) fn full_row() -> Row {
    let words = "record g l --pages 1 --limit 1000000 --log-limit 1024";
    plain_row(words, round(), 0, "")
}

#[test]
fn a_full_log_ends_the_run(rt: HostRuntime) -> Result<(), Fail> {
    let alloc = rt.alloc();
    let row = full_row();
    let file = bytes_of(alloc, round())?;
    let ran = serve(&rt, alloc, &row, file.as_slice())?;
    assert_eq!(rt; ran.status, 0);
    assert!(rt; has_lines(ran.report.written(), "cause full"));
    assert!(rt; is_full(alloc, ran.shelf.held("l"), " e172032")?);
    Ok(())
}

#[test]
fn an_image_that_is_too_long_is_refused(rt: HostRuntime) -> Result<(), Fail> {
    let alloc = rt.alloc();
    let file = vec![in alloc; 0u8; 67_108_865]?;
    let mut devices = surroundings_with(alloc, &[], None, &[], &[])?;
    devices.shelf = MemShelf::start(alloc, 67_108_866, &[])?;
    assert!(rt; devices.shelf.hold("g", file.as_slice()));
    let told = tell(&rt, alloc, "record g l", devices, &OpenGate)?;
    assert_eq!(rt; told.status, 9);
    assert_eq!(rt; told.report.written(), b"too long: image\n".as_slice());
    Ok(())
}

/// The words that record the guest `g`.
fn smallest_words(alloc: Global) -> Result<Vec<String>, Fail>
    ensures { IfOk result (λ v. texts v.items ≡ codes "record" ∷ codes "g" ∷ codes "l"
        ∷ codes "--pages" ∷ codes "1" ∷ codes "--limit" ∷ codes "100" ∷ []) }
{
    Ok(vec![in alloc;
        String::from_str(alloc, "record")?,
        String::from_str(alloc, "g")?,
        String::from_str(alloc, "l")?,
        String::from_str(alloc, "--pages")?,
        String::from_str(alloc, "1")?,
        String::from_str(alloc, "--limit")?,
        String::from_str(alloc, "100")?,
    ]?)
}

/// The status over a shelf, a console and a sink that never fail; 255 where the shelf has no room.
fn serve_surely<T: Threads + Wait + Sync>(rt: &T, alloc: Global) -> Result<u8, Fail> {
    let words = smallest_words(alloc)?;
    let file = bytes_of(alloc, smallest())?;
    let mut shelf = SureShelf::start(alloc, 100)?;
    if !shelf.hold("g", file.as_slice()) {
        return Ok(255);
    }
    let Finish { status, .. } = revirt(
        rt,
        alloc,
        &words,
        &mut shelf,
        SureConsole::start(),
        MemClock::start(5, 0),
        &OpenGate,
        &mut SureSink::start(),
    );
    Ok(status)
}

#[test]
fn what_never_fails_is_done(rt: HostRuntime) -> Result<(), Fail> {
    assert_eq!(rt; serve_surely(&rt, rt.alloc())?, 0);
    Ok(())
}
