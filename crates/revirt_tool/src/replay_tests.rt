//! Replays by the top call.

use crate::listing_tests::{race_log, twice_numbered_log};
use crate::tests::{
    Row, Told, bytes_of, devices, failing_ends, first_of, full_row, has_lines, has_word, input_row,
    limits, race_guest, round, serve, smallest, smallest_log, smallest_report, surroundings_with,
    tell,
};
use outside::OpenGate;
use std::alloc::Global;
use std::sync::Wait;
use std::test::Fail;
use std::thread::Threads;

/// A replay in each way, with its dump.
fn ways() -> [&'static str; 3] {
    [
        "replay g l --dump d",
        "replay g l --rounds --dump d",
        "replay g l --one --dump d",
    ]
}

fn on_one_thread() -> &'static str {
    "replay g l --one --dump d"
}

/// Replays a log over a guest.
fn replay<T: Threads + Wait + Sync>(
    rt: &T,
    alloc: Global,
    line: &str,
    guest: &[u32],
    log: &[u8],
    shelf_fails: &[u64],
    sink_fails: &[u64],
) -> Result<Told, Fail> {
    let file = bytes_of(alloc, guest)?;
    let devices = surroundings_with(alloc, file.as_slice(), Some(log), shelf_fails, sink_fails)?;
    tell(rt, alloc, line, devices, &OpenGate)
}

/// Whether the replay of a log over a guest is refused with this status and this line, and keeps nothing; so too where
/// the line can't be printed, and the next call of the shelf would fail: that for the image, where the log is malformed.
fn is_refused<T: Threads + Wait + Sync>(
    rt: &T,
    alloc: Global,
    words: &str,
    guest: &[u32],
    log: &[u8],
    status: u8,
    line: &str,
) -> Result<bool, Fail> {
    let told = replay(rt, alloc, words, guest, log, &[], &[])?;
    let next: &[u64] = if status == 6 { &[1] } else { &[2] };
    let untold = replay(rt, alloc, words, guest, log, next, &[0])?;
    let kept = told.shelf.held("d").is_some() || untold.shelf.held("d").is_some();
    let said = told.report.written() == line.as_bytes();
    Ok(!kept && said && told.status == status && untold.status == status)
}

/// Bytes of the smallest log that are changed, and what its replay over the smallest guest comes to: its status, and
/// the line of a refusal or lines of the report.
#[derive(Clone, Copy, Drop)]
struct Change {
    place: usize,
    bytes: &'static [u8],
    status: u8,
    text: &'static str,
}

fn altered(place: usize, bytes: &'static [u8], status: u8, text: &'static str) -> Change {
    Change {
        place,
        bytes,
        status,
        text,
    }
}

/// Bytes that are no log.
fn malformed_changes() -> [Change; 17] {
    [
        altered(0, &[0], 6, "malformed: offset 0 rule M2\n"),
        altered(4, &[9], 6, "malformed: offset 4 rule M3\n"),
        altered(5, &[0], 6, "malformed: offset 5 rule M4\n"),
        altered(6, &[0], 6, "malformed: offset 6 rule M5\n"),
        altered(15, &[255], 6, "malformed: offset 8 rule M6\n"),
        altered(48, &[3], 6, "malformed: offset 114 rule M14\n"),
        altered(48, &[5], 6, "malformed: offset 123 rule M1\n"),
        altered(
            48,
            &[255, 255, 255, 255],
            6,
            "malformed: offset 123 rule M1\n",
        ),
        altered(52, &[6], 6, "malformed: offset 52 rule M7\n"),
        altered(73, &[4], 6, "malformed: offset 73 rule M11\n"),
        altered(83, &[1], 6, "malformed: offset 83 rule M8\n"),
        altered(89, &[3], 6, "malformed: offset 89 rule M9\n"),
        altered(90, &[8], 6, "malformed: offset 90 rule M10\n"),
        altered(104, &[4], 6, "malformed: offset 104 rule M12\n"),
        altered(105, &[1], 6, "malformed: offset 105 rule M12\n"),
        altered(122, &[6], 6, "malformed: offset 122 rule M13\n"),
        altered(122, &[1, 0], 6, "malformed: offset 123 rule M14\n"),
    ]
}

/// The digest of the log, which names another start, and that of the guest.
fn other_start() -> &'static str {
    "other image: 00d010194999e72fa650955caca437d5a7fe14ed0ad11212d41ec4c76432f805 \
e4d010194999e72fa650955caca437d5a7fe14ed0ad11212d41ec4c76432f805\n"
}

/// Logs of another start, that aren't orderly, or that diverge.
fn refused_changes() -> [Change; 9] {
    [
        altered(16, &[0], 10, other_start()),
        altered(8, &[2], 7, "disorderly: rule O1 hart 0 entry 3\n"),
        altered(85, &[1], 7, "disorderly: rule O5 hart 0 entry 1\n"),
        altered(100, &[2], 7, "disorderly: rule O8 hart 0 entry 2\n"),
        altered(75, &[1], 8, "diverged: hart 0 count 0 rule V1\n"),
        altered(92, &[1], 8, "diverged: hart 0 count 1 rule V3\n"),
        altered(104, &[1], 8, "diverged: hart 0 count 2 rule V4\n"),
        altered(73, &[1], 8, "diverged: hart 0 count 0 rule V5\n"),
        altered(122, &[2], 8, "diverged: hart 0 count 3 rule V7\n"),
    ]
}

/// Logs that are replayed to their ends, whether somebody recorded them or not.
fn done_changes() -> [Change; 4] {
    [
        altered(0, &[0x52], 0, smallest_report()),
        altered(65, &[6], 0, "time 6"),
        altered(89, &[2], 0, smallest_report()),
        altered(114, &[4], 0, "hart 0 count 4 pc 00000000"),
    ]
}

/// The smallest log with other bytes from a place on.
fn changed_log(alloc: Global, change: &Change) -> Result<Vec<u8>, Fail> {
    let log = smallest_log();
    let mut bytes = Vec::from_slice(alloc, first_of(&log, change.place))?;
    bytes.extend_from_slice(change.bytes)?;
    if let Some(rest) = log.get(bytes.len()..) {
        bytes.extend_from_slice(rest)?;
    }
    Ok(bytes)
}

/// Whether a replay of the changed log comes to what is told of it, in each way.
fn refuses_change<T: Threads + Wait + Sync>(
    rt: &T,
    alloc: Global,
    change: &Change,
) -> Result<bool, Fail> {
    let log = changed_log(alloc, change)?;
    let bytes = log.as_slice();
    for words in ways() {
        if !is_refused(
            rt,
            alloc,
            words,
            smallest(),
            bytes,
            change.status,
            change.text,
        )? {
            return Ok(false);
        }
    }
    Ok(true)
}

fn takes_change<T: Threads + Wait + Sync>(
    rt: &T,
    alloc: Global,
    change: &Change,
) -> Result<bool, Fail> {
    let log = changed_log(alloc, change)?;
    for words in ways() {
        let told = replay(rt, alloc, words, smallest(), log.as_slice(), &[], &[])?;
        if told.status != change.status || !has_lines(told.report.written(), change.text) {
            return Ok(false);
        }
    }
    Ok(true)
}

/// The smallest log with other bits in its poll.
pub(crate) fn changed_poll() -> [u8; 123] {
    let mut bytes = smallest_log();
    if let Some(bits) = bytes.get_mut(73) {
        *bits = 1;
    }
    bytes
}

#[test]
fn what_is_no_log_is_refused(rt: HostRuntime) -> Result<(), Fail> {
    for change in malformed_changes() {
        assert!(rt; refuses_change(&rt, rt.alloc(), &change)?);
    }
    Ok(())
}

#[test]
fn what_cannot_be_replayed_is_refused(rt: HostRuntime) -> Result<(), Fail> {
    for change in refused_changes() {
        assert!(rt; refuses_change(&rt, rt.alloc(), &change)?);
    }
    Ok(())
}

#[test]
fn what_can_be_replayed_is_done(rt: HostRuntime) -> Result<(), Fail> {
    for change in done_changes() {
        assert!(rt; takes_change(&rt, rt.alloc(), &change)?);
    }
    Ok(())
}

/// The fields of the smallest log: the head's; Poll, Gain, Touch and End; the cause.
fn fields() -> &'static [usize] {
    &[
        0, 4, 5, 6, 8, 16, 48, 52, 53, 61, 65, 73, 74, 75, 83, 85, 89, 90, 91, 92, 100, 104, 105,
        113, 114, 122,
    ]
}

/// The field in which a byte lies.
fn field_of(place: usize) -> usize {
    let mut found = 0;
    for field in fields() {
        if *field <= place {
            found = *field;
        }
    }
    found
}

fn refuses_cut<T: Threads + Wait + Sync>(rt: &T, alloc: Global, many: usize) -> Result<bool, Fail> {
    let log = smallest_log();
    let field = field_of(many);
    let line = format!(in alloc; "malformed: offset {field} rule M1\n")?;
    is_refused(
        rt,
        alloc,
        on_one_thread(),
        smallest(),
        first_of(&log, many),
        6,
        line.as_str(),
    )
}

#[test]
fn a_log_that_is_cut_short_is_refused(rt: HostRuntime) -> Result<(), Fail> {
    for many in 0..123usize {
        assert!(rt; refuses_cut(&rt, rt.alloc(), many)?);
    }
    Ok(())
}

/// The digest of the smallest log, and that of JAL to itself.
fn other_guest() -> &'static str {
    "other image: e4d010194999e72fa650955caca437d5a7fe14ed0ad11212d41ec4c76432f805 \
17a97c41314803be89615f432beb277811b21c76f3ca0192110b833fd9fe9192\n"
}

/// A log with the start digest of the smallest guest on one page.
fn named(alloc: Global, log: &[u8]) -> Result<Vec<u8>, Fail> {
    let own = smallest_log();
    let mut bytes = Vec::from_slice(alloc, first_of(log, 16))?;
    if let Some(digest) = own.get(16..48) {
        bytes.extend_from_slice(digest)?;
    }
    if let Some(rest) = log.get(48..) {
        bytes.extend_from_slice(rest)?;
    }
    Ok(bytes)
}

/// Of the smallest guest on two pages, two harts that wait for each other.
fn crossed_log() -> &'static [u8] {
    &[
        82, 86, 84, 76, 1, 2, 2, 0, 0, 0, 0, 0, 0, 0, 0, 0, // the board
        0x10, 0x72, 0x85, 0xf8, 0x40, 0x9e, 0x07, 0x58, 0xfe, 0x51, 0xa0, 0x71, 0x48, 0x33, 0x7c,
        0xcf, 0x28, 0xf0, 0x7f, 0x66, 0xdd, 0xc5, 0xfc, 0x0a, 0xf5, 0x79, 0x5f, 0x23, 0x71, 0x18,
        0xe4, 0x10, // start digest
        3, 0, 0, 0, // hart 0
        1, 0, 0, 0, 0, 0, 0, 0, 0, 0, 0, 1, 0, 0, 0, 1, 0, // Gain
        1, 0, 0, 0, 0, 0, 0, 0, 0, 1, 0, 0, 0, 0, 0, 1, 0, // Gain
        5, 0, 0, 0, 0, 0, 0, 0, 0, // End
        3, 0, 0, 0, // hart 1
        1, 0, 0, 0, 0, 0, 0, 0, 0, 1, 0, 1, 0, 0, 0, 1, 0, // Gain
        1, 0, 0, 0, 0, 0, 0, 0, 0, 0, 0, 0, 0, 0, 0, 1, 0, // Gain
        5, 0, 0, 0, 0, 0, 0, 0, 0, // End
        2, // cause
    ]
}

#[test]
fn logs_of_other_guests_and_of_two_harts_are_refused(rt: HostRuntime) -> Result<(), Fail> {
    let alloc = rt.alloc();
    let smallest_bytes = smallest_log();
    let words = on_one_thread();
    assert!(rt;
        is_refused(
            &rt,
            alloc,
            words,
            round(),
            &smallest_bytes,
            10,
            other_guest()
        )?
    );
    let numbers = "disorderly: rule O5 hart 1 entry 0\n";
    let log = named(alloc, twice_numbered_log())?;
    assert!(rt; is_refused(&rt, alloc, words, smallest(), log.as_slice(), 7, numbers)?);
    let crossed = "disorderly: rule O9 hart 0 entry 0\n";
    assert!(rt; is_refused(&rt, alloc, words, smallest(), crossed_log(), 7, crossed)?);
    Ok(())
}

/// The digest of a log of zeros, and that of the smallest guest.
fn unnamed_start() -> &'static str {
    "other image: 0000000000000000000000000000000000000000000000000000000000000000 \
e4d010194999e72fa650955caca437d5a7fe14ed0ad11212d41ec4c76432f805\n"
}

/// The first 40 bytes of an ELF file.
fn cut_file() -> &'static [u32] {
    &[
        0x464c_457f,
        0x0001_0101,
        0,
        0,
        0x00f3_0002,
        1,
        0x8000_0000,
        0x34,
        0,
        0,
    ]
}

#[test]
fn the_first_refusal_is_told(rt: HostRuntime) -> Result<(), Fail> {
    let alloc = rt.alloc();
    let words = on_one_thread();
    let large = vec![in alloc; 0u32; 1025]?;
    // an image that breaks a rule, before the order of the log; and another start, before its order
    let rule = "image refused: I2\n";
    assert!(rt;
        is_refused(
            &rt,
            alloc,
            words,
            large.as_slice(),
            twice_numbered_log(),
            2,
            rule
        )?
    );
    let cut = "image refused: I1\n";
    assert!(rt; is_refused(&rt, alloc, words, cut_file(), &smallest_log(), 2, cut)?);
    let start = unnamed_start();
    assert!(rt;
        is_refused(
            &rt,
            alloc,
            words,
            smallest(),
            twice_numbered_log(),
            10,
            start
        )?
    );
    Ok(())
}

#[test]
fn a_race_is_replayed_in_each_way(rt: HostRuntime) -> Result<(), Fail> {
    let alloc = rt.alloc();
    let lines = "cause limit\nhart 0 count 8 pc 80000010\nhart 1 count 8 pc 80000010";
    for words in ways() {
        let told = replay(&rt, alloc, words, race_guest(), race_log(), &[], &[])?;
        assert_eq!(rt; told.status, 0);
        assert!(rt; has_lines(told.report.written(), lines));
        assert!(rt; has_word(told.shelf.held("d"), &[1, 0, 0, 0]));
    }
    Ok(())
}

/// Whether what a row records is replayed in each way to the same report and, where the row asks for it, the same dump.
pub(crate) fn is_replayed<T: Threads + Wait + Sync>(
    rt: &T,
    alloc: Global,
    row: &Row,
) -> Result<bool, Fail> {
    let file = bytes_of(alloc, row.guest)?;
    let ran = serve(rt, alloc, row, file.as_slice())?;
    let Some(log) = ran.shelf.held("l") else {
        return Ok(false);
    };
    for words in ways() {
        let told = replay(rt, alloc, words, row.guest, log, &[], &[])?;
        let dumps = ran.shelf.held("d").is_none() || ran.shelf.held("d") == told.shelf.held("d");
        if !dumps || told.status != 0 || told.report.written() != ran.report.written() {
            return Ok(false);
        }
    }
    Ok(true)
}

#[test]
fn runs_to_a_limit_are_replayed(rt: HostRuntime) -> Result<(), Fail> {
    for row in limits() {
        assert!(rt; is_replayed(&rt, rt.alloc(), &row)?);
    }
    assert!(rt; is_replayed(&rt, rt.alloc(), &full_row())?);
    Ok(())
}

#[test]
fn runs_with_pages_and_devices_are_replayed(rt: HostRuntime) -> Result<(), Fail> {
    for row in devices() {
        assert!(rt; is_replayed(&rt, rt.alloc(), &row)?);
    }
    Ok(())
}

/// The calls of a console, of which one fails.
fn first_calls() -> [&'static [u64]; 3] {
    [&[0], &[1], &[2]]
}

#[test]
fn runs_whose_console_failed_are_replayed(rt: HostRuntime) -> Result<(), Fail> {
    let [sending, ..] = failing_ends();
    assert!(rt; is_replayed(&rt, rt.alloc(), &sending)?);
    for fails in first_calls() {
        let mut row = input_row();
        row.console_fails = fails;
        assert!(rt; is_replayed(&rt, rt.alloc(), &row)?);
    }
    Ok(())
}

/// The calls of the shelf: 0 fetches the log and 1 the image, and 2 to 5 keep the dump.
fn shelf_calls() -> [&'static [u64]; 6] {
    [&[0], &[1], &[2], &[3], &[4], &[5]]
}

fn fails_at<T: Threads + Wait + Sync>(rt: &T, alloc: Global, fails: &[u64]) -> Result<bool, Fail> {
    let replayed = replay(
        rt,
        alloc,
        on_one_thread(),
        smallest(),
        &smallest_log(),
        fails,
        &[],
    )?;
    let kept = replayed.shelf.held("d").is_some();
    Ok(!kept && replayed.status == 4 && replayed.report.written() == b"shelf fault\n".as_slice())
}

#[test]
fn each_failing_call_of_a_replay_is_told(rt: HostRuntime) -> Result<(), Fail> {
    let alloc = rt.alloc();
    for fails in shelf_calls() {
        assert!(rt; fails_at(&rt, alloc, fails)?);
    }
    let words = on_one_thread();
    let unprinted = replay(&rt, alloc, words, smallest(), &smallest_log(), &[], &[0])?;
    assert_eq!(rt; unprinted.status, 11);
    Ok(())
}
