//! Listings by the top call.

ghost use Rattle.std.specs.Prelude.{◌≡◌, ◌∷◌, [], IfOk, codes};
ghost use Rattle.command_words.specs.Texts.{texts};

use crate::tests::{
    Told, bytes_of, first_of, plain_row as recording, serve, smallest, smallest_log,
    surroundings_with, tell,
};
use crate::{Finish, revirt};
use outside::{MemClock, OpenGate, SureConsole, SureShelf, SureSink};
use std::alloc::Global;
use std::sync::Wait;
use std::test::Fail;
use std::thread::Threads;

/// A log, the calls of shelf and sink that fail, and the status and the text of its listing.
#[derive(Clone, Copy, Drop)]
struct Row<'a> {
    log: &'a [u8],
    shelf_fails: &'static [u64],
    sink_fails: &'static [u64],
    status: u8,
    text: &'static str,
}

fn plain_row<'a>(log: &'a [u8], status: u8, text: &'static str) -> Row<'a> {
    Row {
        log,
        shelf_fails: &[],
        sink_fails: &[],
        status,
        text,
    }
}

/// Lists the log `l`, where there is one.
fn list<T: Threads + Wait + Sync>(
    rt: &T,
    alloc: Global,
    log: Option<&[u8]>,
    shelf_fails: &[u64],
    sink_fails: &[u64],
) -> Result<Told, Fail> {
    let devices = surroundings_with(alloc, &[], log, shelf_fails, sink_fails)?;
    tell(rt, alloc, "inspect l", devices, &OpenGate)
}

fn comes_true<T: Threads + Wait + Sync>(rt: &T, alloc: Global, row: Row) -> Result<bool, Fail> {
    let listed = list(rt, alloc, Some(row.log), row.shelf_fails, row.sink_fails)?;
    let kept = listed.shelf.held("l") == Some(row.log);
    Ok(kept && listed.status == row.status && listed.report.written() == row.text.as_bytes())
}

/// One hart that stores 7 to STOP in its third move.
fn smallest_listing() -> &'static str {
    "log 1 harts 1 pages 1 limit 100 cause stop
image e4d010194999e72fa650955caca437d5a7fe14ed0ad11212d41ec4c76432f805
hart 0 entries 4
0 poll count 0 ord 0 time 5 bits 0
1 gain count 0 page 0 seq 0 read
2 touch count 2 ord 1 nothing
3 end count 3
page 0 gains 1 yields 0
orderly
"
}

/// Two harts that hand a page over to each other.
pub(crate) fn race_log() -> &'static [u8] {
    &[
        82, 86, 84, 76, 1, 2, 2, 0, 8, 0, 0, 0, 0, 0, 0, 0, // the board
        89, 172, 65, 98, 64, 66, 12, 140, 238, 116, 122, 155, 107, 217, 12, 202, 200, 111, 68, 71,
        53, 222, 29, 73, 99, 83, 153, 92, 217, 11, 239, 198, // start digest
        6, 0, 0, 0, // hart 0
        3, 0, 0, 0, 0, 0, 0, 0, 0, 0, 0, 0, 0, 5, 0, 0, 0, 0, 0, 0, 0, 0, // Poll
        1, 0, 0, 0, 0, 0, 0, 0, 0, 0, 0, 0, 0, 0, 0, 1, 0, // Gain
        1, 1, 0, 0, 0, 0, 0, 0, 0, 1, 0, 0, 0, 0, 0, 1, 0, // Gain
        1, 3, 0, 0, 0, 0, 0, 0, 0, 1, 0, 3, 0, 0, 0, 2, 1, 1, 3, 0, 0, 0, 0, 0, 0, 0, // Gain
        2, 8, 0, 0, 0, 0, 0, 0, 0, 1, 0, 4, 0, 0, 0, 0, // Yield
        5, 8, 0, 0, 0, 0, 0, 0, 0, // End
        6, 0, 0, 0, // hart 1
        3, 0, 0, 0, 0, 0, 0, 0, 0, 1, 0, 0, 0, 5, 0, 0, 0, 0, 0, 0, 0, 0, // Poll
        1, 0, 0, 0, 0, 0, 0, 0, 0, 0, 0, 1, 0, 0, 0, 1, 0, // Gain
        1, 1, 0, 0, 0, 0, 0, 0, 0, 1, 0, 1, 0, 0, 0, 1, 0, // Gain
        2, 3, 0, 0, 0, 0, 0, 0, 0, 1, 0, 2, 0, 0, 0, 0, // Yield
        1, 3, 0, 0, 0, 0, 0, 0, 0, 1, 0, 5, 0, 0, 0, 2, 1, 0, 8, 0, 0, 0, 0, 0, 0, 0, // Gain
        5, 8, 0, 0, 0, 0, 0, 0, 0, // End
        2, // cause
    ]
}

fn race_listing() -> &'static str {
    "log 1 harts 2 pages 2 limit 8 cause limit
image 59ac416240420c8cee747a9b6bd90ccac86f444735de1d496353995cd90befc6
hart 0 entries 6
0 poll count 0 ord 0 time 5 bits 0
1 gain count 0 page 0 seq 0 read
2 gain count 1 page 1 seq 0 read
3 gain count 3 page 1 seq 3 write wait 1@3
4 yield count 8 page 1 seq 4 none
5 end count 8
hart 1 entries 6
0 poll count 0 ord 1 time 5 bits 0
1 gain count 0 page 0 seq 1 read
2 gain count 1 page 1 seq 1 read
3 yield count 3 page 1 seq 2 none
4 gain count 3 page 1 seq 5 write wait 0@8
5 end count 8
page 0 gains 2 yields 0
page 1 gains 4 yields 2
page 1 seq 3 hart 0 from 1@3
page 1 seq 5 hart 1 from 0@8
orderly
"
}

/// Two harts whose first gains of a page have one number.
pub(crate) fn twice_numbered_log() -> &'static [u8] {
    &[
        82, 86, 84, 76, 1, 2, 1, 0, 0, 0, 0, 0, 0, 0, 0, 0, // the board
        0, 0, 0, 0, 0, 0, 0, 0, 0, 0, 0, 0, 0, 0, 0, 0, 0, 0, 0, 0, 0, 0, 0, 0, 0, 0, 0, 0, 0, 0,
        0, 0, // start digest
        2, 0, 0, 0, // hart 0
        1, 0, 0, 0, 0, 0, 0, 0, 0, 0, 0, 0, 0, 0, 0, 1, 0, // Gain
        5, 0, 0, 0, 0, 0, 0, 0, 0, // End
        2, 0, 0, 0, // hart 1
        1, 0, 0, 0, 0, 0, 0, 0, 0, 0, 0, 0, 0, 0, 0, 1, 0, // Gain
        5, 0, 0, 0, 0, 0, 0, 0, 0, // End
        2, // cause
    ]
}

fn twice_numbered_listing() -> &'static str {
    "log 1 harts 2 pages 1 limit 0 cause limit
image 0000000000000000000000000000000000000000000000000000000000000000
hart 0 entries 2
0 gain count 0 page 0 seq 0 read
1 end count 0
hart 1 entries 2
0 gain count 0 page 0 seq 0 read
1 end count 0
page 0 gains 2 yields 0
disorderly: rule O5 hart 1 entry 0
"
}

#[test]
fn logs_are_listed_and_judged(rt: HostRuntime) -> Result<(), Fail> {
    let alloc = rt.alloc();
    let smallest = smallest_log();
    let rows = [
        plain_row(&smallest, 0, smallest_listing()),
        plain_row(race_log(), 0, race_listing()),
        plain_row(twice_numbered_log(), 7, twice_numbered_listing()),
    ];
    for row in rows {
        assert!(rt; comes_true(&rt, alloc, row)?);
    }
    Ok(())
}

/// The smallest log with another byte behind it, or in place of one.
fn changed_log(alloc: Global, place: usize, byte: u8) -> Result<Vec<u8>, Fail> {
    let mut bytes = Vec::from_slice(alloc, &smallest_log())?;
    if place == bytes.len() {
        bytes.push(byte)?;
    }
    if let Some(found) = bytes.get_mut(place) {
        *found = byte;
    }
    Ok(bytes)
}

#[test]
fn the_first_bad_field_is_told(rt: HostRuntime) -> Result<(), Fail> {
    let alloc = rt.alloc();
    let smallest = smallest_log();
    let cut = first_of(&smallest, 122);
    let longer = changed_log(alloc, 123, 0)?;
    let tag = changed_log(alloc, 52, 6)?;
    let rows = [
        plain_row(cut, 6, "malformed: offset 122 rule M1\n"),
        plain_row(longer.as_slice(), 6, "malformed: offset 123 rule M14\n"),
        plain_row(tag.as_slice(), 6, "malformed: offset 52 rule M7\n"),
    ];
    for row in rows {
        assert!(rt; comes_true(&rt, alloc, row)?);
    }
    Ok(())
}

#[test]
fn what_fails_around_a_listing_is_told(rt: HostRuntime) -> Result<(), Fail> {
    let alloc = rt.alloc();
    let mut unread = plain_row(race_log(), 4, "shelf fault\n");
    unread.shelf_fails = &[0];
    let mut unprinted = plain_row(race_log(), 11, "");
    unprinted.sink_fails = &[0];
    let mut untold = plain_row(twice_numbered_log(), 7, "");
    untold.sink_fails = &[0];
    for row in [unread, unprinted, untold] {
        assert!(rt; comes_true(&rt, alloc, row)?);
    }
    Ok(())
}

#[test]
fn a_log_that_is_not_there_is_a_shelf_fault(rt: HostRuntime) -> Result<(), Fail> {
    let listed = list(&rt, rt.alloc(), None, &[], &[])?;
    assert_eq!(rt; listed.status, 4);
    assert_eq!(rt; listed.report.written(), b"shelf fault\n".as_slice());
    Ok(())
}

#[test]
fn what_was_recorded_is_listed(rt: HostRuntime) -> Result<(), Fail> {
    let alloc = rt.alloc();
    let file = bytes_of(alloc, smallest())?;
    let row = recording("record g l --pages 1 --limit 100", smallest(), 0, "");
    let recorded = serve(&rt, alloc, &row, file.as_slice())?;
    let listed = list(&rt, alloc, recorded.shelf.held("l"), &[], &[])?;
    assert_eq!(rt; recorded.status, 0);
    assert_eq!(rt; listed.status, 0);
    assert_eq!(rt; listed.report.written(), smallest_listing().as_bytes());
    Ok(())
}

/// The words that list the log `l`.
fn listing_words(alloc: Global) -> Result<Vec<String>, Fail>
    ensures { IfOk result (λ v. texts v.items ≡ codes "inspect" ∷ codes "l" ∷ []) }
{
    Ok(vec![in alloc;
        String::from_str(alloc, "inspect")?,
        String::from_str(alloc, "l")?,
    ]?)
}

/// The status over a shelf and a sink that never fail; 255 where the shelf has no room.
fn list_surely<T: Threads + Wait + Sync>(rt: &T, alloc: Global) -> Result<u8, Fail> {
    let words = listing_words(alloc)?;
    let mut shelf = SureShelf::start(alloc, 1_000)?;
    if !shelf.hold("l", &smallest_log()) {
        return Ok(255);
    }
    let Finish { status, .. } = revirt(
        rt,
        alloc,
        &words,
        &mut shelf,
        SureConsole::start(),
        MemClock::start(5, 0),
        &OpenGate,
        &mut SureSink::start(),
    );
    Ok(status)
}

#[test]
fn a_listing_that_nothing_fails_is_done(rt: HostRuntime) -> Result<(), Fail> {
    assert_eq!(rt; list_surely(&rt, rt.alloc())?, 0);
    Ok(())
}
