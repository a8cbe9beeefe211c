//! The command that lists a log.

ghost use Rattle.std.specs.Prelude.{◌≡◌, ◌++◌, IsTrue, IfOk};
ghost use Rattle.log_entry.specs.Range.{in_range};
ghost use Rattle.log_inspect.specs.Listing.{listing};
ghost use Rattle.log_inspect.specs.Totals.{totals};
ghost use Rattle.log_inspect.specs.Table.{hand_over_lines};
ghost use Rattle.revirt_tool.specs.Listings.{IsListedAs, ListsAs, InspectsAs};

use crate::ending::{Ended, Ending, disorderly_line, without_run};
use crate::fetching::log_for;
use log_entry::Log;
use log_inspect::{hand_over_table, list_log, page_totals};
use log_order::{OrderError, put_in_order};
use outside::{Clock, Console, Shelf};
use std::alloc::Global;

/// The listing without its last line.
fn lines_of(alloc: Global, log: &Log) -> Result<Vec<u8>, Ending>
    requires { IsTrue (in_range log.now) }
    ensures { IfOk result (λ v. v.items ≡ listing log.now ++ (totals log.now ++ hand_over_lines log.now)) }
{
    let Ok(mut text) = list_log(alloc, log) else {
        return Err(Ending::NoMemory);
    };
    let Ok(totals) = page_totals(alloc, log) else {
        return Err(Ending::NoMemory);
    };
    let Ok(table) = hand_over_table(alloc, log) else {
        return Err(Ending::NoMemory);
    };
    if text.extend_from_slice(totals.as_slice()).is_err() {
        return Err(Ending::NoMemory);
    }
    if text.extend_from_slice(table.as_slice()).is_err() {
        return Err(Ending::NoMemory);
    }
    Ok(text)
}

/// The listing with its last line.
fn ended_by(mut text: Vec<u8>, line: &[u8], orderly: bool) -> Ending
    ensures { IsListedAs (text.items ++ line.now) orderly result }
{
    match text.extend_from_slice(line) {
        Ok(()) => Ending::Listed {
            listing: text,
            orderly,
        },
        Err(_) => Ending::NoMemory,
    }
}

/// The listing of a log, orderly or not.
fn listed(alloc: Global, log: Log) -> Ending
    requires { IsTrue (in_range log) }
    ensures { ListsAs log result }
{
    let text = match lines_of(alloc, &log) {
        Ok(text) => text,
        Err(_) => return Ending::NoMemory,
    };
    match put_in_order(alloc, log) {
        Ok(_) => ended_by(text, b"orderly\n", true),
        Err(OrderError::Disorderly { rule, hart, entry }) => {
            match disorderly_line(alloc, rule, hart, entry) {
                Ok(line) => ended_by(text, line.as_bytes(), false),
                Err(_) => Ending::NoMemory,
            }
        }
        Err(OrderError::NoMemory) => Ending::NoMemory,
    }
}

/// Lists the log of this name.
pub(crate) fn inspect<S: Shelf, C: Console, K: Clock>(
    alloc: Global,
    name: &str,
    shelf: &mut S,
    console: C,
    clock: K,
) -> Ended<C, K>
    requires { S.has shelf.old name.now }
    ensures writing { (S.seen shelf.new).writing ≡ (S.seen shelf.old).writing }
    ensures lists { InspectsAs name.now (S.seen shelf.old) (S.seen shelf.new) result.ending }
    ensures console { result.console ≡ console }
    ensures clock { result.clock ≡ clock }
{
    let ending = match log_for(alloc, name, shelf) {
        Ok(log) => listed(alloc, log),
        Err(ending) => ending,
    };
    without_run(ending, console, clock)
}
