//! The files that commands fetch.

ghost use Rattle.std.specs.Prelude.{◌≡◌, ◌↔◌, ℕ, List};
ghost use Rattle.outside.specs.Seen.{ToldBefore};
ghost use Rattle.revirt_tool.specs.Files.{longest, FileAs};
ghost use Rattle.revirt_tool.specs.Listings.{LogAs};

use crate::ending::{Ending, File};
use log_entry::Log;
use log_format::{ReadError, read_log};
use outside::{FetchError, Shelf};
use std::alloc::Global;

/// The most bytes of a file.
fn longest(file: File) -> u64
    ensures { result ≡ longest file }
{
    match file {
        File::Image => 67_108_864,
        File::Log => 536_870_912,
    }
}

/// The bytes of a file.
pub(crate) fn file_for<S: Shelf>(
    alloc: Global,
    file: File,
    name: &str,
    shelf: &mut S,
) -> Result<Vec<u8>, Ending>
    requires { S.has shelf.old name.now }
    ensures writing { (S.seen shelf.new).writing ≡ (S.seen shelf.old).writing }
    ensures tells { ToldBefore (S.seen shelf.old).tells (S.seen shelf.new).tells }
    ensures has { (n : List ℕ) → S.has shelf.new n ↔ S.has shelf.old n }
    ensures file { FileAs (λ v. v.items) file name.now (S.seen shelf.old) (S.seen shelf.new) result }
{
    match shelf.fetch(alloc, name, longest(file)) {
        Ok(bytes) => Ok(bytes),
        Err(FetchError::Failed) => Err(Ending::ShelfFault),
        Err(FetchError::TooLong) => Err(Ending::TooLong { file }),
        Err(FetchError::NoMemory) => Err(Ending::NoMemory),
    }
}

/// The log of this name.
pub(crate) fn log_for<S: Shelf>(alloc: Global, name: &str, shelf: &mut S) -> Result<Log, Ending>
    requires { S.has shelf.old name.now }
    ensures writing { (S.seen shelf.new).writing ≡ (S.seen shelf.old).writing }
    ensures tells { ToldBefore (S.seen shelf.old).tells (S.seen shelf.new).tells }
    ensures has { (n : List ℕ) → S.has shelf.new n ↔ S.has shelf.old n }
    ensures log { LogAs name.now (S.seen shelf.old) (S.seen shelf.new) result }
{
    let file = file_for(alloc, File::Log, name, shelf)?;
    match read_log(alloc, file.as_slice()) {
        Ok(log) => Ok(log),
        Err(ReadError::Malformed { offset, rule }) => Err(Ending::Malformed { offset, rule }),
        Err(ReadError::NoMemory) => Err(Ending::NoMemory),
    }
}
