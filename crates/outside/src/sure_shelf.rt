//! A shelf in memory that never fails.

ghost use Rattle.std.specs.Prelude.{◌≡◌, ◌≢◌, ◌+◌, ◌≤◌, ◌↔◌, ℕ, List, [], Bool, true, false, length, IsTrue, IsSome, IfOk, Option, Some, None, if◌then◌else◌, IsOk, Err, Result};
ghost use Rattle.outside.specs.Files.{lookup, without, total};
ghost use Rattle.outside.specs.Shelves.{files_with};
ghost use Rattle.outside.specs.Fetching.{IsPast};
ghost use Rattle.std.proofs.Common.{rules};

use crate::stored::Folder;
use crate::{Failed, FetchError, NoMemory, Shelf};
use std::alloc::Global;
use std::marker::Model;

/// A shelf that never fails. It drops what is written, and tells neither that nor what a name holds.
#[derive(Drop)]
pub struct SureShelf {
    folder: Folder,
    writing: bool,
}

impl Model for SureShelf {
    ghost use Rattle.outside.specs.Shelves as shelves;
    ghost use Rattle.outside.specs.Stored.{contents};

    ghost Value = { shelves.SureShelfState };

    ghost view = { λ s. record { files = contents s.folder; writing = s.writing; room = s.folder.room } };
}

impl SureShelf {
    /// An empty shelf with room for so many bytes of names and what they hold.
    pub fn start(alloc: Global, room: u64) -> Result<SureShelf, NoMemory>
        ensures { IfOk result (λ s. s ≡ record { files = []; writing = false; room = room }) }
    {
        Ok(SureShelf {
            folder: Folder::start(alloc, room)?,
            writing: false,
        })
    }

    /// Puts these bytes under this name, and says whether there was room.
    pub fn hold(&mut self, name: &str, bytes: &[u8]) -> bool
        ensures fits { IsTrue result
            ↔ (total (without name.now self.old.files) + (length name.now + length bytes.now) ≤ self.old.room) }
        ensures files { self.new ≡ record self.old { files = files_with result name.now bytes.now self.old.files } }
        ensures held { IsTrue result → lookup name.now self.new.files ≡ Some bytes.now }
        ensures others { (n : List ℕ) → n ≢ name.now → lookup n self.new.files ≡ lookup n self.old.files }
    {
        let name = name.as_bytes();
        let used = self.folder.len() - self.folder.size(name);
        if self.folder.room() - used < name.len() + bytes.len() {
            return false;
        }
        self.folder.replace(name, bytes);
        true
    }
}

impl Shelf for SureShelf {
    ghost seen = { λ s. record { tells = false; held = λ _. None; draft = None; writing = s.writing; faults = 0 } };

    ghost has = { λ s n. IsSome (lookup n s.files) };

    ghost drafts = { λ _ h. Prim.search rules };

    fn fetch(&mut self, alloc: Global, name: &str, most: u64) -> Result<Vec<u8>, FetchError>
        requires { IsSome (lookup name.now self.old.files) }
        ensures bytes { IfOk result (λ v. lookup name.now self.old.files ≡ Some v.items) }
        ensures within { IfOk result (λ v. length v.items ≤ most) }
        ensures past { IsPast most (lookup name.now self.old.files) ↔ (result ≡ Err FetchError.TooLong) }
        ensures sure { result ≢ Err FetchError.Failed }
        ensures as_before { self.new ≡ self.old }
    {
        self.folder.copy(alloc, name.as_bytes(), most)
    }

    fn begin(&mut self, _name: &str) -> Result<(), Failed>
        ensures answer { IsOk result }
        ensures writing { self.new ≡ record self.old { writing = true } }
    {
        self.writing = true;
        Ok(())
    }

    fn append(&mut self, _bytes: &[u8]) -> Result<(), Failed>
        ensures answer { IsOk result }
        ensures as_before { self.new ≡ self.old }
    {
        Ok(())
    }

    fn finish(&mut self) -> Result<(), Failed>
        ensures answer { IsOk result }
        ensures writing { self.new ≡ record self.old { writing = false } }
    {
        self.writing = false;
        Ok(())
    }
}
