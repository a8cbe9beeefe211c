//! A shelf in memory, whose calls fail where it is told.

ghost use Rattle.std.specs.Prelude.{◌≡◌, ◌≢◌, ◌≤◌, ◌↔◌, ℕ, List, [], true, not, length, IsTrue, OnOk, IfOk, IfSome, is_ok, is_some, option_map, Some, None, Err, if◌then◌else◌, refl};
ghost use Rattle.outside.specs.Causes.{HasCause};
ghost use Rattle.outside.specs.Fetching.{HasFetchCause, IsPast, has_failed};
ghost use Rattle.outside.specs.Numbered.{fails_next, after_call, GoesThrough};
ghost use Rattle.outside.specs.Files.{lookup, without};
ghost use Rattle.outside.specs.Shelves.{mem_shelf_at_start, used, appended, files_with, HasRoomFor, begins, appends, seen_of_shelf};

use crate::calls::Calls;
use crate::stored::Folder;
use crate::tray::Tray;
use crate::{Failed, FetchError, NoMemory, Shelf};
use std::alloc::Global;
use std::marker::Model;

/// A shelf in memory. All its memory is taken when it is made.
#[derive(Drop)]
pub struct MemShelf {
    folder: Folder,
    name: Tray,
    draft: Tray,
    writing: bool,
    calls: Calls,
}

impl Model for MemShelf {
    ghost use Rattle.outside.specs.Shelves as shelves;
    ghost use Rattle.outside.specs.Stored.{contents, IsStored};

    ghost Value = { shelves.MemShelfState };

    ghost view = { λ s. record {
      files = contents s.folder;
      draft = shelves.draft_of s.writing s.name.bytes s.draft.bytes;
      room = s.folder.room;
      calls = s.calls;
    } };

    ghost invariant = { λ s. IsStored s.folder s.writing s.name s.draft };
}

impl MemShelf {
    /// An empty shelf with room for so many bytes of names and what they hold, whose calls of these numbers, from
    /// 0, fail.
    pub fn start(alloc: Global, room: u64, fails: &[u64]) -> Result<MemShelf, NoMemory>
        ensures { IfOk result (λ s. s ≡ mem_shelf_at_start room fails.now) }
    {
        let folder = Folder::start(alloc, room)?;
        let name = Tray::start(alloc, room)?;
        let draft = Tray::start(alloc, room)?;
        let calls = Calls::start(alloc, fails)?;
        Ok(MemShelf {
            folder,
            name,
            draft,
            writing: false,
            calls,
        })
    }

    /// What the name holds.
    pub fn held(&self, name: &str) -> Option<&[u8]>
        ensures { option_map (λ r. r.now) result ≡ lookup name.now self.now.files }
    {
        self.folder.get(name.as_bytes())
    }

    /// Puts these bytes under this name, and says whether there was room. It is none of the numbered calls.
    pub fn hold(&mut self, name: &str, bytes: &[u8]) -> bool
        ensures fits { IsTrue result ↔ HasRoomFor self.old name.now bytes.now }
        ensures files { self.new ≡ record self.old { files = files_with result name.now bytes.now self.old.files } }
        ensures held { IsTrue result → lookup name.now self.new.files ≡ Some bytes.now }
        ensures others { (n : List ℕ) → n ≢ name.now → lookup n self.new.files ≡ lookup n self.old.files }
    {
        let name = name.as_bytes();
        let used = self.used() - self.folder.size(name);
        if self.folder.room() - used < name.len() + bytes.len() {
            return false;
        }
        self.folder.replace(name, bytes);
        true
    }

    /// The bytes in use.
    fn used(&self) -> usize
        ensures used { result ≡ used self.now }
        ensures within { result ≤ self.now.room }
    {
        self.folder.len() + self.name.as_slice().len() + self.draft.as_slice().len()
    }

    /// Ends the writing, and drops what was written.
    fn end(&mut self)
        ensures { self.new ≡ record self.old { draft = None } }
    {
        self.name.clear();
        self.draft.clear();
        self.writing = false;
    }
}

impl Shelf for MemShelf {
    ghost seen = { seen_of_shelf };

    ghost has = { λ _ _. Unit {0} };

    ghost drafts = { λ _ _. refl };

    fn fetch(&mut self, alloc: Global, name: &str, most: u64) -> Result<Vec<u8>, FetchError>
        ensures bytes { IfOk result (λ v. lookup name.now self.old.files ≡ Some v.items) }
        ensures within { IfOk result (λ v. length v.items ≤ most) }
        ensures listed { IsTrue (fails_next self.old.calls) → result ≡ Err FetchError.Failed }
        ensures absent { lookup name.now self.old.files ≡ None → result ≡ Err FetchError.Failed }
        ensures failed { result ≡ Err FetchError.Failed → GoesThrough self.old.calls
            → lookup name.now self.old.files ≡ None }
        ensures long { result ≡ Err FetchError.TooLong → IsPast most (lookup name.now self.old.files) }
        ensures past { IsPast most (lookup name.now self.old.files) → GoesThrough self.old.calls
            → result ≡ Err FetchError.TooLong }
        ensures calls { self.new ≡ record self.old { calls = after_call self.old.calls (has_failed result) } }
        ensures cause { HasFetchCause self.old.calls.faults self.new.calls.faults result }
    {
        if self.calls.next_fails() {
            let Failed = self.calls.fault();
            return Err(FetchError::Failed);
        }
        let result = self.folder.copy(alloc, name.as_bytes(), most);
        if let Err(FetchError::Failed) = result {
            let Failed = self.calls.fault();
        }
        result
    }

    fn begin(&mut self, name: &str) -> Result<(), Failed>
        ensures exact { is_ok result ≡ begins self.old name.now }
        ensures draft { self.new.draft ≡ (if is_ok result then Some (name.now, []) else None) }
        ensures files { self.new.files
            ≡ (if fails_next self.old.calls then self.old.files else without name.now self.old.files) }
        ensures others { (n : List ℕ) → n ≢ name.now → lookup n self.new.files ≡ lookup n self.old.files }
        ensures room { self.new.room ≡ self.old.room }
        ensures calls { self.new.calls ≡ after_call self.old.calls (not (is_ok result)) }
        ensures cause { HasCause self.old.calls.faults self.new.calls.faults result }
    {
        self.end();
        if self.calls.next_fails() {
            return Err(self.calls.fault());
        }
        let name = name.as_bytes();
        self.folder.remove(name);
        if self.folder.room() - self.folder.len() < name.len() {
            return Err(self.calls.fault());
        }
        self.name.put(name);
        self.writing = true;
        Ok(())
    }

    fn append(&mut self, bytes: &[u8]) -> Result<(), Failed>
        requires { is_some self.old.draft ≡ true }
        ensures exact { is_ok result ≡ appends self.old bytes.now }
        ensures draft { self.new.draft ≡ (if is_ok result then appended self.old.draft bytes.now else None) }
        ensures rest { self.new
            ≡ record self.old { draft = self.new.draft; calls = after_call self.old.calls (not (is_ok result)) } }
        ensures cause { HasCause self.old.calls.faults self.new.calls.faults result }
    {
        if self.calls.next_fails() || self.folder.room() - self.used() < bytes.len() {
            self.end();
            return Err(self.calls.fault());
        }
        self.draft.put(bytes);
        Ok(())
    }

    #[tactic(auto, using(crate::proofs::Names::total_without_most))]
    fn finish(&mut self) -> Result<(), Failed>
        ensures exact { is_ok result ≡ not (fails_next self.old.calls) }
        ensures files { IfSome self.old.draft (λ d. self.new.files ≡ files_with (is_ok result) d.0 d.1 self.old.files) }
        ensures kept { OnOk result (IfSome self.old.draft (λ d. lookup d.0 self.new.files ≡ Some d.1)) }
        ensures others { IfSome self.old.draft
            (λ d. (n : List ℕ) → n ≢ d.0 → lookup n self.new.files ≡ lookup n self.old.files) }
        ensures draft { self.new.draft ≡ None }
        ensures room { self.new.room ≡ self.old.room }
        ensures calls { self.new.calls ≡ after_call self.old.calls (not (is_ok result)) }
        ensures cause { HasCause self.old.calls.faults self.new.calls.faults result }
    {
        if self.calls.next_fails() {
            self.end();
            return Err(self.calls.fault());
        }
        self.folder
            .replace(self.name.as_slice(), self.draft.as_slice());
        self.name.clear();
        self.draft.clear();
        self.writing = false;
        Ok(())
    }
}
