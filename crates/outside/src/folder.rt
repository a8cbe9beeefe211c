//! Files in memory, in room that is taken at once: names and bytes stand behind one another in one text, and
//! heads tell the two lengths of each file.

ghost use Rattle.std.specs.Prelude.{◌≡◌, ◌≢◌, ◌++◌, ◌+◌, ◌-◌, ◌*◌, ◌/◌, ◌^◌, ◌≤◌, ◌<◌, ◌∷◌, ℕ, List, [], length, take, drop, IfOk, IsTrue, MatchOption, Some, None, Option, option_map, Err, ◌↔◌, vec_len, vec_capacity};
ghost use Rattle.outside.specs.Files.{lookup, without, replaced, are_apart, total};
ghost use Rattle.outside.specs.Fetching.{IsPast};
ghost use Rattle.outside.specs.Rows.{sizes, files, rows, IsClosed, IsPlace};
ghost use Rattle.outside.specs.Stored.{contents};

use crate::heads::{Head, Row, next_row, push_row};
use crate::stored::Folder;
use crate::{FetchError, NoMemory};
use std::alloc::Global;

/// More bytes than a machine has. Below it the heads can be counted.
const TOO_MUCH: u64 = 1 << 50;

/// Where a file stands: its heads, its first byte, and its row.
#[derive(Clone, Copy, Drop)]
struct Place {
    from: usize,
    to: usize,
    at: usize,
    row: Row,
}

/// Takes what stands between two places out.
fn cut<T: Copy>(items: &mut Vec<T>, from: usize, to: usize)
    requires order { from ≤ to }
    requires within { to ≤ length items.old.items }
    ensures items { items.new.items ≡ take from items.old.items ++ drop to items.old.items }
    ensures capacity { vec_capacity items.new ≡ vec_capacity items.old }
{
    let left = items.len() - (to - from);
    items.copy_within(to.., from);
    items.truncate(left);
}

/// Puts bytes behind a text that has the room.
fn put(text: &mut Vec<u8>, bytes: &[u8])
    requires { length text.old.items + length bytes.now ≤ vec_capacity text.old }
    ensures items { text.new.items ≡ text.old.items ++ bytes.now }
    ensures capacity { vec_capacity text.old ≤ vec_capacity text.new }
{
    let _ = text.extend_from_slice(bytes);
}

/// Where the file of this name stands.
fn find(heads: &[Head], text: &[u8], name: &[u8]) -> Option<Place>
    requires sized { sizes (rows heads.now) ≡ length text.now }
    requires few { 255 * length heads.now < 2 ^ 64 }
    ensures { MatchOption result (lookup name.now (files (rows heads.now) text.now) ≡ None)
        (λ p. IsPlace name.now heads.now text.now p.from p.to p.at p.row) }
{
    let mut from = 0usize;
    let mut at = 0usize;
    while let Some(next) = next_row(heads, from) {
        let end = at + next.row.name;
        if &text[at..end] == name {
            return Some(Place {
                from,
                to: next.to,
                at,
                row: next.row,
            });
        }
        at = end + next.row.bytes;
        from = next.to;
    }
    None
}

impl Folder {
    pub(crate) fn start(alloc: Global, room: u64) -> Result<Folder, NoMemory>
        ensures files { IfOk result (λ f. contents f ≡ []) }
        ensures room { IfOk result (λ f. f.room ≡ room) }
    {
        if room >= TOO_MUCH {
            return Err(NoMemory);
        }
        let room = room as usize;
        let Ok(text) = Vec::with_capacity(alloc, room) else {
            return Err(NoMemory);
        };
        // A head for each file, of which one alone may have no byte, and one for each 255 bytes.
        match Vec::with_capacity(alloc, room + room / 255 + 2) {
            Ok(heads) => Ok(Folder { heads, text, room }),
            Err(_) => Err(NoMemory),
        }
    }

    /// The bytes of the names and of what they hold.
    pub(crate) fn len(&self) -> usize
        ensures total { result ≡ total (contents self.now) }
        ensures within { result ≤ self.now.room }
    {
        self.text.len()
    }

    pub(crate) fn room(&self) -> usize
        ensures { result ≡ self.now.room }
    {
        self.room
    }

    /// What the file of this name holds.
    pub(crate) fn get(&self, name: &[u8]) -> Option<&[u8]>
        ensures { option_map (λ r. r.now) result ≡ lookup name.now (contents self.now) }
    {
        match find(self.heads.as_slice(), self.text.as_slice(), name) {
            Some(place) => {
                let from = place.at + place.row.name;
                Some(&self.text.as_slice()[from..from + place.row.bytes])
            }
            None => None,
        }
    }

    /// A copy of what the file of this name holds, where it isn't longer than this.
    pub(crate) fn copy(&self, alloc: Global, name: &[u8], most: u64) -> Result<Vec<u8>, FetchError>
        ensures bytes { IfOk result (λ v. lookup name.now (contents self.now) ≡ Some v.items) }
        ensures within { IfOk result (λ v. length v.items ≤ most) }
        ensures absent { (result ≡ Err FetchError.Failed) ↔ (lookup name.now (contents self.now) ≡ None) }
        ensures long { (result ≡ Err FetchError.TooLong) ↔ IsPast most (lookup name.now (contents self.now)) }
    {
        match self.get(name) {
            None => Err(FetchError::Failed),
            Some(bytes) => {
                if bytes.len() as u64 > most {
                    return Err(FetchError::TooLong);
                }
                match Vec::from_slice(alloc, bytes) {
                    Ok(copy) => Ok(copy),
                    Err(_) => Err(FetchError::NoMemory),
                }
            }
        }
    }

    /// The bytes of this name and of what it holds, 0 where there is no such file.
    pub(crate) fn size(&self, name: &[u8]) -> usize
        ensures { total (without name.now (contents self.now)) + result ≡ total (contents self.now) }
    {
        match find(self.heads.as_slice(), self.text.as_slice(), name) {
            Some(place) => place.row.name + place.row.bytes,
            None => 0,
        }
    }

    /// Takes the file of this name away.
    pub(crate) fn remove(&mut self, name: &[u8])
        ensures files { contents self.new ≡ without name.now (contents self.old) }
        ensures gone { lookup name.now (contents self.new) ≡ None }
        ensures others { (n : List ℕ) → n ≢ name.now → lookup n (contents self.new) ≡ lookup n (contents self.old) }
        ensures total { total (contents self.new) ≤ total (contents self.old) }
        ensures room { self.new.room ≡ self.old.room }
    {
        if let Some(place) = find(self.heads.as_slice(), self.text.as_slice(), name) {
            let end = place.at + (place.row.name + place.row.bytes);
            cut(&mut self.text, place.at, end);
            cut(&mut self.heads, place.from, place.to);
        }
    }

    /// Puts a file in the place of the one of this name.
    pub(crate) fn replace(&mut self, name: &[u8], bytes: &[u8])
        requires { total (without name.now (contents self.old)) + (length name.now + length bytes.now) ≤ self.old.room }
        ensures files { contents self.new ≡ replaced name.now bytes.now (contents self.old) }
        ensures held { lookup name.now (contents self.new) ≡ Some bytes.now }
        ensures others { (n : List ℕ) → n ≢ name.now → lookup n (contents self.new) ≡ lookup n (contents self.old) }
        ensures total { total (contents self.new)
            ≡ total (without name.now (contents self.old)) + (length name.now + length bytes.now) }
        ensures room { self.new.room ≡ self.old.room }
    {
        self.remove(name);
        self.add(name, bytes);
    }

    /// Puts a file behind the others.
    fn add(&mut self, name: &[u8], bytes: &[u8])
        requires absent { lookup name.now (contents self.old) ≡ None }
        requires room { total (contents self.old) + (length name.now + length bytes.now) ≤ self.old.room }
        ensures files { contents self.new ≡ contents self.old ++ (name.now, bytes.now) ∷ [] }
        ensures held { lookup name.now (contents self.new) ≡ Some bytes.now }
        ensures others { (n : List ℕ) → n ≢ name.now → lookup n (contents self.new) ≡ lookup n (contents self.old) }
        ensures total { total (contents self.new) ≡ total (contents self.old) + (length name.now + length bytes.now) }
        ensures room { self.new.room ≡ self.old.room }
    {
        let row = Row {
            name: name.len(),
            bytes: bytes.len(),
        };
        push_row(&mut self.heads, row);
        put(&mut self.text, name);
        put(&mut self.text, bytes);
    }
}
