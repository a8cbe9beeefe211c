//! Places that are marked one after another, and never unmarked.

ghost use Rattle.std.specs.Prelude.{ℕ, ◌≡◌, ◌+◌, ◌*◌, ◌≤◌, ◌<◌, ◌^◌, true, length, replicate, IfOk, slice_index};
ghost use Rattle.elf_image.specs.Marks.{is_marked, AddsMark};

use std::alloc::{AllocError, Global};
use std::marker::Model;

/// The marks that a word holds, each a bit.
pub const WORD: usize = 64;

/// Marks in words. From each word `next` leads to that word or to a later one, and all
/// words between are full: so a run of full words is left behind in a few steps, however long it is.
#[derive(Drop)]
pub struct Marks {
    words: Vec<u64>,
    next: Vec<usize>,
}

impl Model for Marks {
    ghost use Rattle.std.specs.Prelude.{ℕ, List};
    ghost use Rattle.elf_image.specs.Marks.{Skips};

    ghost Value = { List ℕ };

    ghost view = { λ m. m.words.items };

    ghost invariant = { λ m. Skips m.words.items m.next.items };
}

/// The numbers below a count.
fn numbers_below(alloc: Global, count: usize) -> Result<Vec<usize>, AllocError>
    ensures size { IfOk result (λ v. length v.items ≡ count) }
    ensures numbers { IfOk result (λ v. (k : ℕ) → k < count → slice_index v.items k ≡ k) }
{
    let mut numbers = Vec::with_capacity(alloc, count)?;
    for number in 0..count {
        numbers.push(number)?;
    }
    Ok(numbers)
}

impl Marks {
    /// So many words without a mark.
    pub fn none(alloc: Global, words: usize) -> Result<Marks, AllocError>
        requires { words + 1 < 2 ^ 64 }
        ensures { IfOk result (λ m. m ≡ replicate words 0) }
    {
        let next = numbers_below(alloc, words + 1)?;
        let words = Vec::from_elem(alloc, 0u64, words)?;
        Ok(Marks { words, next })
    }

    pub fn is_marked(&self, at: usize) -> bool
        requires { at < 64 * length self.now }
        ensures { result ≡ is_marked self.now at }
    {
        (self.words[at / WORD] >> (at % WORD)) & 1 == 1
    }

    /// Marks a place.
    pub fn mark(&mut self, at: usize)
        requires { at < 64 * length self.old }
        ensures { AddsMark self.old self.new at }
    {
        self.words[at / WORD] |= 1 << (at % WORD);
    }

    /// The first word, from one on, that isn't known to be full, or the number of words.
    pub fn skip(&mut self, from: usize) -> usize
        requires { from ≤ length self.old }
        ensures same { self.new ≡ self.old }
        ensures forward { from ≤ result }
        ensures within { result ≤ length self.old }
        ensures full { (at : ℕ) → 64 * from ≤ at → at < 64 * result → is_marked self.old at ≡ true }
    {
        let mut word = from;
        while self.next[word] != word {
            let over = self.next[self.next[word]];
            self.next[word] = over;
            word = over;
        }
        word
    }

    /// Lets a full word be skipped.
    pub fn settle(&mut self, word: usize)
        requires { word < length self.old }
        ensures { self.new ≡ self.old }
    {
        if self.words[word] == u64::MAX {
            self.next[word] = word + 1;
        }
    }
}
