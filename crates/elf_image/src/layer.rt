//! The segments of a file laid over one another, the last one on top.

ghost use Rattle.std.specs.Prelude.{◌≡◌, ◌+◌, ◌*◌, ◌≤◌, ◌<◌, true, false, length, slice_index, IfOk};
ghost use Rattle.rv_words.specs.Limits.{most_pages};
ghost use Rattle.elf_image.specs.Image.{memory_size};
ghost use Rattle.elf_image.specs.Elf.{is_loadable};
ghost use Rattle.elf_image.specs.Loading.{segment_bytes};
ghost use Rattle.elf_image.specs.Layers.{CanFill, Fills, IsBlank, start_of, end_of, given_at};
ghost use Rattle.elf_image.specs.Rules.{passes_file, passes_memory};

use crate::elf::Segment;
use crate::marks::{Marks, WORD};
use crate::read::BASE;
use rv_words::PAGE_BYTES;
use std::alloc::{AllocError, Global};

/// A memory that is written so that a byte once written stays, with a mark for each written byte.
#[derive(Drop)]
pub struct Layer {
    pub bytes: Vec<u8>,
    pub marks: Marks,
}

/// The byte that a segment gives its place `at`.
fn byte_of(file: &[u8], segment: Segment, at: usize) -> u8
    requires loadable { is_loadable segment ≡ true }
    requires kept { passes_file (length file.now) segment ≡ false }
    requires within { at < segment.memory_size }
    ensures { result ≡ slice_index (segment_bytes file.now segment) at }
{
    if at < segment.file_size as usize {
        file[segment.offset as usize + at]
    } else {
        0
    }
}

impl Layer {
    /// A memory of zeros, none of them written: it takes two bits beside each byte.
    pub fn blank(alloc: Global, pages: u16) -> Result<Layer, AllocError>
        requires { pages ≤ most_pages }
        ensures { IfOk result (IsBlank pages) }
    {
        Ok(Layer {
            bytes: Vec::from_elem(alloc, 0u8, usize::from(pages) * usize::from(PAGE_BYTES))?,
            marks: Marks::none(alloc, usize::from(pages) * usize::from(PAGE_BYTES) / WORD)?,
        })
    }

    /// Writes a byte that isn't written yet.
    fn write(&mut self, at: usize, byte: u8)
        requires bytes { at < length self.old.bytes.items }
        requires marks { length self.old.bytes.items ≡ 64 * length self.old.marks }
        ensures { Fills (λ _. byte) at (at + 1) self.old self.new }
    {
        if !self.marks.is_marked(at) {
            self.marks.mark(at);
            self.bytes[at] = byte;
        }
    }

    /// Writes a segment's bytes from one place to another.
    fn fill(&mut self, file: &[u8], segment: Segment, from: usize, to: usize)
        requires { CanFill file.now segment from to self.old }
        ensures { Fills (given_at file.now segment) from to self.old self.new }
    {
        let start = (segment.address - BASE) as usize;
        for at in from..to {
            self.write(at, byte_of(file, segment, at - start));
        }
    }

    /// Writes a segment's bytes into the next word of places that aren't all written, and tells where it stopped.
    fn fill_some(&mut self, file: &[u8], segment: Segment, from: usize, to: usize) -> usize
        requires can { CanFill file.now segment from to self.old }
        requires some { from < to }
        ensures forward { from < result }
        ensures within { result ≤ to }
        ensures fills { Fills (given_at file.now segment) from result self.old self.new }
    {
        let word = self.marks.skip(from / WORD);
        let first = if word * WORD > from {
            word * WORD
        } else {
            from
        };
        if first >= to {
            return to;
        }
        let last = if word * WORD + WORD < to {
            word * WORD + WORD
        } else {
            to
        };
        self.fill(file, segment, first, last);
        self.marks.settle(word);
        last
    }

    /// Lays a segment under what is written.
    pub fn lay(&mut self, pages: u16, file: &[u8], segment: Segment)
        requires marks { length self.old.bytes.items ≡ 64 * length self.old.marks }
        requires size { length self.old.bytes.items ≡ memory_size pages }
        requires in_file { passes_file (length file.now) segment ≡ false }
        requires in_memory { passes_memory pages segment ≡ false }
        ensures { Fills (given_at file.now segment) (start_of segment) (end_of segment) self.old self.new }
    {
        if !segment.is_loadable() || segment.memory_size == 0 {
            return;
        }
        let mut at = (segment.address - BASE) as usize;
        let end = at + segment.memory_size as usize;
        while at < end {
            at = self.fill_some(file, segment, at, end);
        }
    }
}
