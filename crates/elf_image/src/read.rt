//! Reading an image: the rules by which a file is one, and the memory that it gives.

ghost use Rattle.std.specs.Prelude.{◌≡◌, ◌+◌, ◌*◌, ◌≤◌, ◌<◌, true, false, length, Some, None};
ghost use Rattle.std.specs.List.{list_any};
ghost use Rattle.rv_words.specs.Limits.{most_pages};
ghost use Rattle.elf_image.specs.Elf.{is_elf, table, headers, segments, segment_at};
ghost use Rattle.elf_image.specs.Rules.{Reads, broken_rule, table_is_broken, passes_file, leaves_memory, passes_memory, entry_is_broken};

use crate::elf::{HEADER_SIZE, SEGMENT_SIZE, Segment, half_at, is_elf, segment_at, word_at};
use crate::image::Image;
use crate::loading::{elf_image, raw_image};
use rv_words::PAGE_BYTES;
use std::alloc::Global;
use thiserror::Error;

/// Why a file is no image.
#[derive(Clone, Copy, Debug, PartialEq, Eq, Error)]
pub enum ImageError {
    /// The least rule that the file breaks, by its number in docs/board.md.
    #[error("rule I{0} is broken")]
    Refused(u8),
    #[error("no memory")]
    NoMemory,
}

/// The address at which memory begins.
pub const BASE: u32 = 0x8000_0000;

/// The image of a file, ELF32 or raw, for a board with so many pages of 4,096 bytes. Whatever the file claims,
/// it takes the memory of those pages, and while it reads an ELF file a quarter as much beside (two bits a byte);
/// and its time grows with the file's bytes and the memory's, not with one times the other.
pub fn read_image(alloc: Global, file: &[u8], pages: u16) -> Result<Image, ImageError>
    requires least { 1 ≤ pages }
    requires most { pages ≤ most_pages }
    ensures { Reads pages file.now result }
{
    if !is_elf(file) {
        return raw_image(alloc, file, pages);
    }
    match broken_rule(file, pages) {
        Some(rule) => Err(ImageError::Refused(rule)),
        None => elf_image(alloc, file, pages),
    }
}

/// Whether `size` bytes from an address on, one at least, don't all lie in memory.
fn leaves_memory(pages: u16, address: u32, size: u32) -> bool
    ensures { result ≡ leaves_memory pages address size }
{
    let end = u64::from(BASE) + u64::from(pages) * u64::from(PAGE_BYTES);
    address < BASE || u64::from(address) + u64::from(size) > end
}

fn entry_is_broken(pages: u16, at: u32) -> bool
    ensures { result ≡ entry_is_broken pages at }
{
    at % 4 != 0 || leaves_memory(pages, at, 4)
}

fn passes_file(size: usize, segment: Segment) -> bool
    ensures { result ≡ passes_file size segment }
{
    let end = u64::from(segment.offset) + u64::from(segment.file_size);
    segment.is_loadable()
        && (segment.file_size > segment.memory_size || (segment.file_size > 0 && end > size as u64))
}

fn passes_memory(pages: u16, segment: Segment) -> bool
    ensures { result ≡ passes_memory pages segment }
{
    segment.is_loadable()
        && segment.memory_size > 0
        && leaves_memory(pages, segment.address, segment.memory_size)
}

fn table_is_broken(file: &[u8]) -> bool
    requires { 52 ≤ length file.now }
    ensures { result ≡ table_is_broken file.now }
{
    let headers = half_at(file, 44);
    let end = u64::from(word_at(file, 28)) + u64::from(headers) * 32;
    headers != 0 && (half_at(file, 42) != 32 || end > file.len() as u64)
}

/// A program header of a file whose table is whole.
pub fn segment(file: &[u8], index: usize) -> Segment
    requires table { 52 ≤ length file.now }
    requires whole { table_is_broken file.now ≡ false }
    requires there { index < headers file.now }
    ensures { result ≡ segment_at file.now (table file.now + 32 * index) }
{
    segment_at(file, word_at(file, 28) as usize + SEGMENT_SIZE * index)
}

/// Whether a PT_LOAD has more in the file than in memory, or passes the file's end.
#[tactic(auto, using(crate::proofs::Headers::rest_step, crate::proofs::Headers::rest_end))]
fn any_passes_file(file: &[u8]) -> bool
    requires table { 52 ≤ length file.now }
    requires whole { table_is_broken file.now ≡ false }
    ensures { result ≡ list_any (passes_file (length file.now)) (segments file.now) }
{
    for index in 0..usize::from(half_at(file, 44)) {
        if passes_file(file.len(), segment(file, index)) {
            return true;
        }
    }
    false
}

/// Whether a PT_LOAD doesn't lie in memory.
#[tactic(auto, using(crate::proofs::Headers::rest_step, crate::proofs::Headers::rest_end))]
fn any_passes_memory(file: &[u8], pages: u16) -> bool
    requires table { 52 ≤ length file.now }
    requires whole { table_is_broken file.now ≡ false }
    ensures { result ≡ list_any (passes_memory pages) (segments file.now) }
{
    for index in 0..usize::from(half_at(file, 44)) {
        if passes_memory(pages, segment(file, index)) {
            return true;
        }
    }
    false
}

/// The least rule that an ELF file breaks.
fn broken_rule(file: &[u8], pages: u16) -> Option<u8>
    requires { is_elf file.now ≡ true }
    ensures { result ≡ broken_rule pages file.now }
{
    if file.len() < HEADER_SIZE {
        Some(1)
    } else if file[4] != 1 {
        Some(3)
    } else if file[5] != 1 {
        Some(4)
    } else if file[6] != 1 {
        Some(5)
    } else if half_at(file, 16) != 2 {
        Some(6)
    } else if half_at(file, 18) != 243 {
        Some(7)
    } else if word_at(file, 36) % 2 == 1 {
        Some(8)
    } else if table_is_broken(file) {
        Some(9)
    } else if any_passes_file(file) {
        Some(10)
    } else if any_passes_memory(file, pages) {
        Some(11)
    } else if entry_is_broken(pages, word_at(file, 24)) {
        Some(12)
    } else {
        None
    }
}
