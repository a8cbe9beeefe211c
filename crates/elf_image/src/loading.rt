//! The memory that a file gives.

ghost use Rattle.std.specs.Prelude.{◌≡◌, ◌+◌, ◌*◌, ◌≤◌, ◌<◌, ◌++◌, ◌-◌, false, true, length, None, IfOk, replicate};
ghost use Rattle.rv_words.specs.Limits.{most_pages};
ghost use Rattle.elf_image.specs.Image.{memory_size};
ghost use Rattle.std.specs.List.{list_any};
ghost use Rattle.elf_image.specs.Elf.{is_elf, segments};
ghost use Rattle.elf_image.specs.Layers.{IsBlank};
ghost use Rattle.elf_image.specs.Loading.{elf_memory};
ghost use Rattle.elf_image.specs.Rules.{Reads, broken_rule, table_is_broken, passes_file, passes_memory};

use crate::elf::{half_at, word_at};
use crate::image::Image;
use crate::layer::Layer;
use crate::read::{ImageError, segment};
use rv_words::PAGE_BYTES;
use std::alloc::{AllocError, Global};

/// These bytes, and zeros up to a size.
fn filled(alloc: Global, file: &[u8], size: usize) -> Result<Vec<u8>, AllocError>
    requires { length file.now ≤ size }
    ensures { IfOk result (λ v. v.items ≡ file.now ++ replicate (size - length file.now) 0) }
{
    let mut bytes = Vec::with_capacity(alloc, size)?;
    bytes.extend_from_slice(file)?;
    bytes.resize(size, 0)?;
    Ok(bytes)
}

/// The image of a file that is no ELF file.
pub fn raw_image(alloc: Global, file: &[u8], pages: u16) -> Result<Image, ImageError>
    requires least { 1 ≤ pages }
    requires most { pages ≤ most_pages }
    requires raw { is_elf file.now ≡ false }
    ensures { Reads pages file.now result }
{
    let size = usize::from(pages) * usize::from(PAGE_BYTES);
    if file.len() > size {
        return Err(ImageError::Refused(2));
    }
    match filled(alloc, file, size) {
        Ok(bytes) => Ok(Image::of(0x8000_0000, pages, bytes)),
        Err(_) => Err(ImageError::NoMemory),
    }
}

/// Lays the segments of an ELF file whose table and segments are whole, each under those behind it.
fn lay_all(layer: &mut Layer, pages: u16, file: &[u8])
    requires blank { IsBlank pages layer.old }
    requires table { 52 ≤ length file.now }
    requires whole { table_is_broken file.now ≡ false }
    requires in_file { list_any (passes_file (length file.now)) (segments file.now) ≡ false }
    requires in_memory { list_any (passes_memory pages) (segments file.now) ≡ false }
    ensures bytes { layer.new.bytes.items ≡ elf_memory pages file.now }
    ensures size { length layer.new.bytes.items ≡ memory_size pages }
{
    let mut index = usize::from(half_at(file, 44));
    while index > 0 {
        index -= 1;
        layer.lay(pages, file, segment(file, index));
    }
}

/// The image of an ELF file that breaks no rule.
pub fn elf_image(alloc: Global, file: &[u8], pages: u16) -> Result<Image, ImageError>
    requires least { 1 ≤ pages }
    requires most { pages ≤ most_pages }
    requires elf { is_elf file.now ≡ true }
    requires kept { broken_rule pages file.now ≡ None }
    ensures { Reads pages file.now result }
{
    match Layer::blank(alloc, pages) {
        Ok(mut layer) => {
            lay_all(&mut layer, pages, file);
            Ok(Image::of(word_at(file, 24), pages, layer.bytes))
        }
        Err(_) => Err(ImageError::NoMemory),
    }
}
