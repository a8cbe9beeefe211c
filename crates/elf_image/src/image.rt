//! An image of a board's memory.

ghost use Rattle.std.specs.Prelude.{◌≡◌, ◌%◌, ◌≤◌, ◌+◌, length};
ghost use Rattle.rv_words.specs.Limits.{page_bytes};
ghost use Rattle.elf_image.specs.Image.{IsWhole, start_digest, memory_size};

use rv_words::PAGE_BYTES;
use sha2::{Digest, Sha256};
use std::marker::Model;

/// The memory that a board starts with, and the address at which its harts start.
#[derive(Debug, Drop)]
pub struct Image {
    entry: u32,
    pages: u16,
    unit: u16,
    bytes: Vec<u8>,
}

impl Model for Image {
    ghost use Rattle.elf_image.specs.Image as image;
    ghost use Rattle.elf_image.specs.Image.{IsWhole};

    ghost Value = { image.Image };

    ghost view = { λ i. record { entry = i.entry; pages = i.pages; unit = i.unit; bytes = i.bytes.items } };

    ghost invariant = { λ i. IsWhole (record {
      entry = i.entry;
      pages = i.pages;
      unit = i.unit;
      bytes = i.bytes.items;
    }) };
}

impl Image {
    /// The image of these bytes.
    pub(crate) fn of(entry: u32, pages: u16, bytes: Vec<u8>) -> Image
        requires { IsWhole (record { entry = entry; pages = pages; unit = page_bytes; bytes = bytes.items }) }
        ensures { result ≡ record { entry = entry; pages = pages; unit = page_bytes; bytes = bytes.items } }
    {
        Image {
            entry,
            pages,
            unit: PAGE_BYTES,
            bytes,
        }
    }

    /// Where the harts start: a multiple of 4 in memory.
    pub fn entry(&self) -> u32
        ensures entry { result ≡ self.now.entry }
        ensures whole { IsWhole self.now }
    {
        self.entry
    }

    /// The size of the memory, in pages of 4,096 bytes.
    pub fn pages(&self) -> u16
        ensures pages { result ≡ self.now.pages }
        ensures whole { IsWhole self.now }
    {
        self.pages
    }

    /// The number of bytes that are owned together.
    pub fn unit(&self) -> u16
        ensures { result ≡ self.now.unit }
    {
        self.unit
    }

    /// The memory's bytes.
    pub fn bytes(&self) -> &[u8]
        ensures bytes { result.now ≡ self.now.bytes }
        ensures whole { IsWhole self.now }
    {
        &self.bytes
    }

    /// The start digest, by which a log names the image that it was recorded from.
    pub fn digest(&self) -> [u8; 32]
        ensures { result ≡ start_digest self.now }
    {
        let mut hasher = Sha256::new();
        let entry = self.entry.to_le_bytes();
        hasher.update(&entry);
        hasher.update(self.bytes());
        hasher.finalize()
    }
}
