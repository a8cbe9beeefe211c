//! The memory of a board, as one list of bytes.

ghost use Rattle.std.specs.Prelude.{◌≡◌, ◌+◌, ◌*◌, ◌/◌, ◌<◌, ◌≤◌, length};
ghost use Rattle.rv_words.specs.Addresses.{LiesInMemory};
ghost use Rattle.rv_words.specs.Memory.{word_at, low_bytes, put};
ghost use Rattle.rv_words.specs.Limits.{page_bytes};
ghost use Rattle.rv_hart.specs.Places.{IsSize, WritesInMemory};
ghost use Rattle.flat_machine.specs.Moves.{word_round, stored_by};

use rv_hart::Wrote;
use std::marker::Model;

#[derive(Debug, Drop)]
pub struct Ram {
    bytes: Vec<u8>,
}

impl Model for Ram {
    ghost use Rattle.std.specs.Prelude.{List, ℕ};

    ghost Value = { List ℕ };

    ghost view = { λ m. m.bytes.items };
}

impl Ram {
    pub fn of(bytes: Vec<u8>) -> Ram
        ensures { result ≡ bytes.items }
    {
        Ram { bytes }
    }

    pub fn into_bytes(self) -> Vec<u8>
        ensures { result.items ≡ self }
    {
        self.bytes
    }

    fn word_at(&self, place: usize) -> u32
        requires { place + 4 ≤ length self.now }
        ensures { result ≡ word_at self.now place }
    {
        let bytes = &self.bytes;
        u32::from_le_bytes([
            bytes[place],
            bytes[place + 1],
            bytes[place + 2],
            bytes[place + 3],
        ])
    }

    /// The aligned word round an address.
    pub fn word_round(&self, at: u32, pages: u16) -> u32
        requires size { length self.now ≡ page_bytes * pages }
        requires inside { LiesInMemory pages (at / 4 * 4) 4 }
        ensures { result ≡ word_round self.now at }
    {
        self.word_at((at / 4 * 4 - 0x8000_0000) as usize)
    }

    #[tactic(auto, using(rv_words::proofs::Memory::length_put))]
    fn put_word(&mut self, place: usize, value: u32)
        requires { place + 4 ≤ length self.old }
        ensures bytes { self.new ≡ put self.old place (low_bytes 4 value) }
        ensures size { length self.new ≡ length self.old }
    {
        self.bytes[place..place + 4].copy_from_slice(&value.to_le_bytes());
    }

    #[tactic(auto, using(rv_words::proofs::Memory::length_put))]
    fn put_half(&mut self, place: usize, value: u32)
        requires { place + 2 ≤ length self.old }
        ensures bytes { self.new ≡ put self.old place (low_bytes 2 value) }
        ensures size { length self.new ≡ length self.old }
    {
        self.bytes[place..place + 2].copy_from_slice(&value.to_le_bytes()[..2]);
    }

    #[tactic(auto, using(rv_words::proofs::Memory::length_put))]
    fn put_byte(&mut self, place: usize, value: u32)
        requires { place < length self.old }
        ensures bytes { self.new ≡ put self.old place (low_bytes 1 value) }
        ensures size { length self.new ≡ length self.old }
    {
        self.bytes[place..place + 1].copy_from_slice(&value.to_le_bytes()[..1]);
    }

    fn put(&mut self, place: usize, size: u8, value: u32)
        requires size { IsSize size }
        requires inside { place + size ≤ length self.old }
        ensures bytes { self.new ≡ put self.old place (low_bytes size value) }
        ensures size { length self.new ≡ length self.old }
    {
        match size {
            1 => self.put_byte(place, value),
            2 => self.put_half(place, value),
            4 => self.put_word(place, value),
            _ => unreachable!(),
        }
    }

    /// Writes what a move wrote.
    pub fn store(&mut self, wrote: Wrote, pages: u16)
        requires size { length self.old ≡ page_bytes * pages }
        requires inside { WritesInMemory pages wrote }
        ensures bytes { self.new ≡ stored_by self.old wrote }
        ensures size { length self.new ≡ length self.old }
    {
        if let Wrote::Bytes { at, size, value } = wrote {
            self.put((at - 0x8000_0000) as usize, size, value);
        }
    }
}
