//! A buffer of one piece, and numbers written behind its bytes.

ghost use Rattle.std.specs.Prelude.{◌≡◌, ◌≤◌, ◌+◌, ◌++◌, [], length, IfOk};
ghost use Rattle.std.specs.Int.{w8, w16, w32, w64, to_le_bytes};
ghost use Rattle.log_format.specs.Pieces.{piece_bytes};

use shared_types::NoMemory;
use std::alloc::Global;
use std::marker::Model;

/// The most bytes of a piece.
const PIECE_BYTES: usize = 65536;

/// The bytes of a piece so far. The memory of a whole one is taken at the start.
#[derive(Drop)]
pub(crate) struct Buffer {
    bytes: Vec<u8>,
}

impl Model for Buffer {
    ghost use Rattle.std.specs.Prelude.{ℕ, List, ◌≤◌, length, vec_capacity};
    ghost use Rattle.log_format.specs.Pieces.{piece_bytes};

    ghost Value = { List ℕ };

    ghost view = { λ b. b.bytes.items };

    ghost invariant = { λ b. (piece_bytes ≤ vec_capacity b.bytes) × (length b.bytes.items ≤ piece_bytes) };
}

impl Buffer {
    /// No bytes.
    pub(crate) fn start(alloc: Global) -> Result<Buffer, NoMemory>
        ensures { IfOk result (λ b. b ≡ []) }
    {
        match Vec::with_capacity(alloc, PIECE_BYTES) {
            Ok(bytes) => Ok(Buffer { bytes }),
            Err(_) => Err(NoMemory),
        }
    }

    /// The bytes.
    pub(crate) fn bytes(&self) -> &[u8]
        ensures bytes { result.now ≡ self.now }
        ensures short { length self.now ≤ piece_bytes }
    {
        self.bytes.as_slice()
    }

    /// How many bytes there is still room for.
    pub(crate) fn room(&self) -> u64
        ensures { length self.now + result ≡ piece_bytes }
    {
        (PIECE_BYTES - self.bytes.len()) as u64
    }

    /// Forgets the bytes, and keeps the memory.
    pub(crate) fn clear(&mut self)
        ensures { self.new ≡ [] }
    {
        self.bytes.clear();
    }

    /// Puts bytes behind the others.
    pub(crate) fn put(&mut self, bytes: &[u8])
        requires { length self.old + length bytes.now ≤ piece_bytes }
        ensures bytes { self.new ≡ self.old ++ bytes.now }
        ensures count { length self.new ≡ length self.old + length bytes.now }
    {
        let Ok(()) = self.bytes.extend_from_slice(bytes) else {
            unreachable!()
        };
    }

    pub(crate) fn put_u8(&mut self, number: u8)
        requires { length self.old + 1 ≤ piece_bytes }
        ensures bytes { self.new ≡ self.old ++ to_le_bytes w8 number }
        ensures count { length self.new ≡ length self.old + 1 }
    {
        self.put(&number.to_le_bytes());
    }

    pub(crate) fn put_u16(&mut self, number: u16)
        requires { length self.old + 2 ≤ piece_bytes }
        ensures bytes { self.new ≡ self.old ++ to_le_bytes w16 number }
        ensures count { length self.new ≡ length self.old + 2 }
    {
        self.put(&number.to_le_bytes());
    }

    pub(crate) fn put_u32(&mut self, number: u32)
        requires { length self.old + 4 ≤ piece_bytes }
        ensures bytes { self.new ≡ self.old ++ to_le_bytes w32 number }
        ensures count { length self.new ≡ length self.old + 4 }
    {
        self.put(&number.to_le_bytes());
    }

    pub(crate) fn put_u64(&mut self, number: u64)
        requires { length self.old + 8 ≤ piece_bytes }
        ensures bytes { self.new ≡ self.old ++ to_le_bytes w64 number }
        ensures count { length self.new ≡ length self.old + 8 }
    {
        self.put(&number.to_le_bytes());
    }
}
