//! How files are stored in memory.

ghost use Rattle.std.specs.Prelude.{◌≡◌, ◌+◌, ◌/◌, ◌^◌, ◌≤◌, ◌<◌, length, IsTrue, vec_capacity};
ghost use Rattle.outside.specs.Files.{are_apart};
ghost use Rattle.outside.specs.Rows.{sizes, files, rows, IsClosed};

use crate::heads::Head;

/// Names and bytes behind one another in one text, heads that tell the two lengths of each file, and the room.
#[derive(Drop)]
pub(crate) struct Folder {
    pub(crate) heads: Vec<Head>,
    pub(crate) text: Vec<u8>,
    pub(crate) room: usize,
    ghost sized: { sizes (rows heads.items) ≡ length text.items },
    ghost apart: { IsTrue (are_apart (files (rows heads.items) text.items)) },
    ghost closed: { IsClosed heads.items },
    ghost within: { length text.items ≤ room },
    ghost countable: { room < 2 ^ 50 },
    ghost text_reserved: { room ≤ vec_capacity text },
    ghost heads_reserved: { room + room / 255 + 2 ≤ vec_capacity heads },
    ghost few: { length heads.items ≤ room + room / 255 + 2 },
}
