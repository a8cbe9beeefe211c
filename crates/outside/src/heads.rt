//! The rows of a folder, told by heads, so that a small file takes one head of two bytes.

ghost use Rattle.std.specs.Prelude.{◌≡◌, ◌+◌, ◌*◌, ◌^◌, ◌<◌, ◌≤◌, ◌++◌, ◌∷◌, [], length, drop, MatchOption, vec_capacity};
ghost use Rattle.outside.specs.Rows.{goes_on, rows, IsClosed, IsRow};

/// The lengths of a file's name and of the bytes that it holds.
#[derive(Clone, Copy, Drop)]
pub(crate) struct Row {
    pub(crate) name: usize,
    pub(crate) bytes: usize,
}

/// A part of the two lengths of a row. Where one of them is 255, the next head goes on with the same row.
#[derive(Clone, Copy, Drop)]
pub(crate) struct Head {
    name: u8,
    bytes: u8,
}

/// A row, and the place behind its heads.
#[derive(Clone, Copy, Drop)]
pub(crate) struct Next {
    pub(crate) row: Row,
    pub(crate) to: usize,
}

fn goes_on(head: Head) -> bool
    ensures value { result ≡ goes_on head }
    ensures small { (head.name ≤ 255) × (head.bytes ≤ 255) }
{
    head.name == 255 || head.bytes == 255
}

/// Puts the heads of a row behind those of the others.
pub(crate) fn push_row(heads: &mut Vec<Head>, row: Row)
    requires closed { IsClosed heads.old.items }
    requires room { 255 * (length heads.old.items + 1) + (row.name + row.bytes) ≤ 255 * vec_capacity heads.old }
    ensures rows { rows heads.new.items ≡ rows heads.old.items ++ row ∷ [] }
    ensures closed { IsClosed heads.new.items }
    ensures capacity { vec_capacity heads.new ≡ vec_capacity heads.old }
{
    let mut name = row.name;
    let mut bytes = row.bytes;
    while name >= 255 || bytes >= 255 {
        let head = Head {
            name: name.min(255) as u8,
            bytes: bytes.min(255) as u8,
        };
        heads.push_reserved(head);
        name -= head.name as usize;
        bytes -= head.bytes as usize;
    }
    heads.push_reserved(Head {
        name: name as u8,
        bytes: bytes as u8,
    });
}

/// The row whose heads begin at this place.
pub(crate) fn next_row(heads: &[Head], from: usize) -> Option<Next>
    requires within { from ≤ length heads.now }
    requires few { 255 * length heads.now < 2 ^ 64 }
    ensures { MatchOption result (rows (drop from heads.now) ≡ []) (λ n. IsRow heads.now from n.to n.row) }
{
    let mut name = 0usize;
    let mut bytes = 0usize;
    for at in from..heads.len() {
        let head = heads[at];
        name += head.name as usize;
        bytes += head.bytes as usize;
        if !goes_on(head) {
            let row = Row { name, bytes };
            return Some(Next { row, to: at + 1 });
        }
    }
    None
}
