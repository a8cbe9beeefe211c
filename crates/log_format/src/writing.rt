//! The bytes of a log as a whole.
ghost use Rattle.std.specs.Prelude.{◌≡◌, length, IfOk, IsTrue, Ok};
ghost use Rattle.log_entry.specs.Parts.{unit_of};
ghost use Rattle.log_entry.specs.Range.{in_range};
ghost use Rattle.log_entry.specs.Room.{log_without_room};
ghost use Rattle.log_entry.specs.Size.{size_of_log};
ghost use Rattle.log_format.specs.Grammar.{spelling, reading};

use crate::pieces::LogPieces;
use log_entry::Log;
use shared_types::NoMemory;
use std::alloc::Global;

/// The bytes of a log.
pub fn write_log(alloc: Global, l: &Log) -> Result<Vec<u8>, NoMemory>
    requires { IsTrue (in_range l.now) }
    ensures bytes { IfOk result (λ bytes. bytes.items ≡ spelling l.now) }
    ensures size { IfOk result (λ bytes. length bytes.items ≡ size_of_log (unit_of l.now) l.now.streams) }
    ensures again { IfOk result (λ bytes. reading bytes.items ≡ Ok (log_without_room l.now)) }
{
    let mut pieces = LogPieces::start(alloc, l)?;
    let mut out = Vec::new(alloc);
    while let Some(piece) = pieces.next_piece(l) {
        let Ok(()) = out.extend_from_slice(piece) else {
            return Err(NoMemory);
        };
    }
    Ok(out)
}
