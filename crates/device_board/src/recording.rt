//! What an access asks of console and clock when a run is recorded.

ghost use Rattle.std.specs.Prelude.{◌≡◌, false, IsTrue, IfOk, OnOk, OnErr};
ghost use Rattle.device_board.specs.Recording.{input_of, bytes_given, uses_console, WordHas};
ghost use Rattle.outside.specs.Causes.{HasCause};
ghost use Rattle.outside.specs.Seen.{ToldBefore, AnswersNothing, Takes, TakesNothing};

use outside::{Asked, Console, Failed};
use rv_words::{DeviceWord, Input};

fn input_of(asked: Asked) -> Input
    ensures { result ≡ input_of asked }
{
    match asked {
        Asked::Byte(byte) => Input::Byte(byte),
        Asked::Nothing | Asked::End => Input::Empty,
    }
}

/// The input of an access of a word, mtime being `mtime` and the clock's answer `now`.
pub(crate) fn recorded_input<C: Console>(
    console: &mut C,
    word: DeviceWord,
    store: Option<u32>,
    mtime: u64,
    now: u64,
) -> Result<Input, Failed>
    ensures input { IfOk result (WordHas word store mtime now (C.seen console.old) (C.seen console.new)) }
    ensures given { OnOk result (Takes (bytes_given word store) (C.seen console.old) (C.seen console.new)) }
    ensures alone { uses_console word store ≡ false → console.new ≡ console.old }
    ensures tells_answers { ToldBefore (C.seen console.old).tells_answers (C.seen console.new).tells_answers }
    ensures tells_taken { ToldBefore (C.seen console.old).tells_taken (C.seen console.new).tells_taken }
    ensures cause { HasCause (C.seen console.old).faults (C.seen console.new).faults result }
    ensures asks { OnErr result (IsTrue (uses_console word store)) }
    ensures no_answer { OnErr result (AnswersNothing (C.seen console.old) (C.seen console.new)) }
    ensures no_byte { OnErr result (TakesNothing (C.seen console.old) (C.seen console.new)) }
{
    match (word, store) {
        (DeviceWord::Rx, None) => match console.poll() {
            Ok(asked) => Ok(input_of(asked)),
            Err(failed) => Err(failed),
        },
        (DeviceWord::TimeLow | DeviceWord::TimeHigh, None) => Ok(Input::Time(now.max(mtime))),
        (DeviceWord::Tx, Some(value)) => match console.put((value & 0xff) as u8) {
            Ok(()) => Ok(Input::Nothing),
            Err(failed) => Err(failed),
        },
        _ => Ok(Input::Nothing),
    }
}
