ghost use Rattle.std.specs.Prelude.{◌≡◌, ◌+◌, ◌<◌, ◌≤◌, ◌^◌, [], ◌∷◌, length, string_bytes, IfOk, Ok, Err};
ghost use Rattle.command_words.specs.Texts.{texts};
ghost use Rattle.command_words.specs.Behind.{number_behind, name_behind, ReadsWords};

use crate::Usage;
use crate::word::{is_third_name, number_in};

/// The number of an option at `place`, `again` where the option was given before.
pub(crate) fn number_behind(
    again: bool,
    place: u64,
    words: &[String],
    least: u64,
    greatest: u64,
) -> Result<u64, Usage>
    requires { place < 2 ^ 63 }
    ensures value { ReadsWords (number_behind again place (texts words.now) least greatest) result }
    ensures range { IfOk result (λ n. (least ≤ n) × (n ≤ greatest)) }
{
    if again {
        return Err(Usage { place });
    }
    let [word, ..] = words else {
        return Err(Usage { place: place + 1 });
    };
    match number_in(least, greatest, word) {
        Some(number) => Ok(number),
        None => Err(Usage { place: place + 1 }),
    }
}

/// The place of the file's name behind an option at `place`, `again` where the option was given before.
pub(crate) fn name_behind(
    again: bool,
    place: u64,
    words: &[String],
    image: &String,
    log: &String,
) -> Result<u64, Usage>
    requires { place < 2 ^ 63 }
    ensures value { ReadsWords
        (name_behind again place (texts words.now) (string_bytes image.now ∷ string_bytes log.now ∷ [])) result }
    ensures there { IfOk result (λ n. n < place + 1 + length words.now) }
{
    if again {
        return Err(Usage { place });
    }
    match words {
        [word, ..] if is_third_name(word, image, log) => Ok(place + 1),
        _ => Err(Usage { place: place + 1 }),
    }
}
