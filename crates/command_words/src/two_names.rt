ghost use Rattle.std.specs.Prelude.{◌≡◌, ◌+◌, true, [], ◌∷◌, length, string_bytes, IfOk, IfErr};
ghost use Rattle.command_words.specs.Texts.{texts, is_name};
ghost use Rattle.command_words.specs.Behind.{NamesStop};

use crate::Usage;
use crate::word::{is_name, is_second_name};

/// The names of the image and of the log, which are the first words behind a command, and the words behind them.
pub(crate) fn image_and_log(words: &[String]) -> Result<(&String, &String, &[String]), Usage>
    ensures named { IfOk result
        (λ n. texts words.now ≡ string_bytes n.0.now ∷ string_bytes n.1.now ∷ texts n.2.now) }
    ensures image { IfOk result (λ n. is_name [] (string_bytes n.0.now) ≡ true) }
    ensures log { IfOk result (λ n. is_name (string_bytes n.0.now ∷ []) (string_bytes n.1.now) ≡ true) }
    ensures behind { IfOk result (λ n. length n.2.now + 2 ≡ length words.now) }
    ensures refused { IfErr result (λ u. NamesStop (texts words.now) u.place) }
{
    let [image, rest @ ..] = words else {
        return Err(Usage { place: 1 });
    };
    if !is_name(image) {
        return Err(Usage { place: 1 });
    }
    let [log, rest @ ..] = rest else {
        return Err(Usage { place: 2 });
    };
    if !is_second_name(log, image) {
        return Err(Usage { place: 2 });
    }
    Ok((image, log, rest))
}
