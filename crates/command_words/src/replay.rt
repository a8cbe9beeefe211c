ghost use Rattle.std.specs.Prelude.{◌≡◌, ◌+◌, ◌<◌, ◌^◌, IsTrue, [], ◌∷◌, length, string_bytes, IfOk, Ok, Err};
ghost use Rattle.command_words.specs.Texts.{texts};
ghost use Rattle.command_words.specs.Options.{options, AnOption};
ghost use Rattle.command_words.specs.Behind.{ReadsWords, ReadsOption};
ghost use Rattle.command_words.specs.Tables.{replay_option, no_replay_option};
ghost use Rattle.command_words.specs.Grammar.{replay_of};
ghost use Rattle.command_words.specs.Allowed.{IsBelow, ArePlaces, IsInRange};

use crate::two_names::image_and_log;
use crate::value::name_behind;
use crate::{Job, Usage, Way};

/// The options that were given.
#[derive(Clone, Copy)]
struct ReplayOptions {
    dump: Option<u64>,
    way: Option<Way>,
}

/// The options with the one at `place`, and whether it has a value, which is the first of `words`.
fn replay_option(
    given: ReplayOptions,
    place: u64,
    option: &String,
    words: &[String],
    image: &String,
    log: &String,
) -> Result<(ReplayOptions, bool), Usage>
    requires { place < 2 ^ 63 }
    ensures reads { ReadsOption replay_option (string_bytes image.now ∷ string_bytes log.now ∷ []) given place
        (string_bytes option.now) (texts words.now) result }
    ensures room { IfOk result (λ r. IsTrue r.1 → 0 < length words.now) }
    ensures dump { IfOk result (λ r. IsBelow (place + 1 + length words.now) given.dump
        → IsBelow (place + 1 + length words.now) r.0.dump) }
{
    match option.as_str() {
        "--dump" => {
            let dump = name_behind(given.dump.is_some(), place, words, image, log)?;
            Ok((
                ReplayOptions {
                    dump: Some(dump),
                    ..given
                },
                true,
            ))
        }
        "--one" if given.way.is_none() => Ok((
            ReplayOptions {
                way: Some(Way::One),
                ..given
            },
            false,
        )),
        "--rounds" if given.way.is_none() => Ok((
            ReplayOptions {
                way: Some(Way::Rounds),
                ..given
            },
            false,
        )),
        _ => Err(Usage { place }),
    }
}

fn replay_options(words: &[String], image: &String, log: &String) -> Result<ReplayOptions, Usage>
    ensures reads { ReadsWords
        (options replay_option (string_bytes image.now ∷ string_bytes log.now ∷ []) (AnOption no_replay_option) 3
        (texts words.now)) result }
    ensures dump { IfOk result (λ given. IsBelow (3 + length words.now) given.dump) }
{
    let mut given = ReplayOptions {
        dump: None,
        way: None,
    };
    let mut place = 3;
    let mut rest = words;
    while let [option, tail @ ..] = rest {
        let (more, has_value) = replay_option(given, place, option, tail, image, log)?;
        given = more;
        place += if has_value { 2 } else { 1 };
        rest = if has_value { &tail[1..] } else { tail };
    }
    Ok(given)
}

/// The job of the words behind `replay`.
pub(crate) fn replay_words(words: &[String]) -> Result<Job, Usage>
    ensures reads { ReadsWords (replay_of (texts words.now)) result }
    ensures places { IfOk result (ArePlaces (1 + length words.now)) }
    ensures ranges { IfOk result IsInRange }
{
    let (image, log, rest) = image_and_log(words)?;
    let given = replay_options(rest, image, log)?;
    Ok(Job::Replay {
        image: 1,
        log: 2,
        dump: given.dump,
        way: given.way.unwrap_or(Way::Plain),
    })
}
