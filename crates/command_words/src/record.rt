ghost use Rattle.std.specs.Prelude.{◌≡◌, ◌+◌, ◌<◌, ◌^◌, IsTrue, [], ◌∷◌, length, string_bytes, IfOk, Ok, Err};
ghost use Rattle.command_words.specs.Texts.{texts};
ghost use Rattle.command_words.specs.Options.{options, AnOption};
ghost use Rattle.command_words.specs.Behind.{ReadsWords, ReadsOption};
ghost use Rattle.command_words.specs.Tables.{record_option, no_record_option};
ghost use Rattle.command_words.specs.Grammar.{record_of};
ghost use Rattle.command_words.specs.Allowed.{IsBelow, AreInRange, ArePlaces, IsInRange};

use crate::limits::{LEAST_LOG_LIMIT, LONGEST_LOG, MOST_HARTS, MOST_MOVES, MOST_PAGES};
use crate::two_names::image_and_log;
use crate::value::{name_behind, number_behind};
use crate::{Job, Usage};

/// The options that were given.
#[derive(Clone, Copy)]
struct RecordOptions {
    harts: Option<u8>,
    pages: Option<u16>,
    limit: Option<u64>,
    log_limit: Option<u64>,
    dump: Option<u64>,
    rounds: bool,
}

/// The options with the one at `place`, and whether it has a value, which is the first of `words`.
fn record_option(
    mut given: RecordOptions,
    place: u64,
    option: &String,
    words: &[String],
    image: &String,
    log: &String,
) -> Result<(RecordOptions, bool), Usage>
    requires { place < 2 ^ 63 }
    ensures reads { ReadsOption record_option (string_bytes image.now ∷ string_bytes log.now ∷ []) given place
        (string_bytes option.now) (texts words.now) result }
    ensures room { IfOk result (λ r. IsTrue r.1 → 0 < length words.now) }
    ensures dump { IfOk result (λ r. IsBelow (place + 1 + length words.now) given.dump
        → IsBelow (place + 1 + length words.now) r.0.dump) }
    ensures ranges { IfOk result (λ r. AreInRange given → AreInRange r.0) }
{
    match option.as_str() {
        "--harts" => {
            given.harts = Some(
                number_behind(given.harts.is_some(), place, words, 1, MOST_HARTS)? as u8,
            );
        }
        "--pages" => {
            given.pages = Some(
                number_behind(given.pages.is_some(), place, words, 1, MOST_PAGES)? as u16,
            );
        }
        "--limit" => {
            given.limit = Some(number_behind(given.limit.is_some(), place, words, 0, MOST_MOVES)?);
        }
        "--log-limit" => {
            let again = given.log_limit.is_some();
            given.log_limit = Some(number_behind(
                again,
                place,
                words,
                LEAST_LOG_LIMIT,
                LONGEST_LOG,
            )?);
        }
        "--dump" => {
            given.dump = Some(name_behind(given.dump.is_some(), place, words, image, log)?);
        }
        "--rounds" if !given.rounds => {
            given.rounds = true;
            return Ok((given, false));
        }
        _ => return Err(Usage { place }),
    }
    Ok((given, true))
}

fn record_options(words: &[String], image: &String, log: &String) -> Result<RecordOptions, Usage>
    ensures reads { ReadsWords
        (options record_option (string_bytes image.now ∷ string_bytes log.now ∷ []) (AnOption no_record_option) 3
        (texts words.now)) result }
    ensures dump { IfOk result (λ given. IsBelow (3 + length words.now) given.dump) }
    ensures ranges { IfOk result (λ given. AreInRange given) }
{
    let mut given = RecordOptions {
        harts: None,
        pages: None,
        limit: None,
        log_limit: None,
        dump: None,
        rounds: false,
    };
    let mut place = 3;
    let mut rest = words;
    while let [option, tail @ ..] = rest {
        let (more, has_value) = record_option(given, place, option, tail, image, log)?;
        given = more;
        place += if has_value { 2 } else { 1 };
        rest = if has_value { &tail[1..] } else { tail };
    }
    Ok(given)
}

/// The job of the words behind `record`.
pub(crate) fn record_words(words: &[String]) -> Result<Job, Usage>
    ensures reads { ReadsWords (record_of (texts words.now)) result }
    ensures places { IfOk result (ArePlaces (1 + length words.now)) }
    ensures ranges { IfOk result IsInRange }
{
    let (image, log, rest) = image_and_log(words)?;
    let given = record_options(rest, image, log)?;
    Ok(Job::Record {
        image: 1,
        log: 2,
        harts: given.harts.unwrap_or(1),
        pages: given.pages.unwrap_or(4096),
        limit: given.limit.unwrap_or(10_000_000),
        log_limit: given.log_limit.unwrap_or(67_108_864),
        dump: given.dump,
        rounds: given.rounds,
    })
}
