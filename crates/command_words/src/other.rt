ghost use Rattle.std.specs.Prelude.{◌≡◌, ◌+◌, length, IfOk, Ok, Err};
ghost use Rattle.command_words.specs.Texts.{texts};
ghost use Rattle.command_words.specs.Behind.{ReadsWords};
ghost use Rattle.command_words.specs.Grammar.{inspect_of, trace_of, moves_of, sample_of};
ghost use Rattle.command_words.specs.Allowed.{ArePlaces, IsInRange};

use crate::limits::{LAST_SAMPLE, LONGEST_TRACE, MOST_HARTS, MOST_MOVES};
use crate::two_names::image_and_log;
use crate::word::{is_name, number_in};
use crate::{Job, Usage};

/// The job of the words behind `inspect`.
pub(crate) fn inspect_words(words: &[String]) -> Result<Job, Usage>
    ensures reads { ReadsWords (inspect_of (texts words.now)) result }
    ensures places { IfOk result (ArePlaces (1 + length words.now)) }
    ensures ranges { IfOk result IsInRange }
{
    match words {
        [] => Err(Usage { place: 1 }),
        [log, ..] if !is_name(log) => Err(Usage { place: 1 }),
        [_] => Ok(Job::Inspect { log: 1 }),
        _ => Err(Usage { place: 2 }),
    }
}

/// The job of the words behind `sample`.
pub(crate) fn sample_words(words: &[String]) -> Result<Job, Usage>
    ensures reads { ReadsWords (sample_of (texts words.now)) result }
    ensures places { IfOk result (ArePlaces (1 + length words.now)) }
    ensures ranges { IfOk result IsInRange }
{
    let [word, rest @ ..] = words else {
        return Err(Usage { place: 1 });
    };
    match number_in(0, LAST_SAMPLE, word) {
        None => Err(Usage { place: 1 }),
        Some(_) if !rest.is_empty() => Err(Usage { place: 2 }),
        Some(number) => Ok(Job::Sample {
            number: number as u32,
        }),
    }
}

/// The trace that the words behind IMAGE and LOG ask for: HART FROM TO.
fn moves_words(words: &[String]) -> Result<Job, Usage>
    ensures reads { ReadsWords (moves_of (texts words.now)) result }
    ensures places { IfOk result (ArePlaces 3) }
    ensures ranges { IfOk result IsInRange }
{
    let [hart, rest @ ..] = words else {
        return Err(Usage { place: 3 });
    };
    let Some(hart) = number_in(0, MOST_HARTS - 1, hart) else {
        return Err(Usage { place: 3 });
    };
    let [from, rest @ ..] = rest else {
        return Err(Usage { place: 4 });
    };
    let Some(from) = number_in(0, MOST_MOVES, from) else {
        return Err(Usage { place: 4 });
    };
    let [to, rest @ ..] = rest else {
        return Err(Usage { place: 5 });
    };
    let Some(to) = number_in(from, (from + LONGEST_TRACE).min(MOST_MOVES), to) else {
        return Err(Usage { place: 5 });
    };
    if !rest.is_empty() {
        return Err(Usage { place: 6 });
    }
    Ok(Job::Trace {
        image: 1,
        log: 2,
        hart: hart as u8,
        from,
        to,
    })
}

/// The job of the words behind `trace`.
pub(crate) fn trace_words(words: &[String]) -> Result<Job, Usage>
    ensures reads { ReadsWords (trace_of (texts words.now)) result }
    ensures places { IfOk result (ArePlaces (1 + length words.now)) }
    ensures ranges { IfOk result IsInRange }
{
    let (_, _, rest) = image_and_log(words)?;
    moves_words(rest)
}
