//! What the words ask for, by the names in them.

ghost use Rattle.std.specs.Prelude.{◌≡◌, ◌<◌, length, Some, IfSome, IfOk, IfErr, Err, option_map};
ghost use Rattle.command_words.specs.Texts.{texts, word_at};
ghost use Rattle.command_words.specs.Grammar.{job_of};
ghost use Rattle.command_words.specs.Allowed.{ArePlaces, IsInRange, KeepsApart};
ghost use Rattle.revirt_tool.specs.Tasks.{task, task_of, task_by, replay_by, replayed, trace_by, traced, IsAllowed};

use crate::recording::Request;
use crate::replaying::ReplayRequest;
use crate::tracing::TraceRequest;
use command_words::{Job, Usage, Way, read_words};

/// What the words ask for.
#[derive(Clone, Copy, Drop)]
pub(crate) enum Command<'a> {
    Record(Request<'a>),
    Replay(ReplayRequest<'a>),
    Trace(TraceRequest<'a>),
    /// The listing of the log of this name.
    Inspect(&'a str),
    /// The sample of this number.
    Sample(u32),
}

/// The word at a place.
fn word(words: &[String], place: u64) -> &str
    requires { place < length words.now }
    ensures { result.now ≡ word_at (texts words.now) place }
{
    words[place as usize].as_str()
}

/// The word at a place, where there is one.
fn word_where(words: &[String], place: Option<u64>) -> Option<&str>
    requires { IfSome place (λ place. place < length words.now) }
    ensures { option_map (λ d. d.now) result ≡ option_map (word_at (texts words.now)) place }
{
    match place {
        Some(place) => Some(word(words, place)),
        None => None,
    }
}

/// A replay's files and way.
fn replay_by_name(
    words: &[String],
    image: u64,
    log: u64,
    dump: Option<u64>,
    way: Way,
) -> ReplayRequest
    requires image { image < length words.now }
    requires log { log < length words.now }
    requires dump { IfSome dump (λ place. place < length words.now) }
    ensures { replay_by result ≡ replayed (texts words.now) image log dump }
{
    ReplayRequest {
        image: word(words, image),
        log: word(words, log),
        dump: word_where(words, dump),
        way,
    }
}

/// A trace's files and moves.
fn trace_by_name(
    words: &[String],
    image: u64,
    log: u64,
    hart: u8,
    from: u64,
    to: u64,
) -> TraceRequest
    requires image { image < length words.now }
    requires log { log < length words.now }
    ensures { trace_by result ≡ traced (word_at (texts words.now) image) (word_at (texts words.now) log) hart from to }
{
    TraceRequest {
        image: word(words, image),
        log: word(words, log),
        hart,
        from,
        to,
    }
}

/// What a job asks for.
fn by_name(words: &[String], job: Job) -> Command
    requires places { ArePlaces (length words.now) job }
    requires ranges { IsInRange job }
    requires names { KeepsApart (texts words.now) job }
    ensures task { task_by result ≡ task_of (texts words.now) job }
    ensures allowed { IsAllowed result }
{
    match job {
        Job::Record {
            image,
            log,
            harts,
            pages,
            limit,
            log_limit,
            dump,
            rounds,
        } => Command::Record(Request {
            image: word(words, image),
            log: word(words, log),
            dump: word_where(words, dump),
            harts,
            pages,
            limit,
            log_limit,
            free: !rounds,
        }),
        Job::Replay {
            image,
            log,
            dump,
            way,
        } => Command::Replay(replay_by_name(words, image, log, dump, way)),
        Job::Trace {
            image,
            log,
            hart,
            from,
            to,
        } => Command::Trace(trace_by_name(words, image, log, hart, from, to)),
        Job::Inspect { log } => Command::Inspect(word(words, log)),
        Job::Sample { number } => Command::Sample(number),
    }
}

/// What the words ask for, where they are in the grammar.
pub(crate) fn command_of(words: &[String]) -> Result<Command, Usage>
    ensures task { IfOk result (λ c. task (texts words.now) ≡ Some (task_by c)) }
    ensures allowed { IfOk result IsAllowed }
    ensures usage { IfErr result (λ u. job_of (texts words.now) ≡ Err u.place) }
{
    let job = read_words(words)?;
    Ok(by_name(words, job))
}
