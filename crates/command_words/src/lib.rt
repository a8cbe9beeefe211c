//! The words of the command line: `read_words` gives the job that they ask for, or the place of the first word that
//! can't stand there. specs/Grammar.antt has the grammar, specs/Tables.antt the options.
#![tactic(auto)]

ghost use Rattle.std.specs.Prelude.{◌≡◌, length, IfOk, Ok, Err};
ghost use Rattle.command_words.specs.Texts.{texts};
ghost use Rattle.command_words.specs.Behind.{ReadsWords};
ghost use Rattle.command_words.specs.Grammar.{job_of, asks_free_run};
ghost use Rattle.command_words.specs.Allowed.{ArePlaces, IsInRange, KeepsApart, SparesImage};
ghost use Rattle.command_words.specs.Laws.{PlacesAreFirst};

mod job;
mod limits;
mod other;
mod record;
mod replay;
#[cfg(test)]
mod tests;
mod two_names;
mod value;
mod word;

pub use job::{Job, Usage, Way};

/// The job that the words ask for.
fn job_of(words: &[String]) -> Result<Job, Usage>
    ensures job { ReadsWords (job_of (texts words.now)) result }
    ensures places { IfOk result (ArePlaces (length words.now)) }
    ensures ranges { IfOk result IsInRange }
{
    let [command, rest @ ..] = words else {
        return Err(Usage { place: 0 });
    };
    match command.as_str() {
        "record" => record::record_words(rest),
        "replay" => replay::replay_words(rest),
        "inspect" => other::inspect_words(rest),
        "trace" => other::trace_words(rest),
        "sample" => other::sample_words(rest),
        _ => Err(Usage { place: 0 }),
    }
}

/// The job that the words ask for, exactly where they are in the grammar.
#[tactic(auto, using(crate::proofs::Names::read_apart, crate::proofs::Names::read_sparing))]
pub fn read_words(words: &[String]) -> Result<Job, Usage>
    ensures job { ReadsWords (job_of (texts words.now)) result }
    ensures places { IfOk result (ArePlaces (length words.now)) }
    ensures ranges { IfOk result IsInRange }
    ensures names { IfOk result (KeepsApart (texts words.now)) }
    ensures image { IfOk result (SparesImage (texts words.now)) }
{
    job_of(words)
}

/// Whether the words are in the grammar and ask for a free run.
pub fn free_words(words: &[String]) -> bool
    ensures { result ≡ asks_free_run (texts words.now) }
{
    match job_of(words) {
        Ok(Job::Record { rounds, .. }) => !rounds,
        Ok(Job::Replay { way, .. }) => way == Way::Plain,
        _ => false,
    }
}

/// A refused word is the first that can't stand where it stands: words in the grammar begin with those before it, and
/// none with those up to it.
pub fn places_are_first()
    ensures { PlacesAreFirst }
{}
