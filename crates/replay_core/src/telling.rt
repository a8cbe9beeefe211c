//! A whole replay on one thread, with the moves of one hart.

ghost use Rattle.std.specs.Prelude.{◌≡◌, ◌≤◌, [], length, IfOk};
ghost use Rattle.replay_core.specs.Ends.{IsOutcomeOf};
ghost use Rattle.replay_core.specs.Stories.{IsStoryOf};

use crate::notes::Notes;
use crate::outcome::Outcome;
use crate::replaying::Replaying;
use elf_image::Image;
use flat_machine::Steps;
use log_order::Orderly;
use shared_types::NoMemory;
use std::alloc::Global;

/// What a replay tells of a hart, and what it came to.
#[derive(Debug, Drop)]
pub struct Told {
    pub steps: Steps,
    pub outcome: Outcome,
}

/// The moves of a hart from count `from` on, below count `to`, in the replay of a log over an image, and the outcome.
pub fn story(
    alloc: Global,
    orderly: Orderly,
    image: &Image,
    hart: u8,
    from: u64,
    to: u64,
) -> Result<Told, NoMemory>
    requires { orderly.pages ≡ image.now.pages }
    ensures outcome { IfOk result (λ told. IsOutcomeOf orderly image.now told.outcome) }
    ensures steps { IfOk result (λ told. IsStoryOf orderly image.now hart from to told.steps) }
    ensures nobody { length orderly.streams ≤ hart → IfOk result (λ told. told.steps ≡ []) }
{
    let mut replaying = Replaying::start(alloc, orderly, image)?;
    let mut notes = Notes::start(alloc, hart, from, to);
    replaying.run_out(&mut notes);
    let Notes { steps, missed, .. } = notes;
    if missed {
        return Err(NoMemory);
    }
    Ok(Told {
        steps: Steps::of(steps),
        outcome: replaying.outcome(),
    })
}

/// The outcome of the replay of a log over an image.
pub fn replay_one(alloc: Global, orderly: Orderly, image: &Image) -> Result<Outcome, NoMemory>
    requires { orderly.pages ≡ image.now.pages }
    ensures { IfOk result (IsOutcomeOf orderly image.now) }
{
    let replaying = Replaying::start(alloc, orderly, image)?;
    Ok(replaying.finish())
}
