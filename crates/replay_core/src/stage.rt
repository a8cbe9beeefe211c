//! A replay, one item of any hart after the other.

ghost use Rattle.std.specs.Prelude.{◌≡◌, ◌<◌, length, IfOk};
ghost use Rattle.replay_core.specs.Items.{IsStill};
ghost use Rattle.replay_core.specs.Standing.{Begins, AnswersAt, LeadsOn, IsSame, CanGoNowhere, ComesTo};

use crate::outcome::Outcome;
use crate::replaying::Replaying;
use crate::went::Went;
use elf_image::Image;
use log_order::Orderly;
use shared_types::NoMemory;
use std::alloc::Global;
use std::marker::Model;

/// A replay: its board, and the run of each hart.
#[derive(Drop)]
pub struct Stage {
    pub(crate) replaying: Replaying,
}

impl Model for Stage {
    ghost use Rattle.replay_core.specs.declared.replaying.Replaying.{Replaying};

    ghost Value = { Replaying };

    ghost use Rattle.replay_core.specs.Standing.{IsSomewhere};

    ghost view = { λ s. s.replaying };

    ghost invariant = { λ s. IsSomewhere s.replaying };
}

impl Stage {
    /// The replay of an orderly log over an image, before any item. It takes all memory that the replay needs.
    pub fn start(alloc: Global, orderly: Orderly, image: &Image) -> Result<Stage, NoMemory>
        requires { orderly.pages ≡ image.now.pages }
        ensures { IfOk result (Begins orderly image.now) }
    {
        let replaying = Replaying::start(alloc, orderly, image)?;
        Ok(Stage { replaying })
    }

    /// One item of a hart. Where it isn't made nothing changes.
    pub fn go(&mut self, hart: u8) -> Went
        requires { hart < length self.old.board.log.streams }
        ensures answer { AnswersAt self.old hart result }
        ensures at { LeadsOn self.old self.new hart }
        ensures still { IsStill result → IsSame self.old self.new }
        ensures log { self.new.board.log ≡ self.old.board.log }
    {
        self.replaying.go(hart)
    }

    /// The harts go on until none can: what the replay comes to. It takes no memory.
    pub fn finish(self) -> Outcome
        ensures { ComesTo self result }
    {
        let Stage { replaying } = self;
        replaying.finish()
    }

    /// What the replay came to. It takes no memory.
    pub fn outcome(self) -> Outcome
        requires { CanGoNowhere self }
        ensures { ComesTo self result }
    {
        let Stage { replaying } = self;
        replaying.outcome()
    }
}
