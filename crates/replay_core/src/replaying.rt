//! A replay's board and the runs of its harts, one item after the other.

ghost use Rattle.std.specs.Prelude.{◌≡◌, ◌<◌, ◌==◌, ◌&&◌, ◌||◌, not, length, false, IfOk, IfSome, IsTrue};
ghost use Rattle.std.specs.List.{list_all};
ghost use Rattle.replay_model.specs.Outcome.{is_stop, is_limit, same};
ghost use Rattle.replay_core.specs.Items.{IsStill, rule_in};
ghost use Rattle.replay_core.specs.Standing.{Begins, IsSomewhere, AnswersAt, LeadsOn, IsSame, GoesOn, HasNoItem};
ghost use Rattle.replay_core.specs.Standing.{HasGone, CanGoNowhere, left};
ghost use Rattle.replay_core.specs.Standing.{FindsDiverged, AgreesOnCause, EndsAt, TellsDiverged, ComesTo};
ghost use Rattle.replay_core.specs.Telling.{NotesOn, SameAim, TellsOn};
ghost use Rattle.run_model.specs.Run.{Run};

use crate::notes::{Notes, look};
use crate::outcome::Outcome;
use crate::position::{Position, harts_of};
use crate::went::Went;
use board_backing::{Ends, first_runs};
use elf_image::Image;
use flat_machine::Final;
use hart_run::HartRun;
use log_order::Orderly;
use rv_words::Cause;
use shared_types::NoMemory;
use std::alloc::Global;

/// A replay's board, the run of each hart, and the places of its end.
#[derive(Drop)]
pub(crate) struct Replaying {
    pub(crate) board: Position,
    pub(crate) runs: Vec<HartRun>,
    pub(crate) ends: Ends,
}

/// Whether the item was made: then another may follow.
fn is_made(went: Went) -> bool
    ensures still { result ≡ false → IsStill went }
    ensures made { IsTrue result → IsStill went → ⊥ }
{
    matches!(went, Went::Moved | Went::Entry)
}

/// The rule of a divergence.
fn rule_in(went: Went) -> Option<u8>
    ensures { result ≡ rule_in went }
{
    match went {
        Went::Diverged(rule) => Some(rule),
        _ => None,
    }
}

fn either(one: bool, other: bool) -> bool
    ensures { result ≡ (one || other) }
{
    one || other
}

/// Whether the cause is that of a run that stopped or not, and whose harts all came to the limit or not.
fn cause_suits(cause: Cause, stopped: bool, at_limit: bool) -> bool
    ensures { result ≡ (same (is_stop cause) stopped && same (is_limit cause) (not stopped && at_limit)) }
{
    match cause {
        Cause::Stop => stopped,
        Cause::Limit => !stopped && at_limit,
        _ => !stopped && !at_limit,
    }
}

impl Replaying {
    /// The replay of an orderly log over an image, before any item. It takes all memory that the replay needs.
    pub(crate) fn start(
        alloc: Global,
        orderly: Orderly,
        image: &Image,
    ) -> Result<Replaying, NoMemory>
        requires { orderly.pages ≡ image.now.pages }
        ensures { IfOk result (Begins orderly image.now) }
    {
        let board = Position::start(alloc, orderly, image)?;
        let harts = harts_of(board.log.log());
        let runs = first_runs(alloc, image, harts)?;
        let ends = Ends::start(alloc, harts, image)?;
        Ok(Replaying { board, runs, ends })
    }

    /// One item of a hart. Where it isn't made nothing changes.
    pub(crate) fn go(&mut self, hart: u8) -> Went
        requires at { IsSomewhere self.old }
        requires hart { hart < length self.old.runs.items }
        ensures answer { AnswersAt self.old hart result }
        ensures at { LeadsOn self.old self.new hart }
        ensures still { IsStill result → IsSame self.old self.new }
        ensures log { self.new.board.log ≡ self.old.board.log }
    {
        self.board.go(&mut self.runs[usize::from(hart)], hart)
    }

    /// The moves of a hart, as many as it can make up to the count of its first entry left and before one that is
    /// to be noted. Whether any was made.
    fn leg(&mut self, hart: u8, notes: &Notes) -> bool
        requires at { IsSomewhere self.old }
        requires hart { hart < length self.old.runs.items }
        ensures on { GoesOn self.old self.new }
        ensures log { self.new.board.log ≡ self.old.board.log }
        ensures gone { HasGone result self.old self.new }
        ensures noted { NotesOn self.old self.new notes.now notes.now }
    {
        let run = &mut self.runs[usize::from(hart)];
        let most = notes.quiet_until(hart, run.count());
        self.board.run_on(run, hart, most)
    }

    /// One item of a hart, and the note of it. Whether it was made.
    fn go_noting(&mut self, hart: u8, notes: &mut Notes) -> bool
        requires at { IsSomewhere self.old }
        requires hart { hart < length self.old.runs.items }
        ensures on { GoesOn self.old self.new }
        ensures log { self.new.board.log ≡ self.old.board.log }
        ensures gone { HasGone result self.old self.new }
        ensures stuck { result ≡ false → HasNoItem self.new hart }
        ensures aim { SameAim notes.old notes.new }
        ensures noted { TellsOn self.old self.new notes.old notes.new }
    {
        let before = look(&self.runs[usize::from(hart)]);
        let went = self.go(hart);
        notes.note(hart, &before, &self.runs[usize::from(hart)]);
        is_made(went)
    }

    /// A leg of a hart, and the item behind it. Whether any was made.
    fn go_leg(&mut self, hart: u8, notes: &mut Notes) -> bool
        requires at { IsSomewhere self.old }
        requires hart { hart < length self.old.runs.items }
        ensures on { GoesOn self.old self.new }
        ensures log { self.new.board.log ≡ self.old.board.log }
        ensures gone { HasGone result self.old self.new }
        ensures stuck { result ≡ false → HasNoItem self.new hart }
        ensures aim { SameAim notes.old notes.new }
        ensures noted { TellsOn self.old self.new notes.old notes.new }
    {
        let ran = self.leg(hart, notes);
        let made = self.go_noting(hart, notes);
        either(made, ran)
    }

    /// A hart goes on as far as it can. Whether it went at all.
    fn go_far(&mut self, hart: u8, notes: &mut Notes) -> bool
        requires at { IsSomewhere self.old }
        requires hart { hart < length self.old.runs.items }
        ensures on { GoesOn self.old self.new }
        ensures log { self.new.board.log ≡ self.old.board.log }
        ensures gone { HasGone result self.old self.new }
        ensures stuck { HasNoItem self.new hart }
        ensures aim { SameAim notes.old notes.new }
        ensures noted { TellsOn self.old self.new notes.old notes.new }
    {
        let mut went = false;
        'items: while self.go_leg(hart, notes) {
            went = true;
        }
        went
    }

    /// Each hart goes on as far as it can. Whether any went.
    fn sweep(&mut self, notes: &mut Notes) -> bool
        requires { IsSomewhere self.old }
        ensures on { GoesOn self.old self.new }
        ensures log { self.new.board.log ≡ self.old.board.log }
        ensures less { IsTrue result → left self.new < left self.old }
        ensures stuck { result ≡ false → CanGoNowhere self.new }
        ensures aim { SameAim notes.old notes.new }
        ensures noted { TellsOn self.old self.new notes.old notes.new }
    {
        let mut went = false;
        for hart in 0..harts_of(self.board.log.log()) {
            let far = self.go_far(hart, notes);
            went = either(far, went);
        }
        went
    }

    /// The harts go on until none can.
    pub(crate) fn run_out(&mut self, notes: &mut Notes)
        requires { IsSomewhere self.old }
        ensures on { GoesOn self.old self.new }
        ensures log { self.new.board.log ≡ self.old.board.log }
        ensures stuck { CanGoNowhere self.new }
        ensures aim { SameAim notes.old notes.new }
        ensures noted { TellsOn self.old self.new notes.old notes.new }
    {
        'sweeps: while self.sweep(notes) {}
    }

    /// The least hart that has diverged, with its rule. Nothing is changed: no hart can go.
    fn first_diverged(&mut self) -> Option<(u8, u8)>
        requires at { IsSomewhere self.old }
        requires stuck { CanGoNowhere self.old }
        ensures same { IsSame self.old self.new }
        ensures first { FindsDiverged self.old result }
        ensures there { IfSome result (λ found. found.0 < length self.old.runs.items) }
    {
        for hart in 0..harts_of(self.board.log.log()) {
            if let Some(rule) = rule_in(self.go(hart)) {
                return Some((hart, rule));
            }
        }
        None
    }

    /// Whether each hart's count is the log's limit.
    fn all_at_limit(&self) -> bool
        ensures { result ≡ list_all (λ (r : Run). r.count == self.now.board.log.limit) self.now.runs.items }
    {
        let limit = self.board.log.log().limit;
        for run in &self.runs {
            if run.count() != limit {
                return false;
            }
        }
        true
    }

    /// Whether the log's cause agrees with the end.
    fn cause_agrees(&self) -> bool
        requires { IsSomewhere self.now }
        ensures { AgreesOnCause self.now result }
    {
        let stopped = self.board.backing.devices.stop().is_some();
        cause_suits(self.board.log.log().cause, stopped, self.all_at_limit())
    }

    /// The end that the stage is at.
    fn into_end(self) -> Final
        requires { IsSomewhere self }
        ensures { EndsAt self result }
    {
        let Replaying { board, runs, ends } = self;
        let cause = board.log.log().cause;
        let Position { backing, .. } = board;
        ends.gather(&runs, backing, cause)
    }

    /// What the replay came to. It takes no memory.
    pub(crate) fn outcome(mut self) -> Outcome
        requires at { IsSomewhere self }
        requires stuck { CanGoNowhere self }
        ensures { ComesTo self result }
    {
        let diverged = self.first_diverged();
        match diverged {
            Some((hart, why)) => self.diverged(hart, why),
            None => {
                if self.cause_agrees() {
                    Outcome::Done(self.into_end())
                } else {
                    self.diverged(0, 7)
                }
            }
        }
    }

    /// The harts go on until none can: what the replay comes to. It takes no memory.
    pub(crate) fn finish(mut self) -> Outcome
        requires { IsSomewhere self }
        ensures { ComesTo self result }
    {
        let mut notes = Notes::none(*self.runs.allocator());
        self.run_out(&mut notes);
        self.outcome()
    }

    /// The hart has diverged, with this rule.
    fn diverged(self, hart: u8, why: u8) -> Outcome
        requires at { IsSomewhere self }
        requires hart { hart < length self.runs.items }
        ensures { TellsDiverged self hart why result }
    {
        let count = self.runs[usize::from(hart)].count();
        Outcome::Diverged {
            hart,
            count,
            why,
            state: self.into_end(),
        }
    }
}
