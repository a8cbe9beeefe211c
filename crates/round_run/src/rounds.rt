//! Rounds: three sweeps of turns, and the legs of all harts at once.

ghost use Rattle.std.specs.Prelude.{ℕ, ◌≡◌, ◌<◌, ◌≤◌, ◌^◌, Bool, true, slice_index, MatchResult, OnOk};
ghost use Rattle.rv_words.specs.Limits.{most_moves, longest_log};
ghost use Rattle.crew_parts.specs.Boards.{world, plain_at_start, IsBoardOf};
ghost use Rattle.recorded_turns.specs.Recordings.{RecordsInRounds};
ghost use Rattle.recorder.specs.Manned.{HasGiven, HasTurnOf, IsManned, still};
ghost use Rattle.round_run.specs.Legs.{HaveStood, IsReady};
ghost use Rattle.round_run.specs.Sweeps.{TakesRound, TakesSweep};
ghost use Rattle.round_run.specs.Rounds.{LastTurn, MayBegin, RoundsEnd, TakesAll, TakesLast, last_moves, start_of};

use crate::legs::{Hands, counts_of, end_all, helpers, legs, next_legs, untils_of};
use crew_core::{OutOfMemory, Recorded};
use elf_image::Image;
use outside::{Clock, Console, Gate};
use recorder::{PLACES, Recorder};
use rv_words::MAX_HARTS;
use shared_types::NoMemory;
use side_work::beside;
use std::alloc::Global;
use std::thread::Threads;

/// A turn of a hart, once another or itself is favoured.
fn favoured_turn<C: Console, K: Clock>(
    alloc: Global,
    recording: &mut Recorder<C, K>,
    favoured: u8,
    hart: u8,
) -> Result<(), NoMemory>
    requires favoured { favoured < recording.old.board.harts }
    requires hart { hart < recording.old.board.harts }
    requires manned { (moves : ℕ → ℕ)
        × IsManned recording.old.board recording.old.runs.items recording.old.orders moves }
    ensures holds { IsBoardOf recording.old.board }
    ensures given { HasGiven recording.old.board.now recording.new.board.now }
    ensures turn { OnOk result ((moves : ℕ → ℕ)
        → IsManned recording.old.board recording.old.runs.items recording.old.orders moves
        → HasTurnOf (record recording.old.board { favoured = favoured }) recording.new.board hart moves
        recording.new.runs.items recording.new.orders) }
{
    let _ = recording.board.harts();
    recording.board.favour(favoured);
    recording.turn(alloc, hart)?;
    Ok(())
}

/// A turn of each hart, from the round's on; before each the round's hart is favoured.
fn sweep<C: Console, K: Clock>(
    alloc: Global,
    recording: &mut Recorder<C, K>,
    round: u64,
) -> Result<(), NoMemory>
    requires round { round < 2 ^ 63 }
    requires ready { (moved : Bool)
        × IsReady recording.old.board recording.old.runs.items recording.old.orders moved }
    ensures given { HasGiven recording.old.board.now recording.new.board.now }
    ensures taken { OnOk result ((moved : Bool)
        → IsReady recording.old.board recording.old.runs.items recording.old.orders moved
        → TakesSweep round moved recording.old.board recording.new.board
        recording.new.runs.items recording.new.orders) }
{
    let harts = recording.board.harts();
    let first = (round % u64::from(harts)) as u8;
    for place in 0..harts {
        let hart = ((round + u64::from(place)) % u64::from(harts)) as u8;
        favoured_turn(alloc, recording, first, hart)?;
    }
    Ok(())
}

/// Three sweeps.
fn round<C: Console, K: Clock>(
    alloc: Global,
    recording: &mut Recorder<C, K>,
    number: u64,
) -> Result<(), NoMemory>
    requires number { number < 2 ^ 63 }
    requires ready { IsReady recording.old.board recording.old.runs.items recording.old.orders true }
    ensures given { HasGiven recording.old.board.now recording.new.board.now }
    ensures taken { OnOk result
        (TakesRound number recording.old.board recording.new.board recording.new.runs.items recording.new.orders) }
{
    let _ = recording.board.harts();
    sweep(alloc, recording, number)?;
    sweep(alloc, recording, number)?;
    sweep(alloc, recording, number)?;
    Ok(())
}

/// A recording in rounds under way.
#[derive(Drop)]
struct Rounds<C: Console, K: Clock> {
    recording: Recorder<C, K>,
    /// How many legs each hart has made.
    legs: [u64; PLACES],
    /// Where each hart stood at its latest turn.
    stood: [u64; PLACES],
}

impl<C: Console, K: Clock> Rounds<C, K> {
    /// Each hart that was told to go on makes its leg, all at once.
    fn go_on<G: Gate>(&mut self, gate: &G, hands: &mut Hands) -> Result<(), NoMemory>
        requires { IsManned self.old.recording.board self.old.recording.runs.items self.old.recording.orders still }
        ensures board { self.new.recording.board ≡ self.old.recording.board }
        ensures ready { OnOk result
            (IsReady self.new.recording.board self.new.recording.runs.items self.new.recording.orders true) }
        ensures stood { HaveStood self.new.recording.board self.new.stood }
        ensures holds { IsBoardOf self.new.recording.board }
    {
        let _ = self.recording.board.harts();
        self.stood = counts_of(&self.recording.runs);
        let untils = untils_of(&self.recording.orders);
        legs(&mut self.recording.runs, hands, &untils, gate, &self.legs)?;
        next_legs(&untils, &mut self.legs);
        Ok(())
    }

    /// Rounds, with the legs behind each, until the board is over.
    fn rounds<G: Gate>(
        &mut self,
        alloc: Global,
        gate: &G,
        hands: &mut Hands,
    ) -> Result<(), NoMemory>
        requires start { self.old.recording.board ≡ start_of self.old.recording.board }
        requires manned { IsManned self.old.recording.board
            self.old.recording.runs.items self.old.recording.orders still }
        requires limit { self.old.recording.board.limit ≤ most_moves }
        requires stood { HaveStood self.old.recording.board self.old.stood }
        ensures given { HasGiven self.old.recording.board.now self.new.recording.board.now }
        ensures taken { OnOk result (RoundsEnd self.old.recording.board self.new.recording.board
            self.new.recording.runs.items self.new.recording.orders self.new.stood) }
    {
        let _ = self.recording.board.harts();
        let mut number = 0;
        while !self.recording.board.over() {
            round(alloc, &mut self.recording, number)?;
            self.go_on(gate, hands)?;
            number += 1;
        }
        Ok(())
    }

    /// A turn of a hart, if it has moved since its latest one.
    fn last_turn(&mut self, alloc: Global, hart: u8) -> Result<(), NoMemory>
        requires hart { hart < self.old.recording.board.harts }
        requires manned { IsManned self.old.recording.board self.old.recording.runs.items self.old.recording.orders
            (last_moves hart self.old.recording.board) }
        requires stood { slice_index self.old.stood hart ≡ slice_index self.old.recording.board.counts hart }
        ensures given { HasGiven self.old.recording.board.now self.new.recording.board.now }
        ensures turn { OnOk result (LastTurn self.old.recording.board self.new.recording.board hart
            (last_moves hart self.old.recording.board) self.new.recording.runs.items self.new.recording.orders) }
        ensures stood { self.new.stood ≡ self.old.stood }
    {
        let _ = self.recording.board.harts();
        let place = usize::from(hart);
        if self.recording.runs[place].count() == self.stood[place] {
            return Ok(());
        }
        self.recording.turn(alloc, hart)?;
        Ok(())
    }

    /// The last turns of all harts.
    fn last_turns(&mut self, alloc: Global) -> Result<(), NoMemory>
        requires ready { IsReady self.old.recording.board self.old.recording.runs.items self.old.recording.orders true }
        requires stood { HaveStood self.old.recording.board self.old.stood }
        ensures given { HasGiven self.old.recording.board.now self.new.recording.board.now }
        ensures taken { OnOk result (TakesLast self.old.recording.board self.new.recording.board
            self.new.recording.runs.items self.new.recording.orders) }
    {
        let harts = self.recording.board.harts();
        for hart in 0..harts {
            self.last_turn(alloc, hart)?;
        }
        Ok(())
    }

    /// Rounds until the board is over, and the last turns.
    fn all<G: Gate>(&mut self, alloc: Global, gate: &G, hands: &mut Hands) -> Result<(), NoMemory>
        requires start { self.old.recording.board ≡ start_of self.old.recording.board }
        requires limit { self.old.recording.board.limit ≤ most_moves }
        requires manned { IsManned self.old.recording.board
            self.old.recording.runs.items self.old.recording.orders still }
        requires stood { HaveStood self.old.recording.board self.old.stood }
        ensures given { HasGiven self.old.recording.board.now self.new.recording.board.now }
        ensures taken { OnOk result (TakesAll self.old.recording.board self.new.recording.board
            self.new.recording.runs.items self.new.recording.orders) }
    {
        self.rounds(alloc, gate, hands)?;
        let _ = self.recording.board.harts();
        self.last_turns(alloc)?;
        Ok(())
    }
}

/// Rounds until the board is over, the last turns, and the end of the workers.
fn finished<C: Console, K: Clock, G: Gate>(
    mut rounds: Rounds<C, K>,
    alloc: Global,
    gate: &G,
    mut hands: Hands,
) -> (Rounds<C, K>, Result<(), NoMemory>)
    requires { MayBegin rounds.recording.board rounds.recording.runs.items rounds.recording.orders rounds.stood }
    ensures given { HasGiven rounds.recording.board.now result.0.recording.board.now }
    ensures taken { OnOk result.1 (TakesAll rounds.recording.board result.0.recording.board
        result.0.recording.runs.items result.0.recording.orders) }
{
    let made = rounds.all(alloc, gate, &mut hands);
    end_all(hands);
    (rounds, made)
}

/// Records a board in rounds, until it is over. In a round each hart has three turns; then all that were told to go on
/// do so, beside each other on threads where they can be had, each between two passes of the gate. Behind the last
/// round each hart that has moved since its latest turn has one. Where memory ran out, console and clock come back with
/// what they gave.
pub fn record_rounds<T: Threads + Sync, C: Console, K: Clock, G: Gate>(
    rt: &T,
    alloc: Global,
    image: &Image,
    harts: u8,
    limit: u64,
    log_limit: u64,
    console: C,
    clock: K,
    gate: &G,
) -> Result<Recorded<C, K>, OutOfMemory<C, K>>
    requires least { 1 ≤ harts }
    requires most { harts ≤ MAX_HARTS }
    requires limit { limit ≤ most_moves }
    requires log_least { 1024 ≤ log_limit }
    requires log_most { log_limit ≤ longest_log }
    ensures { MatchResult result
        (λ r. RecordsInRounds
        (plain_at_start image.now harts limit log_limit (world (C.seen console) (K.seen clock)))
        (world (C.seen r.console) (K.seen r.clock)) r.log r.ended r.journal r.turns)
        (λ e. HasGiven (world (C.seen console) (K.seen clock)) (world (C.seen e.console) (K.seen e.clock))) }
{
    let _ = image.pages();
    let recording = Recorder::start(alloc, image, harts, limit, log_limit, console, clock)?;
    let rounds = Rounds {
        recording,
        legs: [0; PLACES],
        stood: [0; PLACES],
    };
    let (hands, workers) = helpers(alloc, harts);
    let (rounds, made) = beside(
        rt,
        workers,
        gate,
        move || -> (Rounds<C, K>, Result<(), NoMemory>)
            requires { MayBegin rounds.recording.board rounds.recording.runs.items
                rounds.recording.orders rounds.stood }
            ensures { HasGiven rounds.recording.board.now result.0.recording.board.now
                × OnOk result.1 (TakesAll rounds.recording.board result.0.recording.board
                result.0.recording.runs.items result.0.recording.orders) }
        { finished(rounds, alloc, gate, hands) },
    );
    match made {
        Ok(()) => rounds.recording.finish(),
        Err(NoMemory) => Err(rounds.recording.abandon()),
    }
}
