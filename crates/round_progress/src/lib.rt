//! Where the clock has answers enough, turns, lists and rounds are there; each round goes on, and rounds end
//! (docs/recorder.md): laws of the recorder's turns. That boards behind rounds are reached by turns is a law of
//! `turn_laws`. The functions have no bodies: they promise the laws.
#![tactic(auto)]

ghost use Rattle.round_progress.specs.Laws.{FewAreLeft, ListsAreRecorded, RoundsAreRecorded, RoundsFall, RoundsFollow};
ghost use Rattle.round_progress.specs.Laws.{RoundsGoOn, TurnsAreThere};

/// A turn with moves that its hart can make comes to a board, where the clock has two answers left.
pub fn turns_are_there()
    ensures { TurnsAreThere }
{}

/// A list of turns has a recording, where the clock has two answers left for each turn.
pub fn lists_are_recorded()
    ensures { ListsAreRecorded }
{}

/// Each round that doesn't end the run raises a count, or lets the first hart from its own on have moves ahead, and
/// less is left behind it than before.
pub fn rounds_go_on()
    ensures go_on { RoundsGoOn }
    ensures fall { RoundsFall }
    ensures few { FewAreLeft }
    ensures follow { RoundsFollow }
{}

/// Rounds end: where the clock has answers enough there is a recording in rounds.
pub fn rounds_are_recorded()
    ensures { RoundsAreRecorded }
{}
