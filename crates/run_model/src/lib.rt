//! A hart's run on frames of its own, its agreement with a flat state, and its legs (docs/pages.md): definitions, and their
//! laws. There is no code but two plain types; the functions have no bodies, and promise the laws. A proof cites a law as a
//! member of `proofs/Laws`, which has nothing else.
#![tactic(auto)]

mod asked;

ghost use Rattle.run_model.specs.Laws.{AheadAgrees, StartAgrees, NobodyHolds, NobodyHasRows, MovesAgree, TakesAgree, GivesAgree};
ghost use Rattle.run_model.specs.Laws.{SeesMove, SeesFetched, SeesWord, SeesClaim, SeesPage, SeesHeld};
ghost use Rattle.run_model.specs.Laws.{AsksByWord, DataNotWanted, DataLieAbove, ExclusiveIsHeld};
ghost use Rattle.run_model.specs.Laws.{PlacedAgrees, CountedAgrees, AnswersAgree, KeepsOnMove, StaysOne, StaysOnBoard};
ghost use Rattle.run_model.specs.Laws.{StartsLeg, LeadsOn, EndsLeg};

pub use asked::{Ahead, Pause};

/// What is ahead of a run is ahead of its hart.
pub fn ahead_agrees()
    ensures { AheadAgrees }
{}

/// What a run sees is what the flat state has: its next move and the word that this fetches where it wants no page, the
/// word at the pc, what is claimed, and the frames that it holds.
pub fn sight_agrees()
    ensures next { SeesMove }
    ensures fetched { SeesFetched }
    ensures word { SeesWord }
    ensures claim { SeesClaim }
    ensures page { SeesPage }
    ensures held { SeesHeld }
{}

/// What the data of a move ask for.
pub fn data_ask()
    ensures by_word { AsksByWord }
    ensures not_wanted { DataNotWanted }
    ensures above { DataLieAbove }
    ensures exclusive { ExclusiveIsHeld }
{}

/// A run at its start agrees with the start of the flat machine, where nobody holds anything.
pub fn start_agrees()
    ensures agrees { StartAgrees }
    ensures holds { NobodyHolds }
    ensures rows { NobodyHasRows }
{}

/// A move that asks for nothing is a Run of the flat machine, and they agree after it.
pub fn moves_agree()
    ensures { MovesAgree }
{}

/// What a move leaves of a run, whatever state it agrees with.
pub fn moves_keep()
    ensures pages { KeepsOnMove }
    ensures one { StaysOne }
    ensures board { StaysOnBoard }
{}

/// A run agrees once its hart is another on both sides, also where that is a move, as the answer of a device.
pub fn harts_agree()
    ensures placed { PlacedAgrees }
    ensures counted { CountedAgrees }
    ensures answers { AnswersAgree }
{}

/// Moves one after another make a leg.
pub fn legs_agree()
    ensures starts { StartsLeg }
    ensures leads { LeadsOn }
    ensures ends { EndsLeg }
{}

/// A run that takes a page, or gives one up, agrees with what the flat state and the holders become.
pub fn pages_agree()
    ensures takes { TakesAgree }
    ensures gives { GivesAgree }
{}
