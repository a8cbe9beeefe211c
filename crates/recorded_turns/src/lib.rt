//! Recordings that a recorder's board makes turn by turn (docs/recorder.md): laws for code that records by lists of
//! turns and in rounds. The functions have no bodies: they promise the laws.
#![tactic(auto)]

ghost use Rattle.recorded_turns.specs.Laws.{ClosesAreTaken, CutIsTaken, FavouredStayAdvanced, FirstRoundIsTaken};
ghost use Rattle.recorded_turns.specs.Laws.{LastTurnsAreTaken, LastTurnsLeave, LegsAdvance, LessIsLeft};
ghost use Rattle.recorded_turns.specs.Laws.{ListsAreTaken, LittleIsLeft, OthersStayAdvanced, OthersStayTold, OverIsOver};
ghost use Rattle.recorded_turns.specs.Laws.{PartsAreAdvanced, RecordingsAreTaken, RoundIsTaken, RoundsAreTaken};
ghost use Rattle.recorded_turns.specs.Laws.{RowsAdvance, RowsAreTaken, SweepsAreTaken, TakesFavour, TakesNone};
ghost use Rattle.recorded_turns.specs.Laws.{TakesThen, TakesTurn, TurnsLeaveParts};
ghost use Rattle.recorded_turns.specs.Recordings.{ListsAreCut, ListsAreRight, RoundsAreNotCut, RoundsAreOne};
ghost use Rattle.recorded_turns.specs.Recordings.{RoundsAreRight};

/// What is taken turn by turn is what the definitions take, whatever console and clock give later.
pub fn turns_take()
    ensures none { TakesNone }
    ensures behind { TakesThen }
    ensures turn { TakesTurn }
    ensures favour { TakesFavour }
{}

/// A list of turns, and the turns that close it, make the recording by that list.
pub fn lists_are_taken()
    ensures rows { RowsAreTaken }
    ensures over { OverIsOver }
    ensures cut { CutIsTaken }
    ensures closes { ClosesAreTaken }
    ensures lists { ListsAreTaken }
{}

/// Sweeps make a round; rounds until the board is over, and the last turns, make the recording in rounds.
pub fn rounds_are_taken()
    ensures sweeps { SweepsAreTaken }
    ensures round { RoundIsTaken }
    ensures first { FirstRoundIsTaken }
    ensures rounds { RoundsAreTaken }
    ensures last { LastTurnsAreTaken }
    ensures left { LastTurnsLeave }
    ensures recorded { RecordingsAreTaken }
    ensures less { LessIsLeft }
    ensures little { LittleIsLeft }
{}

/// The legs of all harts may be made at once: a run that has made its leg is its hart's part, advanced, until its turn.
pub fn legs_stay_made()
    ensures legs { LegsAdvance }
    ensures rows { RowsAdvance }
    ensures parts { PartsAreAdvanced }
    ensures turns { TurnsLeaveParts }
    ensures others { OthersStayAdvanced }
    ensures told { OthersStayTold }
    ensures favoured { FavouredStayAdvanced }
{}

/// What was recorded, by a list of turns or in rounds, is right, and is cut only where a list ended first; and of what
/// console and clock gave there is one recording in rounds.
pub fn recordings_are_right()
    ensures lists { ListsAreRight }
    ensures rounds { RoundsAreRight }
    ensures cut { ListsAreCut }
    ensures not_cut { RoundsAreNotCut }
    ensures one { RoundsAreOne }
{}
