//! Turns of the recorder, and recordings by lists of turns and in rounds (docs/recorder.md): definitions, examples
//! of them, and laws. The functions have no bodies: they promise the laws.
#![tactic(auto)]

ghost use Rattle.turn_model.specs.Laws.{RecordingsAreRight, RoundsAreRight};
ghost use Rattle.turn_model.specs.Worked.{AreRecorded};

/// Recordings that were worked out by hand come to what they should.
pub fn worked_recordings()
    ensures { AreRecorded }
{}

/// By whatever list of turns or in rounds a board is recorded, the log is orderly and agrees with console and clock,
/// and the journal is a full order of it and a run of the flat machine to the end, which is done there.
pub fn recordings_are_right()
    ensures list { RecordingsAreRight }
    ensures rounds { RoundsAreRight }
{}
