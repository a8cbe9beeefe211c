//! Along the journal of a recording no page changes hands that isn't wanted (docs/recorder.md). The function has no
//! body: it promises the laws.
#![tactic(auto)]

ghost use Rattle.lean_journals.specs.Laws.{RecordingsAreLean, RoundsAreLean};

/// By whatever list of turns or in rounds a board of a whole image is recorded, the journal is lean: each page that
/// changes hands along it is wanted.
pub fn recordings_are_lean()
    ensures list { RecordingsAreLean }
    ensures rounds { RoundsAreLean }
{}
