//! What holds of each recording with free harts. The function has no body: it promises the laws.

ghost use Rattle.free_run.specs.Laws.{FreelyIsByList, FreelyIsNotCut, FreelyIsRight};

/// What was recorded is right, is never cut, and is the recording by the list of turns that was handed back.
pub fn recordings_are_right()
    ensures by_list { FreelyIsByList }
    ensures right { FreelyIsRight }
    ensures not_cut { FreelyIsNotCut }
{}
