//! Nothing of a log depends on the room that its waits have in memory. The functions have no bodies: they promise the
//! laws.
#![tactic(auto)]

ghost use Rattle.room_laws.specs.Laws.{EntriesSeeNoRoom, OrderSeesNoRoom, ReplaysSeeNoRoom, BeginningsSeeNoRoom};
ghost use Rattle.room_laws.specs.Laws.{AtomicsSeeNoRoom, RightSeesNoRoom, LeanSeesNoRoom, SpellingSeesNoRoom};

/// A log and the same log without room are judged alike, and so are their entries.
pub fn order_sees_no_room()
    ensures entries { EntriesSeeNoRoom }
    ensures logs { OrderSeesNoRoom }
{}

/// Replays under a log and under the same log without room go alike.
pub fn replays_see_no_room()
    ensures board { ReplaysSeeNoRoom }
    ensures beginnings { BeginningsSeeNoRoom }
    ensures atomics { AtomicsSeeNoRoom }
{}

/// What makes a recording right holds of its log with any room, and so does what makes its journal lean.
pub fn recordings_see_no_room()
    ensures right { RightSeesNoRoom }
    ensures lean { LeanSeesNoRoom }
{}

/// The bytes of a log are those of the log without room.
pub fn bytes_see_no_room()
    ensures { SpellingSeesNoRoom }
{}
