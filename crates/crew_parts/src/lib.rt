//! The recorder's board as plain data, what each hart has of it, and what a turn is on both (docs/recorder.md):
//! definitions and laws. The functions have no bodies: they promise the laws.
#![tactic(auto)]

ghost use Rattle.crew_parts.specs.Laws.{StatesAre, FirstBoards, BoardsAreSound, NothingIsChanged, LeftIsFree};
ghost use Rattle.crew_parts.specs.Laws.{TurnsReach, MovesAreTold, OrdersAreExact, PartsStay, RunsGoOn, BoardsSet};
ghost use Rattle.crew_parts.specs.Laws.{PartsUnmoved, LegsAdvance, PartsHaveUnit, PartsAreNumbered};

/// The state that plain data stand for, which nothing stores, is the one to which the turns led. Before any turn it is
/// the image's start.
pub fn states_are()
    ensures reached { StatesAre }
    ensures first { FirstBoards }
{}

/// What holds of every board that turns led to.
pub fn boards_are_sound()
    ensures sound { BoardsAreSound }
    ensures set { BoardsSet }
{}

/// A turn of which the answers are known is a turn whatever is answered later, and leads to a board that turns led to;
/// its moves are those by which the part was advanced, and what it tells the hart is exact.
pub fn turns_are_known()
    ensures left { LeftIsFree }
    ensures reach { TurnsReach }
    ensures moves { MovesAreTold }
    ensures orders { OrdersAreExact }
{}

/// A turn of one hart leaves the parts of all others, and the runs that are these parts; what only names the favoured hart or closes the board leaves
/// every part.
pub fn parts_stay()
    ensures others { PartsStay }
    ensures runs { RunsGoOn }
    ensures all { NothingIsChanged }
{}

/// A run that is a hart's part has pages of the board's unit and the hart's number, and advances the part by its legs.
pub fn runs_advance()
    ensures unit { PartsHaveUnit }
    ensures numbers { PartsAreNumbered }
    ensures unmoved { PartsUnmoved }
    ensures legs { LegsAdvance }
{}
