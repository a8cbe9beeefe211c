//! A replay's board as plain data, what each hart has of it, and what a turn is on both (docs/replay.md): definitions
//! and laws. The functions have no bodies: they promise the laws.
#![tactic(auto)]

ghost use Rattle.replay_parts.specs.Laws.{StatesAre, FirstBoards, TurnsReach, TurnsRise, PartsStay, RunsGoOn};
ghost use Rattle.replay_parts.specs.Laws.{PartsHaveUnit, PartsAreNumbered, PartsUnmoved, LegsAdvance};

/// The state that plain data stand for, which nothing stores, is the one to which the turns led, in whatever order.
/// Before any turn it is the start of the image's replay.
pub fn states_are()
    ensures reached { StatesAre }
    ensures first { FirstBoards }
{}

/// A turn of a hart leads to a board that stands for the state behind it, commits more or nothing, and leaves the parts
/// of all others, and the runs that are these parts.
pub fn turns_stay()
    ensures reach { TurnsReach }
    ensures rise { TurnsRise }
    ensures parts { PartsStay }
    ensures runs { RunsGoOn }
{}

/// A run that is a hart's part has pages of the log's unit and the hart's number, and advances the part by its legs.
pub fn runs_advance()
    ensures unit { PartsHaveUnit }
    ensures numbers { PartsAreNumbered }
    ensures unmoved { PartsUnmoved }
    ensures legs { LegsAdvance }
{}
