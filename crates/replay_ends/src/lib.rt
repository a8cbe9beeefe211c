//! Where replays end (docs/replay.md). The functions have no bodies: they promise the laws.
#![tactic(auto)]

ghost use Rattle.replay_ends.specs.Laws.{NobodyHoldsAlone, OutcomeIsThere, OutcomeIsOne};

/// Under an orderly log a replay in which no hart can go and none has diverged has ended.
pub fn nobody_holds_alone()
    ensures { NobodyHoldsAlone }
{}

/// A replay of an orderly log has an outcome, and one alone.
pub fn outcomes_are_one()
    ensures there { OutcomeIsThere }
    ensures one { OutcomeIsOne }
{}
