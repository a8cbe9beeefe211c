//! What the harts of a board record, item by item (docs/recorder.md), and the laws of it. The functions have no
//! bodies: they promise the laws.
#![tactic(auto)]

ghost use Rattle.crew_recording.specs.Laws.{RunsAreObeyed, RunsAreOrderly};

/// Whatever the harts recorded, their own order obeys its log and is full.
pub fn runs_are_obeyed()
    ensures { RunsAreObeyed }
{}

/// Where each item is allowed, the log is orderly.
pub fn runs_are_orderly()
    ensures { RunsAreOrderly }
{}
