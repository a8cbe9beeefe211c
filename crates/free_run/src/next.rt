//! What workers do behind a turn.

ghost use Rattle.std.specs.Prelude.{◌≡◌};
ghost use Rattle.free_run.specs.Nexts.{both};

/// What a worker does behind a turn: it moves on, waits for an event, or ends.
#[derive(Clone, Copy, Drop)]
pub enum Next {
    Moves,
    Waits,
    Ends,
}

impl Next {
    /// What a thread does whose workers do these: it moves on where one does, and ends where all have ended.
    pub fn with(self, other: Next) -> Next
        ensures { result ≡ both self other }
    {
        match (self, other) {
            (Next::Moves, _) | (_, Next::Moves) => Next::Moves,
            (Next::Ends, Next::Ends) => Next::Ends,
            _ => Next::Waits,
        }
    }
}
