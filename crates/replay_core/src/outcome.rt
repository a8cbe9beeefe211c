//! What a replay comes to.

use flat_machine::Final;

/// What a replay came to.
#[derive(Debug, Drop)]
pub enum Outcome {
    /// Every hart ended, and the log's cause agrees with the end.
    Done(Final),
    /// The least hart that diverged, with its count and the least rule that its item broke; or hart 0 with rule 7,
    /// where every hart ended and the cause disagrees.
    Diverged {
        hart: u8,
        count: u64,
        why: u8,
        state: Final,
    },
}
