/// How a log is replayed.
#[derive(Clone, Copy, Debug, PartialEq, Eq)]
pub enum Way {
    /// Without `--one` and `--rounds`.
    Plain,
    /// On one thread.
    One,
    /// In rounds.
    Rounds,
}

/// What the words ask for. A file stands by the place of its name among the words, the command being at place 0.
#[derive(Clone, Copy, Debug, PartialEq, Eq)]
pub enum Job {
    Record {
        image: u64,
        log: u64,
        harts: u8,
        /// Pages of 4,096 bytes.
        pages: u16,
        /// Moves of each hart.
        limit: u64,
        /// Bytes of the log.
        log_limit: u64,
        dump: Option<u64>,
        rounds: bool,
    },
    Replay {
        image: u64,
        log: u64,
        dump: Option<u64>,
        way: Way,
    },
    Inspect {
        log: u64,
    },
    /// The moves of a hart from its count `from` up to, not including, its count `to`.
    Trace {
        image: u64,
        log: u64,
        hart: u8,
        from: u64,
        to: u64,
    },
    Sample {
        number: u32,
    },
}

/// The place of the first word that can't stand there, or the number of words where one is missing.
#[derive(Clone, Copy, Debug, PartialEq, Eq)]
pub struct Usage {
    pub place: u64,
}
