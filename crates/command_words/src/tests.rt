use crate::{Job, Usage, Way, free_words, read_words};
use std::alloc::{AllocError, Global};
use std::test::Fail;

/// The words of a line, parted by single blanks: two blanks have an empty word between them.
fn words_of(alloc: Global, line: &str) -> Result<Vec<String>, AllocError> {
    let mut words = Vec::new(alloc);
    for word in line.split(' ') {
        words.push(String::from_str(alloc, word)?)?;
    }
    Ok(words)
}

/// What a line asks for.
fn asked(alloc: Global, line: &str) -> Result<Result<Job, Usage>, AllocError> {
    Ok(read_words(words_of(alloc, line)?.as_slice()))
}

// The prover sees no rows: functions without clauses give them.

const JOBS: [(&'static str, Job); 11] = [
    (
        "record a b",
        Job::Record {
            image: 1,
            log: 2,
            harts: 1,
            pages: 4096,
            limit: 10_000_000,
            log_limit: 67_108_864,
            dump: None,
            rounds: false,
        },
    ),
    (
        "record a b --harts 8 --rounds --dump c --pages 1 --limit 0 --log-limit 1024",
        Job::Record {
            image: 1,
            log: 2,
            harts: 8,
            pages: 1,
            limit: 0,
            log_limit: 1024,
            dump: Some(7),
            rounds: true,
        },
    ),
    (
        "record a b --limit 1000000000000 --log-limit 536870912 --pages 4096 --harts 1",
        Job::Record {
            image: 1,
            log: 2,
            harts: 1,
            pages: 4096,
            limit: 1_000_000_000_000,
            log_limit: 536_870_912,
            dump: None,
            rounds: false,
        },
    ),
    (
        "replay a b",
        Job::Replay {
            image: 1,
            log: 2,
            dump: None,
            way: Way::Plain,
        },
    ),
    (
        "replay a b --one --dump c",
        Job::Replay {
            image: 1,
            log: 2,
            dump: Some(5),
            way: Way::One,
        },
    ),
    (
        "replay a b --dump c --rounds",
        Job::Replay {
            image: 1,
            log: 2,
            dump: Some(4),
            way: Way::Rounds,
        },
    ),
    ("inspect record", Job::Inspect { log: 1 }),
    (
        "trace a b 7 0 1000000",
        Job::Trace {
            image: 1,
            log: 2,
            hart: 7,
            from: 0,
            to: 1_000_000,
        },
    ),
    (
        "trace a b 0 1000000000000 1000000000000",
        Job::Trace {
            image: 1,
            log: 2,
            hart: 0,
            from: 1_000_000_000_000,
            to: 1_000_000_000_000,
        },
    ),
    ("sample 4294967295", Job::Sample { number: u32::MAX }),
    ("sample 0", Job::Sample { number: 0 }),
];

fn job_rows() -> [(&'static str, Job); 11] {
    JOBS
}

fn is_asked(alloc: Global, line: &str, want: Result<Job, Usage>) -> Result<bool, Fail> {
    Ok(asked(alloc, line)? == want)
}

#[test]
fn jobs(rt: HostRuntime) -> Result<(), Fail> {
    for (line, job) in job_rows() {
        assert!(rt; is_asked(rt.alloc(), line, Ok(job))?, "{line}");
    }
    Ok(())
}

/// Lines that ask for no job, and the place that is told.
const PLACES: [(&'static str, u64); 45] = [
    ("record a", 2),
    ("record a a", 2),
    ("record a b --harts 9", 4),
    ("record a b --limit 05", 4),
    ("replay a b --one --rounds", 4),
    ("replay a b --rounds --one", 4),
    ("", 0),
    ("Record a b", 0),
    ("record", 1),
    ("record -a b", 1),
    ("record  b", 1),
    ("record a b c", 3),
    ("record a b --one", 3),
    ("record a b --harts=2", 3),
    ("record a b --harts", 4),
    ("record a b --harts 0", 4),
    ("record a b --harts +1", 4),
    ("record a b --harts 2 --harts 2", 5),
    ("record a b --rounds --rounds", 4),
    ("record a b --pages 0", 4),
    ("record a b --pages 4097", 4),
    ("record a b --limit 1000000000001", 4),
    ("record a b --limit 10000000000000", 4),
    ("record a b --limit 00000000000001", 4),
    ("record a b --log-limit 1023", 4),
    ("record a b --log-limit 536870913", 4),
    ("record a b --dump", 4),
    ("record a b --dump b", 4),
    ("record a b --dump c --dump d", 5),
    ("replay a b --harts 1", 3),
    ("replay a b --dump a", 4),
    ("replay a b --dump --one", 4),
    ("inspect", 1),
    ("inspect a b", 2),
    ("trace a b", 3),
    ("trace a b 8 0 0", 3),
    ("trace a b 0 0", 5),
    ("trace a b 0 5 4", 5),
    ("trace a b 0 1 1000002", 5),
    ("trace a b 0 1000000000001 1000000000001", 4),
    ("trace a b 0 1000000000000 1000000000001", 5),
    ("trace a b 0 0 0 --one", 6),
    ("sample", 1),
    ("sample 4294967296", 1),
    ("sample 1 2", 2),
];

fn place_rows() -> [(&'static str, u64); 45] {
    PLACES
}

#[test]
fn places(rt: HostRuntime) -> Result<(), Fail> {
    for (line, place) in place_rows() {
        assert!(rt; is_asked(rt.alloc(), line, Err(Usage { place }))?, "{line}");
    }
    assert_eq!(rt; read_words(&[]), Err(Usage { place: 0 }));
    Ok(())
}

/// Whether a line asks for a free run.
fn is_free(alloc: Global, line: &str) -> Result<bool, AllocError> {
    Ok(free_words(words_of(alloc, line)?.as_slice()))
}

const RUNS: [(&'static str, bool); 9] = [
    ("record a b", true),
    ("record a b --harts 8 --dump c", true),
    ("record a b --rounds", false),
    ("record a", false),
    ("replay a b", true),
    ("replay a b --rounds", false),
    ("replay a b --dump c --one", false),
    ("inspect a", false),
    ("sample 7", false),
];

fn run_rows() -> [(&'static str, bool); 9] {
    RUNS
}

#[test]
fn runs(rt: HostRuntime) -> Result<(), Fail> {
    for (line, free) in run_rows() {
        assert_eq!(rt; is_free(rt.alloc(), line)?, free, "{line}");
    }
    Ok(())
}
