//! Recordings and replays by the top call, freely and in rounds.

use crate::crew_tests::sum_guest;
use crate::listing_tests::race_log;
use crate::replay_tests::is_replayed;
use crate::tests::{
    Told, bytes_of, has_word, plain_row, race_guest, serve, surroundings_with, tell,
};
use outside::{Gate, HoldGate};
use std::alloc::Global;
use std::sync::Wait;
use std::sync::atomic::{AtomicU64, Ordering};
use std::test::Fail;
use std::thread::Threads;

/// The words of a line over a guest and a log.
fn tell_with<T: Threads + Wait + Sync, G: Gate>(
    rt: &T,
    alloc: Global,
    line: &str,
    guest: &[u32],
    log: Option<&[u8]>,
    gate: &G,
) -> Result<Told, Fail> {
    let file = bytes_of(alloc, guest)?;
    let devices = surroundings_with(alloc, file.as_slice(), log, &[], &[])?;
    tell(rt, alloc, line, devices, gate)
}

/// Two harts that stay where they are.
fn standing() -> [u32; 1] {
    [0x0000_006F]
}

/// A gate at which harts wait for each other before their legs of one number, and that counts the passes behind these.
#[derive(Drop)]
struct MeetGate {
    hold: HoldGate,
    leg: u64,
    legs: AtomicU64,
}

impl MeetGate {
    fn start(leg: u64) -> MeetGate {
        MeetGate {
            hold: HoldGate::start(leg),
            leg,
            legs: AtomicU64::new(0),
        }
    }

    /// Whether two harts made such a leg, both at once.
    fn has_met(&self) -> bool {
        self.legs.load(Ordering::SeqCst) == 2 && !self.hold.ran_out()
    }
}

impl Gate for MeetGate {
    fn pass(&self, hart: u8, leg: u64, after: bool) {
        self.hold.pass(hart, leg, after);
        if after && leg == self.leg {
            let _ = self.legs.fetch_add(1, Ordering::SeqCst);
        }
    }
}

/// A recording and its replay, each on threads, and the leg that every hart begins before one ends it: in a free run leg 0
/// has no moves.
fn runs_on_threads() -> [(&'static str, &'static str, u64); 2] {
    [
        (
            "record g l --harts 2 --pages 1 --limit 4096 --rounds",
            "replay g l --rounds",
            0,
        ),
        (
            "record g l --harts 2 --pages 1 --limit 4096",
            "replay g l",
            1,
        ),
    ]
}

#[test]
fn harts_move_beside_each_other(rt: HostRuntime) -> Result<(), Fail> {
    let alloc = rt.alloc();
    for (record, replay, leg) in runs_on_threads() {
        let gate = MeetGate::start(leg);
        let recorded = tell_with(&rt, alloc, record, &standing(), None, &gate)?;
        assert_eq!(rt; recorded.status, 0);
        assert!(rt; gate.has_met());
        let Some(log) = recorded.shelf.held("l") else {
            panic!(rt; "a log");
        };
        let gate = MeetGate::start(leg);
        let told = tell_with(&rt, alloc, replay, &standing(), Some(log), &gate)?;
        assert_eq!(rt; told.status, 0);
        assert!(rt; gate.has_met());
    }
    Ok(())
}

/// A gate that counts how often hart 0 passes it before its first leg, and ten for each time behind it.
#[derive(Drop)]
pub(crate) struct CountGate {
    passes: AtomicU64,
}

impl CountGate {
    pub(crate) fn start() -> CountGate {
        CountGate {
            passes: AtomicU64::new(0),
        }
    }

    pub(crate) fn passes(&self) -> u64 {
        self.passes.load(Ordering::SeqCst)
    }
}

impl Gate for CountGate {
    fn pass(&self, hart: u8, leg: u64, after: bool) {
        if hart == 0 && leg == 0 {
            let worth = if after { 10 } else { 1 };
            let _ = self.passes.fetch_add(worth, Ordering::SeqCst);
        }
    }
}

/// A replay in each way, and what its gate counts.
fn legs_of_ways() -> [(&'static str, u64); 3] {
    [
        ("replay g l", 11),
        ("replay g l --rounds", 11),
        ("replay g l --one", 0),
    ]
}

#[test]
fn only_replays_on_threads_pass_the_gate(rt: HostRuntime) -> Result<(), Fail> {
    let alloc = rt.alloc();
    for (line, passes) in legs_of_ways() {
        let gate = CountGate::start();
        let told = tell_with(&rt, alloc, line, race_guest(), Some(race_log()), &gate)?;
        assert_eq!(rt; told.status, 0);
        assert_eq!(rt; gate.passes(), passes);
    }
    Ok(())
}

/// Eight harts that race for one word, each with a load, an addition and a store.
fn race_of_eight() -> &'static str {
    "record g l --harts 8 --pages 2 --limit 8 --dump d"
}

#[test]
fn free_races_are_replayed_in_each_way(rt: HostRuntime) -> Result<(), Fail> {
    let row = plain_row(race_of_eight(), race_guest(), 0, "");
    for _ in 0..20 {
        assert!(rt; is_replayed(&rt, rt.alloc(), &row)?);
    }
    Ok(())
}

/// Atomic additions of two free harts add up to 2,000.
#[test]
fn free_harts_add_up(rt: HostRuntime) -> Result<(), Fail> {
    let alloc = rt.alloc();
    let words = "record g l --harts 2 --pages 2 --limit 4000 --dump d";
    let row = plain_row(words, sum_guest(), 0, "");
    let file = bytes_of(alloc, row.guest)?;
    let ran = serve(&rt, alloc, &row, file.as_slice())?;
    assert!(rt; has_word(ran.shelf.held("d"), &[0xd0, 0x07, 0, 0]));
    assert!(rt; is_replayed(&rt, alloc, &row)?);
    Ok(())
}
