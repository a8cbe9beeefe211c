use crate::{Hand, MadeBy, Work, Worker, beside, fetch, open};
use std::alloc::Global;
use std::process::Abort;
use std::sync::atomic::{AtomicU64, Ordering};
use std::thread::Threads;

/// A number, and twice it.
#[derive(Drop)]
struct Twice {
    number: u32,
    twice: u64,
}

impl Work for Twice {
    ghost use Rattle.std.specs.Prelude.{◌≡◌, ◌*◌};

    ghost makes = { λ old new. (new.number ≡ old.number) × (new.twice ≡ 2 * old.number) };
}

impl MadeBy<AtomicU64> for Twice {
    /// Counts how many were made.
    fn make(self, tool: &AtomicU64) -> Twice {
        let _ = tool.fetch_add(1, Ordering::SeqCst);
        let Twice { number, .. } = self;
        Twice {
            number,
            twice: 2 * u64::from(number),
        }
    }
}

fn of(number: u32) -> Twice {
    Twice { number, twice: 0 }
}

/// Lends two pieces at once, again and again, and ends. Whether all came back made.
fn two_at_once(
    mut first: Hand<Twice>,
    mut second: Hand<Twice>,
    tool: &AtomicU64,
    rounds: u32,
) -> bool {
    let mut right = true;
    for number in 0..rounds {
        let (one, other) = (first.lend(of(number)), second.lend(of(7)));
        let Some((hand, piece)) = fetch(one, tool) else {
            return false;
        };
        let Some((next, seven)) = fetch(other, tool) else {
            return false;
        };
        right &= piece.number == number && piece.twice == 2 * u64::from(number);
        right &= seven.number == 7 && seven.twice == 14;
        (first, second) = (hand, next);
    }
    first.end();
    second.end();
    right
}

/// A thousand pieces by each of two workers, each made once.
fn by_workers<R: Abort + Threads + Sync>(rt: &R, alloc: Global) -> bool {
    let made = AtomicU64::new(0);
    let tool = &made;
    let (first, one) = open(alloc).expect(rt, "memory");
    let (second, other) = open(alloc).expect(rt, "memory");
    let workers = vec![in alloc; one, other].expect(rt, "memory");
    let right = beside(
        rt,
        workers,
        tool,
        move || two_at_once(first, second, tool, 1000),
    );
    right && made.load(Ordering::SeqCst) == 2000
}

/// The hands make the pieces themselves: no worker ever comes to them.
fn without_workers(rt: &impl Abort, alloc: Global) -> bool {
    let made = AtomicU64::new(0);
    let (first, _one) = open(alloc).expect(rt, "memory");
    let (second, _other) = open(alloc).expect(rt, "memory");
    let right = two_at_once(first, second, &made, 3);
    right && made.load(Ordering::SeqCst) == 6
}

/// There is nothing to do beside.
fn alone(rt: &(impl Threads + Sync), alloc: Global) -> bool {
    let made = AtomicU64::new(0);
    let workers: Vec<Worker<Twice>> = Vec::new(alloc);
    beside(rt, workers, &made, move || 5) == 5 && made.load(Ordering::SeqCst) == 0
}

#[test]
fn pieces_are_made(rt: HostRuntime) {
    assert!(rt; by_workers(&rt, rt.alloc()));
    assert!(rt; without_workers(&rt, rt.alloc()));
    assert!(rt; alone(&rt, rt.alloc()));
}
