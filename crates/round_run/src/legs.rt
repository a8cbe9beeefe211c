//! The legs of all harts, all at once.

ghost use Rattle.std.specs.Prelude.{◌≡◌, ◌<◌, ◌≤◌, ℕ, IfOk, None, OnOk, Some, length, slice_get, slice_index, slice_index_or, vec_capacity, vec_len};
ghost use Rattle.run_model.specs.Run.{Run};
ghost use Rattle.round_run.specs.Legs.{AreUntils, Goes, HaveGone, IsWithin, MayGo, until_told};

use crew_core::Order;
use hart_run::HartRun;
use outside::Gate;
use recorder::PLACES;
use shared_types::NoMemory;
use side_work::{Hand, MadeBy, Work, Worker, fetch, open};
use std::alloc::Global;
use std::marker::Model;

/// Up to which count a hart may move that was told this.
fn until_of(order: Option<Order>) -> Option<u64>
    ensures { result ≡ until_told order }
{
    match order {
        Some(Order::Go { until }) => Some(until),
        _ => None,
    }
}

/// Up to which counts the harts may move.
pub(crate) fn untils_of(orders: &[Option<Order>; PLACES]) -> [Option<u64>; PLACES]
    ensures { AreUntils orders.now result }
{
    let mut untils = [None; PLACES];
    for (place, order) in orders.iter().enumerate() {
        untils[place] = until_of(*order);
    }
    untils
}

/// A run goes on up to its count, if it has one.
fn go(run: &mut HartRun, until: Option<u64>)
    requires { IsWithin run.old until }
    ensures { Goes run.old run.new until }
{
    if let Some(until) = until {
        let _ = run.advance(until);
    }
}

/// A leg that a worker may make. Contracts see it as its run, and up to which count that may move.
#[derive(Drop)]
pub(crate) struct Leg {
    run: HartRun,
    until: Option<u64>,
    hart: u8,
    number: u64,
}

impl Model for Leg {
    ghost use Rattle.std.specs.Prelude.{ℕ, Option};
    ghost use Rattle.run_model.specs.Run.{Run};
    ghost use Rattle.round_run.specs.Legs.{IsWithin};

    ghost Value = { Run × Option ℕ };

    ghost view = { λ l. (l.run, l.until) };

    ghost invariant = { λ l. IsWithin l.run l.until };
}

impl Work for Leg {
    ghost makes = { λ old new. Goes old.0 new.0 old.1 };
}

impl<G: Gate> MadeBy<G> for Leg {
    /// Between two passes of the gate, if its hart may move.
    fn make(self, gate: &G) -> Leg {
        let Leg {
            mut run,
            until,
            hart,
            number,
        } = self;
        let moves = until.is_some();
        if moves {
            gate.pass(hart, number, false);
        }
        go(&mut run, until);
        if moves {
            gate.pass(hart, number, true);
        }
        Leg {
            run,
            until: None,
            hart,
            number,
        }
    }
}

/// The hands that lend legs to workers, each at its hart's place.
pub(crate) type Hands = Vec<Option<Hand<Leg>>>;

/// The hand at a place, which is then empty. None where no hart before it may move: then its leg is made here.
fn hand_at(hands: &mut Hands, untils: &[Option<u64>; PLACES], place: usize) -> Option<Hand<Leg>> {
    let moves = matches!(untils.get(place), Some(Some(_)));
    if !moves || !untils.iter().take(place).any(|until| until.is_some()) {
        return None;
    }
    match hands.get_mut(place) {
        Some(hand) => hand.take(),
        None => None,
    }
}

/// Puts a hand back to its place.
fn put_back(hands: &mut Hands, place: usize, hand: Hand<Leg>) {
    if let Some(slot) = hands.get_mut(place) {
        *slot = Some(hand);
    }
}

/// A leg, by the worker of the hand if there is one, and the legs of the harts before meanwhile.
#[cycle(legs)]
fn led<G: Gate>(
    hand: Option<Hand<Leg>>,
    leg: Leg,
    runs: &mut Vec<HartRun>,
    hands: &mut Hands,
    untils: &[Option<u64>; PLACES],
    gate: &G,
    numbers: &[u64; PLACES],
) -> Result<HartRun, NoMemory>
    requires few { vec_len runs.old ≤ PLACES }
    requires may { MayGo runs.old.items untils.now }
    ensures led { IfOk result (λ r. Goes leg.0 r leg.1) }
    ensures gone { OnOk result (HaveGone runs.old.items runs.new.items untils.now) }
    ensures capacity { OnOk result (vec_capacity runs.old ≤ vec_capacity runs.new) }
    ensures length { OnOk result (vec_len runs.new ≡ vec_len runs.old) }
{
    match hand {
        Some(hand) => {
            let place = runs.len();
            let lent = hand.lend(leg);
            legs(runs, hands, untils, gate, numbers)?;
            let Some((hand, made)) = fetch(lent, gate) else {
                return Err(NoMemory);
            };
            put_back(hands, place, hand);
            let Leg { run, .. } = made;
            Ok(run)
        }
        None => {
            legs(runs, hands, untils, gate, numbers)?;
            let Leg { run, .. } = leg.make(gate);
            Ok(run)
        }
    }
}

/// The legs of all harts that may move, each up to its count, and the one of this number: by the workers of the hands
/// that there are, the first hart's here. Err only where a hand waits for longer than any run.
#[cycle(legs)]
pub(crate) fn legs<G: Gate>(
    runs: &mut Vec<HartRun>,
    hands: &mut Hands,
    untils: &[Option<u64>; PLACES],
    gate: &G,
    numbers: &[u64; PLACES],
) -> Result<(), NoMemory>
    requires few { vec_len runs.old ≤ PLACES }
    requires may { MayGo runs.old.items untils.now }
    ensures gone { OnOk result (HaveGone runs.old.items runs.new.items untils.now) }
    ensures capacity { OnOk result (vec_capacity runs.old ≤ vec_capacity runs.new) }
    ensures length { OnOk result (vec_len runs.new ≡ vec_len runs.old) }
{
    let Some(run) = runs.pop() else {
        return Ok(());
    };
    let place = runs.len();
    let leg = Leg {
        run,
        until: untils[place],
        hart: place as u8,
        number: numbers[place],
    };
    let hand = hand_at(hands, untils, place);
    let made = led(hand, leg, runs, hands, untils, gate, numbers)?;
    runs.push_reserved(made);
    Ok(())
}

/// A hand for each hart but the first, and its worker; fewer where memory runs out.
pub(crate) fn helpers(alloc: Global, harts: u8) -> (Hands, Vec<Worker<Leg>>) {
    let mut hands = Vec::new(alloc);
    let mut workers = Vec::new(alloc);
    if hands.push(None).is_err() {
        return (hands, workers);
    }
    for _ in 1..harts {
        let Some((hand, worker)) = open(alloc) else {
            break;
        };
        if hands.push(Some(hand)).is_err() || workers.push(worker).is_err() {
            break;
        }
    }
    (hands, workers)
}

/// Ends the workers of all hands.
pub(crate) fn end_all(mut hands: Hands) {
    while let Some(place) = hands.pop() {
        if let Some(hand) = place {
            hand.end();
        }
    }
}

/// The counts of the runs, by their places.
pub(crate) fn counts_of(runs: &[HartRun]) -> [u64; PLACES]
    requires { length runs.now ≤ PLACES }
    ensures { (h : ℕ) (r : Run) → slice_get runs.now h ≡ Some r → slice_index result h ≡ r.count }
{
    let mut counts = [0; PLACES];
    for (place, run) in runs.iter().enumerate() {
        counts[place] = run.count();
    }
    counts
}

/// The numbers of the next legs, where harts that may move made one.
pub(crate) fn next_legs(untils: &[Option<u64>; PLACES], numbers: &mut [u64; PLACES]) {
    for (number, until) in numbers.iter_mut().zip(untils) {
        if until.is_some() {
            *number = number.saturating_add(1);
        }
    }
}
