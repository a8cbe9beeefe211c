//! The caller's end.

ghost use Rattle.std.specs.Prelude.{◌≡◌, IfSome};

use crate::desk::{Desk, END, LOOK, MadeBy, Place, REST, Work, taken, wait};
use crate::worker::Worker;
use std::alloc::Global;
use std::marker::Model;
use std::snapshot::Snapshot;
use std::sync::Arc;
use std::sync::atomic::{AtomicU64, Ordering};
use turn_table::{Pass, TurnTable};

/// The right to hand a piece of work to a worker that has none.
#[derive(Drop)]
pub struct Hand<W: Work> {
    place: Arc<Place<W>, Global>,
    pass: Pass<Desk<W>>,
}

impl<W: Work> Model for Hand<W> {
    ghost use Rattle.std.specs.Arc.{arc_value};
    ghost use Rattle.side_work.specs.Places.{IsHeld};

    ghost Value = { Unit {0} };

    ghost view = { λ _. tt };

    ghost invariant = { λ h. IsHeld (arc_value h.place).table h.pass };
}

/// A piece of work that was handed to a worker. Contracts see it as that piece.
#[derive(Drop)]
pub struct Lent<W: Work> {
    place: Arc<Place<W>, Global>,
    pass: Pass<Desk<W>>,
    asked: Snapshot<W>,
}

impl<W: Work> Model for Lent<W> {
    ghost use Rattle.std.specs.Arc.{arc_value};
    ghost use Rattle.side_work.specs.Places.{IsLent};

    ghost Value = { W };

    ghost view = { λ l. l.asked.value };

    ghost invariant = { λ l. IsLent (arc_value l.place).table l.pass l.asked.value };
}

/// A hand, and the worker that serves it. None where memory runs out.
pub fn open<W: Work>(alloc: Global) -> Option<(Hand<W>, Worker<W>)> {
    let Ok((table, mut passes)) = TurnTable::open(alloc, 2, Desk::asked(None)) else {
        return None;
    };
    let second = passes.pop()?;
    let mut first = passes.pop()?;
    let _ = table.try_take(&mut first)?;
    let call = AtomicU64::new(REST);
    let Ok(place) = Arc::new(alloc, Place { table, call }) else {
        return None;
    };
    let Ok(other) = Arc::try_clone(&place) else {
        return None;
    };
    Some((Hand { place, pass: first }, Worker::at(other, second)))
}

impl<W: Work> Hand<W> {
    /// Hands a piece of work over.
    pub fn lend(self, work: W) -> Lent<W>
        ensures { result ≡ work }
    {
        let Hand { place, mut pass } = self;
        let asked = Snapshot::of(&work);
        place.call.store(LOOK, Ordering::SeqCst);
        place.table.give(&mut pass, Desk::asked(Some(work)));
        Lent { place, pass, asked }
    }

    /// The worker has no more to do.
    pub fn end(self) {
        self.place.call.store(END, Ordering::SeqCst);
    }
}

/// The piece that was lent, made: by the worker, or here where the worker hasn't come to it. None would come only
/// behind more tries than any run makes.
pub fn fetch<X, W: MadeBy<X>>(lent: Lent<W>, tool: &X) -> Option<(Hand<W>, W)>
    ensures { IfSome result (λ r. W.makes lent r.1) }
{
    let Lent {
        place,
        mut pass,
        asked,
    } = lent;
    let mut times = 0;
    for _ in 0..u64::MAX {
        if let Some(desk) = place.table.try_take(&mut pass) {
            place.call.store(REST, Ordering::SeqCst);
            return Some((Hand { place, pass }, taken(desk, asked, tool)));
        }
        times = wait(times);
    }
    None
}
