//! The worker's end.

ghost use Rattle.std.specs.Arc.{arc_value};
ghost use Rattle.std.specs.Prelude.{◌≡◌};
ghost use Rattle.std.specs.Thread.{IsSend, IsSync};
ghost use Rattle.side_work.specs.Places.{IsServed};

use crate::desk::{Desk, END, LOOK, MadeBy, Place, REST, Work, made, wait};
use std::alloc::Global;
use std::marker::Model;
use std::sync::Arc;
use std::sync::atomic::Ordering;
use std::thread::{Threads, join};
use turn_table::Pass;

/// Makes the pieces of work that its hand lends.
#[derive(Drop)]
pub struct Worker<W: Work> {
    place: Arc<Place<W>, Global>,
    pass: Pass<Desk<W>>,
}

impl<W: Work> Model for Worker<W> {
    ghost use Rattle.std.specs.Arc.{arc_value};
    ghost use Rattle.side_work.specs.Places.{IsServed};

    ghost Value = { Unit {0} };

    ghost view = { λ _. tt };

    ghost invariant = { λ w. IsServed (arc_value w.place).table w.pass };
}

/// Makes the piece that lies at the place, if one does.
fn serve_one<X, W: MadeBy<X>>(place: &Place<W>, pass: &mut Pass<Desk<W>>, tool: &X)
    requires { IsServed place.now.table pass.old }
    ensures { IsServed place.now.table pass.new }
{
    if let Some(desk) = place.table.try_take(pass) {
        place.call.store(REST, Ordering::SeqCst);
        place.table.give(pass, made(desk, tool));
    }
}

impl<W: Work> Worker<W> {
    pub(crate) fn at(place: Arc<Place<W>, Global>, pass: Pass<Desk<W>>) -> Worker<W>
        requires { IsServed (arc_value place).table pass }
    {
        Worker { place, pass }
    }
}

/// Makes what the worker's hand lends, until the hand ends.
fn serve<X, W: MadeBy<X>>(worker: Worker<W>, tool: &X) {
    let Worker { place, mut pass } = worker;
    let mut times = 0;
    for _ in 0..u64::MAX {
        match place.call.load(Ordering::SeqCst) {
            END => return,
            LOOK => {
                serve_one(&place, &mut pass, tool);
                times = 0;
            }
            _ => times = wait(times),
        }
    }
}

/// Calls `f` here, and meanwhile each worker serves in a thread of its own. Where no thread can be had, its hand makes
/// the work itself. It returns once all hands have ended, or behind more looks than any run makes.
pub fn beside<T: Threads + Sync, X: Sync, W: MadeBy<X>, Y, F: FnOnce() -> Y>(
    rt: &T,
    mut workers: Vec<Worker<W>>,
    tool: &X,
    f: F,
) -> Y
    requires { F.pre f }
    ensures { F.post f result }
{
    let Some(worker) = workers.pop() else {
        return f();
    };
    let (_, result) = join(
        rt,
        move || serve(worker, tool),
        move || -> Y
            requires { IsSync T.row × IsSync X.row × IsSend W.row × F.pre f }
            ensures { F.post f result }
        { beside(rt, workers, tool, f) },
    );
    result
}
