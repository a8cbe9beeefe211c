//! What goes from hand to hand.

ghost use Rattle.std.specs.Prelude.{◌≡◌, ◌∷◌, [], None, Some};

use std::hint::spin_loop;
use std::marker::Model;
use std::snapshot::Snapshot;
use std::sync::atomic::AtomicU64;
use std::thread::yield_now;
use turn_table::{Parted, TurnTable};

/// A piece of work.
pub trait Work: Send + Drop {
    /// What a made piece is to the one that was handed in.
    ghost makes: { Self → Self → Type 0 };
}

/// Work that is made with a tool of this type, which all workers share.
pub trait MadeBy<X>: Work {
    fn make(self, tool: &X) -> Self
        ensures { Self.makes self result };
}

/// A piece of work as it was handed in, or made. Contracts see it as it was handed in.
#[derive(Drop)]
pub(crate) struct Desk<W: Work> {
    work: Option<W>,
    made: bool,
    /// As it was handed in.
    asked: Snapshot<Option<W>>,
}

impl<W: Work> Model for Desk<W> {
    ghost use Rattle.side_work.specs.Places.{IsMade};
    ghost use Rattle.std.specs.Prelude.{Option};

    ghost Value = { Option W };

    ghost view = { λ d. d.asked.value };

    ghost invariant = { λ d. IsMade W.makes d.made d.asked.value d.work };
}

impl<W: Work> Parted for Desk<W> {
    type Part = Option<W>;

    ghost parts = { λ d. d ∷ None ∷ [] };

    fn harts(&self) -> u8 {
        2
    }
}

impl<W: Work> Desk<W> {
    /// A piece that is to be made.
    pub(crate) fn asked(work: Option<W>) -> Desk<W>
        ensures { result ≡ work }
    {
        let asked = Snapshot::of(&work);
        Desk {
            work,
            made: false,
            asked,
        }
    }
}

/// The piece, made.
pub(crate) fn made<X, W: MadeBy<X>>(desk: Desk<W>, tool: &X) -> Desk<W>
    ensures { result ≡ desk }
{
    let Desk { work, made, asked } = desk;
    match (made, work) {
        (false, Some(work)) => Desk {
            work: Some(work.make(tool)),
            made: true,
            asked,
        },
        (made, work) => Desk { work, made, asked },
    }
}

/// The made piece.
pub(crate) fn taken<X, W: MadeBy<X>>(desk: Desk<W>, asked: Snapshot<W>, tool: &X) -> W
    requires { desk ≡ Some asked.value }
    ensures { W.makes asked.value result }
{
    let Desk { work, made, .. } = desk;
    let Some(work) = work else { unreachable!() };
    if made { work } else { work.make(tool) }
}

/// The worker has nothing to look for, is to look for its piece, or is to end.
pub(crate) const REST: u64 = 0;

pub(crate) const LOOK: u64 = 1;

pub(crate) const END: u64 = 2;

/// Where a worker finds its pieces. `call` says whether it is to look.
#[derive(Drop)]
pub(crate) struct Place<W: Work> {
    pub(crate) table: TurnTable<Desk<W>>,
    pub(crate) call: AtomicU64,
}

/// How often a waiting thread looks again at once, before it lets others go first.
const SPINS: u32 = 1_000;

/// Waits a little, and answers how often it has.
pub(crate) fn wait(times: u32) -> u32 {
    if times < SPINS {
        spin_loop();
        times + 1
    } else {
        yield_now();
        times
    }
}
