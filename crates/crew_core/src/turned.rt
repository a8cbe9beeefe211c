//! What a turn came to.

ghost use Rattle.std.specs.Prelude.{◌≡◌, ◌==◌, Some};
ghost use Rattle.std.specs.Option.{option_eq};
ghost use Rattle.log_entry.specs.Parts.{strength};
ghost use Rattle.turn_model.specs.Turn as turns;
ghost use Rattle.crew_core.specs.Orders.{told, told_of};
ghost use Rattle.crew_core.specs.Turns.{noted_by};

use crate::order::Order;
use rv_words::Mode;

/// What a turn of a hart may change, beside the items that it makes.
#[derive(Clone, Copy)]
pub(crate) struct Noted {
    pub(crate) want: Option<(u32, Mode)>,
    pub(crate) order: Option<Order>,
    pub(crate) favoured: u8,
    pub(crate) closed: bool,
    pub(crate) entries: u64,
}

/// What a turn came to: how the hart goes on, the moves that were committed, the items that were made, and whether
/// anything was changed.
#[derive(Clone, Copy)]
pub(crate) struct Turned {
    pub(crate) order: Order,
    pub(crate) moves: u32,
    pub(crate) items: u64,
    pub(crate) noted: bool,
}

fn same_mode(mode: Mode, other: Mode) -> bool
    ensures { result ≡ (strength (Some mode) == strength (Some other)) }
{
    match (mode, other) {
        (Mode::Read, Mode::Read) | (Mode::Write, Mode::Write) => true,
        (Mode::Read, Mode::Write) | (Mode::Write, Mode::Read) => false,
    }
}

fn same_want(want: Option<(u32, Mode)>, other: Option<(u32, Mode)>) -> bool
    ensures { result ≡ option_eq turns.same_want want other }
{
    match (want, other) {
        (Some((page, mode)), Some((further, another))) => {
            page == further && same_mode(mode, another)
        }
        (None, None) => true,
        (Some(_), None) | (None, Some(_)) => false,
    }
}

fn same_order(order: Order, other: Order) -> bool
    ensures { result ≡ turns.same_order (told order) (told other) }
{
    match (order, other) {
        (Order::Go { until }, Order::Go { until: further }) => until == further,
        (
            Order::Hold { page, other },
            Order::Hold {
                page: further,
                other: another,
            },
        ) => { page == further && other == another }
        (Order::Rest, Order::Rest) => true,
        _ => false,
    }
}

fn same_told(order: Option<Order>, other: Option<Order>) -> bool
    ensures { result ≡ option_eq turns.same_order (told_of order) (told_of other) }
{
    match (order, other) {
        (Some(order), Some(other)) => same_order(order, other),
        (None, None) => true,
        (Some(_), None) | (None, Some(_)) => false,
    }
}

impl Noted {
    /// Whether a turn with so many items that began so and ended here changed anything.
    pub(crate) fn differs(self, before: Noted, items: u64) -> bool
        ensures { result ≡ noted_by before self items }
    {
        let want = same_want(before.want, self.want);
        let order = same_told(before.order, self.order);
        items != 0
            || !want
            || !order
            || before.favoured != self.favoured
            || before.closed != self.closed
    }
}
