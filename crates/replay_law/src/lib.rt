//! Replays of an orderly log agree, in whatever order its harts go (docs/replay.md). The functions have no bodies: they
//! promise the laws.
#![tactic(auto)]

ghost use Rattle.replay_law.specs.Laws.{CanGoGoes, ItemsCommute, EqualSharesAgree, AllOrdersAgree, AtomicsAgree};
ghost use Rattle.replay_law.specs.Worked.{AreAtomic};
ghost use Rattle.replay_law.specs.Laws.{FullOrderIsThere, LeastEndsThere, OrdersTellOutcome};

/// Atomic moves that were worked out by hand are what they should be.
pub fn worked_atomics()
    ensures { AreAtomic }
{}

/// A hart that can go makes its item: an order is full only where no hart can go.
pub fn can_go_goes()
    ensures { CanGoGoes }
{}

/// Two harts that can go at a state of a replay come to one state, either first.
pub fn items_commute()
    ensures { ItemsCommute }
{}

/// Two orders that obey an orderly log, in which each hart goes equally often, lead to one state, with the same moves of
/// each hart.
pub fn equal_shares_agree()
    ensures { EqualSharesAgree }
{}

/// Any two full orders that obey an orderly log end in one state, with the same moves of each hart and the same atomic
/// moves on each word.
pub fn all_orders_agree()
    ensures state { AllOrdersAgree }
    ensures atomics { AtomicsAgree }
{}

/// There is a full order that obeys an orderly log.
pub fn full_order_is_there()
    ensures { FullOrderIsThere }
{}

/// Where there is a full order, the least order is one too, and the outcome is read off the end of any.
pub fn least_ends_there()
    ensures state { LeastEndsThere }
    ensures outcome { OrdersTellOutcome }
{}
