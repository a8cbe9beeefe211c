//! What harts hold of a page while its entries are taken one by one.
ghost use Rattle.std.specs.Prelude.{◌≡◌, ◌<◌, ◌&&◌, ◌||◌, ◌==◌, not, false, [], length, replicate, slice_set, Some, None, IfOk};
ghost use lib.Pointwise.{pointwise};
ghost use Rattle.log_entry.specs.Parts.{conflict as conflict_of, holds_then as holds_then_of, strength as strength_of};
ghost use Rattle.order_rules.specs.Rules.{same_wait as is_same_wait};
ghost use Rattle.log_order.specs.Holding.{hold_of, held_then, conflicts_with_another as conflicts_in, holds_wrongly as holds_wrongly_in, waits_of, waits_wrongly as waits_wrongly_in};

use log_entry::{Entry, Mode, WaitFor};
use std::alloc::{AllocError, Global};
use std::marker::Model;

/// What each hart holds of a page, and the page's yields since its latest gain. These are few, since each left
/// less than its hart held.
#[derive(Debug, Drop)]
pub(crate) struct Holding {
    holds: Vec<Option<Mode>>,
    yields: Vec<WaitFor>,
}

impl Model for Holding {
    ghost use Rattle.log_order.specs.Holding.{Holding as HoldingView, YieldsAreFew};

    ghost Value = { HoldingView };

    ghost view = { λ h. record { holds = h.holds.items; yields = h.yields.items } };

    ghost invariant = { λ h. YieldsAreFew h.holds.items h.yields.items };
}

fn holds_then(e: &Entry) -> Option<Mode>
    ensures { result ≡ holds_then_of e.now }
{
    match e {
        Entry::Gain { mode, .. } => Some(*mode),
        Entry::Yield { left, .. } => *left,
        _ => None,
    }
}

fn strength(held: Option<Mode>) -> u8
    ensures { result ≡ strength_of held }
{
    match held {
        None => 0,
        Some(Mode::Read) => 1,
        Some(Mode::Write) => 2,
    }
}

fn conflict(mode: Mode, held: Option<Mode>) -> bool
    ensures { result ≡ conflict_of (Some mode) held }
{
    match held {
        None => false,
        Some(other) => mode.conflicts_with(other),
    }
}

fn conflicts_at(holds: &[Option<Mode>], g: usize, hart: usize, mode: Mode) -> bool
    requires { g < length holds.now }
    ensures { result ≡ (not (g == hart) && conflict_of (Some mode) (hold_of holds.now g)) }
{
    g != hart && conflict(mode, holds[g])
}

fn conflicts_with_another(holds: &[Option<Mode>], hart: usize, mode: Mode) -> bool
    ensures { result ≡ conflicts_in holds.now hart mode }
{
    for g in 0..holds.len() {
        if conflicts_at(holds, g, hart, mode) {
            return true;
        }
    }
    false
}

fn same_wait(a: WaitFor, b: WaitFor) -> bool
    ensures { result ≡ is_same_wait a b }
{
    a.hart == b.hart && a.count == b.count
}

fn waits_match(waits: &[WaitFor], yields: &[WaitFor], hart: u8) -> bool
    ensures { result ≡ pointwise is_same_wait waits.now (waits_of yields.now hart) }
{
    let mut matched = 0;
    for wait in yields {
        if wait.hart != hart {
            if matched == waits.len() || !same_wait(waits[matched], *wait) {
                return false;
            }
            matched += 1;
        }
    }
    matched == waits.len()
}

impl Holding {
    /// Nobody holds anything.
    pub(crate) fn start(alloc: Global, harts: usize) -> Result<Holding, AllocError>
        ensures holds { IfOk result (λ s. s.holds ≡ replicate harts None) }
        ensures yields { IfOk result (λ s. s.yields ≡ []) }
    {
        let holds = vec![in alloc; None; harts]?;
        Ok(Holding {
            holds,
            yields: Vec::new(alloc),
        })
    }

    /// Whether an entry of the hart gives no more, or leaves no less, than the hart holds, or
    /// conflicts with another holder.
    pub(crate) fn holds_wrongly(&self, hart: u8, e: &Entry) -> bool
        requires { hart < length self.now.holds }
        ensures { result ≡ holds_wrongly_in self.now.holds hart e.now }
    {
        let held = self.holds[hart as usize];
        match e {
            Entry::Gain { mode, .. } => {
                strength(Some(*mode)) <= strength(held)
                    || conflicts_with_another(self.holds.as_slice(), hart as usize, *mode)
            }
            Entry::Yield { left, .. } => strength(held) <= strength(*left),
            _ => false,
        }
    }

    /// Whether a gain of the hart waits for other yields than those of other harts.
    pub(crate) fn waits_wrongly(&self, hart: u8, e: &Entry) -> bool
        ensures { result ≡ waits_wrongly_in self.now.yields hart e.now }
    {
        match e {
            Entry::Gain { waits, .. } => !waits_match(waits.items(), self.yields.as_slice(), hart),
            _ => false,
        }
    }

    /// No entry has the number.
    pub(crate) fn skip(&mut self)
        ensures { self.new ≡ held_then self.old None }
    {
        self.yields.clear();
    }

    /// The entry of a hart is taken, which neither gives too little nor leaves too much.
    pub(crate) fn take(&mut self, hart: u8, e: &Entry) -> Result<(), AllocError>
        requires hart { hart < length self.old.holds }
        requires right { holds_wrongly_in self.old.holds hart e.now ≡ false }
        ensures { IfOk result (λ _. self.new ≡ held_then self.old (Some (hart, e.now))) }
    {
        self.holds[hart as usize] = holds_then(e);
        match e {
            Entry::Yield { count, .. } => {
                let count = *count;
                self.yields.push(WaitFor { hart, count })?;
            }
            _ => self.yields.clear(),
        }
        Ok(())
    }

    /// The entry of a hart is taken, whatever it gives or leaves. No yields are kept.
    pub(crate) fn take_hold(&mut self, hart: u8, e: &Entry)
        requires { hart < length self.old.holds }
        ensures { self.new ≡ record { holds = slice_set self.old.holds hart (holds_then_of e.now); yields = [] } }
    {
        self.holds[hart as usize] = holds_then(e);
        self.yields.clear();
    }
}
