//! A hart yields pages that others want.

ghost use Rattle.std.specs.Prelude.{◌≡◌, ◌<◌, ◌≤◌, ◌+◌, ◌-◌, ◌&&◌, ◌==◌};
ghost use Rattle.std.specs.Prelude.{is_some, Some, None};
ghost use Rattle.rv_words.specs.Limits.{longest_log};
ghost use Rattle.log_entry.specs.declared.log.Entry.TheVariants.{Yield};
ghost use Rattle.log_entry.specs.Parts.{strength, conflict};
ghost use Rattle.order_rules.specs.Holders.{held};
ghost use Rattle.replay_model.specs.Journal.{left_for};
ghost use Rattle.turn_model.specs.Steps as steps;
ghost use Rattle.crew_parts.specs.Boards.{the_machine};
ghost use Rattle.crew_core.specs.Seats.{HasRoomFor, KeepsRoom};
ghost use Rattle.crew_core.specs.Standing.{IsTied, terms_of};
ghost use Rattle.crew_core.specs.Does.{StepDoes, MakesEntry};
ghost use Rattle.crew_core.specs.Calls.{MakesPageEntry, yield_by};
ghost use Rattle.crew_core.specs.Calls.{claims_in, yields_in, YieldsNow};

use crate::crew::Crew;
use crate::order::Order;
use crate::rules::{YIELD_BYTES, conflict, holds_on, left_for};
use hart_run::HartRun;
use log_entry::Entry;
use rv_words::{Cause, Mode};

impl Crew {
    /// The hart keeps only what is left of a page.
    pub(crate) fn yield_page(&mut self, run: &mut HartRun, hart: u8, page: u32, left: Option<Mode>)
        requires tied { IsTied self.old run.old hart }
        requires hart { hart < self.old.harts }
        requires page { page < self.old.pages }
        requires less { strength left < strength (held self.old.directory.holders page hart) }
        requires bytes { self.old.size + YIELD_BYTES ≤ longest_log }
        requires room { HasRoomFor 1 self.old.seats hart }
        ensures frame { MakesPageEntry self.old self.new (self.old.size + YIELD_BYTES) }
        ensures devices { self.new.backing.devices ≡ self.old.backing.devices }
        ensures count { run.new.count ≡ run.old.count }
        ensures room { KeepsRoom self.old.seats self.new.seats hart }
        ensures enters { MakesEntry self.old self.new run.old run.new hart (yield_by hart page left) }
    {
        let count = run.count();
        let seq = self.directory.yield_to(hart, page, count, left);
        let _ = self.backing.yield_page(run, page, left);
        self.enter(
            hart,
            Entry::Yield {
                count,
                page,
                seq,
                left,
            },
            YIELD_BYTES,
        );
    }

    /// Whether the hart claims a page against a mode.
    pub(crate) fn claims_against(&self, run: &HartRun, page: u32, mode: Mode) -> bool
        ensures { result ≡ claims_in self.now run.now page mode }
    {
        run.count() != self.limit && conflict(run.claim(page), mode)
    }

    /// Whether the hart yields a page to another that wants it in a mode.
    pub(crate) fn yields_now(
        &self,
        run: &HartRun,
        hart: u8,
        other: u8,
        page: u32,
        mode: Mode,
    ) -> bool
        requires tied { IsTied self.now run.now hart }
        requires hart { hart < self.now.harts }
        requires other { other < self.now.harts }
        requires page { page < self.now.pages }
        ensures value { result ≡ yields_in self.now run.now hart other page mode }
        ensures model { YieldsNow self.now run.now hart other page mode result }
    {
        let holds = conflict(self.directory.holds(hart, page), mode);
        let claims = self.claims_against(run, page, mode);
        let before = self.rank(hart) < self.rank(other);
        holds_on(holds, claims, before)
    }

    /// Yields the page that another hart has stored a want of, where it conflicts with what the hart holds, unless the
    /// hart claims it and stands before it.
    pub(crate) fn yields_to(&mut self, run: &mut HartRun, hart: u8, other: u8) -> Option<Order>
        requires tied { IsTied self.old run.old hart }
        requires hart { hart < self.old.harts }
        requires other { other < self.old.harts }
        requires room { HasRoomFor 1 self.old.seats hart }
        ensures harts { self.new.harts ≡ self.old.harts }
        ensures closed { result ≡ None → self.new.closed ≡ self.old.closed }
        ensures devices { self.new.backing.devices ≡ self.old.backing.devices }
        ensures limit { self.new.limit ≡ self.old.limit }
        ensures count { run.new.count ≡ run.old.count }
        ensures room { KeepsRoom self.old.seats self.new.seats hart }
        ensures does { StepDoes self.old self.new run.old run.new hart result
            (steps.yields_to the_machine (terms_of self.old) hart other) }
    {
        if other == hart {
            return None;
        }
        let Some((page, mode)) = self.directory.asked(other) else {
            return None;
        };
        if !self.yields_now(run, hart, other, page, mode) {
            return None;
        }
        if !self.has_room(YIELD_BYTES) {
            self.close(Cause::Full);
            return Some(Order::Rest);
        }
        self.yield_page(run, hart, page, left_for(mode));
        None
    }

    /// Yields to each other hart in turn what it wants.
    pub(crate) fn yields(&mut self, run: &mut HartRun, hart: u8) -> Option<Order>
        requires tied { IsTied self.old run.old hart }
        requires hart { hart < self.old.harts }
        requires room { HasRoomFor 11 self.old.seats hart }
        ensures closed { result ≡ None → self.new.closed ≡ self.old.closed }
        ensures devices { self.new.backing.devices ≡ self.old.backing.devices }
        ensures limit { self.new.limit ≡ self.old.limit }
        ensures harts { self.new.harts ≡ self.old.harts }
        ensures count { run.new.count ≡ run.old.count }
        ensures room { result ≡ None → HasRoomFor 3 self.new.seats hart }
        ensures does { StepDoes self.old self.new run.old run.new hart result
            (steps.yields the_machine (terms_of self.old) hart) }
    {
        let harts = self.harts;
        for other in 0..harts {
            let order = self.yields_to(run, hart, other);
            if order.is_some() {
                return order;
            }
        }
        None
    }
}
