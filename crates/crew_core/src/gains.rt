//! A hart gains the pages that its next move needs.

ghost use Rattle.std.specs.Prelude.{◌≡◌, ◌<◌, ◌≤◌, ◌+◌, ◌*◌, ◌-◌, ◌&&◌, find, length};
ghost use Rattle.std.specs.Prelude.{is_some, IsTrue, Some, None};
ghost use Rattle.std.specs.List.{range_with_len};
ghost use Rattle.rv_words.specs.Limits.{longest_log};
ghost use Rattle.log_entry.specs.Parts.{strength, conflict};
ghost use Rattle.order_rules.specs.Holders.{held};
ghost use Rattle.privilege_directory.specs.Directory.{may_gain, by_others, yields_of};
ghost use Rattle.run_model.specs.Run.{ahead_of, hold_of};
ghost use Rattle.turn_model.specs.Steps as steps;
ghost use Rattle.crew_parts.specs.Boards.{the_machine};
ghost use Rattle.crew_core.specs.Seats.{HasRoomFor, KeepsRoom};
ghost use Rattle.crew_core.specs.Standing.{IsTied, terms_of};
ghost use Rattle.crew_core.specs.Does.{StepDoes, MakesEntry};
ghost use Rattle.crew_core.specs.Does.{rivals};
ghost use Rattle.crew_core.specs.Calls.{MakesPageEntry, keeper_in, KeptBy, wanting};
ghost use Rattle.crew_core.specs.Calls.{IsNotWanting, IsRoomy};

use crate::crew::Crew;
use crate::order::Order;
use crate::rules::{GAIN_BYTES, WAIT_BYTES, is_against};
use hart_run::{Ahead, HartRun};
use log_entry::{Entry, Waits};
use rv_words::{Cause, Mode};

impl Crew {
    /// Whether another hart stands before this one and has stored a want of the page that conflicts.
    pub(crate) fn is_rival(&self, other: u8, hart: u8, page: u32, mode: Mode) -> bool
        requires other { other < self.now.harts }
        requires hart { hart < self.now.harts }
        requires favoured { self.now.favoured < self.now.harts }
        requires few { self.now.harts ≤ 8 }
        requires wants { length self.now.directory.wants ≡ self.now.harts }
        ensures { result ≡ rivals self.now hart page mode other }
    {
        let before = self.rank(other) < self.rank(hart);
        let against = is_against(self.directory.asked(other), page, mode);
        before && against
    }

    /// The least such hart.
    pub(crate) fn rival(&self, hart: u8, page: u32, mode: Mode) -> Option<u8>
        requires hart { hart < self.now.harts }
        requires favoured { self.now.favoured < self.now.harts }
        requires few { self.now.harts ≤ 8 }
        requires wants { length self.now.directory.wants ≡ self.now.harts }
        ensures { result ≡ find (rivals self.now hart page mode) (range_with_len 0 self.now.harts) }
    {
        let harts = self.harts;
        for other in 0..harts {
            if self.is_rival(other, hart, page, mode) {
                return Some(other);
            }
        }
        None
    }

    /// What keeps the hart from a page: the least other that holds it in conflict, else the least that stands before it
    /// and has stored a conflicting want.
    pub(crate) fn kept_by(&self, hart: u8, page: u32, mode: Mode) -> Option<u8>
        requires hart { hart < self.now.harts }
        requires page { page < length self.now.directory.holders }
        requires favoured { self.now.favoured < self.now.harts }
        requires few { self.now.harts ≤ 8 }
        requires wants { length self.now.directory.wants ≡ self.now.harts }
        ensures value { result ≡ keeper_in self.now hart page mode }
        ensures model { KeptBy self.now hart page mode result }
    {
        match self.directory.clash(hart, page, mode) {
            Some(other) => Some(other),
            None => self.rival(hart, page, mode),
        }
    }

    /// Stores that the hart wants a page.
    pub(crate) fn ask(&mut self, hart: u8, page: u32, mode: Mode)
        requires { hart < length self.old.directory.wants }
        ensures { self.new ≡ wanting self.old hart (Some (page, mode)) }
    {
        self.directory.ask(hart, Some((page, mode)));
    }

    /// The hart gains a page that it doesn't hold so, or its want is stored where another hart keeps it.
    pub(crate) fn gains_page(
        &mut self,
        run: &mut HartRun,
        hart: u8,
        page: u32,
        mode: Mode,
        waits: Waits,
    ) -> Option<Order>
        requires tied { IsTied self.old run.old hart }
        requires hart { hart < self.old.harts }
        requires page { page < self.old.pages }
        requires lacks { strength (hold_of run.old page) < strength (Some mode) }
        requires room { HasRoomFor 1 self.old.seats hart }
        requires waits { IsRoomy waits }
        ensures harts { self.new.harts ≡ self.old.harts }
        ensures closed { result ≡ None → self.new.closed ≡ self.old.closed }
        ensures devices { self.new.backing.devices ≡ self.old.backing.devices }
        ensures limit { self.new.limit ≡ self.old.limit }
        ensures count { run.new.count ≡ run.old.count }
        ensures pages { self.new.pages ≡ self.old.pages }
        ensures room { KeepsRoom self.old.seats self.new.seats hart }
        ensures does { StepDoes self.old self.new run.old run.new hart result
            (steps.gains_page the_machine (terms_of self.old) hart (page, mode)) }
    {
        if let Some(other) = self.kept_by(hart, page, mode) {
            self.ask(hart, page, mode);
            return Some(Order::Hold { page, other });
        }
        let bytes = GAIN_BYTES + WAIT_BYTES * self.directory.waiting(hart, page);
        if !self.has_room(bytes) {
            self.close(Cause::Full);
            return Some(Order::Rest);
        }
        self.gain_page(run, hart, page, mode, waits);
        None
    }

    /// The hart gains the pages that its next move needs and it doesn't hold so, two at most.
    pub(crate) fn gains(
        &mut self,
        run: &mut HartRun,
        hart: u8,
        first: Waits,
        second: Waits,
    ) -> Option<Order>
        requires tied { IsTied self.old run.old hart }
        requires hart { hart < self.old.harts }
        requires room { HasRoomFor 3 self.old.seats hart }
        requires first { IsRoomy first }
        requires second { IsRoomy second }
        ensures closed { result ≡ None → self.new.closed ≡ self.old.closed }
        ensures devices { self.new.backing.devices ≡ self.old.backing.devices }
        ensures limit { self.new.limit ≡ self.old.limit }
        ensures harts { self.new.harts ≡ self.old.harts }
        ensures count { run.new.count ≡ run.old.count }
        ensures room { result ≡ None → HasRoomFor 1 self.new.seats hart }
        ensures held { result ≡ None → IsNotWanting (ahead_of run.new) }
        ensures does { StepDoes self.old self.new run.old run.new hart result
            (steps.gains the_machine (terms_of self.old) hart) }
    {
        let Ahead::Wants(page, mode) = run.ahead() else {
            return None;
        };
        let order = self.gains_page(run, hart, page, mode, first);
        if order.is_some() {
            return order;
        }
        let Ahead::Wants(further, other_mode) = run.ahead() else {
            return None;
        };
        self.gains_page(run, hart, further, other_mode, second)
    }

    /// The hart holds a page in a mode from now on. `waits` is empty, with room for the Yields that it comes behind.
    pub(crate) fn gain_page(
        &mut self,
        run: &mut HartRun,
        hart: u8,
        page: u32,
        mode: Mode,
        mut waits: Waits,
    )
        requires tied { IsTied self.old run.old hart }
        requires hart { hart < self.old.harts }
        requires page { page < self.old.pages }
        requires allowed { IsTrue (may_gain self.old.directory hart page mode) }
        requires bytes { self.old.size
            + (GAIN_BYTES + WAIT_BYTES * length (by_others hart (yields_of self.old.directory page))) ≤ longest_log }
        requires room { HasRoomFor 1 self.old.seats hart }
        requires waits { IsRoomy waits }
        ensures frame { MakesPageEntry self.old self.new self.new.size }
        ensures devices { self.new.backing.devices ≡ self.old.backing.devices }
        ensures count { run.new.count ≡ run.old.count }
        ensures room { KeepsRoom self.old.seats self.new.seats hart }
        ensures enters { MakesEntry self.old self.new run.old run.new hart
            (steps.gain_of the_machine (terms_of self.old) hart (page, mode)) }
    {
        let count = run.count();
        let seq = self.directory.gain(hart, page, mode, &mut waits);
        self.backing.gain(run, page, mode);
        let bytes = GAIN_BYTES + WAIT_BYTES * waits.items().len() as u64;
        self.enter(
            hart,
            Entry::Gain {
                count,
                page,
                seq,
                mode,
                waits,
            },
            bytes,
        );
    }
}
