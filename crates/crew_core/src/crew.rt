//! The board between the harts' legs.

ghost use Rattle.std.specs.Prelude.{ℕ, ◌≡◌, ◌≢◌, ◌<◌, ◌≤◌, ◌+◌, ◌^◌, ◌-◌, ◌%◌, ◌&&◌, ◌||◌, ◌==◌, nat_le};
ghost use Rattle.std.specs.Prelude.{length};
ghost use Rattle.std.specs.Prelude.{unwrap_or, is_some, IfOk, Some, None};
ghost use Rattle.rv_words.specs.Limits.{longest_log};
ghost use Rattle.outside.specs.Seen.{ToldBefore};
ghost use Rattle.log_entry.specs.Room.{entry_without_room};
ghost use Rattle.order_rules.specs.Holders.{held};
ghost use Rattle.run_model.specs.Run.{ahead_of};
ghost use Rattle.turn_model.specs.Steps as steps;
ghost use Rattle.crew_parts.specs.Boards.{the_machine};
ghost use Rattle.crew_core.specs.Seats.{seat_of, entered_at, reach, HasRoomFor, KeepsRoom};
ghost use Rattle.crew_core.specs.Standing.{IsTied, terms_of};
ghost use Rattle.crew_core.specs.Does.{TakesSent, bytes_sent};
ghost use Rattle.crew_parts.specs.Turns.{CountsFaults};
ghost use Rattle.crew_core.specs.Does.{StepDoes, IsMoved, CommitsMoves, TimesDo, AccessDoes};
ghost use Rattle.crew_core.specs.Does.{rank_in, favour_after};
ghost use Rattle.crew_core.specs.Turns.{noted_in, TurnDoes};
ghost use Rattle.crew_core.specs.Calls.{terms_at, StandsAtStart, committed_in};
ghost use Rattle.crew_core.specs.Calls.{IsNotWanting, IsRoomy};
ghost use Rattle.crew_core.specs.Calls.{Rests, IsOpen, GoesOn, first_of, last_of, devices_of, closing_of, all_of};

use crate::order::Order;
use crate::rules::until_at;
use crate::seat::Seats;
use crate::turned::{Noted, Turned};
use board_backing::{Backing, Ends};
use elf_image::Image;
use hart_run::HartRun;
use log_entry::{Entries, Entry, Waits, frame_size};
use outside::{Clock, Console};
use privilege_directory::Directory;
use rv_words::{Cause, MAX_HARTS, PAGE_BYTES};
use shared_types::NoMemory;
use std::alloc::Global;

/// The board, but for console, clock and the rows of turns.
#[derive(Drop)]
pub(crate) struct Crew {
    pub(crate) pages: u16,
    pub(crate) image: [u8; 32],
    pub(crate) limit: u64,
    pub(crate) log_limit: u64,
    pub(crate) harts: u8,
    pub(crate) backing: Backing,
    pub(crate) directory: Directory,
    pub(crate) ordinal: u32,
    pub(crate) seats: Seats,
    pub(crate) size: u64,
    pub(crate) favoured: u8,
    pub(crate) closed: Option<Cause>,
    /// Room for what the board comes to.
    pub(crate) ends: Ends,
    pub(crate) streams: Vec<Entries>,
}

impl Crew {
    /// The board of an image before any turn.
    pub(crate) fn start(
        alloc: Global,
        image: &Image,
        harts: u8,
        limit: u64,
        log_limit: u64,
    ) -> Result<Crew, NoMemory>
        requires least { 1 ≤ harts }
        requires most { harts ≤ MAX_HARTS }
        requires log { log_limit ≤ longest_log }
        ensures terms { IfOk result (λ c. terms_of c ≡ terms_at image.now limit log_limit) }
        ensures stands { IfOk result (StandsAtStart image.now harts) }
    {
        let pages = image.pages();
        let backing = Backing::start(alloc, image, harts)?;
        let directory = Directory::start(alloc, harts, pages)?;
        let seats = Seats::start(alloc, harts)?;
        let ends = Ends::start(alloc, harts, image)?;
        let Ok(streams) = Vec::with_capacity(alloc, usize::from(harts)) else {
            return Err(NoMemory);
        };
        Ok(Crew {
            pages,
            image: image.digest(),
            limit,
            log_limit,
            harts,
            backing,
            directory,
            ordinal: 0,
            seats,
            size: frame_size(PAGE_BYTES, harts),
            favoured: 0,
            closed: None,
            ends,
            streams,
        })
    }

    /// Whether the log has room for so many bytes more.
    pub(crate) fn has_room(&self, bytes: u64) -> bool
        requires { self.now.size + bytes < 2 ^ 64 }
        ensures { result ≡ nat_le (self.now.size + bytes) self.now.log_limit }
    {
        self.size + bytes <= self.log_limit
    }

    /// Adds an entry of a hart, which takes so many bytes of the log.
    pub(crate) fn enter(&mut self, hart: u8, entry: Entry, bytes: u64)
        requires hart { hart < length self.old.seats }
        requires room { HasRoomFor 1 self.old.seats hart }
        requires bytes { self.old.size + bytes < 2 ^ 64 }
        ensures frame { self.new ≡ record self.old {
          seats = entered_at hart (entry_without_room entry) self.old.seats;
          size = self.old.size + bytes;
        } }
        ensures room { KeepsRoom self.old.seats self.new.seats hart }
    {
        self.seats.enter(hart, entry);
        self.size += bytes;
    }

    /// The board closes, if it hasn't before.
    pub(crate) fn close(&mut self, cause: Cause)
        ensures { self.new ≡ record self.old { closed = Some (unwrap_or self.old.closed cause) } }
    {
        if self.closed.is_none() {
            self.closed = Some(cause);
        }
    }

    /// How far a hart comes behind the favoured one.
    pub(crate) fn rank(&self, hart: u8) -> u8
        requires hart { hart < self.now.harts }
        requires favoured { self.now.favoured < self.now.harts }
        requires few { self.now.harts ≤ 8 }
        ensures { result ≡ rank_in self.now hart }
    {
        (hart + self.harts - self.favoured) % self.harts
    }

    /// The favoured hart passes the favour on where it has moved up to this count, or is at the limit.
    pub(crate) fn pass_favour(&mut self, hart: u8, count: u64)
        requires hart { hart < length self.old.seats }
        requires harts { hart < self.old.harts }
        requires few { self.old.harts ≤ 8 }
        ensures { self.new ≡ record self.old { favoured = favour_after self.old hart count } }
    {
        let moved = self.seats.count(hart) < count;
        if hart == self.favoured && (moved || count == self.limit) {
            self.favoured = (hart + 1) % self.harts;
        }
    }

    /// Commits the moves that the hart made since its last turn.
    pub(crate) fn commit(&mut self, run: &HartRun, hart: u8)
        requires led { IsMoved self.old run.now hart }
        requires hart { hart < self.old.harts }
        requires within { run.now.count ≤ self.old.limit }
        ensures frame { self.new ≡ committed_in self.old run.now hart }
        ensures commits { CommitsMoves self.old self.new run.now hart }
    {
        let count = run.count();
        self.pass_favour(hart, count);
        self.seats.commit(hart, count);
        self.directory.ask(hart, None);
    }

    /// Whether the board is closed or stop is set.
    pub(crate) fn is_shut(&self) -> bool
        ensures { result ≡ (is_some self.now.closed || is_some self.now.backing.devices.devices.stop) }
    {
        self.closed.is_some() || self.backing.devices.stop().is_some()
    }

    pub(crate) fn is_at_limit(&self, run: &HartRun) -> bool
        ensures value { result ≡ (run.now.count == self.now.limit) }
        ensures bound { self.now.limit < 2 ^ 64 }
    {
        run.count() == self.limit
    }

    /// Rests where the board is closed or stop is set.
    pub(crate) fn rests_where_closed(&self) -> Option<Order>
        ensures does { (h : ℕ) → Rests self.now h result }
        ensures open { result ≡ None → IsOpen self.now }
    {
        if self.is_shut() {
            return Some(Order::Rest);
        }
        None
    }

    /// Rests where the hart is at the limit.
    pub(crate) fn rests_at_limit(&self, run: &HartRun) -> Option<Order>
        ensures does { (h : ℕ) → StepDoes self.now self.now run.now run.now h result
            (steps.rests_at_limit the_machine (terms_of self.now) h) }
        ensures below { result ≡ None → run.now.count ≢ self.now.limit }
        ensures bound { self.now.limit < 2 ^ 64 }
    {
        if self.is_at_limit(run) {
            return Some(Order::Rest);
        }
        None
    }

    /// Tells the hart up to where it may go on by itself.
    pub(crate) fn goes_on(&self, run: &HartRun, hart: u8) -> Order
        requires tied { IsTied self.now run.now hart }
        requires hart { hart < self.now.harts }
        ensures { GoesOn self.now run.now hart result }
    {
        Order::Go {
            until: until_at(run.count(), self.limit, self.seats.polled(hart)),
        }
    }

    /// The steps up to the hart's yields.
    pub(crate) fn first_steps<K: Clock>(
        &mut self,
        run: &mut HartRun,
        clock: &mut K,
        hart: u8,
    ) -> Option<Order>
        requires tied { IsTied self.old run.old hart }
        requires hart { hart < self.old.harts }
        requires room { HasRoomFor 12 self.old.seats hart }
        ensures tells { ToldBefore (K.seen clock.old).tells (K.seen clock.new).tells }
        ensures closed { result ≡ None → self.new.closed ≡ self.old.closed }
        ensures open { result ≡ None → IsOpen self.new }
        ensures below { result ≡ None → run.new.count ≢ self.new.limit }
        ensures bound { result ≡ None → self.new.limit < 2 ^ 64 }
        ensures sent { bytes_sent self.new ≡ bytes_sent self.old }
        ensures spare { self.new.backing.devices.spare ≡ self.old.backing.devices.spare }
        ensures limit { self.new.limit ≡ self.old.limit }
        ensures harts { self.new.harts ≡ self.old.harts }
        ensures count { run.new.count ≡ run.old.count }
        ensures room { result ≡ None → HasRoomFor 3 self.new.seats hart }
        ensures does { TimesDo self.old self.new run.old run.new hart result
            (first_of self.old hart) (K.seen clock.old) (K.seen clock.new) }
    {
        let rests = self.rests_where_closed();
        if rests.is_some() {
            return rests;
        }
        let polled = self.polls(run, clock, hart);
        if polled.is_some() {
            return polled;
        }
        let yielded = self.yields(run, hart);
        if yielded.is_some() {
            return yielded;
        }
        self.rests_at_limit(run)
    }

    /// The steps behind them.
    pub(crate) fn last_steps<C: Console, K: Clock>(
        &mut self,
        run: &mut HartRun,
        console: &mut C,
        clock: &mut K,
        hart: u8,
        first: Waits,
        second: Waits,
    ) -> Order
        requires tied { IsTied self.old run.old hart }
        requires hart { hart < self.old.harts }
        requires open { IsOpen self.old }
        requires count { run.old.count < 2 ^ 64 - 1 }
        requires below { run.old.count < self.old.limit }
        requires spare { 0 < self.old.backing.devices.spare }
        requires room { HasRoomFor 3 self.old.seats hart }
        requires first { IsRoomy first }
        requires second { IsRoomy second }
        ensures harts { self.new.harts ≡ self.old.harts }
        ensures tells_answers { ToldBefore (C.seen console.old).tells_answers (C.seen console.new).tells_answers }
        ensures tells_taken { ToldBefore (C.seen console.old).tells_taken (C.seen console.new).tells_taken }
        ensures tells_times { ToldBefore (K.seen clock.old).tells (K.seen clock.new).tells }
        ensures faults { CountsFaults self.old.closed self.new.closed
            (C.seen console.old).faults (C.seen console.new).faults }
        ensures sent { TakesSent self.old self.new (C.seen console.old) (C.seen console.new) }
        ensures does { AccessDoes self.old self.new run.old run.new hart (Some result) (last_of self.old hart)
            (C.seen console.old) (C.seen console.new) (K.seen clock.old) (K.seen clock.new) }
    {
        match self.gains(run, hart, first, second) {
            Some(order) => order,
            None => self.device_steps(run, console, clock, hart),
        }
    }

    /// The steps behind the hart's gains.
    pub(crate) fn device_steps<C: Console, K: Clock>(
        &mut self,
        run: &mut HartRun,
        console: &mut C,
        clock: &mut K,
        hart: u8,
    ) -> Order
        requires tied { IsTied self.old run.old hart }
        requires hart { hart < self.old.harts }
        requires open { IsOpen self.old }
        requires held { IsNotWanting (ahead_of run.old) }
        requires count { run.old.count < 2 ^ 64 - 1 }
        requires below { run.old.count < self.old.limit }
        requires spare { 0 < self.old.backing.devices.spare }
        requires room { HasRoomFor 1 self.old.seats hart }
        ensures harts { self.new.harts ≡ self.old.harts }
        ensures tells_answers { ToldBefore (C.seen console.old).tells_answers (C.seen console.new).tells_answers }
        ensures tells_taken { ToldBefore (C.seen console.old).tells_taken (C.seen console.new).tells_taken }
        ensures tells_times { ToldBefore (K.seen clock.old).tells (K.seen clock.new).tells }
        ensures faults { CountsFaults self.old.closed self.new.closed
            (C.seen console.old).faults (C.seen console.new).faults }
        ensures sent { TakesSent self.old self.new (C.seen console.old) (C.seen console.new) }
        ensures does { AccessDoes self.old self.new run.old run.new hart (Some result) (devices_of self.old hart)
            (C.seen console.old) (C.seen console.new) (K.seen clock.old) (K.seen clock.new) }
    {
        match self.touches(run, console, clock, hart) {
            Some(order) => order,
            None => self.closing_steps(run, hart),
        }
    }

    /// The steps behind the hart's device access.
    pub(crate) fn closing_steps(&self, run: &HartRun, hart: u8) -> Order
        requires tied { IsTied self.now run.now hart }
        requires hart { hart < self.now.harts }
        ensures { StepDoes self.now self.now run.now run.now hart (Some result) (closing_of self.now hart) }
    {
        match self.rests_at_limit(run) {
            Some(order) => order,
            None => self.goes_on(run, hart),
        }
    }

    /// What follows the moves of a hart, in this order.
    pub(crate) fn steps<C: Console, K: Clock>(
        &mut self,
        run: &mut HartRun,
        console: &mut C,
        clock: &mut K,
        hart: u8,
        first: Waits,
        second: Waits,
    ) -> Order
        requires tied { IsTied self.old run.old hart }
        requires hart { hart < self.old.harts }
        requires within { run.old.count ≤ self.old.limit }
        requires spare { 0 < self.old.backing.devices.spare }
        requires room { HasRoomFor 12 self.old.seats hart }
        requires first { IsRoomy first }
        requires second { IsRoomy second }
        ensures harts { self.new.harts ≡ self.old.harts }
        ensures tells_answers { ToldBefore (C.seen console.old).tells_answers (C.seen console.new).tells_answers }
        ensures tells_taken { ToldBefore (C.seen console.old).tells_taken (C.seen console.new).tells_taken }
        ensures tells_times { ToldBefore (K.seen clock.old).tells (K.seen clock.new).tells }
        ensures faults { CountsFaults self.old.closed self.new.closed
            (C.seen console.old).faults (C.seen console.new).faults }
        ensures sent { TakesSent self.old self.new (C.seen console.old) (C.seen console.new) }
        ensures does { AccessDoes self.old self.new run.old run.new hart (Some result) (all_of self.old hart)
            (C.seen console.old) (C.seen console.new) (K.seen clock.old) (K.seen clock.new) }
    {
        match self.first_steps(run, clock, hart) {
            Some(order) => order,
            None => self.last_steps(run, console, clock, hart, first, second),
        }
    }

    /// What a turn of a hart may change, as it stands.
    pub(crate) fn noted(&self, hart: u8) -> Noted
        requires hart { hart < length self.now.seats }
        requires wants { hart < length self.now.directory.wants }
        ensures value { result ≡ noted_in self.now hart }
        ensures bound { result.entries < 2 ^ 63 }
    {
        Noted {
            want: self.directory.asked(hart),
            order: self.seats.order(hart),
            favoured: self.favoured,
            closed: self.closed.is_some(),
            entries: self.seats.entries(hart),
        }
    }

    /// The hart has a turn: its moves since its last one are committed, and then its steps are made. `first` and `second`
    /// are empty, with room for the Yields that a Gain comes behind.
    pub(crate) fn turn<C: Console, K: Clock>(
        &mut self,
        run: &mut HartRun,
        console: &mut C,
        clock: &mut K,
        hart: u8,
        first: Waits,
        second: Waits,
    ) -> Turned
        requires led { IsMoved self.old run.old hart }
        requires hart { hart < self.old.harts }
        requires within { run.old.count ≤ reach (seat_of self.old.seats hart) }
        requires spare { 0 < self.old.backing.devices.spare }
        requires room { HasRoomFor 12 self.old.seats hart }
        requires first { IsRoomy first }
        requires second { IsRoomy second }
        ensures harts { self.new.harts ≡ self.old.harts }
        ensures tells_answers { ToldBefore (C.seen console.old).tells_answers (C.seen console.new).tells_answers }
        ensures tells_taken { ToldBefore (C.seen console.old).tells_taken (C.seen console.new).tells_taken }
        ensures tells_times { ToldBefore (K.seen clock.old).tells (K.seen clock.new).tells }
        ensures faults { CountsFaults self.old.closed self.new.closed
            (C.seen console.old).faults (C.seen console.new).faults }
        ensures sent { TakesSent self.old self.new (C.seen console.old) (C.seen console.new) }
        ensures few { result.items < 2 ^ 32 }
        ensures does { TurnDoes self.old self.new run.old run.new hart result
            (C.seen console.old) (C.seen console.new) (K.seen clock.old) (K.seen clock.new) }
    {
        let before = self.noted(hart);
        let moves = run.count() - self.seats.count(hart);
        self.commit(run, hart);
        let order = self.steps(run, console, clock, hart, first, second);
        self.seats.tell(hart, order);
        let after = self.noted(hart);
        let items = moves + after.entries.saturating_sub(before.entries);
        Turned {
            order,
            moves: moves as u32,
            items,
            noted: after.differs(before, items),
        }
    }
}
