//! A hart takes its lines at a Poll, and makes its device accesses.

ghost use Rattle.std.specs.Prelude.{◌≡◌, ◌<◌, ◌≤◌, ◌+◌, ◌^◌, ◌-◌, ◌%◌, ◌==◌};
ghost use Rattle.std.specs.Prelude.{is_some, IsSome, OnOk, OnErr, IfSome, Some, None};
ghost use Rattle.rv_words.specs.Limits.{longest_log};
ghost use Rattle.rv_words.specs.Addresses.{device_word};
ghost use Rattle.outside.specs.Causes.{HasCause};
ghost use Rattle.outside.specs.Seen.{ToldBefore, AnswersNothing, TakesNothing};
ghost use Rattle.device_board.specs.Recording.{AccessGives, AccessUsesConsole, bytes_given};
ghost use Rattle.order_rules.specs.Holders.{held};
ghost use Rattle.run_model.specs.declared.asked.Ahead.TheVariants.{AtDevice};
ghost use Rattle.run_model.specs.Run.{ahead_of};
ghost use Rattle.turn_model.specs.Steps as steps;
ghost use Rattle.crew_parts.specs.Boards.{the_machine};
ghost use Rattle.crew_core.specs.Seats.{seat_of, HasRoomFor, KeepsRoom};
ghost use Rattle.crew_core.specs.Standing.{IsTied, terms_of};
ghost use Rattle.crew_core.specs.Does.{IsCalm, Sends, TakesSent, bytes_sent};
ghost use Rattle.crew_parts.specs.Turns.{CountsFaults};
ghost use Rattle.crew_core.specs.Does.{PollEnters, TimesDo, TouchEnters, AccessDoes};
ghost use Rattle.crew_core.specs.Calls.{MakesOrdinalEntry};
ghost use Rattle.crew_core.specs.Calls.{due_at, IsDue, BehindTouch, IsNotWanting, word_touched};

use crate::crew::Crew;
use crate::order::Order;
use crate::rules::{DEVICE_BYTES, due, time_for};
use device_board::ConsoleFailed;
use hart_run::{Ahead, HartRun};
use log_entry::Entry;
use outside::{Clock, Console};
use rv_words::{Access, Cause, DeviceWord, device_word};

impl Crew {
    /// Whether a Poll of the hart is due.
    pub(crate) fn is_due(&self, run: &HartRun, hart: u8) -> bool
        requires tied { IsTied self.now run.now hart }
        requires hart { hart < self.now.harts }
        ensures value { result ≡ due_at run.now.count self.now.limit (seat_of self.now.seats hart).polled }
        ensures model { IsDue self.now run.now hart result }
    {
        due(run.count(), self.limit, self.seats.polled(hart))
    }

    /// Makes a Poll of the hart, at the greater of the clock's answer and mtime.
    pub(crate) fn poll_now<K: Clock>(&mut self, run: &mut HartRun, clock: &mut K, hart: u8)
        requires tied { IsTied self.old run.old hart }
        requires hart { hart < self.old.harts }
        requires running { self.old.backing.devices.devices.stop ≡ None }
        requires bytes { self.old.size + DEVICE_BYTES ≤ longest_log }
        requires room { HasRoomFor 1 self.old.seats hart }
        ensures frame { MakesOrdinalEntry self.old self.new }
        ensures stop { self.new.backing.devices.devices.stop ≡ self.old.backing.devices.devices.stop }
        ensures sent { bytes_sent self.new ≡ bytes_sent self.old }
        ensures spare { self.new.backing.devices.spare ≡ self.old.backing.devices.spare }
        ensures count { run.new.count ≡ run.old.count }
        ensures room { KeepsRoom self.old.seats self.new.seats hart }
        ensures tells { ToldBefore (K.seen clock.old).tells (K.seen clock.new).tells }
        ensures enters { PollEnters self.old self.new run.old run.new hart (K.seen clock.old) (K.seen clock.new) }
    {
        let now = clock.now();
        let count = run.count();
        let ord = self.ordinal;
        let polled = self.backing.poll(run, hart, now);
        let entry = Entry::Poll {
            count,
            ord,
            time: polled.time,
            bits: polled.bits,
        };
        self.seats.poll(hart, entry, count);
        self.ordinal = ord + 1;
        self.size += DEVICE_BYTES;
    }

    /// Makes the Poll that is due, where one is.
    pub(crate) fn polls<K: Clock>(
        &mut self,
        run: &mut HartRun,
        clock: &mut K,
        hart: u8,
    ) -> Option<Order>
        requires tied { IsTied self.old run.old hart }
        requires hart { hart < self.old.harts }
        requires running { self.old.backing.devices.devices.stop ≡ None }
        requires room { HasRoomFor 1 self.old.seats hart }
        ensures tells { ToldBefore (K.seen clock.old).tells (K.seen clock.new).tells }
        ensures closed { result ≡ None → self.new.closed ≡ self.old.closed }
        ensures stop { self.new.backing.devices.devices.stop ≡ self.old.backing.devices.devices.stop }
        ensures sent { bytes_sent self.new ≡ bytes_sent self.old }
        ensures spare { self.new.backing.devices.spare ≡ self.old.backing.devices.spare }
        ensures limit { self.new.limit ≡ self.old.limit }
        ensures harts { self.new.harts ≡ self.old.harts }
        ensures count { run.new.count ≡ run.old.count }
        ensures room { KeepsRoom self.old.seats self.new.seats hart }
        ensures does { TimesDo self.old self.new run.old run.new hart result
            (steps.polls the_machine (terms_of self.old) hart) (K.seen clock.old) (K.seen clock.new) }
    {
        if !self.is_due(run, hart) {
            return None;
        }
        if !self.has_room(DEVICE_BYTES) {
            self.close(Cause::Full);
            return Some(Order::Rest);
        }
        self.poll_now(run, clock, hart);
        None
    }

    /// Makes the device access that is the hart's next move, `now` being the clock's answer, and enters it with its
    /// input. After a failure of the console nothing is made.
    pub(crate) fn touch_now<C: Console>(
        &mut self,
        run: &mut HartRun,
        console: &mut C,
        hart: u8,
        access: Access,
        now: u64,
    ) -> Result<(), ConsoleFailed>
        requires tied { IsTied self.old run.old hart }
        requires hart { hart < self.old.harts }
        requires running { self.old.backing.devices.devices.stop ≡ None }
        requires ahead { ahead_of run.old ≡ AtDevice access }
        requires count { run.old.count < 2 ^ 64 - 1 }
        requires below { run.old.count < self.old.limit }
        requires word { IsSome (device_word self.old.backing.devices.devices.harts access.at) }
        requires spare { 0 < self.old.backing.devices.spare }
        requires bytes { self.old.size + DEVICE_BYTES ≤ longest_log }
        requires room { HasRoomFor 1 self.old.seats hart }
        ensures frame { OnOk result (MakesOrdinalEntry self.old self.new) }
        ensures sent { OnOk result (IfSome (device_word self.old.backing.devices.devices.harts access.at)
            (λ word. Sends self.old self.new (bytes_given word access.store))) }
        ensures enters { OnOk result (IfSome (device_word self.old.backing.devices.devices.harts access.at)
            (λ word. TouchEnters self.old self.new run.old run.new hart word access.store now
            (C.seen console.old) (C.seen console.new))) }
        ensures given { OnOk result
            (AccessGives self.old.backing.devices.devices access (C.seen console.old) (C.seen console.new)) }
        ensures tells_answers { ToldBefore (C.seen console.old).tells_answers (C.seen console.new).tells_answers }
        ensures tells_taken { ToldBefore (C.seen console.old).tells_taken (C.seen console.new).tells_taken }
        ensures cause { HasCause (C.seen console.old).faults (C.seen console.new).faults result }
        ensures asks { OnErr result (AccessUsesConsole self.old.backing.devices.devices access) }
        ensures as_before { OnErr result ((self.new ≡ self.old) × (run.new ≡ run.old)) }
        ensures no_answer { OnErr result (AnswersNothing (C.seen console.old) (C.seen console.new)) }
        ensures no_byte { OnErr result (TakesNothing (C.seen console.old) (C.seen console.new)) }
    {
        let count = run.count();
        let ord = self.ordinal;
        match self.backing.touch(run, console, hart, access, now) {
            Ok(input) => {
                self.seats.touch(hart, Entry::Touch { count, ord, input });
                self.ordinal = ord + 1;
                self.size += DEVICE_BYTES;
                Ok(())
            }
            Err(ConsoleFailed) => Err(ConsoleFailed),
        }
    }

    /// What follows a Touch: a store to STOP closes the board, else the favoured hart passes the favour on.
    pub(crate) fn behind_touch(&mut self, hart: u8) -> Option<Order>
        requires hart { hart < self.old.harts }
        requires few { self.old.harts ≤ 8 }
        ensures harts { self.new.harts ≡ self.old.harts }
        ensures backing { self.new.backing ≡ self.old.backing }
        ensures calm { IsCalm self.old self.new }
        ensures does { BehindTouch self.old self.new hart result }
    {
        if self.backing.devices.stop().is_some() {
            self.close(Cause::Stop);
            return Some(Order::Rest);
        }
        if hart == self.favoured {
            self.favoured = (hart + 1) % self.harts;
        }
        None
    }

    /// Makes the device access that is the hart's next move, where it is one.
    pub(crate) fn touches<C: Console, K: Clock>(
        &mut self,
        run: &mut HartRun,
        console: &mut C,
        clock: &mut K,
        hart: u8,
    ) -> Option<Order>
        requires tied { IsTied self.old run.old hart }
        requires hart { hart < self.old.harts }
        requires running { self.old.backing.devices.devices.stop ≡ None }
        requires unclosed { self.old.closed ≡ None }
        requires held { IsNotWanting (ahead_of run.old) }
        requires count { run.old.count < 2 ^ 64 - 1 }
        requires below { run.old.count < self.old.limit }
        requires spare { 0 < self.old.backing.devices.spare }
        requires room { HasRoomFor 1 self.old.seats hart }
        ensures harts { self.new.harts ≡ self.old.harts }
        ensures tells_answers { ToldBefore (C.seen console.old).tells_answers (C.seen console.new).tells_answers }
        ensures tells_taken { ToldBefore (C.seen console.old).tells_taken (C.seen console.new).tells_taken }
        ensures tells_times { ToldBefore (K.seen clock.old).tells (K.seen clock.new).tells }
        ensures faults { CountsFaults self.old.closed self.new.closed
            (C.seen console.old).faults (C.seen console.new).faults }
        ensures sent { TakesSent self.old self.new (C.seen console.old) (C.seen console.new) }
        ensures does { AccessDoes self.old self.new run.old run.new hart result
            (steps.touches the_machine (terms_of self.old) hart)
            (C.seen console.old) (C.seen console.new) (K.seen clock.old) (K.seen clock.new) }
    {
        let Ahead::AtDevice(access) = run.ahead() else {
            return None;
        };
        let Some(word) = device_word(access.at, self.harts) else {
            return None;
        };
        if !self.has_room(DEVICE_BYTES) {
            self.close(Cause::Full);
            return Some(Order::Rest);
        }
        self.touch_word(run, console, clock, hart, access, word)
    }

    /// Makes the access of a device word that is the hart's next move, and what follows it. A console that fails
    /// closes the board.
    pub(crate) fn touch_word<C: Console, K: Clock>(
        &mut self,
        run: &mut HartRun,
        console: &mut C,
        clock: &mut K,
        hart: u8,
        access: Access,
        word: DeviceWord,
    ) -> Option<Order>
        requires tied { IsTied self.old run.old hart }
        requires hart { hart < self.old.harts }
        requires running { self.old.backing.devices.devices.stop ≡ None }
        requires unclosed { self.old.closed ≡ None }
        requires ahead { ahead_of run.old ≡ AtDevice access }
        requires count { run.old.count < 2 ^ 64 - 1 }
        requires below { run.old.count < self.old.limit }
        requires word { device_word self.old.backing.devices.devices.harts access.at ≡ Some word }
        requires spare { 0 < self.old.backing.devices.spare }
        requires bytes { self.old.size + DEVICE_BYTES ≤ longest_log }
        requires room { HasRoomFor 1 self.old.seats hart }
        ensures harts { self.new.harts ≡ self.old.harts }
        ensures tells_answers { ToldBefore (C.seen console.old).tells_answers (C.seen console.new).tells_answers }
        ensures tells_taken { ToldBefore (C.seen console.old).tells_taken (C.seen console.new).tells_taken }
        ensures tells_times { ToldBefore (K.seen clock.old).tells (K.seen clock.new).tells }
        ensures faults { CountsFaults self.old.closed self.new.closed
            (C.seen console.old).faults (C.seen console.new).faults }
        ensures sent { TakesSent self.old self.new (C.seen console.old) (C.seen console.new) }
        ensures does { AccessDoes self.old self.new run.old run.new hart result
            (word_touched self.old hart word access.store)
            (C.seen console.old) (C.seen console.new) (K.seen clock.old) (K.seen clock.new) }
    {
        let now = time_for(clock, word, access.store);
        match self.touch_now(run, console, hart, access, now) {
            Ok(()) => self.behind_touch(hart),
            Err(ConsoleFailed) => {
                self.close(Cause::Fault);
                Some(Order::Rest)
            }
        }
    }
}
