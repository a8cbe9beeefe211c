//! What the boards of the recorder and of the replayer have in common.

ghost use Rattle.std.specs.Prelude.{◌≡◌, ◌<◌, ◌≤◌, ◌+◌, ◌-◌, ◌^◌, max, length, false, Some, None, IsSome, IfSome, IfOk, OnOk, OnErr, IsTrue};
ghost use Rattle.rv_words.specs.Addresses.{device_word};
ghost use Rattle.outside.specs.Causes.{HasCause};
ghost use Rattle.outside.specs.Seen.{ToldBefore, AnswersNothing, TakesNothing};
ghost use Rattle.device_board.specs.State.{lines_at, with_time};
ghost use Rattle.device_board.specs.Accesses.{HasRoom, RoomIsKept};
ghost use Rattle.device_board.specs.Recording.{uses_console, AccessHas, AccessGives, AccessUsesConsole};
ghost use Rattle.log_entry.specs.Parts.{strength};
ghost use Rattle.run_model.specs.Run.{IsAtDevice, ahead_of, hold_of, taken, store_taken, given};
ghost use Rattle.run_model.specs.declared.asked.Ahead.TheVariants.{AtDevice};
ghost use Rattle.board_backing.specs.Backing.{IsStoreOf, GainLeads, YieldLeads, YieldEnds, PollLeads, TouchLeads, Suits};
ghost use Rattle.board_backing.specs.Backing.{MadeBy, AsBefore, backing_given, backing_at_start, BacksFirst, AnswerAgrees};
ghost use Rattle.board_backing.specs.Backing.{devices_polled};

use device_board::{ConsoleFailed, Devices};
use elf_image::Image;
use guest_pages::PageStore;
use hart_run::HartRun;
use outside::Console;
use rv_words::{Access, Input, MAX_HARTS, Mode};
use shared_types::NoMemory;
use std::alloc::Global;

/// The time of a Poll, and the lines that it gave its hart.
#[derive(Clone, Copy, Debug, PartialEq, Eq)]
pub struct Polled {
    pub time: u64,
    pub bits: u8,
}

/// The store of a board's pages, and its devices.
#[derive(Drop)]
pub struct Backing {
    pub pages: PageStore,
    pub devices: Devices,
}

impl Backing {
    /// The pages of an image and the devices at their start, with no room for a console byte yet.
    pub fn start(alloc: Global, image: &Image, harts: u8) -> Result<Backing, NoMemory>
        requires { harts ≤ MAX_HARTS }
        ensures backing { IfOk result (λ b. b ≡ backing_at_start image.now harts) }
        ensures backs { IfOk result (BacksFirst image.now harts) }
    {
        let _ = image.pages();
        let pages = PageStore::start(alloc, image)?;
        let devices = Devices::start(alloc, harts);
        Ok(Backing { pages, devices })
    }

    /// The hart of the run holds a page in this mode from now on.
    pub fn gain(&mut self, run: &mut HartRun, page: u32, mode: Mode)
        requires page { page < length run.old.frames.pages }
        requires less { strength (hold_of run.old page) < strength (Some mode) }
        requires store { IsStoreOf self.old run.old }
        ensures run { run.new ≡ taken run.old page mode self.old.pages }
        ensures backing { self.new ≡ record self.old { pages = store_taken run.old page mode self.old.pages } }
        ensures leads { GainLeads self.old self.new run.old run.new page mode }
    {
        run.take_page(page, mode, &mut self.pages);
    }

    /// The hart of the run keeps only what is left of a page. True exactly where its reservation so ended.
    pub fn yield_page(&mut self, run: &mut HartRun, page: u32, left: Option<Mode>) -> bool
        requires page { page < length run.old.frames.pages }
        requires less { strength left < strength (hold_of run.old page) }
        requires store { IsStoreOf self.old run.old }
        ensures run { run.new ≡ given run.old page left self.old.pages }
        ensures backing { self.new ≡ backing_given self.old run.old page }
        ensures leads { YieldLeads self.old self.new run.old run.new page left }
        ensures answer { YieldEnds self.old run.old page result }
    {
        run.give_page(page, left, &mut self.pages)
    }

    /// The hart of the run takes its lines from the devices, where mtime becomes the greater of itself and
    /// `now`.
    pub fn poll(&mut self, run: &mut HartRun, hart: u8, now: u64) -> Polled
        requires hart { hart < self.old.devices.devices.harts }
        requires running { self.old.devices.devices.stop ≡ None }
        ensures time { result.time ≡ max self.old.devices.devices.mtime now }
        ensures bits { result.bits ≡ lines_at self.old.devices.devices hart result.time }
        ensures backing { self.new ≡ devices_polled self.old result.time }
        ensures count { run.new.count ≡ run.old.count }
        ensures leads { PollLeads self.old self.new run.old run.new hart result }
    {
        let time = self.devices.poll(now);
        let bits = self.devices.lines(hart);
        run.set_lines(bits);
        Polled { time, bits }
    }

    /// The hart of the run makes its device access, `now` being the clock's answer. After a failure nothing is
    /// changed, and the console gave no answer and took no byte.
    pub fn touch<C: Console>(
        &mut self,
        run: &mut HartRun,
        console: &mut C,
        hart: u8,
        access: Access,
        now: u64,
    ) -> Result<Input, ConsoleFailed>
        requires hart { hart < self.old.devices.devices.harts }
        requires running { self.old.devices.devices.stop ≡ None }
        requires ahead { ahead_of run.old ≡ AtDevice access }
        requires count { run.old.count < 2 ^ 64 - 1 }
        requires word { IsSome (device_word self.old.devices.devices.harts access.at) }
        requires room { HasRoom self.old.devices access }
        ensures leads { IfOk result (TouchLeads self.old self.new run.old run.new hart) }
        ensures devices { IfOk result (MadeBy self.old.devices self.new.devices access) }
        ensures count { OnOk result (run.new.count ≡ run.old.count + 1) }
        ensures harts { self.new.devices.devices.harts ≡ self.old.devices.devices.harts }
        ensures pages { self.new.pages ≡ self.old.pages }
        ensures room { RoomIsKept self.old.devices self.new.devices }
        ensures input { IfOk result
            (AccessHas self.old.devices.devices access now (C.seen console.old) (C.seen console.new)) }
        ensures given { OnOk result
            (AccessGives self.old.devices.devices access (C.seen console.old) (C.seen console.new)) }
        ensures alone { IfSome (device_word self.old.devices.devices.harts access.at)
            (λ word. uses_console word access.store ≡ false → console.new ≡ console.old) }
        ensures tells_answers { ToldBefore (C.seen console.old).tells_answers (C.seen console.new).tells_answers }
        ensures tells_taken { ToldBefore (C.seen console.old).tells_taken (C.seen console.new).tells_taken }
        ensures cause { HasCause (C.seen console.old).faults (C.seen console.new).faults result }
        ensures asks { OnErr result (AccessUsesConsole self.old.devices.devices access) }
        ensures as_before { OnErr result (AsBefore self.old self.new run.old run.new) }
        ensures no_answer { OnErr result (AnswersNothing (C.seen console.old) (C.seen console.new)) }
        ensures no_byte { OnErr result (TakesNothing (C.seen console.old) (C.seen console.new)) }
    {
        match self.devices.touch(console, hart, access, now) {
            Ok(touched) => {
                self.take_answer(run, hart, touched.loaded);
                Ok(touched.input)
            }
            Err(ConsoleFailed) => Err(ConsoleFailed),
        }
    }

    /// The hart of the run makes its device access again, with a recorded input: false, and nothing changed,
    /// exactly where the input doesn't suit it.
    pub fn replay_touch(
        &mut self,
        run: &mut HartRun,
        hart: u8,
        access: Access,
        input: Input,
    ) -> bool
        requires hart { hart < self.old.devices.devices.harts }
        requires running { self.old.devices.devices.stop ≡ None }
        requires ahead { ahead_of run.old ≡ AtDevice access }
        requires count { run.old.count < 2 ^ 64 - 1 }
        requires word { IsSome (device_word self.old.devices.devices.harts access.at) }
        requires room { HasRoom self.old.devices access }
        ensures leads { IsTrue result → TouchLeads self.old self.new run.old run.new hart input }
        ensures refused { result ≡ false → AsBefore self.old self.new run.old run.new }
        ensures exact { Suits self.old run.old hart input result }
        ensures again { IsTrue result → MadeBy self.old.devices self.new.devices access input }
        ensures harts { self.new.devices.devices.harts ≡ self.old.devices.devices.harts }
        ensures pages { self.new.pages ≡ self.old.pages }
        ensures room { RoomIsKept self.old.devices self.new.devices }
    {
        match self.devices.replay_touch(hart, access, input) {
            Some(loaded) => {
                self.take_answer(run, hart, loaded);
                true
            }
            None => false,
        }
    }

    /// The run's move on a device that answered it, and then its lines.
    fn take_answer(&self, run: &mut HartRun, hart: u8, loaded: u32)
        requires hart { hart < self.now.devices.devices.harts }
        requires device { IsAtDevice (ahead_of run.old) }
        requires count { run.old.count < 2 ^ 64 - 1 }
        ensures agrees { AnswerAgrees self.now run.old run.new hart loaded }
        ensures count { run.new.count ≡ run.old.count + 1 }
    {
        run.touched(loaded);
        run.set_lines(self.devices.lines(hart));
    }
}
