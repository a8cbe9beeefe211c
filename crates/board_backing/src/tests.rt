//! A run of hart 0 over a backing, by guests of one page or two. Words were encoded by an assembler of RISC-V.

ghost use Rattle.std.specs.Prelude.{◌≡◌};
ghost use Rattle.run_model.specs.Run.{ahead_of};
ghost use Rattle.run_model.specs.declared.asked.Ahead.TheVariants.{AtDevice};
ghost use Rattle.board_backing.specs.Backing.{IsDesk};

use crate::{Backing, Polled, first_runs, number_of};
use elf_image::{Image, read_image};
use hart_run::{Ahead, HartRun, Pause};
use outside::{Asked, MemConsole};
use rv_words::{Access, Input, Mode, device_word};
use std::alloc::Global;
use std::process::Abort;

fn image(rt: &impl Abort, alloc: Global, words: &[u32], pages: u16) -> Image {
    assert!(rt; 1 <= pages && pages <= 4096);
    let mut bytes = Vec::new(alloc);
    for word in words {
        bytes
            .extend_from_slice(&word.to_le_bytes())
            .expect(rt, "memory");
    }
    read_image(alloc, &bytes, pages).expect(rt, "an image")
}

/// A backing of one hart, and the hart's run.
#[derive(Drop)]
struct Desk {
    backing: Backing,
    run: HartRun,
    ghost together: { IsDesk backing run },
}

impl Desk {
    #[tactic(auto, using(crate::proofs::Begins::starts_together))]
    fn start(rt: &impl Abort, alloc: Global, image: &Image) -> Desk {
        let backing = Backing::start(alloc, image, 1).expect(rt, "memory");
        let run = HartRun::start(alloc, 0, 1, image).expect(rt, "memory");
        Desk { backing, run }
    }

    fn gain(&mut self, rt: &impl Abort, page: u32, mode: Mode) {
        assert!(rt; page < self.backing.pages.pages());
        assert!(rt; self.run.frame(page).is_none());
        self.backing.gain(&mut self.run, page, mode);
    }

    fn yield_all(&mut self, rt: &impl Abort, page: u32) -> bool {
        assert!(rt; page < self.backing.pages.pages());
        assert!(rt; self.run.frame(page).is_some());
        self.backing.yield_page(&mut self.run, page, None)
    }

    fn advance(&mut self, rt: &impl Abort, until: u64) -> Pause {
        assert!(rt; self.run.count() <= until);
        self.run.advance(until)
    }

    // The time and lines of a Poll, and the lines that the hart then reads.
    fn poll(self, rt: &impl Abort, now: u64) -> (Polled, Option<u32>) {
        let Desk {
            mut backing,
            mut run,
        } = self;
        assert!(rt; backing.devices.stop().is_none());
        let polled = backing.poll(&mut run, 0, now);
        (polled, run.hart().csr(0x344))
    }
}

fn next_access(rt: &impl Abort, run: &HartRun) -> Access
    ensures { ahead_of run.now ≡ AtDevice result }
{
    match run.ahead() {
        Ahead::AtDevice(access) => access,
        _ => panic!(rt; "a device access"),
    }
}

// lui x1, 0x10000; addi x2, x0, 7; sw x2, 8(x1): the store to STOP.
const STOPS: [u32; 3] = [0x1000_00b7, 0x0070_0113, 0x0020_a423];

// A run of the guest that stands before its store to STOP.
fn before_stop(rt: &impl Abort, alloc: Global) -> Desk {
    let image = image(rt, alloc, &STOPS, 1);
    let mut desk = Desk::start(rt, alloc, &image);
    desk.gain(rt, 0, Mode::Read);
    assert!(rt; matches!(desk.advance(rt, 100), Pause::AtDevice(_)));
    desk
}

#[test]
fn a_store_to_stop_sets_it(rt: HostRuntime) {
    let Desk {
        mut backing,
        mut run,
    } = before_stop(&rt, rt.alloc());
    backing.devices.reserve(1).expect(&rt, "memory");
    let mut console = MemConsole::start(rt.alloc(), &[], Asked::Nothing, 0, &[]).expect(
        &rt, "memory",
    );
    assert!(rt; backing.devices.stop().is_none());
    assert_eq!(rt; run.count(), 2);
    let access = next_access(&rt, &run);
    assert!(rt; device_word(access.at, 1).is_some());
    let made = backing.touch(&mut run, &mut console, 0, access, 0);
    assert_eq!(rt; made.expect(&rt, "no failure"), Input::Nothing);
    assert_eq!(rt; backing.devices.stop(), Some(7));
    assert_eq!(rt; run.count(), 3);
    assert_eq!(rt; run.hart().pc(), 0x8000_000c);
}

// The count and the stop word once a recorded input was put in.
fn replayed(rt: &impl Abort, alloc: Global, input: Input) -> (bool, u64, Option<u32>) {
    let Desk {
        mut backing,
        mut run,
    } = before_stop(rt, alloc);
    backing.devices.reserve(1).expect(rt, "memory");
    assert!(rt; backing.devices.stop().is_none());
    assert!(rt; run.count() < 1000);
    let access = next_access(rt, &run);
    assert!(rt; device_word(access.at, 1).is_some());
    let suits = backing.replay_touch(&mut run, 0, access, input);
    (suits, run.count(), backing.devices.stop())
}

#[test]
fn an_input_that_does_not_suit_changes_nothing(rt: HostRuntime) {
    assert_eq!(rt; replayed(&rt, rt.alloc(), Input::Empty), (false, 2, None));
    assert_eq!(rt;
        replayed(&rt, rt.alloc(), Input::Nothing),
        (true, 3, Some(7))
    );
}

#[test]
fn a_poll_is_at_the_greater_time(rt: HostRuntime) {
    let image = image(&rt, rt.alloc(), &STOPS, 1);
    let early = Desk::start(&rt, rt.alloc(), &image).poll(&rt, 5);
    assert_eq!(rt; early, (Polled { time: 5, bits: 0 }, Some(0)));
    let late = Desk::start(&rt, rt.alloc(), &image).poll(&rt, u64::MAX);
    assert_eq!(rt; late.0.time, u64::MAX);
    assert_eq!(rt;
        late,
        (
            Polled {
                time: u64::MAX,
                bits: 2
            },
            Some(0x80)
        )
    );
}

// lui x1, 0x80001; addi x2, x0, 7; sw x2, 4(x1); jal x0, 0
const STORES: [u32; 4] = [0x8000_10b7, 0x0070_0113, 0x0020_a223, 0x0000_006f];

#[test]
fn a_written_page_goes_back_to_the_store(rt: HostRuntime) {
    let image = image(&rt, rt.alloc(), &STORES, 2);
    let mut desk = Desk::start(&rt, rt.alloc(), &image);
    desk.gain(&rt, 0, Mode::Read);
    assert_eq!(rt; desk.advance(&rt, 9), Pause::Wants(1, Mode::Write));
    desk.gain(&rt, 1, Mode::Write);
    assert_eq!(rt; desk.advance(&rt, 9), Pause::Due);
    assert!(rt; !desk.yield_all(&rt, 1));
    assert!(rt; desk.run.frame(1).is_none());
    assert!(rt; 1 < desk.backing.pages.pages());
    let page = desk.backing.pages.page(1);
    assert_eq!(rt; page.bytes().len(), 4096);
    assert_eq!(rt; page.load(4), 7);
    assert!(rt; !desk.yield_all(&rt, 0));
    assert_eq!(rt; desk.advance(&rt, 20), Pause::Wants(0, Mode::Read));
}

#[test]
fn each_hart_has_a_run_with_its_number(rt: HostRuntime) {
    let alloc = rt.alloc();
    let image = image(&rt, alloc, &[0x1050_0073], 1);
    let runs = first_runs(alloc, &image, 3).expect(&rt, "memory");
    assert!(rt; runs.len() == 3);
    assert!(rt; runs[2].hart().csr(0xf14) == Some(2));
    let last = HartRun::start(alloc, 2, 3, &image).expect(&rt, "memory");
    assert!(rt; number_of(&last) == 2);
}
