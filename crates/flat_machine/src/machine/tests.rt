//! Acts on a machine, from its start to its end. Words were encoded by an assembler of RISC-V.

ghost use Rattle.std.specs.Prelude.{◌≡◌, ◌+◌, length, slice_index};

use crate::act::Act;
use crate::machine::Flat;
use crate::results::Final;
use elf_image::read_image;
use rv_words::{Cause, Input};
use std::alloc::Global;
use std::process::Abort;

/// A machine that began with room for four console bytes.
#[derive(Drop)]
struct Bench {
    flat: Flat,
    ghost room: { length flat.state.devices.sent + flat.spare ≡ 4 },
}

impl Bench {
    // A machine with two pages and two harts over these words.
    fn start(rt: &impl Abort, alloc: Global, words: &[u32]) -> Bench {
        let mut bytes = Vec::new(alloc);
        for word in words {
            bytes
                .extend_from_slice(&word.to_le_bytes())
                .expect(rt, "memory");
        }
        let image = read_image(alloc, &bytes, 2).expect(rt, "an image");
        Bench {
            flat: Flat::start(alloc, &image, 2, 4).expect(rt, "memory"),
        }
    }

    // The count of a hart, 0 where there is no such hart.
    fn count(&self, h: u8) -> u64
        ensures { result ≡ slice_index self.now.flat.state.counts h }
    {
        match self.flat.counts.get(usize::from(h)) {
            Some(count) => *count,
            None => 0,
        }
    }

    fn run(&mut self, rt: &impl Abort, h: u8) -> bool {
        assert!(rt; self.count(h) < 1000);
        self.flat.act(Act::Run(h))
    }

    #[tactic(auto, using(crate::proofs::StateAfterMove::touch_has_room))]
    fn touch(&mut self, rt: &impl Abort, h: u8, input: Input) -> bool {
        assert!(rt; self.count(h) < 1000);
        assert!(rt; self.flat.devices.sent().len() < 4);
        self.flat.act(Act::Touch(h, input))
    }

    fn make(&mut self, rt: &impl Abort, act: Act) -> bool {
        match act {
            Act::Run(h) => self.run(rt, h),
            Act::Touch(h, input) => self.touch(rt, h, input),
            Act::Poll(h, time) => self.flat.act(Act::Poll(h, time)),
            Act::Lose(h) => self.flat.act(Act::Lose(h)),
        }
    }
}

// lui x1, 0x10000; lw x2, 0(x1); sw x2, 4(x1); sw x2, 8(x1): a byte is read, sent, and stops the board.
const ECHO: [u32; 4] = [0x1000_00b7, 0x0000_a103, 0x0020_a223, 0x0020_a423];

fn echo() -> [u32; 4] {
    ECHO
}

const ECHO_ACTS: [(Act, bool); 12] = [
    (Act::Poll(0, 5), true),
    (Act::Poll(0, 4), false),
    (Act::Touch(0, Input::Nothing), false),
    (Act::Run(0), true),
    (Act::Run(0), false),
    (Act::Touch(0, Input::Nothing), false),
    (Act::Touch(0, Input::Byte(0x41)), true),
    (Act::Touch(0, Input::Nothing), true),
    (Act::Run(2), false),
    (Act::Touch(0, Input::Nothing), true),
    (Act::Poll(0, 6), false),
    (Act::Run(1), true),
];

fn echo_acts() -> [(Act, bool); 12] {
    ECHO_ACTS
}

#[test]
fn a_run_ends_with_what_its_acts_made(rt: HostRuntime) {
    let mut bench = Bench::start(&rt, rt.alloc(), &echo());
    for (act, made) in echo_acts() {
        assert_eq!(rt; bench.make(&rt, act), made, "at {act:?}");
    }
    let end = bench.flat.end(Cause::Stop);
    assert_eq!(rt;
        (end.cause, end.stop, end.time),
        (Cause::Stop, Some(0x41), 5)
    );
    assert!(rt; end.sent.items() == [0x41].as_slice());
    assert!(rt; end.counts.items() == [4, 1].as_slice());
    assert_eq!(rt; end.memory.items().len(), 8192);
    assert!(rt; are_at(&end, 0x8000_0010, 0x8000_0004));
}

// Whether two harts end at these words.
fn are_at(end: &Final, first: u32, second: u32) -> bool {
    match end.harts.items() {
        [one, other] => one.pc() == first && other.pc() == second,
        _ => false,
    }
}

// lui x1, 0x80001; lr.w x2, (x1); and then a byte stored into that word, and one stored behind it.
const RESERVE: [u32; 4] = [0x8000_10b7, 0x1000_a12f, 0x0000_81a3, 0x0000_8223];

fn reserve() -> [u32; 4] {
    RESERVE
}

#[test]
fn a_byte_stored_in_its_word_ends_another_harts_reservation(rt: HostRuntime) {
    let mut bench = Bench::start(&rt, rt.alloc(), &reserve());
    for h in [0, 0, 1, 1, 1] {
        assert!(rt; bench.run(&rt, h));
    }
    let end = bench.flat.end(Cause::Cut);
    assert!(rt; are_reserved(&end, None, Some(0x8000_1000)));
}

fn are_reserved(end: &Final, first: Option<u32>, second: Option<u32>) -> bool {
    match end.harts.items() {
        [one, other] => one.reserved() == first && other.reserved() == second,
        _ => false,
    }
}

// lui x1, 0x2000; addi x2, x0, 1; sw x2, 4(x1): hart 0 raises the software line of hart 1.
const SIGNAL: [u32; 3] = [0x0200_00b7, 0x0010_0113, 0x0020_a223];

fn signal() -> [u32; 3] {
    SIGNAL
}

#[test]
fn a_hart_sees_the_devices_lines_at_its_poll(rt: HostRuntime) {
    let mut bench = Bench::start(&rt, rt.alloc(), &signal());
    assert!(rt; bench.run(&rt, 0) && bench.run(&rt, 0));
    assert!(rt; bench.touch(&rt, 0, Input::Nothing));
    assert!(rt; bench.make(&rt, Act::Poll(0, 0)));
    let unseen = bench.flat.harts.get(1).map(|hart| hart.csr(0x344));
    assert_eq!(rt; unseen, Some(Some(0)));
    assert!(rt; bench.make(&rt, Act::Poll(1, 0)));
    let end = bench.flat.end(Cause::Cut);
    assert!(rt; see(&end, 0, 8));
}

// Whether two harts see these lines in mip.
fn see(end: &Final, first: u32, second: u32) -> bool {
    match end.harts.items() {
        [one, other] => one.csr(0x344) == Some(first) && other.csr(0x344) == Some(second),
        _ => false,
    }
}
