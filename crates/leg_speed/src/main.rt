//! Runs the guest that standard input has, on the frames of one hart without a board, and tells what it did:
//! what legs alone cost. A device answers 0, and a Poll is left out. The run ends at a store to STOP, or after
//! 4,000,000,000 moves.
#![tactic(auto)]

ghost use Rattle.std.specs.Prelude.{◌≤◌};

use elf_image::{Image, read_image};
use guest_pages::PageStore;
use hart_run::{Ahead, HartRun, Pause};
use rv_words::{Access, Mode};
use shared_types::NoMemory;
use std::alloc::Global;
use std::io;
use std::io::Read;

const PAGES: u16 = 16;

const MOST_MOVES: u64 = 4_000_000_000;

/// The moves from one pause to the next.
const LEG: u64 = 4096;

const STOP: u32 = 0x1000_0008;

/// A run that holds every page in Write.
fn start(alloc: Global, image: &Image) -> Result<HartRun, NoMemory> {
    let mut run = HartRun::start(alloc, 0, 1, image)?;
    let mut store = PageStore::start(alloc, image)?;
    for page in 0..store.pages() {
        if run.frame(page).is_none() {
            run.take_page(page, Mode::Write, &mut store);
        }
    }
    Ok(run)
}

/// The next device access, made; true where it stops the run.
fn touch(run: &mut HartRun) -> bool
    requires { run.old.count ≤ 4000000000 }
    ensures { run.new.count ≤ 4000000000 }
{
    match run.ahead() {
        Ahead::AtDevice(access) => {
            if run.count() < MOST_MOVES {
                run.touched(0);
            }
            access.at == STOP
        }
        _ => true,
    }
}

/// Legs and accesses up to the end of the run.
fn run_on(run: &mut HartRun) {
    for _ in 0..MOST_MOVES {
        let until = (run.count() / LEG + 1).saturating_mul(LEG).min(MOST_MOVES);
        if run.count() >= until {
            return;
        }
        match run.advance(until) {
            Pause::Due => {}
            Pause::AtDevice(_) => {
                if touch(run) {
                    return;
                }
            }
            Pause::Wants(..) => return,
        }
    }
}

fn main(rt: HostRuntime) -> io::Result<()> {
    let mut bytes = Vec::new(rt.alloc());
    rt.reader().read_to_end(&mut bytes)?;
    let Ok(image) = read_image(rt.alloc(), &bytes, PAGES) else {
        return println!(rt; "no image");
    };
    let Ok(mut run) = start(rt.alloc(), &image) else {
        return println!(rt; "no memory");
    };
    run_on(&mut run);
    let count = run.count();
    let pc = run.hart().pc();
    println!(rt; "count {count} pc {pc:08x}")?;
    Ok(())
}
