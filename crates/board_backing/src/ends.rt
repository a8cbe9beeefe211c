//! The lists in which the end of a board is told. They are taken at the start, so that the end takes no memory.

ghost use Rattle.std.specs.Prelude.{◌≡◌, ◌+◌, ◌*◌, ◌<◌, ◌≤◌, map, length, IfOk, MatchOption};
ghost use Rattle.rv_words.specs.Memory.{put};
ghost use Rattle.run_model.specs.Run.{Run};
ghost use Rattle.board_backing.specs.Ends.{HasPlaces, HaveSome, IsNowhere, IsHeldSo, PutsPage, IsMemory, IsEnd};

use crate::backing::Backing;
use elf_image::Image;
use flat_machine::{Bytes, Counts, Final, Harts, Memory};
use guest_pages::Page;
use hart_run::HartRun;
use rv_hart::Hart;
use rv_words::Cause;
use shared_types::NoMemory;
use std::alloc::Global;

/// A place for each hart, each count and each byte of the memory.
#[derive(Drop)]
pub struct Ends {
    harts: Vec<Hart>,
    counts: Vec<u64>,
    memory: Vec<u8>,
}

impl Ends {
    /// The places for so many harts and the memory of an image.
    pub fn start(alloc: Global, harts: u8, image: &Image) -> Result<Ends, NoMemory>
        requires { 0 < harts }
        ensures { IfOk result (λ e. HasPlaces e harts (length image.now.bytes)) }
    {
        let hart = Hart::start(0, harts, image.pages(), image.entry());
        let Ok(all) = Vec::from_elem(alloc, hart, usize::from(harts)) else {
            return Err(NoMemory);
        };
        let Ok(counts) = Vec::from_elem(alloc, 0u64, usize::from(harts)) else {
            return Err(NoMemory);
        };
        let Ok(memory) = Vec::from_elem(alloc, 0u8, image.bytes().len()) else {
            return Err(NoMemory);
        };
        Ok(Ends {
            harts: all,
            counts,
            memory,
        })
    }

    /// The end that the runs and the backing have between them, with its cause. It takes no memory.
    pub fn gather(mut self, runs: &[HartRun], backing: Backing, cause: Cause) -> Final
        requires state { HaveSome runs.now backing }
        requires places { HasPlaces self (length runs.now) (length backing.pages.pages * backing.pages.unit) }
        ensures { IsEnd runs.now backing cause result }
    {
        put_harts(runs, &mut self.harts);
        put_counts(runs, &mut self.counts);
        put_memory(runs, &backing, &mut self.memory);
        let Ends {
            harts,
            counts,
            memory,
        } = self;
        let Backing { devices, .. } = backing;
        Final {
            cause,
            stop: devices.stop(),
            time: devices.time(),
            harts: Harts::of(harts),
            counts: Counts::of(counts),
            memory: Memory::of(memory),
            sent: Bytes::of(devices.into_sent()),
        }
    }
}

/// The harts of the runs.
fn put_harts(runs: &[HartRun], harts: &mut [Hart])
    requires { length harts.old ≡ length runs.now }
    ensures { harts.new ≡ map (λ (r : Run). r.hart) runs.now }
{
    for hart in 0..runs.len() {
        harts[hart] = *runs[hart].hart();
    }
}

/// The counts of the runs.
fn put_counts(runs: &[HartRun], counts: &mut [u64])
    requires { length counts.old ≡ length runs.now }
    ensures { counts.new ≡ map (λ (r : Run). r.count) runs.now }
{
    for hart in 0..runs.len() {
        counts[hart] = runs[hart].count();
    }
}

/// The page as a run holds it.
fn frame_held(runs: &[HartRun], page: u32) -> Option<&Page>
    ensures { MatchOption result (IsNowhere runs.now page) (λ p. IsHeldSo runs.now page p.now) }
{
    for hart in 0..runs.len() {
        if let Some(frame) = runs[hart].frame(page) {
            return Some(frame);
        }
    }
    None
}

/// Writes bytes at a place.
fn put_bytes(memory: &mut [u8], at: usize, bytes: &[u8])
    requires { at + length bytes.now ≤ length memory.old }
    ensures { memory.new ≡ put memory.old at bytes.now }
{
    memory[at..at + bytes.len()].copy_from_slice(bytes);
}

/// Writes a page at its place in the memory: from a run that holds it, and else from the store.
fn put_page(runs: &[HartRun], backing: &Backing, page: u32, memory: &mut [u8])
    requires state { HaveSome runs.now backing.now }
    requires page { page < length backing.now.pages.pages }
    requires size { length memory.old ≡ length backing.now.pages.pages * backing.now.pages.unit }
    ensures { PutsPage runs.now backing.now page memory.old memory.new }
{
    let at = page as usize * usize::from(backing.pages.unit());
    match frame_held(runs, page) {
        Some(frame) => put_bytes(memory, at, frame.bytes()),
        None => put_bytes(memory, at, backing.pages.page(page).bytes()),
    }
}

/// The whole memory, page by page.
fn put_memory(runs: &[HartRun], backing: &Backing, memory: &mut [u8])
    requires state { HaveSome runs.now backing.now }
    requires size { length memory.old ≡ length backing.now.pages.pages * backing.now.pages.unit }
    ensures { IsMemory runs.now backing.now memory.new }
{
    for page in 0..backing.pages.pages() {
        put_page(runs, backing, page, memory);
    }
}
