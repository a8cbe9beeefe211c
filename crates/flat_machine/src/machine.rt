//! The flat machine: its start, its acts and its end.

ghost use Rattle.std.specs.Prelude.{◌≡◌, ◌+◌, ◌%◌, ◌<◌, ◌≤◌, ◌^◌, is_some, unwrap_or, slice_index, length, map, replicate, IfOk};
ghost use Rattle.std.specs.List.{range_with_len};
ghost use Rattle.rv_hart.specs.Moves.{hart_at_start};
ghost use Rattle.flat_machine.specs.State.{flat_at_start, console_room};
ghost use Rattle.flat_machine.specs.Acts.{next, CountsFit, SendsWithRoom};
ghost use Rattle.flat_machine.specs.Runs.{final_of};

use crate::act::Act;
use crate::moves::{each_loses, hart_access, hart_move};
use crate::ram::Ram;
use crate::results::Final;
use device_board::Devices;
use elf_image::Image;
use rv_hart::Hart;
use rv_words::{Cause, Input, MAX_HARTS};
use shared_types::{Listed, NoMemory};
use std::alloc::{AllocError, Global};
use std::marker::Model;

/// A flat machine, and room for console bytes.
#[derive(Drop)]
pub struct Flat {
    pages: u16,
    harts: Vec<Hart>,
    counts: Vec<u64>,
    memory: Ram,
    devices: Devices,
}

impl Model for Flat {
    ghost use Rattle.flat_machine.specs.State.{FlatWithRoom, FitsTogether};

    ghost Value = { FlatWithRoom };

    ghost view = { λ m. record {
      state = record { harts = m.harts.items; counts = m.counts.items; memory = m.memory; devices = m.devices.devices };
      spare = m.devices.spare;
    } };

    ghost invariant = { λ m. FitsTogether m.harts.items m.counts.items m.memory m.pages m.devices.devices.harts };
}

impl Flat {
    /// The start state of an image, with room for `room` console bytes.
    pub fn start(alloc: Global, image: &Image, harts: u8, room: u32) -> Result<Flat, NoMemory>
        requires { harts ≤ MAX_HARTS }
        ensures { IfOk result (λ m. m ≡ record { state = flat_at_start image.now harts; spare = room }) }
    {
        let pages = image.pages();
        let Ok(list) = harts_at_start(alloc, harts, pages, image.entry()) else {
            return Err(NoMemory);
        };
        let Ok(counts) = zeros(alloc, harts) else {
            return Err(NoMemory);
        };
        let Ok(memory) = image.bytes().to_vec(alloc) else {
            return Err(NoMemory);
        };
        let mut devices = Devices::start(alloc, harts);
        if devices.reserve(room).is_err() {
            return Err(NoMemory);
        }
        Ok(Flat {
            pages,
            harts: list,
            counts,
            memory: Ram::of(memory),
            devices,
        })
    }

    #[tactic(auto, using(crate::proofs::StateAfterMove::acting))]
    fn run(&mut self, h: u8) -> bool
        requires { slice_index self.old.state.counts h + 1 < 2 ^ 64 }
        ensures answer { result ≡ is_some (next (Act.Run h) self.old.state) }
        ensures state { self.new.state ≡ unwrap_or (next (Act.Run h) self.old.state) self.old.state }
        ensures room { self.new.spare ≡ self.old.spare }
        ensures sent { self.new.state.devices.sent ≡ self.old.state.devices.sent }
    {
        let i = h as usize;
        if i >= self.harts.len() {
            return false;
        }
        let mut hart = self.harts[i];
        match hart_move(&mut hart, &mut self.memory, self.pages) {
            Some(wrote) => {
                each_loses(&mut self.harts, wrote);
                self.harts[i] = hart;
                self.counts[i] += 1;
                true
            }
            None => false,
        }
    }

    #[tactic(auto, using(crate::proofs::StateAfterMove::acting))]
    fn lose(&mut self, h: u8) -> bool
        ensures answer { result ≡ is_some (next (Act.Lose h) self.old.state) }
        ensures state { self.new.state ≡ unwrap_or (next (Act.Lose h) self.old.state) self.old.state }
        ensures room { self.new.spare ≡ self.old.spare }
        ensures sent { self.new.state.devices.sent ≡ self.old.state.devices.sent }
    {
        let i = h as usize;
        if i >= self.harts.len() {
            return false;
        }
        let mut hart = self.harts[i];
        hart.lose();
        self.harts[i] = hart;
        true
    }

    #[tactic(auto, using(crate::proofs::StateAfterMove::acting))]
    fn poll(&mut self, h: u8, time: u64) -> bool
        ensures answer { result ≡ is_some (next (Act.Poll h time) self.old.state) }
        ensures state { self.new.state ≡ unwrap_or (next (Act.Poll h time) self.old.state) self.old.state }
        ensures room { self.new.spare ≡ self.old.spare }
        ensures sent { self.new.state.devices.sent ≡ self.old.state.devices.sent }
    {
        let i = h as usize;
        if i >= self.harts.len() || self.devices.stop().is_some() || time < self.devices.time() {
            return false;
        }
        let _ = self.devices.poll(time);
        let lines = self.devices.lines(h);
        let mut hart = self.harts[i];
        hart.set_lines(lines);
        self.harts[i] = hart;
        true
    }

    #[tactic(auto, using(crate::proofs::StateAfterMove::acting))]
    fn touch(&mut self, h: u8, input: Input) -> bool
        requires room { SendsWithRoom (Act.Touch h input) self.old }
        requires count { slice_index self.old.state.counts h + 1 < 2 ^ 64 }
        ensures answer { result ≡ is_some (next (Act.Touch h input) self.old.state) }
        ensures state { self.new.state ≡ unwrap_or (next (Act.Touch h input) self.old.state) self.old.state }
        ensures room { console_room self.new ≡ console_room self.old }
    {
        let i = h as usize;
        if i >= self.harts.len() || self.devices.stop().is_some() {
            return false;
        }
        let mut hart = self.harts[i];
        match hart_access(&hart, &self.memory, self.pages) {
            Some((word, access)) => match self.devices.replay_touch(h, access, input) {
                Some(loaded) => {
                    let _ = hart.finish(word, loaded);
                    hart.set_lines(self.devices.lines(h));
                    self.harts[i] = hart;
                    self.counts[i] += 1;
                    true
                }
                None => false,
            },
            None => false,
        }
    }

    /// Makes an act. False, and nothing changed, exactly where there is no such hart or the act's
    /// condition fails.
    pub fn act(&mut self, act: Act) -> bool
        requires room { SendsWithRoom act self.old }
        requires counts { CountsFit act self.old.state }
        ensures answer { result ≡ is_some (next act self.old.state) }
        ensures state { self.new.state ≡ unwrap_or (next act self.old.state) self.old.state }
        ensures room { console_room self.new ≡ console_room self.old }
    {
        match act {
            Act::Run(h) => self.run(h),
            Act::Touch(h, input) => self.touch(h, input),
            Act::Poll(h, time) => self.poll(h, time),
            Act::Lose(h) => self.lose(h),
        }
    }

    /// What the run ends with.
    pub fn end(self, cause: Cause) -> Final
        ensures { result ≡ final_of self.state cause }
    {
        let Flat {
            pages: _,
            harts,
            counts,
            memory,
            devices,
        } = self;
        let stop = devices.stop();
        let time = devices.time();
        Final {
            cause,
            stop,
            harts: Listed::of(harts),
            counts: Listed::of(counts),
            memory: Listed::of(memory.into_bytes()),
            sent: Listed::of(devices.into_sent()),
            time,
        }
    }
}

fn harts_at_start(alloc: Global, harts: u8, pages: u16, entry: u32) -> Result<Vec<Hart>, AllocError>
    requires { entry % 4 ≡ 0 }
    ensures { IfOk result (λ v. v.items ≡ map (λ id. hart_at_start id harts pages entry) (range_with_len 0 harts)) }
{
    let mut list = Vec::with_capacity(alloc, usize::from(harts))?;
    for id in 0..harts {
        list.push(Hart::start(id, harts, pages, entry))?;
    }
    Ok(list)
}

// A count of 0 for each hart.
fn zeros(alloc: Global, harts: u8) -> Result<Vec<u64>, AllocError>
    ensures { IfOk result (λ v. v.items ≡ replicate harts 0) }
{
    let mut counts = Vec::with_capacity(alloc, usize::from(harts))?;
    counts.resize(usize::from(harts), 0)?;
    Ok(counts)
}

#[cfg(test)]
mod tests;
