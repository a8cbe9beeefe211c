//! The run of one hart.

ghost use Rattle.std.specs.Option.{option_copied, option_map};
ghost use Rattle.std.specs.Prelude.{ℕ, ◌≡◌, ◌%◌, ◌^◌, ◌-◌, ◌<◌, ◌≤◌, ◌∷◌, [], length, nat_lt, Some, IfOk};
ghost use Rattle.rv_words.specs.Limits.{IsUnit};
ghost use Rattle.rv_words.specs.declared.shared.Mode.TheVariants.{Read};
ghost use Rattle.rv_hart.specs.Bursts.{reads_csr};
ghost use Rattle.rv_hart.specs.Effects.{effect_of};
ghost use Rattle.rv_hart.specs.Needs.{page_at, data_pages};
ghost use Rattle.rv_hart.specs.Places.{WordInMemory, NeedIsThere, WritesInMemory, IsSound};
ghost use Rattle.flat_machine.specs.Moves.{place_in_memory};
ghost use Rattle.log_entry.specs.Parts.{strength};
ghost use Rattle.order_rules.specs.Places.{is_number};
ghost use Rattle.run_model.specs.Legs.{KeepsPages};
ghost use Rattle.run_model.specs.Run.{run_at_start, hold_of, lacks, word_held, word_of, LoadsOrAsks, ahead_of, stored_in, FrameOf};
ghost use Rattle.run_model.specs.Run.{stronger, needed_in, most_needed, claim_of, IsAbove, Steps, IsAtDevice, AheadAt, touched_by};
ghost use Rattle.run_model.specs.Run.{taken, store_taken, given, store_given, hart_given, ends_with};
ghost use Rattle.hart_run.specs.Bursts.{HasGone, Passes};
ghost use Rattle.hart_run.specs.Calls.{StartIsRight, AheadIsRight, WordAgrees, FrameAgrees, ClaimAgrees, LegAgrees};
ghost use Rattle.hart_run.specs.Calls.{TouchAgrees, LinesAgree, TakeAgrees, GiveAgrees, lined, page_given};

use crate::decoded::Decodings;
use elf_image::Image;
use guest_pages::{Page, PageStore};
use run_model::{Ahead, Pause};
use rv_decode::Instr;
use rv_hart::{Effect, Fetch, Hart, Need, Wrote};
use rv_words::Mode;
use shared_types::NoMemory;
use std::alloc::Global;
use std::marker::Model;

/// A hart with its count and a frame for each page of the memory, held or spare.
#[derive(Drop)]
pub struct HartRun {
    hart: Hart,
    count: u64,
    held: Vec<Option<Mode>>,
    frames: PageStore,
    /// A page has 2 to the power of `shift` bytes, and the bits of `mask` are the place in it.
    shift: u32,
    mask: u32,
    decodings: Decodings,
}

impl Model for HartRun {
    ghost use Rattle.run_model.specs.Run as runs;
    ghost use Rattle.hart_run.specs.Shifts.{IsShifted, run_of};

    ghost Value = { runs.Run };

    ghost view = { λ r. run_of r.hart r.count r.held.items r.frames };

    ghost invariant = { λ r. IsShifted (run_of r.hart r.count r.held.items r.frames) r.shift r.mask };
}

/// By how much an address is shifted to its page.
fn shift_of(unit: u16) -> u32
    requires { IsUnit unit }
    ensures unit { unit ≡ 2 ^ result }
    ensures most { result ≤ 12 }
{
    match unit {
        256 => 8,
        1024 => 10,
        _ => 12,
    }
}

/// Whether a hold is of less than a mode.
fn is_less(hold: Option<Mode>, mode: Mode) -> bool
    ensures { result ≡ nat_lt (strength hold) (strength (Some mode)) }
{
    !matches!(
        (hold, mode),
        (Some(Mode::Write), _) | (Some(Mode::Read), Mode::Read)
    )
}

/// The stronger one of two holds.
fn stronger(one: Option<Mode>, other: Option<Mode>) -> Option<Mode>
    ensures { result ≡ stronger one other }
{
    match (one, other) {
        (Some(Mode::Write), _) | (_, None) => one,
        _ => other,
    }
}

/// Whether an instruction reads a control register.
fn reads_csr(i: Instr) -> bool
    ensures { result ≡ reads_csr i }
{
    matches!(i, Instr::Csr { .. })
}

impl HartRun {
    /// A run at its hart's start, on a board with so many harts.
    pub fn start(alloc: Global, id: u8, harts: u8, image: &Image) -> Result<HartRun, NoMemory>
        requires { id < harts }
        ensures run { IfOk result (λ r. r ≡ run_at_start id harts image.now) }
        ensures agrees { IfOk result (StartIsRight image.now harts id) }
    {
        let number = image.bytes().len() / usize::from(image.unit());
        let Ok(held) = Vec::from_elem(alloc, None, number) else {
            return Err(NoMemory);
        };
        let frames = PageStore::blank(alloc, number as u32, image.unit())?;
        let decodings = Decodings::start(alloc)?;
        let shift = shift_of(image.unit());
        let hart = Hart::start(id, harts, image.pages(), image.entry());
        Ok(HartRun {
            hart,
            count: 0,
            held,
            frames,
            shift,
            mask: (1 << shift) - 1,
            decodings,
        })
    }

    /// The number of moves that the hart has made.
    pub fn count(&self) -> u64
        ensures { result ≡ self.now.count }
    {
        self.count
    }

    pub fn hart(&self) -> &Hart
        ensures { result.now ≡ self.now.hart }
    {
        &self.hart
    }

    /// The page of an address.
    #[inline(always)]
    fn page_at(&self, at: u32) -> u32
        requires { 0x80000000 ≤ at }
        ensures { result ≡ page_at self.now.frames.unit at }
    {
        (at - 0x8000_0000) >> self.shift
    }

    /// The place of an address in its page.
    #[inline(always)]
    fn place_at(&self, at: u32) -> u16
        requires { 0x80000000 ≤ at }
        ensures { result ≡ place_in_memory at % self.now.frames.unit }
    {
        ((at - 0x8000_0000) & self.mask) as u16
    }

    /// The mode, where the address lies in the page.
    fn needed_at(&self, at: u32, mode: Mode, page: u32) -> Option<Mode>
        requires { 0x80000000 ≤ at }
        ensures { result ≡ needed_in page (page_at self.now.frames.unit at, mode) }
    {
        if self.page_at(at) == page {
            Some(mode)
        } else {
            None
        }
    }

    /// The mode in which the data of a move need the page.
    fn needed_for(&self, need: Need, page: u32) -> Option<Mode>
        requires { IsAbove need }
        ensures { result ≡ most_needed page (data_pages self.now.frames.unit need) }
    {
        match need {
            Need::Load(at) => self.needed_at(at, Mode::Read, page),
            Need::Store(at) | Need::Exclusive(at) => self.needed_at(at, Mode::Write, page),
            Need::Device(_) | Need::Nothing => None,
        }
    }

    /// Whether the page of an address is held in no such mode.
    fn lacks(&self, at: u32, mode: Mode) -> bool
        requires { WordInMemory self.now.hart.pages at }
        ensures { result ≡ lacks self.now (page_at self.now.frames.unit at, mode) }
    {
        is_less(self.held[self.page_at(at) as usize], mode)
    }

    /// The aligned word round an address, of its frame.
    fn word_held(&self, at: u32) -> u32
        requires { WordInMemory self.now.hart.pages at }
        ensures { result ≡ word_held self.now at }
    {
        self.frames
            .page(self.page_at(at))
            .load(self.place_at(at / 4 * 4))
    }

    /// The word that the data of a move load, 0 where they load none; else what they ask for.
    fn loaded(&self, need: Need) -> Result<u32, Ahead>
        requires { NeedIsThere self.now.hart need }
        ensures { LoadsOrAsks self.now need result }
    {
        let _ = &self.frames;
        match need {
            Need::Load(at) => {
                if self.lacks(at, Mode::Read) {
                    return Err(Ahead::Wants(self.page_at(at), Mode::Read));
                }
                Ok(self.word_held(at))
            }
            Need::Exclusive(at) => {
                if self.lacks(at, Mode::Write) {
                    return Err(Ahead::Wants(self.page_at(at), Mode::Write));
                }
                Ok(self.word_held(at))
            }
            Need::Store(at) => {
                if self.lacks(at, Mode::Write) {
                    return Err(Ahead::Wants(self.page_at(at), Mode::Write));
                }
                Ok(0)
            }
            Need::Device(access) => Err(Ahead::AtDevice(access)),
            Need::Nothing => Ok(0),
        }
    }

    /// What the next move asks for, without making it.
    pub fn ahead(&self) -> Ahead
        ensures ahead { result ≡ ahead_of self.now }
        ensures agrees { AheadIsRight self.now result }
    {
        match self.hart.fetch_need() {
            Fetch::At(pc) => {
                if self.lacks(pc, Mode::Read) {
                    return Ahead::Wants(self.page_at(pc), Mode::Read);
                }
                let word = self.word_held(pc);
                match self.loaded(self.hart.data_need(word)) {
                    Ok(_) => Ahead::Free,
                    Err(ahead) => ahead,
                }
            }
            Fetch::Interrupt | Fetch::Fault => Ahead::Free,
        }
    }

    /// The word at the pc; None exactly where the next move fetches none, or its page isn't held.
    pub fn word(&self) -> Option<u32>
        ensures word { result ≡ word_of self.now }
        ensures agrees { WordAgrees self.now result }
    {
        match self.hart.fetch_need() {
            Fetch::At(pc) => {
                if self.lacks(pc, Mode::Read) {
                    return None;
                }
                Some(self.word_held(pc))
            }
            Fetch::Interrupt | Fetch::Fault => None,
        }
    }

    /// The page as the hart holds it; None exactly where it doesn't hold it.
    pub fn frame(&self, page: u32) -> Option<&Page>
        ensures frame { FrameOf self.now page (option_copied result) }
        ensures agrees { FrameAgrees self.now page (option_copied result) }
    {
        match self.held.get(page as usize) {
            Some(Some(_)) => Some(self.frames.page(page)),
            _ => None,
        }
    }

    /// The most in which the next move is known to need the page: for its data only where the page that it
    /// fetches from is held.
    pub fn claim(&self, page: u32) -> Option<Mode>
        ensures claim { result ≡ claim_of self.now page }
        ensures agrees { ClaimAgrees self.now page result }
    {
        match self.hart.fetch_need() {
            Fetch::At(pc) => {
                let fetch = self.needed_at(pc, Mode::Read, page);
                if self.lacks(pc, Mode::Read) {
                    return fetch;
                }
                let word = self.word_held(pc);
                stronger(fetch, self.needed_for(self.hart.data_need(word), page))
            }
            Fetch::Interrupt | Fetch::Fault => None,
        }
    }

    /// What the move of a fetched word does.
    #[inline(always)]
    fn effect(&mut self, word: u32) -> Effect
        ensures effect { result ≡ effect_of self.old.hart word }
        ensures sound { IsSound self.old.hart result }
        ensures same { self.new ≡ self.old }
    {
        match self.decodings.decode(self.hart.pc(), word) {
            Some(i) => self.hart.instr_effect(i, word),
            None => Effect::Traps {
                cause: rv_csr::causes::ILLEGAL_INSTRUCTION,
                value: word,
            },
        }
    }

    /// Makes the move of a fetched word, where it asks for nothing.
    #[tactic(auto, using(run_model::proofs::Laws::asks_by_word))]
    fn execute(&mut self, word: u32) -> Ahead
        requires word { word_of self.old ≡ Some word }
        requires count { self.old.count < 2 ^ 64 - 1 }
        ensures ahead { result ≡ ahead_of self.old }
        ensures made { Steps self.old self.new result }
    {
        let effect = self.effect(word);
        match self.loaded(effect.need()) {
            Ok(loaded) => {
                let wrote = self.hart.make(effect, loaded);
                self.store(wrote);
                self.count += 1;
                Ahead::Free
            }
            Err(ahead) => ahead,
        }
    }

    /// Makes the next move, where it asks for nothing.
    fn step(&mut self) -> Ahead
        requires { self.old.count < 2 ^ 64 - 1 }
        ensures ahead { result ≡ ahead_of self.old }
        ensures made { Steps self.old self.new result }
    {
        match self.hart.fetch_need() {
            Fetch::At(pc) => {
                if self.lacks(pc, Mode::Read) {
                    return Ahead::Wants(self.page_at(pc), Mode::Read);
                }
                let word = self.word_held(pc);
                self.execute(word)
            }
            Fetch::Interrupt | Fetch::Fault => {
                self.hart.enter();
                self.count += 1;
                Ahead::Free
            }
        }
    }

    /// Makes the next move uncounted, where no interrupt is pending, it reads no control register and changes
    /// none but the counters, and it asks for nothing; else false.
    #[inline(always)]
    fn pass(&mut self) -> bool
        ensures { Passes self.old self.new result }
    {
        let Some(pc) = self.hart.fetch_place() else {
            return false;
        };
        if self.lacks(pc, Mode::Read) {
            return false;
        }
        let word = self.word_held(pc);
        let Some(i) = self.decodings.decode(pc, word) else {
            return false;
        };
        if reads_csr(i) {
            return false;
        }
        let effect = self.hart.instr_effect(i, word);
        if !effect.is_quiet() {
            return false;
        }
        let Ok(loaded) = self.loaded(effect.need()) else {
            return false;
        };
        let wrote = self.hart.make_uncounted(effect, loaded);
        self.store(wrote);
        true
    }

    /// Makes moves while they pass, and counts them together.
    fn burst(&mut self, until: u64)
        requires { self.old.count ≤ until }
        ensures within { self.new.count ≤ until }
        ensures gone { HasGone self.old self.new }
    {
        let Fetch::At(_) = self.hart.fetch_need() else {
            return;
        };
        let most = until - self.count;
        let mut moves = 0;
        while moves < most {
            if !self.pass() {
                break;
            }
            moves += 1;
        }
        if moves > 0 {
            self.hart.count_moves(moves);
            self.count += moves;
        }
    }

    /// Moves on held pages while the count is below `until`.
    pub fn advance(&mut self, until: u64) -> Pause
        requires { self.old.count ≤ until }
        ensures pause { AheadAt self.new until result }
        ensures kept { KeepsPages self.old self.new }
        ensures leg { LegAgrees self.old self.new until result }
    {
        while self.count < until {
            self.burst(until);
            if self.count == until {
                return Pause::Due;
            }
            match self.step() {
                Ahead::Free => {}
                Ahead::Wants(page, mode) => return Pause::Wants(page, mode),
                Ahead::AtDevice(access) => return Pause::AtDevice(access),
            }
        }
        Pause::Due
    }

    /// The move of the device access that is next, with the device's answer.
    pub fn touched(&mut self, loaded: u32)
        requires device { IsAtDevice (ahead_of self.old) }
        requires count { self.old.count < 2 ^ 64 - 1 }
        ensures touched { self.new ≡ touched_by self.old loaded }
        ensures agrees { TouchAgrees self.old self.new loaded }
    {
        if let Fetch::At(pc) = self.hart.fetch_need() {
            let word = self.word_held(pc);
            let _ = self.hart.finish(word, loaded);
        }
        self.count += 1;
    }

    /// Sets the hart's lines: bit 0 software, bit 1 timer.
    pub fn set_lines(&mut self, lines: u8)
        requires { lines < 4 }
        ensures lines { self.new ≡ record self.old { hart = lined lines self.old.hart } }
        ensures agrees { LinesAgree self.old self.new lines }
    {
        self.hart.set_lines(lines);
    }

    /// Holds a page in a mode from now on: in Write its box is exchanged for the spare frame, in Read its
    /// bytes are copied.
    pub fn take_page(&mut self, page: u32, mode: Mode, store: &mut PageStore)
        requires page { page < length self.old.frames.pages }
        requires less { strength (hold_of self.old page) < strength (Some mode) }
        requires unit { store.old.unit ≡ self.old.frames.unit }
        requires pages { length store.old.pages ≡ length self.old.frames.pages }
        ensures run { self.new ≡ taken self.old page mode store.old }
        ensures store { store.new ≡ store_taken self.old page mode store.old }
        ensures agrees { TakeAgrees self.old self.new page mode store.old }
    {
        match mode {
            Mode::Read => self.frames.fill(page, store.page(page).bytes()),
            Mode::Write => self.frames.exchange_with(page, store),
        }
        self.held[page as usize] = Some(mode);
    }

    /// Keeps only what is left of a page, and gives the store its bytes where it was held in Write. True
    /// exactly where the reservation stood in the page, and so ended.
    pub fn give_page(&mut self, page: u32, left: Option<Mode>, store: &mut PageStore) -> bool
        requires page { page < length self.old.frames.pages }
        requires less { strength left < strength (hold_of self.old page) }
        requires unit { store.old.unit ≡ self.old.frames.unit }
        requires pages { length store.old.pages ≡ length self.old.frames.pages }
        ensures run { self.new ≡ given self.old page left store.old }
        ensures store { store.new ≡ store_given self.old page (hold_of self.old page) store.old }
        ensures answer { result ≡ ends_with self.old page }
        ensures agrees { GiveAgrees self.old self.new page left store.new result }
    {
        let ends = self.lose_with(page);
        self.give_bytes(page, left, store);
        self.held[page as usize] = left;
        ends
    }

    /// Ends the reservation where it stands in this page, which is given up. It stands only in a page that
    /// is held in Write.
    fn lose_with(&mut self, page: u32) -> bool
        requires { page < length self.old.frames.pages }
        ensures hart { self.new ≡ record self.old { hart = hart_given self.old page } }
        ensures answer { result ≡ ends_with self.old page }
    {
        let ends = self.held[page as usize] == Some(Mode::Write) && self.is_reserved_in(page);
        if ends {
            self.hart.lose();
        }
        ends
    }

    /// Whether the reservation stands in the page.
    fn is_reserved_in(&self, page: u32) -> bool
        ensures { result ≡ is_number page (option_map (page_at self.now.frames.unit) self.now.hart.reserved) }
    {
        match self.hart.reserved() {
            Some(at) => at.saturating_sub(0x8000_0000) >> self.shift == page,
            None => false,
        }
    }

    /// Gives the store the bytes of a page that is held in Write: its box, or a copy where some of it is
    /// left.
    fn give_bytes(&mut self, page: u32, left: Option<Mode>, store: &mut PageStore)
        requires page { page < length self.old.frames.pages }
        requires unit { store.old.unit ≡ self.old.frames.unit }
        requires pages { length store.old.pages ≡ length self.old.frames.pages }
        ensures run { self.new ≡ page_given self.old page left store.old }
        ensures store { store.new ≡ store_given self.old page (hold_of self.old page) store.old }
    {
        match (self.held[page as usize], left) {
            (Some(Mode::Write), None) => self.frames.exchange_with(page, store),
            (Some(Mode::Write), Some(_)) => store.fill(page, self.frames.page(page).bytes()),
            _ => {}
        }
    }

    /// Writes to its frame what a move wrote.
    fn store(&mut self, wrote: Wrote)
        requires { WritesInMemory self.old.hart.pages wrote }
        ensures { self.new ≡ record self.old { frames = stored_in self.old.frames wrote } }
    {
        if let Wrote::Bytes { at, size, value } = wrote {
            let page = self.page_at(at);
            let place = self.place_at(at);
            self.frames.store(page, place, size, value);
        }
    }
}

#[cfg(test)]
mod tests;
