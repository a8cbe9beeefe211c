//! The parts of a log and its head, written behind the bytes of a piece.

ghost use Rattle.std.specs.Prelude.{◌≡◌, ◌≤◌, ◌<◌, ◌+◌, ◌*◌, ◌^◌, ◌++◌, IsTrue, length};
ghost use Rattle.std.specs.Int.{w8, w16, w32, w64, to_le_bytes};
ghost use Rattle.std.specs.List.{flat_map};
ghost use Rattle.log_entry.specs.Range.{in_range};
ghost use Rattle.log_entry.specs.Size.{size_of};
ghost use Rattle.log_format.specs.Writing.{IsSpellable, IsSpellableStream};
ghost use Rattle.log_format.specs.Grammar.{mode_number, left_number, cause_number, kind_number, value_number, cause_format, wait_format, waits_format, input_format, entry_format, magic};
ghost use Rattle.log_format.specs.Parts.{head_bytes, part_at};
ghost use Rattle.log_format.specs.Pieces.{piece_bytes, Puts};

use crate::buffer::Buffer;
use crate::numbers::MAGIC;
use log_entry::{Cause, Entries, Entry, Input, Log, Mode, WaitFor, Waits, entry_size};

fn mode_number(mode: Mode) -> u8
    ensures { result ≡ mode_number mode }
{
    match mode {
        Mode::Read => 1,
        Mode::Write => 2,
    }
}

fn left_number(left: Option<Mode>) -> u8
    ensures { result ≡ left_number left }
{
    match left {
        None => 0,
        Some(_) => 1,
    }
}

fn cause_number(cause: Cause) -> u8
    ensures { result ≡ cause_number cause }
{
    match cause {
        Cause::Stop => 1,
        Cause::Limit => 2,
        Cause::Full => 3,
        Cause::Fault => 4,
        Cause::Cut => 5,
    }
}

fn kind_number(input: Input) -> u8
    ensures { result ≡ kind_number input }
{
    match input {
        Input::Nothing => 0,
        Input::Empty => 1,
        Input::Byte(_) => 2,
        Input::Time(_) => 3,
    }
}

fn value_number(input: Input) -> u64
    ensures { result ≡ value_number input }
{
    match input {
        Input::Nothing | Input::Empty => 0,
        Input::Byte(byte) => byte as u64,
        Input::Time(time) => time,
    }
}

impl Buffer {
    fn put_input(&mut self, input: Input)
        requires { length self.old + 9 ≤ piece_bytes }
        ensures { self.new ≡ self.old ++ input_format.spell input }
    {
        self.put_u8(kind_number(input));
        self.put_u64(value_number(input));
    }

    fn put_wait(&mut self, wait: &WaitFor)
        requires { length self.old + 9 ≤ piece_bytes }
        ensures bytes { self.new ≡ self.old ++ (wait_format 0).spell wait.now }
        ensures count { length self.new ≡ length self.old + 9 }
    {
        self.put_u8(wait.hart);
        self.put_u64(wait.count);
    }

    fn put_wait_list(&mut self, waits: &[WaitFor])
        requires { length self.old + 9 * length waits.now ≤ piece_bytes }
        ensures { self.new ≡ self.old ++ flat_map (wait_format 0).spell waits.now }
    {
        for wait in waits {
            self.put_wait(wait);
        }
    }

    fn put_counted_waits(&mut self, waits: &[WaitFor])
        requires few { length waits.now < 2 ^ 8 }
        requires room { length self.old + (1 + 9 * length waits.now) ≤ piece_bytes }
        ensures { self.new ≡ self.old
            ++ (to_le_bytes w8 (length waits.now) ++ flat_map (wait_format 0).spell waits.now) }
    {
        self.put_u8(waits.len() as u8);
        self.put_wait_list(waits);
    }

    #[tactic(auto, unfolding(crate::specs::Grammar::waits_format))]
    fn put_waits(&mut self, waits: &Waits)
        requires { length self.old + (1 + 9 * length waits.now.items) ≤ piece_bytes }
        ensures { self.new ≡ self.old ++ (waits_format 0).spell waits.now }
    {
        self.put_counted_waits(waits.items());
    }

    /// The tag and the fields that a Gain and a Yield begin with, and what the hart holds then.
    fn put_privilege(&mut self, tag: u8, count: u64, page: u16, seq: u32, held: u8)
        requires { length self.old + 16 ≤ piece_bytes }
        ensures bytes { self.new ≡ self.old
            ++ (to_le_bytes w8 tag ++ (to_le_bytes w64 count
            ++ (to_le_bytes w16 page ++ (to_le_bytes w32 seq ++ to_le_bytes w8 held)))) }
        ensures count { length self.new ≡ length self.old + 16 }
    {
        self.put_u8(tag);
        self.put_u64(count);
        self.put_u16(page);
        self.put_u32(seq);
        self.put_u8(held);
    }

    fn put_gain(&mut self, count: u64, page: u32, seq: u32, mode: Mode, waits: &Waits)
        requires page { page < 2 ^ 16 }
        requires room { length self.old + (17 + 9 * length waits.now.items) ≤ piece_bytes }
        ensures { self.new ≡ self.old ++ (entry_format 0 0).spell (Entry.Gain count page seq mode waits.now) }
    {
        self.put_privilege(1, count, page as u16, seq, mode_number(mode));
        self.put_waits(waits);
    }

    fn put_yield(&mut self, count: u64, page: u32, seq: u32, left: Option<Mode>)
        requires page { page < 2 ^ 16 }
        requires room { length self.old + 16 ≤ piece_bytes }
        ensures { self.new ≡ self.old ++ (entry_format 0 0).spell (Entry.Yield count page seq left) }
    {
        self.put_privilege(2, count, page as u16, seq, left_number(left));
    }

    /// The tag and the fields that a Poll and a Touch begin with.
    fn put_event(&mut self, tag: u8, count: u64, ord: u32)
        requires { length self.old + 13 ≤ piece_bytes }
        ensures bytes { self.new ≡ self.old
            ++ (to_le_bytes w8 tag ++ (to_le_bytes w64 count ++ to_le_bytes w32 ord)) }
        ensures count { length self.new ≡ length self.old + 13 }
    {
        self.put_u8(tag);
        self.put_u64(count);
        self.put_u32(ord);
    }

    fn put_poll(&mut self, count: u64, ord: u32, time: u64, bits: u8)
        requires { length self.old + 22 ≤ piece_bytes }
        ensures { self.new ≡ self.old ++ (entry_format 0 0).spell (Entry.Poll count ord time bits) }
    {
        self.put_event(3, count, ord);
        self.put_u64(time);
        self.put_u8(bits);
    }

    fn put_touch(&mut self, count: u64, ord: u32, input: Input)
        requires { length self.old + 22 ≤ piece_bytes }
        ensures { self.new ≡ self.old ++ (entry_format 0 0).spell (Entry.Touch count ord input) }
    {
        self.put_event(4, count, ord);
        self.put_input(input);
    }

    fn put_end(&mut self, count: u64)
        requires { length self.old + 9 ≤ piece_bytes }
        ensures { self.new ≡ self.old ++ (entry_format 0 0).spell (Entry.End count) }
    {
        self.put_u8(5);
        self.put_u64(count);
    }

    fn put_entry(&mut self, entry: &Entry)
        requires spellable { IsSpellable entry.now }
        requires room { length self.old + size_of entry.now ≤ piece_bytes }
        ensures { self.new ≡ self.old ++ (entry_format 0 0).spell entry.now }
    {
        match entry {
            Entry::Gain {
                count,
                page,
                seq,
                mode,
                waits,
            } => self.put_gain(*count, *page, *seq, *mode, waits),
            Entry::Yield {
                count,
                page,
                seq,
                left,
            } => self.put_yield(*count, *page, *seq, *left),
            Entry::Poll {
                count,
                ord,
                time,
                bits,
            } => self.put_poll(*count, *ord, *time, *bits),
            Entry::Touch { count, ord, input } => self.put_touch(*count, *ord, *input),
            Entry::End { count } => self.put_end(*count),
        }
    }

    /// An entry, where it fits.
    fn add_entry(&mut self, entry: &Entry) -> bool
        requires { IsSpellable entry.now }
        ensures { Puts ((entry_format 0 0).spell entry.now) self.old result self.new }
    {
        if self.room() < entry_size(entry) {
            return false;
        }
        self.put_entry(entry);
        true
    }

    /// A number of entries, where it fits.
    fn add_number(&mut self, number: u32) -> bool
        ensures { Puts (to_le_bytes w32 number) self.old result self.new }
    {
        if self.room() < 4 {
            return false;
        }
        self.put_u32(number);
        true
    }

    /// A part of a stream, where it fits: the number of its entries, or one of them.
    pub(crate) fn add_part(&mut self, stream: &Entries, next: usize) -> bool
        requires next { next ≤ length stream.now }
        requires spellable { IsSpellableStream stream.now }
        ensures { Puts (part_at next stream.now) self.old result self.new }
    {
        let entries = stream.items();
        if next == 0 {
            self.add_number(entries.len() as u32)
        } else {
            self.add_entry(&entries[next - 1])
        }
    }

    /// The cause, where it fits.
    pub(crate) fn add_cause(&mut self, cause: Cause) -> bool
        ensures { Puts (cause_format.spell cause) self.old result self.new }
    {
        if self.room() < 1 {
            return false;
        }
        self.put_u8(cause_number(cause));
        true
    }

    /// Magic, version, harts and pages.
    fn put_board(&mut self, harts: u8, pages: u16)
        requires { length self.old + 8 ≤ piece_bytes }
        ensures bytes { self.new ≡ self.old
            ++ (to_le_bytes w32 magic ++ (to_le_bytes w8 1 ++ (to_le_bytes w8 harts ++ to_le_bytes w16 pages))) }
        ensures count { length self.new ≡ length self.old + 8 }
    {
        self.put_u32(MAGIC);
        self.put_u8(1);
        self.put_u8(harts);
        self.put_u16(pages);
    }

    /// The head of a log.
    pub(crate) fn put_head(&mut self, l: &Log)
        requires range { IsTrue (in_range l.now) }
        requires room { length self.old + 48 ≤ piece_bytes }
        ensures { self.new ≡ self.old ++ head_bytes l.now }
    {
        let streams = l.streams.items();
        self.put_board(streams.len() as u8, l.pages);
        self.put_u64(l.limit);
        self.put(&l.image);
    }
}
