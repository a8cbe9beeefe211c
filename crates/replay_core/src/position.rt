//! A replay's board, apart from the runs of its harts.

ghost use Rattle.std.specs.Prelude.{◌≡◌, ◌≢◌, ◌<◌, length, false, true, IsTrue, IfOk};
ghost use Rattle.log_entry.specs.Parts.{count_of};
ghost use Rattle.log_entry.specs.Range.{in_range};
ghost use Rattle.order_rules.specs.Cursor.{first_left};
ghost use Rattle.replay_model.specs.Items.{Move, item_at};
ghost use Rattle.run_model.specs.Run.{ahead_of};
ghost use Rattle.run_model.specs.declared.asked.Ahead.TheVariants.{AtDevice};
ghost use Rattle.replay_core.specs.declared.went.Went.TheVariants as wents;
ghost use Rattle.replay_core.specs.Items.{IsNext, IsStill};
ghost use Rattle.replay_core.specs.declared.went.Next.TheVariants as nexts;
ghost use Rattle.replay_parts.specs.Parts.{until_by};
ghost use Rattle.replay_core.specs.Entries.{MakesAll, MakesEntry, left_of};
ghost use Rattle.replay_core.specs.Standing.{BeginsBoard, IsTied, MakesItem, MakesMoves, StaysWhere, Passes, item_of};

use crate::cursor::Cursor;
use crate::room::room_of;
use crate::suits::suits;
use crate::went::{Next, Went};
use board_backing::Backing;
use elf_image::Image;
use hart_run::{Ahead, HartRun};
use log_entry::{Entry, Log};
use log_order::Orderly;
use rv_words::{Access, Input, Mode};
use shared_types::NoMemory;
use std::alloc::Global;

/// The log and how far it was taken, and the pages and devices. Its contracts speak of each state of the replay
/// for which the board stands and with which the run agrees.
#[derive(Drop)]
pub struct Position {
    pub(crate) log: Orderly,
    pub(crate) backing: Backing,
    pub(crate) cursor: Cursor,
}

/// The number of harts of a log.
pub(crate) fn harts_of(log: &Log) -> u8
    requires { IsTrue (in_range log.now) }
    ensures number { result ≡ length log.now.streams }
    ensures some { 0 < result }
{
    log.streams.items().len() as u8
}

fn count_of(e: &Entry) -> u64
    ensures { result ≡ count_of e.now }
{
    match e {
        Entry::Gain { count, .. }
        | Entry::Yield { count, .. }
        | Entry::Poll { count, .. }
        | Entry::Touch { count, .. }
        | Entry::End { count } => *count,
    }
}

/// What the hart makes once it is at the entry's count and the entry's guard is met.
fn once(is_there: bool, met: bool, next: Next) -> Next
    ensures before { is_there ≡ false → result ≡ nexts.Move }
    ensures held { is_there ≡ true → met ≡ false → result ≡ nexts.Hold }
    ensures due { is_there ≡ true → met ≡ true → result ≡ next }
{
    match (is_there, met) {
        (true, true) => next,
        (true, false) => Next::Hold,
        (false, _) => Next::Move,
    }
}

/// Whether an entry was made.
fn is_entry(went: Went) -> bool
    ensures made { result ≡ true → went ≡ wents.Entry }
    ensures none { result ≡ false → went ≢ wents.Entry }
{
    matches!(went, Went::Entry)
}

impl Position {
    /// The board at the start of the replay of an image, with room for each console byte.
    pub(crate) fn start(alloc: Global, log: Orderly, image: &Image) -> Result<Position, NoMemory>
        requires { log.pages ≡ image.now.pages }
        ensures { IfOk result (BeginsBoard log image.now) }
    {
        let _ = image.pages();
        let room = room_of(log.log());
        if room > u64::from(u32::MAX) {
            return Err(NoMemory);
        }
        let harts = harts_of(log.log());
        let cursor = Cursor::start(alloc, log.log())?;
        let mut backing = Backing::start(alloc, image, harts)?;
        backing.devices.reserve(room as u32)?;
        Ok(Position {
            log,
            backing,
            cursor,
        })
    }

    /// What the next item of a hart with this count is.
    fn next(&self, count: u64, hart: u8) -> Next
        requires { hart < length self.now.cursor.places }
        ensures { IsNext self.now.cursor (item_at count (first_left self.now.log self.now.cursor hart)) result }
    {
        let Some(entry) = self.cursor.first_left(self.log.log(), usize::from(hart)) else {
            return Next::Move;
        };
        let met = self.cursor.guard_is_met(entry);
        match entry {
            Entry::End { count: at } => once(*at == count, true, Next::Ended),
            Entry::Gain {
                count: at,
                page,
                mode,
                ..
            } => {
                let (page, mode) = (*page, *mode);
                once(*at == count, met, Next::Gain { page, mode })
            }
            Entry::Yield {
                count: at,
                page,
                left,
                ..
            } => {
                let (page, left) = (*page, *left);
                once(*at == count, met, Next::Yield { page, left })
            }
            Entry::Poll {
                count: at,
                time,
                bits,
                ..
            } => {
                let (time, bits) = (*time, *bits);
                once(*at == count, met, Next::Poll { time, bits })
            }
            Entry::Touch {
                count: at,
                input,
                ..
            } => once(*at == count, met, Next::Touch { input: *input }),
        }
    }

    /// The hart's first entry left is taken.
    fn pass(&mut self, hart: u8)
        requires { hart < length self.old.cursor.places }
        ensures cursor { Passes self.old self.new hart }
        ensures log { self.new.log ≡ self.old.log }
        ensures backing { self.new.backing ≡ self.old.backing }
    {
        let _ = self.cursor.take(self.log.log(), usize::from(hart));
    }

    /// A move without device access.
    fn go_on(&self, run: &mut HartRun, hart: u8) -> Went
        requires tied { IsTied self.now run.old hart }
        requires next { item_of self.now run.old hart ≡ Move }
        ensures goes { MakesItem self.now self.now run.old run.new hart result }
        ensures still { IsStill result → run.new ≡ run.old }
    {
        match run.ahead() {
            Ahead::Free => {
                let count = run.count();
                let _ = run.advance(count + 1);
                Went::Moved
            }
            Ahead::Wants(_, _) => Went::Diverged(1),
            Ahead::AtDevice(_) => Went::Diverged(2),
        }
    }

    fn gain(&mut self, run: &mut HartRun, hart: u8, page: u32, mode: Mode) -> Went
        requires tied { IsTied self.old run.old hart }
        requires next { IsNext self.old.cursor (item_of self.old run.old hart) (nexts.Gain page mode) }
        ensures goes { MakesItem self.old self.new run.old run.new hart result }
        ensures made { result ≡ wents.Entry }
        ensures log { self.new.log ≡ self.old.log }
    {
        self.backing.gain(run, page, mode);
        self.pass(hart);
        Went::Entry
    }

    fn yield_page(&mut self, run: &mut HartRun, hart: u8, page: u32, left: Option<Mode>) -> Went
        requires tied { IsTied self.old run.old hart }
        requires next { IsNext self.old.cursor (item_of self.old run.old hart) (nexts.Yield page left) }
        ensures goes { MakesItem self.old self.new run.old run.new hart result }
        ensures made { result ≡ wents.Entry }
        ensures log { self.new.log ≡ self.old.log }
    {
        let _ = self.backing.yield_page(run, page, left);
        self.pass(hart);
        Went::Entry
    }

    fn poll(&mut self, run: &mut HartRun, hart: u8, time: u64, bits: u8) -> Went
        requires tied { IsTied self.old run.old hart }
        requires next { IsNext self.old.cursor (item_of self.old run.old hart) (nexts.Poll time bits) }
        ensures goes { MakesItem self.old self.new run.old run.new hart result }
        ensures still { StaysWhere (IsStill result) self.old self.new run.old run.new }
        ensures log { self.new.log ≡ self.old.log }
    {
        if self.backing.devices.lines_at(hart, time) != bits {
            return Went::Diverged(5);
        }
        if self.backing.devices.stop().is_some() {
            return Went::Diverged(6);
        }
        let _ = self.backing.poll(run, hart, time);
        self.pass(hart);
        Went::Entry
    }

    fn touch(&mut self, run: &mut HartRun, hart: u8, input: Input) -> Went
        requires tied { IsTied self.old run.old hart }
        requires next { IsNext self.old.cursor (item_of self.old run.old hart) (nexts.Touch input) }
        ensures goes { MakesItem self.old self.new run.old run.new hart result }
        ensures still { StaysWhere (IsStill result) self.old self.new run.old run.new }
        ensures log { self.new.log ≡ self.old.log }
    {
        match run.ahead() {
            Ahead::Wants(_, _) => Went::Diverged(1),
            Ahead::Free => Went::Diverged(3),
            Ahead::AtDevice(access) => self.access(run, hart, access, input),
        }
    }

    fn access(&mut self, run: &mut HartRun, hart: u8, access: Access, input: Input) -> Went
        requires tied { IsTied self.old run.old hart }
        requires next { IsNext self.old.cursor (item_of self.old run.old hart) (nexts.Touch input) }
        requires ahead { ahead_of run.old ≡ AtDevice access }
        ensures goes { MakesItem self.old self.new run.old run.new hart result }
        ensures still { StaysWhere (IsStill result) self.old self.new run.old run.new }
        ensures log { self.new.log ≡ self.old.log }
    {
        let harts = harts_of(self.log.log());
        if !suits(&self.backing, harts, access, input) {
            return Went::Diverged(4);
        }
        if self.backing.devices.stop().is_some() {
            return Went::Diverged(6);
        }
        let _ = self.backing.replay_touch(run, hart, access, input);
        self.pass(hart);
        Went::Entry
    }

    /// The moves of the hart whose run this is, as many as it can make up to the count of its first entry left and to
    /// this one. Whether it made any.
    pub(crate) fn run_on(&self, run: &mut HartRun, hart: u8, most: u64) -> bool
        requires { IsTied self.now run.old hart }
        ensures made { IsTrue result → MakesMoves self.now run.old run.new hart most }
        ensures still { result ≡ false → run.new ≡ run.old }
    {
        let Some(entry) = self.cursor.first_left(self.log.log(), usize::from(hart)) else {
            return false;
        };
        let until = count_of(entry).min(most);
        if run.count() >= until {
            return false;
        }
        match run.ahead() {
            Ahead::Free => {
                let _ = run.advance(until);
                true
            }
            _ => false,
        }
    }

    /// The count of the hart's first entry left, up to which it may move, and this one where there is none.
    pub(crate) fn until(&self, count: u64, hart: u8) -> u64
        requires { hart < length self.now.cursor.places }
        ensures { result ≡ until_by count (first_left self.now.log self.now.cursor hart) }
    {
        match self.cursor.first_left(self.log.log(), usize::from(hart)) {
            Some(entry) => count_of(entry),
            None => count,
        }
    }

    /// What comes of a move of the hart, which isn't made.
    fn look(&self, run: &HartRun, hart: u8) -> Went
        requires tied { IsTied self.now run.now hart }
        requires next { item_of self.now run.now hart ≡ Move }
        ensures makes { MakesEntry self.now self.now run.now run.now hart result }
        ensures none { result ≢ wents.Entry }
    {
        match run.ahead() {
            Ahead::Free => Went::Moved,
            Ahead::Wants(_, _) => Went::Diverged(1),
            Ahead::AtDevice(_) => Went::Diverged(2),
        }
    }

    /// What comes of the hart's next item. It is made where it is an entry.
    fn make(&mut self, run: &mut HartRun, hart: u8) -> Went
        requires tied { IsTied self.old run.old hart }
        ensures makes { MakesEntry self.old self.new run.old run.new hart result }
        ensures less { result ≡ wents.Entry → left_of self.new run.new hart < left_of self.old run.old hart }
        ensures log { self.new.log ≡ self.old.log }
    {
        let count = run.count();
        if count < self.until(count, hart) {
            return self.look(run, hart);
        }
        self.go(run, hart)
    }

    /// The hart's entries at its count are made, while it can. What comes of the item behind them.
    pub(crate) fn make_all(&mut self, run: &mut HartRun, hart: u8) -> Went
        requires tied { IsTied self.old run.old hart }
        ensures makes { MakesAll self.old self.new run.old run.new hart result }
        ensures log { self.new.log ≡ self.old.log }
    {
        'entries: loop {
            let went = self.make(run, hart);
            if !is_entry(went) {
                return went;
            }
        }
    }

    /// One item of the hart whose run this is.
    pub(crate) fn go(&mut self, run: &mut HartRun, hart: u8) -> Went
        requires tied { IsTied self.old run.old hart }
        ensures goes { MakesItem self.old self.new run.old run.new hart result }
        ensures still { StaysWhere (IsStill result) self.old self.new run.old run.new }
        ensures log { self.new.log ≡ self.old.log }
    {
        match self.next(run.count(), hart) {
            Next::Ended => Went::Ended,
            Next::Hold => Went::Hold,
            Next::Move => self.go_on(run, hart),
            Next::Gain { page, mode } => self.gain(run, hart, page, mode),
            Next::Yield { page, left } => self.yield_page(run, hart, page, left),
            Next::Poll { time, bits } => self.poll(run, hart, time, bits),
            Next::Touch { input } => self.touch(run, hart, input),
        }
    }
}
