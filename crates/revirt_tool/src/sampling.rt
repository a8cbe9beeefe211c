//! The command that records a sample guest and replays it on one thread and in rounds.

ghost use Rattle.std.specs.Prelude.{◌≡◌, ◌-◌, ◌^◌, ℕ, true, IfOk, Ok, is_ok, nat_lt};
ghost use Rattle.flat_machine.specs.declared.results.Final.{Final};
ghost use Rattle.report_view.specs.Report.{report};
ghost use Rattle.outside.specs.Consoles.{seen_of_sure};
ghost use Rattle.outside.specs.Seen.{Answers, Tells};
ghost use Rattle.outside.specs.declared.console.Asked.TheVariants.{Nothing};
ghost use Rattle.outside.specs.Clocks.{tick_at};
ghost use Rattle.outside.specs.Numbered.{one_more};
ghost use Rattle.revirt_tool.specs.Replays.{IsReportable};
ghost use Rattle.revirt_tool.specs.Samples.{sample_image, seen_by_hundreds, IsSampled, IsSample, SamplesAs, IsSpelled};

use crate::ending::{Ended, Ending, without_run};
use crate::replaying::outcome_of;
use command_words::Way;
use crew_core::Recorded;
use elf_image::{Image, ImageError, read_image};
use flat_machine::Final;
use guest_maker::make_guest;
use log_entry::Log;
use log_format::{ReadError, read_log, write_log};
use outside::{Asked, Clock, Console, Failed, Gate, MemClock, NoMemory, SureConsole};
use report_view::{Summary, report_text, summary_text};
use round_run::record_rounds;
use std::alloc::Global;
use std::marker::Model;
use std::thread::Threads;

/// The board of every sample.
const HARTS: u8 = 4;

const PAGES: u16 = 8;

const LIMIT: u64 = 1_000_000;

const LOG_LIMIT: u64 = 67_108_864;

/// A clock that answers 0, 100, 200 and so on, and counts its answers.
#[derive(Drop)]
struct ByHundreds {
    clock: MemClock,
    asked: u64,
}

impl Model for ByHundreds {
    ghost use Rattle.std.specs.Prelude.{ℕ, ◌≡◌};

    ghost Value = { ℕ };

    ghost view = { λ c. c.asked };

    ghost invariant = { λ c. c.clock ≡ record { first = 0; step = 100; given = c.asked } };
}

impl ByHundreds {
    /// Contracts see it as the number of answers that it gave.
    fn start() -> ByHundreds
        ensures { result ≡ 0 }
    {
        ByHundreds {
            clock: MemClock::start(0, 100),
            asked: 0,
        }
    }

    /// Whether that number can be told.
    fn can_tell(&self) -> bool
        ensures { result ≡ nat_lt self.now (2 ^ 64 - 1) }
    {
        self.asked < u64::MAX
    }
}

impl Clock for ByHundreds {
    ghost seen = { seen_by_hundreds };

    fn now(&mut self) -> u64
        ensures answered { Tells result (seen_by_hundreds self.old) (seen_by_hundreds self.new) }
        ensures answer { result ≡ tick_at 0 100 self.old }
        ensures counted { self.new ≡ one_more self.old }
    {
        self.asked = self.asked.saturating_add(1);
        self.clock.now()
    }
}

/// A console that always answers that there is nothing, and counts its answers.
#[derive(Drop)]
struct Quiet {
    console: SureConsole,
    asked: u64,
}

impl Model for Quiet {
    ghost use Rattle.std.specs.Prelude.{ℕ, ◌≡◌};

    ghost Value = { ℕ };

    ghost view = { λ c. c.asked };

    ghost invariant = { λ c. c.console ≡ c.asked };
}

impl Quiet {
    /// Contracts see it as the number of answers that it gave.
    fn start() -> Quiet
        ensures { result ≡ 0 }
    {
        Quiet {
            console: SureConsole::start(),
            asked: 0,
        }
    }

    /// Whether that number can be told.
    fn can_tell(&self) -> bool
        ensures { result ≡ nat_lt self.now (2 ^ 64 - 1) }
    {
        self.asked < u64::MAX
    }
}

impl Console for Quiet {
    ghost seen = { seen_of_sure };

    fn poll(&mut self) -> Result<Asked, Failed>
        ensures answered { IfOk result (λ a. Answers a (seen_of_sure self.old) (seen_of_sure self.new)) }
        ensures answer { result ≡ Ok Nothing }
        ensures asked { self.new ≡ one_more self.old }
    {
        self.asked = self.asked.saturating_add(1);
        self.console.poll()
    }

    fn put(&mut self, byte: u8) -> Result<(), Failed>
        ensures answer { is_ok result ≡ true }
        ensures as_before { self.new ≡ self.old }
    {
        self.console.put(byte)
    }
}

/// The image of the guest of this number.
fn guest_of(alloc: Global, number: u32) -> Result<Image, NoMemory>
    ensures { IfOk result (λ image. image ≡ sample_image number) }
{
    let file = make_guest(alloc, number, HARTS)?;
    match read_image(alloc, file.as_slice(), PAGES) {
        Ok(image) => Ok(image),
        Err(ImageError::NoMemory) => Err(NoMemory),
        Err(ImageError::Refused(_)) => unreachable!(),
    }
}

/// The log of a recording in rounds, and what it ended with. None of it where so many answers were given that their
/// number can't be told, which no run of this board comes to.
fn recorded<T: Threads + Sync, G: Gate>(
    rt: &T,
    alloc: Global,
    image: &Image,
    gate: &G,
) -> Result<(Log, Final), NoMemory>
    ensures { IfOk result (λ r. IsSampled image.now r.0 r.1) }
{
    match record_rounds(
        rt,
        alloc,
        image,
        HARTS,
        LIMIT,
        LOG_LIMIT,
        Quiet::start(),
        ByHundreds::start(),
        gate,
    ) {
        Ok(
            Recorded {
                log,
                ended,
                console,
                clock,
                ..
            },
        ) => {
            if console.can_tell() && clock.can_tell() {
                Ok((log, ended))
            } else {
                Err(NoMemory)
            }
        }
        Err(_) => Err(NoMemory),
    }
}

/// An ending that only want of memory can have brought.
fn no_memory_in(_ending: Ending) -> NoMemory
    requires { _ending ≡ Ending.NoMemory }
{
    NoMemory
}

/// The report of a replay of a log that is read back from its bytes.
fn replayed<T: Threads + Sync, G: Gate>(
    rt: &T,
    alloc: Global,
    bytes: &[u8],
    image: &Image,
    way: Way,
    gate: &G,
) -> Result<Vec<u8>, NoMemory>
    requires spelled { (ended : Final) × IsSpelled image.now ended bytes.now }
    ensures { IfOk result (λ text. (ended : Final) → IsSpelled image.now ended bytes.now
        → text.items ≡ report ended) }
{
    let log = match read_log(alloc, bytes) {
        Ok(log) => log,
        Err(ReadError::NoMemory) => return Err(NoMemory),
        Err(ReadError::Malformed { .. }) => unreachable!(),
    };
    match outcome_of(rt, alloc, log, image, way, gate) {
        Ok(end) => report_text(alloc, &end),
        Err(ending) => Err(no_memory_in(ending)),
    }
}

/// The summary of the sample of this number.
fn sampled<T: Threads + Sync, G: Gate>(
    rt: &T,
    alloc: Global,
    number: u32,
    gate: &G,
) -> Result<Vec<u8>, NoMemory>
    ensures { IfOk result (λ text. IsSample number text.items) }
{
    let image = guest_of(alloc, number)?;
    let (log, ended) = recorded(rt, alloc, &image, gate)?;
    let bytes = write_log(alloc, &log)?;
    let report = report_text(alloc, &ended)?;
    let one = replayed(rt, alloc, bytes.as_slice(), &image, Way::One, gate)?;
    let rounds = replayed(rt, alloc, bytes.as_slice(), &image, Way::Rounds, gate)?;
    summary_text(
        alloc,
        &Summary {
            number,
            ended: &ended,
            log: bytes.len(),
            recorded: report.as_slice(),
            one: one.as_slice(),
            rounds: rounds.as_slice(),
        },
    )
}

/// Records the sample of this number and replays it, over a console and a clock of its own.
pub(crate) fn sample<T: Threads + Sync, C: Console, K: Clock, G: Gate>(
    rt: &T,
    alloc: Global,
    number: u32,
    console: C,
    clock: K,
    gate: &G,
) -> Ended<C, K>
    ensures samples { SamplesAs number result.ending }
    ensures console { result.console ≡ console }
    ensures clock { result.clock ≡ clock }
{
    let ending = match sampled(rt, alloc, number, gate) {
        Ok(report) => Ending::Kept {
            report,
            fault: false,
        },
        Err(NoMemory) => Ending::NoMemory,
    };
    without_run(ending, console, clock)
}
