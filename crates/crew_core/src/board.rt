//! The recorder's board: the crew with console, clock and the rows of its turns.

ghost use Rattle.std.specs.Prelude.{ℕ, ◌≡◌, ◌↔◌, IsErr, ◌<◌, ◌≤◌, length, map, true, false, IsTrue, IfOk, IfErr, OnOk, OnErr, Some, unwrap_or};
ghost use Rattle.rv_words.specs.Limits.{most_moves, longest_log};
ghost use Rattle.orders_law.specs.Orders.{below};
ghost use Rattle.rv_words.specs.declared.shared.Cause.TheVariants.{Cut};
ghost use Rattle.run_model.specs.Run.{run_at_start};
ghost use Rattle.crew_parts.specs.Boards.{world, plain_at_start, is_over_in, cut_in, EndsAs, IsBoardOf};
ghost use Rattle.crew_parts.specs.Parts.{number_of, AreParts, IsPartMoved};
ghost use Rattle.crew_parts.specs.Turns.{HasTurn};
ghost use Rattle.crew_core.specs.Orders.{told};
ghost use Rattle.crew_core.specs.Calls.{StandsAtStart, terms_at};
ghost use Rattle.crew_core.specs.Standing.{terms_of};

use crate::crew::Crew;
use crate::order::Order;
use crate::room::{fill, take_two};
use crate::row_list::Rows;
use board_backing::{first_runs, number_of};
use elf_image::Image;
use flat_machine::Final;
use hart_run::HartRun;
use log_entry::{Log, Waits};
use outside::{Clock, Console};
use rv_words::{Cause, MAX_HARTS};
use shared_types::{Listed, NoMemory};
use std::alloc::Global;
use std::marker::Model;
use std::snapshot::Snapshot;

/// Memory ran out. Console and clock are those that were handed in.
#[derive(Drop)]
pub struct OutOfMemory<C: Console, K: Clock> {
    pub console: C,
    pub clock: K,
}

/// A row for each turn that made an item: a hart, and the number of its items.
pub type Journal = Listed<(u8, u32)>;

/// A row for each turn that changed anything: a hart, and the moves that were committed.
pub type Turns = Listed<(u8, u32)>;

/// What a recording came to.
#[derive(Drop)]
pub struct Recorded<C: Console, K: Clock> {
    pub log: Log,
    pub ended: Final,
    pub journal: Journal,
    pub turns: Turns,
    pub console: C,
    pub clock: K,
}

/// The board of a recording, to which the harts come for their turns.
#[derive(Drop)]
pub struct Board<C: Console, K: Clock> {
    crew: Crew,
    spare: Vec<Waits>,
    journal: Rows<u32>,
    turns: Rows<u32>,
    abandoned: bool,
    prepared: bool,
    console: C,
    clock: K,
    image: Snapshot<Image>,
    first_console: Snapshot<C>,
    first_clock: Snapshot<K>,
}

impl<C: Console, K: Clock> Model for Board<C, K> {
    ghost use Rattle.crew_parts.specs.Boards as boards;
    ghost use Rattle.crew_parts.specs.Boards.{world};
    ghost use Rattle.crew_core.specs.Kept.{IsSeenAs, plain_of};

    ghost Value = { boards.Plain };

    ghost view = { λ b. plain_of b.crew b.journal.rows b.turns.rows b.image.value
        (world (C.seen b.first_console.value) (K.seen b.first_clock.value)) (world (C.seen b.console) (K.seen b.clock))
        b.abandoned b.prepared };

    ghost invariant = { λ b. IsSeenAs b.crew b.spare.items b.journal b.turns
        (plain_of b.crew b.journal.rows b.turns.rows b.image.value
        (world (C.seen b.first_console.value) (K.seen b.first_clock.value)) (world (C.seen b.console) (K.seen b.clock))
        b.abandoned b.prepared) };
}

/// The crew of a board before any turn, and a run for each hart.
fn first_crew(
    alloc: Global,
    image: &Image,
    harts: u8,
    limit: u64,
    log_limit: u64,
) -> Result<(Crew, Vec<HartRun>), NoMemory>
    requires least { 1 ≤ harts }
    requires most { harts ≤ MAX_HARTS }
    requires log { log_limit ≤ longest_log }
    ensures terms { IfOk result (λ r. terms_of r.0 ≡ terms_at image.now limit log_limit) }
    ensures stands { IfOk result (λ r. StandsAtStart image.now harts r.0) }
    ensures runs { IfOk result (λ r. r.1.items ≡ map (λ h. run_at_start h harts image.now) (below harts)) }
{
    let crew = Crew::start(alloc, image, harts, limit, log_limit)?;
    let runs = first_runs(alloc, image, harts)?;
    Ok((crew, runs))
}

impl<C: Console, K: Clock> Board<C, K> {
    /// The board of an image before any turn, and a run for each hart. The console and the clock are asked from now
    /// on, by turns alone.
    pub fn start(
        alloc: Global,
        image: &Image,
        harts: u8,
        limit: u64,
        log_limit: u64,
        console: C,
        clock: K,
    ) -> Result<(Board<C, K>, Vec<HartRun>), OutOfMemory<C, K>>
        requires least { 1 ≤ harts }
        requires most { harts ≤ MAX_HARTS }
        requires limit { limit ≤ most_moves }
        requires log_least { 1024 ≤ log_limit }
        requires log_most { log_limit ≤ longest_log }
        ensures board { IfOk result
            (λ r. r.0 ≡ plain_at_start image.now harts limit log_limit (world (C.seen console) (K.seen clock))) }
        ensures runs { IfOk result (λ r. r.1.items ≡ map (λ h. run_at_start h harts image.now) (below harts)) }
        ensures parts { IfOk result (λ r. AreParts r.0 r.1.items) }
        ensures holds { IfOk result (λ r. IsBoardOf r.0) }
        ensures console { IfErr result (λ e. e.console ≡ console) }
        ensures clock { IfErr result (λ e. e.clock ≡ clock) }
    {
        let _ = image.pages();
        match first_crew(alloc, image, harts, limit, log_limit) {
            Ok(begun) => {
                let (crew, runs) = begun;
                let board = Board {
                    crew,
                    spare: Vec::new(alloc),
                    journal: Rows::start(alloc),
                    turns: Rows::start(alloc),
                    abandoned: false,
                    prepared: false,
                    image: Snapshot::of(image),
                    first_console: Snapshot::of(&console),
                    first_clock: Snapshot::of(&clock),
                    console,
                    clock,
                };
                Ok((board, runs))
            }
            Err(NoMemory) => Err(OutOfMemory { console, clock }),
        }
    }

    /// The number of harts.
    pub fn harts(&self) -> u8
        ensures number { result ≡ self.now.harts }
        ensures holds { IsBoardOf self.now }
    {
        self.crew.harts
    }

    /// Makes room for one turn.
    pub fn prepare(&mut self, alloc: Global) -> Result<(), NoMemory>
        ensures room { OnOk result (self.new ≡ record self.old { prepared = true }) }
        ensures refused { OnErr result (self.new ≡ self.old) }
    {
        if self.prepared {
            return Ok(());
        }
        self.crew.prepare()?;
        fill(alloc, &mut self.spare)?;
        self.journal.reserve()?;
        self.turns.reserve()?;
        self.prepared = true;
        Ok(())
    }

    /// A turn of the run's hart: the moves that it made since its last turn are committed, what other harts want is
    /// yielded, what it wants is gained, and its device access is made. It takes no memory.
    pub fn turn(&mut self, run: &mut HartRun) -> Order
        requires prepared { IsTrue self.old.prepared }
        requires run { IsPartMoved self.old run.old }
        ensures turn { HasTurn self.old self.new (number_of run.old) run.old run.new (told result) }
        ensures number { number_of run.new ≡ number_of run.old }
    {
        let (first, second) = take_two(&mut self.spare);
        let hart = number_of(run);
        let turned = self.crew.turn(run, &mut self.console, &mut self.clock, hart, first, second);
        self.journal
            .note(turned.items != 0, hart, turned.items as u32);
        self.turns.note(turned.noted, hart, turned.moves);
        self.prepared = false;
        turned.order
    }

    /// How many turns have a row. A turn that has none changed nothing.
    pub fn rows(&self) -> usize
        ensures { result ≡ length self.now.turns }
    {
        self.turns.count()
    }

    /// Names the hart that is favoured.
    pub fn favour(&mut self, hart: u8)
        requires { hart < self.old.harts }
        ensures { self.new ≡ record self.old { favoured = hart } }
    {
        self.crew.favoured = hart;
    }

    /// Whether the board is closed, or each hart is at the limit.
    pub fn over(&self) -> bool
        ensures over { result ≡ is_over_in self.now }
        ensures holds { IsBoardOf self.now }
    {
        self.crew.closed.is_some() || self.crew.seats.are_at(self.crew.limit)
    }

    /// Closes the board, unless it is over.
    pub fn cut(&mut self)
        ensures { self.new ≡ cut_in self.old }
    {
        if !self.over() {
            self.crew.close(Cause::Cut);
        }
    }

    /// Closes the board for want of memory.
    pub fn abandon(&mut self)
        ensures { self.new
            ≡ record self.old { abandoned = true; closed = Some (unwrap_or self.old.closed Cut) } }
    {
        self.crew.close(Cause::Cut);
        self.abandoned = true;
    }

    /// What the board comes to, with the console and the clock: the log, with an End for each hart, and the state at
    /// the end. The runs are those of the harts, in their order. It takes no memory. After want of memory console and
    /// clock alone come back.
    pub fn finish(self, runs: Vec<HartRun>) -> Result<Recorded<C, K>, OutOfMemory<C, K>>
        requires { self.abandoned ≡ false → AreParts self runs.items }
        ensures abandoned { IsErr result ↔ IsTrue self.abandoned }
        ensures ended { IfOk result (λ r. EndsAs self r.log r.ended r.journal r.turns) }
        ensures world { IfOk result (λ r. world (C.seen r.console) (K.seen r.clock) ≡ self.now) }
        ensures refused { IfErr result (λ e. world (C.seen e.console) (K.seen e.clock) ≡ self.now) }
    {
        let Board {
            crew,
            journal,
            turns,
            abandoned,
            console,
            clock,
            ..
        } = self;
        if abandoned {
            return Err(OutOfMemory { console, clock });
        }
        let finished = crew.finish(&runs);
        Ok(Recorded {
            log: finished.log,
            ended: finished.ended,
            journal: journal.into_list(),
            turns: turns.into_list(),
            console,
            clock,
        })
    }
}
