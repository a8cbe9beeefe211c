//! What is noted of one hart's moves.

ghost use Rattle.std.specs.Prelude.{◌≡◌, ◌<◌, []};
ghost use Rattle.rv_hart.specs.Effects.{entry_effect};
ghost use Rattle.rv_hart.specs.Moves.{trap_of};
ghost use Rattle.flat_machine.specs.Moves.{move_of};
ghost use Rattle.flat_machine.specs.Runs.{register_written, step_by as step_of_move};
ghost use Rattle.replay_core.specs.Telling.{HasAll, IsQuiet, NotesItem, SameAim, notes_at, seen_of};

use flat_machine::Step;
use hart_run::HartRun;
use rv_hart::Hart;
use std::alloc::Global;

/// The moves of a hart from one count on, below another, as far as they are made. Once memory is refused one is missed.
#[derive(Drop)]
pub(crate) struct Notes {
    pub(crate) hart: u8,
    pub(crate) from: u64,
    pub(crate) to: u64,
    pub(crate) steps: Vec<Step>,
    pub(crate) missed: bool,
}

/// A hart and its count before an item, and the word that it may fetch.
#[derive(Clone, Copy)]
pub(crate) struct Seen {
    pub(crate) hart: Hart,
    pub(crate) word: Option<u32>,
    pub(crate) count: u64,
}

/// What is seen of a run.
pub(crate) fn look(run: &HartRun) -> Seen
    ensures { result ≡ seen_of run.now }
{
    Seen {
        hart: *run.hart(),
        word: run.word(),
        count: run.count(),
    }
}

/// mcause.
const MCAUSE: u16 = 0x342;

/// The cause of a move that fetches nothing.
fn entry_cause(before: &Hart) -> Option<u32>
    ensures { result ≡ trap_of (entry_effect before.now) }
{
    let mut entered = *before;
    entered.enter();
    entered.csr(MCAUSE)
}

/// The register from x1 that a move set, and its value.
fn wrote(register: u8, after: &Hart) -> Option<(u8, u32)>
    requires { register < 32 }
    ensures { result ≡ register_written register after.now }
{
    if register == 0 {
        None
    } else {
        Some((register, after.reg(register)))
    }
}

/// The step of a move that fetched this word, or nothing.
fn step_by(before: &Hart, word: Option<u32>, after: &Hart) -> Step
    ensures { result ≡ step_of_move before.now word (move_of before.now word) after.now }
{
    let (cause, register) = match word {
        Some(word) => {
            let effect = before.effect(word);
            (effect.trap(), effect.register())
        }
        None => (entry_cause(before), 0),
    };
    Step {
        pc: before.pc(),
        word,
        cause,
        wrote: wrote(register, after),
        after: *after,
    }
}

impl Notes {
    /// Before any move is made.
    pub(crate) fn start(alloc: Global, hart: u8, from: u64, to: u64) -> Notes
        ensures aim { (result.hart ≡ hart) × ((result.from ≡ from) × (result.to ≡ to)) }
        ensures nothing { result.steps.items ≡ [] }
    {
        Notes {
            hart,
            from,
            to,
            steps: Vec::new(alloc),
            missed: false,
        }
    }

    /// Of no move: they take no memory.
    pub(crate) fn none(alloc: Global) -> Notes
        ensures { result.to ≡ 0 }
    {
        Notes::start(alloc, 0, 0, 0)
    }

    /// Whether a move of a hart at this count is to be noted.
    pub(crate) fn wants(&self, hart: u8, count: u64) -> bool
        ensures { result ≡ notes_at self.now hart count }
    {
        hart == self.hart && self.from <= count && count < self.to
    }

    /// A count up to which none of a hart's moves from this one on is to be noted.
    pub(crate) fn quiet_until(&self, hart: u8, count: u64) -> u64
        ensures { IsQuiet self.now hart count result }
    {
        if hart != self.hart || self.to <= count {
            u64::MAX
        } else {
            self.from
        }
    }

    /// Notes what came of a hart's item, where that is a move that is to be noted.
    pub(crate) fn note(&mut self, hart: u8, before: &Seen, run: &HartRun)
        ensures aim { SameAim self.old self.new }
        ensures noted { HasAll self.old self.new (NotesItem self.old self.new hart before.now run.now) }
    {
        if run.count() == before.count || !self.wants(hart, before.count) {
            return;
        }
        let step = step_by(&before.hart, before.word, run.hart());
        if self.steps.push(step).is_err() {
            self.missed = true;
        }
    }
}
