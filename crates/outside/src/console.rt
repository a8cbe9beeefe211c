//! The console outside, and those in memory.

ghost use Rattle.std.specs.Prelude.{◌≡◌, ◌++◌, ◌∷◌, [], true, not, OnOk, OnErr, IfOk, Ok, is_ok, if◌then◌else◌};
ghost use Rattle.outside.specs.Causes.{HasCause};
ghost use Rattle.outside.specs.Seen.{SeenConsole, ToldBefore, Answers, AnswersNothing, Takes, TakesNothing};
ghost use Rattle.outside.specs.Numbered.{fails_next, after_call, one_more};
ghost use Rattle.outside.specs.Consoles.{mem_console_at_start, answer_at, takes, seen_of_console, seen_of_sure};
ghost use Rattle.outside.specs.declared.console.Asked.TheVariants.{Nothing};

use crate::calls::Calls;
use crate::tray::Tray;
use crate::{Failed, NoMemory};
use std::alloc::Global;
use std::marker::Model;

/// What a console answers when it is asked for a byte.
#[derive(Clone, Copy, Debug, PartialEq, Eq)]
pub enum Asked {
    Byte(u8),
    Nothing,
    End,
}

/// Gives the guest its input and takes its output, a byte at a time.
pub trait Console: Send + Drop {
    /// What contracts see of it.
    ghost seen: { Self → SeenConsole };

    /// Asks for a byte, and takes none.
    fn poll(&mut self) -> Result<Asked, Failed>
        ensures tells_answers { ToldBefore (seen self.old).tells_answers (seen self.new).tells_answers }
        ensures tells_taken { ToldBefore (seen self.old).tells_taken (seen self.new).tells_taken }
        ensures answered { IfOk result (λ a. Answers a (seen self.old) (seen self.new)) }
        ensures as_before { OnErr result (AnswersNothing (seen self.old) (seen self.new)) }
        ensures taken { TakesNothing (seen self.old) (seen self.new) }
        ensures cause { HasCause (seen self.old).faults (seen self.new).faults result };

    /// Hands over a byte, and gives no answer.
    fn put(&mut self, byte: u8) -> Result<(), Failed>
        ensures tells_answers { ToldBefore (seen self.old).tells_answers (seen self.new).tells_answers }
        ensures tells_taken { ToldBefore (seen self.old).tells_taken (seen self.new).tells_taken }
        ensures answers { AnswersNothing (seen self.old) (seen self.new) }
        ensures taken { OnOk result (Takes (byte ∷ []) (seen self.old) (seen self.new)) }
        ensures as_before { OnErr result (TakesNothing (seen self.old) (seen self.new)) }
        ensures cause { HasCause (seen self.old).faults (seen self.new).faults result };
}

/// A console in memory. Its calls of `poll` and `put` are numbered together. All its memory is taken when it is made.
#[derive(Drop)]
pub struct MemConsole {
    list: Vec<Asked>,
    last: Asked,
    asked: u64,
    tray: Tray,
    calls: Calls,
}

impl Model for MemConsole {
    ghost use Rattle.outside.specs.Consoles as consoles;

    ghost Value = { consoles.MemConsoleState };

    ghost view = { λ c. record {
      list = c.list.items;
      last = c.last;
      asked = c.asked;
      taken = c.tray.bytes;
      room = c.tray.room;
      calls = c.calls;
    } };
}

impl MemConsole {
    /// A console that gives these answers and then the last one each time, with room for so many bytes, whose
    /// calls of these numbers, from 0, fail.
    pub fn start(
        alloc: Global,
        answers: &[Asked],
        last: Asked,
        room: u64,
        fails: &[u64],
    ) -> Result<MemConsole, NoMemory>
        ensures { IfOk result (λ c. c ≡ mem_console_at_start answers.now last room fails.now) }
    {
        let tray = Tray::start(alloc, room)?;
        let calls = Calls::start(alloc, fails)?;
        match Vec::from_slice(alloc, answers) {
            Ok(list) => Ok(MemConsole {
                list,
                last,
                asked: 0,
                tray,
                calls,
            }),
            Err(_) => Err(NoMemory),
        }
    }

    /// What the next question is answered.
    fn next_answer(&self) -> Asked
        ensures { result ≡ answer_at self.now.list self.now.last self.now.asked }
    {
        match self.list.get(self.asked as usize) {
            Some(answer) => *answer,
            None => self.last,
        }
    }

    /// The bytes taken.
    pub fn taken(&self) -> &[u8]
        ensures { result.now ≡ self.now.taken }
    {
        self.tray.as_slice()
    }
}

impl Console for MemConsole {
    ghost seen = { seen_of_console };

    fn poll(&mut self) -> Result<Asked, Failed>
        ensures exact { is_ok result ≡ not (fails_next self.old.calls) }
        ensures answered { IfOk result (λ a. Answers a (seen_of_console self.old) (seen_of_console self.new)) }
        ensures answer { IfOk result (λ a. a ≡ answer_at self.old.list self.old.last self.old.asked) }
        ensures asked { self.new.asked ≡ (if is_ok result then one_more self.old.asked else self.old.asked) }
        ensures calls { self.new.calls ≡ after_call self.old.calls (not (is_ok result)) }
        ensures as_before { self.new ≡ record self.old { asked = self.new.asked; calls = self.new.calls } }
        ensures cause { HasCause self.old.calls.faults self.new.calls.faults result }
    {
        if self.calls.next_fails() {
            return Err(self.calls.fault());
        }
        let answer = self.next_answer();
        if self.asked < u64::MAX {
            self.asked += 1;
        }
        Ok(answer)
    }

    fn put(&mut self, byte: u8) -> Result<(), Failed>
        ensures exact { is_ok result ≡ takes self.old }
        ensures taken { self.new.taken ≡ (if is_ok result then self.old.taken ++ byte ∷ [] else self.old.taken) }
        ensures calls { self.new.calls ≡ after_call self.old.calls (not (is_ok result)) }
        ensures as_before { self.new ≡ record self.old { taken = self.new.taken; calls = self.new.calls } }
        ensures cause { HasCause self.old.calls.faults self.new.calls.faults result }
    {
        if self.calls.next_fails() || !self.tray.put(&[byte]) {
            return Err(self.calls.fault());
        }
        Ok(())
    }
}

/// A console that never fails, has no input and drops what it is given.
#[derive(Debug, Drop)]
pub struct SureConsole {
    asked: u64,
}

impl Model for SureConsole {
    ghost use Rattle.std.specs.Prelude.{ℕ};

    ghost Value = { ℕ };

    ghost view = { λ c. c.asked };
}

impl SureConsole {
    /// Contracts see it as the number of answers that it gave.
    pub fn start() -> SureConsole
        ensures { result ≡ 0 }
    {
        SureConsole { asked: 0 }
    }
}

impl Console for SureConsole {
    ghost seen = { seen_of_sure };

    fn poll(&mut self) -> Result<Asked, Failed>
        ensures answered { IfOk result (λ a. Answers a (seen_of_sure self.old) (seen_of_sure self.new)) }
        ensures answer { result ≡ Ok Nothing }
        ensures asked { self.new ≡ one_more self.old }
    {
        if self.asked < u64::MAX {
            self.asked += 1;
        }
        Ok(Asked::Nothing)
    }

    fn put(&mut self, _byte: u8) -> Result<(), Failed>
        ensures answer { is_ok result ≡ true }
        ensures as_before { self.new ≡ self.old }
    {
        Ok(())
    }
}
