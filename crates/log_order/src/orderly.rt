//! An orderly log.
ghost use Rattle.std.specs.Prelude.{◌≡◌, IsTrue, IfOk, IfErr};
ghost use Rattle.log_entry.specs.Range.{in_range};
ghost use Rattle.order_rules.specs.Orderly.{IsOrderly};
ghost use Rattle.log_order.specs.Refusal.{Refuses};
ghost use Rattle.log_order.specs.Legs.{AreLeastLegs};

use crate::judging::judge;
use crate::order_error::OrderError;
use crate::orders::least_legs;
use log_entry::Log;
use shared_types::NoMemory;
use std::alloc::Global;
use std::marker::Model;

/// A log in range that breaks no order rule.
#[derive(Debug, Drop)]
pub struct Orderly {
    log: Log,
}

impl Model for Orderly {
    ghost use Rattle.std.specs.Prelude.{IsTrue};
    ghost use Rattle.log_entry.specs.declared.log.Log.{Log};
    ghost use Rattle.log_entry.specs.Range.{in_range};
    ghost use Rattle.order_rules.specs.Orderly.{IsOrderly};

    ghost Value = { Log };

    ghost view = { λ o. o.log };

    ghost invariant = { λ o. IsTrue (in_range o.log) × IsOrderly o.log };
}

impl Orderly {
    /// The log. It takes no memory.
    pub fn log(&self) -> &Log
        ensures same { result.now ≡ self.now }
        ensures range { IsTrue (in_range self.now) }
        ensures orderly { IsOrderly self.now }
    {
        &self.log
    }
}

/// An entry, by its hart and its place.
#[derive(Clone, Copy, Debug, PartialEq, Eq)]
pub struct Leg {
    pub hart: u8,
    pub entry: u32,
}

/// Accepts a log that breaks no order rule; else the log is given up, with the least rule that it
/// breaks and the least hart and entry that break it.
pub fn put_in_order(alloc: Global, l: Log) -> Result<Orderly, OrderError>
    requires { IsTrue (in_range l) }
    ensures accepted { IfOk result (λ o. o ≡ l) }
    ensures orderly { IfOk result (λ _. IsOrderly l) }
    ensures refused { IfErr result (Refuses l) }
{
    judge(alloc, &l)?;
    Ok(Orderly { log: l })
}

/// The entries other than End, always the first one left of the least hart whose guard is met.
pub fn least_order(alloc: Global, o: &Orderly) -> Result<Vec<Leg>, NoMemory>
    ensures { IfOk result (λ legs. AreLeastLegs o.now legs.items) }
{
    match least_legs(alloc, o.log()) {
        Ok(legs) => Ok(legs),
        Err(_) => Err(NoMemory),
    }
}
