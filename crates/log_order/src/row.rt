//! Entries by their numbers.
ghost use Rattle.std.specs.Prelude.{◌≡◌, ◌<◌, ◌^◌, replicate, length, slice_set, Some, None, IfOk, if◌then◌else◌};
ghost use Rattle.log_order.specs.Rows.{slot_in, is_free_in};

use crate::orderly::Leg;
use std::alloc::{AllocError, Global};
use std::marker::Model;

/// A slot for each number from 0 on, with the entry that stands there.
#[derive(Debug, Drop)]
pub(crate) struct Row {
    slots: Vec<Option<Leg>>,
}

impl Model for Row {
    ghost use Rattle.std.specs.Prelude.{List, Option};
    ghost use Rattle.log_order.specs.declared.orderly.Leg.{Leg};

    ghost Value = { List (Option Leg) };

    ghost view = { λ r. r.slots.items };
}

impl Row {
    /// A row of empty slots.
    pub(crate) fn empty(alloc: Global, size: usize) -> Result<Row, AllocError>
        ensures { IfOk result (λ row. row ≡ replicate size None) }
    {
        let slots = vec![in alloc; None; size]?;
        Ok(Row { slots })
    }

    pub(crate) fn size(&self) -> usize
        ensures { result ≡ length self.now }
    {
        self.slots.len()
    }

    /// What stands at a number.
    pub(crate) fn at(&self, number: usize) -> Option<Leg>
        ensures { result ≡ slot_in self.now number }
    {
        if number < self.slots.len() {
            self.slots[number]
        } else {
            None
        }
    }

    /// Puts an entry at its number, unless there is no such slot or it is taken.
    pub(crate) fn put(&mut self, number: usize, leg: Leg) -> bool
        ensures answer { result ≡ is_free_in self.old number }
        ensures row { self.new ≡ if result then slice_set self.old number (Some leg) else self.old }
    {
        let free = number < self.slots.len() && self.slots[number].is_none();
        if free {
            self.slots[number] = Some(leg);
        }
        free
    }
}
