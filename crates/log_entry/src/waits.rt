//! The yields that a gain waits for.
ghost use Rattle.std.specs.Prelude.{◌≡◌, ◌-◌, ◌<◌, ◌≤◌, ◌∷◌, ◌++◌, [], length, vec_capacity};

use rv_words::MAX_HARTS;
use std::marker::Model;

/// A yield by its hart and count.
#[derive(Clone, Copy, Debug, PartialEq, Eq)]
pub struct WaitFor {
    pub hart: u8,
    pub count: u64,
}

/// The waits of a gain, at most one fewer than a board has harts. Contracts see them as the list
/// and the number that there is room for.
#[derive(Debug, Drop)]
pub struct Waits {
    waits: Vec<WaitFor>,
}

impl Model for Waits {
    ghost use Rattle.std.specs.Prelude.{◌≤◌, ◌-◌, length, vec_capacity};
    ghost use Rattle.rv_words.specs.declared.shared.TheConstants.{MAX_HARTS};
    ghost use Rattle.log_entry.specs.Waits.{WaitList};

    ghost Value = { WaitList };

    ghost view = { λ w. record { items = w.waits.items; room = vec_capacity w.waits } };

    ghost invariant = { λ w. length w.waits.items ≤ MAX_HARTS - 1 };
}

impl Waits {
    /// The list of these waits, with the room of their `Vec`. It takes no memory.
    pub fn of(items: Vec<WaitFor>) -> Self
        requires { length items.items ≤ MAX_HARTS - 1 }
        ensures list { result.items ≡ items.items }
        ensures room { result.room ≡ vec_capacity items }
    {
        Waits { waits: items }
    }

    /// The waits in their order.
    pub fn items(&self) -> &[WaitFor]
        ensures list { result.now ≡ self.now.items }
        ensures bound { length self.now.items ≤ MAX_HARTS - 1 }
    {
        self.waits.as_slice()
    }

    /// Adds a wait at the end. It takes no memory.
    pub fn push(&mut self, wait: WaitFor)
        requires bound { length self.old.items < MAX_HARTS - 1 }
        requires room { length self.old.items < self.old.room }
        ensures list { self.new.items ≡ self.old.items ++ wait ∷ [] }
        ensures room { self.new.room ≡ self.old.room }
    {
        self.waits.push_reserved(wait);
    }
}
