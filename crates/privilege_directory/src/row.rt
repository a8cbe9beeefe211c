//! What each hart holds of one page.

ghost use Rattle.std.specs.Prelude.{◌≡◌, ◌<◌, ◌≤◌, length, nat_lt, replicate, slice_get, slice_set, unwrap_or, None, Some, IfOk};
ghost use Rattle.log_entry.specs.Parts.{strength, conflict};
ghost use Rattle.privilege_directory.specs.Directory.{clash_in};

use rv_words::Mode;
use shared_types::NoMemory;
use std::alloc::Global;
use std::marker::Model;

/// Whether a hold is of less than a mode.
pub(crate) fn is_less(hold: Option<Mode>, mode: Mode) -> bool
    ensures { result ≡ nat_lt (strength hold) (strength (Some mode)) }
{
    !matches!(
        (hold, mode),
        (Some(Mode::Write), _) | (Some(Mode::Read), Mode::Read)
    )
}

fn conflict(mode: Mode, hold: Option<Mode>) -> bool
    ensures { result ≡ conflict (Some mode) hold }
{
    match hold {
        Some(other) => mode.conflicts_with(other),
        None => false,
    }
}

/// What each hart holds of one page.
#[derive(Drop)]
pub(crate) struct Row {
    holds: Vec<Option<Mode>>,
}

impl Model for Row {
    ghost use Rattle.std.specs.Prelude.{List, Option};
    ghost use Rattle.rv_words.specs.declared.shared.Mode.{Mode};

    ghost Value = { List (Option Mode) };

    ghost view = { λ r. r.holds.items };
}

impl Row {
    pub(crate) fn nobody(alloc: Global, harts: u8) -> Result<Row, NoMemory>
        ensures { IfOk result (λ r. r ≡ replicate harts None) }
    {
        match Vec::from_elem(alloc, None, usize::from(harts)) {
            Ok(holds) => Ok(Row { holds }),
            Err(_) => Err(NoMemory),
        }
    }

    pub(crate) fn hold(&self, hart: u8) -> Option<Mode>
        requires { hart < length self.now }
        ensures { result ≡ unwrap_or (slice_get self.now hart) None }
    {
        self.holds[hart as usize]
    }

    pub(crate) fn set(&mut self, hart: u8, hold: Option<Mode>)
        requires { hart < length self.old }
        ensures { self.new ≡ slice_set self.old hart hold }
    {
        self.holds[hart as usize] = hold;
    }

    /// The least other hart whose hold conflicts with the mode.
    pub(crate) fn clash(&self, hart: u8, mode: Mode) -> Option<u8>
        requires { length self.now ≤ 255 }
        ensures { result ≡ clash_in self.now (length self.now) hart mode }
    {
        let harts = self.holds.len() as u8;
        for other in 0..harts {
            if other != hart && conflict(mode, self.hold(other)) {
                return Some(other);
            }
        }
        None
    }
}
