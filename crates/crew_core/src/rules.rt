//! What turns ask of modes, wants and counts.

ghost use Rattle.std.specs.Prelude.{◌≡◌, ◌<◌, ◌+◌, ◌-◌, ◌%◌, ◌&&◌, ◌==◌, min, not, false};
ghost use Rattle.std.specs.Prelude.{Some, None};
ghost use Rattle.outside.specs.Seen.{ToldBefore};
ghost use Rattle.log_entry.specs.Parts.{conflict};
ghost use Rattle.order_rules.specs.Holders.{held};
ghost use Rattle.order_rules.specs.Places.{is_number};
ghost use Rattle.replay_model.specs.Journal.{left_for};
ghost use Rattle.crew_core.specs.Does.{times_taken, IsAsked, wants_against};
ghost use Rattle.crew_parts.specs.Turns.{Gave};
ghost use Rattle.crew_core.specs.Calls.{due_at};
ghost use Rattle.crew_core.specs.Calls.{IsPast, poll_after};

use outside::Clock;
use rv_words::{DeviceWord, Mode, POLL_DISTANCE};

/// The bytes of the log that a Yield takes.
pub(crate) const YIELD_BYTES: u64 = 16;

/// The bytes that a Poll or a Touch takes.
pub(crate) const DEVICE_BYTES: u64 = 22;

/// The bytes that a Gain takes without its waits.
pub(crate) const GAIN_BYTES: u64 = 17;

/// The bytes that each of its waits takes.
pub(crate) const WAIT_BYTES: u64 = 9;

/// What a hart keeps of a page that another wants in a mode.
pub(crate) fn left_for(mode: Mode) -> Option<Mode>
    ensures { result ≡ left_for mode }
{
    match mode {
        Mode::Read => Some(Mode::Read),
        Mode::Write => None,
    }
}

pub(crate) fn conflict(hold: Option<Mode>, mode: Mode) -> bool
    ensures { result ≡ conflict hold (Some mode) }
{
    match hold {
        Some(other) => other.conflicts_with(mode),
        None => false,
    }
}

/// Whether what is held is given up: unless the hart claims it and comes before.
pub(crate) fn holds_on(holds: bool, claims: bool, before: bool) -> bool
    ensures { result ≡ (holds && not (claims && before)) }
{
    holds && !(claims && before)
}

pub(crate) fn is_at(polled: Option<u64>, count: u64) -> bool
    ensures { result ≡ is_number count polled }
{
    match polled {
        Some(last) => last == count,
        None => false,
    }
}

/// Whether a Poll is due at a count, the latest one standing there.
pub(crate) fn due(count: u64, limit: u64, polled: Option<u64>) -> bool
    ensures { result ≡ due_at count limit polled }
{
    count < limit && count % POLL_DISTANCE == 0 && !is_at(polled, count)
}

/// Up to where a hart goes on from a count: the lesser of the limit and the next count at which a Poll is due, the
/// latest one standing there.
pub(crate) fn until_at(count: u64, limit: u64, polled: Option<u64>) -> u64
    requires { IsPast polled count }
    ensures { result ≡ min limit (poll_after count polled) }
{
    let over = count % POLL_DISTANCE;
    if over == 0 && !is_at(polled, count) {
        return count.min(limit);
    }
    let left = POLL_DISTANCE - over;
    if limit.saturating_sub(count) <= left {
        limit
    } else {
        count + left
    }
}

/// The clock's answer for an access: it is asked for a load of a half of mtime alone.
pub(crate) fn time_for<K: Clock>(clock: &mut K, word: DeviceWord, store: Option<u32>) -> u64
    ensures asked { IsAsked word store result }
    ensures tells { ToldBefore (K.seen clock.old).tells (K.seen clock.new).tells }
    ensures times { Gave (times_taken word store result) (K.seen clock.old) (K.seen clock.new) }
{
    match (word, store) {
        (DeviceWord::TimeLow | DeviceWord::TimeHigh, None) => clock.now(),
        _ => 0,
    }
}

/// Whether a want is of the page, in a mode that conflicts with this one.
pub(crate) fn is_against(want: Option<(u32, Mode)>, page: u32, mode: Mode) -> bool
    ensures { result ≡ wants_against want page mode }
{
    match want {
        Some((wanted, other)) => wanted == page && other.conflicts_with(mode),
        None => false,
    }
}
