//! The rules that a stream keeps by itself.
ghost use Rattle.std.specs.Prelude.{◌≡◌, ◌+◌, ◌^◌, ◌<◌, ◌≤◌, ◌||◌, true, length};
ghost use Rattle.log_entry.specs.Parts.{count_of, is_end as is_end_entry, is_touch as is_touch_entry, is_poll as is_poll_entry};
ghost use Rattle.order_rules.specs.Rules.{end_count as end_count_of};
ghost use Rattle.log_order.specs.InStream.{o1_in, o2_in, o3_in, falls as falls_in, steps_wrongly as steps_wrongly_in, may_poll_in, polls_wrongly as polls_wrongly_in, due_after, NoFall, IsFirst};

use log_entry::Entry;
use rv_words::POLL_DISTANCE;

fn count(e: &Entry) -> u64
    ensures { result ≡ count_of e.now }
{
    match e {
        Entry::Gain { count, .. }
        | Entry::Yield { count, .. }
        | Entry::Poll { count, .. }
        | Entry::Touch { count, .. }
        | Entry::End { count } => *count,
    }
}

fn is_end(e: &Entry) -> bool
    ensures { result ≡ is_end_entry e.now }
{
    matches!(e, Entry::End { .. })
}

fn falls(s: &[Entry], i: usize) -> bool
    requires { i < length s.now }
    ensures { result ≡ falls_in s.now i }
{
    if i == 0 {
        return false;
    }
    count(&s[i]) < count(&s[i - 1])
}

fn breaks_o1(limit: u64, s: &[Entry], i: usize) -> bool
    requires { i ≤ length s.now }
    ensures { result ≡ o1_in limit s.now i }
{
    if i == s.len() {
        return i == 0 || !is_end(&s[i - 1]);
    }
    let e = &s[i];
    falls(s, i) || (is_end(e) && (i + 1 != s.len() || limit < count(e)))
}

/// The first place of a stream, or its end, that breaks O1.
pub(crate) fn first_o1(limit: u64, s: &[Entry]) -> Option<usize>
    ensures { IsFirst (o1_in limit s.now) (length s.now + 1) result }
{
    for i in 0..s.len() + 1 {
        if breaks_o1(limit, s, i) {
            return Some(i);
        }
    }
    None
}

fn is_touch(e: &Entry) -> bool
    ensures { result ≡ is_touch_entry e.now }
{
    matches!(e, Entry::Touch { .. })
}

fn is_poll(e: &Entry) -> bool
    ensures { result ≡ is_poll_entry e.now }
{
    matches!(e, Entry::Poll { .. })
}

fn ends_its_count(e: &Entry) -> bool
    ensures { result ≡ (is_touch_entry e.now || is_end_entry e.now) }
{
    is_touch(e) || is_end(e)
}

fn steps_wrongly(s: &[Entry], i: usize) -> bool
    requires { i < length s.now }
    ensures { result ≡ steps_wrongly_in s.now i }
{
    if i == 0 {
        return false;
    }
    count(&s[i - 1]) == count(&s[i]) && (ends_its_count(&s[i - 1]) || is_poll(&s[i]))
}

/// The first place of a stream that breaks O2, where counts don't fall.
pub(crate) fn first_o2(s: &[Entry]) -> Option<usize>
    requires { NoFall s.now }
    ensures { IsFirst (o2_in s.now) (length s.now) result }
{
    for i in 0..s.len() {
        if steps_wrongly(s, i) {
            return Some(i);
        }
    }
    None
}

/// The count at which a stream ends.
fn end_count(s: &[Entry]) -> u64
    ensures { result ≡ end_count_of s.now }
{
    match s.last() {
        Some(e) => count(e),
        None => 0,
    }
}

fn may_poll(limit: u64, end: u64, at: u64) -> bool
    ensures { result ≡ may_poll_in limit end at }
{
    at % POLL_DISTANCE == 0 && (at < end || (at == end && at < limit))
}

fn polls_wrongly(limit: u64, end: u64, due: u64, e: &Entry) -> bool
    ensures { result ≡ polls_wrongly_in limit end due e.now }
{
    due < count(e) || (is_poll(e) && !may_poll(limit, end, count(e)))
}

fn next_due(due: u64, e: &Entry) -> u64
    requires { due < 2 ^ 63 }
    ensures { result ≡ due_after due e.now }
{
    if is_poll(e) && count(e) == due {
        due + POLL_DISTANCE
    } else {
        due
    }
}

/// The first place of a stream that breaks O3, where counts don't fall.
pub(crate) fn first_o3(limit: u64, s: &[Entry]) -> Option<usize>
    requires order { NoFall s.now }
    requires bound { end_count_of s.now < 2 ^ 62 }
    ensures { IsFirst (o3_in limit s.now) (length s.now) result }
{
    let end = end_count(s);
    let mut due = 0;
    for i in 0..s.len() {
        if polls_wrongly(limit, end, due, &s[i]) {
            return Some(i);
        }
        due = next_due(due, &s[i]);
    }
    None
}
