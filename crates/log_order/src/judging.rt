//! Whether a log is orderly: rule after rule, the least first.
ghost use Rattle.std.specs.Prelude.{◌≡◌, ◌<◌, ◌^◌, ℕ, Some, None, IfOk, IfErr, option_map};
ghost use Rattle.order_rules.specs.Orderly.{Spot, Keeps, IsOrderly, LeastOrderLeaves, o8};
ghost use Rattle.log_order.specs.Bounds.{IsSmall};
ghost use Rattle.log_order.specs.Refusal.{Refuses, IsTold, KeepsStreams, KeepsPages};
ghost use Rattle.log_order.specs.Rows.{spot_of};

use crate::order_error::OrderError;
use crate::orderly::Leg;
use crate::orders::least_left;
use crate::pages::judge_pages;
use crate::rows::rows_of;
use crate::series::Series;
use crate::spots::{least_o1, least_o2, least_o3};
use crate::times::judge_times;
use log_entry::Log;
use std::alloc::Global;

/// Refuses the log where a spot was found that breaks the rule.
fn tell(rule: u8, found: Option<(usize, usize)>) -> Result<(), OrderError>
    requires { (p : Spot) → found ≡ Some p → (p.0 < 2 ^ 8) × (p.1 < 2 ^ 32) }
    ensures { IsTold rule found result }
{
    match found {
        None => Ok(()),
        Some((hart, entry)) => Err(OrderError::Disorderly {
            rule,
            hart: hart as u8,
            entry: entry as u32,
        }),
    }
}

/// The same for an entry that was found.
fn tell_leg(rule: u8, found: Option<Leg>) -> Result<(), OrderError>
    ensures { IsTold rule (option_map spot_of found) result }
{
    match found {
        None => Ok(()),
        Some(Leg { hart, entry }) => Err(OrderError::Disorderly { rule, hart, entry }),
    }
}

/// The rules of single streams.
fn judge_streams(l: &Log) -> Result<(), OrderError>
    requires { IsSmall l.now }
    ensures kept { IfOk result (λ _. KeepsStreams l.now) }
    ensures refused { IfErr result (Refuses l.now) }
{
    tell(1, least_o1(l))?;
    tell(2, least_o2(l))?;
    tell(3, least_o3(l))
}

/// The rules of pages.
fn judge_rows(alloc: Global, l: &Log) -> Result<(), OrderError>
    requires small { IsSmall l.now }
    requires streams { KeepsStreams l.now }
    ensures kept { IfOk result (λ _. KeepsPages l.now) }
    ensures refused { IfErr result (Refuses l.now) }
{
    let (rows, misplaced) = rows_of(alloc, Series::Pages, l)?;
    tell(5, misplaced)?;
    let least = judge_pages(alloc, l, rows.as_slice())?;
    tell_leg(6, least.holds)?;
    tell_leg(7, least.waits)
}

/// The rule of ordinals.
fn judge_ordinals(alloc: Global, l: &Log) -> Result<(), OrderError>
    requires small { IsSmall l.now }
    requires streams { KeepsStreams l.now }
    requires pages { KeepsPages l.now }
    ensures kept { IfOk result (λ _. Keeps l.now o8) }
    ensures refused { IfErr result (Refuses l.now) }
{
    let (rows, misplaced) = rows_of(alloc, Series::Ordinals, l)?;
    tell(8, misplaced)?;
    tell_leg(8, judge_times(l, rows.as_slice()))
}

/// The rule of the least order.
fn judge_least_order(alloc: Global, l: &Log) -> Result<(), OrderError>
    requires small { IsSmall l.now }
    requires streams { KeepsStreams l.now }
    requires pages { KeepsPages l.now }
    requires ordinals { Keeps l.now o8 }
    ensures kept { IfOk result (λ _. LeastOrderLeaves l.now None) }
    ensures refused { IfErr result (Refuses l.now) }
{
    tell(9, least_left(alloc, l)?)
}

/// Whether a log is orderly, or the least rule that it breaks.
pub(crate) fn judge(alloc: Global, l: &Log) -> Result<(), OrderError>
    requires { IsSmall l.now }
    ensures kept { IfOk result (λ _. IsOrderly l.now) }
    ensures refused { IfErr result (Refuses l.now) }
{
    judge_streams(l)?;
    judge_rows(alloc, l)?;
    judge_ordinals(alloc, l)?;
    judge_least_order(alloc, l)
}
