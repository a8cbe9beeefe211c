//! Which logs are orderly, and the least order of their entries.
#![tactic(auto)]

ghost use Rattle.log_order.specs.Judgement.{EachIsJudged};

mod counts;
mod cursor;
mod holding;
mod judging;
mod least;
mod order_error;
mod orderly;
mod orders;
mod pages;
mod row;
mod rows;
mod series;
mod spots;
mod streams;
mod times;

pub use order_error::OrderError;
pub use orderly::{Leg, Orderly, least_order, put_in_order};

/// A log is orderly, or there is a least rule that it breaks. The function has no body: it promises
/// a law of the definitions.
pub fn each_log_is_judged()
    ensures { EachIsJudged }
{}
