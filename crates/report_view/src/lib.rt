//! What a run did, as text.
#![tactic(auto)]

mod report;
mod summary;
#[cfg(test)]
mod tests;
mod trace;

pub use report::report_text;
pub use summary::{Summary, summary_text};
pub use trace::{can_be_told, trace_text};
