//! Work made beside the caller's own, by workers that live on from one piece to the next.
#![tactic(auto)]

mod desk;
mod hand;
#[cfg(test)]
mod tests;
mod worker;

pub use desk::{MadeBy, Work};
pub use hand::{Hand, Lent, fetch, open};
pub use worker::{Worker, beside};
