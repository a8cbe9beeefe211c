//! The flat machine: harts beside one memory and the devices, with neither pages nor threads. It is the
//! board that recording and replay are measured by.
#![tactic(auto)]

mod act;
mod machine;
mod moves;
mod ram;
mod results;

pub use act::Act;
pub use machine::Flat;
pub use ram::Ram;
pub use results::{Bytes, Counts, Final, Harts, Memory, Step, Steps};
