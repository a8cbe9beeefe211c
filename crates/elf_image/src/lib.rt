//! Images: what a board's memory holds at the start, read from an ELF file or a raw one.
#![tactic(auto)]

mod elf;
mod image;
mod layer;
mod loading;
mod marks;
mod read;
#[cfg(test)]
mod tests;

pub use image::Image;
pub use read::{ImageError, read_image};
