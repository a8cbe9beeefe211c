//! The text of instructions, and an assembler that takes exactly such lines.
//!
//! A line is the text of an instruction whose fields are in range, or `.word 0x` and eight lower-case hexadecimal
//! digits. Each line ends with a newline. Texts are those that RISC-V assemblers write, with numeric registers and
//! each operand written out; specs/Text.antt has the form of each.
#![tactic(auto)]

ghost use Rattle.std.specs.Prelude.{◌≡◌};
ghost use Rattle.rv_asm.specs.Grammar.{TextSpells};
ghost use Rattle.rv_asm.specs.declared.AsmError.TheVariants.{NoMemory};

use std::alloc::{AllocError, AllocFailed};
use thiserror::Error;

mod assembler;
mod names;
mod scan;
mod text;

pub use assembler::assemble;
pub use text::instr_text;

/// Why a text was not assembled.
#[derive(Clone, Copy, Debug, PartialEq, Eq, Error)]
pub enum AsmError {
    /// The first line that is not in the grammar, numbered from 0.
    #[error("line {0} is not in the grammar")]
    BadLine(u64),
    #[error("out of memory")]
    NoMemory,
}

impl From<AllocError> for AsmError {
    ghost from_gives = { λ _ e. e ≡ NoMemory };

    fn from(_e: AllocError) -> AsmError {
        AsmError::NoMemory
    }
}

impl<T: Drop> From<AllocFailed<T>> for AsmError {
    ghost from_gives = { λ _ e. e ≡ NoMemory };

    fn from(_e: AllocFailed<T>) -> AsmError {
        AsmError::NoMemory
    }
}

/// The text of an instruction with a newline spells its word, so `assemble` gives that word.
#[tactic(auto, using(crate::proofs::Lines::one_line))]
pub fn text_assembles()
    ensures { TextSpells }
{}

#[cfg(test)]
mod tests;
