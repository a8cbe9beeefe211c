//! From a text to its words, line by line.

ghost use Rattle.std.specs.Prelude.{◌≡◌, ℕ, List, [], IfOk, IfErr, IsTrue, ◌↔◌, ◌⊎◌, ◌==◌, MatchOption, MatchResult, string_bytes, position};
ghost use Rattle.rv_asm.specs.Scan.{line_text, LineFits, MeansWord};
ghost use Rattle.rv_asm.specs.Grammar.{Stands, Spells, FailsWith, AcceptsLines, TellsBadLine, IsLine, IsCut};

use crate::AsmError;
use crate::scan::{Line, line_of, scan_line};
use crate::text::{text_of, with_word};
use rv_decode::encode;
use std::alloc::{AllocError, Global};

fn line_fits(l: Line) -> bool
    ensures { IsTrue result ↔ LineFits l }
{
    match l {
        Line::Text(i) => i.fits(),
        Line::Word(_) => true,
    }
}

fn line_text(alloc: Global, l: Line) -> Result<String, AllocError>
    requires { LineFits l }
    ensures { IfOk result (λ s. string_bytes s ≡ line_text l) }
{
    match l {
        Line::Text(i) => text_of(alloc, i),
        Line::Word(w) => with_word(alloc, ".word", w),
    }
}

fn is_text_of(alloc: Global, l: Line, bytes: &[u8]) -> Result<bool, AllocError>
    requires { LineFits l }
    ensures { IfOk result (λ b. IsTrue b ↔ (bytes.now ≡ line_text l)) }
{
    let text = line_text(alloc, l)?;
    Ok(bytes == text.as_bytes())
}

fn line_word(l: Line) -> u32
    requires { LineFits l }
    ensures { MeansWord l result }
{
    match l {
        Line::Text(i) => encode(i),
        Line::Word(w) => w,
    }
}

/// The word of a line, or `None` where the line isn't in the grammar.
#[tactic(auto, using(crate::proofs::Lines::lines))]
fn word_of_line(alloc: Global, line: &[u8]) -> Result<Option<u32>, AllocError>
    ensures { IfOk result (λ o. MatchOption o ((w : ℕ) → Stands line.now w → ⊥) (λ w. Stands line.now w)) }
{
    match line_of(scan_line(line)) {
        None => Ok(None),
        Some(l) => if line_fits(l) {
            if is_text_of(alloc, l, line)? {
                Ok(Some(line_word(l)))
            } else {
                Ok(None)
            }
        } else {
            Ok(None)
        },
    }
}

fn newline(bytes: &[u8]) -> Option<usize>
    ensures { result ≡ position (λ b. b == 10) bytes.now }
{
    bytes.iter().position(|b| *b == 10)
}

/// The first line and what follows its newline.
fn cut(bytes: &[u8]) -> Option<(&[u8], &[u8])>
    ensures { MatchOption result (IsLine bytes.now) (λ x. IsCut bytes.now x.0.now x.1.now) }
{
    match newline(bytes) {
        Some(n) => {
            let (line, rest) = bytes.split_at(n);
            Some((line, &rest[1..]))
        }
        None => None,
    }
}

fn assembled(alloc: Global, text: &[u8]) -> Result<Vec<u32>, AsmError>
    ensures { MatchResult result (λ v. Spells v.items [] text.now) (λ e. FailsWith e text.now) }
{
    let mut words = Vec::new(alloc);
    let mut rest = text;
    while !rest.is_empty() {
        match cut(rest) {
            None => return Err(AsmError::BadLine(words.len() as u64)),
            Some((line, more)) => match word_of_line(alloc, line)? {
                None => return Err(AsmError::BadLine(words.len() as u64)),
                Some(w) => {
                    words.push(w)?;
                    rest = more;
                }
            },
        }
    }
    Ok(words)
}

/// The words of a text whose lines are all in the grammar.
pub fn assemble(alloc: Global, text: &str) -> Result<Vec<u32>, AsmError>
    // What is accepted is lines of the grammar, for these words.
    ensures found { IfOk result (λ v. Spells v.items [] text.now) }
    // A bad line is the first that isn't in the grammar.
    ensures fault { IfErr result (λ e. FailsWith e text.now) }
    // Lines of the grammar are accepted, unless memory runs out, and for no other words.
    ensures only { AcceptsLines result (λ v. v.items) text.now }
    // A first line that isn't in the grammar is told, unless memory runs out.
    ensures first { TellsBadLine result text.now }
{
    assembled(alloc, text.as_bytes())
}
