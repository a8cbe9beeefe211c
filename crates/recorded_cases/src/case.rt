//! A case: what is recorded, and what it has to come to.

use anyhow::{Context, Result, bail};
use std::alloc::Global;

/// What is recorded, and the log and the text that it has to come to. Where there are no rows it is recorded in rounds.
#[derive(Drop)]
pub struct Case {
    pub name: String,
    pub harts: u8,
    pub pages: u16,
    pub limit: u64,
    pub log_limit: u64,
    pub first_time: u64,
    pub time_step: u64,
    pub console: Vec<u8>,
    pub image: Vec<u8>,
    pub rows: Option<Vec<(u8, u32)>>,
    pub log: Vec<u8>,
    pub text: String,
}

/// Bytes in hexadecimal; `-` stands for none.
fn bytes_of(alloc: Global, digits: &str) -> Result<Vec<u8>> {
    if digits == "-" {
        return Ok(Vec::new(alloc));
    }
    Ok(hex::decode(alloc, digits)?)
}

/// A row `HART,MOVES` of a list.
fn row_of(word: &str) -> Result<(u8, u32)> {
    let (hart, moves) = word.split_once(',').context("a row is HART,MOVES")?;
    Ok((hart.parse::<u8>()?, moves.parse::<u32>()?))
}

/// The rows of a list; `-` stands for none.
fn rows_of(alloc: Global, text: &str) -> Result<Vec<(u8, u32)>> {
    let mut rows = Vec::new(alloc);
    for word in text.split_whitespace() {
        if word != "-" {
            rows.push(row_of(word)?)?;
        }
    }
    Ok(rows)
}

impl Case {
    /// A case with this name, of which nothing was read yet.
    pub fn named(alloc: Global, name: &str) -> Result<Case> {
        Ok(Case {
            name: String::from_str(alloc, name)?,
            harts: 1,
            pages: 1,
            limit: 0,
            log_limit: 1024,
            first_time: 0,
            time_step: 0,
            console: Vec::new(alloc),
            image: Vec::new(alloc),
            rows: None,
            log: Vec::new(alloc),
            text: String::new(alloc),
        })
    }

    fn read_clock(&mut self, value: &str) -> Result<()> {
        let (first, step) = value.split_once(' ').context("a clock is FIRST STEP")?;
        self.first_time = first.parse::<u64>()?;
        self.time_step = step.parse::<u64>()?;
        Ok(())
    }

    fn read_value(&mut self, alloc: Global, name: &str, value: &str) -> Result<()> {
        match name {
            "harts" => self.harts = value.parse::<u8>()?,
            "pages" => self.pages = value.parse::<u16>()?,
            "limit" => self.limit = value.parse::<u64>()?,
            "log_limit" => self.log_limit = value.parse::<u64>()?,
            "clock" => self.read_clock(value)?,
            "console" => self.console = bytes_of(alloc, value)?,
            "image" => self.image = bytes_of(alloc, value)?,
            "list" => self.rows = Some(rows_of(alloc, value)?),
            "log" => self.log = bytes_of(alloc, value)?,
            "rounds" | "text" | "" => {}
            "|" => {
                self.text.push_str(value)?;
                self.text.push_str("\n")?;
            }
            _ => bail!("no such line"),
        }
        Ok(())
    }

    /// A line of a name and a value, or of the text, behind `| `.
    pub fn read_line(&mut self, alloc: Global, line: &str) -> Result<()> {
        match line.split_once(' ') {
            Some((name, value)) => self.read_value(alloc, name, value),
            None => self.read_value(alloc, line, ""),
        }
    }
}
