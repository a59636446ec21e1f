//! The items of a file: a key at the beginning of a line, and what belongs to it.

use crate::fault::Fault;
use std::alloc::{AllocError, Global};

/// The text before each line that belongs to the key above.
const INDENT: &str = "    ";

/// Holds a key and its lines: the text after the key, and the indented lines below.
#[derive(Drop)]
pub struct Item {
    /// The number of its line in the file, from 1.
    pub line: usize,
    pub key: String,
    /// Each with its line feed.
    lines: String,
    /// Counts the empty lines after it.
    gap: usize,
}

impl Item {
    fn of(alloc: Global, line: usize, written: &str) -> Result<Item, AllocError> {
        let mut lines = String::new(alloc);
        let key = match written.split_once(' ') {
            Some((key, value)) => {
                lines.push_str(value)?;
                lines.push_str("\n")?;
                key
            }
            None => written,
        };
        Ok(Item {
            line,
            key: String::from_str(alloc, key)?,
            lines,
            gap: 0,
        })
    }

    /// Adds a line. Empty lines before it belong to the item as well.
    fn add(&mut self, line: &str) -> Result<(), AllocError> {
        for _ in 0..self.gap {
            self.lines.push_str("\n")?;
        }
        self.gap = 0;
        self.lines.push_str(line)?;
        self.lines.push_str("\n")
    }

    /// Returns the lines, the last without its line feed.
    pub fn value(&self) -> &str {
        let lines = self.lines.as_str();
        lines.strip_suffix('\n').unwrap_or(lines)
    }

    /// Returns the lines, each with its line feed.
    pub fn into_lines(self) -> String {
        let Item {
            line: _,
            key: _,
            lines,
            gap: _,
        } = self;
        lines
    }

    /// Returns a fault of the item.
    pub fn fault(&self, why: &'static str) -> Fault {
        Fault::Line(self.line, why)
    }

    /// Returns the number after the key.
    pub fn number(&self) -> Result<u64, Fault> {
        match self.value().parse::<u64>() {
            Ok(number) => Ok(number),
            Err(_) => Err(self.fault("a number stands behind this key")),
        }
    }

    /// Returns the number of bytes after the key.
    pub fn size(&self) -> Result<usize, Fault> {
        match self.value().parse::<usize>() {
            Ok(number) => Ok(number),
            Err(_) => Err(self.fault("a number stands behind this key")),
        }
    }
}

/// Returns the items of a text. Empty lines, and lines that begin with a semicolon, count for nothing.
pub fn items_of(alloc: Global, text: &str) -> Result<Vec<Item>, Fault> {
    let mut items = Vec::new(alloc);
    let mut number = 0usize;
    for line in text.split('\n') {
        number = number.saturating_add(1);
        if line.is_empty() {
            count_gap(&mut items);
        } else if let Some(part) = line.strip_prefix(INDENT) {
            add_line(&mut items, number, part)?;
        } else if !line.starts_with(';') {
            items.push(Item::of(alloc, number, line)?)?;
        }
    }
    Ok(items)
}

/// Counts an empty line.
fn count_gap(items: &mut Vec<Item>) {
    if let Some(item) = items.last_mut() {
        item.gap = item.gap.saturating_add(1);
    }
}

/// Adds an indented line.
fn add_line(items: &mut Vec<Item>, number: usize, line: &str) -> Result<(), Fault> {
    match items.last_mut() {
        Some(item) => Ok(item.add(line)?),
        None => Err(Fault::Line(number, "no key stands above this line")),
    }
}
