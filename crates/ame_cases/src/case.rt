//! A call, and what it must give.

use crate::device::{Kind, add_counting};
use crate::ends::Ends;
use crate::fault::Fault;
use crate::field::Field;
use crate::item::{Item, items_of};
use crate::text::{add_bytes, add_piece, split_words};
use std::alloc::Global;

/// Holds what must come of a field, as the case has it.
#[derive(Drop)]
pub struct Fact {
    pub field: Field,
    pub lines: String,
}

/// Words, a text, ends and devices, and what the call must give.
#[derive(Drop)]
pub struct Case {
    /// The number of its first line in the file.
    pub line: usize,
    pub name: String,
    pub words: Vec<String>,
    /// Each of these numbers is put after the words, one after another. With none, the words are all.
    pub workers: Vec<String>,
    pub text: Vec<u8>,
    pub ends: Ends,
    pub devices: Vec<Kind>,
    /// A journal that is replayed in place of that of the run.
    pub certificate: Option<String>,
    pub facts: Vec<Fact>,
}

impl Case {
    /// Returns a case that has only its name.
    fn new(alloc: Global, item: &Item) -> Result<Case, Fault> {
        Ok(Case {
            line: item.line,
            name: String::from_str(alloc, item.value())?,
            words: Vec::new(alloc),
            workers: Vec::new(alloc),
            text: Vec::new(alloc),
            ends: Ends::ample(alloc),
            devices: Vec::new(alloc),
            certificate: None,
            facts: Vec::new(alloc),
        })
    }

    /// Takes what an item says.
    fn take(&mut self, alloc: Global, item: Item) -> Result<(), Fault> {
        if let Some(field) = Field::of(item.key.as_str()) {
            let lines = item.into_lines();
            self.facts.push(Fact { field, lines })?;
            return Ok(());
        }
        match item.key.as_str() {
            "words" => split_words(alloc, &mut self.words, item.value())?,
            "word" => self.words.push(String::from_str(alloc, item.value())?)?,
            "workers" => split_words(alloc, &mut self.workers, item.value())?,
            "program" | "input" => self.text.extend_from_slice(item.value().as_bytes())?,
            "piece" => add_piece(&mut self.text, &item)?,
            "bytes" => add_bytes(&mut self.text, &item)?,
            "certificate" => self.certificate = Some(item.into_lines()),
            "device" => self.devices.push(Kind::of(alloc, &item)?)?,
            "devices" => add_counting(&mut self.devices, &item)?,
            _ => self.ends.take(alloc, &item)?,
        }
        Ok(())
    }
}

impl Case {
    /// Returns whether a journal of it is replayed.
    pub fn is_replayed(&self) -> bool {
        self.facts
            .iter()
            .any(|fact| matches!(fact.field, Field::Replay | Field::Agrees))
    }
}

/// Returns the cases of a file's text.
pub fn cases_of(alloc: Global, text: &str) -> Result<Vec<Case>, Fault> {
    let mut cases = Vec::new(alloc);
    for item in items_of(alloc, text)? {
        if item.key.as_str() == "case" {
            cases.push(Case::new(alloc, &item)?)?;
        } else {
            take_item(alloc, &mut cases, item)?;
        }
    }
    each_asks(&cases)?;
    Ok(cases)
}

/// Takes what an item says of the last case.
fn take_item(alloc: Global, cases: &mut Vec<Case>, item: Item) -> Result<(), Fault> {
    match cases.last_mut() {
        Some(case) => case.take(alloc, item),
        None => Err(item.fault("a case begins with the key `case` and its name")),
    }
}

/// Checks that each case asks for something.
fn each_asks(cases: &[Case]) -> Result<(), Fault> {
    for case in cases {
        if case.facts.is_empty() {
            return Err(Fault::Line(case.line, "the case asks for nothing"));
        }
    }
    Ok(())
}
