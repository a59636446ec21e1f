//! Devices that are handed in.

use crate::fault::Fault;
use crate::item::Item;
use crate::text::integers;
use ame_device::Device;
use std::alloc::Global;

/// The most devices.
const MOST: usize = 16;

/// A device that is handed in.
#[derive(Drop)]
pub enum Kind {
    /// Answers how many calls it had.
    Counts,
    /// Answers the sum of all that it was called with.
    Adds,
    /// Answers its argument, and fails at the call with this number.
    FailsAt(u64),
    /// Answers these, one after another, and fails when none is left.
    Answers(Vec<i64>),
}

impl Kind {
    /// Returns the device that an item describes.
    pub fn of(alloc: Global, item: &Item) -> Result<Kind, Fault> {
        let value = item.value();
        let (word, rest) = value.split_once(' ').unwrap_or((value, ""));
        match word {
            "counts" => Ok(Kind::Counts),
            "adds" => Ok(Kind::Adds),
            "fails-at" => match rest.parse::<u64>() {
                Ok(call) => Ok(Kind::FailsAt(call)),
                Err(_) => Err(item.fault("the number of a call stands behind `fails-at`")),
            },
            "answers" => Ok(Kind::Answers(integers(alloc, item, rest)?)),
            _ => Err(item.fault("a device `counts`, `adds`, `fails-at` or `answers`")),
        }
    }
}

/// Adds a number of devices that count.
pub fn add_counting(devices: &mut Vec<Kind>, item: &Item) -> Result<(), Fault> {
    for _ in 0..item.size()? {
        if devices.len() == MOST {
            return Err(item.fault("there are at most 16 devices"));
        }
        devices.push(Kind::Counts)?;
    }
    Ok(())
}

/// A device that is handed in.
pub type Boxed = Box<dyn Device + Send>;
