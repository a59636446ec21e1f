//! Formatted text, as `write!` gives it, on a page.

use crate::page::Page;
use ame_term::NoMemory;
use std::fmt;
use std::fmt::{Display, Write};

impl Write for Page {
    ghost use Rattle.std.specs.Prelude.{◌≡◌, ◌++◌};

    ghost write_str_gives = { λ page text after. after ≡ page ++ text };

    fn write_str(&mut self, text: &str) -> fmt::Result {
        match self.add(text.as_bytes()) {
            Ok(()) => Ok(()),
            Err(_) => Err(fmt::Error),
        }
    }
}

impl Page {
    ghost use Rattle.std.specs.Prelude.{OnOk};
    ghost use Rattle.std.specs.Fmt.{AppendsText};

    /// Appends a formatted text: what `write!` calls. A text that can't be formatted counts as one that finds no memory.
    pub fn write_fmt<D: Display + Drop>(&mut self, text: D) -> Result<(), NoMemory>
        ensures { OnOk result (AppendsText self.old self.new (D.output text)) }
    {
        match self.write(text) {
            Ok(()) => Ok(()),
            Err(_) => Err(NoMemory),
        }
    }
}
