//! The file of a text.

use std::alloc::AllocError;

/// The name of a text's file, and why it can't be read, if it can't.
#[derive(Clone, Copy)]
pub struct Origin<'a> {
    pub name: &'a str,
    pub fault: Option<&'a str>,
}

impl<'a> Origin<'a> {
    /// Returns the standard input.
    pub fn standard() -> Origin<'static> {
        Origin {
            name: "-",
            fault: None,
        }
    }

    /// Returns a file that can be read.
    pub fn file(name: &'a str) -> Origin<'a> {
        Origin { name, fault: None }
    }

    /// Returns a file that can't be read, for this reason, if there was memory for the words.
    pub fn unreadable(name: &'a str, fault: &'a Result<String, AllocError>) -> Origin<'a> {
        match fault {
            Ok(fault) => Origin {
                name,
                fault: Some(fault.as_str()),
            },
            Err(_) => Origin::file(name),
        }
    }
}
