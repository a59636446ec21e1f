//! The words that ask for a view.

use ame_cli::Verb;
use std::alloc::{AllocError, Global};

/// A view, or none.
#[derive(Clone, Copy, PartialEq, Eq, Debug)]
pub enum View {
    /// The output of `ame`, and an explanation.
    Why,
    /// The journal of the run, and the program.
    Journal,
    /// The journal as a table.
    Trace,
    /// The schedule of a run on one thread, and the program.
    Schedule,
    /// The counts of the run.
    Counts,
    /// The values of the locations that are left.
    Store,
    /// The picture of the run.
    Picture,
    /// The events of the run, for a viewer of traces.
    Events,
    /// The labels of the run, with the terms that they reduce.
    Steps,
}

impl View {
    /// Returns the view for which a word asks.
    fn named(word: &str) -> Option<View> {
        match word {
            "--journal" => Some(View::Journal),
            "--trace" => Some(View::Trace),
            "--schedule" => Some(View::Schedule),
            "--counts" => Some(View::Counts),
            "--store" => Some(View::Store),
            "--picture" => Some(View::Picture),
            "--events" => Some(View::Events),
            "--steps" => Some(View::Steps),
            _ => None,
        }
    }

    /// Returns whether a view is a file for another program, so that nothing may follow it.
    pub fn is_input(self) -> bool {
        matches!(
            self,
            View::Journal | View::Schedule | View::Picture | View::Events
        )
    }
}

/// A view, and the file with which it is compared.
#[derive(Drop)]
pub struct ViewRequest {
    pub view: View,
    pub same: Option<String>,
}

/// Returns the words of each call: `--then` stands between two.
pub fn calls_of(alloc: Global, words: Vec<String>) -> Result<Vec<Vec<String>>, AllocError> {
    let mut calls = Vec::new(alloc);
    let mut call = Vec::new(alloc);
    for word in words {
        if word.as_str() == "--then" {
            calls.push(call)?;
            call = Vec::new(alloc);
        } else {
            call.push(word)?;
        }
    }
    calls.push(call)?;
    Ok(calls)
}

/// Takes the words out that ask for more than a run.
pub fn asked_of(words: &mut Vec<String>) -> ViewRequest {
    match view_of(words) {
        View::Why => ViewRequest {
            view: View::Why,
            same: None,
        },
        view => ViewRequest {
            view,
            same: same_of(words),
        },
    }
}

/// Takes out `--same` and the name after it, in any place.
fn same_of(words: &mut Vec<String>) -> Option<String> {
    for at in 0..words.len() {
        if at + 1 < words.len() && words[at].as_str() == "--same" {
            let _ = words.remove(at);
            return Some(words.remove(at));
        }
    }
    None
}

/// Takes the first word out that asks for a view, wherever it stands.
fn view_of(words: &mut Vec<String>) -> View {
    for at in 0..words.len() {
        if let Some(view) = View::named(words[at].as_str()) {
            let _ = words.remove(at);
            return view;
        }
    }
    View::Why
}

/// Takes out the name of a file, if it comes first. `-` is the standard input.
pub fn file_of(words: &mut Vec<String>) -> Option<String> {
    match words.first() {
        Some(word) if word.as_str() == "-" => {
            let _ = words.remove(0);
            None
        }
        Some(word) if is_file(word.as_str()) => Some(words.remove(0)),
        _ => None,
    }
}

/// Returns whether a word is none that `ame` has.
fn is_file(word: &str) -> bool {
    Verb::named(word).is_none() && !word.starts_with('-')
}
