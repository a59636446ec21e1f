//! The effect of each pick of a run on one thread.

use crate::fault::Fault;
use ame_app::{Extra, Ran, RunResult};
use ame_shell::Outcome;
use std::alloc::Global;

/// Returns the seats in the order of their picks, and the effect of each, with a line for picks of one seat in a row.
pub fn picks(alloc: Global, run: &Option<Ran>) -> Result<String, Fault> {
    let mut text = String::new(alloc);
    let Some(
        Ran {
            left: RunResult::Engine(_, Extra::Picked(mades)),
            ..
        },
    ) = run
    else {
        text.push_str("none\n")?;
        return Ok(text);
    };
    let mut last = None;
    for made in mades.iter() {
        if last != Some(made.seat) {
            if last.is_some() {
                text.push_str("\n")?;
            }
            write!(text, "{}", made.seat)?;
            last = Some(made.seat);
        }
        let word = word_of(made.outcome);
        write!(text, " {word}")?;
    }
    text.push_str("\n")?;
    Ok(text)
}

fn word_of(outcome: Outcome) -> &'static str {
    match outcome {
        Outcome::Began => "began",
        Outcome::Waited => "waited",
        Outcome::Stopped => "stopped",
        Outcome::Read => "read",
        Outcome::Wrote => "wrote",
        Outcome::Met(_) => "met",
        Outcome::Allocated => "made",
        Outcome::Checked => "checked",
        Outcome::FoundInvalid(_) => "found-stale",
        Outcome::Ended => "ended",
        Outcome::Left => "left",
        Outcome::Refused(_) => "refused",
        Outcome::Noted => "noted",
        Outcome::NotNoted(_) => "not-noted",
        Outcome::GrewTall => "grew-tall",
        Outcome::NotTall(_) => "not-tall",
        Outcome::CameHome => "came-home",
        Outcome::DeviceFailed(_) => "device-failed",
        Outcome::Spent => "spent",
        Outcome::Undid => "undid",
        Outcome::WentHome => "went-home",
        Outcome::Lacked => "lacked",
    }
}
