//! The commands that one thread does give what the words that spell them give.

use crate::call::report_alone;
use crate::case::cases_of;
use crate::fault::Fault;
use crate::judge::{are_facts_as_told, is_as_told};
use ame_app::Alone;
use ame_cli::Options;
use std::sync::Wait;
use std::thread::Threads;

/// A run of a seed, the same from its schedule, a weak run, and a text without a run.
const CASES: &str = "\
case two fragments under the picks of a seed
words sim 1 --workers 2
program (do (async (print 1)) (async (print 2)))
status 0
lines
    1
    2
    finished
    schedule 11101101
journal
    ran 1 0 3
    ran 1 1 1
    ran 0 2 1

case the same from its schedule
words replay --workers 2
input
    schedule 11101101
    program
    (do (async (print 1)) (async (print 2)))
status 0
lines
    1
    2
    finished
    schedule 11101101
journal
    ran 1 0 3
    ran 1 1 1
    ran 0 2 1

case a weak run
words weak 1
program (do (async (print 1)) (async (print 2)))
status 0
lines
    2
    1
    finished
journal
    ran 0 0 3
    ran 0 2 1
    ran 0 1 1

case a text that the types don't accept
words weak 1
program (print true)
status 6
lines
    types: rule 1 at 7
run none
";

/// Returns the commands that the words of the cases spell.
fn commands() -> [Alone; 4] {
    let options = Options::default();
    let pair = Options {
        workers: 2,
        turns: options.turns,
        slice: options.slice,
    };
    [
        Alone::Sim(1, pair),
        Alone::Replay(pair),
        Alone::Weak(1, options.turns),
        Alone::Weak(1, options.turns),
    ]
}

/// Returns whether each case is as it must be, by its words and by the command that they spell.
pub fn commands_are_as_words<R>(rt: &R) -> Result<bool, Fault>
where
    R: Print + AllocGlobal + Threads + Wait + Sync,
{
    let cases = cases_of(rt.alloc(), CASES)?;
    let mut is_right = cases.len() == 4;
    for (case, command) in cases.iter().zip(commands()) {
        let report = report_alone(rt.alloc(), case, command)?;
        is_right = is_as_told(rt, case)? && are_facts_as_told(rt, case, None, &report)? && is_right;
    }
    Ok(is_right)
}
