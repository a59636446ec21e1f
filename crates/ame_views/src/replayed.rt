//! A replay of a run, as views need it.

ghost use Rattle.std.specs.Prelude.{◌≡◌, [], ℕ, IfErr, IfOk, Some, map};
ghost use Rattle.ame_journal.specs.Replayed.{Replayed};
ghost use Rattle.ame_journal.specs.Replay.{replay};
ghost use Rattle.ame_check.specs.Judge.{IsHalted};
ghost use Rattle.ame_code.specs.Code.{program_of};
ghost use Rattle.ame_views.specs.Begun.{TellsForms};
ghost use Rattle.ame_views.specs.Lines.{lines_of};
ghost use Rattle.ame_views.specs.Starters.{starter_in, starter_of};

use crate::begun::{Led, led_by};
use crate::line_index::LineIndex;
use crate::starters::{Starter, with_forms};
use ame_check::Halt;
use ame_code::{Code, read_numbers};
use ame_journal::Entry;
use std::alloc::Global;

/// A replay of a run's journal, as views need it.
#[derive(Drop)]
pub struct ReplayedRun {
    /// The integers that each entry prints.
    pub lines: Vec<Vec<i64>>,
    /// The starter of each task but the program, in the order of their numbers.
    pub starters: Vec<Starter>,
    /// The number of tasks there ever were: the program, and each that was started.
    pub fragments: u64,
}

impl ReplayedRun {
    /// Returns what is known without a replay: nothing.
    pub fn empty(alloc: Global) -> ReplayedRun
        ensures lines { result.lines.items ≡ [] }
        ensures starters { result.starters.items ≡ [] }
        ensures fragments { result.fragments ≡ 0 }
    {
        ReplayedRun {
            lines: Vec::new(alloc),
            starters: Vec::new(alloc),
            fragments: 0,
        }
    }
}

/// Replays a journal of a program. An entry that started a fragment is counted from 1. Costs what the run did, time linear in the text, and
/// time logarithmic in its lines for each fragment.
pub fn replayed_run_of(
    alloc: Global,
    text: &[u8],
    code: &Code,
    entries: &[Entry],
) -> Result<ReplayedRun, Halt>
    ensures lines { IfOk result (λ run. map (λ v. v.items) run.lines.items ≡ lines_of (program_of code.now) entries.now) }
    ensures entries { IfOk result (λ run. (fragment : ℕ)
        → starter_in (map (λ s. s.entry) run.starters.items) fragment ≡ starter_of (program_of code.now) entries.now fragment) }
    ensures forms { IfOk result (λ run. TellsForms text.now code.now entries.now run.starters.items) }
    ensures fragments { IfOk result (λ run. (r : Replayed) × (replay (program_of code.now) entries.now ≡ Some r) × (run.fragments ≡ r.state.next)) }

    // There is none only because of the entry that is named, for the reason that is named.
    ensures halted { IfErr result (IsHalted (program_of code.now) entries.now) }
{
    let led = led_by(alloc, code, entries)?;
    let numbers = read_numbers(alloc, &code.accepted().program.term)?;
    let index = LineIndex::of(alloc, text)?;
    let starters = with_forms(alloc, &index, code, &numbers, &led)?;
    let Led { replay, lines, .. } = led;
    let fragments = replay.next;
    Ok(ReplayedRun {
        lines,
        starters,
        fragments,
    })
}
