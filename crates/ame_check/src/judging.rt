//! A journal judged by the strong rules.

ghost use Rattle.std.specs.Prelude.{◌≡◌, ◌≤◌, IfOk, MatchOption};
ghost use Rattle.ame_journal.specs.Totals.{total_steps};
ghost use Rattle.ame_check.specs.Judge.{most_steps, IsLong, Judges};

use crate::halt::Halt;
use crate::reason::Reason;
use crate::replay::Replay;
use ame_journal::Entry;
use ame_machine::Runner;
use ame_term::NoMemory;
use std::alloc::Global;

/// The most steps and entries together that a journal may have to be judged.
pub const MOST_STEPS: u64 = 100_000_000;

/// The judgment of a journal. Entries are counted from 1.
#[derive(Drop)]
pub enum Judged {
    /// It is the journal of a run of the program, which printed this.
    Valid(Vec<i64>),
    /// This entry is the first that can't be made, for this reason.
    Invalid(u64, Reason),
    /// With this entry the steps and entries are more than `MOST_STEPS`. It is looked for first.
    Long(u64),
    /// All before this entry can be made, and it passes a form whose value would be too high for a machine.
    Tall(u64),
}

/// Returns the first entry with which the steps and entries are more than `MOST_STEPS`.
fn too_long(entries: &[Entry]) -> Option<u64>
    ensures { MatchOption result (total_steps entries.now ≤ most_steps) (IsLong entries.now) }
{
    let mut total: u64 = 0;
    let mut place: u64 = 0;
    for entry in entries {
        place += 1;
        if entry.steps >= MOST_STEPS - total {
            return Some(place);
        }
        total += entry.steps + 1;
    }
    None
}

/// Judges a journal of a program. Costs what its run did, with the logarithm of cells and members for each access.
pub fn judge<M: Runner>(
    alloc: Global,
    code: &M::Code,
    entries: &[Entry],
) -> Result<Judged, NoMemory>
where
    M::Code: Drop,
    ensures { IfOk result (Judges (M.meaning.program code.now) entries.now) }
{
    if let Some(place) = too_long(entries) {
        return Ok(Judged::Long(place));
    }
    match Replay::<M>::along(alloc, code, entries) {
        Ok(replay) => Ok(Judged::Valid(replay.into_output())),
        Err(Halt::Undefined(place, why)) => Ok(Judged::Invalid(place, why)),
        Err(Halt::Tall(place)) => Ok(Judged::Tall(place)),
        Err(Halt::NoMemory) => Err(NoMemory),
    }
}
