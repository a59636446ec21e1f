//! An engine that continues from a base.

ghost use Rattle.std.specs.Prelude.{◌≡◌, ◌<◌, ℕ, All, IfErr, IfOk, MatchOption, IsTrue, Some, Err, false};
ghost use Rattle.std.specs.Arc.{arc_value};
ghost use Rattle.ame_term.specs.Maps.{at};
ghost use Rattle.ame_journal.specs.Replayed.{Replayed};
ghost use Rattle.ame_journal.specs.Replay.{replay};
ghost use Rattle.ame_check.specs.declared.stored.Stored.{Stored};
ghost use Rattle.ame_check.specs.Shows.{StandsForEntries};
ghost use Rattle.ame_protocol.specs.Engine.Simulates.{most_opened};
ghost use Rattle.ame_engine.specs.Whole.{AreLimits};
ghost use Rattle.ame_engine.specs.Resuming.{AreActs, IsNear, IsFar, FailsToResume, HasResumed};

use super::Engine;
use super::ledger::Ledger;
use super::start::idle_tasks;
use crate::resume_fail::ResumeFail;
use ame_check::{Halt, Replay};
use ame_io::lines_of;
use ame_journal::{Entry, Journal};
use ame_machine::Runner;
use ame_protocol::{Counters, Limits};
use ame_rows::Memory;
use ame_store::Store;
use ame_term::NoMemory;
use std::alloc::Global;
use std::sync::Arc;

mod cells;
mod members;

use cells::MOST_CELLS;
pub use cells::cells_of;
use members::pool_of;

/// Returns whether an engine has cells for the new locations of an entry.
fn is_near(entry: &Entry) -> bool
    ensures yes { IsTrue result → IsNear entry.now }
    ensures no { result ≡ false → IsNear entry.now → ⊥ }
{
    for l in entry.fresh.as_slice() {
        if l.0 >= MOST_CELLS {
            return false;
        }
    }
    true
}

/// Returns the place of the first entry for whose new locations an engine has no cells.
fn first_far(base: &[Entry]) -> Option<u64>
    ensures { MatchOption result (All IsNear base.now) (IsFar base.now) }
{
    let mut place: u64 = 0;
    for entry in base {
        place += 1;
        if !is_near(entry) {
            return Some(place);
        }
    }
    None
}

impl<M: Runner> Engine<M>
where
    M::Code: Drop,
{
    /// Returns an engine that has the state of a replay of its base.
    fn at_end(
        alloc: Global,
        code: Arc<M::Code>,
        limits: Limits,
        base: Journal,
        replay: Replay<M>,
    ) -> Result<Engine<M>, NoMemory>
        requires limits { AreLimits limits }
        requires base { AreActs base.entries }
        requires led { StandsForEntries M.meaning (arc_value code) base.entries
            (record { cells = replay.cells.entries; members = replay.members.entries; output = replay.output.items; next = replay.next }) }
        ensures code { IfOk result (λ engine. engine.code ≡ arc_value code) }
        ensures state { IfOk result (HasResumed M.meaning limits base.entries) }
    {
        let (cells, members, output, next) = replay.into_parts();
        // The values that take most code to drop come last, after most steps that can fail.
        let text = lines_of(alloc, output.as_slice())?;
        let tasks = idle_tasks(alloc, limits.seats)?;
        let store = Store::from_cells(cells_of(alloc, cells)?);
        let memory = Memory::new(alloc, store, limits.seats)?;
        let pool = pool_of::<M>(alloc, &code, members)?;
        Ok(Engine {
            code,
            limits,
            base,
            ledger: Ledger {
                journal: Journal::new(alloc),
                output,
                text,
            },
            memory,
            tasks,
            pool,
            next,
            turns: 0,
            counters: Counters::new(),
            tried: Vec::new(alloc),
            stop: None,
            certificates: Vec::new(alloc),
        })
    }

    /// Returns an engine that continues from a base. It has the state to which the base leads, all members are ready in order of their
    /// numbers, and all seats are idle. Costs a run of the base, with the logarithm of cells and members for each access, and its greatest
    /// location.
    pub fn resume(
        alloc: Global,
        code: Arc<M::Code>,
        limits: Limits,
        base: Journal,
    ) -> Result<Engine<M>, ResumeFail>
        requires limits { AreLimits limits }
        requires base { AreActs base.entries }
        requires replayed { (led : Replayed) × (replay (M.meaning.program (arc_value code)) base.entries ≡ Some led) }
        ensures code { IfOk result (λ engine. engine.code ≡ arc_value code) }
        ensures state { IfOk result (HasResumed M.meaning limits base.entries) }
        ensures fail { IfErr result (FailsToResume (M.meaning.program (arc_value code)) base.entries) }
        ensures far { (n : ℕ) → IsFar base.entries n → result ≡ Err (ResumeFail.Far n) }
    {
        if let Some(place) = first_far(base.entries()) {
            return Err(ResumeFail::Far(place));
        }
        match Replay::<M>::along(alloc, &code, base.entries()) {
            Ok(replay) => Ok(Engine::at_end(alloc, code, limits, base, replay)?),
            Err(Halt::Undefined(_, _)) => unreachable!(),
            Err(Halt::Tall(place)) => Err(ResumeFail::Tall(place)),
            Err(Halt::NoMemory) => Err(ResumeFail::NoMemory),
        }
    }
}
