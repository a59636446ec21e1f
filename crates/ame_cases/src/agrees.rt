//! The comparison of a run with the state to which its journal leads in the strong semantics as a program.

use crate::device::Boxed;
use crate::fault::Fault;
use crate::replay::replayed;
use crate::told::CaseReport;
use ame_app::{Ran, Status};
use ame_device::Device;
use ame_journal::{Entry, EntryKind};
use ame_store::Store;
use ame_strong::StrongState;
use ame_term::{Loc, Value, copy_term};
use ame_value::Val;
use std::alloc::Global;

/// Returns whether a run's journal can be replayed, and the run left the output, the integers in the cells and the members to which it
/// leads. The devices heard as many calls as the journal has. A note of a value nested too deeply isn't replayed.
pub fn agrees(alloc: Global, report: &CaseReport, run: &Ran) -> Result<bool, Fault> {
    let program = copy_term(alloc, &run.code.accepted().program.term)?;
    let entries = without_tall(report.journal());
    match replayed(alloc, program, report.base(), entries)? {
        Some(state) => Ok(
            state.output() == run.left.output()
                && are_same_cells(run.left.store(), &state)
                && are_left(&report.status, state.pool_len() as u64)
                && answers_told(entries) == calls_heard(&report.devices),
        ),
        None => Ok(false),
    }
}

/// Returns the entries before a last note of a value nested too deeply.
fn without_tall(entries: &[Entry]) -> &[Entry] {
    match entries.split_last() {
        Some((last, before)) if last.kind == EntryKind::Tall => before,
        _ => entries,
    }
}

/// Returns whether each live cell with an integer has it in the state as well, and no other cell is live.
fn are_same_cells(store: &Store<Val>, state: &StrongState) -> bool {
    for location in 0..store.len() {
        let cell = store.cell(Loc(location));
        let is_same = match (cell.live, &cell.value, state.stored(Loc(location))) {
            (false, _, None) => true,
            (true, Val::Int(here), Some(Value::Int(there))) => *here == *there,
            (true, Val::Int(_), _) => false,
            (is_live, _, found) => is_live == found.is_some(),
        };
        if !is_same {
            return false;
        }
    }
    true
}

/// Returns whether this number of members may be left if a call ended with this status.
fn are_left(status: &Status, members: u64) -> bool {
    match status {
        Status::Finished => members == 0,
        Status::Blocked(blocked) => members > 0 && *blocked == members,
        Status::Spent | Status::Tall(_) => members > 0,
        _ => true,
    }
}

/// Returns the number of answers of devices in entries.
fn answers_told(entries: &[Entry]) -> usize {
    entries
        .iter()
        .filter(|entry| entry.answer.is_some())
        .count()
}

/// Returns the number of calls that devices answered.
fn calls_heard(devices: &[Boxed]) -> usize {
    let mut calls = 0usize;
    for device in devices {
        calls = calls.saturating_add(device.heard().unwrap_or(&[]).len());
    }
    calls
}
