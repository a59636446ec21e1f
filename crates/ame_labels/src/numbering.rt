//! Into which entry each label of a weak run goes.

ghost use Rattle.std.specs.Prelude.{◌≡◌, IfOk, length};
ghost use Rattle.ame_weak.specs.Straight.{outset};
ghost use Rattle.ame_labels.specs.EntryNumbers as spec;

use crate::entry_count::EntryCount;
use ame_term::{Label, NoMemory};
use ame_weak::Try;
use std::alloc::Global;

/// Returns for each label of a weak run the number of its entry in the straightened journal, counted from 1. Costs the logarithm of the
/// members inside for each label.
pub fn entry_numbers(alloc: Global, labels: &[Label], tries: &[Try]) -> Result<Vec<u64>, NoMemory>
    ensures { IfOk result (λ numbers. numbers.items ≡ spec.entry_numbers labels.now tries.now) }
{
    let counts = counts_of(alloc, labels, tries)?;
    numbers_with(alloc, labels, &counts)
}

/// Returns how many entries the journal has up to each label.
fn counts_of(alloc: Global, labels: &[Label], tries: &[Try]) -> Result<Vec<u64>, NoMemory>
    ensures { IfOk result (λ counts. counts.items ≡ spec.counts_from 0 0 tries.now outset labels.now) }
{
    let mut ledger = EntryCount::new(alloc);
    let mut counts = Vec::new(alloc);
    let mut rest = tries;
    for (n, label) in labels.iter().enumerate() {
        rest = ledger.pass_tries(rest, n as u64)?;
        ledger.pass(*label)?;
        counts.push(ledger.count)?;
    }
    Ok(counts)
}

/// Returns the entry of each label, given the counts up to each.
fn numbers_with(alloc: Global, labels: &[Label], counts: &[u64]) -> Result<Vec<u64>, NoMemory>
    requires { length counts.now ≡ length labels.now }
    ensures { IfOk result (λ numbers. numbers.items ≡ spec.numbers_with labels.now counts.now) }
{
    let mut numbers = Vec::new(alloc);
    let mut active = 0;
    let mut left = labels.len();
    while left > 0 {
        left -= 1;
        let (label, count) = (labels[left], counts[left]);
        numbers.push(entry_of_label(label, count, active))?;
        active = active_entry_at(label, count, active);
    }
    numbers.reverse();
    Ok(numbers)
}

/// Returns the entry of the fragment that is active at a label.
fn active_entry_at(label: Label, count: u64, later: u64) -> u64
    ensures { result ≡ spec.active_entry_at label count later }
{
    match label {
        Label::Leave | Label::End => count,
        _ => later,
    }
}

/// Returns the entry of a label.
fn entry_of_label(label: Label, count: u64, active: u64) -> u64
    ensures { result ≡ spec.entry_of_label label count active }
{
    match label {
        Label::Activate(_) | Label::Step(_) => active,
        _ => count,
    }
}
