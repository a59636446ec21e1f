//! The counts of a run, next to their bounds.

ghost use Rattle.std.specs.Prelude.{◌≡◌, ◌++◌, ◌+◌, ◌≤◌, ℕ, IfOk, OnOk, Some, codes, decimal, length};
ghost use Rattle.ame_term.specs.Tree.{Tree};
ghost use Rattle.ame_journal.specs.Replayed.{Replayed};
ghost use Rattle.ame_journal.specs.Replay.{replay};
ghost use Rattle.ame_protocol.specs.Bounds.Spent.{paid_by_entries, paid_by_tries};
ghost use Rattle.ame_protocol.specs.Event.Bounds.{HasBounds};
ghost use Rattle.ame_views.specs.Counts as spec;
ghost use Rattle.ame_views.specs.Counts.{count_row, bounded_row, bound_words, most_refusals, refusal_words, KeepsShownBounds};

use crate::replayed::ReplayedRun;
use ame_engine::{Counters, Ended, Stop};
use ame_journal::Entry;
use ame_page::Page;
use ame_protocol::{Limits, Tried};
use ame_term::NoMemory;
use std::alloc::Global;

/// Returns the counts of a run: its entries, its tasks, and its turns by their kinds; then, next to their bounds, the answers that rolled a
/// fragment back, the attempts that left no entry, and the turns, if these are used up. A sum past 2^64 - 1 counts as out of
/// memory.
pub fn counts_of<V>(alloc: Global, ended: &Ended<V>, run: &ReplayedRun) -> Result<Vec<u8>, NoMemory>
    ensures text { IfOk result (λ page. page.items ≡ spec.counts ended.now run.now.fragments ended.now.limits) }

    // Each count that is shown next to a bound is at most that.
    ensures bounds { IfOk result (λ _. (program : Tree) (r : Replayed)
        → HasBounds program ended.now.limits r ended.now.base ended.now.entries ended.now.turns ended.now.counters ended.now.tried ended.now.stop
        → replay program (ended.now.base ++ ended.now.entries) ≡ Some r → r.state.next ≡ run.now.fragments
        → KeepsShownBounds ended.now run.now.fragments ended.now.limits) }
{
    let fragments = run.fragments;
    let limits = *ended.limits();
    let mut page = Page::new(alloc);
    append_first(
        &mut page,
        ended.journal().len() as u64,
        fragments,
        ended.turns(),
    )?;
    append_turns(&mut page, ended.counters())?;
    append_turn(&mut page, ended.counters().invalids, b"invalid reads")?;
    append_all_bounded(&mut page, ended, fragments, limits)?;
    Ok(page.into_bytes())
}

/// Returns the counts of a weak run: its entries and how many attempts are among them, its tasks, and its turns next to what its entries pay.
/// A sum past 2^64 - 1 counts as out of memory.
pub fn weak_counts_of(
    alloc: Global,
    turns: u32,
    entries: &[Entry],
    run: &ReplayedRun,
) -> Result<Vec<u8>, NoMemory>
    ensures { IfOk result (λ page. page.items ≡ spec.weak_counts turns entries.now run.now.fragments) }
{
    let mut page = Page::new(alloc);
    append_count(&mut page, entries.len() as u64, b"entries, of these")?;
    append_count(
        &mut page,
        note_count(entries),
        b"  attempts that were rolled back",
    )?;
    append_count(&mut page, run.fragments, b"tasks")?;
    append_weak_turns(&mut page, turns, paid_by_entries(entries)?)?;
    Ok(page.into_bytes())
}

/// Appends the turns of a weak run next to what its entries pay.
#[tactic(auto, unfolding(crate::specs::Counts::weak_turn_row))]
fn append_weak_turns(page: &mut Page, turns: u32, paid: u64) -> Result<(), NoMemory>
    ensures { OnOk result (page.new ≡ page.old ++ spec.weak_turn_row turns paid) }
{
    let most = paid.checked_mul(3).ok_or(NoMemory)?;
    let mut words = Page::new(page.allocator());
    words.add(b"3 * ")?;
    words.add_number(paid)?;
    append_bounded(page, u64::from(turns), b"turns", words.as_slice(), most)
}

/// Returns how many entries are notes.
fn note_count(entries: &[Entry]) -> u64
    ensures { result ≡ spec.note_count entries.now }
{
    entries.iter().filter(|entry| entry.kind.is_note()).count() as u64
}

/// Appends a count, and what was counted.
#[tactic(auto, unfolding(crate::specs::Counts::count_row))]
fn append_count(page: &mut Page, count: u64, what: &[u8]) -> Result<(), NoMemory>
    ensures { OnOk result (page.new ≡ page.old ++ count_row count what.now) }
{
    page.add_column(9, count)?;
    page.add(what)?;
    page.add(b"\n")
}

/// Appends how many entries, fragments and turns there are.
#[tactic(auto, unfolding(crate::specs::Counts::first_rows))]
fn append_first(page: &mut Page, entries: u64, fragments: u64, turns: u32) -> Result<(), NoMemory>
    ensures { OnOk result (page.new ≡ page.old ++ spec.first_rows entries fragments turns) }
{
    append_count(page, entries, b"entries")?;
    append_count(page, fragments, b"tasks")?;
    append_turn(page, turns, b"turns, of these")
}

/// Appends the turns by their kinds.
#[tactic(auto, unfolding(crate::specs::Counts::turn_rows))]
fn append_turns(page: &mut Page, counters: &Counters) -> Result<(), NoMemory>
    ensures { OnOk result (page.new ≡ page.old ++ spec.turn_rows counters.now) }
{
    append_accesses(page, counters)?;
    append_ends(page, counters)?;
    append_late(page, counters)
}

/// Appends the turns of a fragment on its way.
#[tactic(auto, unfolding(crate::specs::Counts::access_rows))]
fn append_accesses(page: &mut Page, counters: &Counters) -> Result<(), NoMemory>
    ensures { OnOk result (page.new ≡ page.old ++ spec.access_rows counters.now) }
{
    append_turn(page, counters.begins, b"  begins")?;
    append_turn(page, counters.reads, b"  reads")?;
    append_turn(page, counters.writes, b"  writes")?;
    append_turn(page, counters.conflicts, b"  conflicts")?;
    append_turn(page, counters.allocs, b"  new locations")
}

/// Appends the turns at its end, and the checks.
#[tactic(auto, unfolding(crate::specs::Counts::end_rows))]
fn append_ends(page: &mut Page, counters: &Counters) -> Result<(), NoMemory>
    ensures { OnOk result (page.new ≡ page.old ++ spec.end_rows counters.now) }
{
    append_turn(page, counters.checks, b"  checks")?;
    append_turn(page, counters.commits, b"  commits")?;
    append_turn(page, counters.blocks, b"  false conditions")
}

/// Appends a count of turns.
fn append_turn(page: &mut Page, count: u32, what: &[u8]) -> Result<(), NoMemory>
    ensures { OnOk result (page.new ≡ page.old ++ count_row count what.now) }
{
    append_count(page, u64::from(count), what)
}

/// Appends the other turns.
#[tactic(auto, unfolding(crate::specs::Counts::late_rows))]
fn append_late(page: &mut Page, counters: &Counters) -> Result<(), NoMemory>
    ensures { OnOk result (page.new ≡ page.old ++ spec.late_rows counters.now) }
{
    append_turn(page, counters.talls, b"  too deep")?;
    append_turn(page, counters.undos, b"  undos")?;
    append_turn(page, counters.frees, b"  unprotected")
}

/// Appends a count next to its bound. The words say from which other counts the bound comes.
#[tactic(auto, unfolding(crate::specs::Counts::bounded_row))]
fn append_bounded(
    page: &mut Page,
    count: u64,
    what: &[u8],
    words: &[u8],
    most: u64,
) -> Result<(), NoMemory>
    ensures { OnOk result (page.new ≡ page.old ++ bounded_row count what.now words.now most) }
{
    page.add_column(9, count)?;
    page.add(what)?;
    append_bound(page, words, most)
}

/// Appends a bound. The words say from which other counts it comes.
#[tactic(auto, unfolding(crate::specs::Counts::bound_words))]
fn append_bound(page: &mut Page, words: &[u8], most: u64) -> Result<(), NoMemory>
    ensures { OnOk result (page.new ≡ page.old ++ bound_words words.now most) }
{
    page.add(b", at most ")?;
    page.add(words)?;
    page.add(b" = ")?;
    page.add_number(most)?;
    page.add(b"\n")
}

/// Appends what is bounded.
#[tactic(auto, unfolding(crate::specs::Counts::bounded_rows))]
fn append_all_bounded<V>(
    page: &mut Page,
    ended: &Ended<V>,
    fragments: u64,
    limits: Limits,
) -> Result<(), NoMemory>
    ensures { OnOk result (page.new ≡ page.old ++ spec.bounded_rows ended.now fragments limits) }
{
    let entries = ended.journal().len() as u64;
    append_refusals(page, ended.counters(), fragments, entries)?;
    append_tries(
        page,
        ended.tried().len() as u64,
        fragments,
        entries,
        limits.seats,
    )?;
    append_spent(page, ended, limits.slice)
}

/// Returns how many answers may turn fragments back.
fn most_refusals(fragments: u64, entries: u64) -> Result<u64, NoMemory>
    ensures { IfOk result (λ most. most ≡ most_refusals fragments entries) }
{
    let all = fragments.checked_add(entries).ok_or(NoMemory)?;
    all.checked_mul(8).ok_or(NoMemory)
}

/// Returns the words that say from which counts this number comes.
fn refusal_words(alloc: Global, fragments: u64, entries: u64) -> Result<Page, NoMemory>
    ensures { IfOk result (λ words. words ≡ refusal_words fragments entries) }
{
    let mut words = Page::new(alloc);
    words.add(b"8 * (")?;
    words.add_number(fragments)?;
    words.add(b" + ")?;
    words.add_number(entries)?;
    words.add(b")")?;
    Ok(words)
}

/// Appends the answers that turned a fragment back.
#[tactic(auto, unfolding(crate::specs::Counts::refusal_row))]
fn append_refusals(
    page: &mut Page,
    counters: &Counters,
    fragments: u64,
    entries: u64,
) -> Result<(), NoMemory>
    ensures { OnOk result (page.new ≡ page.old ++ spec.refusal_row counters.now fragments entries) }
{
    let words = refusal_words(page.allocator(), fragments, entries)?;
    append_bounded(
        page,
        u64::from(counters.conflicts) + u64::from(counters.invalids),
        b"conflicts and invalid reads",
        words.as_slice(),
        most_refusals(fragments, entries)?,
    )
}

/// Appends the attempts that left no entry.
#[tactic(auto, unfolding(crate::specs::Counts::try_row))]
fn append_tries(
    page: &mut Page,
    tries: u64,
    fragments: u64,
    entries: u64,
    seats: u32,
) -> Result<(), NoMemory>
    ensures { OnOk result (page.new ≡ page.old ++ spec.try_row tries fragments entries seats) }
{
    let seats = u64::from(seats);
    let most = most_refusals(fragments, entries)?;
    let most = most.checked_add(seats).ok_or(NoMemory)?;
    let mut words = refusal_words(page.allocator(), fragments, entries)?;
    words.add(b" + ")?;
    words.add_number(seats)?;
    append_bounded(
        page,
        tries,
        b"attempts that left no entry",
        words.as_slice(),
        most,
    )
}

/// Appends the turns next to what pays for them, if they are used up.
fn append_spent<V>(page: &mut Page, ended: &Ended<V>, slice: u32) -> Result<(), NoMemory>
    ensures { OnOk result (page.new ≡ page.old ++ spec.spent_row ended.now slice ended.now.stop) }
{
    match ended.stopped() {
        Some(Stop::Spent) => {
            let by_entries = paid_by_entries(ended.journal())?;
            let by_tries = paid_by_tries(ended.tried(), slice)?;
            append_paid(page, ended.turns(), by_entries, by_tries)
        }
        _ => Ok(()),
    }
}

/// Appends the turns next to what pays for them.
#[tactic(auto, unfolding(crate::specs::Counts::paid_row))]
fn append_paid(page: &mut Page, turns: u32, by_entries: u64, by_tries: u64) -> Result<(), NoMemory>
    ensures { OnOk result (page.new ≡ page.old ++ spec.paid_row turns by_entries by_tries) }
{
    let all = by_entries.checked_add(by_tries).ok_or(NoMemory)?;
    let most = all.checked_mul(3).ok_or(NoMemory)?;
    let mut words = Page::new(page.allocator());
    words.add(b"3 * (")?;
    words.add_number(by_entries)?;
    words.add(b" + ")?;
    words.add_number(by_tries)?;
    words.add(b")")?;
    append_bounded(
        page,
        u64::from(turns),
        b"turns that are paid",
        words.as_slice(),
        most,
    )
}

/// Returns what entries pay.
fn paid_by_entries(entries: &[Entry]) -> Result<u64, NoMemory>
    ensures { IfOk result (λ paid. paid ≡ paid_by_entries entries.now) }
{
    let mut paid: u64 = 0;
    for entry in entries {
        let one = entry.steps.checked_add(1).ok_or(NoMemory)?;
        paid = paid.checked_add(one).ok_or(NoMemory)?;
    }
    Ok(paid)
}

/// Returns what tries pay.
fn paid_by_tries(tried: &[Tried], slice: u32) -> Result<u64, NoMemory>
    ensures { IfOk result (λ paid. paid ≡ paid_by_tries slice tried.now) }
{
    let mut paid: u64 = 0;
    for one in tried {
        let steps = one.steps.checked_add(u64::from(slice) + 1).ok_or(NoMemory)?;
        paid = paid.checked_add(steps).ok_or(NoMemory)?;
    }
    Ok(paid)
}
