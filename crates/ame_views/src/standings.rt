//! The places that members have come to after the steps of notes, and their reads on the way.

ghost use Rattle.std.specs.Prelude.{◌≡◌, ◌≤◌, List, IfOk, IfSome, length};
ghost use Rattle.ame_lex.specs.Bytes.{max_text};
ghost use Rattle.ame_lex.specs.Reading.{tokens_of};
ghost use Rattle.ame_journal.specs.declared.entry.Entry.{Entry};
ghost use Rattle.ame_journal.specs.declared.entry.EntryKind.{EntryKind};
ghost use Rattle.ame_check.specs.Entries.{is_confirmed};
ghost use Rattle.ame_check.specs.Shows.{StandsForEntries};
ghost use Rattle.ame_code.specs.Code.{program_of};
ghost use Rattle.ame_code.specs.ReadNumbers as numbering;
ghost use Rattle.ame_why.specs.Open.{tokens_or_none};
ghost use Rattle.ame_views.specs.Forms.{positions};
ghost use Rattle.ame_views.specs.Begun.{IsStartedAt};
ghost use Rattle.ame_views.specs.Standings as spec;
ghost use Rattle.ame_views.specs.FragmentMeaning.{fragment_meaning};

use crate::begun::{Led, led_if_run, started_position};
use crate::forms::positions_in;
use crate::line_index::LineIndex;
use crate::node_places::standing_position;
use crate::standing_lines::{append_reads, append_standing};
use ame_check::{EntryError, Replay, Standing, Stored};
use ame_code::{Code, read_numbers};
use ame_eval::Fragment;
use ame_journal::{Certificate, Entry, EntryKind};
use ame_machine::Wants;
use ame_page::Page;
use ame_term::{Copied, Locs, NoMemory};
use ame_value::Val;
use ame_why::Position;
use std::alloc::Global;
use std::collections::BTreeMap;

/// Returns two kinds of lines for each member of a blocked run: one with the `async` form that started it and the form that it has come to,
/// and one for each location that it read and did not create, with its `ref` form and its value. Forms have their line and column.
/// None if the entries aren't those of a run, or a certificate doesn't hold after them. Costs as much as the run.
pub fn standings_of(
    alloc: Global,
    text: &[u8],
    code: &Code,
    entries: &[Entry],
    certificates: &[Certificate],
) -> Result<Option<Vec<u8>>, NoMemory>
    requires { length text.now ≤ max_text }
    ensures { IfOk result (λ told. IfSome told (λ page. spec.TellStandings text.now code.now entries.now certificates.now page.items)) }
{
    let Some(led) = led_if_run(alloc, code, entries)? else {
        return Ok(None);
    };
    let Led { replay, begun, .. } = led;
    let numbers = read_numbers(alloc, &code.accepted().program.term)?;
    let lines = LineIndex::of(alloc, text)?;
    let forms = positions_in(alloc, &lines)?;
    let mut page = Page::new(alloc);
    for certificate in certificates {
        let started = started_position(&lines, code, &numbers, &begun, certificate.number);
        let Some(part) = part_of(
            alloc,
            &lines,
            code,
            &replay,
            &numbers,
            &forms,
            certificate,
            started,
        )?
        else {
            return Ok(None);
        };
        page.add(&part)?;
    }
    Ok(Some(page.into_bytes()))
}

/// Returns such lines for the member of a note with which a run ends: it was cut off, or came to a value that is nested too deeply.
/// Its place is unknown if it has come to a value for which nothing waits. None if the entries aren't those of a run, or the note can't
/// be made after them. Costs as much as the run.
pub fn halted_of(
    alloc: Global,
    text: &[u8],
    code: &Code,
    entries: &[Entry],
    note: &Entry,
) -> Result<Option<Vec<u8>>, NoMemory>
    requires { length text.now ≤ max_text }
    ensures { IfOk result (λ told. IfSome told (λ page. spec.TellsHalted text.now code.now entries.now note.now page.items)) }
{
    let Some(led) = led_if_run(alloc, code, entries)? else {
        return Ok(None);
    };
    let Led { replay, begun, .. } = led;
    let numbers = read_numbers(alloc, &code.accepted().program.term)?;
    let lines = LineIndex::of(alloc, text)?;
    let Some(stance) = stance_of(alloc, &lines, code, &replay, &numbers, note)? else {
        return Ok(None);
    };
    let Stance { want, reads, there } = stance;
    if !confirms(note.kind, want) {
        return Ok(None);
    }
    let forms = positions_in(alloc, &lines)?;
    let started = started_position(&lines, code, &numbers, &begun, note.number);
    let page = note_lines(alloc, &forms, &replay.cells, note, started, there, reads)?;
    Ok(Some(page))
}

/// Returns whether a note of this kind says that its member wants this next.
fn confirms(kind: EntryKind, want: Wants) -> bool
    ensures { result ≡ is_confirmed kind want }
{
    match kind {
        EntryKind::Ran | EntryKind::Free => false,
        EntryKind::Cut => true,
        EntryKind::Stuck => match want {
            Wants::Block => true,
            _ => false,
        },
        EntryKind::Tall => match want {
            Wants::Tall => true,
            _ => false,
        },
    }
}

/// Returns the note that a certificate was.
fn note_of(alloc: Global, certificate: &Certificate) -> Result<Entry, NoMemory>
    ensures { IfOk result (λ note. note ≡ spec.stuck_note certificate.now) }
{
    let mut fresh = Vec::new(alloc);
    fresh.extend_from_slice(certificate.fresh.as_slice())?;
    Ok(Entry {
        kind: EntryKind::Stuck,
        seat: 0,
        number: certificate.number,
        steps: certificate.steps,
        fresh: Locs::from_vec(fresh),
        answer: None,
    })
}

/// Returns the steps of a note, as those of a member that was cut off.
fn cut_of(alloc: Global, note: &Entry) -> Result<Entry, NoMemory>
    ensures { IfOk result (λ cut. cut ≡ record note.now { kind = EntryKind.Cut }) }
{
    let mut cut = note.copy(alloc)?;
    cut.kind = EntryKind::Cut;
    Ok(cut)
}

/// A member after a note's steps: what it wants, what these steps read, and the form that it has come to, if known.
#[derive(Drop)]
struct Stance {
    want: Wants,
    reads: BTreeMap<u32, u64>,
    there: Option<Position>,
}

/// Returns what the member of a note comes to; none if its steps can't be made.
fn stance_of(
    alloc: Global,
    lines: &LineIndex,
    code: &Code,
    replay: &Replay<Fragment>,
    numbers: &[u32],
    note: &Entry,
) -> Result<Option<Stance>, NoMemory>
    requires numbers { numbers.now ≡ numbering.read_numbers 0 (program_of code.now) }
    requires stands { (entries : List Entry) × StandsForEntries fragment_meaning code.now entries
        (record { cells = replay.now.cells.entries; members = replay.now.members.entries; output = replay.now.output.items; next = replay.now.next }) }
    ensures { IfOk result (λ told. IfSome told (λ stance. (entries : List Entry) → StandsForEntries fragment_meaning code.now entries
        (record { cells = replay.now.cells.entries; members = replay.now.members.entries; output = replay.now.output.items; next = replay.now.next })
        → spec.LeadsNoteTo lines.now.text.now code.now entries note.now stance.want stance.reads.entries stance.there)) }
{
    let cut = cut_of(alloc, note)?;
    let standing = match replay.stand(alloc, code, &cut) {
        Ok(standing) => standing,
        Err(EntryError::Undefined(_) | EntryError::Tall) => return Ok(None),
        Err(EntryError::NoMemory) => return Err(NoMemory),
    };
    let Standing {
        machine,
        want,
        reads,
    } = standing;
    let there = standing_position(lines, code, numbers, &machine);
    Ok(Some(Stance { want, reads, there }))
}

/// Returns the lines of a note whose member comes to what is handed in.
fn note_lines(
    alloc: Global,
    forms: &[Position],
    cells: &BTreeMap<u32, Stored<Val>>,
    note: &Entry,
    started: Option<Position>,
    there: Option<Position>,
    reads: BTreeMap<u32, u64>,
) -> Result<Vec<u8>, NoMemory>
    ensures { IfOk result (λ part. part.items ≡ spec.note_lines forms.now cells.now.entries note.now started there reads.entries) }
{
    let mut part = Page::new(alloc);
    append_standing(&mut part, note, started, there)?;
    append_reads(&mut part, forms, cells, reads)?;
    Ok(part.into_bytes())
}

/// Returns the lines of a certificate; none if its member doesn't come to a false condition.
fn part_of(
    alloc: Global,
    lines: &LineIndex,
    code: &Code,
    replay: &Replay<Fragment>,
    numbers: &[u32],
    forms: &[Position],
    certificate: &Certificate,
    started: Option<Position>,
) -> Result<Option<Vec<u8>>, NoMemory>
    requires numbers { numbers.now ≡ numbering.read_numbers 0 (program_of code.now) }
    requires forms { forms.now ≡ positions lines.now.text.now (tokens_or_none (tokens_of lines.now.text.now)) }
    requires stands { (entries : List Entry) × StandsForEntries fragment_meaning code.now entries
        (record { cells = replay.now.cells.entries; members = replay.now.members.entries; output = replay.now.output.items; next = replay.now.next }) }
    ensures { IfOk result (λ told. IfSome told (λ part. (entries : List Entry) → StandsForEntries fragment_meaning code.now entries
        (record { cells = replay.now.cells.entries; members = replay.now.members.entries; output = replay.now.output.items; next = replay.now.next })
        → IfSome started (IsStartedAt lines.now.text.now code.now entries certificate.now.number)
        → spec.TellsStanding lines.now.text.now code.now entries replay.now.cells.entries certificate.now part.items)) }
{
    let note = note_of(alloc, certificate)?;
    let Some(stance) = stance_of(alloc, lines, code, replay, numbers, &note)? else {
        return Ok(None);
    };
    let Stance { want, reads, there } = stance;
    let Wants::Block = want else {
        return Ok(None);
    };
    let Some(place) = there else {
        return Ok(None);
    };
    let part = note_lines(
        alloc,
        forms,
        &replay.cells,
        &note,
        started,
        Some(place),
        reads,
    )?;
    Ok(Some(part))
}
