//! The reasons for the end of a call.

ghost use Rattle.std.specs.Prelude.{◌≤◌, vec_len};
ghost use Rattle.ame_lex.specs.Bytes.{max_text};

use crate::origin::Origin;
use crate::views::entries_of;
use ame_app::{Report, ReportPart, StandardDevice, Status, TextFault};
use ame_journal::EntryKind;
use ame_lex::LexFault;
use ame_parse::ParseFault;
use ame_term::NoMemory;
use ame_views::{halted_of, standings_of, waits_of};
use ame_why::{
    explain_bytes, explain_entry, explain_line, explain_tokens, explain_types, heading_of,
};
use std::alloc::Global;

/// The most steps of a fragment that are repeated to find its place.
const MOST_STEPS: u64 = 10_000_000;

/// The answer for a fragment with more.
const TOO_MANY: &[u8] =
    b"the task at work made more than 10,000,000 steps, so its place is not looked for\n";

/// Returns why a call ended as it did. For a text that is refused it begins with the text's name, line, column and verdict. Then comes the place
/// in the text, or in the bytes of a certificate.
pub fn explain<K>(
    alloc: Global,
    report: &Report<K, StandardDevice>,
    input: &[u8],
    origin: Origin<'_>,
) -> Result<Vec<u8>, NoMemory>
    requires small { vec_len report.now.text ≤ max_text }
{
    let mut page = match place_of(&report.status) {
        Some(place) => {
            let told = report.status.line();
            heading_of(
                alloc,
                origin.name.as_bytes(),
                &report.text,
                place,
                told.as_str().as_bytes(),
            )?
        }
        None => Vec::new(alloc),
    };
    append_reason(&mut page, report, input, origin)?;
    Ok(page)
}

/// Returns the place in a text at which it is refused.
pub fn place_of(status: &Status) -> Option<u32> {
    match status {
        Status::Text(TextFault::Lexical(LexFault::BadByte(place) | LexFault::LongNumber(place))) =>
            Some(*place),
        Status::Text(TextFault::Syntactic(fault)) => match fault {
            ParseFault::Expected(place, _)
            | ParseFault::UnknownName(place)
            | ParseFault::TooNested(place)
            | ParseFault::Trailing(place) => Some(*place),
            ParseFault::NoMemory => None,
        },
        Status::Types(fault) => Some(fault.place),
        _ => None,
    }
}

/// Appends why a call ended as it did.
fn append_reason<K>(
    page: &mut Vec<u8>,
    report: &Report<K, StandardDevice>,
    input: &[u8],
    origin: Origin<'_>,
) -> Result<(), NoMemory>
    requires small { vec_len report.now.text ≤ max_text }
{
    let alloc = *page.allocator();
    let reason = match (&report.status, &report.own) {
        (Status::Text(TextFault::Lexical(fault)), _) => explain_bytes(alloc, &report.text, *fault),
        (Status::Text(TextFault::Syntactic(fault)), _) => {
            explain_tokens(alloc, &report.text, *fault)
        }
        (Status::Types(fault), _) => explain_types(alloc, &report.text, fault),
        (Status::BadJournal(line), _) => explain_line(alloc, input, u64::from(*line)),
        (Status::Invalid(entry), ReportPart::Unmade(why)) => explain_entry(
            alloc, input, *entry, why,
        ),
        (Status::ReadFault, _) => unread(alloc, origin),
        (Status::Blocked(_), _) => blocked(alloc, report),
        (Status::Spent | Status::Tall(_), _) => halted(alloc, report),
        (status, _) => Ok(Vec::from_slice(alloc, remark(status))?),
    }?;
    page.extend_from_slice(&reason)?;
    Ok(())
}

/// Returns that no task can go on, and the place of each.
fn blocked<K>(alloc: Global, report: &Report<K, StandardDevice>) -> Result<Vec<u8>, NoMemory>
    requires small { vec_len report.now.text ≤ max_text }
{
    let mut page = Vec::from_slice(
        alloc,
        b"every remaining task is blocked on a false condition that no task can make true\n",
    )?;
    page.extend_from_slice(&waiting(alloc, report)?)?;
    Ok(page)
}

/// Returns the place of each blocked task, and its reads; if the place isn't found, the number of steps.
fn waiting<K>(alloc: Global, report: &Report<K, StandardDevice>) -> Result<Vec<u8>, NoMemory>
    requires small { vec_len report.now.text ≤ max_text }
{
    let certificates = report.blocked();
    if let Some(run) = &report.run {
        let entries = entries_of(alloc, report)?;
        let told = standings_of(alloc, &report.text, &run.code, &entries, certificates)?;
        if let Some(lines) = told {
            return Ok(lines);
        }
    }
    waits_of(alloc, certificates)
}

/// Returns why a run ended before its tasks did, and the place of the task that was cut off, or came to a value that is nested too deeply.
fn halted<K>(alloc: Global, report: &Report<K, StandardDevice>) -> Result<Vec<u8>, NoMemory>
    requires small { vec_len report.now.text ≤ max_text }
{
    let mut page = Vec::from_slice(alloc, remark(&report.status))?;
    page.extend_from_slice(&halting(alloc, report)?)?;
    Ok(page)
}

/// Returns the place of the last note's task, and its reads; nothing if no task was cut off, or the place isn't found.
fn halting<K>(alloc: Global, report: &Report<K, StandardDevice>) -> Result<Vec<u8>, NoMemory>
    requires small { vec_len report.now.text ≤ max_text }
{
    let Some(run) = &report.run else {
        return Ok(Vec::new(alloc));
    };
    let mut entries = entries_of(alloc, report)?;
    let Some(note) = entries.pop() else {
        return Ok(Vec::new(alloc));
    };
    if matches!(
        note.kind,
        EntryKind::Ran | EntryKind::Free | EntryKind::Stuck
    ) {
        return Ok(Vec::new(alloc));
    }
    if note.steps > MOST_STEPS {
        return Ok(Vec::from_slice(alloc, TOO_MANY)?);
    }
    let told = halted_of(alloc, &report.text, &run.code, &entries, &note)?;
    Ok(told.unwrap_or(Vec::new(alloc)))
}

/// Returns which file can't be read, and why.
fn unread(alloc: Global, origin: Origin<'_>) -> Result<Vec<u8>, NoMemory> {
    let mut page = Vec::from_slice(alloc, origin.name.as_bytes())?;
    page.extend_from_slice(b": ")?;
    match origin.fault {
        Some(fault) => page.extend_from_slice(fault.as_bytes())?,
        None => page.extend_from_slice(b"unreadable text")?,
    }
    page.push(b'\n')?;
    Ok(page)
}

/// Returns what is to be said of a call without a place in its text.
fn remark(status: &Status) -> &'static [u8] {
    match status {
        Status::Spent => b"turn limit reached with tasks left: raise it with `--turns`\n",
        Status::Usage =>
            b"unknown command or option: see `./why --help`, docs/ame.1 and docs/why.1\n",
        Status::TooLong => b"text too long: the limit is 1048576 bytes\n",
        Status::BadSchedule =>
            b"malformed schedule: expected `schedule `, one character for each pick (0 to 9 and a to v), then the line `program`\n",
        Status::Tall(_) => b"value nested too deeply: the limit is 1,000 levels\n",
        Status::LongJournal(_) => b"journal too long: steps plus entries exceed 100,000,000 here\n",
        _ => b"",
    }
}
