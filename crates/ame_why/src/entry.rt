//! An entry of a certificate that can't be made.

ghost use Rattle.std.specs.Prelude.{◌≡◌, ◌++◌, ◌≤◌, IfOk, OnOk, decimal, length};
ghost use Rattle.ame_why.specs.Certificates as spec;
ghost use Rattle.ame_why.specs.Words.{IsLastWord};

use crate::placed::explained;
use crate::words::{line_from, line_start, start_of, word_from, word_start};
use ame_check::Reason;
use ame_machine::Wants;
use ame_page::Page;
use ame_term::{Loc, NoMemory};
use itoa::Buffer;
use std::alloc::Global;

/// Returns why the entry in a line of a certificate can't be made, if the entries before it lead somewhere: the place in the line, and the reason
/// in words.
pub fn explain_entry(
    alloc: Global,
    input: &[u8],
    line: u64,
    why: &Reason,
) -> Result<Vec<u8>, NoMemory>
    ensures { IfOk result (λ page. spec.ExplainsEntry input.now line why.now page.items) }
{
    let start = line_start(input, line);
    let row = line_from(input, start);
    let message = message_of(alloc, row, why)?;
    explained(alloc, input, start + place_in(row, why), &message)
}

/// Returns the place in a line that a reason speaks of.
fn place_in(row: &[u8], why: &Reason) -> usize
    ensures there { spec.IsPlaceOfReason why.now row.now result }
    ensures within { result ≤ length row.now }
{
    match why {
        Reason::NoMember => word_start(row, 2),
        Reason::Inside | Reason::Outside => 0,
        Reason::NoSteps | Reason::Stops(_, _) => word_start(row, 3),
        Reason::Answered => start_of(row, b"="),
        Reason::Unanswered(_) | Reason::Missing(_) => row.len(),
        Reason::Taken(_, location) | Reason::Unused(_, location) => start_of_location(
            row, *location,
        ),
    }
}

/// Returns the place of a location in a line.
fn start_of_location(row: &[u8], location: Loc) -> usize
    ensures there { IsLastWord row.now (decimal location.0) result }
    ensures within { result ≤ length row.now }
{
    let mut buffer = Buffer::new();
    start_of(row, buffer.format(location.0).as_bytes())
}

/// Returns why the entry of a line can't be made, in words.
fn message_of(alloc: Global, row: &[u8], why: &Reason) -> Result<Vec<u8>, NoMemory>
    ensures { IfOk result (λ message. message.items ≡ spec.entry_message row.now why.now) }
{
    let mut message = Page::new(alloc);
    append_after(&mut message, row, steps_told(why))?;
    append_reason(&mut message, why)?;
    message.add(b"\n")?;
    Ok(message.into_bytes())
}

/// Returns after how many of the steps a reason speaks of them.
fn steps_told(why: &Reason) -> Option<u64>
    ensures { result ≡ spec.steps_told why.now }
{
    match why {
        Reason::Unanswered(steps)
        | Reason::Missing(steps)
        | Reason::Taken(steps, _)
        | Reason::Unused(steps, _)
        | Reason::Stops(steps, _) => Some(*steps),
        Reason::NoMember | Reason::Inside | Reason::Outside | Reason::NoSteps | Reason::Answered =>
            None,
    }
}

/// Appends after how many of the line's steps it is so.
fn append_after(message: &mut Page, row: &[u8], steps: Option<u64>) -> Result<(), NoMemory>
    ensures { OnOk result (message.new ≡ message.old ++ spec.after_words row.now steps) }
{
    match steps {
        Some(steps) => append_steps(message, steps, word_from(row, word_start(row, 3))),
        None => Ok(()),
    }
}

#[tactic(auto, unfolding(crate::specs::Certificates::steps_words))]
fn append_steps(message: &mut Page, steps: u64, word: &[u8]) -> Result<(), NoMemory>
    ensures { OnOk result (message.new ≡ message.old ++ spec.steps_words steps word.now) }
{
    message.add(b"after ")?;
    message.add_number(steps)?;
    message.add(b" of ")?;
    message.add(word)?;
    message.add(b" steps: ")
}

/// Appends a reason.
fn append_reason(message: &mut Page, why: &Reason) -> Result<(), NoMemory>
    ensures { OnOk result (message.new ≡ message.old ++ spec.reason_words why.now) }
{
    match why {
        Reason::Stops(_, want) => append_want(message, *want),
        Reason::NoMember => message.add(b"no such task here: it has ended or has not been started"),
        Reason::Inside => message.add(b"the task is in unprotected code: expected a `free` line"),
        Reason::Outside => message.add(
            b"the task is not in unprotected code: a `ran` line must bring it there before a `free` line",
        ),
        Reason::NoSteps => message.add(b"a `free` line makes at least one step"),
        Reason::Answered => message.add(b"the last step calls no device: expected no answer"),
        Reason::Unanswered(_) => message.add(b"missing answer: the task calls a device"),
        Reason::Missing(_) => message.add(b"missing location: the task creates one"),
        Reason::Taken(_, _) => message.add(b"location already exists"),
        Reason::Unused(_, _) => message.add(b"unused location: the task creates no more"),
    }
}

/// Appends what a member wants, by which it doesn't do what its line says.
fn append_want(message: &mut Page, want: Wants) -> Result<(), NoMemory>
    ensures { OnOk result (message.new ≡ message.old ++ spec.want_words want) }
{
    match want {
        Wants::Read(location) | Wants::Peek(location) => append_between(
            message,
            b"the task reads location ",
            u64::from(location.0),
            b", which doesn't exist",
        ),
        Wants::Write(location) => append_between(
            message,
            b"the task writes location ",
            u64::from(location.0),
            b", which doesn't exist",
        ),
        Wants::Device(device, _) => append_between(
            message,
            b"the task calls device ",
            u64::from(device),
            b", which only a `free` line does, in its last step",
        ),
        _ => message.add(want_words(want)),
    }
}

/// Appends a number between words.
fn append_between(
    message: &mut Page,
    before: &[u8],
    number: u64,
    after: &[u8],
) -> Result<(), NoMemory>
    ensures { OnOk result (message.new ≡ message.old ++ spec.between before.now number after.now) }
{
    message.add(before)?;
    message.add_number(number)?;
    message.add(after)
}

/// Returns what a member wants that names no location and no device, in words.
fn want_words(want: Wants) -> &'static [u8]
    ensures { result.now ≡ spec.plain_words want }
{
    match want {
        Wants::Block => b"condition false here: only a `stuck` line may end here",
        Wants::Done => b"the task has ended: it makes no further step",
        Wants::Leave =>
            b"the task has come to `unprotected`: its next step belongs to a `free` line",
        Wants::Close =>
            b"the task is at the end of its unprotected code: only the last step of a `free` line leaves it",
        Wants::Tall => b"value nested too deeply: the limit is 1,000 levels",
        _ => b"the line ends too early: the task has more steps to make",
    }
}
