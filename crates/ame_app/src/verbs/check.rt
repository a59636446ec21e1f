//! `check`: a source that is a certificate, judged without a run.

ghost use Rattle.std.specs.Prelude.{◌≡◌, ◌==◌, ◌≤◌, ◌⊎◌, All, IfOk, IfErr, count_by, length, vec_len};
ghost use Rattle.std.specs.Arc.{arc_value};
ghost use Rattle.ame_code.specs.Code.{program_of};
ghost use Rattle.ame_journal.specs.JournalView.{IsFit};
ghost use Rattle.ame_app.specs.Verbs.Check.{TakesCertificate, HasNoCertificate, entries_before, TellsOfJournal};
ghost use Rattle.ame_app.specs.declared.parts.Front.{Front as Before};
ghost use Rattle.ame_app.specs.declared.status.Status.{Status as Told};

use crate::parts::{Front, ReportPart};
use crate::status::Status;
use crate::verbs::{CommandInput, Settled, told_alone};
use ame_check::{Judged, judge, split_input};
use ame_code::Code;
use ame_eval::Fragment;
use ame_io::{READ_LIMIT, lines_of};
use ame_journal::{Entry, Journal, JournalFault};
use ame_term::NoMemory;
use std::alloc::Global;
use std::sync::Arc;

/// A certificate: the journal of a run, and the text of its program.
#[derive(Drop)]
pub struct Certified<'a> {
    pub journal: Journal,
    pub text: &'a [u8],
}

/// Splits the bytes at the first line `program`, and reads the journal before it.
pub fn read_certificate(alloc: Global, bytes: &[u8]) -> Result<Certified<'_>, Status>
    requires most { length bytes.now ≤ READ_LIMIT }
    ensures takes { IfOk result (λ read. TakesCertificate bytes.now (Before.Journal read.journal) read.text.now) }
    ensures small { IfOk result (λ read. length read.text.now ≤ length bytes.now) }
    ensures declines { IfErr result (λ told. HasNoCertificate bytes.now told ⊎ (told ≡ Told.NoMemory)) }
{
    let Some((end, start)) = split_input(bytes) else {
        return Err(Status::BadJournal(feeds(bytes) as u32 + 1));
    };
    match Journal::from_text(alloc, &bytes[..end]) {
        Ok(journal) => Ok(Certified {
            journal,
            text: &bytes[start..],
        }),
        Err(JournalFault::BadLine(line)) => Err(Status::BadJournal(line)),
        Err(JournalFault::NoMemory) => Err(Status::NoMemory),
    }
}

/// Splits the bytes in the same way, and copies the text.
pub(crate) fn take(alloc: Global, bytes: &[u8]) -> Result<CommandInput, Status>
    requires most { length bytes.now ≤ READ_LIMIT }
    ensures takes { IfOk result (λ taken. TakesCertificate bytes.now taken.front taken.text.items) }
    ensures small { IfOk result (λ taken. vec_len taken.text ≤ length bytes.now) }
    ensures declines { IfErr result (λ told. HasNoCertificate bytes.now told ⊎ (told ≡ Told.NoMemory)) }
{
    match read_certificate(alloc, bytes) {
        Ok(Certified { journal, text }) => match Vec::from_slice(alloc, text) {
            Ok(text) => Ok(CommandInput {
                front: Front::Journal(journal),
                text,
            }),
            Err(_) => Err(Status::NoMemory),
        },
        Err(told) => Err(told),
    }
}

/// Counts line feeds.
fn feeds(bytes: &[u8]) -> usize
    ensures value { result ≡ count_by (λ b. b == 10) bytes.now }
    ensures within { result ≤ length bytes.now }
{
    bytes.iter().filter(|b| **b == b'\n').count()
}

/// Returns the entries of the journal before a text; none if no journal stands there.
pub(crate) fn entries_before(front: &Front) -> &[Entry]
    ensures entries { result.now ≡ entries_before front.now }
    ensures fit { All IsFit result.now }
{
    match front {
        Front::Journal(journal) => journal.entries(),
        Front::Nothing | Front::Schedule(_) => &[],
    }
}

/// Judges the entries of a journal of a program: returns the lines that valid ones print, or the first that can't be made and why.
pub fn judge_journal(
    alloc: Global,
    code: &Arc<Code>,
    entries: &[Entry],
) -> Result<Settled, NoMemory>
    ensures { IfOk result (λ s. TellsOfJournal (program_of (arc_value code.now)) entries.now s.ahead.items s.own s.told) }
{
    match judge::<Fragment>(alloc, code, entries)? {
        Judged::Valid(output) => Ok(Settled {
            told: Status::Valid(entries.len() as u64),
            ahead: lines_of(alloc, &output)?,
            own: ReportPart::Nothing,
        }),
        Judged::Invalid(place, why) => Ok(told_alone(
            alloc,
            Status::Invalid(place),
            ReportPart::Unmade(why),
        )),
        Judged::Long(place) => Ok(told_alone(
            alloc,
            Status::LongJournal(place),
            ReportPart::Nothing,
        )),
        Judged::Tall(_) => Err(NoMemory),
    }
}

/// Judges the journal before a text by the text's program.
pub(crate) fn settle(alloc: Global, code: &Arc<Code>, front: &Front) -> Result<Settled, NoMemory>
    ensures { IfOk result (λ s. TellsOfJournal (program_of (arc_value code.now)) (entries_before front.now) s.ahead.items s.own s.told) }
{
    judge_journal(alloc, code, entries_before(front))
}
