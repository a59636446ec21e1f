//! Judging certificates.

ghost use Rattle.std.specs.Prelude.{IfOk, IfErr};
ghost use Rattle.ame_c.specs.Checked.{IsJudgedAs, IsUnjudged, TellsAhead, TellsLines};
ghost use Rattle.ame_c.specs.Out.{bytes_in};

use crate::lines::Lines;
use ame_app::{ReportPart, Settled, Status, code_of, judge_journal, read_certificate};
use ame_io::READ_LIMIT;
use std::alloc::Global;

/// The number of devices that a program may call: those of a process.
pub(crate) const DEVICES: u32 = 2;

/// The status of a certificate, and all lines.
#[derive(Drop)]
pub(crate) struct Answer {
    pub(crate) told: Status,
    pub(crate) lines: Lines,
}

/// Judges the bytes of a certificate, or returns the status for which nothing is judged.
fn judged(alloc: Global, bytes: &[u8]) -> Result<Settled, Status>
    ensures judged { IfOk result (λ s. IsJudgedAs bytes.now s.ahead.items s.told) }
    ensures refused { IfErr result (IsUnjudged bytes.now) }
{
    if bytes.len() > READ_LIMIT {
        return Err(Status::TooLong);
    }
    let certificate = read_certificate(alloc, bytes)?;
    let code = code_of(alloc, certificate.text, DEVICES)?;
    match judge_journal(alloc, &code, certificate.journal.entries()) {
        Ok(settled) => Ok(settled),
        Err(_) => Err(Status::NoMemory),
    }
}

/// Judges the bytes of a certificate; nothing stands before the last line if nothing is judged.
fn told_of(alloc: Global, bytes: &[u8]) -> Settled
    ensures { TellsAhead bytes.now result.ahead.items result.told }
{
    match judged(alloc, bytes) {
        Ok(settled) => settled,
        Err(told) => Settled {
            told,
            ahead: Vec::new(alloc),
            own: ReportPart::Nothing,
        },
    }
}

/// Judges the bytes of a certificate, and returns the status with all lines.
pub(crate) fn answer_of(alloc: Global, bytes: &[u8]) -> Answer
    ensures { TellsLines bytes.now result.told (bytes_in result.lines) }
{
    let Settled {
        told,
        ahead,
        own: _,
    } = told_of(alloc, bytes);
    let mut lines = ahead;
    match lines.extend_from_slice(told.line().as_str().as_bytes()) {
        Ok(()) => Answer {
            told,
            lines: Lines::Many(lines),
        },
        Err(_) => Answer {
            told: Status::NoMemory,
            lines: Lines::of(&Status::NoMemory),
        },
    }
}
