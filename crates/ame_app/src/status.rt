//! The status of a call.

ghost use Rattle.std.specs.Prelude.{◌≡◌};
ghost use Rattle.ame_app.specs.Verdict.{number_of, verdict};
ghost use Rattle.ame_app.specs.Causes.{status_at, status_of};
ghost use Rattle.ame_app.specs.RunResult.{end_in};

use crate::fault::TextFault;
use crate::run_result::RunResult;
use crate::verdict::{device_failed, ill_typed, numbered, plain, refused};
use ame_engine::Stop;
use ame_io::Line;
use ame_journal::Certificate;
use ame_types::TypeFault;

/// The status of a call.
#[derive(Drop)]
pub enum Status {
    /// No member is left.
    Finished,
    /// This number of members are left, and the condition of each is false.
    Blocked(u64),
    /// All turns are used up, and members are left.
    Spent,
    /// The words aren't those of a call.
    Usage,
    ReadFault,
    /// The source has more than `READ_LIMIT` bytes.
    TooLong,
    /// The text is no program.
    Text(TextFault),
    Types(TypeFault),
    WriteFault,
    /// This device failed.
    DeviceFault(u8),
    NoMemory,
    /// The member with this number came to a value that is nested too deeply.
    Tall(u64),
    /// The source doesn't begin with a schedule and the line `program`.
    BadSchedule,
    /// The certificate is that of a run, with this number of entries.
    Valid(u64),
    /// This entry of the certificate, from 1, is the first that can't be made.
    Invalid(u64),
    /// This line of the journal, from 1, is the first that spells no entry. If no line is `program`, it is the line after the last line feed.
    BadJournal(u32),
    /// With this entry of the journal, from 1, its steps and entries exceed what is judged.
    LongJournal(u64),
    /// This entry of the journal without its notes, from 1, is the first with a location that is too far for a run to go on.
    FarJournal(u64),
    /// This entry of the journal without its notes, from 1, passes a form whose value would be nested too deeply.
    TallJournal(u64),
}

impl Status {
    /// Returns the exit status of the process.
    pub fn number(&self) -> u8
        ensures { result ≡ number_of self.now }
    {
        match self {
            Status::Finished => 0,
            Status::Blocked(_) => 1,
            Status::Spent => 2,
            Status::Usage => 3,
            Status::ReadFault => 4,
            Status::TooLong | Status::Text(_) => 5,
            Status::Types(_) => 6,
            Status::WriteFault => 7,
            Status::DeviceFault(_) => 8,
            Status::NoMemory => 9,
            Status::Tall(_) => 10,
            Status::Valid(_) => 11,
            Status::Invalid(_) => 12,
            Status::BadJournal(_) => 13,
            Status::LongJournal(_) => 14,
            Status::FarJournal(_) => 15,
            Status::TallJournal(_) => 16,
            Status::BadSchedule => 17,
        }
    }

    /// Returns the verdict line, with its line feed. It is empty after a write fault.
    pub fn line(&self) -> Line
        ensures { result.bytes ≡ verdict self.now }
    {
        match self {
            Status::Finished => plain("finished"),
            Status::Blocked(members) => numbered("blocked ", *members),
            Status::Spent => plain("spent"),
            Status::Usage => plain("usage"),
            Status::ReadFault => plain("read fault"),
            Status::TooLong => plain("refused: too long"),
            Status::Text(fault) => refused(fault),
            Status::Types(fault) => ill_typed(fault),
            Status::WriteFault => Line::new(),
            Status::DeviceFault(device) => device_failed(*device),
            Status::NoMemory => plain("no memory"),
            Status::Tall(member) => numbered("tall ", *member),
            Status::BadSchedule => plain("bad schedule"),
            Status::Valid(entries) => numbered("valid ", *entries),
            Status::Invalid(entry) => numbered("invalid at ", *entry),
            Status::BadJournal(line) => numbered("bad journal at ", u64::from(*line)),
            Status::LongJournal(entry) => numbered("long journal at ", *entry),
            Status::FarJournal(entry) => numbered("far journal at ", *entry),
            Status::TallJournal(entry) => numbered("tall journal at ", *entry),
        }
    }

    /// Returns the status of a finished run.
    pub(crate) fn of(left: &RunResult) -> Status
        ensures { result ≡ status_of (end_in left.now) }
    {
        Status::at(left.stopped(), left.certificates())
    }

    /// Returns the status of a stop, given the certificates of blocked members.
    fn at(stop: Option<Stop>, certificates: &[Certificate]) -> Status
        ensures { result ≡ status_at stop certificates.now }
    {
        match stop {
            Some(Stop::Finished) => Status::Finished,
            Some(Stop::Blocked) => Status::Blocked(certificates.len() as u64),
            Some(Stop::Spent) => Status::Spent,
            Some(Stop::Tall(member)) => Status::Tall(member),
            Some(Stop::WriteFault) => Status::WriteFault,
            Some(Stop::DeviceFault(device)) => Status::DeviceFault(device),
            Some(Stop::NoMemory) | None => Status::NoMemory,
        }
    }
}
