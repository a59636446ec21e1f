//! The exit status of a process.

ghost use Rattle.std.specs.Prelude.{◌≡◌};
ghost use Rattle.std.specs.Process.{exit_status};
ghost use Rattle.ame_app.specs.Verdict.{number_of};

use crate::report::Report;
use std::mem;
use std::process::ExitCode;

/// Makes the exit status with this number.
pub fn exit_with(number: u8) -> ExitCode
    ensures { exit_status result ≡ number }
{
    ExitCode::from(number)
}

/// Returns the number of a report's status as an exit status. Only the end of the process frees the rest of the report.
pub fn exit_of<K: Drop, D: Drop>(report: Report<K, D>) -> ExitCode
    ensures { exit_status result ≡ number_of report.status }
{
    let number = report.status.number();
    mem::forget(report);
    exit_with(number)
}
