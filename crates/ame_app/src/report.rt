//! The report of a call.

use crate::parts::ReportPart;
use crate::run_result::Ran;
use crate::status::Status;
use ame_cli::Command;
use ame_journal::{Certificate, Entry};

/// The end of a call: its status, text, command and run, with the sink and the devices that were handed in.
#[derive(Drop)]
pub struct Report<K, D> {
    pub status: Status,
    /// The text of the program; the places of a status are offsets in it. It is empty if none was read or generated.
    pub text: Vec<u8>,
    /// The command that the words spell, with its limits.
    pub command: Option<Command>,
    /// The run, if one was begun.
    pub run: Option<Ran>,
    /// The part that the command adds if no run was begun.
    pub own: ReportPart,
    pub sink: K,
    pub devices: Vec<D>,
}

impl<K, D> Report<K, D> {
    ghost use Rattle.std.specs.Prelude.{◌≡◌, ◌≢◌, ℕ, [], IfSome, None};
    ghost use Rattle.ame_app.specs.declared.status.Status.{Status};
    ghost use Rattle.ame_app.specs.Verdict.{number_of};
    ghost use Rattle.ame_app.specs.RunResult.{end_in};

    /// Returns the number of the status, which is the exit status of a process. Drops the rest.
    pub fn into_number(self) -> u8
    where
        K: Drop,
        D: Drop,
        ensures { result ≡ number_of self.status }
    {
        self.status.number()
    }

    /// Returns a certificate for each member that is left, in order of their numbers, if all are blocked.
    pub fn blocked(&self) -> &[Certificate]
        ensures blocked { (members : ℕ) → self.now.status ≡ Status.Blocked members → IfSome self.now.run (λ run. result.now ≡ (end_in run.left).certificates) }
        ensures other { ((members : ℕ) → self.now.status ≢ Status.Blocked members) → result.now ≡ [] }
        ensures none { self.now.run ≡ None → result.now ≡ [] }
    {
        match (&self.status, &self.run) {
            (Status::Blocked(_), Some(run)) => run.left.certificates(),
            _ => &[],
        }
    }

    /// Returns the entries from which the run went on; none if no run was begun.
    pub fn base(&self) -> &[Entry]
        ensures ran { IfSome self.now.run (λ run. result.now ≡ (end_in run.left).base) }
        ensures none { self.now.run ≡ None → result.now ≡ [] }
    {
        match &self.run {
            Some(run) => run.left.base(),
            None => &[],
        }
    }

    /// Returns the entries of the run after those from which it went on; none if no run was begun.
    pub fn journal(&self) -> &[Entry]
        ensures ran { IfSome self.now.run (λ run. result.now ≡ (end_in run.left).entries) }
        ensures none { self.now.run ≡ None → result.now ≡ [] }
    {
        match &self.run {
            Some(run) => run.left.journal(),
            None => &[],
        }
    }

    /// Returns the number of turns of the run; 0 if no run was begun.
    pub fn turns(&self) -> u32
        ensures ran { IfSome self.now.run (λ run. result ≡ (end_in run.left).turns) }
        ensures none { self.now.run ≡ None → result ≡ 0 }
    {
        match &self.run {
            Some(run) => run.left.turns(),
            None => 0,
        }
    }
}
