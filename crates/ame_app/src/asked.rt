//! From a command and bytes to a job.

ghost use Rattle.std.specs.Prelude.{◌≡◌, ◌≢◌, ◌≤◌, IfOk, IfErr, List, None, Some, [], ℕ, map, string_bytes, vec_len};
ghost use Rattle.std.specs.Arc.{arc_value};
ghost use Rattle.ame_types.specs.Limits.{max_devices};
ghost use Rattle.ame_cli.specs.Items.{ArgWord};
ghost use Rattle.ame_cli.specs.Grammar.{SpellsCommand};
ghost use Rattle.ame_cli.specs.Ranges.{IsInRange};
ghost use Rattle.ame_app.specs.Alone.{command_of};
ghost use Rattle.ame_app.specs.Calls.{Call, what_is_given, call_of, IsCallOf, IsInput, Asks};
ghost use Rattle.ame_app.specs.Causes.{RefusalCause, IsRefusedWith};
ghost use Rattle.ame_app.specs.Jobs.{IsJobOf};
ghost use Rattle.ame_app.specs.Verbs.{reads_source};
ghost use Rattle.ame_app.specs.declared.parts.ReportPart.{ReportPart};
ghost use Rattle.ame_app.specs.declared.status.Status.{Status as Told};

use crate::alone::Alone;
use crate::code::code_of;
use crate::refusal::Refusal;
use crate::status::Status;
use crate::verbs::{CommandInput, Job, reads_source, take};
use ame_cli::{Command, read_words, spells_one_command};
use ame_io::{READ_LIMIT, Source, read_all};
use std::alloc::Global;

/// A job, and the text of its program.
#[derive(Drop)]
pub(crate) struct Asked {
    pub(crate) job: Job,
    pub(crate) text: Vec<u8>,
}

/// Returns the job for which words and their source ask, or why there is none.
pub(crate) fn asked_by_words<S: Source>(
    alloc: Global,
    words: &[String],
    source: &mut S,
    devices: u32,
) -> Result<Asked, Refusal>
    requires few { devices ≤ max_devices }
    ensures job { IfOk result (λ asked. IsJobOf (call_of (map string_bytes words.now)
        (what_is_given S.left S.faults source.old) (what_is_given S.left S.faults source.new) devices)
        asked.text.items (arc_value asked.job.code) asked.job.command asked.job.front) }
    ensures devices { IfOk result (λ asked. (arc_value asked.job.code).accepted.devices ≡ devices) }
    ensures ranges { IfOk result (λ asked. IsInRange asked.job.command) }
    ensures refused { IfErr result (λ refusal. IsRefusedWith (call_of (map string_bytes words.now)
        (what_is_given S.left S.faults source.old) (what_is_given S.left S.faults source.new) devices)
        refusal.text.items refusal.command refusal.told) }
{
    spells_one_command();
    let command = match read_words(alloc, words) {
        Ok(command) => command,
        Err(fail) => return Err(Refusal::without_text(alloc, None, Status::from(fail))),
    };
    match taken_of(alloc, &command, source) {
        Ok(taken) => job_of(alloc, command, taken, devices),
        Err(told) => Err(Refusal::without_text(alloc, Some(command), told)),
    }
}

/// Returns the job of a command and the bytes that it is given, or why there is none.
pub(crate) fn asked_of(
    alloc: Global,
    command: Alone,
    bytes: &[u8],
    devices: u32,
) -> Result<Asked, Refusal>
    requires ranges { IsInRange (command_of command) }
    requires few { devices ≤ max_devices }
    ensures job { IfOk result (λ asked. (call : Call) → IsCallOf call (command_of command) bytes.now devices
        → IsJobOf call asked.text.items (arc_value asked.job.code) asked.job.command asked.job.front) }
    ensures devices { IfOk result (λ asked. (arc_value asked.job.code).accepted.devices ≡ devices) }
    ensures ranges { IfOk result (λ asked. IsInRange asked.job.command) }
    ensures refused { IfErr result (λ refusal. (call : Call) → IsCallOf call (command_of command) bytes.now devices
        → IsRefusedWith call refusal.text.items refusal.command refusal.told) }
    ensures other { IfErr result (λ refusal. refusal.told ≢ Told.WriteFault) }
{
    match taken_from(alloc, command, bytes) {
        Ok(taken) => job_of(alloc, command.command(), taken, devices),
        Err(told) => Err(Refusal::without_text(alloc, Some(command.command()), told)),
    }
}

/// Returns the job of a command and what it takes, or why there is no code.
fn job_of(
    alloc: Global,
    command: Command,
    taken: CommandInput,
    devices: u32,
) -> Result<Asked, Refusal>
    requires ranges { IsInRange command }
    requires small { vec_len taken.text ≤ READ_LIMIT }
    requires few { devices ≤ max_devices }
    ensures job { IfOk result (λ asked. (call : Call) → Asks call command taken.front taken.text.items → call.devices ≡ devices
        → IsJobOf call asked.text.items (arc_value asked.job.code) asked.job.command asked.job.front) }
    ensures devices { IfOk result (λ asked. (arc_value asked.job.code).accepted.devices ≡ devices) }
    ensures ranges { IfOk result (λ asked. IsInRange asked.job.command) }
    ensures refused { IfErr result (λ refusal. (call : Call) → Asks call command taken.front taken.text.items → call.devices ≡ devices
        → IsRefusedWith call refusal.text.items refusal.command refusal.told) }
    ensures other { IfErr result (λ refusal. refusal.told ≢ Told.WriteFault) }
{
    spells_one_command();
    let CommandInput { front, text } = taken;
    match code_of(alloc, &text, devices) {
        Ok(code) => {
            let job = Job {
                code,
                command,
                front,
            };
            Ok(Asked { job, text })
        }
        Err(told) => Err(Refusal {
            command: Some(command),
            told,
            text,
        }),
    }
}

/// Returns the front and the text that a command takes of its source, or why there are none.
fn taken_of<S: Source>(
    alloc: Global,
    command: &Command,
    source: &mut S,
) -> Result<CommandInput, Status>
    requires ranges { IsInRange command.now }
    ensures asks { IfOk result (λ taken. (words : List ArgWord) (devices : ℕ) → SpellsCommand words command.now
        → Asks (call_of words (what_is_given S.left S.faults source.old) (what_is_given S.left S.faults source.new) devices) command.now taken.front taken.text.items) }
    ensures small { IfOk result (λ taken. vec_len taken.text ≤ READ_LIMIT) }
    ensures refused { IfErr result (λ status. (words : List ArgWord) (devices : ℕ) → SpellsCommand words command.now
        → RefusalCause (call_of words (what_is_given S.left S.faults source.old) (what_is_given S.left S.faults source.new) devices) [] [] ReportPart.Nothing status) }
{
    spells_one_command();
    let bytes = bytes_of(alloc, command, source)?;
    take(alloc, command, bytes)
}

/// Returns all bytes of the source, if the command reads it.
fn bytes_of<S: Source>(alloc: Global, command: &Command, source: &mut S) -> Result<Vec<u8>, Status>
    ensures input { IfOk result (λ bytes. IsInput (reads_source command.now) (what_is_given S.left S.faults source.old)
        (what_is_given S.left S.faults source.new) bytes.items) }
    ensures most { IfOk result (λ bytes. vec_len bytes ≤ READ_LIMIT) }
    ensures refused { IfErr result (λ status. (words : List ArgWord) (devices : ℕ) → SpellsCommand words command.now
        → RefusalCause (call_of words (what_is_given S.left S.faults source.old) (what_is_given S.left S.faults source.new) devices) [] [] ReportPart.Nothing status) }
{
    spells_one_command();
    if reads_source(command) {
        Ok(read_all(alloc, source)?)
    } else {
        Ok(Vec::new(alloc))
    }
}

/// Returns the front and the text that a command takes of bytes in memory, or why there are none.
fn taken_from(alloc: Global, command: Alone, bytes: &[u8]) -> Result<CommandInput, Status>
    requires ranges { IsInRange (command_of command) }
    ensures asks { IfOk result (λ taken. (call : Call) (devices : ℕ) → IsCallOf call (command_of command) bytes.now devices
        → Asks call (command_of command) taken.front taken.text.items) }
    ensures small { IfOk result (λ taken. vec_len taken.text ≤ READ_LIMIT) }
    ensures refused { IfErr result (λ status. (call : Call) (devices : ℕ) → IsCallOf call (command_of command) bytes.now devices
        → RefusalCause call [] [] ReportPart.Nothing status) }
    ensures other { IfErr result (λ status. status ≢ Told.WriteFault) }
{
    spells_one_command();
    if bytes.len() > READ_LIMIT {
        return Err(Status::TooLong);
    }
    let Ok(bytes) = Vec::from_slice(alloc, bytes) else {
        return Err(Status::NoMemory);
    };
    take(alloc, &command.command(), bytes)
}
