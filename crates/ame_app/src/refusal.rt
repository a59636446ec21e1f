//! Calls in which no run was begun.

ghost use Rattle.std.specs.Prelude.{◌≡◌, ◌≢◌, [], None};
ghost use Rattle.ame_shell.specs.Ends.{ends_of};
ghost use Rattle.ame_app.specs.Headline.{IsToldAlone};
ghost use Rattle.ame_app.specs.Reported.{reported};

use crate::parts::ReportPart;
use crate::report::Report;
use crate::speak::speak_behind;
use crate::status::Status;
use ame_cli::Command;
use ame_device::Device;
use ame_io::Sink;
use ame_shell::Io;
use std::alloc::Global;

/// A call in which no run was begun: the command, if the words spell one, the status, and the text that was taken.
#[derive(Drop)]
pub(crate) struct Refusal {
    pub(crate) command: Option<Command>,
    pub(crate) told: Status,
    pub(crate) text: Vec<u8>,
}

impl Refusal {
    /// Returns a refusal before any text was taken.
    pub(crate) fn without_text(alloc: Global, command: Option<Command>, told: Status) -> Refusal
        ensures command { result.command ≡ command }
        ensures told { result.told ≡ told }
        ensures text { result.text.items ≡ [] }
    {
        Refusal {
            command,
            told,
            text: Vec::new(alloc),
        }
    }
}

/// Reports why no run was begun.
pub(crate) fn turn_away<K: Sink + Drop, D: Device>(
    refusal: Refusal,
    sink: K,
    devices: Vec<D>,
) -> Report<K, D>
    requires other { refusal.told ≢ Status.WriteFault }
    ensures text { result.text ≡ refusal.text }
    ensures command { result.command ≡ refusal.command }
    ensures run { result.run ≡ None }
    ensures devices { result.devices ≡ devices }
    ensures alone { IsToldAlone [] ReportPart.Nothing refusal.told (reported result)
        (ends_of K.written K.faults D.device_told sink devices.items)
        (ends_of K.written K.faults D.device_told result.sink result.devices.items) }
{
    tell(&[], ReportPart::Nothing, refusal, sink, devices)
}

/// Writes some bytes and the verdict line, and reports why no run was begun, with what the command has of its own.
fn tell<K: Sink + Drop, D: Device>(
    ahead: &[u8],
    own: ReportPart,
    refusal: Refusal,
    sink: K,
    devices: Vec<D>,
) -> Report<K, D>
    requires other { refusal.told ≢ Status.WriteFault }
    ensures text { result.text ≡ refusal.text }
    ensures command { result.command ≡ refusal.command }
    ensures run { result.run ≡ None }
    ensures devices { result.devices ≡ devices }
    ensures alone { IsToldAlone ahead.now own refusal.told (reported result)
        (ends_of K.written K.faults D.device_told sink devices.items)
        (ends_of K.written K.faults D.device_told result.sink result.devices.items) }
{
    let Refusal {
        command,
        told,
        text,
    } = refusal;
    let mut sink = sink;
    let status = speak_behind(&mut sink, ahead, told);
    Report {
        status,
        text,
        command,
        run: None,
        own,
        sink,
        devices,
    }
}

/// Writes and reports that with a sink and devices that are one value.
pub(crate) fn turn_back<K: Sink + Drop, D: Device>(
    ahead: &[u8],
    own: ReportPart,
    refusal: Refusal,
    io: Io<K, D>,
) -> Report<K, D>
    requires other { refusal.told ≢ Status.WriteFault }
    ensures text { result.text ≡ refusal.text }
    ensures command { result.command ≡ refusal.command }
    ensures run { result.run ≡ None }
    ensures alone { IsToldAlone ahead.now own refusal.told (reported result) io.ends
        (ends_of K.written K.faults D.device_told result.sink result.devices.items) }
{
    let (sink, devices) = io.into_parts();
    tell(ahead, own, refusal, sink, devices)
}
