//! The sink of a run and its devices.

ghost use Rattle.std.specs.Prelude.{◌≡◌, ◌<◌, length, IfErr, OnOk, OnErr};
ghost use Rattle.std.specs.Io.KnownBytes.{Appends};
ghost use Rattle.ame_io.specs.Counts.{HasRisen};
ghost use Rattle.ame_io.specs.Writes.{AppendsFirst};
ghost use Rattle.ame_shell.specs.Ends.{IoView, io_of};

use ame_device::Device;
use ame_io::{Sink, WriteFault, write_all};
use std::marker::Model;

/// The sink of a run and its devices. Contracts see both as they are, and what they show.
#[derive(Drop)]
pub struct Io<K: Sink, D: Device> {
    pub sink: K,
    pub devices: Vec<D>,
}

impl<K: Sink, D: Device> Model for Io<K, D> {
    ghost Value = { IoView K D };

    ghost view = { λ io. io_of K.written K.faults D.device_told io.sink io.devices.items };
}

impl<K: Sink, D: Device> Io<K, D> {
    /// Joins a sink and devices.
    pub fn new(sink: K, devices: Vec<D>) -> Io<K, D>
        ensures { result ≡ io_of K.written K.faults D.device_told sink devices.items }
    {
        Io { sink, devices }
    }

    /// Takes sink and devices apart.
    pub fn into_parts(self) -> (K, Vec<D>)
        ensures { io_of K.written K.faults D.device_told result.0 result.1.items ≡ self }
    {
        let Io { sink, devices } = self;
        (sink, devices)
    }

    /// Writes a whole text to the sink. Takes no memory.
    pub fn write_all(&mut self, text: &[u8]) -> Result<(), WriteFault>
        ensures whole { OnOk result (Appends self.old.ends.written self.new.ends.written text.now) }
        ensures stayed { OnOk result (self.new.ends.write_faults ≡ self.old.ends.write_faults) }
        ensures gone { IfErr result (λ e. AppendsFirst e.gone self.old.ends.written self.new.ends.written text.now) }
        ensures short { IfErr result (λ e. e.gone < length text.now) }
        ensures risen { OnErr result (HasRisen self.old.ends.write_faults self.new.ends.write_faults) }
        ensures devices { self.new.devices ≡ self.old.devices }
        ensures told { self.new.ends.told ≡ self.old.ends.told }
    {
        write_all(&mut self.sink, text)
    }
}
