//! Writing a whole text.
ghost use Rattle.std.specs.Prelude.{◌≡◌, ◌<◌, length, IfErr, OnOk, OnErr};
ghost use Rattle.std.specs.Io.KnownBytes.{Appends};
ghost use Rattle.ame_io.specs.Counts.{HasRisen};
ghost use Rattle.ame_io.specs.Writes.{AppendsFirst, AppendsFront};

use crate::ends::{Failed, Sink};

/// A sink failed after it took the first `gone` bytes.
#[derive(Clone, Copy, Debug, PartialEq, Eq)]
pub struct WriteFault {
    pub gone: usize,
}

/// Writes all the bytes, by as many writes as the sink needs. It takes no memory.
pub fn write_all<K: Sink>(sink: &mut K, bytes: &[u8]) -> Result<(), WriteFault>
    ensures whole { OnOk result (Appends (K.written sink.old) (K.written sink.new) bytes.now) }
    ensures stayed { OnOk result (K.faults sink.new ≡ K.faults sink.old) }

    // It fails only if the sink does.
    ensures gone { IfErr result (λ e. AppendsFirst e.gone (K.written sink.old) (K.written sink.new) bytes.now) }
    ensures front { OnErr result (AppendsFront (K.written sink.old) (K.written sink.new) bytes.now) }
    ensures short { IfErr result (λ e. e.gone < length bytes.now) }
    ensures risen { OnErr result (HasRisen (K.faults sink.old) (K.faults sink.new)) }
{
    let mut gone = 0;
    'writes: while gone < bytes.len() {
        match sink.write(&bytes[gone..]) {
            Ok(n) => gone += n,
            Err(Failed) => return Err(WriteFault { gone }),
        }
    }
    Ok(())
}
