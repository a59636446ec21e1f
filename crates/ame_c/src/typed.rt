//! Checking the types of a text.

ghost use Rattle.std.specs.Prelude.{IfErr, OnOk};
ghost use Rattle.ame_app.specs.Texts.{IsAcceptedText};
ghost use Rattle.ame_c.specs.Devices.{device_count};
ghost use Rattle.ame_c.specs.Typed.{IsNotAccepted};

use crate::checked::DEVICES;
use ame_app::{Status, code_of};
use ame_io::READ_LIMIT;
use std::alloc::Global;

/// Succeeds if a text is a program that the types accept, and otherwise returns why not.
pub(crate) fn typed(alloc: Global, text: &[u8]) -> Result<(), Status>
    ensures accepted { OnOk result (IsAcceptedText text.now device_count) }
    ensures refused { IfErr result (IsNotAccepted text.now) }
{
    if text.len() > READ_LIMIT {
        return Err(Status::TooLong);
    }
    match code_of(alloc, text, DEVICES) {
        Ok(_) => Ok(()),
        Err(told) => Err(told),
    }
}
