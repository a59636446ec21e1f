//! A member goes on under `unprotected`.

ghost use Rattle.std.specs.Prelude.{◌≡◌, ℕ, Some, IfOk, length};
ghost use Rattle.ame_device.specs.Calls.{all_told};
ghost use Rattle.ame_strong.specs.Next.{next_of};
ghost use Rattle.ame_weak.specs.Weak.{Weak};
ghost use Rattle.ame_weak.specs.View.{weak_of};
ghost use Rattle.ame_runner.specs.Freeing.{HasFreed, IsOwnOf};

use crate::trial::kind_of;
use ame_device::{Device, DeviceFail, call_device};
use ame_strong::Next;
use ame_term::{Label, Loc, NoMemory, StepKind};
use ame_weak::WeakState;

/// The outcome of a step under `unprotected`.
#[derive(Clone, Copy, PartialEq, Eq, Debug)]
pub enum FreeStep {
    /// It makes this label.
    Label(Label),
    /// It calls this device, which fails.
    Fault(u8),
}

/// Returns the label that a member makes next under `unprotected`, with `above` as a new location. If the member calls a
/// device, this calls the device. Returns out of memory if the member has no such label or the device doesn't exist.
pub fn next_free<D: Device>(
    state: &WeakState,
    above: Loc,
    number: u64,
    devices: &mut Vec<D>,
) -> Result<FreeStep, NoMemory>
    ensures own { IfOk result (IsOwnOf number) }
    ensures count { length devices.new.items ≡ length devices.old.items }
    ensures freed { IfOk result (HasFreed (weak_of state.now) number above.0 (all_told D.device_told devices.old.items)
        (all_told D.device_told devices.new.items)) }
{
    match state.next_of(Some(number)) {
        Next::Close => Ok(FreeStep::Label(Label::Close(number))),
        Next::Device(device, argument) => call_for(devices, number, device, argument),
        next => match kind_of(next, above) {
            Some(kind) => Ok(FreeStep::Label(Label::Free(number, kind))),
            None => Err(NoMemory),
        },
    }
}

/// Calls a device for a member.
fn call_for<D: Device>(
    devices: &mut Vec<D>,
    number: u64,
    device: u8,
    argument: i64,
) -> Result<FreeStep, NoMemory>
    ensures own { IfOk result (IsOwnOf number) }
    ensures count { length devices.new.items ≡ length devices.old.items }
    ensures freed { IfOk result (λ freed. (w : Weak) (above : ℕ) → next_of w.state (Some number) ≡ Next.Device device argument
        → HasFreed w number above (all_told D.device_told devices.old.items)
        (all_told D.device_told devices.new.items) freed) }
{
    let place = usize::from(device);
    if place >= devices.len() {
        return Err(NoMemory);
    }
    match call_device(devices, place, argument) {
        Ok(answer) => Ok(FreeStep::Label(Label::Free(number, StepKind::Device(answer)))),
        Err(DeviceFail::Failed) => Ok(FreeStep::Fault(device)),
        Err(DeviceFail::NoMemory) => Err(NoMemory),
    }
}
