//! Laws of each call. A law is a fact for proofs, and does nothing.
ghost use Rattle.std.specs.Prelude.{◌≡◌, ℕ, ℤ, List, Err};
ghost use Rattle.ame_device.specs.declared.fault.DeviceFail.{DeviceFail};
ghost use Rattle.ame_device.specs.declared.told.Told.{Told};
ghost use Rattle.ame_device.specs.Calls.{CallsOne};

/// Says that a call that ran out of memory leaves the whole list as it was, so the same call may be made again.
pub fn want_of_memory_leaves_the_list()
    ensures { (before after : List Told) (k : ℕ) (argument : ℤ)
        → CallsOne before k argument (Err DeviceFail.NoMemory) after → after ≡ before }
{}
