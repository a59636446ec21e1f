//! The work in flight of seats.

ghost use Rattle.std.specs.Prelude.{◌≡◌, IfOk, replicate};
ghost use Rattle.ame_shell.specs.declared.work.Work.TheVariants as work;

use ame_shell::Work;
use ame_term::NoMemory;
use std::alloc::Global;

/// Returns the work of this number of idle seats.
pub(crate) fn idle_hands<M: Drop>(alloc: Global, seats: u32) -> Result<Vec<Work<M>>, NoMemory>
    ensures { IfOk result (λ hands. hands.items ≡ replicate seats work.Idle) }
{
    let mut hands = Vec::new(alloc);
    for _ in 0..seats {
        hands.push(Work::Idle)?;
    }
    Ok(hands)
}
