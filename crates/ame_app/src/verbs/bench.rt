//! `bench`: a text that is generated.

ghost use Rattle.std.specs.Prelude.{◌≡◌, ◌<◌, IfOk, IfErr, vec_len};
ghost use Rattle.ame_cli.specs.Ranges.{IsInBounds};
ghost use Rattle.ame_cli.specs.Verbs.{seeds, sizes};
ghost use Rattle.ame_app.specs.Verbs.Bench.{TakesGenerated};
ghost use Rattle.ame_app.specs.declared.status.Status.{Status as Told};

use crate::parts::Front;
use crate::status::Status;
use crate::verbs::CommandInput;
use ame_gen::generate;
use std::alloc::Global;

/// Generates the text of a seed and a size. No source is read.
pub(crate) fn take(alloc: Global, seed: u32, size: u32) -> Result<CommandInput, Status>
    requires seed { IsInBounds seeds seed }
    requires size { IsInBounds sizes size }
    ensures takes { IfOk result (λ taken. TakesGenerated seed size taken.front taken.text.items) }
    ensures small { IfOk result (λ taken. vec_len taken.text < 600000) }
    ensures memory { IfErr result (λ told. told ≡ Told.NoMemory) }
{
    match generate(alloc, seed, size) {
        Ok(text) => Ok(CommandInput {
            front: Front::Nothing,
            text,
        }),
        Err(_) => Err(Status::NoMemory),
    }
}
