//! The limits of an engine.

ghost use Rattle.std.specs.Prelude.{◌≡◌};
ghost use Rattle.ame_app.specs.Headline.{limits_of};

use ame_cli::Options;
use ame_protocol::Limits;

/// Returns the limits that options ask for.
pub(crate) fn limits_of(options: Options) -> Limits
    ensures { result ≡ limits_of options }
{
    Limits {
        turns: options.turns,
        slice: options.slice,
        seats: options.workers,
    }
}
