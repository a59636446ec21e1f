//! The locations of labels.

ghost use Rattle.std.specs.Prelude.{◌≡◌, option_map};
ghost use Rattle.ame_runner.specs.Labels.{label_location};

use ame_term::{Label, Loc, StepKind};

/// Returns the location that a label makes, if it makes one.
pub(crate) fn label_location(label: Label) -> Option<Loc>
    ensures { option_map (λ l. l.0) result ≡ label_location label }
{
    match label {
        Label::Step(StepKind::Alloc(l)) | Label::Free(_, StepKind::Alloc(l)) => Some(l),
        _ => None,
    }
}
