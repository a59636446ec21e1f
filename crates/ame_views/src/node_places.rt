//! The places of the forms of nodes in a program's text.

ghost use Rattle.std.specs.Prelude.{◌≡◌, ◌<◌, IfSome, length, slice_get};
ghost use Rattle.ame_code.specs.Code.{program_of};
ghost use Rattle.ame_code.specs.ReadNumbers.{read_numbers};
ghost use Rattle.ame_eval.specs.Fragments.{stage_of, IsFragmentOf};
ghost use Rattle.ame_eval.specs.Places.{fragment_node, StandsAtForm};
ghost use Rattle.ame_views.specs.NodePlaces as spec;
ghost use Rattle.ame_why.specs.Position.{position};

use crate::line_index::LineIndex;
use ame_code::{Code, NodeNo};
use ame_eval::Fragment;
use ame_why::Position;

/// Returns a number of a list by its place.
fn number_at(numbers: &[u32], place: u32) -> Option<u32>
    ensures { result ≡ slice_get numbers.now place }
{
    if (place as usize) < numbers.len() {
        Some(numbers[place as usize])
    } else {
        None
    }
}

/// Returns the place of the form of a node, by the numbers of nodes in reading order.
pub(crate) fn node_place(code: &Code, numbers: &[u32], node: NodeNo) -> Option<u32>
    requires { numbers.now ≡ read_numbers 0 (program_of code.now) }
    ensures { result ≡ spec.node_place code.now node.0 }
{
    let number = number_at(numbers, node.0)?;
    number_at(code.accepted().program.places.as_slice(), number)
}

/// Returns the line and the column of a place, if it is in the text.
pub(crate) fn position_in(lines: &LineIndex, place: u32) -> Option<Position>
    ensures there { IfSome result (λ there. there ≡ position lines.now.text.now place) }
    ensures outside { result ≡ None → length lines.now.text.now < place }
{
    if place as usize <= lines.text.len() {
        Some(lines.position(place as usize))
    } else {
        None
    }
}

/// Returns the place of the form that a fragment has come to, if there is one.
pub(crate) fn standing_position(
    lines: &LineIndex,
    code: &Code,
    numbers: &[u32],
    fragment: &Fragment,
) -> Option<Position>
    requires { numbers.now ≡ read_numbers 0 (program_of code.now) }
    ensures there { spec.ShowsPlace lines.now.text.now code.now fragment.now result }
    ensures form { IsFragmentOf code.now fragment.now → StandsAtForm code.now (stage_of code.now fragment.now).want (fragment_node fragment.now) }
{
    let node = fragment.place();
    let place = node_place(code, numbers, node?)?;
    position_in(lines, place)
}
