//! A place as a person finds it, with a message below it.

ghost use Rattle.std.specs.Prelude.{◌≡◌, ◌++◌, ◌≤◌, length, IfOk};
ghost use Rattle.ame_why.specs.Placed as spec;

use crate::caret::excerpt;
use crate::position::position_of;
use ame_page::Page;
use ame_term::NoMemory;
use std::alloc::Global;

/// Returns the line and the column of a place, and the line itself with a caret below it.
#[tactic(auto, unfolding(crate::specs::Placed::placed_text))]
fn place_of(alloc: Global, text: &[u8], place: usize) -> Result<Vec<u8>, NoMemory>
    requires { place ≤ length text.now }
    ensures { IfOk result (λ page. page.items ≡ spec.placed_text text.now place) }
{
    let position = position_of(text, place);
    let excerpt = excerpt(alloc, text, place)?;
    let mut page = Page::new(alloc);
    page.add(b"line ")?;
    page.add_number(position.line as u64)?;
    page.add(b", column ")?;
    page.add_number(position.column as u64)?;
    page.add(b":\n")?;
    page.add(&excerpt)?;
    Ok(page.into_bytes())
}

/// Returns a place of a text with its line, and a message below it.
pub(crate) fn explained(
    alloc: Global,
    text: &[u8],
    place: usize,
    message: &[u8],
) -> Result<Vec<u8>, NoMemory>
    ensures { IfOk result (λ page. page.items ≡ spec.placed_within text.now place ++ message.now) }
{
    let mut page = Page::from_bytes(place_of(alloc, text, text.len().min(place))?);
    page.add(message)?;
    Ok(page.into_bytes())
}
