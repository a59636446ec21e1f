//! A place as editors read it.

ghost use Rattle.std.specs.Prelude.{◌≡◌, IfOk};
ghost use Rattle.ame_why.specs.Heading as spec;

use crate::position::append_position;
use crate::position_of;
use ame_page::Page;
use ame_term::NoMemory;
use std::alloc::Global;

/// Returns a heading: the name of a text, the line and the column of a place (or of the end, if the text is shorter), and a verdict.
pub fn heading_of(
    alloc: Global,
    name: &[u8],
    text: &[u8],
    place: u32,
    told: &[u8],
) -> Result<Vec<u8>, NoMemory>
    ensures { IfOk result (λ page. page.items ≡ spec.heading name.now text.now place told.now) }
{
    let at = position_of(text, (place as usize).min(text.len()));
    let mut page = Page::new(alloc);
    page.add(name)?;
    page.add(b":")?;
    append_position(&mut page, Some(at))?;
    page.add(b": ")?;
    page.add(told)?;
    Ok(page.into_bytes())
}
