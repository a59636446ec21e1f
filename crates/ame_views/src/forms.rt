//! The places of the `ref` forms that created locations.

ghost use Rattle.std.specs.Prelude.{◌≡◌, ◌++◌, ◌≤◌, All, IfOk, OnOk, length, slice_get};
ghost use Rattle.std.specs.List.{flat_map};
ghost use Rattle.ame_lex.specs.Bytes.{max_text};
ghost use Rattle.ame_lex.specs.Reading as reading;
ghost use Rattle.ame_lex.specs.Tokens.{IsWithin};
ghost use Rattle.ame_why.specs.Open.{tokens_or_none};
ghost use Rattle.ame_views.specs.Forms as spec;

use crate::line_index::LineIndex;
use ame_lex::Token;
use ame_page::Page;
use ame_term::{Loc, NoMemory, TyNo, push};
use ame_why::{Position, append_position, tokens_of};
use std::alloc::Global;

/// A location, and the `ref` form that made it.
#[derive(Clone, Copy, PartialEq, Eq, Debug)]
pub struct Created {
    pub location: Loc,
    pub form: TyNo,
}

/// Returns a line that names the columns, and a line for each location: the line and the column of the word of the `ref` form that made it.
/// Forms are counted from 0 in the order of the text. Time is linear in the text and in the locations, and logarithmic in the lines for
/// each form.
pub fn forms_of(alloc: Global, text: &[u8], made: &[Created]) -> Result<Vec<u8>, NoMemory>
    requires { length text.now ≤ max_text }
    ensures { IfOk result (λ page. page.items
        ≡ spec.form_table (spec.positions text.now (tokens_or_none (reading.tokens_of text.now))) made.now) }
{
    let lines = LineIndex::of(alloc, text)?;
    let places = positions_in(alloc, &lines)?;
    let mut page = Page::new(alloc);
    page.add(b"location  ref form\n")?;
    append_forms(&mut page, &places, made)?;
    Ok(page.into_bytes())
}

/// Returns the places of the `ref` forms of a text; none if the text has an error.
pub(crate) fn positions_in(alloc: Global, lines: &LineIndex) -> Result<Vec<Position>, NoMemory>
    requires { length lines.now.text.now ≤ max_text }
    ensures { IfOk result (λ places. places.items
        ≡ spec.positions lines.now.text.now (tokens_or_none (reading.tokens_of lines.now.text.now))) }
{
    let tokens = tokens_of(alloc, lines.text)?;
    positions(alloc, lines, &tokens)
}

/// Returns the places of the `ref` forms among the tokens of a text.
fn positions(alloc: Global, lines: &LineIndex, tokens: &[Token]) -> Result<Vec<Position>, NoMemory>
    requires { All (IsWithin lines.now.text.now) tokens.now }
    ensures { IfOk result (λ places. places.items ≡ spec.positions lines.now.text.now tokens.now) }
{
    let mut places = Vec::new(alloc);
    for token in tokens {
        note_form(&mut places, lines, token)?;
    }
    Ok(places)
}

/// Appends the place of a token, if it is the word of a `ref` form.
#[tactic(auto, unfolding(crate::specs::Forms::form_position))]
fn note_form(places: &mut Vec<Position>, lines: &LineIndex, token: &Token) -> Result<(), NoMemory>
    requires { IsWithin lines.now.text.now token.now }
    ensures { OnOk result (places.new.items ≡ places.old.items ++ spec.form_position lines.now.text.now token.now) }
{
    if is_form(lines.text, token) {
        push(places, lines.position(token.start as usize))?;
    }
    Ok(())
}

/// Returns whether a token is the word of a `ref` form.
fn is_form(text: &[u8], token: &Token) -> bool
    requires { IsWithin text.now token.now }
    ensures { result ≡ spec.is_form text.now token.now }
{
    &text[token.start as usize..token.end as usize] == b"ref".as_slice()
}

/// Appends a row for each location.
fn append_forms(page: &mut Page, places: &[Position], made: &[Created]) -> Result<(), NoMemory>
    ensures { OnOk result (page.new ≡ page.old ++ flat_map (spec.form_row places.now) made.now) }
{
    for one in made {
        append_form(page, places, *one)?;
    }
    Ok(())
}

/// Appends the row of a location.
#[tactic(auto, unfolding(crate::specs::Forms::form_row))]
fn append_form(page: &mut Page, places: &[Position], made: Created) -> Result<(), NoMemory>
    ensures { OnOk result (page.new ≡ page.old ++ spec.form_row places.now made) }
{
    page.add_column(8, u64::from(made.location.0))?;
    page.add(b" ")?;
    append_position(page, position_at(places, made.form))?;
    page.add(b"\n")
}

/// Returns the position of the form with this number.
pub(crate) fn position_at(places: &[Position], form: TyNo) -> Option<Position>
    ensures { result ≡ slice_get places.now form.0 }
{
    if (form.0 as usize) < places.len() {
        Some(places[form.0 as usize])
    } else {
        None
    }
}
