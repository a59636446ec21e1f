//! A term with its redex between marks.

ghost use Rattle.std.specs.Prelude.{◌≡◌, IfOk, OnOk, length};
ghost use Rattle.ame_term.specs.View.{tree_of};
ghost use Rattle.ame_print.specs.Printer.{spelling_of};
ghost use Rattle.ame_labels.specs.Marked as spec;

use ame_page::Page;
use ame_print::print_term;
use ame_term::{Name, NoMemory, Split, Term, copy_term, refill, split};
use std::alloc::Global;

/// Returns the text of a term with its redex between marks. The names are as before.
#[tactic(auto, unfolding(crate::specs::Marked::marked_text))]
pub(crate) fn marked_text(
    alloc: Global,
    names: &mut Vec<Vec<u8>>,
    term: &Term,
) -> Result<Vec<u8>, NoMemory>
    ensures text { IfOk result (λ text. text.items ≡ spec.marked_text (spelling_of names.old.items) (tree_of term.now)) }
    ensures names { OnOk result (spelling_of names.new.items ≡ spelling_of names.old.items) }
{
    match split(term) {
        Split::Value(_) => print_term(alloc, names, term),
        Split::Redex { redex, .. } => {
            let mut shown = copy_term(alloc, term)?;
            refill(&mut shown, Term::Var(next_name(names)?));
            let redex = marked_redex(alloc, names, redex)?;
            names.push(redex)?;
            let text = print_term(alloc, names, &shown);
            let _ = names.pop();
            text
        }
    }
}

/// Returns the number of the next name.
fn next_name(names: &[Vec<u8>]) -> Result<Name, NoMemory>
    ensures { IfOk result (λ name. name.0 ≡ length names.now) }
{
    match u32::try_from(names.len()) {
        Ok(number) => Ok(Name(number)),
        Err(_) => Err(NoMemory),
    }
}

/// Returns the text of a redex between marks.
fn marked_redex(alloc: Global, names: &[Vec<u8>], redex: &Term) -> Result<Vec<u8>, NoMemory>
    ensures { IfOk result (λ text. text.items ≡ spec.marked_redex (spelling_of names.now) (tree_of redex.now)) }
{
    let shown = print_term(alloc, names, redex)?;
    let mut text = Page::new(alloc);
    text.add(b">")?;
    text.add(&shown)?;
    text.add(b"<")?;
    Ok(text.into_bytes())
}
