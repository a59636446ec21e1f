//! The canonical text of a type, a term or a program.

ghost use Rattle.std.specs.Prelude.{◌≡◌, IfOk, List, Ok, ℕ};
ghost use Rattle.ame_term.specs.View.{typ_of, tree_of};
ghost use Rattle.ame_parse.specs.Text.{reading, source_of};
ghost use Rattle.ame_print.specs.Again.{ReadsAs, source_text};
ghost use Rattle.ame_print.specs.Printer.{spelling_of};
ghost use Rattle.ame_print.specs.Tokens.{type_text, term_text};

use crate::terms::term;
use crate::theorems::printed_is_read;
use crate::token_page::TokenPage;
use crate::types::ty;
use ame_term::{NoMemory, Program, Term, Ty};
use std::alloc::Global;

/// Returns the canonical text of a type.
#[tactic(auto, using(crate::proofs::PrinterLemmas::text_of_page))]
pub fn print_ty(alloc: Global, shown: &Ty) -> Result<Vec<u8>, NoMemory>
    ensures { IfOk result (λ text. text.items ≡ type_text (typ_of shown.now)) }
{
    let mut page = TokenPage::new(alloc);
    ty(&mut page, shown)?;
    Ok(page.into_text())
}

/// Returns the canonical text of a term, with these spellings for its names. Its time is linear in the text.
#[tactic(auto, using(crate::proofs::PrinterLemmas::text_of_page))]
pub fn print_term(alloc: Global, names: &[Vec<u8>], shown: &Term) -> Result<Vec<u8>, NoMemory>
    ensures { IfOk result (λ text. text.items ≡ term_text (spelling_of names.now) (tree_of shown.now)) }
{
    let mut page = TokenPage::new(alloc);
    term(&mut page, names, shown)?;
    Ok(page.into_text())
}

/// Returns the canonical text of a program. If the program was read from a text, then the canonical text is read as a
/// program with the same names and the same term.
pub fn print_program(alloc: Global, program: &Program) -> Result<Vec<u8>, NoMemory>
    ensures exact { IfOk result (λ text. text.items ≡ source_text (source_of program.now)) }
    ensures again { IfOk result (λ text. (from : List ℕ) → reading from ≡ Ok (source_of program.now) → ReadsAs text.items (source_of program.now)) }
{
    printed_is_read();
    let text = print_term(alloc, program.names.as_slice(), &program.term)?;
    Ok(text)
}
