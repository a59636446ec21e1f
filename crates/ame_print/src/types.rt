//! Types.

ghost use Rattle.std.specs.Prelude.{◌≡◌, OnOk};
ghost use Rattle.ame_term.specs.View.{typ_of};
ghost use Rattle.ame_print.specs.Printer.{with_tokens};
ghost use Rattle.ame_print.specs.Tokens.{type_tokens};

use crate::heads::{effect, sort};
use crate::token_page::TokenPage;
use ame_term::{NoMemory, Ty};

/// Prints a type.
#[tactic(auto, using(crate::proofs::PrinterLemmas::append), unfolding(crate::specs::Tokens::type_tokens))]
pub fn ty(page: &mut TokenPage, shown: &Ty) -> Result<(), NoMemory>
    ensures { OnOk result (page.new ≡ with_tokens page.old (type_tokens (typ_of shown.now))) }
{
    match shown {
        Ty::Unit => page.word(b"Unit"),
        Ty::Bool => page.word(b"Bool"),
        Ty::Int => page.word(b"Int"),
        Ty::Ref(which, content) => {
            page.begin(b"Ref")?;
            sort(page, *which)?;
            ty(page, content)?;
            page.close()
        }
        Ty::Fun(under, param, result_ty) => {
            page.begin(b"Fun")?;
            effect(page, *under)?;
            ty(page, param)?;
            ty(page, result_ty)?;
            page.close()
        }
        Ty::Pair(first, second) => {
            page.begin(b"Pair")?;
            ty(page, first)?;
            ty(page, second)?;
            page.close()
        }
    }
}
