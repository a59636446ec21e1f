//! From the text of a program to code.

ghost use Rattle.std.specs.Prelude.{◌≡◌, ◌≤◌, Ok, IfOk, IfErr, length};
ghost use Rattle.std.specs.Arc.{arc_value};
ghost use Rattle.ame_types.specs.Limits.{max_devices};
ghost use Rattle.ame_term.specs.Tree.{Typ};
ghost use Rattle.ame_term.specs.View.{tree_of};
ghost use Rattle.ame_term.specs.Typing.{typing};
ghost use Rattle.ame_app.specs.Texts.{IsProgramOf};
ghost use Rattle.ame_app.specs.Jobs.{IsTextStatus};

use crate::status::Status;
use ame_code::{Code, compile};
use ame_io::READ_LIMIT;
use ame_lex::lex;
use ame_parse::parse;
use ame_term::Accepted;
use ame_types::check;
use std::alloc::Global;
use std::sync::Arc;

/// Reads, types and compiles a text. The error is the status of a text that is no typed program, or `NoMemory`.
pub fn code_of(alloc: Global, text: &[u8], devices: u32) -> Result<Arc<Code>, Status>
    requires small { length text.now ≤ READ_LIMIT }
    requires few { devices ≤ max_devices }
    ensures program { IfOk result (λ code. IsProgramOf text.now devices (arc_value code).accepted) }
    ensures refused { IfErr result (IsTextStatus text.now devices) }
{
    let tokens = lex(alloc, text)?;
    let program = parse(alloc, text, &tokens)?;
    let accepted = check(alloc, program, devices)?;
    accepted_is_typed(&accepted);
    Ok(Arc::new(alloc, compile(alloc, accepted)?)?)
}

/// Says that an accepted program is Unit under protected.
fn accepted_is_typed(accepted: &Accepted)
    ensures { typing accepted.now.devices accepted.now.program.places.items (tree_of accepted.now.program.term) ≡ Ok Typ.Unit }
{}
