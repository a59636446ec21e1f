//! The generated program, read from its text and accepted.

ghost use Rattle.std.specs.Prelude.{◌≡◌, ◌≤◌, Ok, IsOk, IfOk, length, map};
ghost use Rattle.ame_gen.specs.declared.numbers.TheConstants.{SEED_LIMIT};
ghost use Rattle.ame_gen.specs.declared.text.TheConstants.{SIZE_LIMIT};
ghost use Rattle.ame_lex.specs.Bytes.{max_text};
ghost use Rattle.ame_parse.specs.Text.{reading, source_of};
ghost use Rattle.ame_term.specs.Tree.{Typ};
ghost use Rattle.ame_term.specs.Typing.{typing};
ghost use Rattle.ame_term.specs.View.{tree_of};
ghost use Rattle.ame_text_cases.specs.Workload.{workload_names, workload_term};
ghost use Rattle.ame_types.specs.Limits.{max_devices};

use crate::laws::{text_is_accepted, text_is_read};
use ame_gen::generate;
use ame_lex::{LexFault, lex};
use ame_parse::{ParseFault, bytes_come_first, parse};
use ame_term::{Accepted, NoMemory, Program};
use ame_types::{TypesFail, check};
use std::alloc::Global;

/// Reads the program of a text.
fn program_of(alloc: Global, text: &[u8]) -> Result<Program, NoMemory>
    requires short { length text.now ≤ max_text }
    requires reads { IsOk (reading text.now) }
    ensures { IfOk result (λ program. reading text.now ≡ Ok (source_of program)) }
{
    bytes_come_first();
    let tokens = match lex(alloc, text) {
        Ok(tokens) => tokens,
        Err(LexFault::BadByte(_)) | Err(LexFault::LongNumber(_)) => unreachable!(),
        Err(LexFault::NoMemory) => return Err(NoMemory),
    };
    match parse(alloc, text, &tokens) {
        Ok(program) => Ok(program),
        Err(ParseFault::NoMemory) => Err(NoMemory),
        Err(_) => unreachable!(),
    }
}

/// Accepts a typed program.
fn accepted_of(alloc: Global, program: Program, devices: u32) -> Result<Accepted, NoMemory>
    requires devices { devices ≤ max_devices }
    requires typed { typing devices program.places.items (tree_of program.term) ≡ Ok Typ.Unit }
    ensures program { IfOk result (λ a. a.program ≡ program) }
    ensures devices { IfOk result (λ a. a.devices ≡ devices) }
{
    match check(alloc, program, devices) {
        Ok(accepted) => Ok(accepted),
        Err(TypesFail::TooLarge | TypesFail::NoMemory) => Err(NoMemory),
        Err(TypesFail::Fault(_)) => unreachable!(),
    }
}

/// Reads the generated program from its text, and accepts it on this number of devices. No text has an error, but memory may run out.
pub fn accepted_workload(
    alloc: Global,
    seed: u32,
    size: u32,
    devices: u32,
) -> Result<Accepted, NoMemory>
    requires seed { seed ≤ SEED_LIMIT }
    requires some { 1 ≤ size }
    requires most { size ≤ SIZE_LIMIT }
    requires devices { devices ≤ max_devices }
    ensures names { IfOk result (λ a. map (λ name. name.items) a.program.names.items ≡ workload_names) }
    ensures term { IfOk result (λ a. tree_of a.program.term ≡ workload_term seed size) }
    ensures devices { IfOk result (λ a. a.devices ≡ devices) }
{
    text_is_read();
    text_is_accepted();
    let Ok(text) = generate(alloc, seed, size) else {
        return Err(NoMemory);
    };
    let program = program_of(alloc, &text)?;
    accepted_of(alloc, program, devices)
}
