//! The program of a text, and machines that run it.

ghost use Rattle.std.specs.Prelude.{◌≤◌};
ghost use Rattle.ame_machine_cases.specs.Alone.{IsAlone};
ghost use Rattle.ame_types.specs.Limits.{max_devices};

use crate::lone::Lone;
use ame_code::{Code, compile};
use ame_lex::lex;
use ame_machine::Wants;
use ame_parse::parse;
use ame_term::{Accepted, NoMemory, Program};
use ame_types::check;
use std::alloc::Global;
use std::process::Abort;
use std::test::Fail;

/// Reads the program of a text, without a check of types.
pub(crate) fn read(alloc: Global, text: &[u8]) -> Result<Program, Fail> {
    if text.len() > 1_048_576 {
        return Err("too long".into());
    }
    let tokens = lex(alloc, text)?;
    Ok(parse(alloc, text, &tokens)?)
}

/// Reads and accepts the program of a text that may call this number of devices.
pub(crate) fn accept(alloc: Global, text: &[u8], devices: u32) -> Result<Accepted, Fail>
    requires { devices ≤ max_devices }
{
    let program = read(alloc, text)?;
    match check(alloc, program, devices) {
        Ok(accepted) => Ok(accepted),
        Err(_) => Err("not typed".into()),
    }
}

/// Compiles a text that may call two devices.
pub(crate) fn code_of(alloc: Global, text: &[u8]) -> Result<Code, Fail> {
    Ok(compile(alloc, accept(alloc, text, 2)?)?)
}

/// Runs a machine to what it wants next. If memory is refused once, it goes on from there.
pub(crate) fn run(
    rt: &impl Abort,
    alloc: Global,
    code: &Code,
    lone: &mut Lone,
    fuel: u32,
) -> Result<Wants, NoMemory>
    requires { IsAlone code.now lone.old }
    ensures { IsAlone code.now lone.new }
{
    assert!(rt; lone.is_young());
    match lone.advance(alloc, code, fuel) {
        Ok(want) => Ok(want),
        Err(NoMemory) => {
            assert!(rt; lone.is_young());
            lone.advance(alloc, code, fuel)
        }
    }
}

/// Feeds a machine what it wants; whether it wanted anything.
pub(crate) fn serve(rt: &impl Abort, code: &Code, lone: &mut Lone) -> Result<bool, NoMemory>
    requires { IsAlone code.now lone.old }
    ensures { IsAlone code.now lone.new }
{
    assert!(rt; lone.is_young());
    lone.serve(code)
}
