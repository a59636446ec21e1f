//! Reading a list of words.
ghost use Rattle.std.specs.Prelude.{◌≡◌, ◌≢◌, ◌⊎◌, [], map, string_bytes, IfOk, IfErr, Ok, Err};
ghost use Rattle.ame_cli.specs.Grammar.{SpellsCommand, SpellsNothing};
ghost use Rattle.ame_cli.specs.Ranges.{IsInRange};
ghost use Rattle.ame_cli.specs.declared.command.Command.{Command as Cmd};
ghost use Rattle.ame_cli.specs.Syntax as spec;
ghost use Rattle.clap.specs.Words.{fault_of, kind_of, subcommand_of, subcommand_rows_of};
ghost use Rattle.clap.specs.declared.error.ErrorKind.TheVariants.{OutOfMemory};

use crate::command::{CliFail, Command, Options};
use crate::given::command_in;
use crate::screen::may_be_read;
use crate::syntax::syntax;
use clap::error::ErrorKind;
use clap::{ArgMatches, Error};
use std::alloc::Global;

/// Returns the command that words ask for. Its cost is linear in the words.
pub fn read_words(alloc: Global, words: &[String]) -> Result<Command, CliFail>
    // The answer is the command that the words spell.
    ensures ok { IfOk result (SpellsCommand (map string_bytes words.now)) }

    ensures ranges { IfOk result IsInRange }

    // The command that they spell is answered, unless memory runs out.
    ensures spelled { (command : Cmd) → SpellsCommand (map string_bytes words.now) command → (result ≡ Ok command) ⊎ (result ≡ Err CliFail.NoMemory) }

    // `Usage`, or `NoMemory` in its place, comes if and only if they spell nothing.
    ensures usage { result ≡ Err CliFail.Usage → SpellsNothing (map string_bytes words.now) }
    ensures nothing { SpellsNothing (map string_bytes words.now) → (result ≡ Err CliFail.Usage) ⊎ (result ≡ Err CliFail.NoMemory) }
{
    if words.is_empty() {
        return Ok(Command::Run(Options::default()));
    }
    if !may_be_read(words) {
        return Err(CliFail::Usage);
    }
    match parse(alloc, words) {
        Err(fail) => Err(fail),
        Ok(matches) => match command_in(&matches) {
            Some(command) => Ok(command),
            None => Err(CliFail::Usage),
        },
    }
}

/// Returns the matches that `clap` finds in the words.
fn parse<'a>(alloc: Global, words: &'a [String]) -> Result<ArgMatches<'a>, CliFail>
    ensures ok { IfOk result (λ m. fault_of spec.syntax (map string_bytes words.now) ≡ []) }
    ensures rows { IfOk result (λ m. subcommand_rows_of m ≡ subcommand_of spec.syntax (map string_bytes words.now)) }
    ensures usage { IfErr result (λ fail. fail ≡ CliFail.Usage → fault_of spec.syntax (map string_bytes words.now) ≢ []) }
{
    let syntax = match syntax(alloc) {
        Ok(syntax) => syntax,
        Err(_) => return Err(CliFail::NoMemory),
    };
    match syntax.try_get_matches_from(words) {
        Ok(matches) => Ok(matches),
        Err(error) => Err(fail_of(&error)),
    }
}

/// Returns the reason why `clap` refused.
fn fail_of(error: &Error) -> CliFail
    ensures { result ≡ CliFail.Usage → kind_of error.now ≢ OutOfMemory }
{
    match error.kind() {
        ErrorKind::OutOfMemory => CliFail::NoMemory,
        _ => CliFail::Usage,
    }
}
